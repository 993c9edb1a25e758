use crate::value::Value;
use dn_base::{CoreId, LockId, Outcome, PhaseId, Sequence};
use rv_core::TaskEnd;

/// Why it is open what the runs of a text have in common.
#[derive(Clone, Copy, PartialEq, Eq)]
pub enum Open {
    /// What the task does at this address depends on a value that the order of grants may decide.
    Control {
        phase: PhaseId,
        core: CoreId,
        pc: u32,
    },
    /// The task ends while it holds a lock that another task takes.
    Held {
        phase: PhaseId,
        core: CoreId,
        lock: LockId,
    },
    /// The lock is on a circle of locks, each taken while the one before it is held.
    Stuck {
        phase: PhaseId,
        lock: LockId,
    },
}

/// What the runs of a text have in common: their outcome, how each task ends, and of each data word what is known.
#[derive(Drop)]
pub struct Common {
    pub outcome: Outcome,
    pub tasks: Sequence<TaskEnd>,
    pub memory: Sequence<Value>,
}

#[derive(Drop)]
pub enum Outcomes {
    Settled { common: Common },
    Open { open: Open },
}
