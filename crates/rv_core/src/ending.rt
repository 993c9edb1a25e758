ghost use Rattle.std.specs.Prelude.{◌≡◌};
ghost use Rattle.std.specs.List.{list_any};
ghost use Rattle.rv_core.specs.Ending.{shown_end, outcome_of, is_waiting, is_trapped, is_spent};

use crate::task::{End, TrapKind};
use dn_base::{CoreId, LockId, Outcome, PhaseId, Sequence};

/// How a started task stands at the end of a run.
#[derive(Clone, Copy, Debug, PartialEq, Eq)]
pub enum EndShown {
    /// It ended by its ECALL with 0 in a7.
    Finished,
    /// It ran out of fuel.
    Fuel,
    /// It ended by a trap: its kind, the address of its instruction in bytes, and the kind's value.
    Trap { kind: TrapKind, pc: u32, value: u32 },
    /// It waits for this lock.
    Waits { lock: LockId },
}

impl From<End> for EndShown {
    ghost from_gives = { λ end shown. shown ≡ shown_end end };

    fn from(end: End) -> EndShown {
        match end {
            End::Finished => EndShown::Finished,
            End::Fuel => EndShown::Fuel,
            End::Trap { kind, pc, value } => EndShown::Trap { kind, pc, value },
        }
    }
}

/// How the task of a core in a phase stands at the end of a run, and how many instructions it has retired.
#[derive(Clone, Copy, Debug, PartialEq, Eq)]
pub struct TaskEnd {
    pub phase: PhaseId,
    pub core: CoreId,
    pub end: EndShown,
    pub retired: u32,
}

/// How a run ended: its outcome, the tasks that started in the order of their phases and cores, and the data words at the end.
#[derive(Drop)]
pub struct Ending {
    pub outcome: Outcome,
    pub tasks: Sequence<TaskEnd>,
    pub memory: Sequence<u32>,
}

/// The outcome of a run in which the started tasks stand so: stuck if one waits for a lock, else trapped if one trapped, else
/// fuel if one ran out of fuel, else done.
#[tactic(auto, unfolding(crate::specs::Ending::outcome_of))]
pub fn outcome(ends: &[TaskEnd]) -> Outcome
    ensures { result ≡ outcome_of ends.now }
{
    if any_waits(ends) {
        Outcome::Stuck
    } else if any_traps(ends) {
        Outcome::Trapped
    } else if any_is_spent(ends) {
        Outcome::Fuel
    } else {
        Outcome::Done
    }
}

fn any_waits(ends: &[TaskEnd]) -> bool
    ensures { result ≡ list_any (λ e. is_waiting e.end) ends.now }
{
    ends.iter().any(|e| matches!(e.end, EndShown::Waits { .. }))
}

fn any_traps(ends: &[TaskEnd]) -> bool
    ensures { result ≡ list_any (λ e. is_trapped e.end) ends.now }
{
    ends.iter().any(|e| matches!(e.end, EndShown::Trap { .. }))
}

fn any_is_spent(ends: &[TaskEnd]) -> bool
    ensures { result ≡ list_any (λ e. is_spent e.end) ends.now }
{
    ends.iter().any(|e| matches!(e.end, EndShown::Fuel))
}
