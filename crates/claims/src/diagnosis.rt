use dn_base::{CoreId, LoadSeen, PhaseId, Sequence};
use flat_machine::{FlatAccess, GrantFault};

/// The first load that is claimed wrongly, in the order in which the one thread makes its loads.
#[derive(Clone, Copy, Debug)]
pub struct WrongLoad {
    /// The load as the thread makes it.
    pub load: FlatAccess,
    /// What is claimed of it; None if fewer loads of its task are claimed.
    pub claimed: Option<LoadSeen>,
    /// How many grants the thread had taken before.
    pub grants: usize,
    /// The last store to its word before it; None if there is none.
    pub stored: Option<FlatAccess>,
}

/// A task: the one of a core in a phase.
#[derive(Clone, Copy, Debug)]
pub struct TaskName {
    pub phase: PhaseId,
    pub core: CoreId,
}

/// What leads from a verdict to the fault.
#[derive(Debug, Drop)]
pub enum Diagnosis {
    /// The claim agrees.
    Agrees,
    /// Why the first grant that isn't legal isn't, or why the list may not end.
    Grants(Option<GrantFault>),
    /// How many tasks started, and the first of them that the claim lacks, or that it has too much.
    Tasks {
        started: usize,
        first: Option<TaskName>,
    },
    /// The earliest wrong load; None if each load that the thread makes is claimed as it is, and the claim has more.
    Load(Option<WrongLoad>),
    /// The line that is claimed in place of the right one, without its newline; None if the claimed answer has fewer lines.
    Answer(Option<Sequence<u8>>),
}
