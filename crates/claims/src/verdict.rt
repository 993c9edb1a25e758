use dn_base::{CoreId, LoadSeen, PhaseId, Sequence};

/// A load of a run: the task of a core in a phase, and the number of the load, from 0, in the order in which the task's loads
/// retire.
#[derive(Clone, Copy, Debug)]
pub struct LoadPlace {
    pub phase: PhaseId,
    pub core: CoreId,
    pub load: u32,
}

/// A verdict on a claim: it agrees with the run by its grants on one memory, or where it first differs.
#[derive(Debug, Drop)]
pub enum Verdict {
    /// The run by these grants has these loads, if loads are claimed, and this answer.
    Agrees,
    /// The grant of this number, from 0, isn't legal. The number after the last grant says that each grant is legal, but at the
    /// end of the list some task waits for a free lock.
    Grants {
        grant: u32,
    },
    /// The loads are claimed of tasks other than those that started, or in another order than that of the phases and cores.
    Tasks,
    /// This load is wrong. `right` is the load that should stand there, or None if the task has no such load.
    Load {
        place: LoadPlace,
        right: Option<LoadSeen>,
    },
    /// The line of this number of the answer, from 0, is wrong. `right` is the line that should stand there, without its
    /// newline, or None if the right answer has fewer lines.
    Answer {
        line: u32,
        right: Option<Sequence<u8>>,
    },
}
