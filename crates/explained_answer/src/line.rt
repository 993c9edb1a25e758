use dn_base::{Grant, Outcome};
use message_net::EventKind;
use rv_core::TaskEnd;

/// What is counted of a run.
#[derive(Clone, Copy)]
pub enum Count {
    /// Its data words.
    Words,
    /// Its events.
    Events,
    /// Its events of a kind.
    Kind(EventKind),
    /// Its tasks that started.
    Tasks,
    /// The instructions that its tasks retired.
    Retired,
    /// The events of its longest chain.
    Links,
    /// The events of a refused document before the first whose line isn't complete.
    WholeEvents,
    /// The events of a refused document before the first that is not enabled.
    EnabledEvents,
}

/// A line without a number.
#[derive(Clone, Copy)]
pub enum FixedLine {
    /// No run of the program ends a task by the trap `outside`.
    Inside,
    /// The arguments are refused.
    Usage,
    /// The trace is refused: it has too many bytes,
    TooLarge,
    /// or doesn't begin as a trace,
    Head,
    /// or has bytes after its last event,
    Rest,
    /// or its run isn't complete.
    Incomplete,
}

/// An event of the longest chain.
#[derive(Clone, Copy)]
pub struct Link {
    /// The number of the event, from 0.
    pub event: u32,
    pub kind: EventKind,
    /// When the event finishes, in ticks from the start of the run.
    pub finish: u64,
}

/// A line that says something of a run, of a program, or of a refused document or command.
#[derive(Clone, Copy)]
pub enum AnswerLine {
    /// How the run ended.
    Outcome(Outcome),
    /// How a task that started stands at the end.
    Task(TaskEnd),
    /// The data word of this number, below 65,536, has this value at the end, which isn't 0.
    Word { word: u32, value: u32 },
    /// A lock was granted.
    Grant(Grant),
    /// How many of something there were.
    Count { of: Count, number: u32 },
    /// The sum of all data words modulo 2^32.
    Sum { value: u32 },
    /// How many ticks the run takes.
    Time { ticks: u64 },
    /// For how many ticks of its longest chain messages are under way.
    Network { ticks: u64 },
    /// An event of the longest chain.
    Link(Link),
    /// A checked program has this many phases, tasks and data words.
    Checked { phases: u32, tasks: u32, words: u32 },
    /// The prover can't say that the instruction at this address only uses what its task declares.
    Unbounded { phase: u32, core: u32, pc: u32 },
    /// The order of grants may decide the data word of this number, below 65,536.
    Varies { word: u32 },
    /// It is open what the runs have in common: what the instruction at this address does depends on a value that the order of grants
    /// may decide;
    OpenControl { phase: u32, core: u32, pc: u32 },
    /// or the task ends while it holds a lock that another one takes;
    OpenHeld { phase: u32, core: u32, lock: u32 },
    /// or the lock is on a cycle of locks.
    OpenStuck { phase: u32, lock: u32 },
    Fixed(FixedLine),
}
