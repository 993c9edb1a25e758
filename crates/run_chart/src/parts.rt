use crate::states::WordChange;
use dn_base::{CoreId, LockId, PhaseId, Sequence, Shape, WordId};
use message_net::{Actor, EventKind};
use rv_core::{End, Need};

/// What an event or a message is about.
#[derive(Clone, Copy)]
pub enum About {
    Nothing,
    /// The code word of this number, which is the task's next instruction.
    Code(u32),
    Word(WordId),
    Lock(LockId),
    Phase(PhaseId),
}

/// Where a message comes from: its sender, and the line of the event that sent it; None if that event is before the chart's first
/// row.
#[derive(Clone, Copy)]
pub struct Origin {
    pub sender: Actor,
    pub line: Option<u32>,
}

/// The row of an event.
#[derive(Drop)]
pub struct ChartRow {
    /// The event's number in its run, from 0.
    pub event: u32,
    /// The actor that makes the event.
    pub actor: Actor,
    pub kind: EventKind,
    /// What the event is about: the instruction, the word that is evicted, or what the message that it handles is about.
    pub about: About,
    /// What the instruction needs that the event makes; None where the event is no instruction of a task.
    pub need: Option<Need>,
    /// The phase of the barrier controller before the event.
    pub phase: PhaseId,
    /// Whether this phase ends with the event, and another begins.
    pub ends_phase: bool,
    /// The line on which the row begins, from 0.
    pub line: u32,
    /// How many lines the row has: one for the event, one for a task's end, and one for each change.
    pub lines: u32,
    /// Where the message comes from that the event handles, if it handles one.
    pub mail: Option<Origin>,
    /// The words for which the actor holds something else after the event, and what it holds.
    pub changes: Sequence<WordChange>,
    /// How the actor's task ends with the event, if it does.
    pub end: Option<End>,
    /// Whether the event is on the chain that the picture marks.
    pub on_chain: bool,
}

/// A message that an event of the chart sent and none of its events handles.
#[derive(Clone, Copy)]
pub struct LeavingMail {
    pub sender: Actor,
    /// The line of the event that sent it.
    pub sent: u32,
    pub to: Actor,
    pub kind: EventKind,
    pub about: About,
    /// Its own line, after all rows.
    pub line: u32,
}

/// A task that waits for a lock when the run ends.
#[derive(Clone, Copy)]
pub struct WaitingTask {
    pub core: CoreId,
    pub lock: LockId,
    /// Its own line, after all rows and leaving messages.
    pub line: u32,
}

/// How large a picture is.
#[derive(Clone, Copy, PartialEq, Eq)]
pub enum Fit {
    /// As wide as its columns and as high as its rows.
    Rows,
    /// 16:9, for slides: 1,280 by 720 points, into which what is larger or smaller is scaled.
    Slide,
}

/// The message chart of some events that follow each other in a run.
#[derive(Drop)]
pub struct Chart {
    /// The size of the machine.
    pub shape: Shape,
    /// How many instructions a task of it may retire.
    pub fuel: u32,
    /// The number of the range's first event, and of its last one, if there is one.
    pub first: u32,
    pub last: Option<u32>,
    /// How many events the run has.
    pub events: u32,
    /// Which cores and banks have a column, by their indices: cores come first.
    pub shown: Sequence<bool>,
    pub rows: Sequence<ChartRow>,
    pub leaving: Sequence<LeavingMail>,
    pub waiting: Sequence<WaitingTask>,
    /// How many lines these have in all.
    pub lines: u32,
    /// What the title says of the events that are left out.
    pub note: Sequence<u8>,
    /// How large the picture is.
    pub fit: Fit,
}
