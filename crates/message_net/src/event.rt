ghost use Rattle.std.specs.Prelude.{◌≡◌, ◌<◌};
ghost use Rattle.message_net.specs.Kind.{kind_index, own_kind};

use crate::actor::MailId;
use dn_base::{CoreId, WordId};

/// One event of the machine.
#[derive(Clone, Copy, Debug, PartialEq, Eq)]
pub enum Event {
    /// An instruction of the core's task, or its request for what it lacks.
    Instr(CoreId),
    /// The core evicts its entry of the word, to make room for another word.
    Evict(CoreId, WordId),
    /// The core arrives at the barrier.
    Arrive(CoreId),
    /// The message is handled by the actor that it goes to.
    Handle(MailId),
}

impl Event {
    /// The kind of a core's own event. For the handling of a message it has no meaning: that event has the kind of the message's
    /// message.
    #[inline(always)]
    pub fn own_kind(&self) -> EventKind
        ensures { result ≡ own_kind self.now }
    {
        match self {
            Event::Instr(_) | Event::Handle(_) => EventKind::Instr,
            Event::Evict(_, _) => EventKind::Evict,
            Event::Arrive(_) => EventKind::Arrive,
        }
    }
}

/// The kinds of event: a core's own, and the handling of each kind of message. Counts and ticks stand in this order.
#[derive(Clone, Copy, Debug, PartialEq, Eq)]
pub enum EventKind {
    Instr,
    Evict,
    Arrive,
    ReadReq,
    ReadFwd,
    DataReply,
    RegReq,
    RegFwd,
    RegAck,
    WriteBack,
    WbAck,
    Acquire,
    Release,
    Grant,
    Arrived,
    Go,
    Halt,
}

impl EventKind {
    /// The index of the kind among the seventeen.
    #[inline(always)]
    pub fn index(self) -> usize
        ensures value { result ≡ kind_index self }
        ensures within { result < 17 }
    {
        self as usize
    }
}
