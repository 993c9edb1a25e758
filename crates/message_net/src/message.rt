ghost use Rattle.std.specs.Prelude.{◌≡◌, ◌<◌, Some};
ghost use Rattle.message_net.specs.Kind.{kind_of};
ghost use Rattle.message_net.specs.Mail.{to_core, to_home, to_keeper, mail_of};

use crate::actor::{Actor, MailId};
use crate::event::EventKind;
use dn_base::{BankId, CoreId, LockId, PhaseId, WordId, remainder};
use write_signature::Signature;

/// A message from one actor to another.
#[derive(Clone, Copy, Debug, PartialEq, Eq)]
pub enum Message {
    /// A reader asks the word's home for its value.
    ReadReq {
        word: WordId,
        reader: CoreId,
    },
    /// The home forwards the read to the word's owner, which is to answer the reader.
    ReadFwd {
        word: WordId,
        reader: CoreId,
    },
    /// The value of a word, for its reader.
    DataReply {
        word: WordId,
        value: u32,
    },
    /// A core that stores to a word asks the word's home to make it the owner.
    RegReq {
        word: WordId,
        core: CoreId,
    },
    /// The home tells the earlier owner that the core is the owner now.
    RegFwd {
        word: WordId,
        core: CoreId,
    },
    /// The core is told that it is the word's owner.
    RegAck {
        word: WordId,
    },
    /// A core that evicts a registered word gives its value back to the word's home.
    WriteBack {
        word: WordId,
        value: u32,
        core: CoreId,
    },
    /// The home acknowledges a write-back.
    WbAck {
        word: WordId,
    },
    /// A core asks a lock's home for the lock.
    Acquire {
        lock: LockId,
        core: CoreId,
    },
    /// A core gives a lock up, with the signature of the words that were written under it.
    Release {
        lock: LockId,
        core: CoreId,
        signature: Signature,
    },
    /// The lock is granted to the core; the signature has the words that were written under it.
    Grant {
        lock: LockId,
        signature: Signature,
    },
    /// A core has arrived at the barrier; `bad` where its task ended by a trap or because it ran out of fuel.
    Arrived {
        core: CoreId,
        bad: bool,
    },
    /// The next phase begins.
    Go {
        phase: PhaseId,
    },
    /// The run is over.
    Halt,
}

/// A message in flight, with its id and where it goes.
#[derive(Clone, Copy, Debug, PartialEq, Eq)]
pub struct Mail {
    pub id: MailId,
    pub to: Actor,
    pub message: Message,
}

/// A message that an actor sends, and where it goes.
#[derive(Clone, Copy, PartialEq, Eq)]
pub struct Outgoing {
    pub to: Actor,
    pub message: Message,
}

impl Message {
    /// The kind of event in which the message is handled: the one with its name.
    #[inline(always)]
    pub fn kind(&self) -> EventKind
        ensures { result ≡ kind_of self.now }
    {
        match self {
            Message::ReadReq { .. } => EventKind::ReadReq,
            Message::ReadFwd { .. } => EventKind::ReadFwd,
            Message::DataReply { .. } => EventKind::DataReply,
            Message::RegReq { .. } => EventKind::RegReq,
            Message::RegFwd { .. } => EventKind::RegFwd,
            Message::RegAck { .. } => EventKind::RegAck,
            Message::WriteBack { .. } => EventKind::WriteBack,
            Message::WbAck { .. } => EventKind::WbAck,
            Message::Acquire { .. } => EventKind::Acquire,
            Message::Release { .. } => EventKind::Release,
            Message::Grant { .. } => EventKind::Grant,
            Message::Arrived { .. } => EventKind::Arrived,
            Message::Go { .. } => EventKind::Go,
            Message::Halt => EventKind::Halt,
        }
    }
}

impl Outgoing {
    /// A message to a core.
    #[inline(always)]
    pub fn to_core(core: CoreId, message: Message) -> Outgoing
        ensures { Some result ≡ to_core core message }
    {
        Outgoing {
            to: Actor::Core(core),
            message,
        }
    }

    /// A message to the home of the word or lock with this number, in a machine with so many banks.
    #[inline(always)]
    pub fn to_home(banks: u32, number: u32, message: Message) -> Outgoing
        requires { 0 < banks }
        ensures { Some result ≡ to_home banks number message }
    {
        Outgoing {
            to: Actor::Bank(BankId(remainder(number, banks))),
            message,
        }
    }

    /// A message to the barrier controller of the barrier.
    pub fn to_keeper(message: Message) -> Outgoing
        ensures { Some result ≡ to_keeper message }
    {
        Outgoing {
            to: Actor::Keeper,
            message,
        }
    }

    /// The message that the message becomes, with its sender and that sender's number for it.
    #[inline(always)]
    pub fn mail(&self, from: Actor, number: u32) -> Mail
        ensures { result ≡ mail_of from number self.now }
    {
        Mail {
            id: MailId {
                sender: from,
                number,
            },
            to: self.to,
            message: self.message,
        }
    }
}
