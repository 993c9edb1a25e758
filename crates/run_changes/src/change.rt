use dn_base::{CoreId, LoadSeen, LockId, PhaseId, Sequence, WordId};
use message_net::{Actor, EventKind, Outgoing};
use registration_protocol::NodeWait;
use registry_bank::BankWord;
use rv_core::End;
use word_cache::Entry;
use write_signature::Signature;

/// One change of an actor's state, or what its event read or wrote.
#[derive(Drop)]
pub enum Change {
    /// The core no longer has an entry of the word.
    Gone(WordId),
    /// The core's entry of the word is now this one.
    Holds(WordId, Entry),
    /// An instruction of the core's task has retired, and the program counter is now this one.
    Retired {
        pc: u32,
    },
    /// The core's task is at this program counter and has retired this many instructions. No event makes this change: it only
    /// occurs in the changes since a run began.
    At {
        pc: u32,
        retired: u32,
    },
    /// The core's task has ended in this way. The instruction that finishes a task retires.
    Ended(End),
    /// The core now waits for this.
    Waits(NodeWait),
    /// The core's task holds the lock.
    Takes(LockId),
    /// The core's task no longer holds the lock.
    Gives(LockId),
    /// At a core: its signature for the lock is now this one. At a bank: the signature at the lock's home is.
    Signed(LockId, Signature),
    /// The core has arrived at the barrier.
    Arrived,
    /// The core has halted.
    Halted,
    /// A phase has begun for the core: it has the phase's task at its entry, if there is one; it waits for nothing; it has
    /// empty signatures of the phase; and it hasn't arrived.
    Begins(PhaseId),
    /// The home of the word now holds this for it.
    Home(WordId, BankWord),
    /// The lock's holder and queue at its home, in the order in which the cores wait.
    Queue {
        lock: LockId,
        holder: Option<CoreId>,
        waiting: Sequence<CoreId>,
    },
    /// The barrier controller's phase, whether it has heard of a task that ended badly, and the cores that have arrived.
    Barrier {
        phase: PhaseId,
        bad: bool,
        arrived: Sequence<CoreId>,
    },
    /// Not a change: the load that retired read this.
    Loaded(LoadSeen),
    /// Not a change: the store that retired left this value in the word.
    Stored(WordId, u32),
}

/// Changes of an actor.
#[derive(Drop)]
pub struct ActorChanges {
    pub actor: Actor,
    pub changes: Sequence<Change>,
}

/// An event that was made: its actor, its kind, the changes of the actor's state, and what the actor sent.
#[derive(Drop)]
pub struct EventMade {
    pub actor: Actor,
    pub kind: EventKind,
    pub changes: Sequence<Change>,
    pub sent: Sequence<Outgoing>,
}
