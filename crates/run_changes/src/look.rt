use dn_base::{BankId, CoreId, LockId, PhaseId, Sequence, WordId};
use registration_protocol::NodeWait;
use registry_bank::BankWord;
use rv_core::{Need, TaskState};
use word_cache::Entry;
use write_signature::Signature;

/// A word, and the entry that a core has of it before an event.
#[derive(Clone, Copy)]
pub struct EntryBefore {
    pub word: WordId,
    pub entry: Option<Entry>,
}

/// A node before an event: all that the event may change of it.
#[derive(Drop)]
pub struct NodeLook {
    pub phase: PhaseId,
    pub task: Option<TaskState>,
    /// What the instruction needs, if the event is one.
    pub needs: Option<Need>,
    pub wait: NodeWait,
    pub signatures: Sequence<Signature>,
    pub arrived: bool,
    pub halted: bool,
    /// The words whose entries the event may change.
    pub entries: Sequence<EntryBefore>,
}

/// A lock's home before an event: the holder, how many cores wait, and the signature.
#[derive(Clone, Copy)]
pub struct LockLook {
    pub holder: Option<CoreId>,
    pub waiting: usize,
    pub kept: Signature,
}

/// What is looked at of an event's actor before the event.
#[derive(Drop)]
pub enum Look {
    /// Nothing: the event changes nothing in an actor's state.
    Nothing,
    Node(CoreId, NodeLook),
    Word(BankId, WordId, Option<BankWord>),
    Lock(BankId, LockId, LockLook),
    Keeper,
}
