use dn_base::{LockId, WordId};

/// Why an event is not enabled. Each reason but the last is about the core whose event it is.
#[derive(Clone, Copy)]
pub enum Reason {
    /// The machine has no such core.
    NoCore,
    /// The core is halted.
    Halted,
    /// The core has arrived at the barrier, and waits there.
    Arrived,
    /// The core has no task in its phase.
    NoTask,
    /// The core's task has ended.
    TaskEnded,
    /// The core's task hasn't ended, so the core doesn't arrive.
    TaskRuns,
    /// The core waits for the value of a word.
    WaitsForWord(WordId),
    /// The core waits for the grant of a lock.
    WaitsForLock(LockId),
    /// The value of a word has come, and the instruction that asked for it comes before any eviction.
    HasValue(WordId),
    /// The core's entry of the word is leaving.
    IsLeaving(WordId),
    /// The core's entry of the word is pending.
    IsPending(WordId),
    /// The core has no entry of the word.
    NoEntry(WordId),
    /// The cache has no room for the word that the next instruction uses.
    NoRoom(WordId),
    /// Some entry of the core is pending, and the event waits until none is.
    HasPending,
    /// The next instruction needs no room, so nothing is evicted.
    NeedsNoRoom,
    /// The word isn't in the set in which the next instruction needs room for the wanted word.
    OtherSet { word: WordId, wanted: WordId },
    /// No message in flight has the id.
    NoMail,
}
