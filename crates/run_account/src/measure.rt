ghost use Rattle.std.specs.Prelude.{◌≡◌, ◌<◌};
ghost use Rattle.run_account.specs.Measure.{measure_index};

/// What is counted of a run, in the order in which it is printed: first the twenty-six measures of an account, then the
/// seventeen of a run beside lists of sharers, and the fifteen of its traffic. A copy is a Valid entry.
#[derive(Clone, Copy)]
pub enum Measure {
    /// Loads that retire.
    Loads,
    /// Stores that retire.
    Stores,
    /// Loads that retire while the core waits for nothing, so that no message was needed.
    LoadsLocal,
    /// Stores that retire at a registered entry, so that no message was sent.
    StoresSilent,
    /// Stores that send RegReq.
    Registers,
    /// Instructions that send ReadReq.
    Misses,
    /// Misses of a word of which the core had no entry before.
    MissesFirst,
    /// Misses of a word whose last entry was dropped at a Go.
    MissesPhase,
    /// Misses of a word whose last entry was dropped at a Grant.
    MissesLock,
    /// Misses of a word whose last entry was evicted.
    MissesEvicted,
    /// Misses of a word whose last entry was removed by a RegFwd.
    MissesTaken,
    /// Copies that are dropped at a Go.
    DroppedPhase,
    /// Copies that are dropped at a Grant.
    DroppedLock,
    /// Copies that are dropped at a Go although they have the word's value: needlessly.
    DroppedPhaseCurrent,
    /// Copies that are dropped at a Grant although they have the word's value: needlessly.
    DroppedLockCurrent,
    /// Copies of words that the phase may have written which stay at a Go because they are marked.
    KeptTouched,
    /// Copies of words that the lock guards which stay at a Grant because the signature doesn't hold them.
    KeptSignature,
    /// Copies of a word that other cores have when a store registers the word. A directory protocol would have to tell these
    /// cores.
    UntoldCopies,
    /// Entries that are removed by a RegFwd.
    Taken,
    /// DataReply messages that a bank sent.
    RepliesHome,
    /// DataReply messages that a core sent.
    RepliesCore,
    /// ReadFwd messages that a core sends back.
    Bounces,
    /// Evictions of a copy.
    EvictedCopies,
    /// Evictions of a registered word.
    EvictedRegistered,
    /// Grants of a lock that was free.
    GrantsAtOnce,
    /// Grants of a lock that was handed on to the next core of its queue.
    GrantsQueued,
    /// Messages of the kinds ReadReq to WbAck that are handled. They count for the core that they serve: the reader, the core
    /// that registers the word, or the one that writes it back.
    Messages,
    /// Loads that retire after a wait for their word.
    WaitsRead,
    /// Stores that retire after a wait for their word.
    WaitsWrite,
    /// Messages with lists of sharers: all of the next nine.
    ListMessages,
    /// Requests of a word to read.
    ListReadRequests,
    /// Requests of a word to write.
    ListWriteRequests,
    /// Requests that a home passes on to the core that owns the word.
    ListForwards,
    /// Replies to requests.
    ListReplies,
    /// Messages that tell a core to drop its copy.
    ListInvalidations,
    /// Answers to invalidations.
    ListAcknowledgements,
    /// Values of owned words that go back to their homes.
    ListPutBacks,
    /// Messages that tell a home that a copy has gone to make room.
    ListPutShares,
    /// Answers to the messages about a word that has gone to make room.
    ListPutAcks,
    /// Loads that wait with lists.
    ListWaitsRead,
    /// Stores that wait with lists.
    ListWaitsWrite,
    /// Loads and stores that waited in the run and don't wait with lists.
    WaitsHereAlone,
    /// Loads and stores that wait with lists and didn't wait in the run.
    WaitsListAlone,
    /// ReadReq messages that are handled. A message of this and of the next thirteen kinds counts for the core that it serves, in the
    /// phase of that core.
    ReadReqs,
    /// ReadFwd messages that are handled.
    ReadFwds,
    /// DataReply messages that are handled.
    DataReplies,
    /// RegReq messages that are handled.
    RegReqs,
    /// RegFwd messages that are handled.
    RegFwds,
    /// RegAck messages that are handled.
    RegAcks,
    /// WriteBack messages that are handled.
    WriteBacks,
    /// WbAck messages that are handled.
    WbAcks,
    /// Acquire messages that are handled.
    Acquires,
    /// Release messages that are handled.
    Releases,
    /// Grant messages that are handled.
    Grants,
    /// Arrived messages that are handled.
    Arrivals,
    /// Go messages that are handled.
    Gos,
    /// Halt messages that are handled.
    Halts,
    /// Replies to requests with lists that bring the word's value: all but those to a store of a core that has the word Shared.
    ListReplyValues,
}

impl Measure {
    /// The index of the measure among the fifty-eight.
    pub fn index(self) -> usize
        ensures value { result ≡ measure_index self }
        ensures within { result < 58 }
    {
        self as usize
    }
}
