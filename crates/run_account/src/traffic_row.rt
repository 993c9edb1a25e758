use crate::measure::Measure;

/// A row of the traffic of a run: how many messages, or how many bytes. A message has 8 bytes; the value of a word has 4 more, and
/// a signature, which has 256 bits and a phase, 33 more (this project's profile).
#[derive(Clone, Copy)]
pub enum TrafficRow {
    /// The number of a measure.
    Count(Measure),
    /// The bytes of the messages of a measure, which have neither a value nor a signature.
    BytesOf(Measure),
    /// The bytes of the messages of a measure, each with the value of a word.
    ValueBytesOf(Measure),
    /// The bytes of the messages of a measure, each with a signature.
    SignedBytesOf(Measure),
    /// The bytes of the messages about words: those of the kinds ReadReq to WbAck.
    WordBytes,
    /// The bytes of the messages about locks: Acquire, Release and Grant, the last two with their signatures.
    LockBytes,
    /// The bytes of the messages of the barrier: Arrived, Go and Halt.
    BarrierBytes,
    /// The bytes of the messages with lists of sharers.
    ListBytes,
    /// The bytes of the messages about locks without signatures, which a machine with lists doesn't need.
    ListLockBytes,
}
