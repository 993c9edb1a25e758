use write_signature::Signature;

/// Why a core's entry of a word was removed.
#[derive(Clone, Copy)]
pub enum Departure {
    /// At a Go, since the ended phase may have written the word.
    Phase,
    /// At a Grant, since the word may have been written under the lock.
    Lock,
    /// By an eviction: a copy at once, a registered word when its home has acknowledged it.
    Evicted,
    /// By a RegFwd: another core registered the word.
    Taken,
}

/// How a lock came to the core to which it was last granted.
#[derive(Clone, Copy)]
pub enum Handing {
    /// It was free when the core asked for it.
    AtOnce,
    /// The holder before released it, and it was handed on.
    Queued,
}

/// When a core drops copies.
#[derive(Clone, Copy)]
pub enum Occasion {
    /// At a Go: copies that aren't marked, of the words that the ended phase may have written.
    Go,
    /// At the Grant of a lock: copies of the words that the lock guards and this signature may hold.
    Grant(Signature),
}
