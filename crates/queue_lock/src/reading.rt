//! What a lock's home holds, for programs that show it. No call takes memory.
ghost use Rattle.std.specs.Prelude.{◌≡◌, length, slice_get};

use crate::lock::LockHome;
use dn_base::CoreId;
use write_signature::Signature;

impl LockHome {
    /// The core that holds the lock; None if the lock is free.
    pub fn holder(&self) -> Option<CoreId>
        ensures { result ≡ self.now.holder }
    {
        self.holder
    }

    /// How many cores wait for the lock.
    pub fn queue_len(&self) -> usize
        ensures { result ≡ length self.now.queue }
    {
        self.queue.len()
    }

    /// The core at this index of the queue; the core at index 0 gets the lock next. None from the queue's length on.
    pub fn queued(&self, index: usize) -> Option<CoreId>
        ensures { result ≡ slice_get self.now.queue index }
    {
        self.queue.get(index).copied()
    }

    /// The signature of the words that were written under the lock, as the last release left it.
    pub fn signature(&self) -> Signature
        ensures { result ≡ self.now.kept }
    {
        self.kept
    }
}
