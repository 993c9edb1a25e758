ghost use Rattle.std.specs.Prelude.{◌≡◌, ◌≢◌, ◌≤◌, ◌↔◌, ◌+◌, Bool, ◌||◌, Some, None, IfOk, IsNone, nat_le, length};
ghost use Rattle.queue_lock.specs.Lock.{Lock, IsLock, free_lock, is_core, waits, queued, handed_on, acquired, released};

use circular_buffer::HeapCircularBuffer;
use dn_base::{CoreId, Memory, PhaseId};
use std::alloc::Global;
use std::marker::Model;
use write_signature::Signature;

/// A lock at its home bank.
///
/// Contracts see the holder, the queue, the length that the queue may have, and the signature. A free lock has an empty queue,
/// and no core stands in a queue twice.
#[derive(Drop)]
pub struct LockHome {
    pub(crate) holder: Option<CoreId>,
    pub(crate) queue: HeapCircularBuffer<CoreId>,
    pub(crate) kept: Signature,
}

impl Model for LockHome {
    ghost use Rattle.queue_lock.specs.Lock.{Lock, IsLock};

    ghost Value = { Lock };

    ghost view = { λ h. record { holder = h.holder; queue = h.queue.items; capacity = h.queue.capacity; kept = h.kept } };

    ghost invariant = { λ h. IsLock (record { holder = h.holder; queue = h.queue.items; capacity = h.queue.capacity; kept = h.kept }) };
}

/// Whether the core waits in the queue.
fn is_queued(queue: &HeapCircularBuffer<CoreId>, core: CoreId) -> bool
    ensures { result ≡ waits core.0 queue.now.items }
{
    queue.iter().any(|waiting| waiting.0 == core.0)
}

impl LockHome {
    /// A free lock of a machine with `cores` cores, 1 to 16. Nobody waits, all cores may, and the signature is the empty one of
    /// phase 0.
    ///
    /// # Errors
    /// `Memory` where there is no room for the queue.
    pub fn new(alloc: Global, cores: u32) -> Result<LockHome, Memory>
        requires some { 1 ≤ cores }
        requires cores { cores ≤ 16 }
        ensures { IfOk result (λ home. home ≡ free_lock cores) }
    {
        let queue = HeapCircularBuffer::with_capacity(alloc, cores as usize)?;
        Ok(LockHome {
            holder: None,
            queue,
            kept: Signature::empty(PhaseId(0)),
        })
    }

    /// Puts the core at the end of the queue, unless it waits already or the queue is full.
    fn enqueue(&mut self, core: CoreId)
        requires { self.old.holder ≢ None }
        ensures { self.new ≡ queued self.old core }
    {
        if !is_queued(&self.queue, core) {
            // a full queue takes no core, as the definition of the lock says; the queue of a machine's lock always has room
            let _ = self.queue.try_push_back(core);
        }
    }

    /// A core acquires the lock. If the lock is free the core holds it, and the answer is the signature of the words that were
    /// written under it. If the lock is held the core waits at the end of the queue, and the answer is None. A core that waits
    /// already, and a full queue, change nothing. Takes no memory.
    pub fn acquire(&mut self, core: CoreId) -> Option<Signature>
        ensures lock { self.new ≡ (acquired self.old core).0 }
        ensures answer { result ≡ (acquired self.old core).1 }
        ensures none { IsNone result ↔ (self.old.holder ≢ None) }
    {
        if self.holder.is_some() {
            self.enqueue(core);
            return None;
        }
        self.holder = Some(core);
        Some(self.kept)
    }

    /// The first core of the queue becomes the holder, and the answer is that core with the signature. If nobody waits, the
    /// lock is free and the answer None.
    fn hand_on(&mut self) -> Option<(CoreId, Signature)>
        ensures lock { self.new ≡ (handed_on self.old self.old.queue).0 }
        ensures answer { result ≡ (handed_on self.old self.old.queue).1 }
    {
        self.holder = self.queue.pop_front();
        Some((self.holder?, self.kept))
    }

    /// The holder releases the lock, with the signature of what it wrote under it, which is joined to the lock's signature. The
    /// first core of the queue becomes the holder, and the answer is that core with the signature. If nobody waits, the lock is
    /// free and the answer None. From any other core the call changes nothing, and the answer is None. Takes no memory.
    pub fn release(&mut self, core: CoreId, signature: Signature) -> Option<(CoreId, Signature)>
        ensures lock { self.new ≡ (released self.old core signature).0 }
        ensures answer { result ≡ (released self.old core signature).1 }
    {
        if self.holder? != core {
            return None;
        }
        self.kept = self.kept.join(&signature);
        self.hand_on()
    }
}

/// Compiles only if the type may be sent to another thread and shared with it.
fn crosses<T: Send + Sync>(_value: &T) {}

/// A lock may be sent to another thread, and shared with it. Nobody calls this; the check of its body proves it.
fn home_crosses(home: &LockHome) {
    crosses(home);
}
