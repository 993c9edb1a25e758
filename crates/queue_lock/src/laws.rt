//! Theorems of acquires and releases, for proofs about a lock's holder and queue. A theorem is a function without effect; its
//! contract states the theorem.
ghost use Rattle.std.specs.Prelude.{◌≡◌, ◌↔◌, ℕ, ◌+◌, ◌<◌, ◌≤◌, ◌==◌, true, if◌then◌else◌, List, length, Some, None};
ghost use Rattle.std.specs.List.{All};
ghost use Rattle.dn_base.specs.declared.ids.CoreId.{CoreId};
ghost use Rattle.write_signature.specs.declared.signature.Signature.{Signature};
ghost use Rattle.write_signature.specs.Signature.{joined};
ghost use Rattle.queue_lock.specs.Lock.{Lock, IsLock, IsLockOf, free_lock, is_core, waits, times_queued, acquired, released, holder_count, grant_count, next_count};

/// Whatever is acquired and released, a free lock has an empty queue, and no core stands in a queue twice.
pub fn locks_stay_well_formed()
    ensures free { (cores : ℕ) → IsLock (free_lock cores) }
    ensures acquired { (h : Lock) (core : CoreId) → IsLock h → IsLock (acquired h core).0 }
    ensures released { (h : Lock) (core : CoreId) (signature : Signature) → IsLock h → IsLock (released h core signature).0 }
{}

/// A lock of a machine stays one, whatever its cores acquire and anyone releases.
pub fn locks_stay_the_machines()
    ensures free { (cores : ℕ) → IsLockOf cores (free_lock cores) }
    ensures acquired { (cores : ℕ) (h : Lock) (core : CoreId) → IsLockOf cores h → core.0 < cores → IsLockOf cores (acquired h core).0 }
    ensures released { (cores : ℕ) (h : Lock) (core : CoreId) (signature : Signature) → IsLockOf cores h
        → IsLockOf cores (released h core signature).0 }
{}

/// A core waits for a lock exactly if it stands in the lock's queue.
pub fn who_waits_stands_in_the_queue()
    ensures { (core : ℕ) (queue : List CoreId) → (waits core queue ≡ true) ↔ (1 ≤ times_queued core queue) }
{}

/// A queue in which each core stands at most once, and one core doesn't stand, has fewer places in use than there are cores. So
/// the queue of a machine's lock has room for a core that doesn't stand in it.
pub fn a_queue_without_a_core_has_room()
    ensures queue { (queue : List CoreId) (cores core : ℕ) → All (λ (d : CoreId). d.0 < cores) queue → ((d : ℕ) → times_queued d queue ≤ 1)
        → core < cores → times_queued core queue ≡ 0 → length queue < cores }
    ensures lock { (cores : ℕ) (h : Lock) (core : CoreId) → IsLockOf cores h → core.0 < cores → times_queued core.0 h.queue ≡ 0
        → length h.queue < h.capacity }
{}

/// At most one core holds a lock.
pub fn one_core_holds_a_lock()
    ensures { (h : Lock) (c d : ℕ) → holder_count c h.holder + holder_count d h.holder ≤ 1 + (if c == d then 1 else 0) }
{}

/// An acquire of a free lock grants it, with the lock's signature. Otherwise it puts its core into the queue. Other cores keep
/// their places.
pub fn an_acquire_counts_its_core()
    ensures holder { (h : Lock) (core : CoreId) (d : ℕ)
        → holder_count d (acquired h core).0.holder ≡ holder_count d h.holder + grant_count d core (acquired h core).1 }
    ensures queue { (h : Lock) (core : CoreId) (d : ℕ) → times_queued core.0 h.queue ≡ 0 → length h.queue < h.capacity
        → times_queued d (acquired h core).0.queue + grant_count d core (acquired h core).1
        ≡ times_queued d h.queue + (if is_core d core then 1 else 0) }
    ensures kept { (h : Lock) (core : CoreId) → (acquired h core).0.kept ≡ h.kept }
    ensures answer { (h : Lock) (core : CoreId) (signature : Signature) → (acquired h core).1 ≡ Some signature
        → (h.holder ≡ None) × (signature ≡ h.kept) }
{}

/// A release by the holder grants the lock to the first core that waits, with both signatures joined. Other cores keep their
/// order.
pub fn a_release_hands_the_lock_on()
    ensures holder { (h : Lock) (core : CoreId) (signature : Signature) (d : ℕ) → holder_count core.0 h.holder ≡ 1
        → holder_count d (released h core signature).0.holder ≡ next_count d (released h core signature).1 }
    ensures queue { (h : Lock) (core : CoreId) (signature : Signature) (d : ℕ) → holder_count core.0 h.holder ≡ 1
        → times_queued d (released h core signature).0.queue + next_count d (released h core signature).1 ≡ times_queued d h.queue }
    ensures kept { (h : Lock) (core : CoreId) (signature : Signature) → holder_count core.0 h.holder ≡ 1
        → (released h core signature).0.kept ≡ joined h.kept signature }
    ensures answer { (h : Lock) (core next : CoreId) (signature told : Signature) → (released h core signature).1 ≡ Some (next, told)
        → (holder_count core.0 h.holder ≡ 1) × (told ≡ joined h.kept signature) × ((released h core signature).0.holder ≡ Some next) }
{}

/// A release by any other core changes nothing, and grants nothing.
pub fn a_release_of_another_changes_nothing()
    ensures { (h : Lock) (core : CoreId) (signature : Signature) → holder_count core.0 h.holder ≡ 0
        → released h core signature ≡ (h, None) }
{}
