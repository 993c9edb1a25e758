use dn_base::{CoreId, LockId, PhaseId, WordId};
use thiserror::Error;

/// Why a program is not checked: two tasks of one phase conflict on a word.
///
/// Faults are ordered by their phase, then by their kind in the order below, then by the two numbers that follow the phase,
/// then by their word.
#[derive(Clone, Copy, Debug, PartialEq, Eq, Error)]
pub enum CheckFault {
    /// The task of `core_a` declares the word as a plain write, and the task of `core_b`, another core, as a plain read or
    /// write.
    #[error("phase {} plain-conflict cores {} {} word {}", .phase.0, .core_a.0, .core_b.0, .word.0)]
    PlainConflict {
        phase: PhaseId,
        core_a: CoreId,
        core_b: CoreId,
        word: WordId,
    },
    /// The lock guards the word for some task, and the task of `core` declares it as a plain read or write.
    #[error("phase {} guarded-plain lock {} core {} word {}", .phase.0, .lock.0, .core.0, .word.0)]
    GuardedPlain {
        phase: PhaseId,
        lock: LockId,
        core: CoreId,
        word: WordId,
    },
    /// Two locks guard the word, each for some task; `lock_a` has the lower number.
    #[error("phase {} two-locks locks {} {} word {}", .phase.0, .lock_a.0, .lock_b.0, .word.0)]
    TwoLocks {
        phase: PhaseId,
        lock_a: LockId,
        lock_b: LockId,
        word: WordId,
    },
}
