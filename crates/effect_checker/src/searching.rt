ghost use Rattle.std.specs.Prelude.{◌≡◌, ℕ, ◌<◌, IsTrue, IfSome, IfNone};
ghost use Rattle.effect_checker.specs.Checked.{on_core};
ghost use Rattle.effect_checker.specs.Faults.{IsPlainConflict, IsGuardedPlain, AreTwoLocks};
ghost use Rattle.effect_checker.specs.Least.{IsFirstPair, IsFirst, AreRising, HaveLocks, contends, exposes};
ghost use Rattle.effect_checker.specs.Takers.{UseWordsBelow};

use crate::least::{contended_word, exposed_word, twice_guarded_word};
use crate::takers::{is_apart_from_later, is_never_plain};
use dn_base::{CoreId, LockId, MOST_WORDS, WordId};
use region_table::TaskDecl;

/// The first other core whose task uses plainly a word that the writer writes plainly, and the least such word.
fn first_user(writer: &TaskDecl, tasks: &[TaskDecl]) -> Option<(CoreId, WordId)>
    requires rising { AreRising tasks.now }
    ensures some { IfSome result (λ f. IsFirstPair (λ core w. IsTrue (on_core (contends writer.now) tasks.now core w)) f.0.0 f.1.0) }
    ensures none { IfNone result ((core w : ℕ) → IsTrue (on_core (contends writer.now) tasks.now core w) → ⊥) }
{
    for user in tasks {
        if let Some(word) = contended_word(writer, user) {
            return Some((user.core, word));
        }
    }
    None
}

/// The first core whose task writes plainly a word that another core's task uses plainly, the first such other core, and
/// the least such word.
pub(crate) fn first_plain_conflict(tasks: &[TaskDecl]) -> Option<(CoreId, CoreId, WordId)>
    requires rising { AreRising tasks.now }
    ensures some { IfSome result (λ f. IsFirst (IsPlainConflict tasks.now) f.0.0 f.1.0 f.2.0) }
    ensures none { IfNone result ((a b w : ℕ) → IsPlainConflict tasks.now a b w → ⊥) }
{
    for writer in tasks {
        if let Some((core, word)) = first_user(writer, tasks) {
            return Some((writer.core, core, word));
        }
    }
    None
}

/// The first core whose task uses plainly a word that the lock guards for some task, and the least such word.
fn first_exposer(tasks: &[TaskDecl], lock: u32) -> Option<(CoreId, WordId)>
    requires rising { AreRising tasks.now }
    requires words { UseWordsBelow MOST_WORDS tasks.now }
    ensures some { IfSome result (λ f. IsFirstPair (λ core w. IsTrue (on_core (exposes tasks.now lock) tasks.now core w)) f.0.0 f.1.0) }
    ensures none { IfNone result ((core w : ℕ) → IsTrue (on_core (exposes tasks.now lock) tasks.now core w) → ⊥) }
{
    if is_never_plain(tasks, lock) {
        return None;
    }
    for user in tasks {
        if let Some(word) = exposed_word(tasks, lock, user) {
            return Some((user.core, word));
        }
    }
    None
}

/// The first lock that guards a word which some task uses plainly, the first core of such a task, and the least such
/// word.
pub(crate) fn first_guarded_plain(
    tasks: &[TaskDecl],
    locks: u32,
) -> Option<(LockId, CoreId, WordId)>
    requires rising { AreRising tasks.now }
    requires locks { HaveLocks locks tasks.now }
    requires words { UseWordsBelow MOST_WORDS tasks.now }
    ensures some { IfSome result (λ f. IsFirst (IsGuardedPlain tasks.now) f.0.0 f.1.0 f.2.0) }
    ensures none { IfNone result ((lock core w : ℕ) → IsGuardedPlain tasks.now lock core w → ⊥) }
{
    for lock in 0..locks {
        if let Some((core, word)) = first_exposer(tasks, lock) {
            return Some((LockId(lock), core, word));
        }
    }
    None
}

/// The first lock with a greater number that guards a word which this lock guards too, and the least such word.
fn first_other_lock(tasks: &[TaskDecl], lock: u32, locks: u32) -> Option<(LockId, WordId)>
    requires locks { HaveLocks locks tasks.now }
    requires within { lock < locks }
    requires words { UseWordsBelow MOST_WORDS tasks.now }
    ensures some { IfSome result (λ f. IsFirstPair (AreTwoLocks tasks.now lock) f.0.0 f.1.0) }
    ensures none { IfNone result ((other w : ℕ) → AreTwoLocks tasks.now lock other w → ⊥) }
{
    if is_apart_from_later(tasks, lock, locks) {
        return None;
    }
    for other in lock + 1..locks {
        if let Some(word) = twice_guarded_word(tasks, lock, other) {
            return Some((LockId(other), word));
        }
    }
    None
}

/// The first lock that guards a word which a lock with a greater number guards too, the first such other lock, and the
/// least such word.
pub(crate) fn first_two_locks(tasks: &[TaskDecl], locks: u32) -> Option<(LockId, LockId, WordId)>
    requires locks { HaveLocks locks tasks.now }
    requires words { UseWordsBelow MOST_WORDS tasks.now }
    ensures some { IfSome result (λ f. IsFirst (AreTwoLocks tasks.now) f.0.0 f.1.0 f.2.0) }
    ensures none { IfNone result ((a b w : ℕ) → AreTwoLocks tasks.now a b w → ⊥) }
{
    for lock in 0..locks {
        if let Some((other, word)) = first_other_lock(tasks, lock, locks) {
            return Some((LockId(lock), other, word));
        }
    }
    None
}
