//! Passes over words that tell whether any word is guarded and also used otherwise. A pass notes who takes each word. It takes
//! no memory. Its time is proportional to the words of the tasks' sets, where a word counts once for each set that has it, and
//! it clears 64 KiB of notes first.
ghost use Rattle.std.specs.Prelude.{◌≡◌, ℕ, ◌+◌, ◌<◌, ◌≤◌, ◌==◌, ◌||◌, IsTrue, [], length, slice_index_or};
ghost use Rattle.std.specs.List.{All, list_any};
ghost use Rattle.region_table.specs.declared.declared.TaskDecl.{TaskDecl};
ghost use Rattle.region_table.specs.Words.{has, in_interval};
ghost use Rattle.region_table.specs.Program.{AreEffects, LiesIn};
ghost use Rattle.region_table.specs.Plan.{uses_plainly, task_guards};
ghost use Rattle.effect_checker.specs.Checked.{lock_guards};
ghost use Rattle.effect_checker.specs.Faults.{IsGuardedPlain, AreTwoLocks};
ghost use Rattle.effect_checker.specs.Least.{HaveLocks};
ghost use Rattle.effect_checker.specs.Takers.{AreTaken, KeepTakers, UseWordsBelow};

use dn_base::MOST_WORDS;
use region_table::{Interval, TaskDecl, WordSet};

/// The taker of the words that tasks use plainly.
const PLAIN: u8 = 1;

/// The taker of the words that a lock guards, when it is compared with other locks.
const OWN: u8 = 1;

/// The taker of the words that the other locks guard.
const OTHERS: u8 = 2;

/// Whether a taker may take a word that `before` has taken, or nobody.
fn may_take(before: u8, taker: u8) -> bool
    ensures { result ≡ (before == 0 || before == taker) }
{
    before == 0 || before == taker
}

/// Takes the words of an interval. False where another one has taken some of them.
fn take_interval(takers: &mut [u8], interval: Interval, taker: u8) -> bool
    requires { interval.hi ≤ length takers.old }
    ensures taken { IsTrue result → AreTaken (in_interval interval) taker takers.new }
    ensures kept { KeepTakers takers.old takers.new }
{
    for word in interval.lo..interval.hi {
        if !may_take(takers[word as usize], taker) {
            return false;
        }
        takers[word as usize] = taker;
    }
    true
}

/// Takes the words of a set. False where another one has taken some of them.
fn take_set(takers: &mut [u8], set: &WordSet, taker: u8) -> bool
    requires within { LiesIn (length takers.old) set.now }
    requires some { 0 < taker }
    ensures taken { IsTrue result → AreTaken (has set.now) taker takers.new }
    ensures kept { KeepTakers takers.old takers.new }
{
    for interval in set.intervals() {
        if !take_interval(takers, *interval, taker) {
            return false;
        }
    }
    true
}

/// Takes the words of the lock's set. False where another one has taken some of them.
fn take_by_lock(takers: &mut [u8], sets: &[WordSet], lock: u32, taker: u8) -> bool
    requires within { All (LiesIn (length takers.old)) sets.now }
    requires some { 0 < taker }
    ensures taken { IsTrue result → AreTaken (has (slice_index_or sets.now lock [])) taker takers.new }
    ensures kept { KeepTakers takers.old takers.new }
{
    match sets.get(lock as usize) {
        Some(set) => take_set(takers, set, taker),
        None => true,
    }
}

/// Takes the words that the lock guards for the task. False where another one has taken some of them.
fn take_guarded(takers: &mut [u8], task: &TaskDecl, lock: u32, taker: u8) -> bool
    requires within { (locks : ℕ) × AreEffects (length takers.old) locks task.now.effects }
    requires some { 0 < taker }
    ensures taken { IsTrue result → AreTaken (task_guards task.now lock) taker takers.new }
    ensures kept { KeepTakers takers.old takers.new }
{
    take_by_lock(takers, task.effects.guarded_reads.as_slice(), lock, taker)
        && take_by_lock(takers, task.effects.guarded_writes.as_slice(), lock, taker)
}

/// Takes the words that the lock guards for some of the tasks. False where another one has taken some of them.
fn take_all_guarded(takers: &mut [u8], tasks: &[TaskDecl], lock: u32, taker: u8) -> bool
    requires within { UseWordsBelow (length takers.old) tasks.now }
    requires some { 0 < taker }
    ensures taken { IsTrue result → AreTaken (lock_guards tasks.now lock) taker takers.new }
    ensures kept { KeepTakers takers.old takers.new }
{
    for task in tasks {
        if !take_guarded(takers, task, lock, taker) {
            return false;
        }
    }
    true
}

/// Takes the words that the task uses plainly. False where another one has taken some of them.
fn take_plain(takers: &mut [u8], task: &TaskDecl) -> bool
    requires { (locks : ℕ) × AreEffects (length takers.old) locks task.now.effects }
    ensures taken { IsTrue result → AreTaken (uses_plainly task.now) 1 takers.new }
    ensures kept { KeepTakers takers.old takers.new }
{
    take_set(takers, &task.effects.reads, PLAIN) && take_set(takers, &task.effects.writes, PLAIN)
}

/// Takes the words that the tasks use plainly. False where another one has taken some of them.
fn take_all_plain(takers: &mut [u8], tasks: &[TaskDecl]) -> bool
    requires { UseWordsBelow (length takers.old) tasks.now }
    ensures taken { IsTrue result → AreTaken (λ w. list_any (λ (t : TaskDecl). uses_plainly t w) tasks.now) 1 takers.new }
    ensures kept { KeepTakers takers.old takers.new }
{
    for task in tasks {
        if !take_plain(takers, task) {
            return false;
        }
    }
    true
}

/// Takes the words of the locks, each for itself. False where another one has taken some of them.
fn take_locks(takers: &mut [u8], tasks: &[TaskDecl], locks: u32) -> bool
    requires within { UseWordsBelow (length takers.old) tasks.now }
    requires few { locks ≤ 32 }
    ensures taken { IsTrue result → (lock : ℕ) → lock < locks → AreTaken (lock_guards tasks.now lock) (lock + 2) takers.new }
    ensures kept { KeepTakers takers.old takers.new }
{
    for lock in 0..locks {
        if !take_all_guarded(takers, tasks, lock, lock as u8 + 2) {
            return false;
        }
    }
    true
}

/// True only if no word that a lock guards is used plainly or guarded by another lock.
pub(crate) fn are_apart(tasks: &[TaskDecl], locks: u32) -> bool
    requires within { UseWordsBelow MOST_WORDS tasks.now }
    requires few { locks ≤ 32 }
    requires locks { HaveLocks locks tasks.now }
    ensures plain { IsTrue result → (lock core w : ℕ) → IsGuardedPlain tasks.now lock core w → ⊥ }
    ensures locks { IsTrue result → (a b w : ℕ) → AreTwoLocks tasks.now a b w → ⊥ }
{
    let mut takers = [0; MOST_WORDS];
    take_all_plain(&mut takers, tasks) && take_locks(&mut takers, tasks, locks)
}

/// True only if no word that the lock guards is used plainly.
pub(crate) fn is_never_plain(tasks: &[TaskDecl], lock: u32) -> bool
    requires { UseWordsBelow MOST_WORDS tasks.now }
    ensures { IsTrue result → (core w : ℕ) → IsGuardedPlain tasks.now lock core w → ⊥ }
{
    let mut takers = [0; MOST_WORDS];
    take_all_plain(&mut takers, tasks) && take_all_guarded(&mut takers, tasks, lock, OTHERS)
}

/// Takes the words of the locks with greater numbers, all for one taker. False where another one has taken some of them.
fn take_later_locks(takers: &mut [u8], tasks: &[TaskDecl], lock: u32, locks: u32) -> bool
    requires within { UseWordsBelow (length takers.old) tasks.now }
    requires among { lock < locks }
    ensures taken { IsTrue result → (other : ℕ) → lock < other → other < locks → AreTaken (lock_guards tasks.now other) 2 takers.new }
    ensures kept { KeepTakers takers.old takers.new }
{
    for other in lock + 1..locks {
        if !take_all_guarded(takers, tasks, other, OTHERS) {
            return false;
        }
    }
    true
}

/// True only if no lock with a greater number guards a word that this lock guards.
pub(crate) fn is_apart_from_later(tasks: &[TaskDecl], lock: u32, locks: u32) -> bool
    requires within { UseWordsBelow MOST_WORDS tasks.now }
    requires among { lock < locks }
    requires locks { HaveLocks locks tasks.now }
    ensures { IsTrue result → (other w : ℕ) → AreTwoLocks tasks.now lock other w → ⊥ }
{
    let mut takers = [0; MOST_WORDS];
    take_all_guarded(&mut takers, tasks, lock, OWN)
        && take_later_locks(&mut takers, tasks, lock, locks)
}
