ghost use Rattle.std.specs.Prelude.{◌≡◌, ℕ, Bool, ◌&&◌, ◌||◌, [], slice_index_or};
ghost use Rattle.region_table.specs.Words.{has};
ghost use Rattle.region_table.specs.Plan.{uses_plainly, task_guards};
ghost use Rattle.effect_checker.specs.Checked.{lock_guards};
ghost use Rattle.effect_checker.specs.Least.{IsLeastFound, contends, exposes};

use dn_base::WordId;
use region_table::{TaskDecl, WordSet};

/// The lesser of two least words, if there is one.
fn lesser(a: Option<WordId>, b: Option<WordId>) -> Option<WordId>
    ensures { (s t : ℕ → Bool) → IsLeastFound s a → IsLeastFound t b → IsLeastFound (λ w. s w || t w) result }
{
    match (a, b) {
        (Some(first), Some(second)) if second < first => b,
        (Some(_), _) => a,
        (None, _) => b,
    }
}

/// The least word of both sets.
fn common_word(a: &WordSet, b: &WordSet) -> Option<WordId>
    ensures { IsLeastFound (λ w. has a.now w && has b.now w) result }
{
    a.least_common(b)
}

/// The least word of the set that the task uses plainly.
fn plain_word(set: &WordSet, user: &TaskDecl) -> Option<WordId>
    ensures { IsLeastFound (λ w. has set.now w && uses_plainly user.now w) result }
{
    lesser(
        common_word(set, &user.effects.reads),
        common_word(set, &user.effects.writes),
    )
}

/// The least word that the writer writes plainly and the user, on another core, uses plainly.
pub(crate) fn contended_word(writer: &TaskDecl, user: &TaskDecl) -> Option<WordId>
    ensures { IsLeastFound (λ w. contends writer.now user.now w) result }
{
    if user.core == writer.core {
        return None;
    }
    plain_word(&writer.effects.writes, user)
}

/// The least word of the lock's set that is in the other set too.
fn word_by_lock(sets: &[WordSet], lock: u32, other: &WordSet) -> Option<WordId>
    ensures { IsLeastFound (λ w. has (slice_index_or sets.now lock []) w && has other.now w) result }
{
    let set = sets.get(lock as usize)?;
    common_word(set, other)
}

/// The least word of the set that the lock guards for the task.
fn task_guarded_word(task: &TaskDecl, lock: u32, set: &WordSet) -> Option<WordId>
    ensures { IsLeastFound (λ w. task_guards task.now lock w && has set.now w) result }
{
    lesser(
        word_by_lock(task.effects.guarded_reads.as_slice(), lock, set),
        word_by_lock(task.effects.guarded_writes.as_slice(), lock, set),
    )
}

/// The least word of the set that the lock guards for some of the tasks.
fn guarded_word(tasks: &[TaskDecl], lock: u32, set: &WordSet) -> Option<WordId>
    ensures { IsLeastFound (λ w. lock_guards tasks.now lock w && has set.now w) result }
{
    let mut least = None;
    for task in tasks {
        least = lesser(least, task_guarded_word(task, lock, set));
    }
    least
}

/// The least word that the lock guards for some of the tasks, and that the user uses plainly.
pub(crate) fn exposed_word(tasks: &[TaskDecl], lock: u32, user: &TaskDecl) -> Option<WordId>
    ensures { IsLeastFound (λ w. exposes tasks.now lock user.now w) result }
{
    lesser(
        guarded_word(tasks, lock, &user.effects.reads),
        guarded_word(tasks, lock, &user.effects.writes),
    )
}

/// The least word of the first lock's set that the second lock guards for some of the tasks.
fn set_guarded_word(sets: &[WordSet], first: u32, tasks: &[TaskDecl], second: u32) -> Option<WordId>
    ensures { IsLeastFound (λ w. has (slice_index_or sets.now first []) w && lock_guards tasks.now second w) result }
{
    let set = sets.get(first as usize)?;
    guarded_word(tasks, second, set)
}

/// The least word that the first lock guards for the task, and the second lock for some of the tasks.
fn task_twice_guarded_word(
    task: &TaskDecl,
    first: u32,
    tasks: &[TaskDecl],
    second: u32,
) -> Option<WordId>
    ensures { IsLeastFound (λ w. task_guards task.now first w && lock_guards tasks.now second w) result }
{
    lesser(
        set_guarded_word(task.effects.guarded_reads.as_slice(), first, tasks, second),
        set_guarded_word(task.effects.guarded_writes.as_slice(), first, tasks, second),
    )
}

/// The least word that both locks guard, each for some of the tasks.
pub(crate) fn twice_guarded_word(tasks: &[TaskDecl], first: u32, second: u32) -> Option<WordId>
    ensures { IsLeastFound (λ w. lock_guards tasks.now first w && lock_guards tasks.now second w) result }
{
    let mut least = None;
    for task in tasks {
        least = lesser(least, task_twice_guarded_word(task, first, tasks, second));
    }
    least
}
