//! Marks of the words that several tasks of a phase may write: one byte for each word, made once for each phase.
ghost use Rattle.std.specs.Prelude.{◌≡◌, ◌+◌, ◌<◌, ◌≤◌, ℕ, ◌==◌, ◌||◌, ◌&&◌, not, List, length};
ghost use Rattle.std.specs.List.{All, list_any};
ghost use Rattle.region_table.specs.declared.interval.Interval.{Interval};
ghost use Rattle.region_table.specs.declared.declared.TaskDecl.{TaskDecl};
ghost use Rattle.region_table.specs.Words.{has, in_interval};
ghost use Rattle.region_table.specs.Program.{LiesIn, IsTask, IsPhase, AreEffects};
ghost use Rattle.region_table.specs.Plan.{task_writes};
ghost use Rattle.outcomes_top.specs.Marks.{mark_of, is_of_other, AreMarkedFor, TellShared};

use region_table::{Interval, Phase, TaskDecl, WordSet};

/// The mark of a word that several tasks may write.
const SEVERAL: u8 = 255;

/// The mark of a word that this core may write too.
fn mark_for(before: u8, core: u32) -> u8
    requires { core < 16 }
    ensures { (c : ℕ) → c < 16 → is_of_other result c ≡ (is_of_other before c || not (core == c)) }
{
    let own = core as u8 + 1;
    if before == 0 || before == own {
        own
    } else {
        SEVERAL
    }
}

/// Marks the words of an interval for a core.
fn mark_interval(marks: &mut [u8], interval: Interval, core: u32)
    requires within { interval.hi ≤ length marks.old }
    requires core { core < 16 }
    ensures { AreMarkedFor marks.old marks.new core (in_interval interval) }
{
    for word in interval.lo..interval.hi {
        marks[word as usize] = mark_for(marks[word as usize], core);
    }
}

/// Marks the words of a set for a core.
fn mark_set(marks: &mut [u8], set: &WordSet, core: u32)
    requires within { LiesIn (length marks.old) set.now }
    requires core { core < 16 }
    ensures { AreMarkedFor marks.old marks.new core (has set.now) }
{
    for interval in set.intervals() {
        mark_interval(marks, *interval, core);
    }
}

/// Marks the words of some sets for a core.
fn mark_sets(marks: &mut [u8], sets: &[WordSet], core: u32)
    requires within { All (LiesIn (length marks.old)) sets.now }
    requires core { core < 16 }
    ensures { AreMarkedFor marks.old marks.new core (λ w. list_any (λ (set : List Interval). has set w) sets.now) }
{
    for set in sets {
        mark_set(marks, set, core);
    }
}

/// Marks the words that a task may write.
fn mark_task(marks: &mut [u8], task: &TaskDecl)
    requires core { task.now.core.0 < 16 }
    requires within { (locks : ℕ) × AreEffects (length marks.old) locks task.now.effects }
    ensures { AreMarkedFor marks.old marks.new task.now.core.0 (task_writes task.now) }
{
    mark_set(marks, &task.effects.writes, task.core.0);
    mark_sets(marks, task.effects.guarded_writes.as_slice(), task.core.0);
}

/// Marks the words that the tasks of the phase may write. No word has a mark before.
pub(crate) fn mark_all(marks: &mut [u8], phase: &Phase)
    requires none { (w : ℕ) → mark_of marks.old w ≡ 0 }
    requires within { (locks : ℕ) × IsPhase (length marks.old) locks phase.now }
    ensures words { length marks.new ≡ length marks.old }
    ensures tell { TellShared phase.now marks.new }
{
    for task in phase.tasks.as_slice() {
        mark_task(marks, task);
    }
}
