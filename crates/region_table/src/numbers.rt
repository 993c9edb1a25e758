ghost use Rattle.std.specs.List.{All};
ghost use Rattle.region_table.specs.Words.{IsCanonical};
ghost use Rattle.region_table.specs.Program.{tasks_of};
ghost use Rattle.region_table.specs.Numbers.{AreCodeWords, IsOfWords};

use crate::declared::{Phase, TaskDecl};
use crate::words::WordSet;

/// These words have 32 bits.
pub(crate) fn words_fit(words: &[u32])
    ensures { AreCodeWords words.now }
{}

/// These sets are canonical.
fn sets_fit(sets: &[WordSet])
    ensures { All IsCanonical sets.now }
{
    for set in sets {
        // for the proof alone: the call says that the intervals of the set are canonical
        let _intervals = set.intervals();
    }
}

/// The numbers of a task have 32 bits, and its sets are canonical.
fn task_fits(task: &TaskDecl)
    ensures { IsOfWords task.now }
{
    // for the proof alone: a read of a number brings the range of its type, and a look at the intervals of a set that they are canonical
    let _entry = task.entry;
    let _arg = task.arg;
    let _reads = task.effects.reads.intervals();
    let _writes = task.effects.writes.intervals();
    sets_fit(task.effects.guarded_reads.as_slice());
    sets_fit(task.effects.guarded_writes.as_slice());
}

/// The same for several tasks.
fn tasks_fit(tasks: &[TaskDecl])
    ensures { All IsOfWords tasks.now }
{
    for task in tasks {
        task_fits(task);
    }
}

/// The same for all tasks of these phases.
pub(crate) fn phases_fit(phases: &[Phase])
    ensures { All IsOfWords (tasks_of phases.now) }
{
    for phase in phases {
        tasks_fit(phase.tasks.as_slice());
    }
}
