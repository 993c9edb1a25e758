//! For which task a lock guards a data word.
ghost use Rattle.std.specs.Prelude.{◌≡◌, [], slice_index_or, option_map};
ghost use Rattle.region_table.specs.Words.{has};
ghost use Rattle.region_table.specs.Plan.{task_guards};
ghost use Rattle.sentences.specs.Guards.{guarded_among, guarded_in};

use dn_base::WordId;
use region_table::{Program, TaskDecl, WordSet};

/// Whether the set of this lock has the word.
fn set_has(sets: &[WordSet], lock: u32, word: u32) -> bool
    ensures { result ≡ has (slice_index_or sets.now lock []) word }
{
    match sets.get(lock as usize) {
        Some(set) => set.contains(WordId(word)),
        None => false,
    }
}

fn task_guards(task: &TaskDecl, lock: u32, word: u32) -> bool
    ensures { result ≡ task_guards task.now lock word }
{
    set_has(task.effects.guarded_reads.as_slice(), lock, word)
        || set_has(task.effects.guarded_writes.as_slice(), lock, word)
}

/// The core of the first of these tasks for which the lock guards the word.
fn guarded_among(tasks: &[TaskDecl], lock: u32, word: u32) -> Option<u32>
    ensures { result ≡ guarded_among tasks.now lock word }
{
    for task in tasks {
        if task_guards(task, lock, word) {
            return Some(task.core.0);
        }
    }
    None
}

/// The core of the phase's first task for which the lock guards the word.
pub(crate) fn guarded_in(program: &Program, phase: u32, lock: u32, word: u32) -> Option<u32>
    ensures { result ≡ guarded_in program.now phase lock word }
{
    match program.phases.get(phase as usize) {
        Some(phase) => guarded_among(phase.tasks.as_slice(), lock, word),
        None => None,
    }
}
