//! What the tasks of a phase declare of a data word that one of them accesses.
ghost use Rattle.std.specs.Prelude.{◌≡◌, slice_get};
ghost use Rattle.sentences.specs.Uses.{guardian_by, guardian_among, opposes, is_contender, contender_among, is_reader, reader_among, others_by, others_among, tasks_or_none, others_in};

use crate::uses::{Access, own_lock};
use dn_base::WordId;
use region_table::{Program, TaskDecl};

/// A task by its core, and a lock that guards a word for it.
#[derive(Clone, Copy)]
pub(crate) struct Guardian {
    pub(crate) core: u32,
    pub(crate) lock: usize,
}

/// What the other tasks of a phase declare of a word that a task of the phase accesses in some way.
#[derive(Clone, Copy)]
pub(crate) enum Others {
    /// A lock guards the word for some task.
    Guarding(Guardian),
    /// The task of this core uses the word without a lock, in conflict with such an access without one.
    Contending(u32),
    /// The task of this core may load the word without a lock, and no access conflicts.
    Reading(u32),
    Nobody,
}

fn guardian_by(core: u32, lock: Option<usize>) -> Option<Guardian>
    ensures { result ≡ guardian_by core lock }
{
    match lock {
        Some(lock) => Some(Guardian { core, lock }),
        None => None,
    }
}

/// The first task for which a lock guards the word.
fn guardian_among(tasks: &[TaskDecl], word: u32) -> Option<Guardian>
    ensures { result ≡ guardian_among tasks.now word }
{
    for task in tasks {
        if let Some(guardian) = guardian_by(task.core.0, own_lock(&task.effects, word)) {
            return Some(guardian);
        }
    }
    None
}

/// Whether a plain use of the word by the task conflicts with this plain access by another.
fn opposes(access: Access, task: &TaskDecl, word: u32) -> bool
    ensures { result ≡ opposes access task.now word }
{
    match access {
        Access::Load => task.effects.writes.contains(WordId(word)),
        Access::Store => {
            task.effects.reads.contains(WordId(word)) || task.effects.writes.contains(WordId(word))
        }
    }
}

fn is_contender(access: Access, core: u32, task: &TaskDecl, word: u32) -> bool
    ensures { result ≡ is_contender access core task.now word }
{
    task.core.0 != core && opposes(access, task, word)
}

fn contender_among(access: Access, core: u32, tasks: &[TaskDecl], word: u32) -> Option<u32>
    ensures { result ≡ contender_among access core tasks.now word }
{
    for task in tasks {
        if is_contender(access, core, task, word) {
            return Some(task.core.0);
        }
    }
    None
}

fn is_reader(core: u32, task: &TaskDecl, word: u32) -> bool
    ensures { result ≡ is_reader core task.now word }
{
    task.core.0 != core && task.effects.reads.contains(WordId(word))
}

fn reader_among(core: u32, tasks: &[TaskDecl], word: u32) -> Option<u32>
    ensures { result ≡ reader_among core tasks.now word }
{
    for task in tasks {
        if is_reader(core, task, word) {
            return Some(task.core.0);
        }
    }
    None
}

fn others_by(guardian: Option<Guardian>, contender: Option<u32>, reader: Option<u32>) -> Others
    ensures { result ≡ others_by guardian contender reader }
{
    match (guardian, contender, reader) {
        (Some(guardian), _, _) => Others::Guarding(guardian),
        (None, Some(core), _) => Others::Contending(core),
        (None, None, Some(core)) => Others::Reading(core),
        (None, None, None) => Others::Nobody,
    }
}

fn others_among(access: Access, core: u32, tasks: &[TaskDecl], word: u32) -> Others
    ensures { result ≡ others_among access core tasks.now word }
{
    others_by(
        guardian_among(tasks, word),
        contender_among(access, core, tasks, word),
        reader_among(core, tasks, word),
    )
}

/// What the tasks of a phase declare of a word that the task of this core accesses.
pub(crate) fn others_in(
    program: &Program,
    phase: u32,
    access: Access,
    core: u32,
    word: u32,
) -> Others
    ensures { result ≡ others_in program.now phase access core word }
{
    match program.phases.get(phase as usize) {
        Some(phase) => others_among(access, core, phase.tasks.as_slice(), word),
        None => Others::Nobody,
    }
}
