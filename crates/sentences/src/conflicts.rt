//! Sentences on the three kinds of conflict.
ghost use Rattle.std.specs.Prelude.{◌≡◌, ◌++◌, OnOk};
ghost use Rattle.sentences.specs.Conflicts.{declaring_text, core_text, guarded_task_text, phase_text, plain_text, guard_text, uses_it_plainly, guarded_plain_text, two_locks_text, contenders_text, conflict_remedy, conflict_sentences};

use crate::claiming::push_contention;
use crate::guards::guarded_in;
use dn_base::Memory;
use effect_checker::CheckFault;
use text_pieces::Piece::{Bytes, Number};
use text_pieces::{push, push_pieces};
use text_places::{Located, Places, TaskPlace, push_lock, push_word};

/// Adds the line that declares a task, if there is one.
#[tactic(auto, unfolding(crate::specs::Conflicts::declaring_line))]
fn push_declaring(out: &mut Vec<u8>, place: Option<TaskPlace>) -> Result<(), Memory>
    ensures { OnOk result (out.new.items ≡ out.old.items ++ declaring_text place) }
{
    match place {
        Some(place) => push_pieces(out, &[Bytes(b" (line "), Number(place.line), Bytes(b")")]),
        None => Ok(()),
    }
}

/// Adds a task by its core, and the line that declares it.
#[tactic(auto, unfolding(crate::specs::Conflicts::core_text))]
pub(crate) fn push_core(
    out: &mut Vec<u8>,
    places: &Places,
    phase: u32,
    core: u32,
) -> Result<(), Memory>
    ensures { OnOk result (out.new.items ≡ out.old.items ++ core_text places.now phase core) }
{
    push_pieces(out, &[Bytes(b"core "), Number(core), Bytes(b"'s task")])?;
    push_declaring(out, places.task(phase as usize, core))
}

/// Adds the task on a core for which a lock guards a word.
fn push_guarded_task(
    out: &mut Vec<u8>,
    places: &Places,
    phase: u32,
    core: Option<u32>,
) -> Result<(), Memory>
    ensures { OnOk result (out.new.items ≡ out.old.items ++ guarded_task_text places.now phase core) }
{
    match core {
        Some(core) => push_core(out, places, phase, core),
        None => push(out, b"some task"),
    }
}

#[tactic(auto, unfolding(crate::specs::Conflicts::phase_text))]
fn push_phase(out: &mut Vec<u8>, phase: u32) -> Result<(), Memory>
    ensures { OnOk result (out.new.items ≡ out.old.items ++ phase_text phase) }
{
    push_pieces(out, &[Bytes(b"  In phase "), Number(phase), Bytes(b", ")])
}

#[tactic(auto, unfolding(crate::specs::Conflicts::plain_text, crate::specs::Conflicts::stores_plainly, crate::specs::Conflicts::and_another, crate::specs::Conflicts::uses_it_too))]
fn push_plain(
    out: &mut Vec<u8>,
    located: &Located,
    phase: u32,
    cores: (u32, u32),
    word: u32,
) -> Result<(), Memory>
    ensures { OnOk result (out.new.items ≡ out.old.items ++ plain_text located.now phase cores.0 cores.1 word) }
{
    push_phase(out, phase)?;
    push_core(out, &located.places, phase, cores.0)?;
    push(out, b" may store to ")?;
    push_word(out, &located.program, word)?;
    push(out, b" without a lock, and ")?;
    push_core(out, &located.places, phase, cores.1)?;
    push(out, b" may load it or store to it without one.\n")
}

/// Adds that a lock guards a word, and for which task.
#[tactic(auto, unfolding(crate::specs::Conflicts::guard_text, crate::specs::Conflicts::guards_it, crate::specs::Conflicts::for_task))]
fn push_guard(
    out: &mut Vec<u8>,
    located: &Located,
    phase: u32,
    lock: u32,
    word: u32,
) -> Result<(), Memory>
    ensures { OnOk result (out.new.items ≡ out.old.items ++ guard_text located.now phase lock word) }
{
    push_lock(out, located.program.locks.as_slice(), lock as usize)?;
    push(out, b" guards ")?;
    push_word(out, &located.program, word)?;
    push(out, b" for ")?;
    let core = guarded_in(&located.program, phase, lock, word);
    push_guarded_task(out, &located.places, phase, core)
}

#[tactic(auto, unfolding(crate::specs::Conflicts::uses_it_plainly))]
fn push_uses_it_plainly(out: &mut Vec<u8>) -> Result<(), Memory>
    ensures { OnOk result (out.new.items ≡ out.old.items ++ uses_it_plainly) }
{
    push(out, b" may load it or store to it without a lock.\n")
}

#[tactic(auto, unfolding(crate::specs::Conflicts::guarded_plain_text))]
fn push_guarded_plain(
    out: &mut Vec<u8>,
    located: &Located,
    phase: u32,
    lock: u32,
    core: u32,
    word: u32,
) -> Result<(), Memory>
    ensures { OnOk result (out.new.items ≡ out.old.items ++ guarded_plain_text located.now phase lock core word) }
{
    push_phase(out, phase)?;
    push_guard(out, located, phase, lock, word)?;
    push(out, b", and ")?;
    push_core(out, &located.places, phase, core)?;
    push_uses_it_plainly(out)
}

#[tactic(auto, unfolding(crate::specs::Conflicts::two_locks_text))]
fn push_two_locks(
    out: &mut Vec<u8>,
    located: &Located,
    phase: u32,
    locks: (u32, u32),
    word: u32,
) -> Result<(), Memory>
    ensures { OnOk result (out.new.items ≡ out.old.items ++ two_locks_text located.now phase locks.0 locks.1 word) }
{
    push_phase(out, phase)?;
    push_guard(out, located, phase, locks.0, word)?;
    push(out, b", and ")?;
    push_guard(out, located, phase, locks.1, word)?;
    push(out, b".\n")
}

/// Adds which two tasks, or which two locks, conflict on which word.
fn push_contenders(out: &mut Vec<u8>, located: &Located, conflict: CheckFault) -> Result<(), Memory>
    ensures { OnOk result (out.new.items ≡ out.old.items ++ contenders_text located.now conflict) }
{
    match conflict {
        CheckFault::PlainConflict {
            phase,
            core_a,
            core_b,
            word,
        } => push_plain(out, located, phase.0, (core_a.0, core_b.0), word.0),
        CheckFault::GuardedPlain {
            phase,
            lock,
            core,
            word,
        } => push_guarded_plain(out, located, phase.0, lock.0, core.0, word.0),
        CheckFault::TwoLocks {
            phase,
            lock_a,
            lock_b,
            word,
        } => push_two_locks(out, located, phase.0, (lock_a.0, lock_b.0), word.0),
    }
}

/// How to fix a conflict.
#[tactic(auto, unfolding(crate::specs::Conflicts::apart_remedy, crate::specs::Conflicts::guard_remedy, crate::specs::Conflicts::one_lock_remedy))]
fn remedy_of(conflict: CheckFault) -> &'static [u8]
    ensures { result.now ≡ conflict_remedy conflict }
{
    match conflict {
        CheckFault::PlainConflict { .. } =>
            b"  Give the tasks words or phases of their own, or have one lock guard the word for both by `.greads` and `.gwrites`.\n",
        CheckFault::GuardedPlain { .. } =>
            b"  Have the lock guard the word for that task too, and take it out of the task's `.reads` and `.writes`.\n",
        CheckFault::TwoLocks { .. } =>
            b"  Have one lock guard the word for all tasks of the phase.\n",
    }
}

/// Appends the sentences on a conflict of the text's program: the tasks that conflict on a word, with the lines that declare
/// them, the lines of the effects that claim the word for them, and how to fix it.
///
/// # Errors
/// `Memory` if there is no room; the text may have a part of the sentences then.
pub fn push_conflict(
    out: &mut Vec<u8>,
    text: &[u8],
    located: &Located,
    conflict: CheckFault,
) -> Result<(), Memory>
    ensures { OnOk result (out.new.items ≡ out.old.items ++ conflict_sentences text.now located.now conflict) }
{
    push_contenders(out, located, conflict)?;
    push_contention(out, text, located, conflict)?;
    push(out, remedy_of(conflict))
}
