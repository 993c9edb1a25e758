//! Sentences on the effects that claim a word for two tasks.
ghost use Rattle.std.specs.Prelude.{◌≡◌, ◌++◌, flat_map, OnOk};
ghost use Rattle.sentences.specs.Guards.{guarded_in};
ghost use Rattle.sentences.specs.Conflicts.{contending_task, task_on, first_contender, second_contender, claimed_by, claiming_line, more_claims, some_claims, claims_text, contender_core, contender_text};

use crate::claims::{Contender, Way, claims_in, contender_at};
use crate::guards::guarded_in;
use dn_base::Memory;
use effect_checker::CheckFault;
use text_pieces::{push, push_decimal, push_long};
use text_places::{Located, Places, TaskPlace, push_quoted_line};

/// The greatest number of lines that are quoted of a task.
const MOST_QUOTED: usize = 3;

fn task_on(places: &Places, phase: u32, core: Option<u32>) -> Option<TaskPlace>
    ensures { result ≡ task_on places.now phase core }
{
    match core {
        Some(core) => places.task(phase as usize, core),
        None => None,
    }
}

/// The task of a core.
fn contending_task(located: &Located, phase: u32, core: u32) -> Option<TaskPlace>
    ensures { result ≡ contending_task located.now phase core }
{
    located.places.task(phase as usize, core)
}

/// The task for which a lock guards a word.
fn guarded_task(located: &Located, phase: u32, lock: u32, word: u32) -> Option<TaskPlace>
    ensures { result ≡ task_on located.now.places phase (guarded_in located.now.program phase lock word) }
{
    task_on(
        &located.places,
        phase,
        guarded_in(&located.program, phase, lock, word),
    )
}

/// The task that a conflict names first, or for which the lock that it names first guards the word.
fn first_contender(located: &Located, conflict: CheckFault) -> Option<Contender>
    ensures { result ≡ first_contender located.now conflict }
{
    let program = &located.program;
    match conflict {
        CheckFault::PlainConflict {
            phase,
            core_a,
            core_b: _,
            word,
        } => {
            let task = contending_task(located, phase.0, core_a.0);
            contender_at(program, word.0, task, Way::Stores)
        }
        CheckFault::GuardedPlain {
            phase,
            lock,
            core: _,
            word,
        } => {
            let task = guarded_task(located, phase.0, lock.0, word.0);
            contender_at(program, word.0, task, Way::Under(lock.0 as usize))
        }
        CheckFault::TwoLocks {
            phase,
            lock_a,
            lock_b: _,
            word,
        } => {
            let task = guarded_task(located, phase.0, lock_a.0, word.0);
            contender_at(program, word.0, task, Way::Under(lock_a.0 as usize))
        }
    }
}

/// The other task of a conflict.
fn second_contender(located: &Located, conflict: CheckFault) -> Option<Contender>
    ensures { result ≡ second_contender located.now conflict }
{
    let program = &located.program;
    match conflict {
        CheckFault::PlainConflict {
            phase,
            core_a: _,
            core_b,
            word,
        } => {
            let task = contending_task(located, phase.0, core_b.0);
            contender_at(program, word.0, task, Way::Plainly)
        }
        CheckFault::GuardedPlain {
            phase,
            lock: _,
            core,
            word,
        } => {
            let task = contending_task(located, phase.0, core.0);
            contender_at(program, word.0, task, Way::Plainly)
        }
        CheckFault::TwoLocks {
            phase,
            lock_a: _,
            lock_b,
            word,
        } => {
            let task = guarded_task(located, phase.0, lock_b.0, word.0);
            contender_at(program, word.0, task, Way::Under(lock_b.0 as usize))
        }
    }
}

#[tactic(auto, unfolding(crate::specs::Conflicts::claimed_by))]
fn push_claimed_by(out: &mut Vec<u8>, core: u32) -> Result<(), Memory>
    ensures { OnOk result (out.new.items ≡ out.old.items ++ claimed_by core) }
{
    push(out, b"  Core ")?;
    push_decimal(out, core)?;
    push(out, b"'s task uses it by:\n")
}

#[tactic(auto, unfolding(crate::specs::Conflicts::claiming_line))]
fn push_claiming_line(out: &mut Vec<u8>, text: &[u8], line: u32) -> Result<(), Memory>
    ensures { OnOk result (out.new.items ≡ out.old.items ++ claiming_line text.now line) }
{
    push(out, b"  ")?;
    push_quoted_line(out, text, line)
}

fn push_claiming_lines(out: &mut Vec<u8>, text: &[u8], lines: &[u32]) -> Result<(), Memory>
    ensures { OnOk result (out.new.items ≡ out.old.items ++ flat_map (claiming_line text.now) lines.now) }
{
    for line in lines {
        push_claiming_line(out, text, *line)?;
    }
    Ok(())
}

#[tactic(auto, unfolding(crate::specs::Conflicts::more_claims))]
fn push_more_claims(out: &mut Vec<u8>, number: usize) -> Result<(), Memory>
    ensures { OnOk result (out.new.items ≡ out.old.items ++ more_claims number) }
{
    if number == 0 {
        return Ok(());
    }
    push(out, b"  and ")?;
    push_long(out, number as u64)?;
    push(out, b" more\n")
}

/// Adds the first three of the lines, and how many more there are.
#[tactic(auto, unfolding(crate::specs::Conflicts::some_claims))]
fn push_some_claims(out: &mut Vec<u8>, text: &[u8], core: u32, lines: &[u32]) -> Result<(), Memory>
    ensures { OnOk result (out.new.items ≡ out.old.items ++ some_claims text.now core lines.now) }
{
    push_claimed_by(out, core)?;
    push_claiming_lines(out, text, &lines[..lines.len().min(MOST_QUOTED)])?;
    push_more_claims(out, lines.len().saturating_sub(MOST_QUOTED))
}

fn push_claims(out: &mut Vec<u8>, text: &[u8], core: u32, lines: &[u32]) -> Result<(), Memory>
    ensures { OnOk result (out.new.items ≡ out.old.items ++ claims_text text.now core lines.now) }
{
    if lines.is_empty() {
        return Ok(());
    }
    push_some_claims(out, text, core, lines)
}

fn contender_core(task: Option<TaskPlace>) -> u32
    ensures { result ≡ contender_core task }
{
    match task {
        Some(task) => task.core,
        None => 0,
    }
}

/// Adds the lines of the effects by which a task of a conflict uses the word.
fn push_contender(
    out: &mut Vec<u8>,
    text: &[u8],
    located: &Located,
    contender: Option<Contender>,
) -> Result<(), Memory>
    ensures { OnOk result (out.new.items ≡ out.old.items ++ contender_text text.now located.now contender) }
{
    match contender {
        Some(contender) => {
            let lines = claims_in(*out.allocator(), text, &located.program, contender)?;
            push_claims(out, text, contender_core(contender.task), lines.as_slice())
        }
        None => Ok(()),
    }
}

/// Adds the lines of the effects by which the tasks of a conflict use the word.
pub(crate) fn push_contention(
    out: &mut Vec<u8>,
    text: &[u8],
    located: &Located,
    conflict: CheckFault,
) -> Result<(), Memory>
    ensures { OnOk result (out.new.items ≡ out.old.items ++ (contender_text text.now located.now (first_contender located.now conflict)
        ++ contender_text text.now located.now (second_contender located.now conflict))) }
{
    push_contender(out, text, located, first_contender(located, conflict))?;
    push_contender(out, text, located, second_contender(located, conflict))
}
