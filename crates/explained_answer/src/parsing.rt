//! The lines of an answer, read: which lines an answer of a program may have.
ghost use Rattle.std.specs.Prelude.{◌≡◌, ◌==◌, ◌+◌, length, IfOk, IfSome, IfNone};
ghost use Rattle.text_pieces.specs.Field.{Stands};
ghost use Rattle.explained_answer.specs.AnswerLines.{answer_line};
ghost use Rattle.region_table.specs.Program.{tasks_of};
ghost use Rattle.explained_answer.specs.Lines.{has_task, has_named_lock, is_size_of, count_is_of, fits_program, IsLineOf, NoLineOf, IsWritten, IsAnswerRead};

use crate::{AnswerLine, Count, read_line};
use dn_base::Memory;
use region_table::{Phase, Program};
use sentences::code_place_at;
use std::alloc::Global;
use text_places::Located;

/// A line of an answer, and its bytes there.
#[derive(Clone, Copy)]
pub(crate) struct ReadLine<'a> {
    pub(crate) line: AnswerLine,
    pub(crate) written: &'a [u8],
}

/// An answer, read line by line.
#[derive(Drop)]
pub(crate) enum ReadAnswer<'a> {
    Lines(Vec<ReadLine<'a>>),
    /// The line of this number, from 1, is the first that can't be a line of an answer of the program.
    Refused { line: usize },
}

/// Whether the text has a task for the core in the phase.
fn has_task(located: &Located, phase: u32, core: u32) -> bool
    ensures { result ≡ has_task located.now phase core }
{
    located.places.task(phase as usize, core).is_some()
}

fn has_named_lock(located: &Located, lock: u32) -> bool
    ensures { result ≡ has_named_lock located.now lock }
{
    (lock as usize) < located.program.locks.len()
}

/// Whether these phases have this many tasks in all.
fn has_tasks(phases: &[Phase], tasks: usize) -> bool
    ensures { result ≡ (length (tasks_of phases.now) == tasks) }
{
    let mut others = tasks;
    for phase in phases {
        let here = phase.tasks.len();
        if here > others {
            return false;
        }
        others -= here;
    }
    others == 0
}

/// Whether the program has these numbers of phases, tasks and data words.
fn is_size_of(program: &Program, phases: u32, tasks: u32, words: u32) -> bool
    ensures { result ≡ is_size_of program.now phases tasks words }
{
    phases as usize == program.phases.len()
        && has_tasks(program.phases.as_slice(), tasks as usize)
        && words as usize == program.memory.len()
}

fn count_is_of(located: &Located, of: Count, number: u32) -> bool
    ensures { result ≡ count_is_of located.now of number }
{
    match of {
        Count::Words => number as usize == located.program.memory.len(),
        Count::Events
        | Count::Kind(_)
        | Count::Tasks
        | Count::Retired
        | Count::Links
        | Count::WholeEvents
        | Count::EnabledEvents => true,
    }
}

/// Whether an answer of the text's program may have the line.
fn fits_program(located: &Located, line: AnswerLine) -> bool
    ensures { result ≡ fits_program located.now line }
{
    match line {
        AnswerLine::Outcome(_) => true,
        AnswerLine::Task(task) => has_task(located, task.phase.0, task.core.0),
        AnswerLine::Word { word, value: _ } => (word as usize) < located.program.memory.len(),
        AnswerLine::Grant(grant) => {
            has_task(located, grant.phase.0, grant.core.0) && has_named_lock(located, grant.lock.0)
        }
        AnswerLine::Count { of, number } => count_is_of(located, of, number),
        AnswerLine::Checked {
            phases,
            tasks,
            words,
        } => is_size_of(&located.program, phases, tasks, words),
        AnswerLine::Unbounded { phase, core, pc } => {
            has_task(located, phase, core) && code_place_at(&located.places, pc).is_some()
        }
        AnswerLine::Varies { word } => (word as usize) < located.program.memory.len(),
        AnswerLine::OpenControl { phase, core, pc } => {
            has_task(located, phase, core) && code_place_at(&located.places, pc).is_some()
        }
        AnswerLine::OpenHeld { phase, core, lock } => {
            has_task(located, phase, core) && has_named_lock(located, lock)
        }
        AnswerLine::OpenStuck { phase, lock } => {
            (phase as usize) < located.program.phases.len() && has_named_lock(located, lock)
        }
        AnswerLine::Sum { .. }
        | AnswerLine::Time { .. }
        | AnswerLine::Network { .. }
        | AnswerLine::Link(_)
        | AnswerLine::Fixed(_) => true,
    }
}

/// Reads a line of an answer of this program at the start of some bytes. Gives it and the bytes after it.
#[tactic(auto, using(crate::proofs::Steps::front_of, crate::proofs::Steps::no_longer))]
fn line_of<'a>(located: &Located, bytes: &'a [u8]) -> Option<(ReadLine<'a>, &'a [u8])>
    ensures some { IfSome result (λ f. Stands (IsLineOf located.now) answer_line bytes.now f.0.line f.1.now) }
    ensures written { IfSome result (λ f. IsWritten f.0) }
    ensures none { IfNone result (NoLineOf located.now bytes.now) }
{
    let (line, behind) = read_line(bytes)?;
    if fits_program(located, line) {
        let written = &bytes[..bytes.len() - behind.len()];
        Some((ReadLine { line, written }, behind))
    } else {
        None
    }
}

/// The lines of an answer of this program.
pub(crate) fn read_answer<'a>(
    alloc: Global,
    located: &Located,
    bytes: &'a [u8],
) -> Result<ReadAnswer<'a>, Memory>
    ensures { IfOk result (IsAnswerRead located.now bytes.now) }
{
    let mut lines = Vec::new(alloc);
    let mut rest = bytes;
    'lines: while !rest.is_empty() {
        let Some((read, behind)) = line_of(located, rest) else {
            return Ok(ReadAnswer::Refused {
                line: lines.len() + 1,
            });
        };
        lines.push(read)?;
        rest = behind;
    }
    Ok(ReadAnswer::Lines(lines))
}
