//! The tasks of a run: their names, and how they ended.
ghost use Rattle.std.specs.Prelude.{◌≡◌, ◌≤◌, ◌-◌, ◌++◌, length, map, slice_get, find, flat_map, OnOk};
ghost use Rattle.rv_assembler.specs.Operand.{bytes_of};
ghost use Rattle.rv_assembler.specs.Reading.{reading_of};
ghost use Rattle.text_places.specs.Words.{is_task_of};
ghost use Rattle.state_text.specs.ForReaders.{entry_on_line, entry_of_task, end_words, ended_task_line, task_end_line};
ghost use Rattle.state_text.specs.Named.{HasLinesOfText};

use dn_base::{Memory, Name};
use run_report::push_end;
use rv_assembler::{Reading, Statement, read_line};
use rv_core::{EndShown, TaskEnd};
use src_text::{Line, Token};
use text_pieces::{push, push_decimal};
use text_places::{Located, Places, TaskPlace, push_lock};

/// A program's text: its bytes, its lines, the number of its version line or 0, and the program with the places of its parts.
#[derive(Clone, Copy)]
pub(crate) struct NamedSource<'a> {
    pub(crate) text: &'a [u8],
    pub(crate) lines: &'a [Line],
    pub(crate) version: u32,
    pub(crate) located: &'a Located,
}

/// The bytes of a token; none if its positions aren't in the text.
fn token_bytes(text: &[u8], token: Token) -> &[u8]
    ensures { result.now ≡ bytes_of text.now token }
{
    let start = token.start as usize;
    let end = token.end as usize;
    if start <= end && end <= text.len() {
        &text[start..end]
    } else {
        &text[..0]
    }
}

/// The entry that a line of tasks names; nothing for another line.
fn entry_on_line<'a>(text: &'a [u8], reading: Option<Reading>) -> &'a [u8]
    ensures { result.now ≡ entry_on_line text.now reading }
{
    match reading {
        Some(Reading::Good(saying)) => match saying.statement {
            Statement::Tasks(family) => token_bytes(text, family.entry),
            _ => b"",
        },
        _ => b"",
    }
}

impl<'a> NamedSource<'a> {
    /// What the line of this number says, from 1; None if there is no such line.
    fn reading(&self, line: u32) -> Option<Reading>
        ensures { result ≡ slice_get (map (reading_of self.now.version self.now.text.now) self.now.lines.now) (line - 1) }
    {
        match self.lines.get((line as usize).saturating_sub(1)) {
            Some(line) => Some(read_line(self.version, self.text, line)),
            None => None,
        }
    }

    /// The entry of the task of this phase and core, as its line names it.
    fn task_name(&self, phase: usize, core: u32) -> &'a [u8]
        ensures { result.now ≡ entry_of_task self.now.text.now (map (reading_of self.now.version self.now.text.now) self.now.lines.now) (find (is_task_of phase core) self.now.located.now.places.tasks) }
    {
        match self.located.places.task(phase, core) {
            Some(place) => entry_on_line(self.text, self.reading(place.line)),
            None => b"",
        }
    }
}

/// Adds how a task ended; a lock that it waits for has its name.
fn push_end_words(out: &mut Vec<u8>, locks: &[Name], end: EndShown) -> Result<(), Memory>
    ensures { OnOk result (out.new.items ≡ out.old.items ++ end_words locks.now end) }
{
    match end {
        EndShown::Fuel => push(out, b"out of fuel"),
        EndShown::Waits { lock } => {
            push(out, b"waits for ")?;
            push_lock(out, locks, lock.0 as usize)
        }
        _ => push_end(out, end),
    }
}

/// Adds the line of a task of this name.
#[tactic(auto, unfolding(crate::specs::ForReaders::ended_task_line))]
fn push_task_of_name(
    out: &mut Vec<u8>,
    name: &[u8],
    locks: &[Name],
    task: TaskEnd,
) -> Result<(), Memory>
    ensures { OnOk result (out.new.items ≡ out.old.items ++ ended_task_line name.now locks.now task) }
{
    push(out, b"task ")?;
    push(out, name)?;
    push(out, b" of core ")?;
    push_decimal(out, task.core.0)?;
    push(out, b" in phase ")?;
    push_decimal(out, task.phase.0)?;
    push(out, b": ")?;
    push_end_words(out, locks, task.end)?;
    push(out, b", retired ")?;
    push_decimal(out, task.retired)?;
    push(out, b"\n")
}

/// Adds the line of a task.
fn push_task(out: &mut Vec<u8>, source: &NamedSource<'_>, task: TaskEnd) -> Result<(), Memory>
    requires { HasLinesOfText source.now }
    ensures { OnOk result (out.new.items ≡ out.old.items ++ task_end_line source.now.text.now source.now.located.now task) }
{
    let name = source.task_name(task.phase.0 as usize, task.core.0);
    let located = source.located;
    let program = &located.program;
    push_task_of_name(out, name, program.locks.as_slice(), task)
}

/// Adds the lines of these tasks.
pub(crate) fn push_tasks(
    out: &mut Vec<u8>,
    source: &NamedSource<'_>,
    tasks: &[TaskEnd],
) -> Result<(), Memory>
    requires { HasLinesOfText source.now }
    ensures { OnOk result (out.new.items ≡ out.old.items ++ flat_map (task_end_line source.now.text.now source.now.located.now) tasks.now) }
{
    for task in tasks {
        push_task(out, source, *task)?;
    }
    Ok(())
}
