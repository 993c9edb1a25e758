//! The tasks of an answer that ended, by the lines of its tasks: the cause, and the holders of locks.
ghost use Rattle.std.specs.Prelude.{◌≡◌, List, All, length, slice_index_or, None, IfOk};
ghost use Rattle.rv_core.specs.Ending.{is_waiting, is_trapped};
ghost use Rattle.explained_answer.specs.declared.line.AnswerLine.{AnswerLine as LineOf};
ghost use Rattle.explained_answer.specs.Holders.{answer_grants, holder_on};
ghost use Rattle.explained_answer.specs.Ended.{answer_tasks, with_last_task, AreLastTasks, AreLastLines, ended_in, ended_holder, trapped_on, if_cut, first_by, keeper_on, cause_of, named_on};
ghost use Rattle.explained_answer.specs.Lines.{IsLineOf, lines_in};

use crate::AnswerLine;
use crate::holders::{holder_on, last_grants};
use crate::parsing::ReadLine;
use dn_base::{Grant, MOST_CORES, Memory, Outcome};
use rv_core::{EndShown, TaskEnd};
use std::alloc::Global;
use text_places::Located;

/// What is looked up of the lines of an answer.
#[derive(Drop)]
pub(crate) struct LastLines {
    /// The last grant of each lock, by the number of the lock.
    grants: Vec<Option<Grant>>,
    /// The last task of each core.
    tasks: Vec<Option<TaskEnd>>,
}

/// Notes the task of a line, if it has one.
fn note_task(last: &mut Vec<Option<TaskEnd>>, line: AnswerLine)
    ensures { last.new.items ≡ with_last_task last.old.items line }
{
    if let AnswerLine::Task(task) = line {
        let core = task.core.0 as usize;
        if core < last.len() {
            last[core] = Some(task);
        }
    }
}

/// The last task of each core in these lines.
fn last_tasks(alloc: Global, lines: &[ReadLine<'_>]) -> Result<Vec<Option<TaskEnd>>, Memory>
    ensures { IfOk result (λ last. AreLastTasks (answer_tasks (lines_in lines.now)) last.items) }
{
    let mut last: Vec<Option<TaskEnd>> = vec![in alloc; None; MOST_CORES]?;
    for read in lines {
        note_task(&mut last, read.line);
    }
    Ok(last)
}

pub(crate) fn is_waiting(end: EndShown) -> bool
    ensures { result ≡ is_waiting end }
{
    matches!(end, EndShown::Waits { .. })
}

fn is_trapped(end: EndShown) -> bool
    ensures { result ≡ is_trapped end }
{
    matches!(end, EndShown::Trap { .. })
}

/// A task, if it is of this phase and ended.
fn ended_in(phase: u32, task: Option<TaskEnd>) -> Option<TaskEnd>
    ensures { result ≡ ended_in phase task }
{
    match task {
        Some(task) if task.phase.0 == phase && !is_waiting(task.end) => Some(task),
        _ => None,
    }
}

/// The task of a line, if it trapped.
fn trapped_on(line: AnswerLine) -> Option<TaskEnd>
    ensures { result ≡ trapped_on line }
{
    match line {
        AnswerLine::Task(task) if is_trapped(task.end) => Some(task),
        _ => None,
    }
}

/// A task, if it trapped or ran out of fuel.
fn if_cut(task: Option<TaskEnd>) -> Option<TaskEnd>
    ensures { result ≡ if_cut task }
{
    match task {
        Some(task) if is_trapped(task.end) || task.end == EndShown::Fuel => Some(task),
        _ => None,
    }
}

fn first_trapped(lines: &[ReadLine<'_>]) -> Option<TaskEnd>
    ensures { result ≡ first_by trapped_on (lines_in lines.now) }
{
    let mut first = None;
    for read in lines {
        first = first.or(trapped_on(read.line));
    }
    first
}

/// The last task of a core.
fn last_of(last: &[Option<TaskEnd>], core: u32) -> Option<TaskEnd>
    ensures { result ≡ slice_index_or last.now core None }
{
    *last.get(core as usize)?
}

/// The last grant of each lock and the last task of each core in the lines of an answer.
pub(crate) fn last_lines(
    alloc: Global,
    located: &Located,
    lines: &[ReadLine<'_>],
) -> Result<LastLines, Memory>
    requires { All (IsLineOf located.now) (lines_in lines.now) }
    ensures { IfOk result (AreLastLines (lines_in lines.now)) }
{
    let grants = last_grants(alloc, located, lines)?;
    let tasks = last_tasks(alloc, lines)?;
    Ok(LastLines { grants, tasks })
}

/// The core that holds the lock for which the task of a line waits.
pub(crate) fn holder_among(last: &LastLines, line: AnswerLine) -> Option<u32>
    ensures { (lines : List LineOf) → AreLastLines lines last.now → result ≡ holder_on (answer_grants lines) line }
{
    holder_on(last.grants.as_slice(), line)
}

/// The task that holds the lock for which the task of a line waits, if it ended.
fn ended_holder(last: &LastLines, line: AnswerLine) -> Option<TaskEnd>
    ensures { (lines : List LineOf) → AreLastLines lines last.now → result ≡ ended_holder (answer_grants lines) (answer_tasks lines) line }
{
    let AnswerLine::Task(task) = line else {
        return None;
    };
    let core = holder_among(last, line)?;
    ended_in(task.phase.0, last_of(last.tasks.as_slice(), core))
}

/// The first task that trapped or ran out of fuel while it held a lock for which a task of these lines waits.
fn first_keeper(last: &LastLines, lines: &[ReadLine<'_>]) -> Option<TaskEnd>
    requires { AreLastLines (lines_in lines.now) last.now }
    ensures { result ≡ first_by (keeper_on (answer_grants (lines_in lines.now)) (answer_tasks (lines_in lines.now))) (lines_in lines.now) }
{
    let mut first = None;
    for read in lines {
        first = first.or(if_cut(ended_holder(last, read.line)));
    }
    first
}

/// The task that is called the cause of an answer with this outcome.
fn cause_of(last: &LastLines, lines: &[ReadLine<'_>], outcome: Outcome) -> Option<TaskEnd>
    requires { AreLastLines (lines_in lines.now) last.now }
    ensures { result ≡ cause_of outcome (lines_in lines.now) }
{
    match outcome {
        Outcome::Trapped => first_trapped(lines),
        Outcome::Stuck => first_keeper(last, lines),
        Outcome::Done | Outcome::Fuel => None,
    }
}

/// The task that is named after a line of these: after an outcome the cause, after a task that waits the holder of its lock, if
/// that ended.
pub(crate) fn named_on(
    last: &LastLines,
    lines: &[ReadLine<'_>],
    line: AnswerLine,
) -> Option<TaskEnd>
    requires { AreLastLines (lines_in lines.now) last.now }
    ensures { result ≡ named_on (lines_in lines.now) line }
{
    match line {
        AnswerLine::Outcome(outcome) => cause_of(last, lines, outcome),
        _ => ended_holder(last, line),
    }
}
