//! Which task holds a lock at the end of a run, by the grants in its answer.
ghost use Rattle.std.specs.Prelude.{◌≡◌, List, All, length, slice_index_or, None, IfOk};
ghost use Rattle.dn_base.specs.declared.ids.Grant.{Grant as GrantValue};
ghost use Rattle.explained_answer.specs.Holders.{answer_grants, core_if_in, holder_on, with_last_grant, AreLastGrants};
ghost use Rattle.explained_answer.specs.Lines.{IsLineOf, lines_in};

use crate::AnswerLine;
use crate::parsing::ReadLine;
use dn_base::{Grant, Memory};
use rv_core::EndShown;
use std::alloc::Global;
use text_places::Located;

/// Notes the grant of a line, if it has one.
fn note_grant(last: &mut Vec<Option<Grant>>, located: &Located, line: AnswerLine)
    requires fits { IsLineOf located.now line }
    requires room { length last.old.items ≡ length located.now.program.locks }
    ensures { last.new.items ≡ with_last_grant last.old.items line }
{
    if let AnswerLine::Grant(grant) = line {
        last[grant.lock.0 as usize] = Some(grant);
    }
}

/// The last grant of each lock of the program in these lines, by the number of the lock.
pub(crate) fn last_grants(
    alloc: Global,
    located: &Located,
    lines: &[ReadLine<'_>],
) -> Result<Vec<Option<Grant>>, Memory>
    requires { All (IsLineOf located.now) (lines_in lines.now) }
    ensures { IfOk result (λ last. AreLastGrants (answer_grants (lines_in lines.now)) last.items) }
{
    let mut last: Vec<Option<Grant>> = vec![in alloc; None; located.program.locks.len()]?;
    for read in lines {
        note_grant(&mut last, located, read.line);
    }
    Ok(last)
}

/// The core of a grant, if the grant is in the phase.
fn core_if_in(phase: u32, grant: Option<Grant>) -> Option<u32>
    ensures { result ≡ core_if_in phase grant }
{
    match grant {
        Some(grant) if grant.phase.0 == phase => Some(grant.core.0),
        _ => None,
    }
}

/// The last grant of a lock.
fn last_of(last: &[Option<Grant>], lock: u32) -> Option<Grant>
    ensures { result ≡ slice_index_or last.now lock None }
{
    *last.get(lock as usize)?
}

/// The core that holds the lock for which the task of a line waits, by the last grant of each lock.
pub(crate) fn holder_on(last: &[Option<Grant>], line: AnswerLine) -> Option<u32>
    ensures { (grants : List GrantValue) → AreLastGrants grants last.now → result ≡ holder_on grants line }
{
    let AnswerLine::Task(task) = line else {
        return None;
    };
    match task.end {
        EndShown::Waits { lock } => core_if_in(task.phase.0, last_of(last, lock.0)),
        EndShown::Finished | EndShown::Fuel | EndShown::Trap { .. } => None,
    }
}
