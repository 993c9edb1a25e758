//! The run of an answer once more, by the grants that it tells: where its tasks stand that wait or are out of fuel, and where locks
//! were acquired.
ghost use Rattle.std.specs.Prelude.{◌≡◌, ◌≢◌, ◌≤◌, ℕ, Ok, Some, None, true, List, find, option_copied, IfOk, OnOk, ◌++◌};
ghost use Rattle.std.specs.List.{IsAmong, list_any};
ghost use Rattle.dn_base.specs.declared.ids.LockId.{LockId as LockOf};
ghost use Rattle.rv_core.specs.declared.ending.EndShown.TheVariants.{Waits};
ghost use Rattle.flat_machine.specs.declared.ending.FlatEnd.{FlatEnd as FlatEndOf};
ghost use Rattle.flat_machine.specs.Ending.{flat_end};
ghost use Rattle.explained_answer.specs.Acquires.{awaited_acquire};
ghost use Rattle.region_table.specs.Program.{ProgramParts};
ghost use Rattle.rv_assembler.specs.Source.{source};
ghost use Rattle.rv_core.specs.Ending.{is_spent};
ghost use Rattle.effect_checker.specs.Checked.{IsChecked};
ghost use Rattle.explained_answer.specs.Ended.{told_task, answer_tasks, AreLastLines};
ghost use Rattle.explained_answer.specs.Holders.{answer_grants, grant_on, holder_of};
ghost use Rattle.explained_answer.specs.Lines.{lines_in};
ghost use Rattle.explained_answer.specs.RunAgain.{is_unfinished, fuel_by, fuel_of, stops_within, is_finished, is_trap_at, is_wait_for, same_way, same_end, are_ends, stops_if, stops_with, stops_of_run, acquires_within, acquires_of_run, run_again, answer_again, pc_of_end, pc_on, standstill_on, IsNextOfTask};
ghost use Rattle.explained_answer.specs.declared.line.AnswerLine.{AnswerLine as LineOf};
ghost use Rattle.rv_core.specs.declared.ending.TaskEnd.{TaskEnd as EndOf};

use crate::AnswerLine;
use crate::acquires::acquired_on;
use crate::ended::{LastLines, holder_among, is_waiting};
use crate::parsing::ReadLine;
use crate::reasons::reason_by_lines;
use dn_base::{Grant, Memory, Sequence};
use effect_checker::{Checked, check};
use flat_machine::{Acquire, flat_acquires};
use outcomes_top::Reason;
use rv_assembler::{SourceFault, assemble};
use rv_core::{EndShown, TaskEnd};
use sentences::{Standstill, Stop, stops};
use std::alloc::Global;

/// The greatest number of instructions that a task may retire.
const MOST_FUEL: u32 = 32768;

/// Adds the task of a line, if it has one.
fn note_task(tasks: &mut Vec<TaskEnd>, line: AnswerLine) -> Result<(), Memory>
    ensures { OnOk result (tasks.new.items ≡ tasks.old.items ++ told_task line) }
{
    if let AnswerLine::Task(task) = line {
        tasks.push(task)?;
    }
    Ok(())
}

/// The tasks in an answer.
fn answer_tasks(alloc: Global, lines: &[ReadLine<'_>]) -> Result<Vec<TaskEnd>, Memory>
    ensures { IfOk result (λ tasks. tasks.items ≡ answer_tasks (lines_in lines.now)) }
{
    let mut tasks = Vec::new(alloc);
    for read in lines {
        note_task(&mut tasks, read.line)?;
    }
    Ok(tasks)
}

/// Adds the grant of a line, if it has one.
fn note_grant(grants: &mut Vec<Grant>, line: AnswerLine) -> Result<(), Memory>
    ensures { OnOk result (grants.new.items ≡ grants.old.items ++ grant_on line) }
{
    if let AnswerLine::Grant(grant) = line {
        grants.push(grant)?;
    }
    Ok(())
}

/// The grants in an answer.
fn answer_grants(alloc: Global, lines: &[ReadLine<'_>]) -> Result<Vec<Grant>, Memory>
    ensures { IfOk result (λ grants. grants.items ≡ answer_grants (lines_in lines.now)) }
{
    let mut grants = Vec::new(alloc);
    for read in lines {
        note_grant(&mut grants, read.line)?;
    }
    Ok(grants)
}

fn is_spent(end: EndShown) -> bool
    ensures { result ≡ is_spent end }
{
    matches!(end, EndShown::Fuel)
}

/// Whether a task waits or is out of fuel.
fn is_unfinished(task: TaskEnd) -> bool
    ensures { result ≡ is_unfinished task }
{
    is_waiting(task.end) || is_spent(task.end)
}

fn has_unfinished(tasks: &[TaskEnd]) -> bool
    ensures { result ≡ list_any is_unfinished tasks.now }
{
    for task in tasks {
        if is_unfinished(*task) {
            return true;
        }
    }
    false
}

/// The first of these tasks that is out of fuel.
fn first_without_fuel(ends: &[TaskEnd]) -> Option<TaskEnd>
    ensures { result ≡ find (λ t. is_spent t.end) ends.now }
{
    for end in ends {
        if is_spent(end.end) {
            return Some(*end);
        }
    }
    None
}

/// The fuel of a run in which the tasks stand so.
fn fuel_of(ends: &[TaskEnd]) -> u32
    ensures { result ≡ fuel_of ends.now }
{
    match first_without_fuel(ends) {
        Some(task) => task.retired,
        None => MOST_FUEL,
    }
}

/// The checked program of a text.
pub(crate) fn checked_program(alloc: Global, text: &[u8]) -> Result<Option<Checked>, Memory>
    ensures { IfOk result (λ found. (P : ProgramParts) → source text.now ≡ Ok P → IsChecked P → found ≡ Some P) }
{
    match assemble(alloc, text) {
        Ok(program) => match check(program) {
            Ok(checked) => Ok(Some(checked)),
            Err(_) => Ok(None),
        },
        Err(SourceFault::Memory) => Err(Memory),
        Err(_) => Ok(None),
    }
}

/// Where the tasks of a program stand after a run by these grants, if the fuel is one that a run may have.
fn stops_within(
    alloc: Global,
    checked: &Checked,
    fuel: u32,
    grants: &[Grant],
) -> Result<Option<Sequence<Stop>>, Memory>
    ensures { IfOk result (λ found. found ≡ stops_within checked.now fuel grants.now) }
{
    if 1 <= fuel && fuel <= MOST_FUEL {
        stops(alloc, checked, fuel, grants)
    } else {
        Ok(None)
    }
}

fn is_finished(end: EndShown) -> bool
    ensures { result ≡ is_finished end }
{
    matches!(end, EndShown::Finished)
}

fn is_trap_at(pc: u32, value: u32, end: EndShown) -> bool
    ensures { result ≡ is_trap_at pc value end }
{
    match end {
        EndShown::Trap {
            kind: _,
            pc: at,
            value: found,
        } => pc == at && value == found,
        _ => false,
    }
}

fn is_wait_for(lock: u32, end: EndShown) -> bool
    ensures { result ≡ is_wait_for lock end }
{
    match end {
        EndShown::Waits { lock: other } => lock == other.0,
        _ => false,
    }
}

fn same_way(first: EndShown, second: EndShown) -> bool
    ensures { result ≡ same_way first second }
{
    match first {
        EndShown::Finished => is_finished(second),
        EndShown::Fuel => is_spent(second),
        EndShown::Trap { kind: _, pc, value } => is_trap_at(pc, value, second),
        EndShown::Waits { lock } => is_wait_for(lock.0, second),
    }
}

/// Whether these are the same task, and it stands the same.
fn same_end(first: TaskEnd, second: TaskEnd) -> bool
    ensures { result ≡ same_end first second }
{
    first.phase.0 == second.phase.0
        && first.core.0 == second.core.0
        && first.retired == second.retired
        && same_way(first.end, second.end)
}

/// Whether the tasks stand so.
fn are_ends(ends: &[TaskEnd], stops: &[Stop]) -> bool
    ensures { result ≡ are_ends ends.now stops.now }
{
    let mut rest = stops;
    for end in ends {
        match rest {
            [stop, behind @ ..] => {
                if !same_end(*end, stop.end) {
                    return false;
                }
                rest = behind;
            }
            [] => return false,
        }
    }
    rest.is_empty()
}

/// Where the tasks stand, if they stand as in the answer.
fn stops_if(alloc: Global, ends: &[TaskEnd], found: Option<Sequence<Stop>>) -> Sequence<Stop>
    ensures { result ≡ stops_if ends.now found }
{
    match found {
        Some(stops) if are_ends(ends, stops.as_slice()) => stops,
        _ => Sequence::new(alloc),
    }
}

/// Where these tasks of an answer with these grants stand.
fn stops_with(
    alloc: Global,
    checked: &Checked,
    ends: &[TaskEnd],
    grants: &[Grant],
) -> Result<Sequence<Stop>, Memory>
    ensures { IfOk result (λ stops. stops ≡ stops_with checked.now ends.now grants.now) }
{
    let found = stops_within(alloc, checked, fuel_of(ends), grants)?;
    Ok(stops_if(alloc, ends, found))
}

/// Where the tasks of an answer with these lines stand, by a run of this program; nothing if none of them waits or is out of fuel.
fn stops_of_run(
    alloc: Global,
    checked: &Checked,
    lines: &[ReadLine<'_>],
) -> Result<Sequence<Stop>, Memory>
    ensures { IfOk result (λ stops. stops ≡ stops_of_run checked.now (lines_in lines.now)) }
{
    let tasks = answer_tasks(alloc, lines)?;
    if !has_unfinished(tasks.as_slice()) {
        return Ok(Sequence::new(alloc));
    }
    let grants = answer_grants(alloc, lines)?;
    stops_with(alloc, checked, tasks.as_slice(), grants.as_slice())
}

/// The locks that tasks acquire by these grants, if the fuel is one that a run may have.
fn acquires_within(
    alloc: Global,
    checked: &Checked,
    fuel: u32,
    grants: &[Grant],
) -> Result<Sequence<Acquire>, Memory>
    ensures { IfOk result (λ found. found ≡ acquires_within checked.now fuel grants.now) }
{
    if 1 <= fuel && fuel <= MOST_FUEL {
        flat_acquires(alloc, checked, fuel, grants)
    } else {
        Ok(Sequence::new(alloc))
    }
}

/// The locks that are acquired in the run of an answer with these lines, whose tasks stand there; nothing where it isn't known where
/// they stand.
#[tactic(auto, unfolding(crate::specs::RunAgain::acquires_of_run))]
fn acquires_of_run(
    alloc: Global,
    checked: &Checked,
    lines: &[ReadLine<'_>],
    stops: &[Stop],
) -> Result<Sequence<Acquire>, Memory>
    ensures { IfOk result (λ found. found ≡ acquires_of_run checked.now (lines_in lines.now) stops.now) }
{
    if stops.is_empty() {
        return Ok(Sequence::new(alloc));
    }
    let tasks = answer_tasks(alloc, lines)?;
    let grants = answer_grants(alloc, lines)?;
    acquires_within(alloc, checked, fuel_of(tasks.as_slice()), grants.as_slice())
}

/// What is known of an answer besides its lines, by its run, which is made once more, or by its tasks alone.
#[derive(Drop)]
pub(crate) struct AgainRun {
    /// Where the tasks stand; nothing if none of them waits or is out of fuel, or the run doesn't end as the answer says.
    pub(crate) stops: Sequence<Stop>,
    /// The locks that tasks acquired, in the order of the grants; nothing where there are no stops.
    pub(crate) acquires: Sequence<Acquire>,
    /// Why the answer is open; None if no line says that it is.
    pub(crate) why: Option<Reason>,
}

/// Runs this program once more for an answer with these lines.
fn run_again(alloc: Global, checked: &Checked, lines: &[ReadLine<'_>]) -> Result<AgainRun, Memory>
    ensures { IfOk result (λ again. again ≡ run_again checked.now (lines_in lines.now)) }
{
    let stops = stops_of_run(alloc, checked, lines)?;
    let acquires = acquires_of_run(alloc, checked, lines, stops.as_slice())?;
    Ok(AgainRun {
        stops,
        acquires,
        why: reason_by_lines(alloc, checked, lines)?,
    })
}

/// What the run of an answer with these lines tells; nothing without a program that is run again.
pub(crate) fn answer_again(
    alloc: Global,
    again: Option<&Checked>,
    lines: &[ReadLine<'_>],
) -> Result<AgainRun, Memory>
    ensures { IfOk result (λ told. told ≡ answer_again (option_copied again.entry) (lines_in lines.now)) }
{
    match again {
        Some(checked) => run_again(alloc, checked, lines),
        None => Ok(AgainRun {
            stops: Sequence::new(alloc),
            acquires: Sequence::new(alloc),
            why: None,
        }),
    }
}

/// The address of the next instruction of a task that stands so.
fn pc_of_end(stops: &[Stop], task: TaskEnd) -> Option<u32>
    ensures { result ≡ pc_of_end stops.now task }
{
    for stop in stops {
        if same_end(task, stop.end) {
            return Some(stop.pc);
        }
    }
    None
}

/// The address of the next instruction of the task of a line, if it waits or is out of fuel.
fn pc_on(stops: &[Stop], line: AnswerLine) -> Option<u32>
    ensures { result ≡ pc_on stops.now line }
{
    match line {
        AnswerLine::Task(task) if is_unfinished(task) => pc_of_end(stops, task),
        _ => None,
    }
}

/// What is known of the task of a line, if it waits or is out of fuel.
pub(crate) fn standstill_on(again: &AgainRun, last: &LastLines, line: AnswerLine) -> Standstill
    ensures { (lines : List LineOf) → AreLastLines lines last.now → result ≡ standstill_on again.now lines line }
{
    Standstill {
        pc: pc_on(again.stops.as_slice(), line),
        holder: holder_among(last, line),
        acquired: acquired_on(again.acquires.as_slice(), line),
    }
}

/// The instruction that is named as the next one of the task of a line is so in the run of the program by the answer's grants: in
/// the last state of this run the task stands as the line says, and this is the address of its next instruction.
pub fn a_named_instruction_is_the_next_of_its_task()
    ensures { (P : ProgramParts) (lines : List LineOf) (t : EndOf) (pc : ℕ) → pc_of_end (stops_of_run P lines) t ≡ Some pc
        → IsNextOfTask P (fuel_of (answer_tasks lines)) (answer_grants lines) t pc }
{}

/// If an answer has the grants and the tasks of a run, then of each of its tasks that waits or is out of fuel the next instruction is
/// known. And where the holder of a lock is known for which a task of it waits, it is known where it acquired the lock.
pub fn what_a_run_tells_of_unfinished_tasks_is_said()
    ensures place { (P : ProgramParts) (fuel : ℕ) (lines : List LineOf) (e : FlatEndOf) (t : EndOf) → 1 ≤ fuel → fuel ≤ 32768
        → flat_end P fuel (answer_grants lines) ≡ Some e → answer_tasks lines ≡ e.ending.tasks → IsAmong (answer_tasks lines) t → is_unfinished t ≡ true
        → pc_of_end (stops_of_run P lines) t ≢ None }
    ensures acquire { (P : ProgramParts) (fuel : ℕ) (lines : List LineOf) (e : FlatEndOf) (t : EndOf) (lock : LockOf) → 1 ≤ fuel → fuel ≤ 32768
        → flat_end P fuel (answer_grants lines) ≡ Some e → answer_tasks lines ≡ e.ending.tasks → IsAmong (answer_tasks lines) t → t.end ≡ Waits lock
        → holder_of (answer_grants lines) t.phase.0 lock.0 ≢ None → awaited_acquire (run_again P lines).acquires t.phase.0 t.end ≢ None }
{}
