//! Where the tasks of a run stand at its end.
ghost use Rattle.std.specs.Prelude.{◌≡◌, ◌≤◌, None, Some, option_copied, slice_get, IfOk};
ghost use Rattle.sentences.specs.Stops.{LoneTask, lone_step, lone_steps, task_in, pc_of, stop_at, stops_from, stops_at_end, stops_by};

use dn_base::{Grant, LoadSeen, Memory, Sequence};
use effect_checker::Checked;
use flat_machine::{FlatEnd, TaskLoads, flat};
use region_table::{Program, TaskDecl};
use rv_core::{Need, TaskEnd, TaskState};
use std::alloc::Global;

/// Where a task stands at the end of a run.
#[derive(Clone, Copy, Debug)]
pub struct Stop {
    pub end: TaskEnd,
    /// The address of the task's next instruction in bytes; of a task that has ended, of the one that ended it.
    pub pc: u32,
}

/// Makes a task's next instruction. Each lock is free, and a load has the value of the first of these loads. Gives the loads to
/// come.
fn lone_step<'l>(
    state: &mut TaskState,
    program: &Program,
    task: &TaskDecl,
    fuel: u32,
    loads: &'l [LoadSeen],
) -> &'l [LoadSeen]
    requires open { state.old.end ≡ None }
    requires within { state.old.retired ≤ fuel }
    ensures value { let before : LoneTask = record { state = state.old; loads = loads.now } in
        record { state = state.new; loads = result.now } ≡ lone_step program.now task.now fuel before }
    ensures open { state.new.end ≡ None }
    ensures within { state.new.retired ≤ fuel }
{
    match state.need(program, task, fuel) {
        Need::Local | Need::Store { .. } | Need::Acquire { .. } | Need::Release { .. } => {
            state.advance(program, task, fuel);
            loads
        }
        Need::Load { .. } => match loads {
            [load, rest @ ..] => {
                state.loaded(program, task, fuel, load.value);
                rest
            }
            [] => loads,
        },
        Need::End { .. } => loads,
    }
}

/// The address of a task's next instruction after so many instructions, with the values of these loads.
fn lone_pc(program: &Program, task: &TaskDecl, fuel: u32, loads: &[LoadSeen], retired: u32) -> u32
    ensures { result ≡ (lone_steps program.now task.now fuel loads.now retired).state.pc }
{
    let mut state = TaskState::new(task);
    let mut rest = loads;
    for done in 0..retired {
        rest = lone_step(&mut state, program, task, fuel, rest);
    }
    state.pc
}

/// The task with this number, from 0, in the order of phases and cores.
fn task_in(program: &Program, number: usize) -> Option<&TaskDecl>
    ensures { option_copied result ≡ task_in program.now.phases number }
{
    let mut left = number;
    for phase in program.phases.as_slice() {
        if left < phase.tasks.len() {
            return phase.tasks.get(left);
        }
        left -= phase.tasks.len();
    }
    None
}

/// The address of the next instruction of a task that has retired so many.
fn pc_of(
    program: &Program,
    fuel: u32,
    retired: u32,
    task: Option<&TaskDecl>,
    loads: Option<&TaskLoads>,
) -> u32
    ensures { result ≡ pc_of program.now fuel retired (option_copied task.entry) (option_copied loads.entry) }
{
    match (task, loads) {
        (Some(task), Some(loads)) => {
            lone_pc(program, task, fuel, loads.loads.as_slice(), retired)
        }
        _ => 0,
    }
}

/// Where the task with this number stands, which ended so.
fn stop_at(program: &Program, fuel: u32, loads: &[TaskLoads], number: usize, end: TaskEnd) -> Stop
    ensures { result ≡ stop_at program.now fuel loads.now number end }
{
    let task = task_in(program, number);
    Stop {
        end,
        pc: pc_of(program, fuel, end.retired, task, loads.get(number)),
    }
}

/// Where the tasks stand that ended so.
fn stops_of(
    alloc: Global,
    program: &Program,
    fuel: u32,
    end: &FlatEnd,
) -> Result<Sequence<Stop>, Memory>
    ensures { IfOk result (λ stops. stops ≡ stops_from program.now fuel end.now.loads 0 end.now.ending.tasks) }
{
    let mut stops = Sequence::new(alloc);
    for (number, task) in end.ending.tasks.as_slice().iter().enumerate() {
        stops.push(stop_at(program, fuel, end.loads.as_slice(), number, *task))?;
    }
    Ok(stops)
}

/// Where the tasks stand at the end of a run, if there is one.
fn stops_at_end(
    alloc: Global,
    program: &Program,
    fuel: u32,
    end: Option<FlatEnd>,
) -> Result<Option<Sequence<Stop>>, Memory>
    ensures { IfOk result (λ found. found ≡ stops_at_end program.now fuel end) }
{
    match end {
        Some(end) => Ok(Some(stops_of(alloc, program, fuel, &end)?)),
        None => Ok(None),
    }
}

/// How the tasks of a checked program stand at the end of its run by these grants, and the address of each task's next
/// instruction; None if the list of grants isn't legal or isn't maximal.
///
/// Each task may retire `fuel` instructions, from 1 to 32,768. The program runs on one memory, and then each of its tasks once
/// more.
///
/// # Errors
/// `Memory` if there is no room for the run.
pub fn stops(
    alloc: Global,
    checked: &Checked,
    fuel: u32,
    grants: &[Grant],
) -> Result<Option<Sequence<Stop>>, Memory>
    requires some { 1 ≤ fuel }
    requires most { fuel ≤ 32768 }
    ensures { IfOk result (λ found. found ≡ stops_by checked.now fuel grants.now) }
{
    let end = flat(alloc, checked, fuel, grants)?;
    stops_at_end(alloc, checked.program(), fuel, end)
}
