ghost use Rattle.std.specs.Prelude.{◌≡◌, ◌≤◌, ◌+◌, ◌++◌, length, map, IfOk};
ghost use Rattle.rv_core.specs.declared.ending.TaskEnd.{TaskEnd};
ghost use Rattle.flat_machine.specs.Ending.{shown_of, task_end, task_loads};

use crate::running::Running;
use dn_base::{CoreId, LoadSeen, Memory, PhaseId, Sequence};
use region_table::Program;
use rv_core::{EndShown, Ending, Need, TaskEnd};
use std::alloc::Global;

/// The loads of a task in the order in which they retired: each with the data word and the value of that whole word.
#[derive(Drop)]
pub struct TaskLoads {
    pub phase: PhaseId,
    pub core: CoreId,
    pub loads: Sequence<LoadSeen>,
}

/// A whole run: its ending, and the loads of the tasks that started, in the order of their phases and cores.
#[derive(Drop)]
pub struct FlatEnd {
    pub ending: Ending,
    pub loads: Sequence<TaskLoads>,
}

/// How a task quiescent is shown.
fn end_shown(program: &Program, fuel: u32, running: &Running<'_>) -> EndShown
    ensures { result ≡ shown_of program.now fuel running.now running.now.state.end }
{
    match running.state.end {
        Some(by) => EndShown::from(by),
        None => match running.state.need(program, running.decl, fuel) {
            Need::Acquire { lock } => EndShown::Waits { lock },
            _ => EndShown::Fuel,
        },
    }
}

/// How a task stands at the end of a run.
fn end_of_task(program: &Program, fuel: u32, running: &Running<'_>) -> TaskEnd
    ensures { result ≡ task_end program.now fuel running.now }
{
    TaskEnd {
        phase: running.phase,
        core: running.decl.core,
        end: end_shown(program, fuel, running),
        retired: running.state.retired,
    }
}

/// Adds how these tasks stand.
pub(crate) fn push_ends(
    ends: &mut Sequence<TaskEnd>,
    program: &Program,
    fuel: u32,
    tasks: &[Running<'_>],
) -> Result<(), Memory>
    ensures { IfOk result (λ done. ends.new ≡ ends.old ++ map (task_end program.now fuel) tasks.now) }
{
    for running in tasks {
        ends.push(end_of_task(program, fuel, running))?;
    }
    Ok(())
}

/// The loads of a task.
fn loads_of_task(running: Running<'_>) -> TaskLoads
    ensures { result ≡ task_loads running.entry }
{
    TaskLoads {
        phase: running.phase,
        core: running.decl.core,
        loads: running.loads,
    }
}

/// Adds the loads of these tasks.
pub(crate) fn push_loads(
    loads: &mut Sequence<TaskLoads>,
    tasks: Vec<Running<'_>>,
) -> Result<(), Memory>
    ensures { IfOk result (λ done. loads.new ≡ loads.old ++ map task_loads tasks.entry.items) }
{
    for running in tasks {
        loads.push(loads_of_task(running))?;
    }
    Ok(())
}
