ghost use Rattle.std.specs.Prelude.{◌≡◌, ◌≤◌, ◌<◌, option_copied, length, find, IfOk};
ghost use Rattle.std.specs.List.{list_all};
ghost use Rattle.rv_core.specs.Decoded.{IsDecoded};
ghost use Rattle.flat_machine.specs.Phases.{initial_flat, IsSoundFlat};
ghost use Rattle.flat_machine.specs.Faults.{has_ended, is_of_core, task_holds, held_fault, task_fault, grant_fault, end_fault, StopsFor};

use crate::machine::Machine;
use crate::running::Running;
use dn_base::{CoreId, Grant, LockId, Memory, PhaseId};
use effect_checker::Checked;
use region_table::Program;
use rv_core::{DecodedCode, Need};
use std::alloc::Global;

/// Why a grant isn't legal, or why a list of legal grants may not end. The first of these that is true is given.
#[derive(Clone, Copy, Debug)]
pub enum GrantFault {
    /// All tasks of the current phase have ended, and so the run is over.
    Over,
    /// The grant is of another phase than the current one.
    Phase { current: PhaseId },
    /// The current phase has no task on this core.
    NoTask,
    /// The task has ended.
    Ended,
    /// The task waits for this lock, which is another one.
    Waits { lock: LockId },
    /// The task of this core holds the lock.
    Held { core: CoreId },
    /// The list ends, but this core's task waits for this lock, which is free.
    Unfinished { core: CoreId, lock: LockId },
}

/// Whether all of these tasks have ended.
fn have_ended(tasks: &[Running<'_>]) -> bool
    ensures { result ≡ list_all has_ended tasks.now }
{
    for running in tasks {
        if running.state.end.is_none() {
            return false;
        }
    }
    true
}

/// The task of this core, among these.
fn task_of<'t, 'a>(tasks: &'t [Running<'a>], core: CoreId) -> Option<&'t Running<'a>>
    ensures { option_copied result ≡ find (is_of_core core.0) tasks.now }
{
    for running in tasks {
        if running.decl.core.0 == core.0 {
            return Some(running);
        }
    }
    None
}

/// The task that holds this lock, among these.
fn holder_of<'t, 'a>(tasks: &'t [Running<'a>], lock: LockId) -> Option<&'t Running<'a>>
    requires { lock.0 < 32 }
    ensures { option_copied result ≡ find (task_holds lock.0) tasks.now }
{
    for running in tasks {
        if running.state.held & (1 << lock.0) != 0 {
            return Some(running);
        }
    }
    None
}

/// That a task of these holds the lock.
fn holding_fault(tasks: &[Running<'_>], lock: LockId) -> Option<GrantFault>
    requires { lock.0 < 32 }
    ensures { result ≡ held_fault (find (task_holds lock.0) tasks.now) }
{
    match holder_of(tasks, lock) {
        Some(holder) => Some(GrantFault::Held {
            core: holder.decl.core,
        }),
        None => None,
    }
}

/// Why the task of the grant's core can't take it.
fn fault_of_task(
    program: &Program,
    fuel: u32,
    tasks: &[Running<'_>],
    given: Grant,
) -> Option<GrantFault>
    requires { length program.now.locks ≤ 32 }
    ensures { result ≡ task_fault program.now fuel tasks.now given (find (is_of_core given.core.0) tasks.now) }
{
    let Some(running) = task_of(tasks, given.core) else {
        return Some(GrantFault::NoTask);
    };
    match running.wish(program, fuel) {
        None => Some(GrantFault::Ended),
        Some(Need::Acquire { lock }) if lock.0 == given.lock.0 => holding_fault(tasks, lock),
        Some(Need::Acquire { lock }) => Some(GrantFault::Waits { lock }),
        _ => None,
    }
}

/// Why a grant isn't legal.
fn fault_of_grant(
    machine: &Machine<'_>,
    program: &Program,
    fuel: u32,
    given: Grant,
) -> Option<GrantFault>
    requires { length program.now.locks ≤ 32 }
    ensures { result ≡ grant_fault program.now fuel machine.now given }
{
    if have_ended(machine.tasks.as_slice()) {
        return Some(GrantFault::Over);
    }
    let current = PhaseId(machine.begun.saturating_sub(1));
    if given.phase.0 != current.0 {
        return Some(GrantFault::Phase { current });
    }
    fault_of_task(program, fuel, machine.tasks.as_slice(), given)
}

/// Why the grants may not end here.
fn fault_of_end(machine: &Machine<'_>, program: &Program, fuel: u32) -> Option<GrantFault>
    requires { length program.now.locks ≤ 32 }
    ensures { result ≡ end_fault program.now fuel machine.now }
{
    match machine.next_grant(program, fuel) {
        Some(next) => Some(GrantFault::Unfinished {
            core: next.core,
            lock: next.lock,
        }),
        None => None,
    }
}

/// Gives the grants of a list to a machine before any grant, and says why it stops where it does.
fn fault_by<'a>(
    machine: &mut Machine<'a>,
    alloc: Global,
    program: &'a Program,
    code: &DecodedCode,
    fuel: u32,
    grants: &[Grant],
) -> Result<Option<GrantFault>, Memory>
    requires code { IsDecoded program.now code.now }
    requires fuel { fuel ≤ 32768 }
    requires locks { length program.now.locks ≤ 32 }
    requires sound { IsSoundFlat program.now fuel machine.old }
    requires start { machine.old ≡ initial_flat program.now fuel }
    ensures { IfOk result (StopsFor program.now fuel grants.now) }
{
    match machine.grant_all(alloc, program, code, fuel, grants, &mut None)? {
        Some(place) => Ok(fault_of_grant(machine, program, fuel, grants[place])),
        None => Ok(fault_of_end(machine, program, fuel)),
    }
}

/// Why a list of grants of a checked program stops being legal where it does, or why it isn't whole; None if it is legal and
/// whole.
///
/// Each task may retire `fuel` instructions, from 1 to 32,768.
///
/// # Errors
/// `Memory` if there is no room for the code, the memory, the tasks or their loads.
pub fn fault_of_grants(
    alloc: Global,
    checked: &Checked,
    fuel: u32,
    grants: &[Grant],
) -> Result<Option<GrantFault>, Memory>
    requires some { 1 ≤ fuel }
    requires most { fuel ≤ 32768 }
    ensures { IfOk result (StopsFor checked.now fuel grants.now) }
{
    let program = checked.program();
    let code = DecodedCode::new(alloc, program)?;
    let mut machine = Machine::open(alloc, program, &code, fuel, &mut None)?;
    fault_by(&mut machine, alloc, program, &code, fuel, grants)
}
