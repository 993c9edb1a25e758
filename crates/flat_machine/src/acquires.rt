//! Where in the code tasks acquire their locks.
ghost use Rattle.std.specs.Prelude.{◌≡◌, ◌≢◌, ◌≤◌, ℕ, List, ◌∷◌, ◌++◌, Some, None, length, slice_get, IfOk, OnOk};
ghost use Rattle.dn_base.specs.declared.ids.Grant.{Grant as GrantValue};
ghost use Rattle.region_table.specs.Program.{ProgramParts};
ghost use Rattle.rv_core.specs.Decoded.{IsDecoded};
ghost use Rattle.flat_machine.specs.Phases.{Flat, IsSoundFlat};
ghost use Rattle.flat_machine.specs.Grants.{granted, so_far};
ghost use Rattle.flat_machine.specs.Acquires.{taker_pc, acquire_at, acquires_from, acquires_so_far, IsAcquiredAt};

use crate::machine::{Machine, grant_for, is_grant};
use crate::running::Running;
use dn_base::{Grant, Memory, Sequence};
use effect_checker::Checked;
use region_table::Program;
use rv_core::DecodedCode;
use std::alloc::Global;

/// A lock that a task acquires in a run.
#[derive(Clone, Copy, Debug)]
pub struct Acquire {
    pub grant: Grant,
    /// The address of the ECALL by which the task acquires the lock, in bytes.
    pub pc: u32,
}

/// The address at which the task waits that can take this grant.
fn taker_pc(program: &Program, fuel: u32, tasks: &[Running<'_>], given: Grant) -> Option<u32>
    requires { length program.now.locks ≤ 32 }
    ensures { result ≡ taker_pc program.now fuel tasks.now given }
{
    for running in tasks {
        if is_grant(given, grant_for(program, fuel, tasks, running)) {
            return Some(running.state.pc);
        }
    }
    None
}

/// Adds the acquire of a grant that the task at this address takes.
fn note_acquire(
    acquires: &mut Sequence<Acquire>,
    grant: Grant,
    pc: Option<u32>,
) -> Result<(), Memory>
    ensures { OnOk result (acquires.new ≡ acquires.old ++ acquire_at grant pc) }
{
    match pc {
        Some(pc) => acquires.push(Acquire { grant, pc }),
        None => Ok(()),
    }
}

/// Gives these grants one after the other, up to the first that isn't legal, and tells where their locks are acquired.
fn acquires_by<'a>(
    machine: &mut Machine<'a>,
    alloc: Global,
    program: &'a Program,
    code: &DecodedCode,
    fuel: u32,
    grants: &[Grant],
) -> Result<Sequence<Acquire>, Memory>
    requires code { IsDecoded program.now code.now }
    requires fuel { fuel ≤ 32768 }
    requires locks { length program.now.locks ≤ 32 }
    requires sound { IsSoundFlat program.now fuel machine.old }
    ensures { IfOk result (λ acquires. acquires ≡ acquires_from program.now fuel (Some machine.old) grants.now) }
{
    let mut acquires = Sequence::new(alloc);
    for given in grants {
        let pc = taker_pc(program, fuel, machine.tasks.as_slice(), *given);
        note_acquire(&mut acquires, *given, pc)?;
        if !machine.grant(alloc, program, code, fuel, *given, &mut None)? {
            return Ok(acquires);
        }
    }
    Ok(acquires)
}

/// The locks that the tasks of a checked program acquire by a list of grants, up to the first grant that isn't legal, each with the
/// address of its ECALL.
///
/// Each task may retire `fuel` instructions, from 1 to 32,768. The program runs once.
///
/// # Errors
/// `Memory` if there is no room for the code, the memory, the tasks, their loads or the acquires.
#[tactic(auto, unfolding(crate::specs::Acquires::acquires_so_far))]
pub fn flat_acquires(
    alloc: Global,
    checked: &Checked,
    fuel: u32,
    grants: &[Grant],
) -> Result<Sequence<Acquire>, Memory>
    requires some { 1 ≤ fuel }
    requires most { fuel ≤ 32768 }
    ensures { IfOk result (λ acquires. acquires ≡ acquires_so_far checked.now fuel grants.now) }
{
    let program = checked.program();
    let code = DecodedCode::new(alloc, program)?;
    let mut machine = Machine::open(alloc, program, &code, fuel, &mut None)?;
    acquires_by(&mut machine, alloc, program, &code, fuel, grants)
}

/// After some legal grants the task that takes the next one waits for its lock, at the address that its acquire has: that of the
/// ECALL.
pub fn a_lock_is_acquired_where_its_task_waits()
    ensures { (P : ProgramParts) (fuel : ℕ) (gs hs : List GrantValue) (g : GrantValue) (F : Flat) → so_far P fuel gs ≡ Some F → granted P fuel g F ≢ None
        → IsAcquiredAt P fuel F g (slice_get (acquires_so_far P fuel (gs ++ g ∷ hs)) (length gs)) }
{}
