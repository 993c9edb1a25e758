ghost use Rattle.std.specs.Prelude.{◌≡◌, ◌≤◌, ℕ, List, None, Some, IfOk, IfSome, IfNone, length};
ghost use Rattle.dn_base.specs.declared.ids.Grant.{Grant as GrantOf};
ghost use Rattle.region_table.specs.Program.{ProgramParts};
ghost use Rattle.flat_machine.specs.declared.refused.FlatRun.{FlatRun as RunOf};
ghost use Rattle.flat_machine.specs.declared.refused.FlatRun.TheVariants.{Whole as TheWhole};
ghost use Rattle.rv_core.specs.Decoded.{IsDecoded};
ghost use Rattle.flat_machine.specs.Phases.{initial_flat, IsSoundFlat};
ghost use Rattle.flat_machine.specs.Ending.{flat_end, flat_end_of};
ghost use Rattle.flat_machine.specs.Refused.{IsFirstRefused, IsRunBy, IsShort};

use crate::ending::FlatEnd;
use crate::machine::Machine;
use dn_base::{Grant, MOST_WORDS, Memory};
use effect_checker::Checked;
use region_table::Program;
use rv_core::DecodedCode;
use std::alloc::Global;

/// The result of a list of grants.
#[derive(Drop)]
pub enum FlatRun {
    /// The list is legal and whole. The run by it has this end.
    Whole(FlatEnd),
    /// The first grant that isn't legal is the one at this index, from 0: it names a phase that isn't the current one, a core
    /// whose task doesn't wait for its lock, or a lock that a task holds, or it comes when the run is over. The index after the
    /// last grant says that all grants are legal, but at the end of the list some task waits for a free lock.
    Refused { place: usize },
}

/// Gives the grants of a list to a machine before any grant. Gives the index of the first that isn't legal, or the one after the last
/// if at the end of the list some task waits for a free lock; None if the list is legal and whole.
#[tactic(auto, using(crate::proofs::RefusedLemmas::refused_at), unfolding(crate::specs::Ending::flat_end))]
fn refused_place<'a>(
    machine: &mut Machine<'a>,
    alloc: Global,
    program: &'a Program,
    code: &DecodedCode,
    fuel: u32,
    grants: &[Grant],
) -> Result<Option<usize>, Memory>
    requires code { IsDecoded program.now code.now }
    requires fuel { fuel ≤ 32768 }
    requires locks { length program.now.locks ≤ 32 }
    requires sound { IsSoundFlat program.now fuel machine.old }
    requires start { machine.old ≡ initial_flat program.now fuel }
    ensures whole { IfOk result (λ stop. IfNone stop (flat_end program.now fuel grants.now ≡ Some (flat_end_of program.now fuel machine.new))) }
    ensures refused { IfOk result (λ stop. IfSome stop (IsFirstRefused program.now fuel grants.now)) }
    ensures sound { IfOk result (λ stop. IsSoundFlat program.now fuel machine.new) }
{
    if let Some(place) = machine.grant_all(alloc, program, code, fuel, grants, &mut None)? {
        return Ok(Some(place));
    }
    if machine.next_grant(program, fuel).is_some() {
        return Ok(Some(grants.len()));
    }
    Ok(None)
}

/// The end of a machine to which a legal and whole list was given.
fn whole_run(
    machine: Machine<'_>,
    alloc: Global,
    program: &Program,
    fuel: u32,
) -> Result<FlatRun, Memory>
    requires sound { IsSoundFlat program.now fuel machine }
    requires words { length program.now.memory ≤ MOST_WORDS }
    ensures value { IfOk result (λ run. run ≡ TheWhole (flat_end_of program.now fuel machine.entry)) }
    ensures within { IfOk result IsShort }
{
    Ok(FlatRun::Whole(machine.finish(alloc, program, fuel)?))
}

/// Runs a program, whose code words are decoded, by a list of grants.
fn run_by(
    alloc: Global,
    program: &Program,
    code: &DecodedCode,
    fuel: u32,
    grants: &[Grant],
) -> Result<FlatRun, Memory>
    requires code { IsDecoded program.now code.now }
    requires fuel { fuel ≤ 32768 }
    ensures value { IfOk result (IsRunBy program.now fuel grants.now) }
    ensures within { IfOk result IsShort }
{
    let mut machine = Machine::open(alloc, program, code, fuel, &mut None)?;
    match refused_place(&mut machine, alloc, program, code, fuel, grants)? {
        Some(place) => Ok(FlatRun::Refused { place }),
        None => whole_run(machine, alloc, program, fuel),
    }
}

/// Runs a checked program on one memory by a list of grants. Gives its end as `flat` does, or the index of the first grant that
/// isn't legal. The program runs once, up to that index.
///
/// Each task may retire `fuel` instructions, from 1 to 32,768.
///
/// # Errors
/// `Memory` if there is no room for the code, the memory, the tasks, their loads or the end.
pub fn flat_run(
    alloc: Global,
    checked: &Checked,
    fuel: u32,
    grants: &[Grant],
) -> Result<FlatRun, Memory>
    requires some { 1 ≤ fuel }
    requires most { fuel ≤ 32768 }
    ensures value { IfOk result (IsRunBy checked.now fuel grants.now) }
    ensures within { IfOk result IsShort }
{
    let program = checked.program();
    let code = DecodedCode::new(alloc, program)?;
    run_by(alloc, program, &code, fuel, grants)
}

/// A list of grants has exactly one result: an end, or the index of its first grant that isn't legal.
pub fn a_list_of_grants_comes_to_one_thing()
    ensures some { (P : ProgramParts) (fuel : ℕ) (gs : List GrantOf) → (r : RunOf) × IsRunBy P fuel gs r }
    ensures one { (P : ProgramParts) (fuel : ℕ) (gs : List GrantOf) (r s : RunOf) → IsRunBy P fuel gs r → IsRunBy P fuel gs s → r ≡ s }
    ensures none { (P : ProgramParts) (fuel place : ℕ) (gs : List GrantOf) → IsFirstRefused P fuel gs place → flat_end P fuel gs ≡ None }
{}
