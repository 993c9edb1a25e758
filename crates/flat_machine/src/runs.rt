ghost use Rattle.std.specs.Prelude.{◌≡◌, ◌≤◌, ◌<◌, Some, length, IfOk, IfSome};
ghost use Rattle.rv_core.specs.Decoded.{IsDecoded};
ghost use Rattle.flat_machine.specs.Phases.{IsSoundFlat};
ghost use Rattle.flat_machine.specs.Grants.{IsLeast};
ghost use Rattle.flat_machine.specs.Ending.{flat_end, flat_end_of};

use crate::ending::FlatEnd;
use crate::machine::Machine;
use crate::refused::{FlatRun, flat_run};
use dn_base::{Grant, MOST_WORDS, Memory};
use effect_checker::Checked;
use region_table::Program;
use rv_core::DecodedCode;
use std::alloc::Global;

/// Runs a checked program on one memory by a list of grants, and gives its end.
///
/// The tasks of a phase run one after the other, in the order of their cores, each until it waits for a lock or ends. Then each
/// grant in turn lets a task that waits for its lock run on. When all tasks of a phase have finished, the next phase begins.
/// Each task may retire `fuel` instructions, from 1 to 32,768.
///
/// The answer is None exactly if the grants aren't a legal and whole list. A grant isn't legal if it names a phase that isn't
/// the current one, a core whose task doesn't wait for its lock, or a lock that a task holds, or if it comes when the run is
/// over. The list isn't whole if at its end some task waits for a free lock.
///
/// The time is proportional to the code words, the retired instructions and the grants. The memory is proportional to the code
/// words, the data words and the loads.
///
/// # Errors
/// `Memory` if there is no room for the code, the memory, the tasks, their loads or the end.
pub fn flat(
    alloc: Global,
    checked: &Checked,
    fuel: u32,
    grants: &[Grant],
) -> Result<Option<FlatEnd>, Memory>
    requires some { 1 ≤ fuel }
    requires most { fuel ≤ 32768 }
    ensures value { IfOk result (λ end. end ≡ flat_end checked.now fuel grants.now) }
    ensures within { IfOk result (λ end. IfSome end (λ e. (length e.ending.memory ≤ MOST_WORDS) × (length e.ending.tasks ≤ 64))) }
{
    match flat_run(alloc, checked, fuel, grants)? {
        FlatRun::Whole(end) => Ok(Some(end)),
        FlatRun::Refused { .. } => Ok(None),
    }
}

/// The least list of grants of a program, whose code words are decoded.
fn least_grants_by(
    alloc: Global,
    program: &Program,
    code: &DecodedCode,
    fuel: u32,
) -> Result<Vec<Grant>, Memory>
    requires code { IsDecoded program.now code.now }
    requires fuel { fuel ≤ 32768 }
    ensures { IfOk result (λ grants. IsLeast program.now fuel grants.items) }
{
    let mut machine = Machine::open(alloc, program, code, fuel, &mut None)?;
    machine.grant_least(alloc, program, code, fuel)
}

/// The least list of grants: at each point it grants to the lowest core whose wanted lock is free, until no task waits for a
/// free lock.
///
/// Each task may retire `fuel` instructions, from 1 to 32,768.
///
/// # Errors
/// `Memory` if there is no room for the code, the memory, the tasks, their loads or the list.
pub fn least_grants(alloc: Global, checked: &Checked, fuel: u32) -> Result<Vec<Grant>, Memory>
    requires some { 1 ≤ fuel }
    requires most { fuel ≤ 32768 }
    ensures { IfOk result (λ grants. IsLeast checked.now fuel grants.items) }
{
    let program = checked.program();
    let code = DecodedCode::new(alloc, program)?;
    least_grants_by(alloc, program, &code, fuel)
}

/// The run by the least list: the list, and the end.
#[derive(Drop)]
pub struct LeastRun {
    pub grants: Vec<Grant>,
    pub end: FlatEnd,
}

/// These grants, and the end of the machine that they lead to.
fn with_end(
    machine: Machine<'_>,
    alloc: Global,
    program: &Program,
    fuel: u32,
    grants: Vec<Grant>,
) -> Result<LeastRun, Memory>
    requires sound { IsSoundFlat program.now fuel machine }
    requires words { length program.now.memory ≤ MOST_WORDS }
    ensures grants { IfOk result (λ run. run.grants.items ≡ grants.items) }
    ensures end { IfOk result (λ run. run.end ≡ flat_end_of program.now fuel machine.entry) }
    ensures within { IfOk result (λ run. (length run.end.ending.memory ≤ MOST_WORDS) × (length run.end.ending.tasks ≤ 64)) }
{
    let end = machine.finish(alloc, program, fuel)?;
    Ok(LeastRun { grants, end })
}

/// The least run of a program, whose code words are decoded.
#[tactic(auto, unfolding(crate::specs::Ending::flat_end))]
fn least_run_by(
    alloc: Global,
    program: &Program,
    code: &DecodedCode,
    fuel: u32,
) -> Result<LeastRun, Memory>
    requires code { IsDecoded program.now code.now }
    requires fuel { fuel ≤ 32768 }
    ensures least { IfOk result (λ run. IsLeast program.now fuel run.grants.items) }
    ensures end { IfOk result (λ run. flat_end program.now fuel run.grants.items ≡ Some run.end) }
    ensures within { IfOk result (λ run. (length run.end.ending.memory ≤ MOST_WORDS) × (length run.end.ending.tasks ≤ 64)) }
{
    let mut machine = Machine::open(alloc, program, code, fuel, &mut None)?;
    let grants = machine.grant_least(alloc, program, code, fuel)?;
    with_end(machine, alloc, program, fuel, grants)
}

/// The list that `least_grants` gives, and the end that `flat` gives for it. The program runs once.
///
/// Each task may retire `fuel` instructions, from 1 to 32,768.
///
/// # Errors
/// `Memory` if there is no room for the code, the memory, the tasks, their loads, the list or the end.
pub fn least_run(alloc: Global, checked: &Checked, fuel: u32) -> Result<LeastRun, Memory>
    requires some { 1 ≤ fuel }
    requires most { fuel ≤ 32768 }
    ensures least { IfOk result (λ run. IsLeast checked.now fuel run.grants.items) }
    ensures end { IfOk result (λ run. flat_end checked.now fuel run.grants.items ≡ Some run.end) }
    ensures within { IfOk result (λ run. (length run.end.ending.memory ≤ MOST_WORDS) × (length run.end.ending.tasks ≤ 64)) }
{
    let program = checked.program();
    let code = DecodedCode::new(alloc, program)?;
    least_run_by(alloc, program, &code, fuel)
}
