ghost use Rattle.std.specs.Prelude.{◌≡◌, ◌≤◌, [], Some, IfOk};
ghost use Rattle.rv_core.specs.Decoded.{IsDecoded};
ghost use Rattle.flat_machine.specs.Accesses.{actions_so_far};

use crate::accesses::FlatAction;
use crate::machine::Machine;
use dn_base::{Grant, Memory, Sequence};
use effect_checker::Checked;
use region_table::Program;
use rv_core::DecodedCode;
use std::alloc::Global;

/// Adds what the thread does by a list of grants to an empty log.
#[tactic(auto, unfolding(crate::specs::Accesses::actions_so_far))]
fn log_by(
    alloc: Global,
    program: &Program,
    code: &DecodedCode,
    fuel: u32,
    grants: &[Grant],
    log: &mut Option<Sequence<FlatAction>>,
) -> Result<(), Memory>
    requires empty { log.old ≡ Some [] }
    requires code { IsDecoded program.now code.now }
    requires fuel { fuel ≤ 32768 }
    ensures { IfOk result (λ done. log.new ≡ Some (actions_so_far program.now fuel grants.now)) }
{
    let mut machine = Machine::open(alloc, program, code, fuel, log)?;
    // where the list stops is known from `flat_run`
    let _stop = machine.grant_all(alloc, program, code, fuel, grants, log)?;
    Ok(())
}

/// What the one thread does by a list of grants, up to the first that isn't legal: its loads and stores, and the grants that it
/// takes, in its order.
///
/// Each task may retire `fuel` instructions, from 1 to 32,768. The memory is proportional to the code words, the data words, the
/// grants, and the loads and stores.
///
/// # Errors
/// `Memory` if there is no room for the code, the memory, the tasks or the actions.
pub fn flat_actions(
    alloc: Global,
    checked: &Checked,
    fuel: u32,
    grants: &[Grant],
) -> Result<Sequence<FlatAction>, Memory>
    requires some { 1 ≤ fuel }
    requires most { fuel ≤ 32768 }
    ensures { IfOk result (λ actions. actions ≡ actions_so_far checked.now fuel grants.now) }
{
    let program = checked.program();
    let code = DecodedCode::new(alloc, program)?;
    let mut log = Some(Sequence::new(alloc));
    log_by(alloc, program, &code, fuel, grants, &mut log)?;
    Ok(log.unwrap_or(Sequence::new(alloc)))
}
