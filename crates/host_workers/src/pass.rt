ghost use Rattle.std.specs.Prelude.{IfOk, OnErr};
ghost use Rattle.registration_protocol.specs.Setting.{setting};
ghost use Rattle.host_workers.specs.Crews.{IsCrew};
ghost use Rattle.host_workers.specs.Pass.{HasWorked, HasWorkedPartly};
ghost use Rattle.host_workers.specs.Work.{MayAct, KeepsNumber};

use crate::crew::Crew;
use crate::serving::serve_cores;
use crate::stepping::{keep, step_banks};
use bank_hall::{Hall, Pass};
use dn_base::{Gate, Memory};
use rand_pcg::Pcg32;
use region_table::a_program_is_well_formed;
use registration_protocol::Context;
use std::sync::Wait;

/// One pass of a worker over the hall. Each of its cores has its turn: it takes a message and handles it, and then makes its own
/// event. Then each of its banks makes a step, and so does the barrier controller, if it is the worker's. Each message that an
/// event sends is posted at once. A core is left alone once its clock has reached 2^63, or the number of its next message
/// 4,294,967,000.
///
/// Returns the number of events that the pass made.
///
/// # Errors
/// `Memory` if there is no room: the pass and the crew hold what was made until then. Each message that was taken is handled and
/// noted. Of the messages that the last event sent, some may not be posted.
pub fn worker_pass<R: Wait, G: Gate>(
    rt: &R,
    hall: &Hall,
    pass: &mut Pass,
    context: &Context<'_>,
    crew: &mut Crew,
    draws: &mut Pcg32,
    gate: &G,
) -> Result<u32, Memory>
    requires may { MayAct (setting context.now) hall.now pass.old }
    requires crew { IsCrew (setting context.now) crew.old }
    ensures pass { KeepsNumber hall.now pass.old pass.new }
    ensures crew { IsCrew (setting context.now) crew.new }
    ensures worked { IfOk result (HasWorked (setting context.now) pass.old pass.new crew.old crew.new) }
    ensures part { OnErr result (HasWorkedPartly (setting context.now) pass.old pass.new crew.old crew.new) }
{
    // for the proof alone: a well-formed program needs at most 16 cores, so the crew has no more
    a_program_is_well_formed(context.decoded.program());
    let served = serve_cores(rt, hall, pass, context, &mut crew.cores, draws)?;
    let worker = crew.worker;
    let stepped = step_banks(
        rt,
        hall,
        pass,
        context,
        worker,
        &mut crew.banks,
        draws,
        gate,
    )?;
    let kept = keep(rt, hall, pass, context, &mut crew.keeper, draws)?;
    Ok(served + stepped + kept)
}
