ghost use Rattle.std.specs.Prelude.{◌≡◌, ◌<◌, ◌≤◌, length, All, IfOk, OnErr};
ghost use Rattle.std.specs.Option.{option_map};
ghost use Rattle.registration_protocol.specs.Setting.{setting};
ghost use Rattle.host_workers.specs.declared.crew.BankLog.{BankLog as Noted};
ghost use Rattle.host_workers.specs.Work.{MayAct, KeepsNumber, IsNotedBank, IsStepped, IsNotedKeeper, IsNotedIf, IsKeeperStep, IsKeeperServed, HasDoneActs, HaveDone, HasDonePartly, HaveDonePartly};

use crate::crew::BankLog;
use crate::emitting::{emit, emit_letters};
use bank_hall::{Hall, Pass};
use dn_base::{Gate, Memory};
use dn_machine::draw;
use grant_log::Stamped;
use rand_pcg::Pcg32;
use region_table::a_program_is_well_formed;
use registration_protocol::Context;
use std::sync::Wait;

/// Makes a step of a bank. Returns the number of events.
fn step_bank<R: Wait, G: Gate>(
    rt: &R,
    hall: &Hall,
    pass: &mut Pass,
    context: &Context<'_>,
    worker: u32,
    owned: &mut BankLog,
    pick: u32,
    gate: &G,
) -> Result<u32, Memory>
    requires may { MayAct (setting context.now) hall.now pass.old }
    requires bank { owned.old.bank.0 < (setting context.now).shape.banks }
    ensures pass { KeepsNumber hall.now pass.old pass.new }
    ensures stepped { IfOk result (HasDoneActs (IsStepped (setting context.now)) (setting context.now) pass.old pass.new owned.old owned.new) }
    ensures part { OnErr result (HasDonePartly (IsNotedBank (setting context.now)) (setting context.now) pass.old pass.new owned.old owned.new) }
    ensures few { IfOk result (λ count. count ≤ 1) }
{
    owned.log.reserve(1)?;
    let Some(handled) = hall.bank_step(rt, pass, worker, owned.bank, pick, gate)? else {
        return Ok(0);
    };
    owned.log.push_reserved(handled.stamped);
    emit(rt, hall, pass, context.shape, handled.reply)?;
    Ok(1)
}

/// Makes a step of each bank. Returns the number of events.
pub(crate) fn step_banks<R: Wait, G: Gate>(
    rt: &R,
    hall: &Hall,
    pass: &mut Pass,
    context: &Context<'_>,
    worker: u32,
    banks: &mut Vec<BankLog>,
    draws: &mut Pcg32,
    gate: &G,
) -> Result<u32, Memory>
    requires may { MayAct (setting context.now) hall.now pass.old }
    requires banks { All (λ (b : Noted). b.bank.0 < (setting context.now).shape.banks) banks.old.items }
    requires most { length banks.old.items ≤ 16 }
    ensures pass { KeepsNumber hall.now pass.old pass.new }
    ensures stepped { IfOk result (HaveDone (IsStepped (setting context.now)) (setting context.now) pass.old pass.new banks.old.items banks.new.items) }
    ensures part { OnErr result (HaveDonePartly (IsNotedBank (setting context.now)) (setting context.now) pass.old pass.new banks.old.items banks.new.items) }
    ensures few { IfOk result (λ count. count ≤ 16) }
{
    let mut made = 0;
    for place in 0..banks.len() {
        let pick = draw(draws);
        let events = step_bank(
            rt,
            hall,
            pass,
            context,
            worker,
            &mut banks[place],
            pick,
            gate,
        )?;
        made += events;
    }
    Ok(made)
}

/// Makes a step of the barrier controller. Returns the number of events.
fn step_keeper<R: Wait>(
    rt: &R,
    hall: &Hall,
    pass: &mut Pass,
    context: &Context<'_>,
    log: &mut Vec<Stamped>,
    pick: u32,
) -> Result<u32, Memory>
    requires may { MayAct (setting context.now) hall.now pass.old }
    ensures pass { KeepsNumber hall.now pass.old pass.new }
    ensures stepped { IfOk result (HasDoneActs (IsKeeperStep (setting context.now)) (setting context.now) pass.old pass.new log.old.items log.new.items) }
    ensures part { OnErr result (HasDonePartly (IsNotedKeeper (setting context.now)) (setting context.now) pass.old pass.new log.old.items log.new.items) }
    ensures few { IfOk result (λ count. count ≤ 1) }
{
    // for the proof alone: a well-formed program needs at most 16 cores, so the keeper sends no more letters
    a_program_is_well_formed(context.decoded.program());
    log.reserve(1)?;
    let Some(handled) = hall.keeper_step(rt, pass, pick)? else {
        return Ok(0);
    };
    log.push_reserved(handled.stamped);
    emit_letters(rt, hall, pass, context.shape, &handled)?;
    Ok(1)
}

/// Makes a step of the barrier controller, if the worker owns it. Returns the number of events.
pub(crate) fn keep<R: Wait>(
    rt: &R,
    hall: &Hall,
    pass: &mut Pass,
    context: &Context<'_>,
    keeper: &mut Option<Vec<Stamped>>,
    draws: &mut Pcg32,
) -> Result<u32, Memory>
    requires may { MayAct (setting context.now) hall.now pass.old }
    ensures pass { KeepsNumber hall.now pass.old pass.new }
    ensures stepped { IfOk result (HasDoneActs (IsKeeperServed (setting context.now)) (setting context.now) pass.old pass.new (option_map (λ log. log.items) keeper.old) (option_map (λ log. log.items) keeper.new)) }
    ensures part { OnErr result (HasDonePartly (IsNotedIf (setting context.now)) (setting context.now) pass.old pass.new (option_map (λ log. log.items) keeper.old) (option_map (λ log. log.items) keeper.new)) }
    ensures few { IfOk result (λ count. count ≤ 1) }
{
    match keeper {
        None => Ok(0),
        Some(log) => {
            let pick = draw(draws);
            step_keeper(rt, hall, pass, context, log, pick)
        }
    }
}
