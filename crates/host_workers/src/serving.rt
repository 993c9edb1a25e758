ghost use Rattle.std.specs.Prelude.{◌≡◌, ◌≤◌, true, length, All, IfOk, OnOk, OnErr};
ghost use Rattle.registration_protocol.specs.Fit.{Fits};
ghost use Rattle.registration_protocol.specs.Setting.{setting};
ghost use Rattle.host_workers.specs.Crews.{held_of, owned_has_numbers, HasRoom, IsOwned};
ghost use Rattle.host_workers.specs.Work.{MayAct, KeepsNumber, HasTaken, HasMadeOwn, IsMoved, IsCoreServed, HasDoneActs, HaveDone, HasDonePartly, HaveDonePartly};

use crate::emitting::emit;
use crate::owned::Owned;
use bank_hall::{Hall, Pass};
use dn_base::Memory;
use dn_machine::draw;
use rand_pcg::Pcg32;
use registration_protocol::Context;
use std::sync::Wait;

/// Takes a message from the core's port; the core handles it. Returns the number of events.
fn take_mail<R: Wait>(
    rt: &R,
    hall: &Hall,
    pass: &mut Pass,
    context: &Context<'_>,
    owned: &mut Owned,
    pick: u32,
) -> Result<u32, Memory>
    requires may { MayAct (setting context.now) hall.now pass.old }
    requires owned { IsOwned (setting context.now) owned.old }
    requires goes { owned_has_numbers owned.old ≡ true }
    requires room { HasRoom owned.old 2 }
    ensures pass { KeepsNumber hall.now pass.old pass.new }
    ensures core { owned.new.core ≡ owned.old.core }
    ensures fits { OnOk result (Fits (setting context.now) owned.new.node) }
    ensures taken { IfOk result (HasTaken (setting context.now) owned.old.core pick pass.old pass.new (held_of owned.old) (held_of owned.new)) }
    ensures part { OnErr result (HasDonePartly (IsMoved (setting context.now)) (setting context.now) pass.old pass.new owned.old owned.new) }
    ensures room { OnOk result (HasRoom owned.new 1) }
    ensures few { IfOk result (λ count. count ≤ 1) }
{
    let Some(posted) = hall.take(rt, pass, owned.core, pick)? else {
        return Ok(0);
    };
    let sent = owned.handle(context, posted);
    emit(rt, hall, pass, context.shape, sent)?;
    Ok(1)
}

/// The core makes its own event, if it has numbers left and an own event. Returns the number of events.
fn make_own<R: Wait>(
    rt: &R,
    hall: &Hall,
    pass: &mut Pass,
    context: &Context<'_>,
    owned: &mut Owned,
) -> Result<u32, Memory>
    requires may { MayAct (setting context.now) hall.now pass.old }
    requires owned { IsOwned (setting context.now) owned.old }
    requires room { HasRoom owned.old 1 }
    ensures pass { KeepsNumber hall.now pass.old pass.new }
    ensures core { owned.new.core ≡ owned.old.core }
    ensures fits { OnOk result (Fits (setting context.now) owned.new.node) }
    ensures made { IfOk result (HasMadeOwn (setting context.now) owned.old.core pass.old pass.new (held_of owned.old) (held_of owned.new)) }
    ensures part { OnErr result (HasDonePartly (IsMoved (setting context.now)) (setting context.now) pass.old pass.new owned.old owned.new) }
    ensures few { IfOk result (λ count. count ≤ 1) }
{
    if !owned.has_numbers_left() {
        return Ok(0);
    }
    let Some(event) = owned.node.own(context) else {
        return Ok(0);
    };
    let sent = owned.make(context, event);
    emit(rt, hall, pass, context.shape, sent)?;
    Ok(1)
}

/// Gives a core its turn: a take, and then its own event. Returns the number of events.
fn serve_core<R: Wait>(
    rt: &R,
    hall: &Hall,
    pass: &mut Pass,
    context: &Context<'_>,
    owned: &mut Owned,
    draws: &mut Pcg32,
) -> Result<u32, Memory>
    requires may { MayAct (setting context.now) hall.now pass.old }
    requires owned { IsOwned (setting context.now) owned.old }
    ensures pass { KeepsNumber hall.now pass.old pass.new }
    ensures served { IfOk result (HasDoneActs (IsCoreServed (setting context.now)) (setting context.now) pass.old pass.new owned.old owned.new) }
    ensures part { OnErr result (HasDonePartly (IsMoved (setting context.now)) (setting context.now) pass.old pass.new owned.old owned.new) }
    ensures few { IfOk result (λ count. count ≤ 2) }
{
    if !owned.has_numbers_left() {
        return Ok(0);
    }
    owned.reserve()?;
    let pick = draw(draws);
    let handled = take_mail(rt, hall, pass, context, owned, pick)?;
    let own = make_own(rt, hall, pass, context, owned)?;
    Ok(handled + own)
}

/// Gives each core its turn. Returns the number of events.
pub(crate) fn serve_cores<R: Wait>(
    rt: &R,
    hall: &Hall,
    pass: &mut Pass,
    context: &Context<'_>,
    cores: &mut Vec<Owned>,
    draws: &mut Pcg32,
) -> Result<u32, Memory>
    requires may { MayAct (setting context.now) hall.now pass.old }
    requires owned { All (IsOwned (setting context.now)) cores.old.items }
    requires most { length cores.old.items ≤ 16 }
    ensures pass { KeepsNumber hall.now pass.old pass.new }
    ensures served { IfOk result (HaveDone (IsCoreServed (setting context.now)) (setting context.now) pass.old pass.new cores.old.items cores.new.items) }
    ensures part { OnErr result (HaveDonePartly (IsMoved (setting context.now)) (setting context.now) pass.old pass.new cores.old.items cores.new.items) }
    ensures few { IfOk result (λ count. count ≤ 32) }
{
    let mut made = 0;
    for place in 0..cores.len() {
        let events = serve_core(rt, hall, pass, context, &mut cores[place], draws)?;
        made += events;
    }
    Ok(made)
}
