ghost use Rattle.std.specs.Prelude.{◌≡◌, ◌^◌, ◌≤◌, length, OnOk, OnErr, IfSome, option_to_list};
ghost use Rattle.bank_hall.specs.Halls.{IsHallPass, HasMadeCalls, pass_number};
ghost use Rattle.host_workers.specs.Acts.{posting, postings, keeper_done};
ghost use Rattle.host_workers.specs.Deeds.{IsEarly};
ghost use Rattle.host_workers.specs.Work.{HasBegunPosts};

use crate::stamps::has_actor;
use bank_hall::{Hall, KeeperHandled, Pass};
use dn_base::{CoreId, Memory, Shape};
use grant_log::Posted;
use std::sync::Wait;

/// Posts a message, if it goes to an actor of the hall.
fn deliver<R: Wait>(
    rt: &R,
    hall: &Hall,
    pass: &mut Pass,
    shape: Shape,
    posted: Posted,
) -> Result<(), Memory>
    requires pass { IsHallPass hall.now pass.old }
    requires ports { length hall.now.ports ≡ shape.cores }
    requires banks { length hall.now.banks ≡ shape.banks }
    requires early { IsEarly posted }
    ensures pass { IsHallPass hall.now pass.new × (pass_number pass.new ≡ pass_number pass.old) }
    ensures made { OnOk result (HasMadeCalls pass.old pass.new (posting shape (pass_number pass.old) posted)) }
    ensures same { OnErr result (pass.new ≡ pass.old) }
{
    if !has_actor(shape, posted.mail.to) {
        return Ok(());
    }
    match hall.post(rt, pass, posted) {
        Ok(()) => Ok(()),
        Err((memory, _posted)) => Err(memory),
    }
}

/// Posts the message that an event sends, if it sends one to an actor of the hall.
pub(crate) fn emit<R: Wait>(
    rt: &R,
    hall: &Hall,
    pass: &mut Pass,
    shape: Shape,
    sent: Option<Posted>,
) -> Result<(), Memory>
    requires pass { IsHallPass hall.now pass.old }
    requires ports { length hall.now.ports ≡ shape.cores }
    requires banks { length hall.now.banks ≡ shape.banks }
    requires early { IfSome sent IsEarly }
    ensures pass { IsHallPass hall.now pass.new × (pass_number pass.new ≡ pass_number pass.old) }
    ensures made { OnOk result (HasMadeCalls pass.old pass.new (postings shape (pass_number pass.old) (option_to_list sent))) }
    ensures same { OnErr result (pass.new ≡ pass.old) }
{
    match sent {
        Some(posted) => deliver(rt, hall, pass, shape, posted),
        None => Ok(()),
    }
}

/// Posts the barrier controller's letter to each core, if its verdict has letters.
pub(crate) fn emit_letters<R: Wait>(
    rt: &R,
    hall: &Hall,
    pass: &mut Pass,
    shape: Shape,
    handled: &KeeperHandled,
) -> Result<(), Memory>
    requires pass { IsHallPass hall.now pass.old }
    requires ports { length hall.now.ports ≡ shape.cores }
    requires banks { length hall.now.banks ≡ shape.banks }
    requires cores { shape.cores ≤ 16 }
    requires early { handled.now.stamped.stamp ≤ 2 ^ 63 }
    ensures pass { IsHallPass hall.now pass.new × (pass_number pass.new ≡ pass_number pass.old) }
    ensures made { OnOk result (HasMadeCalls pass.old pass.new (postings shape (pass_number pass.old) (keeper_done shape.cores handled.now).sent)) }
    ensures begun { OnErr result (HasBegunPosts shape pass.old pass.new (keeper_done shape.cores handled.now).sent) }
{
    for core in 0..shape.cores {
        emit(rt, hall, pass, shape, handled.letter(CoreId(core)))?;
    }
    Ok(())
}
