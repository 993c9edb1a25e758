ghost use Rattle.std.specs.Prelude.{◌≡◌, ◌+◌, ◌==◌, ◌<◌, ◌≤◌, ℕ, Some, true, drop, length, slice_get, sum_by, if◌then◌else◌, OnOk};
ghost use Rattle.std.specs.Int.{IsInRange};
ghost use Rattle.message_net.specs.declared.actor.MailId.{MailId};
ghost use Rattle.message_net.specs.declared.event.Event.TheVariants.{Handle as HandleOf};
ghost use Rattle.message_net.specs.declared.message.Mail.{Mail as AMail};
ghost use Rattle.message_net.specs.Mail.{has_actor};
ghost use Rattle.time_order.specs.declared.flight.Flight.{Flight as AFlight};
ghost use Rattle.time_order.specs.Flights.{flight_of, queue_at, weight_taken, weight_to};
ghost use Rattle.run_timing.specs.Network.{IsWithinLatency};

use crate::flight::Flight;
use crate::queue::Queue;
use dn_base::{Memory, Shape};
use message_net::{Event, Mail, Pool};
use run_timing::Network;

/// A message that is sent at a tick.
fn flight(mail: Mail, sent: u64, network: &Network, shape: Shape) -> Flight
    requires sender { has_actor shape.cores shape.banks mail.id.sender ≡ true }
    requires receiver { has_actor shape.cores shape.banks mail.to ≡ true }
    requires cores { shape.cores ≤ 16 }
    requires banks { IsInRange 1 16 shape.banks }
    requires latency { IsWithinLatency network.now }
    requires sent { sent ≤ 281474976710656 }
    ensures { result ≡ flight_of network.now shape sent mail }
{
    Flight {
        arrival: sent + network.delay(shape, mail.id.sender, mail.to),
        sender: mail.id.sender.index(shape.cores, shape.banks) as u32,
        id: mail.id,
    }
}

/// Puts a message among those to the actor at an index.
fn put_at(queues: &mut Vec<Queue>, place: usize, flight: Flight) -> Result<(), Memory>
    requires { place < length queues.old.items }
    ensures weights { OnOk result ((other : ℕ) (weight : AFlight → ℕ) → sum_by weight (queue_at queues.new.items other)
        ≡ sum_by weight (queue_at queues.old.items other) + (if place == other then weight flight else 0)) }
    ensures rows { OnOk result (length queues.new.items ≡ length queues.old.items) }
{
    let queue = &mut queues[place];
    queue.put(flight)
}

/// Puts the messages of the pool from an index on, which are sent at a tick, among those to their receivers.
///
/// # Errors
/// `Memory` where there is no room.
pub(crate) fn put_sent(
    queues: &mut Vec<Queue>,
    pool: &Pool,
    first: u32,
    sent: u64,
    network: &Network,
    shape: Shape,
) -> Result<(), Memory>
    requires rows { length queues.old.items ≡ shape.cores + shape.banks + 1 }
    requires sender { (place : ℕ) (m : AMail) → first ≤ place → slice_get pool.now.mails place ≡ Some m → has_actor shape.cores shape.banks m.id.sender ≡ true }
    requires receiver { (place : ℕ) (m : AMail) → slice_get pool.now.mails place ≡ Some m → has_actor shape.cores shape.banks m.to ≡ true }
    requires first { first ≤ length pool.now.mails }
    requires cores { shape.cores ≤ 16 }
    requires banks { IsInRange 1 16 shape.banks }
    requires latency { IsWithinLatency network.now }
    requires sent { sent ≤ 281474976710656 }
    ensures weights { OnOk result ((place : ℕ) (weight : AFlight → ℕ) → sum_by weight (queue_at queues.new.items place)
        ≡ sum_by weight (queue_at queues.old.items place) + weight_to network.now shape sent place weight (drop first pool.now.mails)) }
    ensures rows { OnOk result (length queues.new.items ≡ length queues.old.items) }
{
    for place in first..pool.count() {
        let mail = pool.at(place);
        let to = mail.to.index(shape.cores, shape.banks);
        put_at(queues, to, flight(mail, sent, network, shape))?;
    }
    Ok(())
}

/// Removes the message that an event of the actor at an index handles, if it handles one, from those to that actor, of which it is the
/// first.
pub(crate) fn take_handled(queues: &mut Vec<Queue>, place: usize, event: Event)
    requires place { place < length queues.old.items }
    requires some { (id : MailId) → event ≡ HandleOf id → 0 < length (queue_at queues.old.items place) }
    ensures weights { (other : ℕ) (weight : AFlight → ℕ) → sum_by weight (queue_at queues.old.items other)
        ≡ sum_by weight (queue_at queues.new.items other) + (if place == other then weight_taken event (queue_at queues.old.items place) weight else 0) }
    ensures rows { length queues.new.items ≡ length queues.old.items }
{
    if let Event::Handle(_) = event {
        let queue = &mut queues[place];
        queue.remove_first();
    }
}
