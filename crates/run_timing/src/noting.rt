ghost use Rattle.std.specs.Prelude.{◌≡◌, ◌<◌, ◌≤◌, ℕ, Some, true, length, OnOk};
ghost use Rattle.std.specs.Int.{IsInRange};
ghost use Rattle.message_net.specs.declared.actor.MailId.{MailId as AMailId};
ghost use Rattle.message_net.specs.declared.event.Event.TheVariants.{Handle as HandleOf};
ghost use Rattle.message_net.specs.Mail.{has_actor};
ghost use Rattle.run_timing.specs.Network.{IsWithinLatency};
ghost use Rattle.run_timing.specs.Rows.{finish_in, start_after, with_timing_row};
ghost use Rattle.run_timing.specs.Ticks.{AreWithinLimits, ticks_of};
ghost use Rattle.run_timing.specs.Tracks.{handled_delay, last_at, sender_in};

use crate::making::Happened;
use crate::network::Network;
use crate::rows::{Rows, Start};
use crate::ticks::Ticks;
use crate::tracks::Tracks;
use dn_base::{MOST_EVENTS, Memory, Shape};
use message_net::{Actor, Event};

impl Tracks {
    /// The event that sent the message that an event handles; None if it handles none.
    pub(crate) fn sender_of(&self, event: Event, shape: Shape) -> Option<u32>
        ensures { result ≡ sender_in shape.cores shape.banks self.now.senders.items event }
    {
        match event {
            Event::Handle(id) => self.sender(id.sender.index(shape.cores, shape.banks), id.number),
            _ => None,
        }
    }

    /// When an event of the actor at an index starts: at the later of the finish of the event before it of its actor and the arrival of
    /// its message, which is under way for some ticks.
    pub(crate) fn start(
        &self,
        rows: &Rows,
        event: Event,
        place: usize,
        shape: Shape,
        delay: u64,
    ) -> Start
        requires place { place < length self.now.last }
        requires own { (p : ℕ) → last_at self.now.last place ≡ Some p → p < length rows.now.finishes }
        requires sender { (p : ℕ) → sender_in shape.cores shape.banks self.now.senders.items event ≡ Some p → p < length rows.now.finishes }
        requires small { (i : ℕ) → i < length rows.now.finishes → finish_in rows.now i ≤ 176187648000000 }
        requires delay { delay ≤ 6000000 }
        ensures { result ≡ start_after (finish_in rows.now) delay (last_at self.now.last place) (sender_in shape.cores shape.banks self.now.senders.items event) }
    {
        rows.start(self.last_event(place), self.sender_of(event, shape), delay)
    }
}

/// How long the message that an event handles is under way to the actor that makes the event; 0 if it handles none.
pub(crate) fn handled_delay(network: &Network, event: Event, to: Actor, shape: Shape) -> u64
    requires from { (id : AMailId) → event ≡ HandleOf id → has_actor shape.cores shape.banks id.sender ≡ true }
    requires to { has_actor shape.cores shape.banks to ≡ true }
    requires cores { shape.cores ≤ 16 }
    requires banks { IsInRange 1 16 shape.banks }
    requires latency { IsWithinLatency network.now }
    ensures value { result ≡ handled_delay network.now shape to event }
    ensures most { result ≤ 6000000 }
{
    match event {
        Event::Handle(id) => network.delay(shape, id.sender, to),
        _ => 0,
    }
}

/// Notes an event that came: when it finishes, after which event it comes, and its kind.
///
/// # Errors
/// `Memory` where there is no room.
pub(crate) fn note_row(
    rows: &mut Rows,
    happened: Happened,
    start: Start,
    ticks: &Ticks,
) -> Result<(), Memory>
    requires before { (p : ℕ) → start.event ≡ Some p → p < length rows.old.finishes }
    requires few { length rows.old.finishes ≤ MOST_EVENTS }
    requires small { start.tick ≤ 176187654000000 }
    requires ticks { AreWithinLimits ticks.now }
    ensures { OnOk result (rows.new ≡ with_timing_row happened.kind (ticks_of ticks.now happened.kind) start rows.old) }
{
    rows.add(happened.kind, ticks.of(happened.kind), start)
}
