ghost use Rattle.std.specs.Prelude.{◌≡◌, ℕ, ◌<◌, ◌%◌, length, slice_get, Some};
ghost use Rattle.dn_machine.specs.declared.picking.Choice.TheVariants.{Own as OwnEvent, Mail as MailAt};
ghost use Rattle.dn_machine.specs.Pick.{known_events, candidates, picked, chosen};

use crate::own_row::OwnRow;
use message_net::{Event, Pool};

/// What a draw picks: the own event of a core, or the handling of the message at a place of the pool.
#[derive(Clone, Copy)]
pub(crate) enum Choice {
    Own(Event),
    Mail(u32),
}

/// The position that a draw picks among `count` candidates, of which there is at least one.
#[inline(always)]
fn place_of(draw: u32, count: u64) -> u32
    requires { 0 < count }
    ensures { result ≡ draw % count }
{
    // Mostly the count is the smaller number. And a division of 32 bits is faster than one of 64.
    if (draw as u64) < count {
        draw
    } else {
        draw % count as u32
    }
}

/// What a draw picks: of the own events and then the handlings of the messages, the one at the draw, modulo their number.
#[inline(always)]
pub(crate) fn choose(own: &OwnRow, pool: &Pool, draw: u32) -> Option<Choice>
    ensures picked { chosen pool.now.mails result ≡ picked (candidates own.now pool.now.mails) draw }
    ensures own { (e : Event) → result ≡ Some (OwnEvent e) → (place : ℕ) × (slice_get (known_events own.now) place ≡ Some e) }
    ensures mail { (place : ℕ) → result ≡ Some (MailAt place) → place < length pool.now.mails }
{
    let known = own.count();
    let count = known as u64 + pool.count() as u64;
    if count == 0 {
        return None;
    }
    let place = place_of(draw, count);
    if place < known {
        match own.at(place) {
            Some(event) => Some(Choice::Own(event)),
            None => None,
        }
    } else {
        Some(Choice::Mail(place - known))
    }
}

/// The event that a draw picks.
pub(crate) fn pick_from(own: &OwnRow, pool: &Pool, draw: u32) -> Option<Event>
    ensures { result ≡ picked (candidates own.now pool.now.mails) draw }
{
    match choose(own, pool, draw) {
        Some(Choice::Own(event)) => Some(event),
        Some(Choice::Mail(place)) => Some(Event::Handle(pool.at(place).id)),
        None => None,
    }
}
