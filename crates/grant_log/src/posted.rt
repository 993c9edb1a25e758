ghost use Rattle.std.specs.Prelude.{◌≡◌, ◌^◌, ◌<◌, true, IfSome, IfNone, length, slice_get, Some, None, vec_len, vec_capacity};
ghost use Rattle.grant_log.specs.Stamps.{has_numbers_left, may_take, stamp_after, handling_note};
ghost use Rattle.grant_log.specs.Inbox.{picked_index, picked_out};

use crate::Stamped;
use message_net::{Actor, Event, Mail};

/// A message in flight, with the stamp of the event that sent it.
#[derive(Clone, Copy, PartialEq, Eq)]
pub struct Posted {
    pub mail: Mail,
    pub stamp: u64,
}

/// A message with this stamp or a greater one isn't handled, and an actor with this clock handles none.
const LAST_STAMP: u64 = 1 << 63;

/// An actor whose next message would have this number or a greater one handles no message.
const LAST_NUMBER: u32 = 4_294_967_000;

/// Whether an actor with this clock and this number for its next message isn't spent: both are below their limits (this project's
/// profile).
pub fn has_numbers_left(clock: u64, next: u32) -> bool
    ensures { result ≡ has_numbers_left clock next }
{
    clock < LAST_STAMP && next < LAST_NUMBER
}

/// The index that a pick names; None for an empty inbox.
fn place_of(inbox: &[Posted], pick: u32) -> Option<usize>
    ensures some { IfSome result (λ place. (place ≡ picked_index inbox.now pick) × (place < length inbox.now)) }
    ensures none { IfNone result (slice_get inbox.now (picked_index inbox.now pick) ≡ None) }
{
    if inbox.is_empty() {
        return None;
    }
    Some(pick as usize % inbox.len())
}

/// Takes the message that the pick names out of the inbox, if there is one, its stamp is below 2^63, and its actor isn't spent.
/// The last message moves to its index.
pub fn take_picked(inbox: &mut Vec<Posted>, pick: u32, has_numbers: bool) -> Option<Posted>
    ensures mail { result ≡ (picked_out (may_take has_numbers) inbox.old.items pick).0 }
    ensures rest { inbox.new.items ≡ (picked_out (may_take has_numbers) inbox.old.items pick).1 }
    ensures room { IfSome result (λ posted. (has_numbers ≡ true) × (posted.stamp < 2 ^ 63)) }
{
    let place = place_of(inbox.as_slice(), pick)?;
    if !has_numbers || inbox[place].stamp >= LAST_STAMP {
        return None;
    }
    Some(inbox.swap_remove(place))
}

/// The stamp of handling a message (this project's profile): one more than the greater of the actor's clock and the message's
/// stamp.
pub fn stamp_of(clock: u64, posted: &Posted) -> u64
    requires clock { clock < 2 ^ 63 }
    requires stamp { posted.now.stamp < 2 ^ 63 }
    ensures { result ≡ stamp_after clock posted.now }
{
    if clock < posted.stamp {
        posted.stamp + 1
    } else {
        clock + 1
    }
}

/// What an actor notes of handling a message.
pub fn note(actor: Actor, stamp: u64, mail: &Mail) -> Stamped
    ensures { result ≡ handling_note actor stamp mail.now }
{
    Stamped {
        stamp,
        actor,
        event: Event::Handle(mail.id),
        kind: mail.message.kind(),
        granted: None,
    }
}
