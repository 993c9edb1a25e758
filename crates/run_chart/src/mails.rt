ghost use Rattle.std.specs.Prelude.{◌≡◌, ◌<◌, ◌≤◌, ◌++◌, ℕ, drop, length, map, None, Some, IfOk, OnOk};
ghost use Rattle.message_net.specs.Pool.{AreDistinct};
ghost use Rattle.run_chart.specs.Mails.{AreNotedFor, mails_left, line_there, noted_line, origin_of, place_handled, sent_on, unknown_mails};

use crate::Origin;
use dn_base::{Memory, Sequence};
use message_net::{Event, MailId, Pool};
use std::alloc::Global;

/// A message in flight, and the line of the event that sent it; None if that event has no row.
#[derive(Clone, Copy)]
pub(crate) struct SentMail {
    pub(crate) id: MailId,
    pub(crate) line: Option<u32>,
}

/// The line that is noted at a place; None where there is no place.
fn line_there(sent: &[SentMail], place: Option<u32>) -> Option<u32>
    ensures { result ≡ line_there sent.now place }
{
    match place {
        Some(place) => match sent.get(place as usize) {
            Some(mail) => mail.line,
            None => None,
        },
        None => None,
    }
}

/// The line that is noted for the message with an id. The pool gives the index of the message, and the line has the same index.
fn line_of(pool: &Pool, sent: &[SentMail], id: MailId) -> Option<u32>
    requires sent { AreNotedFor sent.now pool.now.mails }
    requires distinct { AreDistinct pool.now.mails }
    ensures { result ≡ noted_line id None sent.now }
{
    line_there(sent, pool.place_of(id))
}

/// Where the message comes from that an event handles, if it handles one.
pub(crate) fn origin_of(pool: &Pool, sent: &[SentMail], event: Event) -> Option<Origin>
    requires sent { AreNotedFor sent.now pool.now.mails }
    requires distinct { AreDistinct pool.now.mails }
    ensures { result ≡ origin_of sent.now event }
{
    match event {
        Event::Handle(id) => Some(Origin {
            sender: id.sender,
            line: line_of(pool, sent, id),
        }),
        _ => None,
    }
}

/// The index of the message that an event handles; None if it handles none in flight.
pub(crate) fn place_handled(pool: &Pool, event: Event) -> Option<u32>
    ensures { result ≡ place_handled pool.now.mails event }
{
    match event {
        Event::Handle(id) => pool.place_of(id),
        _ => None,
    }
}

/// Notes the messages that stand in the pool after those that are noted: they were sent on this line.
///
/// # Errors
/// `Memory` where there is no room.
fn note_new(sent: &mut Sequence<SentMail>, pool: &Pool, line: Option<u32>) -> Result<(), Memory>
    requires { length sent.old ≤ length pool.now.mails }
    ensures { OnOk result (sent.new ≡ sent.old ++ map (sent_on line) (drop (length sent.old) pool.now.mails)) }
{
    let end = pool.count();
    for place in sent.len() as u32..end {
        sent.push(SentMail {
            id: pool.at(place).id,
            line,
        })?;
    }
    Ok(())
}

/// The messages in flight, where no event has a row so far.
///
/// # Errors
/// `Memory` where there is no room.
pub(crate) fn unknown_mails(alloc: Global, pool: &Pool) -> Result<Sequence<SentMail>, Memory>
    ensures { IfOk result (λ sent. sent ≡ unknown_mails pool.now.mails) }
{
    let mut sent = Sequence::new(alloc);
    note_new(&mut sent, pool, None)?;
    Ok(sent)
}

/// Removes the message at an index. The last one moves to its index, as in the pool.
fn without(sent: Sequence<SentMail>, place: u32) -> Sequence<SentMail>
    requires { place < length sent }
    ensures { result ≡ mails_left (Some place) sent }
{
    let mut row = sent.into_vec();
    row.swap_remove(place as usize);
    Sequence::from_vec(row)
}

/// Without the message at a place, if there is one.
fn mails_left(sent: Sequence<SentMail>, place: Option<u32>) -> Sequence<SentMail>
    requires { (p : ℕ) → place ≡ Some p → p < length sent }
    ensures { result ≡ mails_left place sent }
{
    match place {
        Some(place) => without(sent, place),
        None => sent,
    }
}

/// What is noted after an event that handled the message at an index, and sent on this line the last messages of the pool.
///
/// # Errors
/// `Memory` where there is no room.
pub(crate) fn after_event(
    sent: Sequence<SentMail>,
    place: Option<u32>,
    pool: &Pool,
    line: u32,
) -> Result<Sequence<SentMail>, Memory>
    requires place { (p : ℕ) → place ≡ Some p → p < length sent }
    requires fewer { length (mails_left place sent) ≤ length pool.now.mails }
    ensures { IfOk result (λ noted. noted ≡ mails_left place sent ++ map (sent_on (Some line)) (drop (length (mails_left place sent)) pool.now.mails)) }
{
    let mut noted = mails_left(sent, place);
    note_new(&mut noted, pool, Some(line))?;
    Ok(noted)
}
