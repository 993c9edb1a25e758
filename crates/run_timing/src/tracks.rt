ghost use Rattle.std.specs.Prelude.{◌≡◌, ◌<◌, ◌++◌, [], length, replicate, slice_get, IfOk, OnOk, Some, None};
ghost use Rattle.run_timing.specs.Tracks.{last_at, noted_last, noted_senders, senders_at};

use dn_base::{Memory, Sequence};
use std::alloc::Global;

/// Notes of the events so far: for each actor, by its index, its last event; and for each of its messages, by the message's
/// number, the event that sent it.
#[derive(Drop)]
pub(crate) struct Tracks {
    pub(crate) last: Sequence<Option<u32>>,
    pub(crate) senders: Vec<Sequence<u32>>,
}

/// A row without messages for each actor, with room for this many.
fn empty_rows(alloc: Global, mails: &[u32]) -> Result<Vec<Sequence<u32>>, Memory>
    ensures { IfOk result (λ rows. rows.items ≡ replicate (length mails.now) []) }
{
    let mut rows = Vec::new(alloc);
    for room in mails {
        let row = Vec::with_capacity(alloc, *room as usize)?;
        rows.push(Sequence::from_vec(row))?;
    }
    Ok(rows)
}

/// Appends the messages that an event sent.
fn push_mails(row: &mut Sequence<u32>, count: u32, event: u32) -> Result<(), Memory>
    ensures { OnOk result (row.new ≡ row.old ++ replicate count event) }
{
    for _mail in 0..count {
        row.push(event)?;
    }
    Ok(())
}

/// The same in the row at an index.
fn push_at(
    rows: &mut Vec<Sequence<u32>>,
    place: usize,
    count: u32,
    event: u32,
) -> Result<(), Memory>
    requires { place < length rows.old.items }
    ensures { OnOk result (rows.new.items ≡ noted_senders place count event rows.old.items) }
{
    let row = &mut rows[place];
    push_mails(row, count, event)
}

impl Tracks {
    /// Empty notes, with room for this many messages of each actor.
    ///
    /// # Errors
    /// `Memory` where there is no room.
    pub(crate) fn with_room(alloc: Global, mails: &[u32]) -> Result<Tracks, Memory>
        ensures last { IfOk result (λ tracks. tracks.last ≡ replicate (length mails.now) None) }
        ensures senders { IfOk result (λ tracks. tracks.senders.items ≡ replicate (length mails.now) []) }
    {
        Ok(Tracks {
            last: Sequence::from_vec(vec![in alloc; None; mails.len()]?),
            senders: empty_rows(alloc, mails)?,
        })
    }

    /// The last event of the actor at an index; None if it has made none.
    pub(crate) fn last_event(&self, place: usize) -> Option<u32>
        requires { place < length self.now.last }
        ensures { result ≡ last_at self.now.last place }
    {
        self.last.as_slice()[place]
    }

    /// The event that sent the message with this number of the actor at a place.
    pub(crate) fn sender(&self, place: usize, number: u32) -> Option<u32>
        ensures { result ≡ slice_get (senders_at self.now.senders.items place) number }
    {
        match self.senders.as_slice().get(place) {
            Some(row) => row.get(number as usize).copied(),
            None => None,
        }
    }

    /// Notes an event of the actor at an index, and that it sent this many messages.
    ///
    /// # Errors
    /// `Memory` where there is no room.
    pub(crate) fn note(&mut self, place: usize, count: u32, event: u32) -> Result<(), Memory>
        requires last { place < length self.old.last }
        requires senders { place < length self.old.senders.items }
        ensures last { OnOk result (self.new.last ≡ noted_last place event self.old.last) }
        ensures senders { OnOk result (self.new.senders.items ≡ noted_senders place count event self.old.senders.items) }
    {
        self.last.set(place, Some(event));
        push_at(&mut self.senders, place, count, event)
    }
}
