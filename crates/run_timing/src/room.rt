ghost use Rattle.std.specs.Prelude.{◌≡◌, [], None, length, replicate, IfOk};

use crate::tracks::Tracks;
use dn_base::{Memory, Shape};
use message_net::Event;
use std::alloc::Global;

/// Counts one more at an index, if there is one.
fn raise(counts: &mut [u32], place: usize)
    ensures { length counts.new ≡ length counts.old }
{
    if let Some(count) = counts.get_mut(place) {
        *count = count.saturating_add(1);
    }
}

/// How many messages of each actor the events handle, by the index of the actor. In a complete run these are all messages that
/// the actor sends, so rows with that much room don't grow.
///
/// # Errors
/// `Memory` where there is no room.
fn handled_mails(
    alloc: Global,
    events: &[Event],
    shape: Shape,
    actors: usize,
) -> Result<Vec<u32>, Memory>
    ensures { IfOk result (λ mails. length mails.items ≡ actors) }
{
    let mut mails = vec![in alloc; 0; actors]?;
    for event in events {
        if let Event::Handle(id) = event {
            let index = id.sender.index(shape.cores, shape.banks);
            raise(&mut mails, index);
        }
    }
    Ok(mails)
}

impl Tracks {
    /// Empty notes for this many actors, with room for the messages that the events handle.
    ///
    /// # Errors
    /// `Memory` where there is no room.
    pub(crate) fn for_events(
        alloc: Global,
        events: &[Event],
        shape: Shape,
        actors: usize,
    ) -> Result<Tracks, Memory>
        ensures last { IfOk result (λ tracks. tracks.last ≡ replicate actors None) }
        ensures senders { IfOk result (λ tracks. tracks.senders.items ≡ replicate actors []) }
    {
        let mails = handled_mails(alloc, events, shape, actors)?;
        Tracks::with_room(alloc, mails.as_slice())
    }
}
