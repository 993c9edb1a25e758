ghost use Rattle.std.specs.Prelude.{◌≡◌, ◌<◌, ◌≤◌, length, slice_get, Some, IfSome};
ghost use Rattle.message_net.specs.declared.message.Mail.{Mail as AMail};

use crate::actor::{MailId, is_same};
use crate::message::Mail;
use dn_base::Memory;
use std::alloc::Global;

/// How many buckets the ids are put into.
const BUCKETS: usize = 65536;

/// The index at which each message of a pool stands, by the message's id: a hash table. No contract speaks of it: what it gives
/// is checked before it is used.
///
/// The messages of a bucket make a chain, the last one noted first. Chains are short in whatever order messages are handled: an
/// actor numbers its messages one by one, so every 65,536th of them has the same bucket. After n events one actor has at most n /
/// 65,536 + 1 messages in one bucket.
#[derive(Drop)]
pub(crate) struct Places {
    /// The place with which each bucket's chain begins.
    first: Vec<Option<u32>>,
    /// The place that comes after each place in its chain.
    behind: Vec<Option<u32>>,
}

/// The bucket of an id. Different actors begin at distant buckets: 40,503 is 65,536 divided by the golden ratio.
fn bucket(id: MailId) -> usize {
    let sender = id.sender.index(16, 16);
    sender.wrapping_mul(40503).wrapping_add(id.number as usize) % BUCKETS
}

/// What a row has at an index, if it has anything there.
fn entry(row: &[Option<u32>], index: usize) -> Option<u32> {
    match row.get(index) {
        Some(place) => *place,
        None => None,
    }
}

/// Puts an index into a row at `index`, if the row is long enough.
fn tell(row: &mut [Option<u32>], index: usize, place: Option<u32>) {
    if let Some(slot) = row.get_mut(index) {
        *slot = place;
    }
}

impl Places {
    /// The places of these messages, with room for `room` places.
    ///
    /// # Errors
    /// `Memory` where there is no room.
    pub(crate) fn new(alloc: Global, mails: &[Mail], room: usize) -> Result<Places, Memory>
        requires few { length mails.now ≤ 4294967295 }
    {
        let mut places = Places {
            first: vec![in alloc; None; BUCKETS]?,
            behind: Vec::new(alloc),
        };
        places.reserve(room)?;
        for place in 0..mails.len() as u32 {
            places.note(mails[place as usize].id, place);
        }
        Ok(places)
    }

    /// Makes room for the places of this many messages.
    ///
    /// # Errors
    /// `Memory` where there is no room.
    pub(crate) fn reserve(&mut self, room: usize) -> Result<(), Memory> {
        if self.behind.len() < room {
            self.behind.resize(room, None)?;
        }
        Ok(())
    }

    /// The place of the message with this id, where the chain of its bucket tells it.
    pub(crate) fn find(&self, mails: &[Mail], id: MailId) -> Option<u32>
        ensures { IfSome result (λ place. (m : AMail) × (slice_get mails.now place ≡ Some m) × (m.id ≡ id)) }
    {
        let mut next = entry(self.first.as_slice(), bucket(id));
        for _done in 0..mails.len() {
            let place = next?;
            let mail = mails.get(place as usize)?;
            if is_same(mail.id, id) {
                return Some(place);
            }
            next = entry(self.behind.as_slice(), place as usize);
        }
        None
    }

    /// The place before this one in the chain of a bucket.
    fn before(&self, bucket: usize, place: u32) -> Option<u32> {
        let mut next = entry(self.first.as_slice(), bucket);
        for _done in 0..self.behind.len() {
            let here = next?;
            next = entry(self.behind.as_slice(), here as usize);
            if next == Some(place) {
                return Some(here);
            }
        }
        None
    }

    /// A message with this id stands at this place from now on.
    #[cold]
    #[inline(never)]
    pub(crate) fn note(&mut self, id: MailId, place: u32) {
        let bucket = bucket(id);
        let behind = entry(self.first.as_slice(), bucket);
        tell(&mut self.behind, place as usize, behind);
        tell(&mut self.first, bucket, Some(place));
    }

    /// The message with this id stands no longer at this place.
    fn forget(&mut self, id: MailId, place: u32) {
        let bucket = bucket(id);
        let behind = entry(self.behind.as_slice(), place as usize);
        if entry(self.first.as_slice(), bucket) == Some(place) {
            tell(&mut self.first, bucket, behind);
        } else if let Some(before) = self.before(bucket, place) {
            tell(&mut self.behind, before as usize, behind);
        }
    }

    /// The message at this place is about to leave, and the last one to move there.
    #[cold]
    #[inline(never)]
    pub(crate) fn free(&mut self, mails: &[Mail], place: u32)
        requires place { place < length mails.now }
        requires few { length mails.now ≤ 4294967295 }
    {
        let last = mails.len() as u32 - 1;
        let moving = mails[last as usize].id;
        self.forget(mails[place as usize].id, place);
        if place != last {
            self.forget(moving, last);
            self.note(moving, place);
        }
    }
}
