ghost use Rattle.std.specs.Prelude.{◌≡◌, ◌+◌, ◌<◌, ◌≤◌, ◌↔◌, [], length, slice_get, position, Some, vec_len, OnOk, OnErr, IfSome, IfNone, IsNone};
ghost use Rattle.std.specs.Vec.{vec_capacity};
ghost use Rattle.message_net.specs.declared.message.Mail.{Mail as AMail};
ghost use Rattle.message_net.specs.Pool.{of_id, count_of, has_id, AreDistinct, IsFound, posted, without_mail_at, removed};

use crate::actor::{MailId, is_same};
use crate::message::Mail;
use crate::places::Places;
use dn_base::Memory;
use std::alloc::Global;
use std::marker::Model;

/// The messages in flight. Their order is part of the contracts. No two have the same id, and there are at most 4,294,967,295.
///
/// A message is found by its id in constant time if the pool keeps the places of ids (`keep_places`). Otherwise all messages are
/// searched.
///
/// Contracts see the list of messages and `spare`: for how many more messages there is room.
#[derive(Drop)]
pub struct Pool {
    row: Vec<Mail>,
    places: Option<Places>,
}

impl Model for Pool {
    ghost use Rattle.std.specs.Prelude.{◌-◌, vec_len};
    ghost use Rattle.std.specs.Vec.{vec_capacity};
    ghost use Rattle.message_net.specs.Pool.{Mails, IsPool};

    ghost Value = { Mails };

    ghost view = { λ p. record { mails = p.row.items; spare = vec_capacity p.row - vec_len p.row } };

    ghost invariant = { λ p. IsPool p.row.items };
}

/// The place of the first message with this id.
fn first_with(mails: &[Mail], id: MailId) -> Option<usize>
    ensures { result ≡ position (of_id id) mails.now }
{
    mails.iter().position(|mail| is_same(mail.id, id))
}

/// The place of the message with this id, where the places tell it.
fn told_by(places: &Option<Places>, mails: &[Mail], id: MailId) -> Option<u32>
    ensures { IfSome result (λ place. (m : AMail) × (slice_get mails.now place ≡ Some m) × (m.id ≡ id)) }
{
    match places {
        Some(places) => places.find(mails, id),
        None => None,
    }
}

/// The index of the message with this id, or None if there is none. No two messages have the same id.
fn found_place(places: &Option<Places>, mails: &[Mail], id: MailId) -> Option<u32>
    requires distinct { AreDistinct mails.now }
    requires few { length mails.now ≤ 4294967295 }
    ensures { result ≡ position (of_id id) mails.now }
{
    match told_by(places, mails, id) {
        Some(place) => Some(place),
        None => Some(first_with(mails, id)? as u32),
    }
}

/// The places, where they are kept, tell that a message with this id stands at this place.
#[inline(always)]
fn note_place(places: &mut Option<Places>, id: MailId, place: u32) {
    if let Some(places) = places {
        places.note(id, place);
    }
}

/// The places, where they are kept, tell that the message at this place leaves, and the last one moves there.
#[inline(always)]
fn free_place(places: &mut Option<Places>, mails: &[Mail], place: u32)
    requires place { place < length mails.now }
    requires few { length mails.now ≤ 4294967295 }
{
    if let Some(places) = places {
        places.free(mails, place);
    }
}

/// Takes the message at this place out of the row; the last message moves into the free place.
#[inline(always)]
fn take_out(row: &mut Vec<Mail>, place: usize) -> Mail
    requires { place < length row.old.items }
    ensures value { slice_get row.old.items place ≡ Some result }
    ensures rest { row.new.items ≡ without_mail_at place row.old.items }
    ensures len { vec_len row.new + 1 ≡ vec_len row.old }
    ensures capacity { vec_capacity row.new ≡ vec_capacity row.old }
{
    row.swap_remove(place)
}

impl Pool {
    /// The pool without messages; takes no memory.
    pub fn new(alloc: Global) -> Pool
        ensures mails { result.mails ≡ [] }
        ensures spare { result.spare ≡ 0 }
    {
        Pool {
            row: Vec::new(alloc),
            places: None,
        }
    }

    /// Adds a message at the end.
    ///
    /// # Errors
    /// `Memory` where there is no room; the pool is then as before.
    pub fn post(&mut self, mail: Mail) -> Result<(), Memory>
        requires new { count_of mail.id self.old.mails ≡ 0 }
        requires room { length self.old.mails < 4294967295 }
        ensures ok { OnOk result (self.new.mails ≡ posted mail self.old.mails) }
        ensures err { OnErr result (self.new ≡ self.old) }
    {
        self.reserve(1)?;
        self.post_reserved(mail);
        Ok(())
    }

    /// Makes room for `more` messages. The messages stay as they are.
    ///
    /// # Errors
    /// `Memory` if there is no room; the pool is then as before.
    pub fn reserve(&mut self, more: u32) -> Result<(), Memory>
        ensures mails { self.new.mails ≡ self.old.mails }
        ensures ok { OnOk result (more ≤ self.new.spare) }
        ensures never_less { self.old.spare ≤ self.new.spare }
        ensures err { OnErr result (self.new ≡ self.old) }
    {
        self.row.reserve(more as usize)?;
        Ok(())
    }

    /// From now on the pool keeps the index of the message with each id, so that `place_of`, `has` and `take` find it in constant
    /// time. This holds for as many messages as there is room for now: call it again after each `reserve`. If there is nothing to
    /// do it costs nothing.
    ///
    /// # Errors
    /// `Memory` where there is no room for the places.
    pub fn keep_places(&mut self) -> Result<(), Memory>
        ensures { self.new ≡ self.old }
    {
        let room = self.row.capacity();
        match &mut self.places {
            Some(places) => places.reserve(room),
            None => {
                let alloc = *self.row.allocator();
                self.places = Some(Places::new(alloc, self.row.as_slice(), room)?);
                Ok(())
            }
        }
    }

    /// Adds a message at the end, in the room that was made for it; takes no memory.
    #[inline(always)]
    pub fn post_reserved(&mut self, mail: Mail)
        requires new { count_of mail.id self.old.mails ≡ 0 }
        requires room { length self.old.mails < 4294967295 }
        requires spare { 1 ≤ self.old.spare }
        ensures mails { self.new.mails ≡ posted mail self.old.mails }
        ensures spare { self.new.spare + 1 ≡ self.old.spare }
    {
        let place = self.row.len() as u32;
        note_place(&mut self.places, mail.id, place);
        self.row.push_reserved(mail);
    }

    /// Removes the message with this id, and gives it. The last message moves to its index, and its room is spare. None if no
    /// message has the id; the pool is as before then. Takes no memory.
    pub fn take(&mut self, id: MailId) -> Option<Mail>
        ensures value { result ≡ (removed id self.old.mails).0 }
        ensures rest { self.new.mails ≡ (removed id self.old.mails).1 }
        ensures some { IfSome result (λ mail. mail.id ≡ id) }
        ensures none { IsNone result ↔ (count_of id self.old.mails ≡ 0) }
        ensures spare { IfSome result (λ mail. self.new.spare ≡ self.old.spare + 1) }
        ensures never_less { self.old.spare ≤ self.new.spare }
        ensures same { IfNone result (self.new ≡ self.old) }
    {
        let place = self.place_of(id)?;
        Some(self.take_at(place))
    }

    /// Takes the message at this place out; the last message moves into the free place, and the room of the message is spare. It
    /// looks for nothing, and takes no memory.
    #[inline(always)]
    pub fn take_at(&mut self, place: u32) -> Mail
        requires { place < length self.old.mails }
        ensures value { slice_get self.old.mails place ≡ Some result }
        ensures rest { self.new.mails ≡ without_mail_at place self.old.mails }
        ensures spare { self.new.spare ≡ self.old.spare + 1 }
    {
        free_place(&mut self.places, self.row.as_slice(), place);
        take_out(&mut self.row, place as usize)
    }

    /// The index of the message with this id; None if there is none.
    pub fn place_of(&self, id: MailId) -> Option<u32>
        ensures place { result ≡ position (of_id id) self.now.mails }
        ensures none { IsNone result ↔ (count_of id self.now.mails ≡ 0) }
        ensures found { IfSome result (λ place. (m : AMail) × IsFound id self.now.mails place m) }
    {
        found_place(&self.places, self.row.as_slice(), id)
    }

    /// Whether there is a message with this id.
    pub fn has(&self, id: MailId) -> bool
        ensures { result ≡ has_id id self.now.mails }
    {
        self.place_of(id).is_some()
    }

    /// How many messages there are.
    #[inline(always)]
    pub fn count(&self) -> u32
        ensures count { result ≡ length self.now.mails }
        ensures distinct { AreDistinct self.now.mails }
    {
        self.row.len() as u32
    }

    /// The message at this place.
    #[inline(always)]
    pub fn at(&self, place: u32) -> Mail
        requires { place < length self.now.mails }
        ensures { slice_get self.now.mails place ≡ Some result }
    {
        self.row[place as usize]
    }
}

/// Compiles only if the type may be sent to another thread and shared with it.
fn crosses<T: Send + Sync>(_value: &T) {}

/// A pool may be sent to another thread, and shared with it. Nobody calls this; the check of its body proves it.
fn pool_crosses(pool: &Pool) {
    crosses(pool);
}
