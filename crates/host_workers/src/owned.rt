ghost use Rattle.std.specs.Prelude.{◌≡◌, ◌+◌, ◌^◌, ◌<◌, ◌≤◌, [], ◌∷◌, ◌++◌, length, map, true, Some, OnOk, IfSome, option_to_list, vec_len};
ghost use Rattle.std.specs.Vec.{vec_capacity};
ghost use Rattle.message_net.specs.declared.actor.Actor.TheVariants.{Core as OfCore};
ghost use Rattle.message_net.specs.Mail.{mails_of};
ghost use Rattle.registration_protocol.specs.Fit.{IsContext, Fits};
ghost use Rattle.registration_protocol.specs.OwnEvents.{own_event};
ghost use Rattle.registration_protocol.specs.Setting.{setting};
ghost use Rattle.host_workers.specs.Members.{Handles, Makes};
ghost use Rattle.host_workers.specs.Steps.{with_stamp};
ghost use Rattle.host_workers.specs.Passes.{seen_at};
ghost use Rattle.host_workers.specs.Crews.{held_of, owned_has_numbers, HasRoom};
ghost use Rattle.host_workers.specs.Deeds.{HasMoved, IsNoted, IsEarly, step_of_deed};

use crate::EndSeen;
use crate::deeds::{NodeCame, act, receive};
use dn_base::{CoreId, Memory};
use grant_log::{Posted, Stamped, has_numbers_left, stamp_of};
use message_net::{Actor, Event, EventKind, Outgoing};
use registration_protocol::{Context, Node};
use rv_core::TaskEnd;

/// A core that a worker owns: its node, its clock, the number of its next message, the notes of its events, and the ends of the
/// tasks with which it arrived.
#[derive(Drop)]
pub struct Owned {
    pub core: CoreId,
    pub node: Node,
    pub clock: u64,
    pub next: u32,
    pub log: Vec<Stamped>,
    pub ends: Vec<EndSeen>,
}

/// The message that a core sends with its next number and a stamp, if it sends one.
fn letter(core: CoreId, next: u32, stamp: u64, sent: Option<Outgoing>) -> Option<Posted>
    ensures mail { option_to_list result ≡ map (with_stamp stamp) (mails_of (OfCore core) next (option_to_list sent)) }
    ensures stamp { IfSome result (λ posted. posted.stamp ≡ stamp) }
{
    Some(Posted {
        mail: sent?.mail(Actor::Core(core), next),
        stamp,
    })
}

/// Appends how a task had ended, if it had. There is room for it.
fn push_end(ends: &mut Vec<EndSeen>, stamp: u64, end: Option<TaskEnd>)
    requires room { vec_len ends.old < vec_capacity ends.old }
    ensures items { ends.new.items ≡ ends.old.items ++ option_to_list (seen_at stamp end) }
    ensures len { vec_len ends.new ≤ vec_len ends.old + 1 }
    ensures capacity { vec_capacity ends.new ≡ vec_capacity ends.old }
{
    if let Some(end) = end {
        ends.push_reserved(EndSeen { stamp, end });
    }
}

impl Owned {
    /// Whether the core has numbers left: its clock and the number of its next message are below their limits. If not, the worker
    /// leaves the core alone.
    pub(crate) fn has_numbers_left(&self) -> bool
        ensures { result ≡ owned_has_numbers self.now }
    {
        has_numbers_left(self.clock, self.next)
    }

    /// Makes room for what one pass notes, at most two events, so that no message is taken that couldn't be noted.
    ///
    /// # Errors
    /// `Memory` if there isn't that much room.
    pub(crate) fn reserve(&mut self) -> Result<(), Memory>
        ensures room { OnOk result (HasRoom self.new 2) }
        ensures held { held_of self.new ≡ held_of self.old }
        ensures core { self.new.core ≡ self.old.core }
    {
        self.log.reserve(2)?;
        self.ends.reserve(2)?;
        Ok(())
    }

    /// Notes an event with its stamp and result; there is room for it. Gives the message that the core sends, if it sends one.
    fn note(&mut self, stamp: u64, event: Event, kind: EventKind, came: NodeCame) -> Option<Posted>
        requires next { self.old.next < 4294967000 }
        requires room { HasRoom self.old 1 }
        ensures noted { IsNoted self.old.core stamp event kind came (held_of self.old) (held_of self.new) result }
        ensures core { self.new.core ≡ self.old.core }
        ensures stamp { IfSome result (λ posted. posted.stamp ≡ stamp) }
        ensures room { HasRoom self.old 2 → HasRoom self.new 1 }
    {
        self.log.push_reserved(Stamped {
            stamp,
            actor: Actor::Core(self.core),
            event,
            kind,
            granted: came.granted,
        });
        push_end(&mut self.ends, stamp, came.end);
        let sent = letter(self.core, self.next, stamp, came.sent);
        self.clock = stamp;
        if sent.is_some() {
            self.next += 1;
        }
        sent
    }

    /// The core handles a message, and notes it; there is room for that. Gives the message that the core sends, if it sends one.
    pub(crate) fn handle(&mut self, context: &Context<'_>, posted: Posted) -> Option<Posted>
        requires context { IsContext (setting context.now) }
        requires fits { Fits (setting context.now) self.old.node }
        requires goes { owned_has_numbers self.old ≡ true }
        requires early { posted.stamp < 2 ^ 63 }
        requires room { HasRoom self.old 2 }
        ensures moved { HasMoved (setting context.now) self.old.core (step_of_deed (setting context.now) self.old.core (held_of self.old) (Handles posted) ∷ []) (held_of self.old) (held_of self.new) }
        ensures sent { option_to_list result ≡ (step_of_deed (setting context.now) self.old.core (held_of self.old) (Handles posted)).done.sent }
        ensures early { IfSome result IsEarly }
        ensures core { self.new.core ≡ self.old.core }
        ensures fits { Fits (setting context.now) self.new.node }
        ensures room { HasRoom self.new 1 }
    {
        let stamp = stamp_of(self.clock, &posted);
        let came = receive(&mut self.node, context, &posted);
        let kind = posted.mail.message.kind();
        self.note(stamp, Event::Handle(posted.mail.id), kind, came)
    }

    /// The core makes its own event, and notes it; there is room for that. Gives the message that the core sends, if it sends
    /// one.
    pub(crate) fn make(&mut self, context: &Context<'_>, event: Event) -> Option<Posted>
        requires context { IsContext (setting context.now) }
        requires fits { Fits (setting context.now) self.old.node }
        requires goes { owned_has_numbers self.old ≡ true }
        requires own { own_event (setting context.now) self.old.node ≡ Some event }
        requires room { HasRoom self.old 1 }
        ensures moved { HasMoved (setting context.now) self.old.core (step_of_deed (setting context.now) self.old.core (held_of self.old) (Makes event) ∷ []) (held_of self.old) (held_of self.new) }
        ensures sent { option_to_list result ≡ (step_of_deed (setting context.now) self.old.core (held_of self.old) (Makes event)).done.sent }
        ensures early { IfSome result IsEarly }
        ensures core { self.new.core ≡ self.old.core }
        ensures fits { Fits (setting context.now) self.new.node }
    {
        let stamp = self.clock + 1;
        let kind = event.own_kind();
        let came = act(&mut self.node, context, event);
        self.note(stamp, event, kind, came)
    }
}
