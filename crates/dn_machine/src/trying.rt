ghost use Rattle.std.specs.Prelude.{◌≡◌, ◌+◌, ◌<◌, ◌≤◌, true, false, None, Some, Ok, IfOk, OnErr};
ghost use Rattle.message_net.specs.declared.actor.Actor.{Actor as AnActor};
ghost use Rattle.message_net.specs.declared.event.Event.TheVariants.{Handle as HandleOf};
ghost use Rattle.registration_protocol.specs.Setting.{setting};
ghost use Rattle.machine_rules.specs.declared.stepped.Stepped.{Stepped as WhatIsTold};
ghost use Rattle.machine_rules.specs.Next.{next, enabled, observed};
ghost use Rattle.dn_machine.specs.Content.{state_of, KnowsOwn, IsWhole};
ghost use Rattle.dn_machine.specs.Tried.{IsTried};

use crate::content::Content;
use crate::machine::{Machine, context_of};
use dn_base::Memory;
use machine_rules::Stepped;
use message_net::{Actor, Event, MailId};
use registration_protocol::Context;

impl Content {
    /// Handles the message with this id, if one in flight has it. It is looked for once.
    fn try_handle(&mut self, context: &Context<'_>, id: MailId) -> Option<(Actor, Stepped)>
        requires whole { IsWhole (state_of (setting context.now) self.old) }
        requires known { KnowsOwn (setting context.now) self.old }
        requires spare { (setting context.now).shape.cores ≤ self.old.pool.spare }
        ensures tried { IsTried (state_of (setting context.now) self.old) (state_of (setting context.now) self.new) (HandleOf id) result }
        ensures known { KnowsOwn (setting context.now) self.new }
    {
        let mail = self.pool.take(id)?;
        let granted = self.deliver(context, mail.to, &mail.message);
        let stepped = Stepped {
            kind: mail.message.kind(),
            seen: None,
            granted,
        };
        Some((mail.to, stepped))
    }

    /// Makes an own event if it is enabled.
    fn try_own(&mut self, context: &Context<'_>, event: Event) -> Option<Stepped>
        requires whole { IsWhole (state_of (setting context.now) self.old) }
        requires known { KnowsOwn (setting context.now) self.old }
        requires spare { (setting context.now).shape.cores ≤ self.old.pool.spare }
        ensures none { result ≡ None → (enabled (state_of (setting context.now) self.old) event ≡ false) × (state_of (setting context.now) self.new ≡ state_of (setting context.now) self.old) }
        ensures came { (told : WhatIsTold) → result ≡ Some told → (enabled (state_of (setting context.now) self.old) event ≡ true)
            × (told ≡ observed (state_of (setting context.now) self.old) event) × (state_of (setting context.now) self.new ≡ next (state_of (setting context.now) self.old) event) }
        ensures known { KnowsOwn (setting context.now) self.new }
    {
        if !self.is_enabled(context, &event) {
            return None;
        }
        Some(self.act(context, event))
    }

    /// Makes an event if it is enabled, and gives the actor that makes it and what it tells.
    #[tactic(auto, unfolding(crate::specs::Actors::actor_in))]
    pub(crate) fn try_event(
        &mut self,
        context: &Context<'_>,
        event: Event,
    ) -> Option<(Actor, Stepped)>
        requires whole { IsWhole (state_of (setting context.now) self.old) }
        requires known { KnowsOwn (setting context.now) self.old }
        requires spare { (setting context.now).shape.cores ≤ self.old.pool.spare }
        ensures tried { IsTried (state_of (setting context.now) self.old) (state_of (setting context.now) self.new) event result }
        ensures known { KnowsOwn (setting context.now) self.new }
    {
        let core = match event {
            Event::Instr(core) => core,
            Event::Evict(core, _) => core,
            Event::Arrive(core) => core,
            Event::Handle(id) => return self.try_handle(context, id),
        };
        let stepped = self.try_own(context, event)?;
        Some((Actor::Core(core), stepped))
    }
}

impl Machine {
    /// Makes an event if it is enabled, and gives the actor that made it and what it tells. None exactly if it is not enabled;
    /// the machine is as before then. Fewer than 4,000,000,000 events must have come before. A message that is handled is found
    /// in constant time, however many messages are in flight.
    ///
    /// # Errors
    /// `Memory` if there is no room for the messages; the machine is as before then.
    pub fn try_step(&mut self, event: Event) -> Result<Option<(Actor, Stepped)>, Memory>
        requires made { self.old.made < 4000000000 }
        ensures tried { IfOk result (IsTried self.old.state self.new.state event) }
        ensures came { (came : AnActor × WhatIsTold) → result ≡ Ok (Some came) → self.new.made ≡ self.old.made + 1 }
        ensures none { result ≡ Ok None → self.new ≡ self.old }
        ensures err { OnErr result (self.new ≡ self.old) }
    {
        self.content.reserve_by_id(self.shape.cores)?;
        let context = context_of(&self.decoded, &self.plans, self.shape, self.fuel);
        let came = self.content.try_event(&context, event);
        if came.is_some() {
            self.made += 1;
        }
        Ok(came)
    }
}
