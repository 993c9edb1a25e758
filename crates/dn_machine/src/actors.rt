ghost use Rattle.std.specs.Prelude.{◌≡◌, ◌≤◌, true, Some};
ghost use Rattle.message_net.specs.Mail.{has_actor};
ghost use Rattle.message_net.specs.Pool.{count_of, removed};
ghost use Rattle.machine_rules.specs.Next.{enabled, next_number};
ghost use Rattle.dn_machine.specs.Actors.{actor_in};

use crate::machine::Machine;
use crate::posting::next_number;
use message_net::{Actor, Event, Mail, MailId, Pool};

/// The message in flight with this id; there is one.
fn mail_with(pool: &Pool, id: MailId) -> Mail
    requires { 1 ≤ count_of id pool.now.mails }
    ensures { (removed id pool.now.mails).0 ≡ Some result }
{
    // for the proof alone: no two mails in flight have one id, so the mail at this place is the one that was counted
    let _count = pool.count();
    let mut place = 0;
    while pool.at(place).id != id {
        place += 1;
    }
    pool.at(place)
}

impl Machine {
    /// The actor that makes an event, which is enabled: a core makes its own events, and a message is handled by the actor that
    /// it goes to.
    #[tactic(auto, unfolding(crate::specs::Actors::actor_in))]
    pub fn actor(&self, event: &Event) -> Actor
        requires { enabled self.now.state event.now ≡ true }
        ensures { actor_in self.now.state event.now ≡ Some result }
    {
        match event {
            Event::Instr(core) => Actor::Core(*core),
            Event::Evict(core, _) => Actor::Core(*core),
            Event::Arrive(core) => Actor::Core(*core),
            Event::Handle(id) => mail_with(&self.content.pool, *id).to,
        }
    }

    /// The number of an actor's next message; the actor is one of the machine's.
    pub fn next_mail(&self, actor: Actor) -> u32
        requires { has_actor self.now.state.setting.shape.cores self.now.state.setting.shape.banks actor ≡ true }
        ensures { result ≡ next_number self.now.state actor }
    {
        let index = actor.index(self.shape.cores, self.shape.banks);
        next_number(&self.content.numbers, index)
    }
}
