ghost use Rattle.std.specs.Prelude.{◌≡◌, ◌+◌, ◌<◌, ◌≤◌, Some, true, length, IfOk, OnOk};
ghost use Rattle.message_net.specs.Mail.{has_actor};
ghost use Rattle.machine_rules.specs.Next.{enabled, kind_in, next, next_number};
ghost use Rattle.dn_machine.specs.Actors.{actor_in};
ghost use Rattle.run_timing.specs.Tracks.{senders_at};

use crate::tracks::Tracks;
use dn_base::Memory;
use dn_machine::Machine;
use message_net::{Actor, Event, EventKind};

/// An event that came: the actor that made it, and its kind.
#[derive(Clone, Copy)]
pub(crate) struct Happened {
    pub(crate) actor: Actor,
    pub(crate) kind: EventKind,
}

/// Makes an event, which is enabled.
///
/// # Errors
/// `Memory` where there is no room for the messages.
pub(crate) fn make(machine: &mut Machine, event: Event) -> Result<Happened, Memory>
    requires may { enabled machine.old.state event ≡ true }
    requires made { machine.old.made < 4000000000 }
    ensures state { OnOk result (machine.new.state ≡ next machine.old.state event) }
    ensures made { OnOk result (machine.new.made ≡ machine.old.made + 1) }
    ensures actor { IfOk result (λ happened. actor_in machine.old.state event ≡ Some happened.actor) }
    ensures kind { IfOk result (λ happened. happened.kind ≡ kind_in machine.old.state event) }
{
    match machine.try_step(event)? {
        Some((actor, stepped)) => Ok(Happened {
            actor,
            kind: stepped.kind,
        }),
        None => unreachable!(),
    }
}

/// How many messages the actor at an index has sent that aren't noted yet.
pub(crate) fn sent_since(machine: &Machine, tracks: &Tracks, actor: Actor, place: usize) -> u32
    requires there { has_actor machine.now.state.setting.shape.cores machine.now.state.setting.shape.banks actor ≡ true }
    requires grows { length (senders_at tracks.now.senders.items place) ≤ next_number machine.now.state actor }
    ensures { length (senders_at tracks.now.senders.items place) + result ≡ next_number machine.now.state actor }
{
    let noted = match tracks.senders.as_slice().get(place) {
        Some(row) => row.len(),
        None => 0,
    };
    (machine.next_mail(actor) as usize - noted) as u32
}
