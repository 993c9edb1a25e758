ghost use Rattle.std.specs.Prelude.{◌≡◌, option_map};
ghost use Rattle.machine_rules.specs.Sound.{IsMachine};
ghost use Rattle.message_net.specs.Pool.{removed};
ghost use Rattle.registration_protocol.specs.Node.{need_now};
ghost use Rattle.run_chart.specs.Affected.{affected_by, affected_by_core, affected_by_mail, by_bank_message, by_core_message, by_need};

use dn_base::{CoreId, WordId};
use dn_machine::Machine;
use message_net::{Actor, Event, Mail, MailId, Message, Pool};
use rv_core::Need;

/// The words for which an event may change what its actor holds.
#[derive(Clone, Copy)]
pub(crate) enum Affected {
    Nothing,
    Word(WordId),
    /// The words that the core has an entry of.
    Entries(CoreId),
}

/// The word that an instruction accesses, by its need.
fn by_need(need: Option<Need>) -> Affected
    ensures { result ≡ by_need need }
{
    match need {
        Some(Need::Load { word }) => Affected::Word(word),
        Some(Need::Store { word, whole: _ }) => Affected::Word(word),
        _ => Affected::Nothing,
    }
}

/// The words that a message affects at a core.
fn by_core_message(core: CoreId, message: Message) -> Affected
    ensures { result ≡ by_core_message core message }
{
    match message {
        Message::DataReply { word, value: _ } => Affected::Word(word),
        Message::RegAck { word } => Affected::Word(word),
        Message::RegFwd { word, core: _ } => Affected::Word(word),
        Message::WbAck { word } => Affected::Word(word),
        Message::Grant { .. } => Affected::Entries(core),
        Message::Go { .. } => Affected::Entries(core),
        _ => Affected::Nothing,
    }
}

/// The words that a message affects at a bank.
fn by_bank_message(message: Message) -> Affected
    ensures { result ≡ by_bank_message message }
{
    match message {
        Message::RegReq { word, core: _ } => Affected::Word(word),
        Message::WriteBack {
            word,
            value: _,
            core: _,
        } => Affected::Word(word),
        _ => Affected::Nothing,
    }
}

/// The message in flight with this id, if there is one.
pub(crate) fn mail_of(pool: &Pool, id: MailId) -> Option<Mail>
    ensures { result ≡ (removed id pool.now.mails).0 }
{
    match pool.place_of(id) {
        Some(place) => Some(pool.at(place)),
        None => None,
    }
}

/// The words that a message affects at the actor that it goes to.
fn by_mail(mail: Option<Mail>) -> Affected
    ensures { result ≡ affected_by_mail mail }
{
    match mail {
        Some(mail) => match mail.to {
            Actor::Core(core) => by_core_message(core, mail.message),
            Actor::Bank(_) => by_bank_message(mail.message),
            Actor::Keeper => Affected::Nothing,
        },
        None => Affected::Nothing,
    }
}

/// The word that the core's next instruction accesses, if it does.
fn by_core(machine: &Machine, core: CoreId) -> Affected
    requires { IsMachine machine.now.state }
    ensures { result ≡ affected_by_core machine.now.state core }
{
    if core.0 < machine.shape().cores {
        by_need(machine.node(core).needs(machine.program(), machine.fuel()))
    } else {
        Affected::Nothing
    }
}

/// The words for which an event may change what its actor has.
pub(crate) fn affected_by(machine: &Machine, event: Event) -> Affected
    requires { IsMachine machine.now.state }
    ensures { result ≡ affected_by machine.now.state event }
{
    match event {
        Event::Instr(core) => by_core(machine, core),
        Event::Evict(_, word) => Affected::Word(word),
        Event::Arrive(_) => Affected::Nothing,
        Event::Handle(id) => by_mail(mail_of(machine.pool(), id)),
    }
}
