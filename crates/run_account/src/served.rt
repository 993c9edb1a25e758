//! Whom a message of the run serves, and the measure of its kind.
ghost use Rattle.std.specs.Prelude.{◌≡◌};
ghost use Rattle.run_account.specs.Runs.{served_at, served, told_core, carried, kind_measure};

use crate::Measure;
use dn_base::{CoreId, WordId};
use message_net::{Actor, EventKind, Message};

/// The core that a message goes to, and the word.
fn served_at(to: Actor, word: WordId) -> Option<(CoreId, WordId)>
    ensures { result ≡ served_at to word }
{
    match to {
        Actor::Core(core) => Some((core, word)),
        Actor::Bank(_) | Actor::Keeper => None,
    }
}

/// The core that a message serves, and the word that it is about; None for messages about locks and phases.
pub(crate) fn core_served(to: Actor, message: Message) -> Option<(CoreId, WordId)>
    ensures { result ≡ served to message }
{
    match message {
        Message::ReadReq { word, reader } | Message::ReadFwd { word, reader } => {
            Some((reader, word))
        }
        Message::RegReq { word, core }
        | Message::RegFwd { word, core }
        | Message::WriteBack { word, core, .. } => Some((core, word)),
        Message::DataReply { word, .. } | Message::RegAck { word } | Message::WbAck { word } =>
            served_at(to, word),
        Message::Acquire { .. }
        | Message::Release { .. }
        | Message::Grant { .. }
        | Message::Arrived { .. }
        | Message::Go { .. }
        | Message::Halt => None,
    }
}

/// The core that a message goes to, where it is about no word.
fn told_core(to: Actor) -> Option<(CoreId, Option<WordId>)>
    ensures { result ≡ told_core to }
{
    match to {
        Actor::Core(core) => Some((core, None)),
        Actor::Bank(_) | Actor::Keeper => None,
    }
}

/// The core that a message serves, and its word, if it is about one.
pub(crate) fn core_carried(to: Actor, message: Message) -> Option<(CoreId, Option<WordId>)>
    ensures { result ≡ carried to message }
{
    match message {
        Message::Acquire { core, .. }
        | Message::Release { core, .. }
        | Message::Arrived { core, .. } => Some((core, None)),
        Message::Grant { .. } | Message::Go { .. } | Message::Halt => told_core(to),
        Message::ReadReq { .. }
        | Message::ReadFwd { .. }
        | Message::DataReply { .. }
        | Message::RegReq { .. }
        | Message::RegFwd { .. }
        | Message::RegAck { .. }
        | Message::WriteBack { .. }
        | Message::WbAck { .. } => match core_served(to, message) {
            Some((core, word)) => Some((core, Some(word))),
            None => None,
        },
    }
}

/// The measure of the messages of a kind; None for a core's own events.
pub(crate) fn measure_of_kind(kind: EventKind) -> Option<Measure>
    ensures { result ≡ kind_measure kind }
{
    match kind {
        EventKind::Instr | EventKind::Evict | EventKind::Arrive => None,
        EventKind::ReadReq => Some(Measure::ReadReqs),
        EventKind::ReadFwd => Some(Measure::ReadFwds),
        EventKind::DataReply => Some(Measure::DataReplies),
        EventKind::RegReq => Some(Measure::RegReqs),
        EventKind::RegFwd => Some(Measure::RegFwds),
        EventKind::RegAck => Some(Measure::RegAcks),
        EventKind::WriteBack => Some(Measure::WriteBacks),
        EventKind::WbAck => Some(Measure::WbAcks),
        EventKind::Acquire => Some(Measure::Acquires),
        EventKind::Release => Some(Measure::Releases),
        EventKind::Grant => Some(Measure::Grants),
        EventKind::Arrived => Some(Measure::Arrivals),
        EventKind::Go => Some(Measure::Gos),
        EventKind::Halt => Some(Measure::Halts),
    }
}
