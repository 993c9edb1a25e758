//! The conditions of the tables, one by one.
ghost use Rattle.std.specs.Prelude.{◌≡◌, ◌<◌};
ghost use Rattle.registration_protocol.specs.Node.{entry_of, is_running};
ghost use Rattle.registration_protocol.specs.OwnEvents.{crowded, wanted_by};
ghost use Rattle.state_text.specs.Reasons.{reason_if, inactive_reason, task_reason, wait_reason, filled_reason, pending_reason, access_reason, need_reason, entry_reason, room_reason};
ghost use Rattle.state_text.specs.declared.reason.Reason.TheVariants.{TaskRuns};

use crate::reason::Reason;
use dn_base::{WordId, remainder};
use registration_protocol::{Node, NodeWait};
use rv_core::Need;
use word_cache::{Entry, Probe};

/// Why a core makes no own event.
pub(crate) fn inactive(node: &Node) -> Option<Reason>
    ensures { result ≡ inactive_reason node.now }
{
    if node.has_halted() {
        Some(Reason::Halted)
    } else if node.has_arrived() {
        Some(Reason::Arrived)
    } else {
        None
    }
}

/// Why a core has no running task.
pub(crate) fn without_task(node: &Node) -> Option<Reason>
    ensures { result ≡ task_reason node.now.task }
{
    match node.task() {
        None => Some(Reason::NoTask),
        Some(task) if task.end.is_some() => Some(Reason::TaskEnded),
        Some(_) => None,
    }
}

/// A core's task hasn't ended, which keeps the core from arriving.
pub(crate) fn with_task(node: &Node) -> Option<Reason>
    ensures { result ≡ reason_if (is_running node.now.task) TaskRuns }
{
    match node.task() {
        Some(task) if task.end.is_none() => Some(Reason::TaskRuns),
        _ => None,
    }
}

/// What a core waits for.
pub(crate) fn wait_reason(wait: NodeWait) -> Option<Reason>
    ensures { result ≡ wait_reason wait }
{
    match wait {
        NodeWait::Reading(word) => Some(Reason::WaitsForWord(word)),
        NodeWait::Locking(lock) => Some(Reason::WaitsForLock(lock)),
        NodeWait::None | NodeWait::Filled(_) => None,
    }
}

/// The word that has come for the next instruction.
pub(crate) fn filled_reason(wait: NodeWait) -> Option<Reason>
    ensures { result ≡ filled_reason wait }
{
    match wait {
        NodeWait::Filled(word) => Some(Reason::HasValue(word)),
        NodeWait::None | NodeWait::Reading(_) | NodeWait::Locking(_) => None,
    }
}

/// Some entry is pending.
pub(crate) fn pending(node: &Node) -> Option<Reason>
    ensures { result ≡ pending_reason node.now }
{
    if node.cache().pending() == 0 {
        None
    } else {
        Some(Reason::HasPending)
    }
}

/// Why a load or store of a word stalls.
fn access_reason(node: &Node, word: WordId) -> Option<Reason>
    ensures { result ≡ access_reason node.now word (entry_of node.now word.0) }
{
    match node.cache().probe(word) {
        Probe::Hit { entry, .. } => match entry {
            Entry::Valid { .. } | Entry::Registered { .. } => None,
            Entry::Leaving(_) => Some(Reason::IsLeaving(word)),
        },
        Probe::Room { .. } => None,
        Probe::Full => Some(Reason::NoRoom(word)),
    }
}

/// Why an instruction with this need stalls.
pub(crate) fn need_reason(node: &Node, need: Option<Need>) -> Option<Reason>
    ensures { result ≡ need_reason node.now need }
{
    match need {
        Some(Need::Load { word } | Need::Store { word, .. }) => access_reason(node, word),
        Some(Need::Release { .. }) => pending(node),
        None | Some(Need::Local | Need::End { .. } | Need::Acquire { .. }) => None,
    }
}

/// The word, if it has no entry and its set has no room.
fn word_without_room(node: &Node, word: WordId) -> Option<WordId>
    ensures { result ≡ crowded node.now word }
{
    match node.cache().probe(word) {
        Probe::Hit { .. } | Probe::Room { .. } => None,
        Probe::Full => Some(word),
    }
}

/// The word that lacks a place in the cache for an instruction with this need, if there is one.
pub(crate) fn word_wanting_room(node: &Node, need: Option<Need>) -> Option<WordId>
    ensures { result ≡ wanted_by node.now need }
{
    match need {
        Some(Need::Load { word }) => word_without_room(node, word),
        Some(Need::Store { word, .. }) => word_without_room(node, word),
        _ => None,
    }
}

/// Why a word's entry may not be evicted.
fn entry_reason(node: &Node, word: WordId) -> Option<Reason>
    ensures { result ≡ entry_reason word (entry_of node.now word.0) }
{
    match node.entry(word) {
        None => Some(Reason::NoEntry(word)),
        Some(Entry::Valid { .. } | Entry::Registered { pending: false, .. }) => None,
        Some(Entry::Registered { pending: true, .. }) => Some(Reason::IsPending(word)),
        Some(Entry::Leaving(_)) => Some(Reason::IsLeaving(word)),
    }
}

/// Why the eviction of a word makes no room for the wanted one.
pub(crate) fn without_room(node: &Node, word: WordId, wanted: Option<WordId>) -> Option<Reason>
    requires { 0 < node.now.cache.sets }
    ensures { result ≡ room_reason node.now word wanted }
{
    let Some(wanted) = wanted else {
        return Some(Reason::NeedsNoRoom);
    };
    let sets = node.cache().sets();
    if remainder(word.0, sets) == remainder(wanted.0, sets) {
        entry_reason(node, word)
    } else {
        Some(Reason::OtherSet { word, wanted })
    }
}
