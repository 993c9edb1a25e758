//! The access that a core's next instruction retires.
ghost use Rattle.std.specs.Prelude.{◌≡◌, Some};
ghost use Rattle.std.specs.Prelude.{slice_get};
ghost use Rattle.message_net.specs.declared.event.Event.TheVariants as event;
ghost use Rattle.registration_protocol.specs.Node.{entry_of};
ghost use Rattle.run_account.specs.Runs.{has_waited, counted_in};
ghost use Rattle.run_account.specs.Retired.{load_retires, store_retires, retiring_access, access_of_need};

use crate::access::{AccessKind, CountedAccess};
use dn_base::{CoreId, WordId};
use dn_machine::Machine;
use registration_protocol::{Node, NodeWait};
use rv_core::Need;
use word_cache::Entry;

/// Whether a load retires, by the word's entry.
fn load_retires(entry: Option<Entry>) -> bool
    ensures { result ≡ load_retires entry }
{
    matches!(entry, Some(Entry::Valid { .. } | Entry::Registered { .. }))
}

/// Whether a store retires, by the word's entry.
fn store_retires(whole: bool, entry: Option<Entry>) -> bool
    ensures { result ≡ store_retires whole entry }
{
    load_retires(entry) || (whole && entry.is_none())
}

/// Whether the word has come for which a core waited.
fn has_waited(wait: NodeWait) -> bool
    ensures { result ≡ has_waited wait }
{
    matches!(wait, NodeWait::Filled(_))
}

/// An access by a core.
fn retiring_access(core: CoreId, node: &Node, word: WordId, kind: AccessKind) -> CountedAccess
    ensures { result ≡ retiring_access core node.now word kind }
{
    CountedAccess {
        core,
        phase: node.phase(),
        word,
        kind,
        waited: has_waited(node.wait()),
    }
}

/// The access that an instruction with this need retires.
fn access_of_need(core: CoreId, node: &Node, need: Option<Need>) -> Option<CountedAccess>
    ensures { result ≡ access_of_need core node.now need }
{
    match need {
        Some(Need::Load { word }) if load_retires(node.entry(word)) => {
            Some(retiring_access(core, node, word, AccessKind::Load))
        }
        Some(Need::Store { word, whole }) if store_retires(whole, node.entry(word)) => {
            Some(retiring_access(core, node, word, AccessKind::Store))
        }
        _ => None,
    }
}

/// The access that the next instruction of a core retires, if it retires one.
#[tactic(auto, using(crate::proofs::Retires::retired_is))]
pub(crate) fn access_retired(machine: &Machine, core: CoreId, node: &Node) -> Option<CountedAccess>
    requires { slice_get machine.now.state.nodes core.0 ≡ Some node.now }
    ensures { result ≡ counted_in machine.now.state (event.Instr core) }
{
    access_of_need(core, node, node.needs(machine.program(), machine.fuel()))
}
