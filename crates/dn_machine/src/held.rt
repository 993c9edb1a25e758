ghost use Rattle.std.specs.Prelude.{◌≡◌, slice_get};
ghost use Rattle.registration_protocol.specs.Node.{entry_of};
ghost use Rattle.machine_rules.specs.State.{entry_in};
ghost use Rattle.machine_rules.specs.Memory.{pending_value, pending_among, value_in_entry};

use dn_base::{CoreId, WordId};
use registration_protocol::Node;
use word_cache::Entry;

/// The value of a word that a core is about to register. A cache is searched only if it has a pending entry.
fn pending_at(node: &Node, word: WordId) -> Option<u32>
    ensures { result ≡ pending_value (entry_of node.now word.0) }
{
    if node.cache().pending() == 0 {
        return None;
    }
    match node.entry(word) {
        Some(Entry::Registered { value, pending }) if pending => Some(value),
        _ => None,
    }
}

/// The value that some core is about to register for a word; None where no core is.
pub fn pending_among(nodes: &[Node], word: WordId) -> Option<u32>
    ensures { result ≡ pending_among nodes.now word.0 }
{
    for node in nodes {
        if let Some(value) = pending_at(node, word) {
            return Some(value);
        }
    }
    None
}

/// The value of an entry; 0 for none.
fn value_in_entry(entry: Option<Entry>) -> u32
    ensures { result ≡ value_in_entry entry }
{
    match entry {
        None => 0,
        Some(Entry::Valid { value, .. }) => value,
        Some(Entry::Registered { value, .. }) => value,
        Some(Entry::Leaving(value)) => value,
    }
}

/// The value of the entry that a core has of a word; 0 where it has none, and where there is no such core.
pub fn value_at(nodes: &[Node], core: CoreId, word: WordId) -> u32
    ensures { result ≡ value_in_entry (entry_in word.0 (slice_get nodes.now core.0)) }
{
    match nodes.get(core.0 as usize) {
        Some(node) => value_in_entry(node.entry(word)),
        None => 0,
    }
}
