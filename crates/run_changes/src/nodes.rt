//! What becomes of a core's node.
ghost use Rattle.std.specs.Prelude.{◌≡◌, ◌++◌, ◌≤◌, ◌<◌, Some, length, slice_get, OnOk};
ghost use Rattle.machine_rules.specs.Memory.{value_in_entry};
ghost use Rattle.run_changes.specs.Changes.{part_changes, node_changes, load_change, has_retired, store_change, core_changes};

use crate::change::Change;
use crate::look::NodeLook;
use crate::parts::{locks_held, note, note_entries, note_flag, note_locks, note_task, note_wait};
use dn_base::{LoadSeen, Memory};
use registration_protocol::Node;
use rv_core::{Need, TaskState};
use word_cache::Entry;

/// What becomes of a node that stays in its phase.
fn note_parts(out: &mut Vec<Change>, look: &NodeLook, node: &Node) -> Result<(), Memory>
    requires { length node.now.signatures ≤ 32 }
    ensures { OnOk result (out.new.items ≡ out.old.items ++ part_changes look.now node.now) }
{
    let task = node.task().copied();
    note_task(out, look.task, task)?;
    note_wait(out, look.wait, node.wait())?;
    note_locks(
        out,
        locks_held(look.task),
        locks_held(task),
        look.signatures.as_slice(),
        node.signatures(),
    )?;
    note_flag(out, look.arrived, node.has_arrived(), Change::Arrived)?;
    note_flag(out, look.halted, node.has_halted(), Change::Halted)
}

/// What becomes of a node.
#[tactic(auto, unfolding(crate::specs::Changes::node_changes))]
fn note_node(out: &mut Vec<Change>, look: &NodeLook, node: &Node) -> Result<(), Memory>
    requires { length node.now.signatures ≤ 32 }
    ensures { OnOk result (out.new.items ≡ out.old.items ++ node_changes look.now node.now) }
{
    if look.phase.0 == node.phase().0 {
        note_entries(out, node, look.entries.as_slice())?;
        note_parts(out, look, node)
    } else {
        note(out, Change::Begins(node.phase()))?;
        note_entries(out, node, look.entries.as_slice())
    }
}

/// The load that retired, if one did.
fn note_load(out: &mut Vec<Change>, seen: Option<LoadSeen>) -> Result<(), Memory>
    ensures { OnOk result (out.new.items ≡ out.old.items ++ load_change seen) }
{
    match seen {
        None => Ok(()),
        Some(seen) => note(out, Change::Loaded(seen)),
    }
}

/// Whether an instruction has retired.
fn has_retired(before: Option<TaskState>, after: Option<TaskState>) -> bool
    ensures { result ≡ has_retired before after }
{
    match (before, after) {
        (Some(before), Some(after)) => before.retired != after.retired,
        _ => false,
    }
}

/// The value of an entry; 0 where there is none.
fn value_of(entry: Option<Entry>) -> u32
    ensures { result ≡ value_in_entry entry }
{
    match entry {
        None => 0,
        Some(
            Entry::Valid { value, .. } | Entry::Registered { value, .. } | Entry::Leaving(value),
        ) => value,
    }
}

/// The store that retired, if one did.
fn note_store(out: &mut Vec<Change>, look: &NodeLook, node: &Node) -> Result<(), Memory>
    ensures { OnOk result (out.new.items ≡ out.old.items ++ store_change look.now node.now look.now.needs) }
{
    match look.needs {
        Some(Need::Store { word, .. }) => {
            if has_retired(look.task, node.task().copied()) {
                note(out, Change::Stored(word, value_of(node.entry(word))))
            } else {
                Ok(())
            }
        }
        _ => Ok(()),
    }
}

/// What an event changes at a core, and what its instruction read and wrote.
pub(crate) fn note_core(
    out: &mut Vec<Change>,
    look: &NodeLook,
    seen: Option<LoadSeen>,
    node: &Node,
) -> Result<(), Memory>
    requires { length node.now.signatures ≤ 32 }
    ensures { OnOk result (out.new.items ≡ out.old.items ++ core_changes look.now seen (Some node.now)) }
{
    note_node(out, look, node)?;
    note_load(out, seen)?;
    note_store(out, look, node)
}
