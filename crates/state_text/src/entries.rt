//! The lines of a core's entries.
ghost use Rattle.std.specs.Prelude.{◌≡◌, ◌++◌, flat_map, OnOk};
ghost use Rattle.state_text.specs.Cores.{flag_text, entry_word, value_of_entry, entry_flag, entry_text, entry_line, entry_lines};

use crate::called::{push_core, push_data_word};
use crate::pairs_by_set;
use dn_base::{CoreId, Memory, WordId};
use region_table::Program;
use registration_protocol::Node;
use std::alloc::Global;
use text_pieces::{push, push_hexadecimal};
use word_cache::Entry;

/// Adds a word, if the flag is set.
fn push_flag(out: &mut Vec<u8>, word: &[u8], flag: bool) -> Result<(), Memory>
    ensures { OnOk result (out.new.items ≡ out.old.items ++ flag_text word.now flag) }
{
    if flag { push(out, word) } else { Ok(()) }
}

/// The word for an entry's state.
#[tactic(auto, unfolding(crate::specs::Cores::entry_word))]
fn entry_word(entry: Entry) -> &'static [u8]
    ensures { result.now ≡ entry_word entry }
{
    match entry {
        Entry::Valid { .. } => b"valid ",
        Entry::Registered { .. } => b"registered ",
        Entry::Leaving(_) => b"leaving ",
    }
}

fn value_of_entry(entry: Entry) -> u32
    ensures { result ≡ value_of_entry entry }
{
    match entry {
        Entry::Valid { value, .. } | Entry::Registered { value, .. } | Entry::Leaving(value) =>
            value,
    }
}

/// Adds whether an entry is marked or pending.
#[tactic(auto, unfolding(crate::specs::Cores::entry_flag))]
fn push_entry_flag(out: &mut Vec<u8>, entry: Entry) -> Result<(), Memory>
    ensures { OnOk result (out.new.items ≡ out.old.items ++ entry_flag entry) }
{
    match entry {
        Entry::Valid { marked, .. } => push_flag(out, b", marked", marked),
        Entry::Registered { pending, .. } => push_flag(out, b", pending", pending),
        Entry::Leaving(_) => Ok(()),
    }
}

/// Adds an entry: its state, its value, and whether it is marked or pending.
#[tactic(auto, unfolding(crate::specs::Cores::entry_text))]
fn push_entry(out: &mut Vec<u8>, entry: Entry) -> Result<(), Memory>
    ensures { OnOk result (out.new.items ≡ out.old.items ++ entry_text entry) }
{
    push(out, entry_word(entry))?;
    push_hexadecimal(out, value_of_entry(entry))?;
    push_entry_flag(out, entry)
}

#[tactic(auto, unfolding(crate::specs::Cores::entry_line))]
fn push_entry_line(
    out: &mut Vec<u8>,
    program: &Program,
    core: CoreId,
    pair: (WordId, Entry),
) -> Result<(), Memory>
    ensures { OnOk result (out.new.items ≡ out.old.items ++ entry_line program.now core.0 pair) }
{
    let (word, entry) = pair;
    push_core(out, core)?;
    push(out, b" entry ")?;
    push_data_word(out, program, word)?;
    push(out, b": ")?;
    push_entry(out, entry)?;
    push(out, b"\n")
}

fn push_pairs(
    out: &mut Vec<u8>,
    program: &Program,
    core: CoreId,
    pairs: &[(WordId, Entry)],
) -> Result<(), Memory>
    ensures { OnOk result (out.new.items ≡ out.old.items ++ flat_map (entry_line program.now core.0) pairs.now) }
{
    for pair in pairs {
        push_entry_line(out, program, core, *pair)?;
    }
    Ok(())
}

/// Adds the entries of a core, set by set, the least recently used first.
pub(crate) fn push_entries(
    alloc: Global,
    out: &mut Vec<u8>,
    program: &Program,
    node: &Node,
) -> Result<(), Memory>
    ensures { OnOk result (out.new.items ≡ out.old.items ++ entry_lines program.now node.now) }
{
    let pairs = pairs_by_set(alloc, node.cache())?;
    push_pairs(out, program, node.core(), pairs.as_slice())
}
