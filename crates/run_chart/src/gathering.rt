ghost use Rattle.std.specs.Prelude.{◌≡◌, ◌==◌, ◌<◌, ℕ, length, IfOk, OnOk};
ghost use Rattle.std.specs.List.{Contains, list_any};
ghost use Rattle.std.specs.List.Sorted.{IsStrictlyIncreasing};
ghost use Rattle.std.specs.Option.{is_some};
ghost use Rattle.machine_rules.specs.State.{entry_at};
ghost use Rattle.machine_rules.specs.Sound.{IsMachine};
ghost use Rattle.registration_protocol.specs.Node.{entry_of};
ghost use Rattle.word_cache.specs.Row.{has_word};
ghost use Rattle.run_chart.specs.Affected.{affected_by, is_affected, AreAdded, AreGathered};

use crate::affected::{Affected, affected_by};
use dn_base::{CoreId, Memory, WordId};
use dn_machine::Machine;
use message_net::Event;
use region_table::Program;
use registration_protocol::Node;
use std::alloc::Global;
use word_cache::Place;

/// Numbers in their order, each once.
fn sort_once(numbers: &mut Vec<u32>)
    ensures rise { IsStrictlyIncreasing numbers.new.items }
    ensures kept { (w : ℕ) → Contains numbers.old.items w → Contains numbers.new.items w }
    ensures none_more { (w : ℕ) → Contains numbers.new.items w → Contains numbers.old.items w }
{
    numbers.sort_unstable();
    numbers.dedup();
}

/// How many data words a program has.
fn words_of(program: &Program) -> u32
    ensures { result ≡ length program.now.memory }
{
    program.memory.len() as u32
}

/// Adds a word, where the program has it.
fn add_word(words: &mut Vec<u32>, program: &Program, word: WordId) -> Result<(), Memory>
    ensures { OnOk result (AreAdded (length program.now.memory) (λ w. word.0 == w) words.old.items words.new.items) }
{
    if word.0 < words_of(program) {
        words.push(word.0)?;
    }
    Ok(())
}

/// Adds the word that stands at a place of a cache, if one does.
fn add_place(words: &mut Vec<u32>, program: &Program, place: &Place) -> Result<(), Memory>
    ensures { OnOk result (AreAdded (length program.now.memory) (λ w. has_word w place.now) words.old.items words.new.items) }
{
    match place.pair {
        Some((word, _)) => add_word(words, program, word),
        None => Ok(()),
    }
}

/// Adds the words that stand at some places of a cache.
fn add_places(words: &mut Vec<u32>, program: &Program, places: &[Place]) -> Result<(), Memory>
    ensures { OnOk result (AreAdded (length program.now.memory) (λ w. list_any (has_word w) places.now) words.old.items words.new.items) }
{
    for place in places {
        add_place(words, program, place)?;
    }
    Ok(())
}

/// Adds the words that a node has an entry of.
fn add_entries(words: &mut Vec<u32>, program: &Program, node: &Node) -> Result<(), Memory>
    requires { 0 < node.now.cache.sets }
    ensures { OnOk result (AreAdded (length program.now.memory) (λ w. is_some (entry_of node.now w)) words.old.items words.new.items) }
{
    let cache = node.cache();
    for set in 0..cache.sets() {
        add_places(words, program, cache.places(set))?;
    }
    Ok(())
}

/// Adds the words that a core has an entry of.
fn add_entries_of(words: &mut Vec<u32>, machine: &Machine, core: CoreId) -> Result<(), Memory>
    requires { IsMachine machine.now.state }
    ensures { OnOk result (AreAdded (length machine.now.state.setting.program.memory) (λ w. is_some (entry_at machine.now.state core.0 w)) words.old.items words.new.items) }
{
    if core.0 < machine.shape().cores {
        add_entries(words, machine.program(), machine.node(core))?;
    }
    Ok(())
}

/// Adds the words that are affected.
fn add_affected(words: &mut Vec<u32>, machine: &Machine, affected: Affected) -> Result<(), Memory>
    requires { IsMachine machine.now.state }
    ensures { OnOk result (AreAdded (length machine.now.state.setting.program.memory) (is_affected machine.now.state affected) words.old.items words.new.items) }
{
    match affected {
        Affected::Nothing => Ok(()),
        Affected::Word(word) => add_word(words, machine.program(), word),
        Affected::Entries(core) => add_entries_of(words, machine, core),
    }
}

/// The data words for which an event may change what its actor holds, in their order.
///
/// # Errors
/// `Memory` where there is no room.
pub(crate) fn affected_words(
    alloc: Global,
    machine: &Machine,
    event: Event,
) -> Result<Vec<u32>, Memory>
    requires { IsMachine machine.now.state }
    ensures { IfOk result (λ words. AreGathered (length machine.now.state.setting.program.memory) (is_affected machine.now.state (affected_by machine.now.state event)) words.items) }
{
    let mut words = Vec::new(alloc);
    add_affected(&mut words, machine, affected_by(machine, event))?;
    sort_once(&mut words);
    Ok(words)
}
