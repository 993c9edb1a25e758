ghost use Rattle.std.specs.Prelude.{◌≡◌, slice_get, IfOk};
ghost use Rattle.machine_rules.specs.State.{entry_at, word_in};
ghost use Rattle.machine_rules.specs.Sound.{IsMachine};
ghost use Rattle.run_chart.specs.Words.{changes_among, held_words, of_entry, of_home, same_state, word_state};

use crate::{WordChange, WordState};
use dn_base::{BankId, CoreId, Memory, Sequence, WordId};
use dn_machine::Machine;
use message_net::Actor;
use registry_bank::BankWord;
use std::alloc::Global;
use word_cache::Entry;

/// What a core has for a word, by the entry of its cache.
fn of_entry(entry: Option<Entry>) -> WordState
    ensures { result ≡ of_entry entry }
{
    match entry {
        None => WordState::Absent,
        Some(
            Entry::Valid {
                value,
                marked: false,
            },
        ) => WordState::Valid(value),
        Some(
            Entry::Valid {
                value,
                marked: true,
            },
        ) => WordState::Touched(value),
        Some(
            Entry::Registered {
                value,
                pending: false,
            },
        ) => WordState::Registered(value),
        Some(
            Entry::Registered {
                value,
                pending: true,
            },
        ) => WordState::Pending(value),
        Some(Entry::Leaving(value)) => WordState::Leaving(value),
    }
}

/// What a word's home has for it.
fn of_home(word: Option<BankWord>) -> WordState
    ensures { result ≡ of_home word }
{
    match word {
        None => WordState::Absent,
        Some(BankWord::Home(value)) => WordState::Home(value),
        Some(BankWord::Reg(core)) => WordState::At(core),
    }
}

/// What a core has for a word.
fn held_by(machine: &Machine, core: CoreId, word: WordId) -> WordState
    requires { IsMachine machine.now.state }
    ensures { result ≡ of_entry (entry_at machine.now.state core.0 word.0) }
{
    if core.0 < machine.shape().cores {
        of_entry(machine.node(core).entry(word))
    } else {
        WordState::Absent
    }
}

/// What a bank has for a word.
fn kept_by(machine: &Machine, bank: BankId, word: WordId) -> WordState
    requires { IsMachine machine.now.state }
    ensures { result ≡ of_home (word_in word.0 (slice_get machine.now.state.banks bank.0)) }
{
    if bank.0 < machine.shape().banks {
        of_home(machine.bank(bank).word(word))
    } else {
        WordState::Absent
    }
}

/// What an actor has for a word.
fn word_state(machine: &Machine, actor: Actor, word: WordId) -> WordState
    requires { IsMachine machine.now.state }
    ensures { result ≡ word_state machine.now.state actor word.0 }
{
    match actor {
        Actor::Core(core) => held_by(machine, core, word),
        Actor::Bank(bank) => kept_by(machine, bank, word),
        Actor::Keeper => WordState::Absent,
    }
}

/// A word, and what an actor has for it.
#[derive(Clone, Copy)]
pub(crate) struct HeldWord {
    pub(crate) word: WordId,
    pub(crate) state: WordState,
}

/// What an actor has for each of these words.
///
/// # Errors
/// `Memory` where there is no room.
pub(crate) fn held_words(
    alloc: Global,
    machine: &Machine,
    actor: Actor,
    words: &[u32],
) -> Result<Sequence<HeldWord>, Memory>
    requires { IsMachine machine.now.state }
    ensures { IfOk result (λ held. held ≡ held_words machine.now.state actor words.now) }
{
    let mut held = Sequence::new(alloc);
    for word in words {
        let word = WordId(*word);
        held.push(HeldWord {
            word,
            state: word_state(machine, actor, word),
        })?;
    }
    Ok(held)
}

/// Whether a word's state is the same as before.
fn is_same(before: WordState, after: WordState) -> bool
    ensures { result ≡ same_state before after }
{
    before == after
}

/// The changes of these words for an actor, compared with what it held before.
///
/// # Errors
/// `Memory` where there is no room.
pub(crate) fn changes(
    alloc: Global,
    machine: &Machine,
    actor: Actor,
    befores: &[HeldWord],
) -> Result<Sequence<WordChange>, Memory>
    requires { IsMachine machine.now.state }
    ensures { IfOk result (λ changes. changes ≡ changes_among (word_state machine.now.state actor) befores.now) }
{
    let mut changes = Sequence::new(alloc);
    for before in befores {
        let word = before.word;
        let after = word_state(machine, actor, word);
        if !is_same(before.state, after) {
            changes.push(WordChange {
                word,
                before: before.state,
                after,
            })?;
        }
    }
    Ok(changes)
}
