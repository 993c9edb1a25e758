//! What a task declares of a data word that it loads or stores.
ghost use Rattle.std.specs.Prelude.{◌≡◌};
ghost use Rattle.rv_core.specs.Address.{code_at};
ghost use Rattle.sentences.specs.Uses.{access_of, instruction_access, lock_from, own_lock, guarded_use, read_use, store_under, load_use, store_use, own_use};

use dn_base::WordId;
use region_table::{Effects, FIRST_CODE_ADDRESS, Program, WordSet};
use rv_isa::{Instr, decode};

/// How an instruction accesses a data word.
#[derive(Clone, Copy)]
pub(crate) enum Access {
    Load,
    Store,
}

/// What a task declares of a data word that it accesses in some way.
#[derive(Clone, Copy)]
pub(crate) enum OwnUse {
    /// It may access the word so, whatever locks it holds.
    Free,
    /// It may access the word so while it holds the lock of this number.
    Guarded(usize),
    /// It may load the word while it holds the lock of this number, and never store to it.
    ReadUnder(usize),
    /// It may load the word, and not store to it.
    ReadOnly,
    Undeclared,
}

fn access_of(instruction: Instr) -> Option<Access>
    ensures { result ≡ access_of instruction }
{
    match instruction {
        Instr::Load { .. } => Some(Access::Load),
        Instr::Store { .. } => Some(Access::Store),
        _ => None,
    }
}

fn code_word(code: &[u32], address: u32) -> Option<u32>
    ensures { result ≡ code_at code.now address }
{
    if FIRST_CODE_ADDRESS <= address && address % 4 == 0 {
        code.get(((address - FIRST_CODE_ADDRESS) / 4) as usize)
            .copied()
    } else {
        None
    }
}

/// How the instruction at an address accesses a word; None if it is no load or store.
pub(crate) fn instruction_access(program: &Program, address: u32) -> Option<Access>
    ensures { result ≡ instruction_access program.now address }
{
    access_of(decode(code_word(program.code.as_slice(), address)?)?)
}

/// The number of the first of these sets that has the word.
fn lock_of(sets: &[WordSet], word: u32) -> Option<usize>
    ensures { result ≡ lock_from 0 sets.now word }
{
    for (lock, set) in sets.iter().enumerate() {
        if set.contains(WordId(word)) {
            return Some(lock);
        }
    }
    None
}

/// The least lock that guards the word for the task's stores, or else for its loads.
pub(crate) fn own_lock(effects: &Effects, word: u32) -> Option<usize>
    ensures { result ≡ own_lock effects.now word }
{
    match lock_of(effects.guarded_writes.as_slice(), word) {
        Some(lock) => Some(lock),
        None => lock_of(effects.guarded_reads.as_slice(), word),
    }
}

fn guarded_use(lock: Option<usize>) -> OwnUse
    ensures { result ≡ guarded_use lock }
{
    match lock {
        Some(lock) => OwnUse::Guarded(lock),
        None => OwnUse::Undeclared,
    }
}

fn read_use(reads: bool) -> OwnUse
    ensures { result ≡ read_use reads }
{
    if reads {
        OwnUse::ReadOnly
    } else {
        OwnUse::Undeclared
    }
}

fn store_under(stores: Option<usize>, loads: Option<usize>, reads: bool) -> OwnUse
    ensures { result ≡ store_under stores loads reads }
{
    match (stores, loads) {
        (Some(lock), _) => OwnUse::Guarded(lock),
        (None, Some(lock)) => OwnUse::ReadUnder(lock),
        (None, None) => read_use(reads),
    }
}

fn load_use(effects: &Effects, word: u32) -> OwnUse
    ensures { result ≡ load_use effects.now word }
{
    if effects.writes.contains(WordId(word)) || effects.reads.contains(WordId(word)) {
        return OwnUse::Free;
    }
    guarded_use(own_lock(effects, word))
}

fn store_use(effects: &Effects, word: u32) -> OwnUse
    ensures { result ≡ store_use effects.now word }
{
    if effects.writes.contains(WordId(word)) {
        return OwnUse::Free;
    }
    let stores = lock_of(effects.guarded_writes.as_slice(), word);
    let loads = lock_of(effects.guarded_reads.as_slice(), word);
    store_under(stores, loads, effects.reads.contains(WordId(word)))
}

/// What the effects say of a word that their task accesses so.
pub(crate) fn own_use(access: Access, effects: &Effects, word: u32) -> OwnUse
    ensures { result ≡ own_use access effects.now word }
{
    match access {
        Access::Load => load_use(effects, word),
        Access::Store => store_use(effects, word),
    }
}
