ghost use Rattle.std.specs.Prelude.{◌≡◌, ◌<◌, ◌≤◌, length};
ghost use Rattle.rv_core.specs.Access.{is_held, least_held, under, may_load, may_store};

use dn_base::WordId;
use region_table::{TaskDecl, WordSet};

/// Whether a lock is among those that are held.
#[inline(always)]
pub(crate) fn is_held(held: u32, lock: u32) -> bool
    requires { lock < 32 }
    ensures { result ≡ is_held held lock }
{
    held & (1 << lock) != 0
}

/// The least lock that is held; 32 if none is held.
pub(crate) fn least_lock(held: u32) -> u32
    ensures { result ≡ least_held held }
{
    held.trailing_zeros()
}

/// Whether the word is in the set of some lock that is held. No lock from 32 on is held.
#[tactic(auto, using(crate::proofs::HighLocks::high_locks))]
fn is_under(sets: &[WordSet], held: u32, word: WordId) -> bool
    ensures { result ≡ under sets.now 0 held word.0 }
{
    for (lock, set) in sets.iter().enumerate() {
        if lock >= 32 {
            return false;
        }
        if is_held(held, lock as u32) && set.contains(word) {
            return true;
        }
    }
    false
}

/// Whether the task may load the word while it holds these locks.
#[inline(always)]
pub(crate) fn is_readable(task: &TaskDecl, held: u32, word: WordId) -> bool
    ensures { result ≡ may_load task.now held word.0 }
{
    let effects = &task.effects;
    effects.reads.contains(word)
        || effects.writes.contains(word)
        || is_under(effects.guarded_reads.as_slice(), held, word)
        || is_under(effects.guarded_writes.as_slice(), held, word)
}

/// Whether the task may store the word while it holds these locks.
#[inline(always)]
pub(crate) fn is_writable(task: &TaskDecl, held: u32, word: WordId) -> bool
    ensures { result ≡ may_store task.now held word.0 }
{
    let effects = &task.effects;
    effects.writes.contains(word) || is_under(effects.guarded_writes.as_slice(), held, word)
}
