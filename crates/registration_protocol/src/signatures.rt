ghost use Rattle.std.specs.Prelude.{◌≡◌, ◌<◌, ◌≤◌, ◌&&◌, length, replicate, slice_set, slice_index_or, [], IfOk};
ghost use Rattle.region_table.specs.Words.{has};
ghost use Rattle.rv_core.specs.Access.{is_held};
ghost use Rattle.write_signature.specs.declared.signature.Signature.{Signature};
ghost use Rattle.write_signature.specs.Signature.{empty};
ghost use Rattle.registration_protocol.specs.OwnEvents.{noted, noted_at};

use dn_base::{Memory, PhaseId, Sequence, WordId};
use region_table::{TaskDecl, WordSet};
use std::alloc::Global;
use write_signature::Signature;

/// An empty signature of phase 0 for each lock.
pub(crate) fn empty_signatures(alloc: Global, locks: usize) -> Result<Sequence<Signature>, Memory>
    ensures { IfOk result (λ signatures. signatures ≡ replicate locks (empty 0)) }
{
    let mut signatures = Sequence::new(alloc);
    for lock in 0..locks {
        signatures.push(Signature::empty(PhaseId(0)))?;
    }
    Ok(signatures)
}

/// Makes all signatures empty ones of the phase.
pub(crate) fn empty_all(signatures: &mut Sequence<Signature>, phase: PhaseId)
    ensures { signatures.new ≡ replicate (length signatures.old) (empty phase.0) }
{
    for lock in 0..signatures.len() {
        signatures.set(lock, Signature::empty(phase));
    }
}

/// Whether the word is in the set of the lock of this number.
fn is_guarded(sets: &[WordSet], lock: usize, word: WordId) -> bool
    ensures { result ≡ has (slice_index_or sets.now lock []) word.0 }
{
    match sets.get(lock) {
        Some(set) => set.contains(word),
        None => false,
    }
}

/// Whether a lock is held.
fn is_held(held: u32, lock: u32) -> bool
    requires { lock < 32 }
    ensures { result ≡ is_held held lock }
{
    held & (1 << lock) != 0
}

/// Whether the task holds the lock and may store the word under it.
fn stores_under(task: &TaskDecl, held: u32, lock: usize, word: WordId) -> bool
    requires { lock < 32 }
    ensures { result ≡ (is_held held lock && has (slice_index_or task.now.effects.guarded_writes lock []) word.0) }
{
    is_held(held, lock as u32) && is_guarded(task.effects.guarded_writes.as_slice(), lock, word)
}

/// Puts the word of a store into the signature of this lock, if the task holds the lock and the lock guards the word for its
/// stores.
fn note_at(
    signatures: &mut Sequence<Signature>,
    task: &TaskDecl,
    held: u32,
    lock: usize,
    word: WordId,
    phase: PhaseId,
)
    requires lock { lock < length signatures.old }
    requires locks { length signatures.old ≤ 32 }
    ensures { (d : Signature) → signatures.new ≡ slice_set signatures.old lock (noted_at task.now held word.0 phase.0 lock (slice_index_or signatures.old lock d)) }
{
    if stores_under(task, held, lock, word) {
        let mut signature = signatures.as_slice()[lock];
        signature.insert(word, phase);
        signatures.set(lock, signature);
    }
}

/// Notes a store to the word in the signature of each lock that the task holds and that guards the word for its stores.
#[inline(always)]
pub(crate) fn note(
    signatures: &mut Sequence<Signature>,
    task: &TaskDecl,
    held: u32,
    word: WordId,
    phase: PhaseId,
)
    requires { length signatures.old ≤ 32 }
    ensures { signatures.new ≡ noted task.now held word.0 phase.0 0 signatures.old }
{
    if held == 0 {
        return;
    }
    for lock in 0..signatures.len() {
        note_at(signatures, task, held, lock, word, phase);
    }
}
