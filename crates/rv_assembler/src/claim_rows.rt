//! The claims of a text in rows. There is a row for each phase, core and usage, with the intervals that are claimed so. So each
//! claim is looked at once, however many tasks and locks there are.
ghost use Rattle.std.specs.Prelude.{◌≡◌, ℕ, ◌+◌, ◌*◌, ◌≤◌, ◌&&◌, nat_lt, [], length, replicate, slice_index_or, IfOk, OnOk};
ghost use Rattle.std.specs.List.{All};
ghost use Rattle.rv_assembler.specs.Program.{same_usage};
ghost use Rattle.rv_assembler.specs.Finishing.{interval_within};
ghost use Rattle.rv_assembler.specs.ClaimRows.{usage_number, claim_row, has_claim_row, noted_claim, intervals_at, HasClaims, IsSomeWithin, AreRowsWithin};

use crate::draft::{Claim, Start, Usage};
use crate::uniting::push_if_any;
use dn_base::{Memory, Sequence};
use region_table::Interval;
use std::alloc::Global;

/// The number of a usage among those of a task.
fn usage_number(usage: Usage) -> usize
    ensures { result ≡ usage_number usage }
{
    match usage {
        Usage::Reads => 0,
        Usage::Writes => 1,
        Usage::GuardedReads(lock) => 2 + 2 * lock as usize,
        Usage::GuardedWrites(lock) => 3 + 2 * lock as usize,
    }
}

/// The index of the row of a phase, a core and a usage.
fn claim_row(phase: u32, core: u32, usage: Usage) -> usize
    ensures { result ≡ claim_row phase core usage }
{
    1056 * phase as usize + 66 * core as usize + usage_number(usage)
}

/// Whether there are rows for this core and usage.
fn has_claim_row(core: u32, usage: Usage) -> bool
    ensures { result ≡ has_claim_row core usage }
{
    core < 16 && usage_number(usage) < 66
}

fn same_usage(a: Usage, b: Usage) -> bool
    ensures { result ≡ same_usage a b }
{
    match (a, b) {
        (Usage::Reads, Usage::Reads) | (Usage::Writes, Usage::Writes) => true,
        (Usage::GuardedReads(k), Usage::GuardedReads(l))
        | (Usage::GuardedWrites(k), Usage::GuardedWrites(l)) => k == l,
        _ => false,
    }
}

/// The words of a claim of this usage, if they are words of the memory.
fn interval_in(words: u32, usage: Usage, claim: Claim) -> Option<Interval>
    ensures { result ≡ interval_within words usage claim }
{
    if same_usage(claim.usage, usage) && claim.lo < claim.hi && claim.hi <= words {
        Some(Interval {
            lo: claim.lo,
            hi: claim.hi,
        })
    } else {
        None
    }
}

/// Adds a claim to its row.
fn note(rows: &mut Vec<Sequence<Interval>>, words: u32, claim: Claim) -> Result<(), Memory>
    ensures { OnOk result (rows.new.items ≡ noted_claim words claim rows.old.items) }
{
    let place = claim_row(claim.phase, claim.core, claim.usage);
    if has_claim_row(claim.core, claim.usage) && place < rows.len() {
        let row = &mut rows[place];
        push_if_any(row, interval_in(words, claim.usage, claim))?;
    }
    Ok(())
}

/// `count` rows without intervals.
fn empty_rows(alloc: Global, count: usize) -> Result<Vec<Sequence<Interval>>, Memory>
    ensures { IfOk result (λ rows. rows.items ≡ replicate count []) }
{
    // for the prover alone: the push of a `Sequence` says what the list is, and that of a `Vec` its capacity too
    let mut rows = Sequence::from_vec(Vec::with_capacity(alloc, count)?);
    for _row in 0..count {
        rows.push(Sequence::new(alloc))?;
    }
    Ok(rows.into_vec())
}

/// The rows of `phases` phases, which are numbered from 1, with all claims.
///
/// # Errors
/// `Memory` where there is no room.
pub(crate) fn claim_rows(
    alloc: Global,
    words: u32,
    phases: u32,
    claims: &[Claim],
) -> Result<Vec<Sequence<Interval>>, Memory>
    ensures claims { IfOk result (λ rows. HasClaims words claims.now rows.items) }
    ensures within { IfOk result (λ rows. AreRowsWithin words rows.items) }
    ensures count { IfOk result (λ rows. length rows.items ≡ 1056 * phases + 1056) }
{
    let mut rows = empty_rows(alloc, 1056 * phases as usize + 1056)?;
    for claim in claims {
        note(&mut rows, words, *claim)?;
    }
    Ok(rows)
}

/// The intervals that a task claims by a usage.
#[tactic(auto, using(std::proofs::lemmas::Option::gets))]
pub(crate) fn intervals_of(rows: &[Sequence<Interval>], task: Start, usage: Usage) -> &[Interval]
    ensures { result.now ≡ intervals_at rows.now (claim_row task.phase task.core usage) }
{
    match rows.get(claim_row(task.phase, task.core, usage)) {
        Some(row) => row.as_slice(),
        None => &[],
    }
}
