//! Whether the locks of a phase have a circle, on which each next one is acquired by some task while it holds the one before.
ghost use Rattle.std.specs.Prelude.{◌≡◌, ◌^◌, ◌<◌, ◌≤◌, ◌==◌, ◌&&◌, ◌||◌, ℕ, length, slice_index};
ghost use Rattle.std.specs.List.{find, range_with_len};
ghost use Rattle.rv_core.specs.Access.{is_held};
ghost use Rattle.common_outcomes.specs.Phases.{is_nested, leads};
ghost use Rattle.common_outcomes.specs.Answer.{first_stuck};

use crate::summary::{Outline, has_lock};
use common_outcomes::Open;
use dn_base::{LockId, PhaseId};

/// Whether some task acquires `next` while it holds `lock`.
fn is_nested(all: &[Outline<'_>], lock: u32, next: u32) -> bool
    requires lock { lock < 32 }
    requires next { next < 32 }
    ensures { result ≡ is_nested all.now lock next }
{
    for outline in all {
        if has_lock(outline.over[next as usize], lock) {
            return true;
        }
    }
    false
}

/// The bit of a lock.
fn bit(lock: u32) -> u32
    requires { lock < 32 }
    ensures { result ≡ 2 ^ lock }
{
    1 << lock
}

/// These locks, and this one too if it is added.
fn with_lock(locks: u32, lock: u32, added: bool) -> u32
    requires { lock < 32 }
    ensures { (b : ℕ) → is_held result b ≡ (is_held locks b || (b == lock && added)) }
{
    if added { locks | bit(lock) } else { locks }
}

/// The locks that some task acquires while it holds this one, as bits.
fn next_of(all: &[Outline<'_>], lock: u32) -> u32
    requires { lock < 32 }
    ensures { (b : ℕ) → b < 32 → is_held result b ≡ is_nested all.now lock b }
{
    let mut row = 0;
    for next in 0..32 {
        row = with_lock(row, next, is_nested(all, lock, next));
    }
    row
}

/// The same for each lock.
fn rows_of(all: &[Outline<'_>]) -> [u32; 32]
    ensures { (a b : ℕ) → a < 32 → b < 32 → is_held (slice_index result a) b ≡ is_nested all.now a b }
{
    let mut rows = [0; 32];
    for lock in 0..32 {
        rows[lock] = next_of(all, lock as u32);
    }
    rows
}

/// The locks to which ways lead from a lock, with those to which `through` leads, if one of the ways comes to it.
fn pass_through(row: u32, through: u32, lock: u32) -> u32
    requires { lock < 32 }
    ensures { (b : ℕ) → is_held result b ≡ (is_held row b || (is_held row lock && is_held through b)) }
{
    if has_lock(row, lock) {
        row | through
    } else {
        row
    }
}

/// Adds the ways that pass this lock.
fn add_through(rows: &mut [u32], lock: u32)
    requires lock { lock < 32 }
    requires count { length rows.old ≡ 32 }
    ensures count { length rows.new ≡ 32 }
    ensures ways { (a b : ℕ) → a < 32 → is_held (slice_index rows.new a) b
        ≡ (is_held (slice_index rows.old a) b || (is_held (slice_index rows.old a) lock && is_held (slice_index rows.old lock) b)) }
{
    let through = rows[lock as usize];
    for from in 0..32 {
        rows[from] = pass_through(rows[from], through, lock);
    }
}

/// For each lock the locks to which a way leads from it that passes locks below `most` alone, as bits.
pub(crate) fn all_leading(all: &[Outline<'_>], most: u32) -> [u32; 32]
    requires { most ≤ 32 }
    ensures { (a b : ℕ) → a < 32 → b < 32 → is_held (slice_index result a) b ≡ leads all.now most a b }
{
    let mut rows = rows_of(all);
    for lock in 0..most {
        add_through(&mut rows, lock);
    }
    rows
}

/// The least lock below `most` that is in its own row.
fn in_own_row(rows: &[u32; 32], most: u32) -> Option<u32>
    requires { most ≤ 32 }
    ensures { result ≡ find (λ (l : ℕ). is_held (slice_index rows.now l) l) (range_with_len 0 most) }
{
    for lock in 0..most {
        if has_lock(rows[lock as usize], lock) {
            return Some(lock);
        }
    }
    None
}

/// The least lock on a circle.
pub(crate) fn first_stuck(phase: PhaseId, all: &[Outline<'_>]) -> Option<Open>
    ensures { result ≡ first_stuck phase.0 all.now }
{
    let rows = all_leading(all, 32);
    match in_own_row(&rows, 32) {
        Some(lock) => Some(Open::Stuck {
            phase,
            lock: LockId(lock),
        }),
        None => None,
    }
}
