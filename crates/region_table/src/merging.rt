ghost use Rattle.std.specs.Prelude.{◌≡◌, ℕ, ◌<◌, ◌≤◌, ◌||◌, ◌⊎◌, IfOk, OnOk, IfSome, IfNone, length, true, false};
ghost use Rattle.std.specs.List.{All};
ghost use Rattle.std.specs.List.Sorted.{IsNonDecreasingBy, IsPermutation};
ghost use Rattle.region_table.specs.declared.interval.Interval.{Interval};
ghost use Rattle.region_table.specs.Merging.{IsNext};
ghost use Rattle.region_table.specs.Words.{has, in_interval, IsCanonical, IsUnion, IsCommon, IsLeastCommon};

use crate::interval::Interval;
use dn_base::{Memory, WordId};
use std::alloc::Global;

/// Adds the words of an interval that begins no earlier than those in `out`: if it touches or overlaps the last one, the two
/// become one, else it is appended.
pub(crate) fn join(out: &mut Vec<Interval>, next: Interval) -> Result<(), Memory>
    requires some { next.lo < next.hi }
    requires canonical { IsCanonical out.old.items }
    requires rising { All (λ (i : Interval). i.lo ≤ next.lo) out.old.items }
    ensures canonical { OnOk result (IsCanonical out.new.items) }
    ensures rising { OnOk result (All (λ (i : Interval). i.lo ≤ next.lo) out.new.items) }
    ensures words { OnOk result ((w : ℕ) → has out.new.items w ≡ (has out.old.items w || in_interval next w)) }
{
    match out.pop() {
        None => out.push(next)?,
        Some(last) if last.hi < next.lo => {
            out.push(last)?;
            out.push(next)?;
        }
        Some(last) if last.hi < next.hi => out.push(Interval {
            lo: last.lo,
            hi: next.hi,
        })?,
        Some(last) => out.push(last)?,
    }
    Ok(())
}

/// The same intervals, by their starts.
pub(crate) fn by_starts(mut intervals: Vec<Interval>) -> Vec<Interval>
    ensures same { IsPermutation intervals.items result.items }
    ensures rising { IsNonDecreasingBy (λ (i : Interval). i.lo) result.items }
{
    intervals.sort_unstable_by_key(|interval| interval.lo);
    intervals
}

/// The intervals that have the words of these, which rise by their starts.
pub(crate) fn all_joined(alloc: Global, rising: &[Interval]) -> Result<Vec<Interval>, Memory>
    requires some { All (λ (i : Interval). i.lo < i.hi) rising.now }
    requires rising { IsNonDecreasingBy (λ (i : Interval). i.lo) rising.now }
    ensures canonical { IfOk result (λ out. IsCanonical out.items) }
    ensures words { IfOk result (λ out. (w : ℕ) → has out.items w ≡ has rising.now w) }
{
    let mut out = Vec::new(alloc);
    for interval in rising {
        join(&mut out, *interval)?;
    }
    Ok(out)
}

/// Whether interval `i` of `a` comes before interval `j` of `b`: the one that begins earlier does.
fn is_left_next(a: &[Interval], i: usize, b: &[Interval], j: usize) -> bool
    requires { (i < length a.now) ⊎ (j < length b.now) }
    ensures left { result ≡ true → IsNext a.now i b.now j }
    ensures right { result ≡ false → IsNext b.now j a.now i }
{
    if i < a.len() && j < b.len() {
        a[i].lo <= b[j].lo
    } else {
        i < a.len()
    }
}

/// The intervals that have the words of `a` and those of `b`.
pub(crate) fn merge(alloc: Global, a: &[Interval], b: &[Interval]) -> Result<Vec<Interval>, Memory>
    requires left { IsCanonical a.now }
    requires right { IsCanonical b.now }
    ensures canonical { IfOk result (λ out. IsCanonical out.items) }
    ensures words { IfOk result (λ out. IsUnion a.now b.now out.items) }
{
    let mut out = Vec::new(alloc);
    let mut i = 0;
    let mut j = 0;
    while i < a.len() || j < b.len() {
        if is_left_next(a, i, b, j) {
            join(&mut out, a[i])?;
            i += 1;
        } else {
            join(&mut out, b[j])?;
            j += 1;
        }
    }
    Ok(out)
}

/// The least word that is in both lists.
pub(crate) fn least_common_word(a: &[Interval], b: &[Interval]) -> Option<WordId>
    requires left { IsCanonical a.now }
    requires right { IsCanonical b.now }
    ensures some { IfSome result (λ word. IsLeastCommon a.now b.now word.0) }
    ensures none { IfNone result ((w : ℕ) → IsCommon a.now b.now w → ⊥) }
{
    let mut i = 0;
    let mut j = 0;
    while i < a.len() && j < b.len() {
        if a[i].hi <= b[j].lo {
            i += 1;
        } else if b[j].hi <= a[i].lo {
            j += 1;
        } else if a[i].lo < b[j].lo {
            return Some(WordId(b[j].lo));
        } else {
            return Some(WordId(a[i].lo));
        }
    }
    None
}
