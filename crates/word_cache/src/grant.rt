ghost use Rattle.std.specs.Prelude.{◌≡◌, ℕ, ◌+◌, ◌≤◌, ◌&&◌, nat_le, false, List, [], ◌∷◌, All};
ghost use Rattle.write_signature.specs.Signature.{may_hold};
ghost use Rattle.region_table.specs.declared.interval.Interval.{Interval};
ghost use Rattle.word_cache.specs.Cache.{lookup, dropped_signed};
ghost use Rattle.word_cache.specs.Row.{IsPlaceRow, IsCacheRow, pairs_by_use, is_copy, interval_words};

use crate::edits::take_out;
use crate::looks::entry_of;
use crate::row::{Entry, Row};
use crate::sweep::sweep_grant;
use dn_base::{PhaseId, WordId};
use region_table::{Interval, WordSet};
use write_signature::Signature;

/// Whether the entry is a copy.
fn is_copy(entry: Option<Entry>) -> bool
    ensures { result ≡ is_copy entry }
{
    match entry {
        Some(Entry::Valid { .. }) => true,
        _ => false,
    }
}

/// Whether the word has a copy that may be stale at a grant.
fn is_stale(
    row: &Row,
    sets: u32,
    ways: u32,
    signature: &Signature,
    phase: PhaseId,
    word: WordId,
) -> bool
    requires { IsPlaceRow sets ways row.now }
    ensures { result ≡ (may_hold signature.now word.0 phase.0 && is_copy (lookup word.0 (pairs_by_use row.now))) }
{
    signature.may_hold(word, phase) && is_copy(entry_of(row, sets, ways, word))
}

/// Drops the word's copy, if there is one that may be stale at a grant.
fn drop_word(
    places: &mut Row,
    sets: u32,
    ways: u32,
    signature: &Signature,
    phase: PhaseId,
    word: WordId,
)
    requires row { IsPlaceRow sets ways places.old }
    ensures row { (clock : ℕ) → IsCacheRow sets ways clock places.old → IsCacheRow sets ways clock places.new }
    ensures pairs { pairs_by_use places.new ≡ dropped_signed signature.now phase.0 (record { lo = word.0; hi = word.0 + 1 } ∷ []) (pairs_by_use places.old) }
{
    if is_stale(places, sets, ways, signature, phase, word) {
        take_out(places, sets, ways, None, word);
    }
}

/// Drops what may be stale at a grant of the words of an interval, word by word.
fn drop_interval(
    places: &mut Row,
    sets: u32,
    ways: u32,
    signature: &Signature,
    phase: PhaseId,
    interval: Interval,
)
    requires row { IsPlaceRow sets ways places.old }
    requires order { interval.lo ≤ interval.hi }
    ensures row { (clock : ℕ) → IsCacheRow sets ways clock places.old → IsCacheRow sets ways clock places.new }
    ensures pairs { pairs_by_use places.new ≡ dropped_signed signature.now phase.0 (interval ∷ []) (pairs_by_use places.old) }
{
    for number in interval.lo..interval.hi {
        drop_word(places, sets, ways, signature, phase, WordId(number));
    }
}

/// Drops what may be stale at a grant of the words of intervals, word by word.
fn drop_each(
    places: &mut Row,
    sets: u32,
    ways: u32,
    signature: &Signature,
    phase: PhaseId,
    intervals: &[Interval],
)
    requires row { IsPlaceRow sets ways places.old }
    requires order { All (λ (i : Interval). i.lo ≤ i.hi) intervals.now }
    ensures row { (clock : ℕ) → IsCacheRow sets ways clock places.old → IsCacheRow sets ways clock places.new }
    ensures pairs { pairs_by_use places.new ≡ dropped_signed signature.now phase.0 intervals.now (pairs_by_use places.old) }
{
    for interval in intervals {
        drop_interval(places, sets, ways, signature, phase, *interval);
    }
}

/// Whether the intervals together have at most `most` words.
fn are_within(intervals: &[Interval], most: usize) -> bool
    ensures { result ≡ nat_le (interval_words intervals.now) most }
{
    let mut left = most;
    for interval in intervals {
        let size = interval.hi.saturating_sub(interval.lo) as usize;
        if left < size {
            return false;
        }
        left -= size;
    }
    true
}

/// Drops what may be stale at a grant. A look-up of a word passes over one set, and a sweep over all of them. So it goes word
/// by word if the words are no more than the sets, otherwise place by place.
fn drop_listed(
    places: &mut Row,
    sets: u32,
    ways: u32,
    signature: &Signature,
    phase: PhaseId,
    words: &WordSet,
)
    requires row { IsPlaceRow sets ways places.old }
    ensures row { (clock : ℕ) → IsCacheRow sets ways clock places.old → IsCacheRow sets ways clock places.new }
    ensures pairs { pairs_by_use places.new ≡ dropped_signed signature.now phase.0 words.now (pairs_by_use places.old) }
{
    if are_within(words.intervals(), sets as usize) {
        drop_each(places, sets, ways, signature, phase, words.intervals());
    } else {
        sweep_grant(places, signature, phase, words);
    }
}

/// Whether some pair may be stale at a grant: there is a copy, and the signature has a bit of this phase.
fn may_have_stale(places: &Row, signature: &Signature, phase: PhaseId) -> bool
    ensures { result ≡ false → (words : List Interval) → dropped_signed signature.now phase.0 words (pairs_by_use places.now) ≡ pairs_by_use places.now }
{
    places.copies() != 0 && signature.in_phase(phase) != Signature::empty(phase)
}

/// Drops what may be stale at a grant.
pub(crate) fn drop_stale(
    places: &mut Row,
    sets: u32,
    ways: u32,
    signature: &Signature,
    phase: PhaseId,
    words: &WordSet,
)
    requires row { IsPlaceRow sets ways places.old }
    ensures row { (clock : ℕ) → IsCacheRow sets ways clock places.old → IsCacheRow sets ways clock places.new }
    ensures pairs { pairs_by_use places.new ≡ dropped_signed signature.now phase.0 words.now (pairs_by_use places.old) }
{
    if may_have_stale(places, signature, phase) {
        drop_listed(places, sets, ways, signature, phase, words);
    }
}
