ghost use Rattle.std.specs.Prelude.{◌≡◌, ◌<◌, ◌≤◌, true, IfSome, length, nat_lt, slice_index_or};
ghost use Rattle.std.specs.List.{find, filter};
ghost use Rattle.std.specs.Option.{option_map};
ghost use Rattle.word_cache.specs.declared.row.Place.{Place};
ghost use Rattle.word_cache.specs.Cache.{Pair, in_set, lookup, set_count, gives_way, may_go, IsProbe};
ghost use Rattle.word_cache.specs.Row.{IsPlaceRow, HaveDistinctTimes, pairs_by_use};

use crate::places::{Spot, entry_at, free_place, pair_place, spot_of, victim_place};
use crate::row::{Entry, Place, Probe, Row};
use dn_base::WordId;

/// The word's entry, if it has a pair. It looks at the word's set alone.
#[inline(always)]
pub(crate) fn entry_of(row: &Row, sets: u32, ways: u32, word: WordId) -> Option<Entry>
    requires { IsPlaceRow sets ways row.now }
    ensures { result ≡ lookup word.0 (pairs_by_use row.now) }
{
    match pair_place(row, sets, ways, word) {
        Some(place) => entry_at(row.as_slice(), place),
        None => None,
    }
}

/// What the row has for the word. It looks at the word's set alone.
#[inline(always)]
pub(crate) fn probe_of(row: &Row, sets: u32, ways: u32, word: WordId) -> Probe
    requires { IsPlaceRow sets ways row.now }
    ensures { IsProbe result (lookup word.0 (pairs_by_use row.now)) (nat_lt (set_count sets word.0 (pairs_by_use row.now)) ways) }
{
    match spot_of(row, sets, ways, word) {
        Spot::Pair(place) => match entry_at(row.as_slice(), place) {
            Some(entry) => Probe::Hit { place, entry },
            None => unreachable!(),
        },
        Spot::Free(place) => Probe::Room { place },
        Spot::Nowhere => Probe::Full,
    }
}

/// Whether the word's set has a place without a pair.
pub(crate) fn has_free(row: &Row, sets: u32, ways: u32, word: WordId) -> bool
    requires { IsPlaceRow sets ways row.now }
    ensures { result ≡ nat_lt (set_count sets word.0 (pairs_by_use row.now)) ways }
{
    match free_place(row, sets, ways, word) {
        Some(_) => true,
        None => false,
    }
}

/// The word at a place; None where no pair stands there.
fn word_at(row: &[Place], place: usize) -> Option<WordId>
    requires { place < length row.now }
    ensures { (d : Place) → result ≡ option_map (λ (p : Pair). p.0) (slice_index_or row.now place d).pair }
{
    match row[place].pair {
        Some((word, _)) => Some(word),
        None => None,
    }
}

/// The word that was used least recently among those of the word's set that may be evicted.
pub(crate) fn victim_in(row: &[Place], sets: u32, ways: u32, word: WordId) -> Option<WordId>
    requires { IsPlaceRow sets ways row.now }
    ensures value { result ≡ option_map (λ (p : Pair). p.0) (find (gives_way sets word.0) (pairs_by_use row.now)) }
    ensures evictable { IfSome result (λ w. may_go (lookup w.0 (pairs_by_use row.now)) ≡ true) }
{
    match victim_place(row, sets, ways, word) {
        Some(place) => word_at(row, place),
        None => None,
    }
}

/// The places of a set.
pub(crate) fn set_of(row: &[Place], sets: u32, ways: u32, set: u32) -> &[Place]
    requires row { IsPlaceRow sets ways row.now }
    requires set { set < sets }
    ensures count { length result.now ≡ ways }
    ensures pairs { pairs_by_use result.now ≡ filter (in_set sets set) (pairs_by_use row.now) }
    ensures times { HaveDistinctTimes result.now }
{
    let start = (set * ways) as usize;
    &row[start..start + ways as usize]
}
