ghost use Rattle.std.specs.Prelude.{◌≡◌, ℕ, ◌+◌, ◌*◌, ◌/◌, ◌%◌, ◌<◌, ◌≤◌, ◌≢◌, ◌||◌, true, false, Some, None, IfSome, nat_lt, length, slice_index_or};
ghost use Rattle.std.specs.Option.{is_some, option_map};
ghost use Rattle.word_cache.specs.declared.row.Place.{Place};
ghost use Rattle.word_cache.specs.Cache.{Pair, lookup, set_count};
ghost use Rattle.word_cache.specs.Row.{IsPlaceRow, has_word, pairs_by_use, MayHold, IsOwnPlace, IsFreePlace, IsSpot, IsLeastUsed, earlier, place_gives_way, place_may_go, is_from};

use crate::row::{Entry, Place, Row};
use dn_base::{WordId, remainder};

/// Where the word's set begins.
#[inline(always)]
pub(crate) fn start_of(sets: u32, ways: u32, word: WordId) -> usize
    requires sets { 0 < sets }
    requires most_sets { sets ≤ 256 }
    requires most_ways { ways ≤ 16 }
    ensures { result ≡ word.0 % sets * ways }
{
    (remainder(word.0, sets) * ways) as usize
}

/// The place of the word's pair, if it has one. It looks at the word's set alone, and ends at the pair.
#[inline(always)]
pub(crate) fn pair_place(row: &Row, sets: u32, ways: u32, word: WordId) -> Option<usize>
    requires { IsPlaceRow sets ways row.now }
    ensures { IsOwnPlace word.0 row.now result }
{
    let start = start_of(sets, ways, word);
    for index in start..start + ways as usize {
        if row.has_word(index, word) {
            return Some(index);
        }
    }
    None
}

/// A place of the word's set without a pair, if there is one. It ends at the first such place.
#[inline(always)]
pub(crate) fn free_place(row: &Row, sets: u32, ways: u32, word: WordId) -> Option<usize>
    requires { IsPlaceRow sets ways row.now }
    ensures { IsFreePlace sets ways word.0 row.now result }
{
    let start = start_of(sets, ways, word);
    for index in start..start + ways as usize {
        if row.is_free(index) {
            return Some(index);
        }
    }
    None
}

/// Where a word's pair stands or may stand.
#[derive(Clone, Copy)]
pub(crate) enum Spot {
    /// The place of its pair.
    Pair(usize),
    /// It has no pair, and this place of its set has none.
    Free(usize),
    /// It has no pair, and no place of its set is free.
    Nowhere,
}

/// Where the word's pair stands, or else a free place of its set. It looks at the word's set alone, and for a free place only where the
/// word has no pair.
#[inline(always)]
pub(crate) fn spot_of(row: &Row, sets: u32, ways: u32, word: WordId) -> Spot
    requires { IsPlaceRow sets ways row.now }
    ensures { IsSpot sets ways word.0 row.now result }
{
    match pair_place(row, sets, ways, word) {
        Some(place) => Spot::Pair(place),
        None => match free_place(row, sets, ways, word) {
            Some(place) => Spot::Free(place),
            None => Spot::Nowhere,
        },
    }
}

/// As `spot_of`. The hint is where the word's pair may stand: where it stands there, no other place is looked at.
#[inline(always)]
pub(crate) fn spot_near(row: &Row, sets: u32, ways: u32, word: WordId, hint: Option<usize>) -> Spot
    requires { IsPlaceRow sets ways row.now }
    ensures { IsSpot sets ways word.0 row.now result }
{
    match hint {
        Some(place) if place < row.len() && row.has_word(place, word) => Spot::Pair(place),
        _ => spot_of(row, sets, ways, word),
    }
}

/// The place of the word's pair, if it has one. The hint is where it may stand.
#[inline(always)]
pub(crate) fn place_near(
    row: &Row,
    sets: u32,
    ways: u32,
    word: WordId,
    hint: Option<usize>,
) -> Option<usize>
    requires { IsPlaceRow sets ways row.now }
    ensures { IsOwnPlace word.0 row.now result }
{
    match spot_near(row, sets, ways, word, hint) {
        Spot::Pair(place) => Some(place),
        Spot::Free(_) | Spot::Nowhere => None,
    }
}

/// The entry at a place; None where no pair stands there.
#[inline(always)]
pub(crate) fn entry_at(row: &[Place], place: usize) -> Option<Entry>
    requires { place < length row.now }
    ensures { (d : Place) → result ≡ option_map (λ (p : Pair). p.1) (slice_index_or row.now place d).pair }
{
    match row[place].pair {
        Some((_, entry)) => Some(entry),
        None => None,
    }
}

/// The place for the word's pair: the one that it has, or a free one of its set. The word has a pair, or its set has room. The
/// hint is where its pair may stand.
#[inline(always)]
pub(crate) fn choose(row: &Row, sets: u32, ways: u32, word: WordId, hint: Option<usize>) -> usize
    requires row { IsPlaceRow sets ways row.now }
    requires room { (is_some (lookup word.0 (pairs_by_use row.now)) || nat_lt (set_count sets word.0 (pairs_by_use row.now)) ways) ≡ true }
    ensures within { result < length row.now }
    ensures set { result / ways ≡ word.0 % sets }
    ensures may { (d : Place) → MayHold word.0 (slice_index_or row.now result d).pair }
    ensures others { (j : ℕ) (d : Place) → j < length row.now → j ≢ result → has_word word.0 (slice_index_or row.now j d) ≡ false }
{
    match spot_near(row, sets, ways, word, hint) {
        Spot::Pair(place) | Spot::Free(place) => place,
        Spot::Nowhere => unreachable!(),
    }
}

/// A place for the pair of a word that has none, and whose set has room. The hint is a place of the set that may be free; if it
/// is, no other place is looked at.
#[inline(always)]
pub(crate) fn choose_free(
    row: &Row,
    sets: u32,
    ways: u32,
    word: WordId,
    hint: Option<usize>,
) -> usize
    requires row { IsPlaceRow sets ways row.now }
    requires none { lookup word.0 (pairs_by_use row.now) ≡ None }
    requires room { nat_lt (set_count sets word.0 (pairs_by_use row.now)) ways ≡ true }
    ensures within { result < length row.now }
    ensures set { result / ways ≡ word.0 % sets }
    ensures may { (d : Place) → MayHold word.0 (slice_index_or row.now result d).pair }
    ensures others { (j : ℕ) (d : Place) → j < length row.now → j ≢ result → has_word word.0 (slice_index_or row.now j d) ≡ false }
{
    let start = start_of(sets, ways, word);
    match hint {
        Some(place) if start <= place && place < start + ways as usize && row.is_free(place) =>
            place,
        _ => choose(row, sets, ways, word, None),
    }
}

/// Of the best place so far and this one, the one that was used earlier.
fn earlier_of(row: &[Place], best: Option<usize>, index: usize) -> usize
    requires index { index < length row.now }
    requires best { IfSome best (λ k. k < length row.now) }
    ensures { (d : Place) → result ≡ earlier row.now best index d }
{
    match best {
        Some(other) if row[other].used <= row[index].used => other,
        _ => index,
    }
}

/// Whether the place has a pair that may be evicted.
fn may_go(place: &Place) -> bool
    ensures { result ≡ place_may_go place.now }
{
    match place.pair {
        Some((_, entry)) => entry.is_evictable(),
        None => false,
    }
}

/// The place of the word's set that was used least recently among those with a pair that may be evicted.
pub(crate) fn victim_place(row: &[Place], sets: u32, ways: u32, word: WordId) -> Option<usize>
    requires { IsPlaceRow sets ways row.now }
    ensures { IsLeastUsed (place_gives_way sets word.0) row.now (word.0 % sets * ways) (word.0 % sets * ways + ways) result }
{
    let start = start_of(sets, ways, word);
    let mut best: Option<usize> = None;
    for index in start..start + ways as usize {
        if may_go(&row[index]) {
            best = Some(earlier_of(row, best, index));
        }
    }
    best
}

/// The place with the least time that is at least `time`; None if every place was used before it.
pub(crate) fn least_from(row: &[Place], time: u64) -> Option<usize>
    ensures { IsLeastUsed (is_from time) row.now 0 (length row.now) result }
{
    let mut best: Option<usize> = None;
    for index in 0..row.len() {
        if row[index].used >= time {
            best = Some(earlier_of(row, best, index));
        }
    }
    best
}
