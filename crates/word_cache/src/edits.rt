ghost use Rattle.std.specs.Prelude.{◌≡◌, ◌≢◌, ◌||◌, ℕ, true, None, nat_lt};
ghost use Rattle.std.specs.Option.{is_some};
ghost use Rattle.word_cache.specs.Cache.{lookup, set_count, put, touched, changed, without};
ghost use Rattle.word_cache.specs.Row.{IsPlaceRow, IsCacheRow, pairs_by_use};

use crate::places::{choose, choose_free, place_near};
use crate::row::{Entry, Place, Row};
use crate::times::tick;
use dn_base::WordId;

/// Gives the word this entry, and makes its pair the one used last. The hint is where its pair may stand.
#[inline(always)]
pub(crate) fn write_last(
    places: &mut Row,
    clock: &mut u64,
    sets: u32,
    ways: u32,
    hint: Option<usize>,
    word: WordId,
    entry: Entry,
)
    requires row { IsCacheRow sets ways clock.old places.old }
    requires room { (is_some (lookup word.0 (pairs_by_use places.old)) || nat_lt (set_count sets word.0 (pairs_by_use places.old)) ways) ≡ true }
    ensures row { IsCacheRow sets ways clock.new places.new }
    ensures pairs { pairs_by_use places.new ≡ put word entry (pairs_by_use places.old) }
{
    let used = tick(places, clock, sets, ways);
    let place = choose(places, sets, ways, word, hint);
    places.set(
        place,
        Place {
            pair: Some((word, entry)),
            used,
        },
    );
}

/// Gives the word, which has no pair, this entry, and makes its pair the one used last. Its set has room. The hint is a place
/// of the set that may be free.
#[inline(always)]
pub(crate) fn write_new(
    places: &mut Row,
    clock: &mut u64,
    sets: u32,
    ways: u32,
    hint: Option<usize>,
    word: WordId,
    entry: Entry,
)
    requires row { IsCacheRow sets ways clock.old places.old }
    requires none { lookup word.0 (pairs_by_use places.old) ≡ None }
    requires room { nat_lt (set_count sets word.0 (pairs_by_use places.old)) ways ≡ true }
    ensures row { IsCacheRow sets ways clock.new places.new }
    ensures pairs { pairs_by_use places.new ≡ put word entry (pairs_by_use places.old) }
{
    let used = tick(places, clock, sets, ways);
    let place = choose_free(places, sets, ways, word, hint);
    places.set(
        place,
        Place {
            pair: Some((word, entry)),
            used,
        },
    );
}

/// Gives the word's pair this entry. The hint is where the pair may stand.
#[inline(always)]
pub(crate) fn change_entry(
    places: &mut Row,
    sets: u32,
    ways: u32,
    hint: Option<usize>,
    word: WordId,
    entry: Entry,
)
    requires row { IsPlaceRow sets ways places.old }
    requires there { lookup word.0 (pairs_by_use places.old) ≢ None }
    ensures row { (clock : ℕ) → IsCacheRow sets ways clock places.old → IsCacheRow sets ways clock places.new }
    ensures pairs { pairs_by_use places.new ≡ changed word.0 entry (pairs_by_use places.old) }
{
    if let Some(place) = place_near(places, sets, ways, word, hint) {
        let Place { pair: _, used } = places.at(place);
        places.set(
            place,
            Place {
                pair: Some((word, entry)),
                used,
            },
        );
    }
}

/// Makes the word's pair the one used last. The hint is where it may stand.
#[inline(always)]
pub(crate) fn use_again(
    places: &mut Row,
    clock: &mut u64,
    sets: u32,
    ways: u32,
    hint: Option<usize>,
    word: WordId,
)
    requires row { IsCacheRow sets ways clock.old places.old }
    requires there { lookup word.0 (pairs_by_use places.old) ≢ None }
    ensures row { IsCacheRow sets ways clock.new places.new }
    ensures pairs { pairs_by_use places.new ≡ touched word (pairs_by_use places.old) }
{
    let now = tick(places, clock, sets, ways);
    if let Some(place) = place_near(places, sets, ways, word, hint) {
        let Place { pair, used: _ } = places.at(place);
        places.set(place, Place { pair, used: now });
    }
}

/// Takes the word's pair out, if it has one. The hint is where the pair may stand.
#[inline(always)]
pub(crate) fn take_out(places: &mut Row, sets: u32, ways: u32, hint: Option<usize>, word: WordId)
    requires row { IsPlaceRow sets ways places.old }
    ensures row { (clock : ℕ) → IsCacheRow sets ways clock places.old → IsCacheRow sets ways clock places.new }
    ensures pairs { pairs_by_use places.new ≡ without word.0 (pairs_by_use places.old) }
{
    if let Some(place) = place_near(places, sets, ways, word, hint) {
        let Place { pair: _, used } = places.at(place);
        places.set(place, Place { pair: None, used });
    }
}
