ghost use Rattle.std.specs.Prelude.{◌≡◌, ℕ, ◌+◌, ◌*◌, ◌<◌, ◌≤◌, length};
ghost use Rattle.word_cache.specs.Row.{pairs_by_use, IsPlaceRow, AreFrom, AreBefore, IsCacheRow, last_time};

use crate::places::least_from;
use crate::row::{Place, Row};

/// The last time of the clock.
pub(crate) const LAST: u64 = u64::MAX;

/// Numbers the times of a row's places from 1 in their order, and gives the next time. Takes no memory: in each step the place
/// with the least time that isn't renumbered yet gets the next number.
fn renumber(places: &mut Row, sets: u32, ways: u32) -> u64
    requires { IsPlaceRow sets ways places.old }
    ensures row { IsPlaceRow sets ways places.new }
    ensures pairs { pairs_by_use places.new ≡ pairs_by_use places.old }
    ensures first { AreFrom 1 places.new }
    ensures before { AreBefore result places.new }
    ensures next { result ≡ sets * ways + 1 }
    ensures within { result ≤ 4097 }
{
    let mut time = 1;
    while let Some(place) = least_from(places.as_slice(), time) {
        let Place { pair, used: _ } = places.at(place);
        places.set(place, Place { pair, used: time });
        time += 1;
    }
    time
}

/// A time behind those of all places. Only where the clock stands at its last time, all are numbered from 1 again.
#[inline(always)]
fn free_time(places: &mut Row, clock: u64, sets: u32, ways: u32) -> u64
    requires { IsCacheRow sets ways clock places.old }
    ensures row { IsPlaceRow sets ways places.new }
    ensures pairs { pairs_by_use places.new ≡ pairs_by_use places.old }
    ensures before { AreBefore result places.new }
    ensures within { result < last_time }
    ensures kept { clock < last_time → (places.new ≡ places.old) × (result ≡ clock) }
    ensures anew { clock ≡ last_time → result ≡ sets * ways + 1 }
{
    if clock == LAST {
        renumber(places, sets, ways)
    } else {
        clock
    }
}

/// A time behind those of all places, and the clock behind it.
#[inline(always)]
pub(crate) fn tick(places: &mut Row, clock: &mut u64, sets: u32, ways: u32) -> u64
    requires { IsCacheRow sets ways clock.old places.old }
    ensures row { IsPlaceRow sets ways places.new }
    ensures pairs { pairs_by_use places.new ≡ pairs_by_use places.old }
    ensures before { AreBefore result places.new }
    ensures clock { clock.new ≡ result + 1 }
    ensures kept { clock.old < last_time → (places.new ≡ places.old) × (result ≡ clock.old) }
{
    let time = free_time(places, *clock, sets, ways);
    *clock = time + 1;
    time
}
