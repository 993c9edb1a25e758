ghost use Rattle.std.specs.Prelude.{◌≤◌};

use dn_base::{Memory, WordId};
use std::alloc::Global;
use std::test::Fail;
use word_cache::{Entry, Place, Probe, WordCache};

/// A copy of 0 that is not marked.
const COPY: Entry = Entry::Valid {
    value: 0,
    marked: false,
};

/// The core is the owner of a word with the value 1.
const OWN: Entry = Entry::Registered {
    value: 1,
    pending: false,
};

/// The core will be the owner of a word with the value 1.
const PENDING: Entry = Entry::Registered {
    value: 1,
    pending: true,
};

/// What is done with a word of a cache.
#[derive(Clone, Copy)]
enum Act {
    Set(Entry),
    Change(Entry),
    Touch,
    Remove,
}

/// Which calls do it: those that take a word alone, or those that take a hint too, which is the place that a probe of the word
/// gives, or a neighbour of that place.
#[derive(Clone, Copy)]
enum Calls {
    ByWord,
    Probed,
    Misled,
}

/// Does this with the word, where the cache has a place for it.
fn apply(cache: &mut WordCache, word: WordId, what: Act) {
    let is_there = cache.get(word).is_some();
    match what {
        Act::Set(entry) => {
            if is_there || cache.room(word) {
                cache.set(word, entry);
            }
        }
        Act::Change(entry) if is_there => cache.change(word, entry),
        Act::Touch if is_there => cache.touch(word),
        Act::Change(_) | Act::Touch => {}
        Act::Remove => cache.remove(word),
    }
}

/// Does this with the word, where the cache has a place for it. The hint is the probe's place, with these bits turned.
fn apply_at(cache: &mut WordCache, word: WordId, what: Act, turned: usize) {
    match cache.probe(word) {
        Probe::Hit { place, .. } => {
            let hint = Some(place ^ turned);
            match what {
                Act::Set(entry) => cache.set_at(hint, word, entry),
                Act::Change(entry) => cache.change_at(hint, word, entry),
                Act::Touch => cache.touch_at(hint, word),
                Act::Remove => cache.remove_at(hint, word),
            }
        }
        Probe::Room { place } => {
            if let Act::Set(entry) = what {
                cache.add_at(Some(place ^ turned), word, entry);
            }
        }
        Probe::Full => {}
    }
}

/// A cache of two ways to a set after these acts, each with its word.
fn after(alloc: Global, sets: u32, acts: &[(u32, Act)], calls: Calls) -> Result<WordCache, Memory>
    requires some { 1 ≤ sets }
    requires few { sets ≤ 2 }
{
    let mut cache = WordCache::new(alloc, sets, 2)?;
    for (word, what) in acts {
        match calls {
            Calls::ByWord => apply(&mut cache, WordId(*word), *what),
            Calls::Probed => apply_at(&mut cache, WordId(*word), *what, 0),
            Calls::Misled => apply_at(&mut cache, WordId(*word), *what, 1),
        }
    }
    Ok(cache)
}

/// A set of two ways: copies of 5 and then 7 as its own. The one that is used least recently gives way, if it isn't pending.
const ONE_SET: [(u32, Act); 5] = [
    (5, Act::Set(COPY)),
    (7, Act::Set(OWN)),
    (5, Act::Touch),
    (7, Act::Change(PENDING)),
    (5, Act::Remove),
];

/// Copies of 4, 5 and 6 in two sets of two ways, and then a use of 4.
const TWO_SETS: [(u32, Act); 4] = [
    (4, Act::Set(COPY)),
    (5, Act::Set(COPY)),
    (6, Act::Set(COPY)),
    (4, Act::Touch),
];

/// The number of the word that gives way to another word.
fn victim(cache: &WordCache, word: u32) -> Option<u32> {
    cache.victim(WordId(word)).map(|gone| gone.0)
}

/// When the word was last used, where the set has it.
fn last_use(places: &[Place], word: u32) -> Option<u64> {
    for place in places {
        if let Some((WordId(number), _entry)) = place.pair
            && number == word
        {
            return Some(place.used);
        }
    }
    None
}

/// The word that gives way to word 9 after these acts in one set, and whether there is room for word 9.
fn seen(alloc: Global, acts: &[(u32, Act)], calls: Calls) -> Result<(Option<u32>, bool), Memory> {
    let cache = after(alloc, 1, acts, calls)?;
    Ok((victim(&cache, 9), cache.room(WordId(9))))
}

/// The first number of acts in the one set after which something else is seen.
fn first_wrong(alloc: Global, calls: Calls) -> Result<Option<usize>, Memory> {
    for (acts, gone, room) in [
        (2, Some(5), false),
        (3, Some(7), false),
        (4, Some(5), false),
        (5, None, true),
    ] {
        if seen(alloc, &ONE_SET[..acts], calls)? != (gone, room) {
            return Ok(Some(acts));
        }
    }
    Ok(None)
}

/// What is seen of the two sets after all acts: the words that give way in each of them, how many places the first has, and
/// when words 6 and 4 were used there.
#[derive(Clone, Copy)]
struct Sets {
    gone: (Option<u32>, Option<u32>),
    places: usize,
    six: Option<u64>,
    four: Option<u64>,
}

fn both_sets(alloc: Global, calls: Calls) -> Result<Sets, Memory> {
    let cache = after(alloc, 2, &TWO_SETS, calls)?;
    let places = cache.places(0);
    Ok(Sets {
        gone: (victim(&cache, 8), victim(&cache, 7)),
        places: places.len(),
        six: last_use(places, 6),
        four: last_use(places, 4),
    })
}

#[test]
fn the_least_recently_used_gives_way(rt: HostRuntime) -> Result<(), Fail> {
    for calls in [Calls::ByWord, Calls::Probed, Calls::Misled] {
        assert_eq!(rt; first_wrong(rt.alloc(), calls)?, None);
    }
    Ok(())
}

#[test]
fn each_set_has_its_own_order(rt: HostRuntime) -> Result<(), Fail> {
    for calls in [Calls::ByWord, Calls::Probed, Calls::Misled] {
        let sets = both_sets(rt.alloc(), calls)?;
        assert_eq!(rt; (sets.gone, sets.places), ((Some(6), Some(5)), 2));
        assert!(rt; sets.six.is_some() && sets.six < sets.four);
    }
    Ok(())
}
