ghost use Rattle.std.specs.Prelude.{◌≡◌, ◌≢◌, ℕ, ◌+◌, ◌*◌, ◌<◌, ◌≤◌, ◌||◌, true, None, [], IfOk, IfSome};
ghost use Rattle.std.specs.Option.{is_some};
ghost use Rattle.std.specs.Prelude.{length, slice_index_or};
ghost use Rattle.word_cache.specs.declared.row.Place.{Place};
ghost use Rattle.std.specs.List.{filter};
ghost use Rattle.word_cache.specs.Cache.{Cache, IsCache, in_set, lookup, put, changed, without, touched, has_room, IsProbe, victim_of, may_go, pending_count, dropped_written, dropped_signed};
ghost use Rattle.word_cache.specs.Row.{IsCacheRow, HaveDistinctTimes, pairs_by_use};

use crate::edits::{change_entry, take_out, use_again, write_last, write_new};
use crate::grant::drop_stale;
use crate::looks::{entry_of, has_free, probe_of, set_of, victim_in};
use crate::order::pairs_by_use;
use crate::row::{Entry, Place, Probe, Row};
use crate::sweep::sweep_phase;
use dn_base::{Memory, PhaseId, Sequence, WordId};
use region_table::WordSet;
use std::alloc::Global;
use std::marker::Model;
use write_signature::Signature;

/// The private cache of a core: at most `ways` words in each of its `sets` sets. Word `w` is in set `w mod sets`.
///
/// Contracts see a list of pairs of a word and its entry, the least recently used first.
#[derive(Drop)]
pub struct WordCache {
    sets: u32,
    ways: u32,
    places: Row,
    clock: u64,
}

impl Model for WordCache {
    ghost use Rattle.word_cache.specs.Cache.{Cache};
    ghost use Rattle.word_cache.specs.Row.{IsCacheRow, pairs_by_use};

    ghost Value = { Cache };

    ghost view = { λ c. record { sets = c.sets; ways = c.ways; pairs = pairs_by_use c.places } };

    ghost invariant = { λ c. IsCacheRow c.sets c.ways c.clock c.places };
}

/// The places of an empty cache, numbered from 1.
fn empty_places(alloc: Global, sets: u32, ways: u32) -> Result<Vec<Place>, Memory>
    requires sets { 0 < sets }
    requires most_sets { sets ≤ 256 }
    requires ways { 0 < ways }
    requires most_ways { ways ≤ 16 }
    ensures row { IfOk result (λ places. IsCacheRow sets ways (sets * ways + 1) places.items) }
    ensures pairs { IfOk result (λ places. pairs_by_use places.items ≡ []) }
    ensures free { IfOk result (λ places. (i : ℕ) (d : Place) → i < length places.items → (slice_index_or places.items i d).pair ≡ None) }
{
    let mut places = Vec::new(alloc);
    for before in 0..u64::from(sets * ways) {
        places.push(Place {
            pair: None,
            used: before + 1,
        })?;
    }
    Ok(places)
}

impl WordCache {
    /// An empty cache of 1 to 256 sets and 1 to 16 ways. All its places are allocated here.
    ///
    /// # Errors
    /// `Memory` where there is no room for them.
    pub fn new(alloc: Global, sets: u32, ways: u32) -> Result<WordCache, Memory>
        requires sets { 0 < sets }
        requires most_sets { sets ≤ 256 }
        requires ways { 0 < ways }
        requires most_ways { ways ≤ 16 }
        ensures { IfOk result (λ cache. cache ≡ record { sets = sets; ways = ways; pairs = [] }) }
    {
        Ok(WordCache {
            sets,
            ways,
            places: Row::new(alloc, empty_places(alloc, sets, ways)?)?,
            clock: u64::from(sets * ways) + 1,
        })
    }

    /// How many sets there are, from 1 to 256. Takes no memory.
    pub fn sets(&self) -> u32
        ensures { result ≡ self.now.sets }
    {
        self.sets
    }

    /// How many pairs a set may have, from 1 to 16. Takes no memory.
    pub fn ways(&self) -> u32
        ensures { result ≡ self.now.ways }
    {
        self.ways
    }

    /// The word's entry; None exactly where the word has no pair. It looks at the word's set alone, and takes no memory.
    #[inline(always)]
    pub fn get(&self, word: WordId) -> Option<Entry>
        ensures { result ≡ lookup word.0 self.now.pairs }
    {
        entry_of(&self.places, self.sets, self.ways, word)
    }

    /// The word's entry, or whether its set has room where it has none: one look at the word's set tells what `get` and
    /// `room` tell. Takes no memory.
    #[inline(always)]
    pub fn probe(&self, word: WordId) -> Probe
        ensures { IsProbe result (lookup word.0 self.now.pairs) (has_room self.now word.0) }
    {
        probe_of(&self.places, self.sets, self.ways, word)
    }

    /// Whether the word's set has fewer pairs than it may have. Takes no memory.
    pub fn room(&self, word: WordId) -> bool
        ensures { result ≡ has_room self.now word.0 }
    {
        has_free(&self.places, self.sets, self.ways, word)
    }

    /// The least recently used word of the word's set that may be evicted: its entry is Valid, or Registered and not pending.
    /// None exactly if there is none. Takes no memory.
    pub fn victim(&self, word: WordId) -> Option<WordId>
        ensures value { result ≡ victim_of self.now word.0 }
        ensures evictable { IfSome result (λ w. may_go (lookup w.0 self.now.pairs) ≡ true) }
    {
        victim_in(self.places.as_slice(), self.sets, self.ways, word)
    }

    /// The places of a set with a number below `sets`: one for each way. Their pairs are those of the set, and their numbers of
    /// last use differ and rise in the order of the pairs. Takes no memory.
    pub fn places(&self, set: u32) -> &[Place]
        requires { set < self.now.sets }
        ensures count { length result.now ≡ self.now.ways }
        ensures pairs { pairs_by_use result.now ≡ filter (in_set self.now.sets set) self.now.pairs }
        ensures times { HaveDistinctTimes result.now }
    {
        set_of(self.places.as_slice(), self.sets, self.ways, set)
    }

    /// The pairs of a set, which is below the sets, the least recently used first.
    ///
    /// # Errors
    /// `Memory` where there is no room for them.
    pub fn pairs(&self, alloc: Global, set: u32) -> Result<Sequence<(WordId, Entry)>, Memory>
        requires { set < self.now.sets }
        ensures { IfOk result (λ pairs. pairs ≡ filter (in_set self.now.sets set) self.now.pairs) }
    {
        pairs_by_use(alloc, self.places(set))
    }

    /// What holds of every cache: a word has at most one pair, and a set has no more pairs than ways. It has no effect.
    pub fn pairs_are_apart(&self)
        ensures { IsCache self.now }
    {
        // for the proof alone: a read of a field brings the invariant of the cache, which is the law
        let _row = self.places.as_slice();
    }

    /// How many entries are pending. It looks at no place, and takes no memory.
    #[inline(always)]
    pub fn pending(&self) -> u32
        ensures { result ≡ pending_count self.now.pairs }
    {
        self.places.pending() as u32
    }

    /// Gives the word this entry, and makes its pair the most recently used. The word must have a pair, or its set room. Takes
    /// no memory.
    pub fn set(&mut self, word: WordId, entry: Entry)
        requires { (is_some (lookup word.0 self.old.pairs) || has_room self.old word.0) ≡ true }
        ensures { self.new ≡ record self.old { pairs = put word entry self.old.pairs } }
    {
        self.set_at(None, word, entry);
    }

    /// As `set`. Where the hint is the place that the last probe of the word gave, no other place is looked at; none and any
    /// other number serve too.
    #[inline(always)]
    pub fn set_at(&mut self, hint: Option<usize>, word: WordId, entry: Entry)
        requires { (is_some (lookup word.0 self.old.pairs) || has_room self.old word.0) ≡ true }
        ensures { self.new ≡ record self.old { pairs = put word entry self.old.pairs } }
    {
        write_last(
            &mut self.places,
            &mut self.clock,
            self.sets,
            self.ways,
            hint,
            word,
            entry,
        );
    }

    /// Gives the word, which has no pair, this entry; its pair is the one used last then. Its set has room. Where the hint is the
    /// place that the last probe of the word gave, no other place is looked at; none and any other number serve too. Takes no
    /// memory.
    #[inline(always)]
    pub fn add_at(&mut self, hint: Option<usize>, word: WordId, entry: Entry)
        requires none { lookup word.0 self.old.pairs ≡ None }
        requires room { has_room self.old word.0 ≡ true }
        ensures { self.new ≡ record self.old { pairs = put word entry self.old.pairs } }
    {
        write_new(
            &mut self.places,
            &mut self.clock,
            self.sets,
            self.ways,
            hint,
            word,
            entry,
        );
    }

    /// Gives the word's pair this entry; the pair keeps its place in the order of use. The word must have a pair. Takes no
    /// memory.
    pub fn change(&mut self, word: WordId, entry: Entry)
        requires { lookup word.0 self.old.pairs ≢ None }
        ensures { self.new ≡ record self.old { pairs = changed word.0 entry self.old.pairs } }
    {
        self.change_at(None, word, entry);
    }

    /// As `change`. Where the hint is the place that the last probe of the word gave, no other place is looked at; none and any
    /// other number serve too.
    #[inline(always)]
    pub fn change_at(&mut self, hint: Option<usize>, word: WordId, entry: Entry)
        requires { lookup word.0 self.old.pairs ≢ None }
        ensures { self.new ≡ record self.old { pairs = changed word.0 entry self.old.pairs } }
    {
        change_entry(&mut self.places, self.sets, self.ways, hint, word, entry);
    }

    /// Makes the word's pair the most recently used. The word must have a pair. Takes no memory.
    pub fn touch(&mut self, word: WordId)
        requires { lookup word.0 self.old.pairs ≢ None }
        ensures { self.new ≡ record self.old { pairs = touched word self.old.pairs } }
    {
        self.touch_at(None, word);
    }

    /// As `touch`. Where the hint is the place that the last probe of the word gave, no other place is looked at; none and any
    /// other number serve too.
    #[inline(always)]
    pub fn touch_at(&mut self, hint: Option<usize>, word: WordId)
        requires { lookup word.0 self.old.pairs ≢ None }
        ensures { self.new ≡ record self.old { pairs = touched word self.old.pairs } }
    {
        use_again(
            &mut self.places,
            &mut self.clock,
            self.sets,
            self.ways,
            hint,
            word,
        );
    }

    /// Removes the word's pair, if it has one. Takes no memory.
    pub fn remove(&mut self, word: WordId)
        ensures { self.new ≡ record self.old { pairs = without word.0 self.old.pairs } }
    {
        self.remove_at(None, word);
    }

    /// As `remove`. Where the hint is the place that the last probe of the word gave, no other place is looked at; none and any
    /// other number serve too.
    #[inline(always)]
    pub fn remove_at(&mut self, hint: Option<usize>, word: WordId)
        ensures { self.new ≡ record self.old { pairs = without word.0 self.old.pairs } }
    {
        take_out(&mut self.places, self.sets, self.ways, hint, word);
    }

    /// Drops what may be stale after a phase: the Valid pairs that aren't marked and whose word is in the set. The other Valid
    /// pairs lose their marks. The order of the pairs stays. Takes no memory.
    pub fn drop_written(&mut self, words: &WordSet)
        ensures { self.new ≡ record self.old { pairs = dropped_written words.now self.old.pairs } }
    {
        sweep_phase(&mut self.places, words);
    }

    /// Drops what may be stale at a grant: the Valid pairs whose word is in the set and, by the signature, may have been
    /// written under the lock in this phase. The other pairs keep their order. If the cache has no Valid pair, or the signature
    /// holds no word of this phase, no place is looked at. Otherwise it looks up each word of the set if these are no more than
    /// the cache's sets, and else goes through all places. Takes no memory.
    pub fn drop_signed(&mut self, signature: &Signature, phase: PhaseId, words: &WordSet)
        ensures { self.new ≡ record self.old { pairs = dropped_signed signature.now phase.0 words.now self.old.pairs } }
    {
        drop_stale(
            &mut self.places,
            self.sets,
            self.ways,
            signature,
            phase,
            words,
        );
    }
}

/// Compiles only if the type may be sent to another thread and shared with it.
fn crosses<T: Send + Sync>(_value: &T) {}

/// A cache may be sent to another thread, and shared with it. Nobody calls this; the check of its body proves it.
fn cache_crosses(cache: &WordCache) {
    crosses(cache);
}
