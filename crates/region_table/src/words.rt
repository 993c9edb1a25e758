ghost use Rattle.std.specs.Prelude.{◌≡◌, ◌↔◌, ℕ, ◌<◌, ◌≤◌, List, [], ◌∷◌, IsTrue, IfOk, IfSome, IfNone};
ghost use Rattle.std.specs.List.{All};
ghost use Rattle.region_table.specs.declared.interval.Interval.{Interval};
ghost use Rattle.region_table.specs.Words.{has, IsCanonical, IsUnion, IsCommon, Meet, IsLeastCommon};

use crate::interval::Interval;
use crate::merging::{all_joined, by_starts, least_common_word, merge};
use crate::searching::first_past;
use dn_base::{MOST_WORDS, Memory, WordId};
use std::alloc::Global;
use std::marker::Model;

/// A set of data words, kept as sorted intervals, none of which is empty and no two of which touch.
///
/// Contracts see the list of intervals; `has` tells whether a word is in the set. Two sets with the same words have the same
/// intervals.
#[derive(Drop)]
pub struct WordSet {
    intervals: Vec<Interval>,
}

impl Model for WordSet {
    ghost use Rattle.std.specs.Prelude.{List};
    ghost use Rattle.region_table.specs.declared.interval.Interval.{Interval};
    ghost use Rattle.region_table.specs.Words.{IsCanonical};

    ghost Value = { List Interval };

    ghost view = { λ s. s.intervals.items };

    ghost invariant = { λ s. IsCanonical s.intervals.items };
}

impl WordSet {
    /// The empty set; takes no memory.
    pub fn new(alloc: Global) -> WordSet
        ensures { result ≡ [] }
    {
        WordSet {
            intervals: Vec::new(alloc),
        }
    }

    /// The words from `lo` up to, but not including, `hi`.
    ///
    /// # Errors
    /// `Memory` where there is no room.
    pub fn range(alloc: Global, lo: u32, hi: u32) -> Result<WordSet, Memory>
        requires some { lo < hi }
        requires within { hi ≤ MOST_WORDS }
        ensures { IfOk result (λ set. set ≡ record { lo = lo; hi = hi } ∷ []) }
    {
        let mut intervals = Vec::new(alloc);
        intervals.push(Interval { lo, hi })?;
        Ok(WordSet { intervals })
    }

    /// The set of the words of these intervals, which are canonical. Takes no memory.
    pub(crate) fn of_intervals(intervals: Vec<Interval>) -> WordSet
        requires { IsCanonical intervals.items }
        ensures { result ≡ intervals.items }
    {
        WordSet { intervals }
    }

    /// The union of these intervals, none of which is empty. The time is O(n log n) for n intervals.
    ///
    /// # Errors
    /// `Memory` where there is no room.
    pub fn of_all(alloc: Global, intervals: Vec<Interval>) -> Result<WordSet, Memory>
        requires { All (λ (i : Interval). i.lo < i.hi) intervals.items }
        ensures { IfOk result (λ set. (w : ℕ) → has set w ≡ has intervals.items w) }
    {
        let rising = by_starts(intervals);
        let intervals = all_joined(alloc, rising.as_slice())?;
        Ok(WordSet { intervals })
    }

    /// The union of two sets. The time is proportional to the intervals of both.
    ///
    /// # Errors
    /// `Memory` where there is no room.
    pub fn union(&self, other: &WordSet) -> Result<WordSet, Memory>
        ensures { IfOk result (IsUnion self.now other.now) }
    {
        let alloc = *self.intervals.allocator();
        let intervals = merge(alloc, self.intervals(), other.intervals())?;
        Ok(WordSet { intervals })
    }

    /// Whether some word is in both sets. The time is proportional to the intervals of both.
    pub fn meets(&self, other: &WordSet) -> bool
        ensures { IsTrue result ↔ Meet self.now other.now }
    {
        self.least_common(other).is_some()
    }

    /// The least word that is in both sets, or None if they have no word in common. The time is proportional to the intervals
    /// of both.
    pub fn least_common(&self, other: &WordSet) -> Option<WordId>
        ensures some { IfSome result (λ word. IsLeastCommon self.now other.now word.0) }
        ensures none { IfNone result ((w : ℕ) → IsCommon self.now other.now w → ⊥) }
    {
        least_common_word(self.intervals(), other.intervals())
    }

    /// Whether the word is in the set, by a binary search.
    pub fn contains(&self, word: WordId) -> bool
        ensures { result ≡ has self.now word.0 }
    {
        match first_past(self.intervals(), word.0) {
            Some(interval) => interval.lo <= word.0,
            None => false,
        }
    }

    /// The intervals: they rise, none is empty, and each ends below the start of the next. Takes no memory.
    pub fn intervals(&self) -> &[Interval]
        ensures value { result.now ≡ self.now }
        ensures canonical { IsCanonical self.now }
    {
        self.intervals.as_slice()
    }

    /// Two sets with the same words are equal: a set of words has only one list of intervals.
    pub fn one_form()
        ensures { (a b : List Interval) → IsCanonical a → IsCanonical b → ((w : ℕ) → has a w ≡ has b w) → a ≡ b }
    {}
}
