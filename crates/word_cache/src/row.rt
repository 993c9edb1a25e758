ghost use Rattle.std.specs.Prelude.{◌≡◌, ◌↔◌, ℕ, ◌<◌, ◌≤◌, ◌+◌, IsTrue, IfOk, None, length, map, count_by, slice_index_or, slice_set, if◌then◌else◌};
ghost use Rattle.word_cache.specs.declared.row.Place.{Place};
ghost use Rattle.word_cache.specs.Cache.{is_pending, is_evictable};
ghost use Rattle.word_cache.specs.Row.{has_word, place_word, has_pending, has_copy};

use dn_base::{Memory, WordId};
use std::alloc::Global;
use std::marker::Model;

/// What a core's cache has for a word.
#[derive(Clone, Copy, PartialEq, Eq)]
pub enum Entry {
    /// A copy of the word. `marked` says that the core's task has read it in this phase by its plain effects.
    Valid { value: u32, marked: bool },
    /// The core is the word's owner. `pending` says that the home hasn't acknowledged it yet.
    Registered { value: u32, pending: bool },
    /// The word was written back to its home with this value, and the home hasn't acknowledged that yet.
    Leaving(u32),
}

impl Entry {
    /// Whether the entry is pending.
    #[inline(always)]
    pub(crate) fn is_pending(&self) -> bool
        ensures { result ≡ is_pending self.now }
    {
        match self {
            Entry::Registered { pending, .. } => *pending,
            _ => false,
        }
    }

    /// Whether the entry may be evicted.
    pub(crate) fn is_evictable(&self) -> bool
        ensures { result ≡ is_evictable self.now }
    {
        match self {
            Entry::Valid { .. } => true,
            Entry::Registered { pending, .. } => !*pending,
            Entry::Leaving(_) => false,
        }
    }
}

/// What a cache has for a word.
#[derive(Clone, Copy, PartialEq, Eq)]
pub enum Probe {
    /// The word has this entry. `place` is a hint, with which later calls find the word's pair at once.
    Hit { place: usize, entry: Entry },
    /// The word has no entry, and its set has room for one. `place` is a hint, with which `add_at` finds the room at once.
    Room { place: usize },
    /// The word has no entry, and its set has no room for one.
    Full,
}

/// A place of a cache: the pair that stands there, if there is one, and the number of its last use.
#[derive(Clone, Copy, PartialEq, Eq)]
pub struct Place {
    pub pair: Option<(WordId, Entry)>,
    pub used: u64,
}

/// The places of a cache. The words are also stored by themselves: a pass over a set reads only those, and they lie closer
/// together. Counters tell how many places have a pending entry, and how many a copy.
///
/// Contracts see the list of places.
#[derive(Drop)]
pub(crate) struct Row {
    places: Vec<Place>,
    words: Vec<Option<WordId>>,
    pending: usize,
    copies: usize,
}

impl Model for Row {
    ghost use Rattle.std.specs.Prelude.{List};
    ghost use Rattle.word_cache.specs.declared.row.Place.{Place};
    ghost use Rattle.word_cache.specs.Row.{IsCountedRow};

    ghost Value = { List Place };

    ghost view = { λ r. r.places.items };

    ghost invariant = { λ r. IsCountedRow r.places.items r.words.items r.pending r.copies };
}

/// The word whose pair stands at the place, if there is one.
#[inline(always)]
fn place_word(place: &Place) -> Option<WordId>
    ensures { result ≡ place_word place.now }
{
    match place.pair {
        Some((word, _)) => Some(word),
        None => None,
    }
}

/// Whether the place has a pending entry.
#[inline(always)]
fn has_pending(place: &Place) -> bool
    ensures { result ≡ has_pending place.now }
{
    match place.pair {
        Some((_, entry)) => entry.is_pending(),
        None => false,
    }
}

/// Whether the place has a copy.
#[inline(always)]
fn has_copy(place: &Place) -> bool
    ensures { result ≡ has_copy place.now }
{
    matches!(place.pair, Some((_, Entry::Valid { .. })))
}

/// How many places pass a test, once one that did or didn't is replaced by one that does or doesn't.
#[inline(always)]
fn recount(count: usize, did: bool, does: bool) -> usize
    requires did { (if did then 1 else 0) ≤ count }
    requires count { count < 9223372036854775808 }
    ensures { result + (if did then 1 else 0) ≡ count + (if does then 1 else 0) }
{
    count + usize::from(does) - usize::from(did)
}

/// The words of places.
fn words_of(alloc: Global, places: &[Place]) -> Result<Vec<Option<WordId>>, Memory>
    ensures { IfOk result (λ words. words.items ≡ map place_word places.now) }
{
    let mut words = Vec::new(alloc);
    for place in places {
        words.push(place_word(place))?;
    }
    Ok(words)
}

impl Row {
    /// The row of these places, of which none has a pair.
    ///
    /// # Errors
    /// `Memory` where there is no room for the words.
    pub(crate) fn new(alloc: Global, places: Vec<Place>) -> Result<Row, Memory>
        requires { (i : ℕ) (d : Place) → i < length places.items → (slice_index_or places.items i d).pair ≡ None }
        ensures { IfOk result (λ row. row ≡ places.items) }
    {
        let words = words_of(alloc, places.as_slice())?;
        Ok(Row {
            places,
            words,
            pending: 0,
            copies: 0,
        })
    }

    /// How many places there are.
    #[inline(always)]
    pub(crate) fn len(&self) -> usize
        ensures { result ≡ length self.now }
    {
        self.places.len()
    }

    /// How many places have a pending entry.
    #[inline(always)]
    pub(crate) fn pending(&self) -> usize
        ensures { result ≡ count_by has_pending self.now }
    {
        self.pending
    }

    /// How many places have a copy.
    pub(crate) fn copies(&self) -> usize
        ensures { result ≡ count_by has_copy self.now }
    {
        self.copies
    }

    /// The places.
    #[inline(always)]
    pub(crate) fn as_slice(&self) -> &[Place]
        ensures value { result.now ≡ self.now }
    {
        self.places.as_slice()
    }

    /// A place.
    #[inline(always)]
    pub(crate) fn at(&self, index: usize) -> Place
        requires { index < length self.now }
        ensures { (d : Place) → result ≡ slice_index_or self.now index d }
    {
        self.places[index]
    }

    /// Whether the word's pair stands at a place.
    #[inline(always)]
    pub(crate) fn has_word(&self, index: usize, word: WordId) -> bool
        requires { index < length self.now }
        ensures { (d : Place) → result ≡ has_word word.0 (slice_index_or self.now index d) }
    {
        self.words[index] == Some(word)
    }

    /// Whether no pair stands at a place.
    #[inline(always)]
    pub(crate) fn is_free(&self, index: usize) -> bool
        requires { index < length self.now }
        ensures { (d : Place) → IsTrue result ↔ ((slice_index_or self.now index d).pair ≡ None) }
    {
        self.words[index].is_none()
    }

    /// Gives a place another content.
    #[inline(always)]
    pub(crate) fn set(&mut self, index: usize, place: Place)
        requires { index < length self.old }
        ensures { self.new ≡ slice_set self.old index place }
    {
        let old = self.at(index);
        let pending = recount(self.pending, has_pending(&old), has_pending(&place));
        let copies = recount(self.copies, has_copy(&old), has_copy(&place));
        self.pending = pending;
        self.copies = copies;
        self.words[index] = place_word(&place);
        self.places[index] = place;
    }
}
