//! The cache of one core.
ghost use Rattle.std.specs.Prelude.{◌≡◌, ◌<◌, ◌++◌, ◌∷◌, ℕ, length, replicate, [], None, OnOk, IfOk};
ghost use Rattle.run_account.specs.Caches.{share_in, share_at, without_word, as_shared, leaving, with_room, most_recent, word_set_changed};
ghost use Rattle.std.specs.Prelude.{map, slice_index_or, ◌%◌, Some};

use dn_base::{Memory, WordId, remainder};
use std::alloc::Global;
use std::marker::Model;

/// What a core has of a word.
#[derive(Clone, Copy, PartialEq, Eq)]
pub enum Share {
    /// A copy that other cores may have too.
    Shared,
    /// The only copy, which the core may write.
    Owned,
}

/// A word that a core has.
#[derive(Clone, Copy)]
pub struct Line {
    pub word: WordId,
    pub share: Share,
}

impl Line {
    /// The line, Shared if it is the word's.
    fn as_shared(self, word: WordId) -> Line
        ensures { result ≡ as_shared word.0 self }
    {
        if self.word == word {
            Line {
                word,
                share: Share::Shared,
            }
        } else {
            self
        }
    }
}

/// A set of a cache: its lines, the least recently used first.
#[derive(Drop)]
struct LineSet {
    lines: Vec<Line>,
}

impl Model for LineSet {
    ghost use Rattle.std.specs.Prelude.{List};
    ghost use Rattle.run_account.specs.declared.cache.Line.{Line};

    ghost Value = { List Line };

    ghost view = { λ s. s.lines.items };
}

impl LineSet {
    fn share(&self, word: WordId) -> Option<Share>
        ensures { result ≡ share_in word.0 self.now }
    {
        for line in self.lines.as_slice() {
            if line.word == word {
                return Some(line.share);
            }
        }
        None
    }

    fn lose(&mut self, word: WordId)
        ensures { self.new ≡ without_word word.0 self.old }
    {
        self.lines.retain(|line| line.word != word);
    }

    fn demote(&mut self, word: WordId)
        ensures { self.new ≡ map (as_shared word.0) self.old }
    {
        for index in 0..self.lines.len() {
            let line = self.lines[index];
            self.lines[index] = line.as_shared(word);
        }
    }

    fn make_room(&mut self, ways: u32) -> Option<Line>
        requires { 0 < ways }
        ensures line { result ≡ leaving ways self.old }
        ensures set { self.new ≡ with_room ways self.old }
    {
        if self.lines.len() < ways as usize {
            None
        } else {
            Some(self.lines.remove(0))
        }
    }

    fn use_word(&mut self, word: WordId, share: Share) -> Result<(), Memory>
        ensures { OnOk result (self.new ≡ most_recent word share self.old) }
    {
        self.lose(word);
        self.lines.push(Line { word, share })?;
        Ok(())
    }
}

/// The cache of a core: at least one set. Word `w` is in set `w mod sets`.
#[derive(Drop)]
pub(crate) struct SharerCache {
    sets: Vec<LineSet>,
}

impl Model for SharerCache {
    ghost use Rattle.std.specs.Prelude.{List, length, ◌<◌};
    ghost use Rattle.run_account.specs.declared.cache.Line.{Line};

    ghost Value = { List (List Line) };

    ghost view = { λ c. c.sets.items };

    ghost invariant = { λ c. 0 < length c.sets.items };
}

impl SharerCache {
    /// The empty cache with so many sets.
    ///
    /// # Errors
    /// `Memory` where there is no room for the sets.
    pub(crate) fn new(alloc: Global, sets: u32) -> Result<SharerCache, Memory>
        requires { 0 < sets }
        ensures { IfOk result (λ cache. cache ≡ replicate sets []) }
    {
        let mut rows = Vec::new(alloc);
        for _set in 0..sets {
            rows.push(LineSet {
                lines: Vec::new(alloc),
            })?;
        }
        Ok(SharerCache { sets: rows })
    }

    /// The number of the word's set.
    fn place(&self, word: WordId) -> usize
        ensures value { result ≡ word.0 % length self.now }
        ensures within { result < length self.now }
    {
        word.0 as usize % self.sets.len()
    }

    /// What the cache has of a word.
    pub(crate) fn share(&self, word: WordId) -> Option<Share>
        ensures { result ≡ share_at self.now word.0 }
    {
        self.sets[self.place(word)].share(word)
    }

    /// The word is lost, if it is there.
    pub(crate) fn lose(&mut self, word: WordId)
        ensures { self.new ≡ word_set_changed self.old word.0 (without_word word.0) }
    {
        let place = self.place(word);
        self.sets[place].lose(word);
    }

    /// The word is Shared, if it is there.
    pub(crate) fn demote(&mut self, word: WordId)
        ensures { self.new ≡ word_set_changed self.old word.0 (map (as_shared word.0)) }
    {
        let place = self.place(word);
        self.sets[place].demote(word);
    }

    /// Makes room in the word's set, and gives the line that goes.
    pub(crate) fn make_room(&mut self, ways: u32, word: WordId) -> Option<Line>
        requires { 0 < ways }
        ensures line { result ≡ leaving ways (slice_index_or self.old (word.0 % length self.old) []) }
        ensures cache { self.new ≡ word_set_changed self.old word.0 (with_room ways) }
    {
        let place = self.place(word);
        self.sets[place].make_room(ways)
    }

    /// The word is the most recently used one, with this share.
    ///
    /// # Errors
    /// `Memory` where there is no room for its line.
    pub(crate) fn use_word(&mut self, word: WordId, share: Share) -> Result<(), Memory>
        ensures { OnOk result (self.new ≡ word_set_changed self.old word.0 (most_recent word share)) }
    {
        let place = self.place(word);
        self.sets[place].use_word(word, share)
    }
}
