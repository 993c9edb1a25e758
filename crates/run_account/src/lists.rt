//! The caches of all cores, and the lists that go with them.
ghost use Rattle.std.specs.Prelude.{◌≡◌, ◌<◌, ◌≤◌, ℕ, [], length, replicate, OnOk, IfOk};
ghost use Rattle.dn_base.specs.declared.ids.Shape.{Shape};
ghost use Rattle.run_account.specs.Caches.{leaving, set_of, without_word, as_shared, most_recent, with_room};
ghost use Rattle.run_account.specs.Lists.{no_lists, cache_of, share_of, at_set, told_set};

use crate::access::AccessKind;
use crate::cache::{Line, Share, SharerCache};
use dn_base::{CoreId, Memory, Shape, WordId};
use std::alloc::Global;
use std::marker::Model;

/// The caches of all cores as lists of sharers keep them. The list of a word is the set of the cores that have it.
#[derive(Drop)]
pub struct Lists {
    ways: u32,
    caches: Vec<SharerCache>,
}

impl Model for Lists {
    ghost use Rattle.run_account.specs.Lists.{SharerLists, IsSized};

    ghost Value = { SharerLists };

    ghost view = { λ l. record { ways = l.ways; caches = l.caches.items } };

    ghost invariant = { λ l. IsSized (record { ways = l.ways; caches = l.caches.items }) };
}

/// As many empty caches as cores.
fn empty_caches(alloc: Global, cores: u32, sets: u32) -> Result<Vec<SharerCache>, Memory>
    requires { 0 < sets }
    ensures { IfOk result (λ caches. caches.items ≡ replicate cores (replicate sets [])) }
{
    let mut caches = Vec::new(alloc);
    for _core in 0..cores {
        caches.push(SharerCache::new(alloc, sets)?)?;
    }
    Ok(caches)
}

impl Lists {
    /// The lists of a machine before any access: all caches are empty. The shape has 16 cores at most, and a set and
    /// a way at least.
    ///
    /// # Errors
    /// `Memory` where there is no room for the sets.
    pub fn new(alloc: Global, shape: Shape) -> Result<Lists, Memory>
        requires cores { shape.cores ≤ 16 }
        requires sets { 0 < shape.sets }
        requires ways { 0 < shape.ways }
        ensures { IfOk result (λ lists. lists ≡ no_lists shape) }
    {
        Ok(Lists {
            ways: shape.ways,
            caches: empty_caches(alloc, shape.cores, shape.sets)?,
        })
    }

    /// How many cores there are.
    pub(crate) fn cores(&self) -> u32
        ensures { result ≡ length self.now.caches }
    {
        self.caches.len() as u32
    }

    /// What a core has of a word; None too where there is no such core.
    pub fn share(&self, core: CoreId, word: WordId) -> Option<Share>
        ensures { result ≡ share_of self.now core.0 word.0 }
    {
        self.caches.as_slice().get(core.0 as usize)?.share(word)
    }

    /// Makes room in a core's set for a word, and gives the line that goes.
    pub(crate) fn make_room(&mut self, core: CoreId, word: WordId) -> Option<Line>
        ensures line { result ≡ leaving self.old.ways (set_of (cache_of self.old core.0) word.0) }
        ensures lists { self.new ≡ at_set self.old core.0 word.0 (with_room self.old.ways) }
    {
        match self.caches.get_mut(core.0 as usize) {
            Some(cache) => cache.make_room(self.ways, word),
            None => None,
        }
    }

    /// Tells a core of another one's access: it owns the word no more, or has lost it.
    pub(crate) fn tell(&mut self, core: CoreId, word: WordId, kind: AccessKind)
        ensures { self.new ≡ at_set self.old core.0 word.0 (told_set kind word.0) }
    {
        if let Some(cache) = self.caches.get_mut(core.0 as usize) {
            match kind {
                AccessKind::Load => cache.demote(word),
                AccessKind::Store => cache.lose(word),
            }
        }
    }

    /// The core has the word, which is the most recently used one of its set.
    ///
    /// # Errors
    /// `Memory` where there is no room for its line.
    pub(crate) fn use_word(
        &mut self,
        core: CoreId,
        word: WordId,
        share: Share,
    ) -> Result<(), Memory>
        ensures { OnOk result (self.new ≡ at_set self.old core.0 word.0 (most_recent word share)) }
    {
        match self.caches.get_mut(core.0 as usize) {
            Some(cache) => cache.use_word(word, share),
            None => Ok(()),
        }
    }
}
