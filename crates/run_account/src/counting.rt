//! What an access costs with lists of sharers, and what it does to them.
ghost use Rattle.std.specs.Prelude.{◌≡◌, ◌==◌, ◌++◌, ◌∷◌, [], flat_map, OnOk, if◌then◌else◌};
ghost use Rattle.std.specs.List.{enumerate_from};
ghost use Rattle.run_account.specs.Tallies.{with_items};
ghost use Rattle.run_account.specs.Caches.{share_at};
ghost use Rattle.run_account.specs.Lists.{cache_of, share_of, is_hit, at_set, told_set, told_cache, telling, with_place, lists_by, lists_after};
ghost use Rattle.run_account.specs.Counts.{messages_items, tells, puts, asks, gone_items, goes_for, told_items, others_items, missed_items, waits_items, items_by, access_items};
ghost use Rattle.run_account.specs.Runs.{listing};

use crate::Measure;
use crate::access::{AccessKind, CountedAccess};
use crate::cache::{Line, Share};
use crate::listing::Listing;
use dn_base::{CoreId, Memory};

impl Listing {
    /// Counts the word that goes to make room.
    fn count_gone(&mut self, access: &CountedAccess, line: Line)
        ensures { self.new ≡ listing self.old (messages_items access.now line.word (puts line.share)) }
    {
        match line.share {
            Share::Shared => self.send_all(
                access,
                line.word,
                &[Measure::ListPutShares, Measure::ListPutAcks],
            ),
            Share::Owned => self.send_all(
                access,
                line.word,
                &[Measure::ListPutBacks, Measure::ListPutAcks],
            ),
        }
    }

    /// Counts the request and the reply.
    fn count_asked(&mut self, access: &CountedAccess)
        ensures { self.new ≡ listing self.old (messages_items access.now access.now.word (asks access.now.kind)) }
    {
        match access.kind {
            AccessKind::Load => self.send_all(
                access,
                access.word,
                &[Measure::ListReadRequests, Measure::ListReplies],
            ),
            AccessKind::Store => self.send_all(
                access,
                access.word,
                &[Measure::ListWriteRequests, Measure::ListReplies],
            ),
        }
    }

    /// Counts what another core is told, by what it has of the word.
    fn count_told(&mut self, access: &CountedAccess, has: Option<Share>)
        ensures { self.new ≡ listing self.old (messages_items access.now access.now.word (tells access.now.kind has)) }
    {
        match (access.kind, has) {
            (_, None) | (AccessKind::Load, Some(Share::Shared)) => {}
            (AccessKind::Load, Some(Share::Owned)) => self.send_all(
                access,
                access.word,
                &[Measure::ListForwards, Measure::ListPutBacks],
            ),
            (AccessKind::Store, Some(Share::Shared)) => self.send_all(
                access,
                access.word,
                &[Measure::ListInvalidations, Measure::ListAcknowledgements],
            ),
            (AccessKind::Store, Some(Share::Owned)) => {
                self.send_all(access, access.word, &[Measure::ListForwards])
            }
        }
    }

    /// Counts what another core is told, and tells it. Nothing happens to the core of the access itself.
    fn tell(&mut self, access: &CountedAccess, other: CoreId)
        ensures tallies { self.new.tallies ≡ with_items self.old.tallies (told_items access.now (other.0, cache_of self.old.lists other.0)) }
        ensures lists { self.new.lists ≡ (if other.0 == access.now.core.0 then self.old.lists else at_set self.old.lists other.0 access.now.word.0 (told_set access.now.kind access.now.word.0)) }
    {
        if other == access.core {
            return;
        }
        let has = self.lists.share(other, access.word);
        self.count_told(access, has);
        self.lists.tell(other, access.word, access.kind);
    }

    /// Counts what the other cores are told, and tells them.
    fn tell_others(&mut self, access: &CountedAccess)
        ensures { self.new ≡ record { tallies = with_items self.old.tallies (others_items self.old.lists access.now); lists = telling self.old.lists access.now } }
    {
        for other in 0..self.lists.cores() {
            self.tell(access, CoreId(other));
        }
    }

    /// Makes room for the word where the core hasn't it.
    fn make_place(&mut self, access: &CountedAccess, had: Option<Share>)
        ensures { self.new ≡ record { tallies = with_items self.old.tallies (gone_items access.now (goes_for self.old.lists access.now had)); lists = with_place self.old.lists access.now had } }
    {
        if had.is_none() {
            if let Some(line) = self.lists.make_room(access.core, access.word) {
                self.count_gone(access, line);
            }
        }
    }

    /// An access that isn't a hit: room is made, and the home and the other cores are asked.
    fn miss(&mut self, access: &CountedAccess, had: Option<Share>)
        ensures { self.new ≡ record { tallies = with_items self.old.tallies (missed_items self.old.lists access.now had); lists = telling (with_place self.old.lists access.now had) access.now } }
    {
        self.make_place(access, had);
        self.count_asked(access);
        self.tell_others(access);
    }

    /// Counts who waits: the core in the run, and with lists.
    fn count_waits(&mut self, access: &CountedAccess, hit: bool)
        ensures { self.new ≡ listing self.old (waits_items access.now hit) }
    {
        let (here, listed) = match access.kind {
            AccessKind::Load => (Measure::WaitsRead, Measure::ListWaitsRead),
            AccessKind::Store => (Measure::WaitsWrite, Measure::ListWaitsWrite),
        };
        if access.waited {
            self.count(access, access.word, here);
        }
        if !hit {
            self.count(access, access.word, listed);
        }
        if access.waited && hit {
            self.count(access, access.word, Measure::WaitsHereAlone);
        }
        if !access.waited && !hit {
            self.count(access, access.word, Measure::WaitsListAlone);
        }
    }

    /// Counts an access, and changes the lists by it.
    ///
    /// # Errors
    /// `Memory` where there is no room for the word.
    #[tactic(auto, unfolding(crate::specs::Counts::access_items, crate::specs::Lists::lists_after))]
    pub(crate) fn note_access(&mut self, access: &CountedAccess) -> Result<(), Memory>
        ensures { OnOk result (self.new ≡ record { tallies = with_items self.old.tallies (access_items self.old.lists access.now); lists = lists_after self.old.lists access.now }) }
    {
        let had = self.lists.share(access.core, access.word);
        let hit = access.kind.is_hit(had);
        self.count_waits(access, hit);
        if !hit {
            self.miss(access, had);
        }
        self.lists
            .use_word(access.core, access.word, access.kind.gain(had))
    }
}
