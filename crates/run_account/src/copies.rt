//! What is counted of a core's copies at a Go and at a Grant.
ghost use Rattle.std.specs.Prelude.{◌≡◌, ◌<◌, ◌==◌, ◌∷◌, Some};
ghost use Rattle.run_account.specs.Tallies.{with_items};
ghost use Rattle.machine_rules.specs.Memory.{word_value};
ghost use Rattle.word_cache.specs.Row.{pairs_of, pairs_by_use};
ghost use Rattle.run_account.specs.Departures.{departed};
ghost use Rattle.run_account.specs.Events.{item_at, item_if, dropped_at, current_at, kept_at, copies_items};
ghost use Rattle.run_account.specs.Copies.{spared, why_at, pair_noted, pairs_noted};
ghost use Rattle.run_account.specs.Moves.{copies_depart};

use crate::Measure;
use crate::account::Account;
use crate::departure::{Departure, Occasion};
use dn_base::WordId;
use dn_machine::Machine;
use region_table::WordSet;
use registration_protocol::Node;
use word_cache::{Entry, Place};

impl Occasion {
    /// The measure of the copies that are dropped.
    fn drop_copies(self) -> Measure
        ensures { result ≡ dropped_at self }
    {
        match self {
            Occasion::Go => Measure::DroppedPhase,
            Occasion::Grant(_) => Measure::DroppedLock,
        }
    }

    /// The measure of the copies that are dropped and have the word's value.
    fn current(self) -> Measure
        ensures { result ≡ current_at self }
    {
        match self {
            Occasion::Go => Measure::DroppedPhaseCurrent,
            Occasion::Grant(_) => Measure::DroppedLockCurrent,
        }
    }

    /// The measure of the copies that stay.
    fn keep_copies(self) -> Measure
        ensures { result ≡ kept_at self }
    {
        match self {
            Occasion::Go => Measure::KeptTouched,
            Occasion::Grant(_) => Measure::KeptSignature,
        }
    }

    fn why(self) -> Departure
        ensures { result ≡ why_at self }
    {
        match self {
            Occasion::Go => Departure::Phase,
            Occasion::Grant(_) => Departure::Lock,
        }
    }

    /// Whether a copy of one of the words that are looked at stays.
    fn spares(self, node: &Node, word: WordId, marked: bool) -> bool
        ensures { result ≡ spared node.now self word.0 marked }
    {
        match self {
            Occasion::Go => marked,
            Occasion::Grant(signature) => !signature.may_hold(word, node.phase()),
        }
    }
}

impl Account {
    /// Counts a copy that is dropped.
    fn note_gone(
        &mut self,
        machine: &Machine,
        node: &Node,
        occasion: Occasion,
        word: WordId,
        value: u32,
    )
        ensures { self.new ≡ record self.old {
          tallies = with_items self.old.tallies (item_at (dropped_at occasion) node.now word ∷ item_if (value == word_value machine.now.state word.0) (item_at (current_at occasion) node.now word));
          departures = departed self.old.departures node.now.core word.0 (why_at occasion);
        } }
    {
        self.count(node, occasion.drop_copies(), Some(word));
        if value == machine.word(word) {
            self.count(node, occasion.current(), Some(word));
        }
        self.gone(node.core(), word, occasion.why());
    }

    /// Counts a pair of the cache, if it is a copy of one of the words.
    #[tactic(auto, unfolding(crate::specs::Copies::pair_noted))]
    fn note_pair(
        &mut self,
        machine: &Machine,
        node: &Node,
        occasion: Occasion,
        words: &WordSet,
        word: WordId,
        entry: Entry,
    )
        ensures { self.new ≡ pair_noted machine.now.state node.now occasion words.now self.old (word, entry) }
    {
        let Entry::Valid { value, marked } = entry else {
            return;
        };
        if !words.contains(word) {
            return;
        }
        if occasion.spares(node, word, marked) {
            self.count(node, occasion.keep_copies(), Some(word));
        } else {
            self.note_gone(machine, node, occasion, word, value);
        }
    }

    /// Counts the pairs of a set.
    fn note_set(
        &mut self,
        machine: &Machine,
        node: &Node,
        occasion: Occasion,
        words: &WordSet,
        places: &[Place],
    )
        ensures { self.new ≡ pairs_noted machine.now.state node.now occasion words.now self.old (pairs_of places.now) }
    {
        for place in places {
            if let Some((word, entry)) = place.pair {
                self.note_pair(machine, node, occasion, words, word, entry);
            }
        }
    }

    /// Counts the copies of a core: those that are dropped, and those of the given words that stay. It looks at each place of
    /// the cache once.
    pub(crate) fn note_copies(
        &mut self,
        machine: &Machine,
        node: &Node,
        occasion: Occasion,
        words: &WordSet,
    )
        requires { 0 < node.now.cache.sets }
        ensures { self.new ≡ record self.old {
          tallies = with_items self.old.tallies (copies_items machine.now.state node.now occasion words.now);
          departures = copies_depart node.now occasion words.now self.old.departures;
        } }
    {
        let cache = node.cache();
        for set in 0..cache.sets() {
            self.note_set(machine, node, occasion, words, cache.places(set));
        }
    }
}
