//! What is counted of an instruction.
ghost use Rattle.std.specs.Prelude.{◌≡◌, [], ◌∷◌, Some, None};
ghost use Rattle.run_account.specs.declared.measure.Measure.TheVariants as measure;
ghost use Rattle.registration_protocol.specs.Node.{entry_of};
ghost use Rattle.run_account.specs.Account.{adding};
ghost use Rattle.run_account.specs.Access.{miss_items, hit_items, untold_items, registering_items, load_access, store_access};
ghost use Rattle.run_account.specs.Events.{item_at, item_if, has_untold_copy, instr_items};

use crate::Measure;
use crate::account::Account;
use dn_base::{CoreId, WordId};
use dn_machine::{Machine, a_machine_is_kept};
use registration_protocol::{Node, NodeWait};
use rv_core::Need;
use word_cache::Entry;

impl Account {
    fn note_miss(&mut self, node: &Node, word: WordId)
        ensures { self.new ≡ adding self.old (miss_items self.old.departures node.now word) }
    {
        let reason = self.reason(node.core(), word);
        self.count(node, Measure::Misses, Some(word));
        self.count(node, reason, Some(word));
    }

    fn note_hit(&mut self, node: &Node, word: WordId)
        ensures { self.new ≡ adding self.old (hit_items node.now word) }
    {
        self.count(node, Measure::Loads, Some(word));
        match node.wait() {
            NodeWait::None => self.count(node, Measure::LoadsLocal, Some(word)),
            NodeWait::Reading(_) | NodeWait::Filled(_) | NodeWait::Locking(_) => {}
        }
    }

    fn note_load(&mut self, node: &Node, word: WordId)
        ensures { self.new ≡ adding self.old (load_access self.old.departures node.now word (entry_of node.now word.0)) }
    {
        match node.entry(word) {
            None => self.note_miss(node, word),
            Some(Entry::Leaving(_)) => {}
            Some(Entry::Valid { .. } | Entry::Registered { .. }) => self.note_hit(node, word),
        }
    }

    /// Counts another core's copy of a word.
    fn note_if_untold(&mut self, node: &Node, other: &Node, word: WordId)
        ensures { self.new ≡ adding self.old (item_if (has_untold_copy node.now word.0 other.now) (item_at measure.UntoldCopies node.now word)) }
    {
        if other.core().0 == node.core().0 {
            return;
        }
        if let Some(Entry::Valid { .. }) = other.entry(word) {
            self.count(node, Measure::UntoldCopies, Some(word));
        }
    }

    /// Counts each other core's copy of a word.
    fn note_untold(&mut self, machine: &Machine, node: &Node, word: WordId)
        ensures { self.new ≡ adding self.old (untold_items machine.now.state node.now word) }
    {
        // for the proof alone: there are as many nodes as cores
        a_machine_is_kept(machine);
        for core in 0..machine.shape().cores {
            self.note_if_untold(node, machine.node(CoreId(core)), word);
        }
    }

    fn note_registers(&mut self, machine: &Machine, node: &Node, word: WordId)
        ensures { self.new ≡ adding self.old (registering_items machine.now.state node.now word) }
    {
        self.count(node, Measure::Stores, Some(word));
        self.count(node, Measure::Registers, Some(word));
        self.note_untold(machine, node, word);
    }

    fn note_store(&mut self, machine: &Machine, node: &Node, word: WordId, whole: bool)
        ensures { self.new ≡ adding self.old (store_access machine.now.state self.old.departures node.now word whole (entry_of node.now word.0)) }
    {
        match node.entry(word) {
            None => {
                if whole {
                    self.note_registers(machine, node, word);
                } else {
                    self.note_miss(node, word);
                }
            }
            Some(Entry::Leaving(_)) => {}
            Some(Entry::Valid { .. }) => self.note_registers(machine, node, word),
            Some(Entry::Registered { .. }) => {
                self.count(node, Measure::Stores, Some(word));
                self.count(node, Measure::StoresSilent, Some(word));
            }
        }
    }

    /// Counts what is counted of a node's next instruction.
    #[tactic(auto, using(crate::proofs::Accessed::instr_is))]
    pub(crate) fn note_instr(&mut self, machine: &Machine, node: &Node)
        ensures { self.new ≡ adding self.old (instr_items machine.now.state self.old.departures node.now) }
    {
        match node.needs(machine.program(), machine.fuel()) {
            Some(Need::Load { word }) => self.note_load(node, word),
            Some(Need::Store { word, whole }) => self.note_store(machine, node, word, whole),
            _ => {}
        }
    }
}
