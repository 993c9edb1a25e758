ghost use Rattle.std.specs.Prelude.{◌≡◌, ◌<◌, [], ◌∷◌, IfOk};
ghost use Rattle.machine_rules.specs.State.{State};
ghost use Rattle.run_account.specs.Counts.{access_item, kind_items, messages_items};
ghost use Rattle.run_account.specs.Runs.{nothing_listed, listing};

use crate::access::CountedAccess;
use crate::lists::Lists;
use crate::{AccountTable, Grouping, Item, Measure};
use dn_base::{Memory, WordId};
use dn_machine::Machine;
use std::alloc::Global;
use std::marker::Model;

/// The events of a run so far beside lists of sharers: the table of the numbers, and the lists.
///
/// Besides the table it takes 24 bytes for each set of each core, and 8 for each word that a core has.
#[derive(Drop)]
pub struct Listing {
    pub(crate) table: AccountTable,
    pub(crate) lists: Lists,
}

impl Model for Listing {
    ghost use Rattle.run_account.specs.Runs.{Listed};

    ghost Value = { Listed };

    ghost view = { λ l. record { tallies = l.table; lists = l.lists } };
}

impl Listing {
    /// A machine without events beside lists, in these groups.
    ///
    /// # Errors
    /// `Memory` where there is no room.
    pub fn new(alloc: Global, machine: &Machine, by: Grouping) -> Result<Listing, Memory>
        ensures { IfOk result (λ listing. listing ≡ nothing_listed machine.now.state.setting by) }
    {
        // for the proof alone: a cache has a set and a way at least
        dn_machine::a_machine_is_kept(machine);
        let shape = machine.shape();
        Ok(Listing {
            table: AccountTable::new(alloc, machine.program(), shape.cores, by)?,
            lists: Lists::new(alloc, shape)?,
        })
    }

    /// The table of the numbers.
    pub fn table(&self) -> &AccountTable
        ensures { result.now ≡ self.now.tallies }
    {
        &self.table
    }

    /// The lists after the events so far.
    pub fn lists(&self) -> &Lists
        ensures { result.now ≡ self.now.lists }
    {
        &self.lists
    }

    /// Counts an item of an access.
    pub(crate) fn count(&mut self, access: &CountedAccess, word: WordId, measure: Measure)
        ensures { self.new ≡ listing self.old (access_item access.now word measure ∷ []) }
    {
        self.table.add(Item {
            measure,
            phase: access.phase,
            core: access.core,
            word: Some(word),
        });
    }

    /// Counts a message of an access.
    fn send(&mut self, access: &CountedAccess, word: WordId, kind: Measure)
        ensures { self.new ≡ listing self.old (kind_items access.now word kind) }
    {
        self.count(access, word, Measure::ListMessages);
        self.count(access, word, kind);
    }

    /// Counts messages of an access, by their kinds.
    pub(crate) fn send_all(&mut self, access: &CountedAccess, word: WordId, kinds: &[Measure])
        ensures { self.new ≡ listing self.old (messages_items access.now word kinds.now) }
    {
        for kind in kinds {
            self.send(access, word, *kind);
        }
    }
}
