ghost use Rattle.std.specs.Prelude.{◌≡◌, ◌+◌, [], ◌∷◌, length, replicate, slice_set, slice_index_or, IfOk, None, Some};
ghost use Rattle.run_account.specs.declared.departure.Handing.TheVariants.{AtOnce};
ghost use Rattle.run_account.specs.Departures.{departed, departure_at};
ghost use Rattle.run_account.specs.Events.{item_of, miss_of};
ghost use Rattle.run_account.specs.Handings.{handing_of};
ghost use Rattle.run_account.specs.Account.{no_account, adding};
ghost use Rattle.run_account.specs.Moves.{with_handing};

use crate::departure::{Departure, Handing};
use crate::nodes::item;
use crate::{AccountTable, Grouping, Measure};
use dn_base::{CoreId, LockId, Memory, Sequence, WordId};
use dn_machine::Machine;
use registration_protocol::Node;
use std::alloc::Global;
use std::marker::Model;

/// What last happened to a core's entry of each word.
type Departures = Sequence<Option<Departure>>;

/// The account of the events so far: its table, what last happened to each core's entry of each word, and how each lock was
/// last granted.
///
/// Besides the table it takes 1 byte for each data word and core, and 1 for each lock.
#[derive(Drop)]
pub struct Account {
    table: AccountTable,
    departures: Vec<Departures>,
    handings: Sequence<Handing>,
}

impl Model for Account {
    ghost use Rattle.run_account.specs.Account.{Accounted};

    ghost Value = { Accounted };

    ghost view = { λ a. record { tallies = a.table; departures = a.departures.items; handings = a.handings } };
}

/// No departure of any word, for each core.
fn no_departures(alloc: Global, cores: u32, words: usize) -> Result<Vec<Departures>, Memory>
    ensures { IfOk result (λ rows. rows.items ≡ replicate cores (replicate words None)) }
{
    let mut rows = Vec::new(alloc);
    for _core in 0..cores {
        rows.push(Sequence::from_vec(vec![in alloc; None; words]?))?;
    }
    Ok(rows)
}

/// Notes in a core's row why its entry of a word was removed.
fn depart_in(row: &mut Departures, word: usize, why: Departure)
    ensures { row.new ≡ slice_set row.old word (Some why) }
{
    if word < row.len() {
        row.set(word, Some(why));
    }
}

/// Notes why a core's entry of a word was removed.
fn depart(rows: &mut Vec<Departures>, core: CoreId, word: WordId, why: Departure)
    ensures { rows.new.items ≡ departed rows.old.items core.0 word.0 why }
{
    if let Some(row) = rows.get_mut(core.0 as usize) {
        depart_in(row, word.0 as usize, why);
    }
}

impl Account {
    /// The account of a machine without events, in these groups.
    ///
    /// # Errors
    /// `Memory` where there is no room.
    pub fn new(alloc: Global, machine: &Machine, by: Grouping) -> Result<Account, Memory>
        ensures { IfOk result (λ account. account ≡ no_account machine.now.state.setting by) }
    {
        let program = machine.program();
        let cores = machine.shape().cores;
        let locks = vec![in alloc; Handing::AtOnce; program.locks.len()]?;
        Ok(Account {
            table: AccountTable::new(alloc, program, cores, by)?,
            departures: no_departures(alloc, cores, program.memory.len())?,
            handings: Sequence::from_vec(locks),
        })
    }

    /// The table of the numbers.
    pub fn table(&self) -> &AccountTable
        ensures { result.now ≡ self.now.tallies }
    {
        &self.table
    }

    /// Counts an item of a node.
    pub(crate) fn count(&mut self, node: &Node, measure: Measure, word: Option<WordId>)
        ensures { self.new ≡ adding self.old (item_of measure node.now word ∷ []) }
    {
        self.table.add(item(node, measure, word));
    }

    /// Notes why a core's entry of a word is removed.
    pub(crate) fn gone(&mut self, core: CoreId, word: WordId, why: Departure)
        ensures { self.new ≡ record self.old { departures = departed self.old.departures core.0 word.0 why } }
    {
        depart(&mut self.departures, core, word, why);
    }

    /// Notes how a lock is granted, if it is.
    pub(crate) fn hand(&mut self, lock: LockId, how: Option<Handing>)
        ensures { self.new ≡ record self.old { handings = with_handing self.old.handings lock how } }
    {
        if let Some(how) = how {
            if (lock.0 as usize) < self.handings.len() {
                self.handings.set(lock.0 as usize, how);
            }
        }
    }

    /// What last happened to a core's entry of a word.
    fn departure(&self, core: CoreId, word: WordId) -> Option<Departure>
        ensures { result ≡ departure_at self.now.departures core.0 word.0 }
    {
        match self.departures.as_slice().get(core.0 as usize) {
            Some(row) => match row.as_slice().get(word.0 as usize) {
                Some(last) => *last,
                None => None,
            },
            None => None,
        }
    }

    /// Why a core that misses a word has no entry of it.
    pub(crate) fn reason(&self, core: CoreId, word: WordId) -> Measure
        ensures { result ≡ miss_of (departure_at self.now.departures core.0 word.0) }
    {
        match self.departure(core, word) {
            None => Measure::MissesFirst,
            Some(Departure::Phase) => Measure::MissesPhase,
            Some(Departure::Lock) => Measure::MissesLock,
            Some(Departure::Evicted) => Measure::MissesEvicted,
            Some(Departure::Taken) => Measure::MissesTaken,
        }
    }

    /// How a lock was last granted.
    pub(crate) fn last_handing(&self, lock: LockId) -> Handing
        ensures { result ≡ handing_of self.now.handings lock.0 }
    {
        match self.handings.as_slice().get(lock.0 as usize) {
            Some(how) => *how,
            None => Handing::AtOnce,
        }
    }
}
