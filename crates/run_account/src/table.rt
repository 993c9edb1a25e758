ghost use Rattle.std.specs.Prelude.{◌≡◌, ◌+◌, ◌<◌, ◌++◌, length, replicate, slice_index_or, slice_set, IfOk, OnOk};
ghost use Rattle.run_account.specs.Items.{group_of, groups_in, regions_from, region_of};
ghost use Rattle.run_account.specs.Tallies.{no_tallies, tally_of, one_more_at, raised_in, with_item};

use crate::item::{Grouping, Item};
use crate::measure::Measure;
use dn_base::{Memory, Sequence, WordId};
use region_table::{Program, Region};
use std::alloc::Global;
use std::marker::Model;

/// The numbers of one group by the index of a measure.
type Numbers = [u64; 58];

/// How many items of each measure there were in each group.
///
/// It takes 344 bytes for each group, and 4 for each data word of the program.
#[derive(Drop)]
pub struct AccountTable {
    by: Grouping,
    regions: Sequence<u32>,
    numbers: Vec<Numbers>,
}

impl Model for AccountTable {
    ghost use Rattle.run_account.specs.Tallies.{Tallies};

    ghost Value = { Tallies };

    ghost view = { λ t. record { by = t.by; regions = t.regions; numbers = t.numbers.items } };
}

/// Adds this many words of a region.
fn push_words(words: &mut Sequence<u32>, count: u32, region: u32) -> Result<(), Memory>
    ensures { OnOk result (words.new ≡ words.old ++ replicate count region) }
{
    for _word in 0..count {
        words.push(region)?;
    }
    Ok(())
}

/// The region of each word, in the order of words.
fn regions_of(alloc: Global, regions: &[Region]) -> Result<Sequence<u32>, Memory>
    requires { length regions.now < 4294967296 }
    ensures { IfOk result (λ words. words ≡ regions_from 0 regions.now) }
{
    let mut words = Sequence::new(alloc);
    let mut number = 0;
    for region in regions {
        push_words(&mut words, region.len, number)?;
        number += 1;
    }
    Ok(words)
}

/// No item of any measure, in this many groups.
fn no_numbers(alloc: Global, groups: usize) -> Result<Vec<Numbers>, Memory>
    ensures { IfOk result (λ numbers. numbers.items ≡ replicate groups (replicate 58 0)) }
{
    let mut numbers = Vec::new(alloc);
    for _group in 0..groups {
        numbers.push([0; 58])?;
    }
    Ok(numbers)
}

/// How many groups there are.
fn groups(program: &Program, cores: u32, by: Grouping) -> usize
    ensures { result ≡ groups_in program.now cores by }
{
    match by {
        Grouping::Run => 1,
        Grouping::Phase => program.phases.len(),
        Grouping::Core => cores as usize,
        Grouping::Region => program.regions.len(),
    }
}

/// One more of the measure at an index.
fn raise(row: &mut Numbers, index: usize)
    requires { index < 58 }
    ensures { row.new ≡ one_more_at index row.old }
{
    row[index] = row[index].saturating_add(1);
}

/// One more of the measure at an index in a group, where there is one.
fn raise_in(numbers: &mut Vec<Numbers>, group: Option<u32>, index: usize)
    requires { index < 58 }
    ensures { numbers.new.items ≡ raised_in group index numbers.old.items }
{
    if let Some(group) = group {
        if let Some(row) = numbers.get_mut(group as usize) {
            raise(row, index);
        }
    }
}

/// The region of a word; None where there is no word, and where it is in none.
fn region(regions: &Sequence<u32>, word: Option<WordId>) -> Option<u32>
    ensures { result ≡ region_of regions.now word }
{
    regions.get(word?.0 as usize).copied()
}

impl AccountTable {
    /// A table without items, with the groups of a program on `cores` cores.
    ///
    /// # Errors
    /// `Memory` where there is no room.
    pub fn new(
        alloc: Global,
        program: &Program,
        cores: u32,
        by: Grouping,
    ) -> Result<AccountTable, Memory>
        ensures { IfOk result (λ table. table ≡ no_tallies program.now cores by) }
    {
        Ok(AccountTable {
            by,
            regions: regions_of(alloc, program.regions.as_slice())?,
            numbers: no_numbers(alloc, groups(program, cores, by))?,
        })
    }

    /// What the groups are.
    pub fn by(&self) -> Grouping
        ensures { result ≡ self.now.by }
    {
        self.by
    }

    /// How many groups there are.
    pub fn groups(&self) -> usize
        ensures { result ≡ length self.now.numbers }
    {
        self.numbers.len()
    }

    /// The group of an item; None if it is in none.
    fn group(&self, item: Item) -> Option<u32>
        ensures { result ≡ group_of self.now.regions self.now.by item }
    {
        match self.by {
            Grouping::Run => Some(0),
            Grouping::Phase => Some(item.phase.0),
            Grouping::Core => Some(item.core.0),
            Grouping::Region => region(&self.regions, item.word),
        }
    }

    /// Counts an item. A number of 64 bits stays at its greatest value. Takes no memory.
    #[tactic(auto, unfolding(crate::specs::Tallies::with_item))]
    pub fn add(&mut self, item: Item)
        ensures { self.new ≡ with_item self.old item }
    {
        let group = self.group(item);
        raise_in(&mut self.numbers, group, item.measure.index());
    }

    /// The number of a measure in a group; 0 if there is no such group. Takes no memory.
    pub fn number(&self, measure: Measure, group: usize) -> u64
        ensures { result ≡ tally_of measure group self.now }
    {
        match self.numbers.as_slice().get(group) {
            Some(row) => row[measure.index()],
            None => 0,
        }
    }
}
