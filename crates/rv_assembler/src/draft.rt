//! What the lines of a text add up to, before it becomes a program.
ghost use Rattle.std.specs.Prelude.{◌≡◌, ℕ, ◌-◌, ◌++◌, ◌∷◌, [], Some, None, OnOk};
ghost use Rattle.rv_assembler.specs.Lookup.{name_lookup};
ghost use Rattle.rv_assembler.specs.AddedLine.{emission_at, words_if_any};
ghost use Rattle.rv_assembler.specs.Operand.{bytes_of};
ghost use Rattle.rv_assembler.specs.Number.{wrapped};
ghost use Rattle.rv_assembler.specs.Gathering.{more};
ghost use Rattle.rv_assembler.specs.Adding.{no_draft, with_tasks, draft_with, draft_after};
ghost use Rattle.rv_assembler.specs.Named.{region_span, lock_number, plain_usage, under_lock, usage_of};
ghost use Rattle.rv_assembler.specs.Drafting.{wrapped_entry, members, extent_start, past_word, step_of, claimed, claims_for, values_for};

use crate::emission::{Emission, label_address};
use crate::names::{Count, Meaning, NO_COUNT, Names, count_behind, meaning_of};
use crate::number::{more, wrap};
use crate::operand::bytes;
use crate::statement::{Effect, Extent, Family, Statement};
use dn_base::{Memory, Name, Sequence};
use region_table::Region;
use src_text::{Token, TokenKind};
use std::alloc::Global;

/// The first value of a data word.
#[derive(Clone, Copy)]
pub struct FirstValue {
    pub word: u32,
    pub value: u32,
}

/// A task of a phase. Phases are numbered from 1.
#[derive(Clone, Copy)]
pub struct Start {
    pub phase: u32,
    pub core: u32,
    pub entry: u32,
    pub arg: u32,
}

/// How a task uses words.
#[derive(Clone, Copy)]
pub enum Usage {
    Reads,
    Writes,
    /// While it holds the lock of this number.
    GuardedReads(u32),
    GuardedWrites(u32),
}

/// Words that a task uses, from `lo` up to, but not including, `hi`. The task is given by its phase and core.
#[derive(Clone, Copy)]
pub struct Claim {
    pub phase: u32,
    pub core: u32,
    pub usage: Usage,
    pub lo: u32,
    pub hi: u32,
}

/// The cores of the current tasks: `count` from `first` on.
#[derive(Clone, Copy)]
pub struct Cores {
    pub first: u32,
    pub count: u32,
}

const NO_CORES: Cores = Cores { first: 0, count: 0 };

/// The tables of what some lines declare, the cores of the current tasks after them, and their counts.
#[derive(Drop)]
pub struct Draft {
    pub code: Sequence<u32>,
    pub regions: Sequence<Region>,
    pub locks: Sequence<Name>,
    pub values: Sequence<FirstValue>,
    pub tasks: Sequence<Start>,
    pub claims: Sequence<Claim>,
    pub phases: u32,
    pub family: Cores,
    pub count: Count,
}

/// The region that a name means: its first word and its length.
#[derive(Clone, Copy)]
pub struct Span {
    pub start: u32,
    pub len: i64,
}

pub(crate) fn region_span(meaning: Option<Meaning>) -> Option<Span>
    ensures { result ≡ region_span meaning }
{
    match meaning {
        Some(Meaning::Region { start, len, .. }) => Some(Span { start, len }),
        _ => None,
    }
}

/// The number of the lock that a name means.
pub(crate) fn lock_number(meaning: Option<Meaning>) -> Option<u32>
    ensures { result ≡ lock_number meaning }
{
    match meaning {
        Some(Meaning::Lock { number }) => Some(number),
        _ => None,
    }
}

/// The region of a name.
pub(crate) fn region_named<'a>(text: &'a [u8], names: &Names<'a>, name: Token) -> Option<Span>
    ensures { result ≡ region_span (name_lookup names.now (bytes_of text.now name)) }
{
    region_span(meaning_of(text, names, name))
}

/// The number of the lock of a name.
pub(crate) fn lock_named<'a>(text: &'a [u8], names: &Names<'a>, name: Token) -> Option<u32>
    ensures { result ≡ lock_number (name_lookup names.now (bytes_of text.now name)) }
{
    lock_number(meaning_of(text, names, name))
}

/// The address of a task's entry, modulo 2^32; 0 if the label isn't declared.
fn entry<'a>(text: &'a [u8], names: &Names<'a>, target: Token) -> u32
    ensures { result ≡ wrapped_entry text.now (name_lookup names.now) target }
{
    if let TokenKind::Number(number) = target.kind {
        return wrap(number);
    }
    match meaning_of(text, names, target) {
        Some(Meaning::Label { place, .. }) => label_address(place),
        _ => 0,
    }
}

impl Usage {
    /// How a task uses words under no lock.
    fn plain(writes: bool) -> Usage
        ensures { result ≡ plain_usage writes }
    {
        if writes { Usage::Writes } else { Usage::Reads }
    }

    /// How a task uses words while it holds a lock.
    pub(crate) fn under_lock(writes: bool, lock: u32) -> Usage
        ensures { result ≡ under_lock writes lock }
    {
        if writes {
            Usage::GuardedWrites(lock)
        } else {
            Usage::GuardedReads(lock)
        }
    }
}

/// How a task uses the words of an effect; None if the lock isn't declared.
fn usage_in<'a>(text: &'a [u8], names: &Names<'a>, effect: Effect) -> Option<Usage>
    ensures { result ≡ usage_of text.now (name_lookup names.now) effect }
{
    match effect.lock {
        None => Some(Usage::plain(effect.writes)),
        Some(lock) => match lock_named(text, names, lock) {
            Some(number) => Some(Usage::under_lock(effect.writes, number)),
            None => None,
        },
    }
}

/// The first word of an effect, modulo 2^32.
fn first_word(span: Span, extent: Extent) -> u32
    ensures { result ≡ extent_start span extent }
{
    match extent {
        Extent::Whole => span.start,
        Extent::Part { lo, hi: _ } => span.start.wrapping_add(wrap(lo)),
        Extent::Stepped { lo, hi: _, step: _ } => span.start.wrapping_add(wrap(lo)),
    }
}

/// The word after the last of an effect, modulo 2^32.
fn past_word(span: Span, extent: Extent) -> u32
    ensures { result ≡ past_word span extent }
{
    match extent {
        Extent::Whole => span.start.wrapping_add(wrap(span.len)),
        Extent::Part { lo: _, hi } => span.start.wrapping_add(wrap(hi)),
        Extent::Stepped { lo: _, hi, step: _ } => span.start.wrapping_add(wrap(hi)),
    }
}

/// By how many words the effect moves for each next task, modulo 2^32.
fn step(extent: Extent) -> u32
    ensures { result ≡ step_of extent }
{
    match extent {
        Extent::Stepped { step, .. } => wrap(step),
        _ => 0,
    }
}

/// Adds the claims of `count` tasks, from the core of the first one on. Each is `step` words further than the one before.
fn push_claims(
    claims: &mut Sequence<Claim>,
    first: Claim,
    step: u32,
    count: u32,
) -> Result<(), Memory>
    ensures { OnOk result (claims.new ≡ claims.old ++ claimed first step count) }
{
    let mut claim = first;
    for _done in 0..count {
        claims.push(claim)?;
        claim = Claim {
            phase: claim.phase,
            core: more(claim.core, 1),
            usage: claim.usage,
            lo: claim.lo.wrapping_add(step),
            hi: claim.hi.wrapping_add(step),
        };
    }
    Ok(())
}

/// Adds `count` tasks from the first one on. Each next one is on the next core, and its argument is greater by `step`.
fn push_members(
    tasks: &mut Sequence<Start>,
    first: Start,
    step: u32,
    count: u32,
) -> Result<(), Memory>
    ensures { OnOk result (tasks.new ≡ tasks.old ++ members first step count) }
{
    let mut task = first;
    for _done in 0..count {
        tasks.push(task)?;
        task = Start {
            phase: task.phase,
            core: more(task.core, 1),
            entry: task.entry,
            arg: task.arg.wrapping_add(step),
        };
    }
    Ok(())
}

impl Draft {
    /// The draft before the first line: empty tables. Takes no memory.
    pub fn new(alloc: Global) -> Draft
        ensures { result ≡ no_draft }
    {
        Draft {
            code: Sequence::new(alloc),
            regions: Sequence::new(alloc),
            locks: Sequence::new(alloc),
            values: Sequence::new(alloc),
            tasks: Sequence::new(alloc),
            claims: Sequence::new(alloc),
            phases: 0,
            family: NO_CORES,
            count: NO_COUNT,
        }
    }

    fn push_code(&mut self, emission: Option<Emission>) -> Result<(), Memory>
        ensures { OnOk result (self.new ≡ record self.old { code = self.old.code ++ words_if_any emission }) }
    {
        match emission {
            Some(Emission::One(word)) => self.code.push(word),
            Some(Emission::Two(first, second)) => {
                self.code.push(first)?;
                self.code.push(second)
            }
            _ => Ok(()),
        }
    }

    fn push_region(&mut self, alloc: Global, name: &[u8], len: i64) -> Result<(), Memory>
        ensures { OnOk result (self.new ≡ record self.old { regions = self.old.regions ++ record { name = name.now; start = self.old.count.words; len = wrapped len } ∷ [] }) }
    {
        let region = Region {
            name: Name::new(alloc, name)?,
            start: self.count.words,
            len: wrap(len),
        };
        self.regions.push(region)
    }

    fn push_lock(&mut self, alloc: Global, name: &[u8]) -> Result<(), Memory>
        ensures { OnOk result (self.new ≡ record self.old { locks = self.old.locks ++ name.now ∷ [] }) }
    {
        let name = Name::new(alloc, name)?;
        self.locks.push(name)
    }

    fn push_value(&mut self, span: Option<Span>, index: i64, value: u32) -> Result<(), Memory>
        ensures { OnOk result (self.new ≡ record self.old { values = self.old.values ++ values_for span index value }) }
    {
        match span {
            None => Ok(()),
            Some(span) => self.values.push(FirstValue {
                word: span.start.wrapping_add(wrap(index)),
                value,
            }),
        }
    }

    fn push_tasks(&mut self, entry: u32, family: Family) -> Result<(), Memory>
        ensures { OnOk result (self.new ≡ with_tasks self.old entry family) }
    {
        let first = Start {
            phase: self.phases,
            core: wrap(family.core),
            entry,
            arg: family.arg,
        };
        let count = wrap(family.count);
        push_members(&mut self.tasks, first, family.step, count)?;
        self.family = Cores {
            first: wrap(family.core),
            count,
        };
        Ok(())
    }

    fn push_effect(
        &mut self,
        span: Option<Span>,
        usage: Option<Usage>,
        extent: Extent,
    ) -> Result<(), Memory>
        ensures { OnOk result (self.new ≡ record self.old { claims = self.old.claims ++ claims_for self.old.phases self.old.family span usage extent }) }
    {
        let (Some(span), Some(usage)) = (span, usage) else {
            return Ok(());
        };
        let first = Claim {
            phase: self.phases,
            core: self.family.first,
            usage,
            lo: first_word(span, extent),
            hi: past_word(span, extent),
        };
        push_claims(&mut self.claims, first, step(extent), self.family.count)
    }

    fn push_phase(&mut self)
        ensures { self.new ≡ record self.old { phases = more self.old.phases 1; family = record { first = 0; count = 0 } } }
    {
        self.phases = more(self.phases, 1);
        self.family = NO_CORES;
    }

    /// Adds a statement with its code words, except for the count.
    fn extend<'a>(
        &mut self,
        alloc: Global,
        text: &'a [u8],
        names: &Names<'a>,
        statement: &Statement,
        emission: Option<Emission>,
    ) -> Result<(), Memory>
        requires { emission ≡ emission_at text.now (name_lookup names.now) self.old.count.code statement.now }
        ensures { OnOk result (self.new ≡ draft_with text.now (name_lookup names.now) self.old statement.now) }
    {
        match *statement {
            Statement::Nothing => Ok(()),
            Statement::Instruction(_) => self.push_code(emission),
            Statement::Region { name, len } => self.push_region(alloc, bytes(text, name), len),
            Statement::Word {
                region,
                index,
                value,
            } => { self.push_value(region_named(text, names, region), index, value) }
            Statement::Lock { name } => self.push_lock(alloc, bytes(text, name)),
            Statement::Phase => {
                self.push_phase();
                Ok(())
            }
            Statement::Tasks(family) => self.push_tasks(entry(text, names, family.entry), family),
            Statement::Uses(effect) => self.push_effect(
                region_named(text, names, effect.region),
                usage_in(text, names, effect),
                effect.extent,
            ),
        }
    }

    /// Adds a statement with its code words.
    pub(crate) fn add<'a>(
        &mut self,
        alloc: Global,
        text: &'a [u8],
        names: &Names<'a>,
        statement: &Statement,
        emission: Option<Emission>,
    ) -> Result<(), Memory>
        requires { emission ≡ emission_at text.now (name_lookup names.now) self.old.count.code statement.now }
        ensures { OnOk result (self.new ≡ draft_after text.now (name_lookup names.now) self.old statement.now) }
    {
        let count = count_behind(&self.count, statement);
        self.extend(alloc, text, names, statement, emission)?;
        self.count = count;
        Ok(())
    }
}
