//! The names of a text: labels, regions and locks, and what each means.
ghost use Rattle.std.specs.Prelude.{◌≡◌, ℕ, List, Option, Some, None, bytes_eq, if◌then◌else◌, length, OnOk, IfOk};
ghost use Rattle.std.specs.List.{All};
ghost use Rattle.std.specs.BTreeMap.{IsEmpty};
ghost use Rattle.std.specs.Option.{option_or};
ghost use Rattle.rv_assembler.specs.Lookup.{hash_after, shelf_number, found_on, name_lookup};
ghost use Rattle.rv_assembler.specs.Operand.{bytes_of};
ghost use Rattle.rv_assembler.specs.Size.{code_word_count};
ghost use Rattle.rv_assembler.specs.Counts.{region_words};
ghost use Rattle.rv_assembler.specs.Gathering.{no_count, count_behind, count_after, label_means, name_means, declared_by, meaning_in};

use crate::number::{is_length, more, wrap};
use crate::operand::bytes;
use crate::parsing::{Reading, Saying};
use crate::statement::{Code, Statement};
use dn_base::{Memory, Sequence};
use src_text::Token;
use std::alloc::Global;
use std::collections::BTreeMap;

/// What a name means, by the line that declares it.
#[derive(Clone, Copy)]
pub enum Meaning {
    /// The label of a line. It names the code word with this number.
    Label { line: u32, place: u32 },
    /// The region of this number, with its first word and how many words it is declared to have.
    Region { number: u32, start: u32, len: i64 },
    /// The lock of this number.
    Lock { number: u32 },
}

/// How much the lines so far declare: code words, data words, regions and locks.
#[derive(Clone, Copy)]
pub struct Count {
    pub code: u32,
    pub words: u32,
    pub regions: u32,
    pub locks: u32,
}

/// Nothing is declared yet.
pub(crate) const NO_COUNT: Count = Count {
    code: 0,
    words: 0,
    regions: 0,
    locks: 0,
};

/// How many names a bucket has on average, at most, where each line declares one.
const NAMES_ON_A_SHELF: usize = 8;

/// How many code words a statement gives.
pub(crate) fn size(code: Code) -> u32
    ensures { result ≡ code_word_count code }
{
    match code {
        Code::LoadNumber { .. } | Code::LoadAddress { .. } => 2,
        _ => 1,
    }
}

/// How many data words a region has; none where its length is out of range.
fn length(len: i64) -> u32
    ensures { result ≡ region_words len }
{
    if is_length(len) { wrap(len) } else { 0 }
}

/// The counts after a statement.
pub(crate) fn count_behind(count: &Count, statement: &Statement) -> Count
    ensures { result ≡ count_behind count.now statement.now }
{
    match *statement {
        Statement::Instruction(code) => Count {
            code: more(count.code, size(code)),
            words: count.words,
            regions: count.regions,
            locks: count.locks,
        },
        Statement::Region { len, .. } => Count {
            code: count.code,
            words: more(count.words, length(len)),
            regions: more(count.regions, 1),
            locks: count.locks,
        },
        Statement::Lock { .. } => Count {
            code: count.code,
            words: count.words,
            regions: count.regions,
            locks: more(count.locks, 1),
        },
        _ => *count,
    }
}

/// The counts after a line.
fn count_after(count: &Count, reading: &Reading) -> Count
    ensures { result ≡ count_after count.now reading.now }
{
    match reading {
        Reading::Bad(_) => *count,
        Reading::Good(saying) => count_behind(count, &saying.statement),
    }
}

/// Some of the names of a text. The keys are parts of the text.
type Shelf<'a> = BTreeMap<&'a [u8], Meaning>;

/// What a name means by a bucket.
fn found_on<'a>(shelf: &Shelf<'a>, name: &'a [u8]) -> Option<Meaning>
    ensures { result ≡ found_on shelf.now name.now }
{
    shelf.get(&name).copied()
}

/// Gives a name a meaning on its bucket, unless it has one.
fn put_on<'a>(shelf: &mut Shelf<'a>, name: &'a [u8], meaning: Meaning) -> Result<(), Memory>
    ensures { OnOk result ((q : List ℕ) → found_on shelf.new q ≡ option_or (found_on shelf.old q) (if bytes_eq name.now q then Some meaning else None)) }
{
    // Most names are new, so that one search does. A name that had a meaning gets it back.
    if let Some(first) = shelf.insert(name, meaning)? {
        shelf.insert(name, first)?;
    }
    Ok(())
}

/// So many buckets without names.
fn empty_shelves<'a>(alloc: Global, count: usize) -> Result<Vec<Shelf<'a>>, Memory>
    ensures { IfOk result (λ shelves. All IsEmpty shelves.items) }
{
    // for the prover alone: the push of a `Sequence` says what the list is, and that of a `Vec` its capacity too
    let mut shelves = Sequence::from_vec(Vec::with_capacity(alloc, count)?);
    for _shelf in 0..count {
        shelves.push(BTreeMap::new(alloc))?;
    }
    Ok(shelves.into_vec())
}

/// A hash of a name.
fn hash(name: &[u8]) -> u64
    ensures { result ≡ hash_after 0 name.now }
{
    let mut hash = 0;
    for byte in name {
        hash = (hash * 31 + u64::from(*byte)) % 4294967296;
    }
    hash
}

/// The names of a text, on buckets by a hash of their bytes. So a look-up mostly compares few names. Each bucket is a tree: where
/// names are chosen to stand on one bucket, a look-up takes time by the logarithm of their number.
#[derive(Drop)]
pub(crate) struct Names<'a> {
    shelves: Vec<Shelf<'a>>,
    last: Shelf<'a>,
}

impl<'a> Names<'a> {
    /// No names, and so many buckets for them beside the last one.
    fn new(alloc: Global, count: usize) -> Result<Names<'a>, Memory>
        ensures { IfOk result (λ names. (q : List ℕ) → name_lookup names q ≡ None) }
    {
        Ok(Names {
            shelves: empty_shelves(alloc, count)?,
            last: BTreeMap::new(alloc),
        })
    }

    /// The number of a name's bucket; the last one has the number behind the others.
    fn shelf_number(&self, name: &[u8]) -> usize
        ensures { result ≡ shelf_number (length self.now.shelves.items) name.now }
    {
        let count = self.shelves.len() as u64;
        (hash(name) % (count + 1)) as usize
    }

    /// What a name means, if it is declared.
    pub fn meaning(&self, name: &'a [u8]) -> Option<Meaning>
        ensures { result ≡ name_lookup self.now name.now }
    {
        let number = self.shelf_number(name);
        if number < self.shelves.len() {
            found_on(&self.shelves[number], name)
        } else {
            found_on(&self.last, name)
        }
    }

    /// Gives a name a meaning, unless it has one.
    fn declare(&mut self, name: &'a [u8], meaning: Meaning) -> Result<(), Memory>
        ensures { OnOk result ((q : List ℕ) → name_lookup self.new q ≡ option_or (name_lookup self.old q) (if bytes_eq name.now q then Some meaning else None)) }
    {
        let number = self.shelf_number(name);
        if number < self.shelves.len() {
            put_on(&mut self.shelves[number], name, meaning)
        } else {
            put_on(&mut self.last, name, meaning)
        }
    }

    /// Declares the label of a line.
    fn declare_label(
        &mut self,
        text: &'a [u8],
        count: &Count,
        saying: &Saying,
    ) -> Result<(), Memory>
        ensures { OnOk result ((q : List ℕ) → name_lookup self.new q ≡ option_or (name_lookup self.old q) (label_means text.now count.now saying.now q)) }
    {
        match saying.label {
            None => Ok(()),
            Some(label) => self.declare(
                bytes(text, label),
                Meaning::Label {
                    line: saying.line,
                    place: count.code,
                },
            ),
        }
    }

    /// Declares the name of a region or a lock.
    fn declare_name(
        &mut self,
        text: &'a [u8],
        count: &Count,
        statement: &Statement,
    ) -> Result<(), Memory>
        ensures { OnOk result ((q : List ℕ) → name_lookup self.new q ≡ option_or (name_lookup self.old q) (name_means text.now count.now statement.now q)) }
    {
        match *statement {
            Statement::Region { name, len } => self.declare(
                bytes(text, name),
                Meaning::Region {
                    number: count.regions,
                    start: count.words,
                    len,
                },
            ),
            Statement::Lock { name } => self.declare(
                bytes(text, name),
                Meaning::Lock {
                    number: count.locks,
                },
            ),
            _ => Ok(()),
        }
    }

    /// Declares the names of a line of good form.
    fn declare_good(&mut self, text: &'a [u8], count: &Count, saying: &Saying) -> Result<(), Memory>
        ensures { OnOk result ((q : List ℕ) → name_lookup self.new q ≡ option_or (name_lookup self.old q) (option_or (label_means text.now count.now saying.now q) (name_means text.now count.now saying.now.statement q))) }
    {
        self.declare_label(text, count, saying)?;
        self.declare_name(text, count, &saying.statement)
    }

    /// Declares the names of a line.
    fn declare_line(
        &mut self,
        text: &'a [u8],
        count: &Count,
        reading: &Reading,
    ) -> Result<(), Memory>
        ensures { OnOk result ((q : List ℕ) → name_lookup self.new q ≡ option_or (name_lookup self.old q) (declared_by text.now count.now reading.now q)) }
    {
        match reading {
            Reading::Bad(_) => Ok(()),
            Reading::Good(saying) => self.declare_good(text, count, saying),
        }
    }
}

/// What the name of a token means, if it is declared.
pub(crate) fn meaning_of<'a>(text: &'a [u8], names: &Names<'a>, token: Token) -> Option<Meaning>
    ensures { result ≡ name_lookup names.now (bytes_of text.now token) }
{
    names.meaning(bytes(text, token))
}

/// The names that the lines of good form declare.
pub(crate) fn survey<'a>(
    alloc: Global,
    text: &'a [u8],
    readings: &[Reading],
) -> Result<Names<'a>, Memory>
    ensures { IfOk result (λ names. (q : List ℕ) → name_lookup names q ≡ meaning_in text.now no_count readings.now q) }
{
    let mut names = Names::new(alloc, readings.len() / NAMES_ON_A_SHELF)?;
    let mut count = NO_COUNT;
    for reading in readings {
        names.declare_line(text, &count, reading)?;
        count = count_after(&count, reading);
    }
    Ok(names)
}
