//! Which lines of a text have effects that give a data word to a task that conflicts on it, in the way of the conflict.
ghost use Rattle.std.specs.Prelude.{◌≡◌, ◌≤◌, ◌++◌, length, map, slice_get, bytes_eq, pos, neg_ℤ, ◌+ℤ◌, ◌*ℤ◌, ◌≤ℤ◌, ◌<ℤ◌, IfOk, OnOk};
ghost use Rattle.rv_assembler.specs.Number.{is_within};
ghost use Rattle.rv_assembler.specs.Operand.{bytes_of};
ghost use Rattle.rv_assembler.specs.Reading.{reading_of};
ghost use Rattle.sentences.specs.Claims.{moved_has, extent_has, gives_to, names_region, names_lock, uses_so, effect_claims, statement_claims, line_if, claim_on, family_by, family_behind, claims_behind, claims_of, claims_in, contender_at};

use dn_base::{MOST_OF_TEXT, Memory, Name, Sequence};
use region_table::{Program, Region};
use rv_assembler::{Effect, Extent, Reading, Statement, read_line, version_line};
use src_text::{Line, Token, tokens};
use std::alloc::Global;
use text_places::{TaskPlace, WordPlace, region_of_word};

/// A way to use a word.
#[derive(Clone, Copy)]
pub(crate) enum Way {
    /// Stores to it without a lock.
    Stores,
    /// Loads of it or stores to it without a lock.
    Plainly,
    /// Loads of it or stores to it under the lock of this number.
    Under(usize),
}

/// A task of a conflict, the word of the conflict, and in which way the task uses the word.
#[derive(Clone, Copy)]
pub(crate) struct Contender {
    pub(crate) place: WordPlace,
    pub(crate) task: Option<TaskPlace>,
    pub(crate) way: Way,
}

/// A task that uses a data word of a program in some way, if a region has the word.
pub(crate) fn contender_at(
    program: &Program,
    word: u32,
    task: Option<TaskPlace>,
    way: Way,
) -> Option<Contender>
    ensures { result ≡ contender_at program.now.regions word task way }
{
    match region_of_word(program, word) {
        Some(place) => Some(Contender { place, task, way }),
        None => None,
    }
}

/// By how much the interval of an effect is moved for the family's task of this number.
pub(crate) fn moved_for(part: u32, step: i64) -> i128
    ensures { result ≡ pos part *ℤ step }
{
    i128::from(part) * i128::from(step)
}

fn is_within(low: i128, below: i128, number: i128) -> bool
    ensures { result ≡ is_within low below number }
{
    low <= number && number < below
}

/// Whether an index is in an interval.
fn interval_has(lo: i64, hi: i64, index: u32) -> bool
    ensures { result ≡ is_within lo hi (pos index) }
{
    lo <= i64::from(index) && i64::from(index) < hi
}

pub(crate) fn moved_to(bound: i64, moved: i128) -> i128
    requires low { neg_ℤ (pos 65536) ≤ℤ moved }
    requires high { moved <ℤ pos 65537 }
    ensures { result ≡ bound +ℤ moved }
{
    i128::from(bound) + moved
}

fn is_between(low: i128, below: i128, index: u32) -> bool
    ensures { result ≡ is_within low below (pos index) }
{
    is_within(low, below, i128::from(index))
}

/// Whether an index is in an interval that is moved on by so much.
fn moved_has(lo: i64, hi: i64, moved: i128, index: u32) -> bool
    ensures { result ≡ moved_has lo hi moved index }
{
    if -65536 <= moved && moved < 65537 {
        is_between(moved_to(lo, moved), moved_to(hi, moved), index)
    } else {
        false
    }
}

/// Whether an effect gives the word of this index in its region to the family's task of this number.
fn extent_has(extent: Extent, part: u32, index: u32) -> bool
    ensures { result ≡ extent_has extent part index }
{
    match extent {
        Extent::Whole => true,
        Extent::Part { lo, hi } => interval_has(lo, hi, index),
        Extent::Stepped { lo, hi, step } => moved_has(lo, hi, moved_for(part, step), index),
    }
}

/// Whether an effect of the family that stands on this line gives the word of this index to the task.
fn gives_to(family: u32, extent: Extent, index: u32, task: Option<TaskPlace>) -> bool
    ensures { result ≡ gives_to family extent index task }
{
    match task {
        Some(task) => task.line == family && extent_has(extent, task.part, index),
        None => false,
    }
}

/// The bytes of a token.
pub(crate) fn token_bytes(text: &[u8], token: Token) -> &[u8]
    ensures { result.now ≡ bytes_of text.now token }
{
    let (start, end) = (token.start as usize, token.end as usize);
    if start <= end && end <= text.len() {
        &text[start..end]
    } else {
        &text[..0]
    }
}

fn is_spelled(text: &[u8], token: Token, name: &[u8]) -> bool
    ensures { result ≡ bytes_eq (bytes_of text.now token) name.now }
{
    token_bytes(text, token) == name
}

/// Whether a token is the name of the region of this number.
pub(crate) fn names_region(text: &[u8], token: Token, regions: &[Region], number: usize) -> bool
    ensures { result ≡ names_region text.now token (slice_get regions.now number) }
{
    match regions.get(number) {
        Some(region) => is_spelled(text, token, region.name.bytes()),
        None => false,
    }
}

/// Whether a token is the name of the lock of this number.
fn names_lock(text: &[u8], token: Option<Token>, locks: &[Name], number: usize) -> bool
    ensures { result ≡ names_lock text.now token (slice_get locks.now number) }
{
    match (token, locks.get(number)) {
        (Some(token), Some(name)) => is_spelled(text, token, name.bytes()),
        _ => false,
    }
}

/// Whether an effect for loads, or for stores too, with the name of a lock or without one, is of this way.
fn uses_so(text: &[u8], locks: &[Name], way: Way, writes: bool, lock: Option<Token>) -> bool
    ensures { result ≡ uses_so text.now locks.now way writes lock }
{
    match way {
        Way::Stores => writes && lock.is_none(),
        Way::Plainly => lock.is_none(),
        Way::Under(number) => names_lock(text, lock, locks, number),
    }
}

fn effect_claims(
    text: &[u8],
    program: &Program,
    contender: Contender,
    family: u32,
    effect: Effect,
) -> bool
    ensures { result ≡ effect_claims text.now program.now contender family effect }
{
    let Contender { place, task, way } = contender;
    let regions = program.regions.as_slice();
    let locks = program.locks.as_slice();
    names_region(text, effect.region, regions, place.region)
        && (uses_so(text, locks, way, effect.writes, effect.lock)
            && gives_to(family, effect.extent, place.index, task))
}

/// Whether a statement, where the current family is that of the line `family`, gives the task the word.
fn statement_claims(
    text: &[u8],
    program: &Program,
    contender: Contender,
    family: u32,
    statement: &Statement,
) -> bool
    ensures { result ≡ statement_claims text.now program.now contender family statement.now }
{
    match *statement {
        Statement::Uses(effect) => effect_claims(text, program, contender, family, effect),
        _ => false,
    }
}

fn push_if(lines: &mut Sequence<u32>, claims: bool, line: u32) -> Result<(), Memory>
    ensures { OnOk result (lines.new ≡ lines.old ++ line_if claims line) }
{
    if claims { lines.push(line) } else { Ok(()) }
}

/// Adds the line, if it claims the word.
fn push_claim(
    lines: &mut Sequence<u32>,
    text: &[u8],
    program: &Program,
    contender: Contender,
    family: u32,
    reading: &Reading,
) -> Result<(), Memory>
    ensures { OnOk result (lines.new ≡ lines.old ++ claim_on text.now program.now contender family reading.now) }
{
    match reading {
        Reading::Bad(_) => Ok(()),
        Reading::Good(saying) => {
            let claims = statement_claims(text, program, contender, family, &saying.statement);
            push_if(lines, claims, saying.line)
        }
    }
}

fn family_by(family: u32, line: u32, statement: &Statement) -> u32
    ensures { result ≡ family_by family line statement.now }
{
    match *statement {
        Statement::Phase => 0,
        Statement::Tasks(_) => line,
        _ => family,
    }
}

/// The line of the current family after one more line; 0 if there is none.
pub(crate) fn family_behind(family: u32, reading: &Reading) -> u32
    ensures { result ≡ family_behind family reading.now }
{
    match reading {
        Reading::Bad(_) => family,
        Reading::Good(saying) => family_by(family, saying.line, &saying.statement),
    }
}

fn claims_among(
    alloc: Global,
    text: &[u8],
    version: u32,
    lines: &[Line],
    program: &Program,
    contender: Contender,
) -> Result<Sequence<u32>, Memory>
    ensures { IfOk result (λ claims. claims ≡ claims_behind text.now program.now contender 0 (map (reading_of version text.now) lines.now)) }
{
    let mut claims = Sequence::new(alloc);
    let mut family = 0;
    for line in lines {
        let reading = read_line(version, text, line);
        push_claim(&mut claims, text, program, contender, family, &reading)?;
        family = family_behind(family, &reading);
    }
    Ok(claims)
}

#[tactic(auto, unfolding(crate::specs::Claims::claims_of))]
fn claims_of(
    alloc: Global,
    text: &[u8],
    program: &Program,
    contender: Contender,
) -> Result<Sequence<u32>, Memory>
    requires { length text.now ≤ MOST_OF_TEXT }
    ensures { IfOk result (λ claims. claims ≡ claims_of text.now program.now contender) }
{
    let tokenized = tokens(alloc, text)?;
    let lines = tokenized.as_slice();
    let version = version_line(text, lines);
    claims_among(alloc, text, version, lines, program, contender)
}

/// The lines of a text whose effects give the task the word, in its way.
pub(crate) fn claims_in(
    alloc: Global,
    text: &[u8],
    program: &Program,
    contender: Contender,
) -> Result<Sequence<u32>, Memory>
    ensures { IfOk result (λ claims. claims ≡ claims_in text.now program.now contender) }
{
    if MOST_OF_TEXT < text.len() {
        return Ok(Sequence::new(alloc));
    }
    claims_of(alloc, text, program, contender)
}
