//! The faults of lines of good form.
ghost use Rattle.std.specs.Prelude.{◌≡◌, ℕ, ◌-◌, ◌+◌, ◌<◌, ◌≤◌, List, Option, is_none, IsTrue, ℤ, pos, neg_ℤ, ◌+ℤ◌, ◌≤ℤ◌};
ghost use Rattle.rv_assembler.specs.Lookup.{name_lookup};
ghost use Rattle.rv_assembler.specs.Number.{is_within};
ghost use Rattle.rv_assembler.specs.Fault.{stepped_fits, extent_far, family_far, is_address, entry_far, are_cores, word_far, out_of_range, entry_lost, effect_lost, unknown, is_on, core_in_use, misplaced, most_regions, over_limit};
ghost use Rattle.rv_assembler.specs.Testing.{label_doubled, region_doubled, lock_doubled, name_doubled, doubled_by_meaning, draft_fault};
ghost use Rattle.rv_assembler.specs.Operand.{bytes_of};
ghost use Rattle.rv_assembler.specs.Emission.{label_index};
ghost use Rattle.rv_assembler.specs.AddedLine.{emission_at, far_if_any, lost_if_any};
ghost use Rattle.rv_assembler.specs.Named.{region_span, lock_number};

use crate::draft::{Draft, Span, Start, lock_named, region_named};
use crate::emission::Emission;
use crate::fault::SourceFault;
use crate::names::{Count, Meaning, Names, meaning_of};
use crate::number::{is_interval, is_length, wrap};
use crate::parsing::Saying;
use crate::statement::{Effect, Extent, Family, Statement};
use src_text::{Token, TokenKind};

fn is_far(emission: Option<Emission>) -> bool
    ensures { result ≡ far_if_any emission }
{
    matches!(emission, Some(Emission::OutOfRange))
}

fn is_lost(emission: Option<Emission>) -> bool
    ensures { result ≡ lost_if_any emission }
{
    matches!(emission, Some(Emission::Unknown))
}

/// Whether the interval lies in the region, and so do `count - 1` more, each a step further than the one before.
fn stepped_fits(lo: i128, hi: i128, step: i64, len: i64, count: u32) -> bool
    ensures { result ≡ stepped_fits len step lo hi count }
{
    if count == 0 {
        return true;
    }
    if !is_interval(lo, hi, len) {
        return false;
    }
    stepped_fits(
        lo + i128::from(step),
        hi + i128::from(step),
        step,
        len,
        count - 1,
    )
}

/// Whether the words of an effect lie outside the region for some of `count` tasks.
fn extent_far(span: Option<Span>, extent: Extent, count: u32) -> bool
    ensures { result ≡ extent_far span extent count }
{
    let Some(span) = span else {
        return false;
    };
    match extent {
        Extent::Whole => false,
        Extent::Part { lo, hi } => !is_interval(i128::from(lo), i128::from(hi), span.len),
        Extent::Stepped { lo, hi, step } => !stepped_fits(
            i128::from(lo),
            i128::from(hi),
            step,
            span.len,
            count,
        ),
    }
}

/// Whether a word's index is outside the region.
fn word_far(span: Option<Span>, index: i64) -> bool
    ensures { result ≡ word_far span index }
{
    match span {
        Some(span) => !(0 <= index && index < span.len),
        None => false,
    }
}

/// Whether a number is the address of a word.
fn is_address(number: i64) -> bool
    ensures { result ≡ is_address number }
{
    0 <= number && number < 0x1_0000_0000 && wrap(number) % 4 == 0
}

/// Whether an entry is a number that is no address of a word.
fn entry_far(entry: Token) -> bool
    ensures { result ≡ entry_far entry.kind }
{
    match entry.kind {
        TokenKind::Number(number) => !is_address(number),
        _ => false,
    }
}

/// Whether a family of tasks is on some of the cores 0 to 15.
fn are_cores(family: Family) -> bool
    ensures { result ≡ are_cores family }
{
    0 <= family.core
        && 1 <= family.count
        && i128::from(family.core) + i128::from(family.count) <= 16
}

/// Whether a family of tasks is on other cores than 0 to 15, or has a bad entry.
fn family_far(family: Family) -> bool
    ensures { result ≡ family_far family }
{
    !are_cores(family) || entry_far(family.entry)
}

/// Whether a number is outside its range, or a label too far away.
fn out_of_range<'a>(
    text: &'a [u8],
    names: &Names<'a>,
    draft: &Draft,
    statement: &Statement,
    emission: Option<Emission>,
) -> bool
    requires { emission ≡ emission_at text.now (name_lookup names.now) draft.now.count.code statement.now }
    ensures { result ≡ out_of_range text.now (name_lookup names.now) draft.now statement.now }
{
    match *statement {
        Statement::Instruction(_) => is_far(emission),
        Statement::Region { len, .. } => !is_length(len),
        Statement::Word {
            region,
            index,
            value: _value,
        } => word_far(region_named(text, names, region), index),
        Statement::Tasks(family) => family_far(family),
        Statement::Uses(effect) => extent_far(
            region_named(text, names, effect.region),
            effect.extent,
            draft.family.count,
        ),
        _ => false,
    }
}

/// Whether the name of a label means something else.
fn label_doubled(meaning: Option<Meaning>, line: u32) -> bool
    ensures { result ≡ label_doubled meaning line }
{
    match meaning {
        Some(Meaning::Label { line: first, .. }) => first != line,
        _ => true,
    }
}

/// Whether the name of a region means something else than the region of this number.
fn region_doubled(meaning: Option<Meaning>, number: u32) -> bool
    ensures { result ≡ region_doubled meaning number }
{
    match meaning {
        Some(Meaning::Region { number: first, .. }) => first != number,
        _ => true,
    }
}

/// Whether the name of a lock means something else than the lock of this number.
fn lock_doubled(meaning: Option<Meaning>, number: u32) -> bool
    ensures { result ≡ lock_doubled meaning number }
{
    match meaning {
        Some(Meaning::Lock { number: first }) => first != number,
        _ => true,
    }
}

/// Whether the name of a region or a lock that a statement declares means something else.
fn name_doubled<'a>(text: &'a [u8], names: &Names<'a>, count: &Count, statement: &Statement) -> bool
    ensures { result ≡ name_doubled text.now (name_lookup names.now) count.now statement.now }
{
    match *statement {
        Statement::Region { name, len: _len } => region_doubled(
            meaning_of(text, names, name),
            count.regions,
        ),
        Statement::Lock { name } => lock_doubled(meaning_of(text, names, name), count.locks),
        _ => false,
    }
}

/// Whether a name that the line declares is declared before.
fn is_doubled<'a>(text: &'a [u8], names: &Names<'a>, count: &Count, saying: &Saying) -> bool
    ensures { result ≡ doubled_by_meaning text.now (name_lookup names.now) count.now saying.now }
{
    if let Some(label) = saying.label {
        if label_doubled(meaning_of(text, names, label), saying.line) {
            return true;
        }
    }
    name_doubled(text, names, count, &saying.statement)
}

/// Whether an entry is a name and no label.
fn entry_lost<'a>(text: &'a [u8], names: &Names<'a>, entry: Token) -> bool
    ensures { result ≡ entry_lost text.now (name_lookup names.now) entry }
{
    if let TokenKind::Number(_) = entry.kind {
        return false;
    }
    !matches!(meaning_of(text, names, entry), Some(Meaning::Label { .. }))
}

/// Whether the region or the lock of an effect isn't declared.
fn effect_lost<'a>(text: &'a [u8], names: &Names<'a>, effect: Effect) -> bool
    ensures { result ≡ effect_lost text.now (name_lookup names.now) effect }
{
    if no_region(text, names, effect.region) {
        return true;
    }
    match effect.lock {
        Some(lock) => lock_named(text, names, lock).is_none(),
        None => false,
    }
}

/// Whether a name means no region.
fn no_region<'a>(text: &'a [u8], names: &Names<'a>, name: Token) -> bool
    ensures { result ≡ is_none (region_span (name_lookup names.now (bytes_of text.now name))) }
{
    match region_named(text, names, name) {
        Some(_) => false,
        None => true,
    }
}

/// Whether a name isn't declared, or is of another kind.
fn is_unknown<'a>(
    text: &'a [u8],
    names: &Names<'a>,
    here: u32,
    statement: &Statement,
    emission: Option<Emission>,
) -> bool
    requires { emission ≡ emission_at text.now (name_lookup names.now) here statement.now }
    ensures { result ≡ unknown text.now (name_lookup names.now) here statement.now }
{
    match *statement {
        Statement::Instruction(_) => is_lost(emission),
        Statement::Word {
            region,
            index: _index,
            value: _value,
        } => no_region(text, names, region),
        Statement::Tasks(family) => entry_lost(text, names, family.entry),
        Statement::Uses(effect) => effect_lost(text, names, effect),
        _ => false,
    }
}

/// Whether a family of tasks has one on this core.
fn has_core(family: Family, core: u32) -> bool
    ensures { result ≡ is_within family.core (family.core +ℤ family.count) (pos core) }
{
    let core = i128::from(core);
    let first = i128::from(family.core);
    first <= core && core < first + i128::from(family.count)
}

/// Whether it is a task of the phase on one of the family's cores.
fn is_on(phase: u32, family: Family, task: Start) -> bool
    ensures { result ≡ is_on phase family task }
{
    task.phase == phase && has_core(family, task.core)
}

/// Whether one of the family's cores has a task in the phase.
fn core_in_use(tasks: &[Start], phase: u32, family: Family) -> bool
    ensures { result ≡ core_in_use tasks.now phase family }
{
    tasks.iter().any(|task| is_on(phase, family, *task))
}

/// Whether the statement may not stand here.
fn is_misplaced(draft: &Draft, statement: &Statement) -> bool
    ensures { result ≡ misplaced draft.now statement.now }
{
    match *statement {
        Statement::Tasks(family) => {
            draft.phases == 0 || core_in_use(draft.tasks.as_slice(), draft.phases, family)
        }
        Statement::Uses(_) => draft.family.count == 0,
        _ => false,
    }
}

/// The greatest number of regions.
fn most_regions(version_2: bool) -> usize
    ensures { result ≡ most_regions version_2 }
{
    if version_2 { 4096 } else { 256 }
}

/// Whether there is more than a program may have.
pub(crate) fn over_limit(version_2: bool, draft: &Draft) -> bool
    ensures { result ≡ over_limit version_2 draft.now }
{
    16384 < draft.code.len()
        || 65536 < draft.count.words
        || most_regions(version_2) < draft.regions.len()
        || 32 < draft.locks.len()
        || 64 < draft.phases
        || 64 < draft.tasks.len()
}

/// The first fault, except for the limits, of a line with these code words.
pub(crate) fn early_fault<'a>(
    text: &'a [u8],
    names: &Names<'a>,
    draft: &Draft,
    saying: &Saying,
    emission: Option<Emission>,
) -> Option<SourceFault>
    requires { emission ≡ emission_at text.now (name_lookup names.now) draft.now.count.code saying.now.statement }
    ensures { result ≡ draft_fault text.now (name_lookup names.now) draft.now saying.now }
{
    let line = saying.line;
    if out_of_range(text, names, draft, &saying.statement, emission) {
        return Some(SourceFault::OutOfRange { line });
    }
    if is_doubled(text, names, &draft.count, saying) {
        return Some(SourceFault::DoubleName { line });
    }
    if is_unknown(text, names, draft.count.code, &saying.statement, emission) {
        return Some(SourceFault::UnknownName { line });
    }
    if is_misplaced(draft, &saying.statement) {
        return Some(SourceFault::Misplaced { line });
    }
    None
}
