//! What exactly is wrong on a line: which part of it, and why.
ghost use Rattle.std.specs.Prelude.{◌≡◌, ◌≤◌, length, option_map, IfOk, slice_get, find};
ghost use Rattle.rv_assembler.specs.Number.{natural_of};
ghost use Rattle.rv_assembler.specs.Operand.{bytes_of};
ghost use Rattle.sentences.specs.Marks.{bad_place_from};
ghost use Rattle.sentences.specs.Examples.{line_alone};
ghost use Rattle.sentences.specs.Known.{known_in};
ghost use Rattle.sentences.specs.Findings.{said_alone, version_for_line, finding_at, at_number, at_interval, at_byte, words_of_sort, words_of_region, out_of_range_at, declared_finding, is_before, declared_token, doubled_token, known_token, declared_at_token, doubled_at, wanted_as, unknown_finding, is_region_sort, is_known_region, want_of_code, want_of_effect, want_of, unknown_if_any, unknown_at, standing_finding, misplaced_at, at_part, finding_by, finding_on, finding_in, finding_of};

use crate::examples::Form;
use crate::known::{Known, Sort, known_in, token_bytes};
use crate::marks::{bad_place, high_length, part_by};
use crate::operands::{
    at_interval, at_number, at_word, code_out_of_range, limit_at, operand_at, tasks_out_of_range,
    unknown_word,
};
use crate::standing::{Standing, standing_in};
use crate::wrong_operands::WrongOperand;
use dn_base::{MOST_OF_TEXT, Memory};
use rv_assembler::{
    Code, Effect, Reading, Saying, SourceFault, Statement, read_line, version_line,
};
use src_text::{Line, Span, Token, bad_number, tokens};
use std::alloc::Global;

/// What a statement needs a name to be declared as.
#[derive(Clone, Copy)]
pub(crate) enum Wanted {
    Label,
    /// A label or a region.
    Address,
    Region,
    Lock,
}

/// A name that a statement needs.
#[derive(Clone, Copy)]
pub(crate) struct Want {
    token: Token,
    as_what: Wanted,
}

/// Why a part of a line is wrong.
#[derive(Clone, Copy)]
pub(crate) enum Cause {
    /// It may not stand outside comments.
    Byte,
    /// It is no statement's word.
    Word,
    /// It is a label, and stands behind another one.
    SecondLabel,
    /// It stands where a word should stand, and isn't one.
    NoWord,
    /// It is a label, and begins with `.`.
    Dotted,
    /// It is a word that takes other operands, of this form.
    Operands {
        form: Option<Form>,
    },
    /// It is an operand of the word `word`, which takes operands of the form, and is another than the word takes.
    Operand {
        word: Span,
        wrong: WrongOperand,
        form: Form,
    },
    /// It is no number of 32 bits.
    NoNumber,
    Range {
        low: i32,
        high: i32,
    },
    /// It is no number of words for a region.
    Length,
    /// It is no even offset in this range, or a label that is too far away.
    Offset {
        low: i32,
        high: i32,
    },
    Cores,
    Address,
    /// It is no index of a region with this many words.
    Index {
        words: u64,
    },
    /// It is no interval of a region with this many words.
    Interval {
        words: u64,
    },
    /// A line declares it already.
    Declared {
        sort: Sort,
        line: u32,
    },
    Undeclared {
        wanted: Wanted,
    },
    /// A line declares it as something else than is wanted.
    Unfit {
        wanted: Wanted,
        sort: Sort,
        line: u32,
    },
    NoPhase,
    /// It asks for a core for which a line of the phase already declares a task.
    CoreInUse {
        line: u32,
    },
    NoTask,
    CodeWords,
    Regions,
    Locks,
    Phases,
    Tasks,
}

/// A part of a line, and why it is wrong.
#[derive(Clone, Copy)]
pub(crate) struct Finding {
    pub(crate) part: Span,
    pub(crate) cause: Cause,
}

pub(crate) fn finding_at(cause: Cause, token: Token) -> Finding
    ensures { result ≡ finding_at cause token }
{
    Finding {
        part: part_by(token),
        cause,
    }
}

/// A byte that may not stand outside of comments, and the bytes of the same letter.
fn at_byte(bytes: &[u8]) -> Option<Finding>
    ensures { result ≡ at_byte bytes.now (bad_place_from 0 bytes.now) }
{
    let start = bad_place(bytes)?;
    let end = start + 1 + high_length(&bytes[start + 1..]);
    Some(Finding {
        part: Span { start, end },
        cause: Cause::Byte,
    })
}

fn natural(number: i64) -> u64
    ensures { result ≡ natural_of number }
{
    if number < 0 { 0 } else { number as u64 }
}

/// How many words a region is declared to have.
fn words_of_region(known: Option<Known>) -> u64
    ensures { result ≡ words_of_region known }
{
    match known {
        Some(
            Known {
                sort: Sort::Region { len },
                line: _line,
            },
        ) => natural(len),
        _ => 0,
    }
}

/// How many words the region of this name is declared to have.
fn words_named(alloc: Global, text: &[u8], bytes: &[u8], name: Token) -> Result<u64, Memory>
    requires { length text.now ≤ MOST_OF_TEXT }
    ensures { IfOk result (λ words. words ≡ words_of_region (known_in text.now (bytes_of bytes.now name))) }
{
    Ok(words_of_region(known_in(alloc, text, token_bytes(bytes, name))?))
}

/// The number or the label that is out of range.
#[tactic(auto, unfolding(crate::specs::Findings::out_of_range_at))]
fn out_of_range_at(
    alloc: Global,
    text: &[u8],
    bytes: &[u8],
    tokens: &[Token],
    statement: &Statement,
) -> Result<Option<Finding>, Memory>
    requires { length text.now ≤ MOST_OF_TEXT }
    ensures { IfOk result (λ finding. finding ≡ out_of_range_at text.now bytes.now tokens.now statement.now) }
{
    match *statement {
        Statement::Instruction(code) => Ok(code_out_of_range(tokens, code)),
        Statement::Region { .. } => Ok(at_number(Cause::Length, tokens)),
        Statement::Word { region, .. } => {
            let words = words_named(alloc, text, bytes, region)?;
            Ok(at_number(Cause::Index { words }, tokens))
        }
        Statement::Tasks(family) => Ok(tasks_out_of_range(tokens, family)),
        Statement::Uses(effect) => {
            let words = words_named(alloc, text, bytes, effect.region)?;
            Ok(at_interval(Cause::Interval { words }, tokens))
        }
        _ => Ok(None),
    }
}

fn declared_finding(token: Token, known: Option<Known>) -> Option<Finding>
    ensures { result ≡ declared_finding token known }
{
    match known {
        Some(known) => Some(finding_at(
            Cause::Declared {
                sort: known.sort,
                line: known.line,
            },
            token,
        )),
        None => None,
    }
}

/// Whether the declaration stands before a line.
fn is_before(line: u32, known: Option<Known>) -> bool
    ensures { result ≡ is_before line known }
{
    match known {
        Some(known) => known.line < line,
        None => false,
    }
}

/// The name that a statement declares.
fn declared_token(statement: &Statement) -> Option<Token>
    ensures { result ≡ declared_token statement.now }
{
    match *statement {
        Statement::Region { name, .. } | Statement::Lock { name } => Some(name),
        _ => None,
    }
}

/// The declaration of a token's name.
fn known_token(
    alloc: Global,
    text: &[u8],
    bytes: &[u8],
    token: Option<Token>,
) -> Result<Option<Known>, Memory>
    requires { length text.now ≤ MOST_OF_TEXT }
    ensures { IfOk result (λ known. known ≡ known_token text.now bytes.now token) }
{
    match token {
        Some(token) => known_in(alloc, text, token_bytes(bytes, token)),
        None => Ok(None),
    }
}

fn declared_at_token(
    alloc: Global,
    text: &[u8],
    bytes: &[u8],
    token: Option<Token>,
) -> Result<Option<Finding>, Memory>
    requires { length text.now ≤ MOST_OF_TEXT }
    ensures { IfOk result (λ finding. finding ≡ declared_at_token text.now bytes.now token) }
{
    match token {
        Some(token) => {
            let known = known_in(alloc, text, token_bytes(bytes, token))?;
            Ok(declared_finding(token, known))
        }
        None => Ok(None),
    }
}

/// The label, or the name of the statement where the label is the first of its name.
fn doubled_token(saying: &Saying, labelled_before: bool) -> Option<Token>
    ensures { result ≡ doubled_token saying.now.statement saying.now.label labelled_before }
{
    if labelled_before {
        saying.label
    } else {
        declared_token(&saying.statement)
    }
}

/// The name that is declared before.
#[tactic(auto, unfolding(crate::specs::Findings::doubled_at))]
fn doubled_at(
    alloc: Global,
    text: &[u8],
    bytes: &[u8],
    line: u32,
    saying: &Saying,
) -> Result<Option<Finding>, Memory>
    requires { length text.now ≤ MOST_OF_TEXT }
    ensures { IfOk result (λ finding. finding ≡ doubled_at text.now bytes.now line saying.now) }
{
    let first = known_token(alloc, text, bytes, saying.label)?;
    let doubled = doubled_token(saying, is_before(line, first));
    declared_at_token(alloc, text, bytes, doubled)
}

fn wanted_as(as_what: Wanted, token: Token) -> Want
    ensures { result ≡ wanted_as as_what token }
{
    Want { token, as_what }
}

fn unknown_finding(want: Want, known: Option<Known>) -> Finding
    ensures { result ≡ unknown_finding want known }
{
    let cause = match known {
        None => Cause::Undeclared {
            wanted: want.as_what,
        },
        Some(known) => Cause::Unfit {
            wanted: want.as_what,
            sort: known.sort,
            line: known.line,
        },
    };
    finding_at(cause, want.token)
}

fn is_known_region(known: Option<Known>) -> bool
    ensures { result ≡ is_known_region known }
{
    match known {
        Some(known) => matches!(known.sort, Sort::Region { .. }),
        None => false,
    }
}

fn want_of_code(code: Code) -> Option<Want>
    ensures { result ≡ want_of_code code }
{
    match code {
        Code::Jump { target, .. } | Code::Branch { target, .. } => {
            Some(wanted_as(Wanted::Label, target))
        }
        Code::LoadAddress { name, .. } => Some(wanted_as(Wanted::Address, name)),
        _ => None,
    }
}

fn want_of_effect(effect: Effect, has_region: bool) -> Option<Want>
    ensures { result ≡ want_of_effect effect has_region }
{
    if !has_region {
        return Some(wanted_as(Wanted::Region, effect.region));
    }
    match effect.lock {
        Some(lock) => Some(wanted_as(Wanted::Lock, lock)),
        None => None,
    }
}

/// The name that a statement needs; of an effect its region, or its lock where the region is one.
fn want_of(
    alloc: Global,
    text: &[u8],
    bytes: &[u8],
    statement: &Statement,
) -> Result<Option<Want>, Memory>
    requires { length text.now ≤ MOST_OF_TEXT }
    ensures { IfOk result (λ want. want ≡ want_of text.now bytes.now statement.now) }
{
    match *statement {
        Statement::Instruction(code) => Ok(want_of_code(code)),
        Statement::Word { region, .. } => Ok(Some(wanted_as(Wanted::Region, region))),
        Statement::Tasks(family) => Ok(Some(wanted_as(Wanted::Label, family.entry))),
        Statement::Uses(effect) => {
            let known = known_in(alloc, text, token_bytes(bytes, effect.region))?;
            Ok(want_of_effect(effect, is_known_region(known)))
        }
        _ => Ok(None),
    }
}

/// The name that isn't declared as what the statement needs.
#[tactic(auto, unfolding(crate::specs::Findings::unknown_at))]
fn unknown_at(
    alloc: Global,
    text: &[u8],
    bytes: &[u8],
    statement: &Statement,
) -> Result<Option<Finding>, Memory>
    requires { length text.now ≤ MOST_OF_TEXT }
    ensures { IfOk result (λ finding. finding ≡ unknown_at text.now bytes.now statement.now) }
{
    match want_of(alloc, text, bytes, statement)? {
        Some(want) => {
            let known = known_in(alloc, text, token_bytes(bytes, want.token))?;
            Ok(Some(unknown_finding(want, known)))
        }
        None => Ok(None),
    }
}

fn standing_finding(tokens: &[Token], standing: Standing) -> Option<Finding>
    ensures { result ≡ standing_finding tokens.now standing }
{
    match standing {
        Standing::NoPhase => at_word(Cause::NoPhase, tokens),
        Standing::Free => None,
        Standing::Taken { line } => at_word(Cause::CoreInUse { line }, tokens),
    }
}

/// Tasks before any phase, or on a core that has one; an effect without a task.
#[tactic(auto, unfolding(crate::specs::Findings::misplaced_at))]
fn misplaced_at(
    alloc: Global,
    text: &[u8],
    line: u32,
    tokens: &[Token],
    statement: &Statement,
) -> Result<Option<Finding>, Memory>
    requires { length text.now ≤ MOST_OF_TEXT }
    ensures { IfOk result (λ finding. finding ≡ misplaced_at text.now line tokens.now statement.now) }
{
    match *statement {
        Statement::Tasks(family) => {
            let standing = standing_in(alloc, text, line, family)?;
            Ok(standing_finding(tokens, standing))
        }
        Statement::Uses(_) => Ok(at_word(Cause::NoTask, tokens)),
        _ => Ok(None),
    }
}

/// The version of a text, which is 0 for version 1.
#[tactic(auto, unfolding(crate::specs::Findings::version_for_line))]
fn version_for_line(alloc: Global, text: &[u8]) -> Result<u32, Memory>
    requires { length text.now ≤ MOST_OF_TEXT }
    ensures { IfOk result (λ version. version ≡ version_for_line text.now) }
{
    let tokenized = tokens(alloc, text)?;
    if 0 < version_line(text, tokenized.as_slice()) {
        Ok(2)
    } else {
        Ok(0)
    }
}

/// What is wrong, by what the line says.
fn finding_by(
    alloc: Global,
    text: &[u8],
    bytes: &[u8],
    tokens: &[Token],
    reading: &Reading,
    fault: SourceFault,
) -> Result<Option<Finding>, Memory>
    requires { length text.now ≤ MOST_OF_TEXT }
    ensures { IfOk result (λ finding. finding ≡ finding_by text.now bytes.now tokens.now reading.now fault) }
{
    let saying = match reading {
        Reading::Bad(_) => return Ok(None),
        Reading::Good(saying) => saying,
    };
    let statement = &saying.statement;
    match fault {
        SourceFault::OutOfRange { .. } => out_of_range_at(alloc, text, bytes, tokens, statement),
        SourceFault::DoubleName { line } => doubled_at(alloc, text, bytes, line, saying),
        SourceFault::UnknownName { .. } => unknown_at(alloc, text, bytes, statement),
        SourceFault::Misplaced { line } => misplaced_at(alloc, text, line, tokens, statement),
        SourceFault::Limit { .. } => Ok(limit_at(tokens, statement)),
        _ => Ok(None),
    }
}

/// What is wrong, by the tokens alone or else by what the line says.
#[tactic(auto, unfolding(crate::specs::Findings::finding_on, crate::specs::Findings::said_alone))]
fn finding_on(
    alloc: Global,
    text: &[u8],
    bytes: &[u8],
    line: &Line,
    fault: SourceFault,
) -> Result<Option<Finding>, Memory>
    requires { length text.now ≤ MOST_OF_TEXT }
    ensures { IfOk result (λ finding. finding ≡ finding_on text.now bytes.now line.now fault) }
{
    let tokens = line.tokens.as_slice();
    let version = version_for_line(alloc, text)?;
    match fault {
        SourceFault::UnknownWord { .. } => Ok(at_word(unknown_word(tokens), tokens)),
        SourceFault::BadOperand { .. } => operand_at(alloc, version, bytes, tokens),
        _ => {
            finding_by(
                alloc,
                text,
                bytes,
                tokens,
                &read_line(version, bytes, line),
                fault,
            )
        }
    }
}

fn at_part(part: Option<Span>) -> Option<Finding>
    ensures { result ≡ at_part part }
{
    match part {
        Some(part) => Some(Finding {
            part,
            cause: Cause::NoNumber,
        }),
        None => None,
    }
}

/// What is wrong, by the tokens of the line.
fn finding_in(
    alloc: Global,
    text: &[u8],
    bytes: &[u8],
    fault: SourceFault,
) -> Result<Option<Finding>, Memory>
    requires text { length text.now ≤ MOST_OF_TEXT }
    requires bytes { length bytes.now ≤ MOST_OF_TEXT }
    ensures { IfOk result (λ finding. finding ≡ finding_in text.now bytes.now (line_alone bytes.now) fault) }
{
    let tokenized = tokens(alloc, bytes)?;
    match tokenized.first() {
        Some(line) => finding_on(alloc, text, bytes, line, fault),
        None => Ok(None),
    }
}

/// What is wrong on the line with these bytes.
pub(crate) fn finding_of(
    alloc: Global,
    text: &[u8],
    bytes: &[u8],
    fault: SourceFault,
) -> Result<Option<Finding>, Memory>
    requires text { length text.now ≤ MOST_OF_TEXT }
    requires bytes { length bytes.now ≤ MOST_OF_TEXT }
    ensures { IfOk result (λ finding. finding ≡ finding_of text.now bytes.now fault) }
{
    match fault {
        SourceFault::BadByte { .. } => Ok(at_byte(bytes)),
        SourceFault::BadNumber { .. } => Ok(at_part(bad_number(bytes))),
        _ => finding_in(alloc, text, bytes, fault),
    }
}
