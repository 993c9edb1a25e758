//! Which token of a line is wrong, by the line's tokens and its statement alone.
ghost use Rattle.std.specs.Prelude.{◌≡◌, option_map, slice_get, find, IfOk};
ghost use Rattle.rv_isa.specs.Table.{is_shift};
ghost use Rattle.rv_assembler.specs.Fault.{are_cores};
ghost use Rattle.rv_assembler.specs.Operand.{bytes_of};
ghost use Rattle.sentences.specs.Examples.{form_for};
ghost use Rattle.rv_assembler.specs.Shape.{is_name, is_colon, is_plain};
ghost use Rattle.sentences.specs.Findings.{behind_label, at_word, is_second_label, unknown_word, is_number_token, at_number, is_number_behind, interval_part, at_interval, at_range, at_offset, code_out_of_range, tasks_out_of_range, excess, at_word_if, limit_at, operand_or_word, operands_finding, word_or_operands, at_first, dotted_label, operand_at};

use crate::examples::{Form, form_for};
use crate::findings::{Cause, Finding, finding_at};
use crate::known::token_bytes;
use crate::marks::part_by;
use crate::wrong_operands::{WrongOperand, sorts_of, wrong_among};
use dn_base::Memory;
use rv_assembler::{Code, Family, Statement};
use rv_isa::AluOp;
use src_text::{Span, Token, TokenKind};
use std::alloc::Global;

pub(crate) fn is_name(token: Token) -> bool
    ensures { result ≡ is_name token.kind }
{
    matches!(token.kind, TokenKind::Name)
}

fn is_colon(token: Token) -> bool
    ensures { result ≡ is_colon token.kind }
{
    matches!(token.kind, TokenKind::Colon)
}

pub(crate) fn is_number(token: Token) -> bool
    ensures { result ≡ is_number_token token }
{
    matches!(token.kind, TokenKind::Number(_))
}

/// A name that may be declared: it doesn't begin with `.`.
pub(crate) fn is_plain(bytes: &[u8], token: Token) -> bool
    ensures { result ≡ is_plain bytes.now token }
{
    is_name(token) && token_bytes(bytes, token).first().copied().unwrap_or(0) != b'.'
}

/// The tokens after the label.
fn behind_label(tokens: &[Token]) -> &[Token]
    ensures { result.now ≡ behind_label tokens.now }
{
    match tokens {
        [label, colon, rest @ ..] if is_name(*label) && is_colon(*colon) => rest,
        _ => tokens,
    }
}

/// The word of the statement.
pub(crate) fn at_word(cause: Cause, tokens: &[Token]) -> Option<Finding>
    ensures { result ≡ at_word cause tokens.now }
{
    match behind_label(tokens).get(0) {
        Some(word) => Some(finding_at(cause, *word)),
        None => None,
    }
}

/// Whether the line has a label, and what stands behind it is a name with a colon too.
fn is_second_label(tokens: &[Token]) -> bool
    ensures { result ≡ is_second_label tokens.now }
{
    match tokens {
        [label, colon, second, behind, ..] => {
            is_name(*label) && is_colon(*colon) && is_name(*second) && is_colon(*behind)
        }
        _ => false,
    }
}

/// Why a word is that of no statement.
pub(crate) fn unknown_word(tokens: &[Token]) -> Cause
    ensures { result ≡ unknown_word tokens.now }
{
    if is_second_label(tokens) {
        Cause::SecondLabel
    } else {
        Cause::Word
    }
}

fn first_number(tokens: &[Token]) -> Option<Token>
    ensures { result ≡ find is_number_token tokens.now }
{
    for token in tokens {
        if is_number(*token) {
            return Some(*token);
        }
    }
    None
}

/// The first number.
pub(crate) fn at_number(cause: Cause, tokens: &[Token]) -> Option<Finding>
    ensures { result ≡ at_number cause tokens.now }
{
    match first_number(tokens) {
        Some(number) => Some(finding_at(cause, number)),
        None => None,
    }
}

/// Whether a token is a number that begins behind a place.
fn is_number_behind(place: u32, token: Token) -> bool
    ensures { result ≡ is_number_behind place token }
{
    is_number(token) && place < token.start
}

/// The first number that begins behind a place.
fn number_behind(place: u32, tokens: &[Token]) -> Option<Token>
    ensures { result ≡ find (is_number_behind place) tokens.now }
{
    for token in tokens {
        if is_number_behind(place, *token) {
            return Some(*token);
        }
    }
    None
}

fn interval_part(first: Token, second: Option<Token>) -> Span
    ensures { result ≡ interval_part first second }
{
    match second {
        Some(second) => Span {
            start: first.start as usize,
            end: second.end as usize,
        },
        None => part_by(first),
    }
}

/// From the first number to the next one: both ends of an interval.
pub(crate) fn at_interval(cause: Cause, tokens: &[Token]) -> Option<Finding>
    ensures { result ≡ at_interval cause tokens.now }
{
    match first_number(tokens) {
        Some(first) => Some(Finding {
            part: interval_part(first, number_behind(first.start, tokens)),
            cause,
        }),
        None => None,
    }
}

/// The first number, which isn't from `low` to `high`.
fn at_range(low: i32, high: i32, tokens: &[Token]) -> Option<Finding>
    ensures { result ≡ at_range low high tokens.now }
{
    at_number(Cause::Range { low, high }, tokens)
}

/// A target, which isn't an even offset from `low` to `high`.
fn at_offset(low: i32, high: i32, target: Token) -> Finding
    ensures { result ≡ at_offset low high target }
{
    finding_at(Cause::Offset { low, high }, target)
}

fn is_shift(op: AluOp) -> bool
    ensures { result ≡ is_shift op }
{
    matches!(op, AluOp::Sll | AluOp::Srl | AluOp::Sra)
}

/// The number or the target of an instruction, which is out of its range.
#[tactic(auto, unfolding(crate::specs::Findings::code_out_of_range))]
pub(crate) fn code_out_of_range(tokens: &[Token], code: Code) -> Option<Finding>
    ensures { result ≡ code_out_of_range tokens.now code }
{
    match code {
        Code::Upper { .. } => at_range(0, 1048575, tokens),
        Code::Jump { target, .. } => Some(at_offset(-1048576, 1048574, target)),
        Code::Branch { target, .. } => Some(at_offset(-4096, 4094, target)),
        Code::OpImm { op, .. } if is_shift(op) => at_range(0, 31, tokens),
        Code::JumpRegister { .. } | Code::Load { .. } | Code::Store { .. } | Code::OpImm { .. } => {
            at_range(-2048, 2047, tokens)
        }
        _ => None,
    }
}

/// Whether a family of tasks is on some of the cores 0 to 15.
fn are_cores(family: Family) -> bool
    ensures { result ≡ are_cores family }
{
    0 <= family.core
        && 1 <= family.count
        && i128::from(family.core) + i128::from(family.count) <= 16
}

/// Tasks on other cores, or else an entry that isn't the address of an instruction.
pub(crate) fn tasks_out_of_range(tokens: &[Token], family: Family) -> Option<Finding>
    ensures { result ≡ tasks_out_of_range tokens.now family }
{
    if are_cores(family) {
        Some(finding_at(Cause::Address, family.entry))
    } else {
        at_number(Cause::Cores, tokens)
    }
}

/// Of which there are more than there may be.
fn excess(statement: &Statement) -> Option<Cause>
    ensures { result ≡ excess statement.now }
{
    match *statement {
        Statement::Instruction(_) => Some(Cause::CodeWords),
        Statement::Region { .. } => Some(Cause::Regions),
        Statement::Lock { .. } => Some(Cause::Locks),
        Statement::Phase => Some(Cause::Phases),
        Statement::Tasks(_) => Some(Cause::Tasks),
        _ => None,
    }
}

/// The statement that is one too many.
#[tactic(auto, unfolding(crate::specs::Findings::limit_at))]
pub(crate) fn limit_at(tokens: &[Token], statement: &Statement) -> Option<Finding>
    ensures { result ≡ limit_at tokens.now statement.now }
{
    match excess(statement) {
        Some(cause) => at_word(cause, tokens),
        None => None,
    }
}

/// The operand that is wrong, if one alone is; otherwise the word.
fn operand_or_word(word: Token, form: Form, wrong: Option<WrongOperand>) -> Finding
    ensures { result ≡ operand_or_word word form wrong }
{
    match wrong {
        Some(wrong) => Finding {
            part: wrong.part,
            cause: Cause::Operand {
                word: part_by(word),
                wrong,
                form,
            },
        },
        None => finding_at(Cause::Operands { form: Some(form) }, word),
    }
}

/// What is wrong with the operands of a word.
fn operands_finding(
    alloc: Global,
    version: u32,
    bytes: &[u8],
    word: Token,
    operands: &[Token],
) -> Result<Finding, Memory>
    ensures { IfOk result (λ finding. finding ≡ operands_finding version bytes.now word operands.now (form_for version (bytes_of bytes.now word))) }
{
    match form_for(alloc, version, token_bytes(bytes, word))? {
        Some(form) => {
            let wrong = wrong_among(alloc, version, bytes, sorts_of(form), operands)?;
            Ok(operand_or_word(word, form, wrong))
        }
        None => Ok(finding_at(Cause::Operands { form: None }, word)),
    }
}

/// What stands in the place of the statement's word isn't one, or the operands are others.
fn word_or_operands(
    alloc: Global,
    version: u32,
    bytes: &[u8],
    word: Token,
    operands: &[Token],
) -> Result<Finding, Memory>
    ensures { IfOk result (λ finding. finding ≡ word_or_operands version bytes.now word operands.now) }
{
    if is_name(word) {
        operands_finding(alloc, version, bytes, word, operands)
    } else {
        Ok(finding_at(Cause::NoWord, word))
    }
}

fn at_first(
    alloc: Global,
    version: u32,
    bytes: &[u8],
    tokens: &[Token],
) -> Result<Option<Finding>, Memory>
    ensures { IfOk result (λ finding. finding ≡ at_first version bytes.now tokens.now) }
{
    match tokens {
        [word, operands @ ..] => Ok(Some(word_or_operands(
            alloc, version, bytes, *word, operands,
        )?)),
        [] => Ok(None),
    }
}

/// The label that may not be declared, if the line has one.
fn dotted_label(bytes: &[u8], tokens: &[Token]) -> Option<Token>
    ensures { result ≡ dotted_label bytes.now tokens.now }
{
    match tokens {
        [label, colon, ..] if is_name(*label) && is_colon(*colon) && !is_plain(bytes, *label) => {
            Some(*label)
        }
        _ => None,
    }
}

/// A label that may not be declared, what stands in the place of the statement's word, an operand that is wrong, or a word whose
/// operands are others.
#[tactic(auto, unfolding(crate::specs::Findings::operand_at))]
pub(crate) fn operand_at(
    alloc: Global,
    version: u32,
    bytes: &[u8],
    tokens: &[Token],
) -> Result<Option<Finding>, Memory>
    ensures { IfOk result (λ finding. finding ≡ operand_at version bytes.now tokens.now) }
{
    match dotted_label(bytes, tokens) {
        Some(label) => Ok(Some(finding_at(Cause::Dotted, label))),
        None => at_first(alloc, version, bytes, behind_label(tokens)),
    }
}
