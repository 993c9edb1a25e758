//! Which operand of a line is another than its statement takes.
ghost use Rattle.std.specs.Prelude.{◌≡◌, ◌≤◌, length, take, drop, IfOk, ◌++◌};
ghost use Rattle.rv_assembler.specs.Shape.{is_name, is_number, is_comma, is_plain};
ghost use Rattle.sentences.specs.Operands.{sorts_of, example_of, before_comma, behind_comma, part_over, name_sort, token_sort, found_sort, with_part, is_mended_by, wrong_operand, wrong_among};

use crate::examples::{Form, is_taken};
use crate::known::token_bytes;
use crate::marks::{behind, first};
use crate::operands::{is_name, is_number, is_plain};
use dn_base::Memory;
use src_text::{Span, Token, TokenKind, register};
use std::alloc::Global;
use text_pieces::push;

/// What an operand is.
#[derive(Clone, Copy)]
pub(crate) enum OperandSort {
    Register,
    Number,
    Name,
    /// An offset, and a register in parentheses.
    Based,
}

/// An operand that is another than the statement takes: which part of the line it is, its number from 1, what it is, if that
/// is one of these, and what is wanted.
#[derive(Clone, Copy)]
pub(crate) struct WrongOperand {
    pub(crate) part: Span,
    pub(crate) number: u32,
    pub(crate) found: Option<OperandSort>,
    pub(crate) wanted: OperandSort,
}

/// The sorts of a form's operands, in their order.
pub(crate) fn sorts_of(form: Form) -> &'static [OperandSort]
    ensures few { length result.now ≤ 5 }
    ensures value { result.now ≡ sorts_of form }
{
    use OperandSort::{Based, Name, Number, Register};
    match form {
        Form::Nothing => &[],
        Form::Interval => &[Name, Number, Number],
        Form::Guarded => &[Name, Name, Number, Number],
        Form::Words => &[Name, Number],
        Form::Name => &[Name],
        Form::Register => &[Register],
        Form::Number => &[Number],
        Form::RegisterName => &[Register, Name],
        Form::RegisterNumber => &[Register, Number],
        Form::TwoRegisters => &[Register, Register],
        Form::TwoRegistersName => &[Register, Register, Name],
        Form::TwoRegistersNumber => &[Register, Register, Number],
        Form::ThreeRegisters => &[Register, Register, Register],
        Form::Based => &[Register, Based],
        Form::Task => &[Number, Name, Number],
        Form::Family => &[Number, Number, Name, Number, Number],
    }
}

/// An operand of a sort, as an example.
fn example_of(sort: OperandSort) -> &'static [u8]
    ensures { result.now ≡ example_of sort }
{
    match sort {
        OperandSort::Register => b"t0",
        OperandSort::Number => b"7",
        OperandSort::Name => b"name",
        OperandSort::Based => b"4(t0)",
    }
}

fn is_comma(token: Token) -> bool
    ensures { result ≡ is_comma token.kind }
{
    matches!(token.kind, TokenKind::Comma)
}

/// The tokens before the first comma.
fn before_comma(tokens: &[Token]) -> &[Token]
    ensures { result.now ≡ before_comma tokens.now }
{
    for place in 0..tokens.len() {
        if is_comma(tokens[place]) {
            return &tokens[..place];
        }
    }
    tokens
}

/// The tokens behind the first comma.
fn behind_comma(tokens: &[Token]) -> &[Token]
    ensures { result.now ≡ behind_comma tokens.now }
{
    let mut rest = tokens;
    while let [token, after @ ..] = rest {
        if is_comma(*token) {
            return after;
        }
        rest = after;
    }
    rest
}

/// From the first token to the last.
fn part_over(tokens: &[Token]) -> Option<Span>
    ensures { result ≡ part_over tokens.now }
{
    match tokens {
        [first, ..] => Some(Span {
            start: first.start as usize,
            end: tokens[tokens.len() - 1].end as usize,
        }),
        [] => None,
    }
}

fn name_sort(bytes: &[u8], token: Token) -> Option<OperandSort>
    ensures { result ≡ name_sort bytes.now token }
{
    if register(token_bytes(bytes, token)).is_some() {
        Some(OperandSort::Register)
    } else if is_plain(bytes, token) {
        Some(OperandSort::Name)
    } else {
        None
    }
}

/// What a token is as an operand.
fn token_sort(bytes: &[u8], token: Token) -> Option<OperandSort>
    ensures { result ≡ token_sort bytes.now token }
{
    if is_number(token) {
        Some(OperandSort::Number)
    } else if is_name(token) {
        name_sort(bytes, token)
    } else {
        None
    }
}

/// What the tokens of an operand are.
fn found_sort(bytes: &[u8], tokens: &[Token]) -> Option<OperandSort>
    ensures { result ≡ found_sort bytes.now tokens.now }
{
    match tokens {
        [token] => token_sort(bytes, *token),
        _ => None,
    }
}

/// The bytes with others in place of a part.
fn with_part(alloc: Global, bytes: &[u8], part: Span, others: &[u8]) -> Result<Vec<u8>, Memory>
    ensures { IfOk result (λ line. line.items ≡ with_part bytes.now part others.now) }
{
    let mut line = Vec::new(alloc);
    push(&mut line, first(bytes, part.start))?;
    push(&mut line, others)?;
    push(&mut line, behind(bytes, part.end))?;
    Ok(line)
}

/// Whether an example of the sort in place of the part makes the line well formed.
#[tactic(auto, unfolding(crate::specs::Operands::is_mended_by))]
fn is_mended_by(
    alloc: Global,
    version: u32,
    bytes: &[u8],
    sort: OperandSort,
    part: Span,
) -> Result<bool, Memory>
    ensures { IfOk result (λ mended. mended ≡ is_mended_by version bytes.now sort part) }
{
    let line = with_part(alloc, bytes, part, example_of(sort))?;
    is_taken(alloc, version, line.as_slice())
}

/// The operand of these tokens, if it is wrong.
fn wrong_operand(
    alloc: Global,
    version: u32,
    bytes: &[u8],
    number: u32,
    sort: OperandSort,
    tokens: &[Token],
) -> Result<Option<WrongOperand>, Memory>
    ensures { IfOk result (λ wrong. wrong ≡ wrong_operand version bytes.now number sort tokens.now) }
{
    match part_over(tokens) {
        Some(part) if is_mended_by(alloc, version, bytes, sort, part)? => Ok(Some(WrongOperand {
            part,
            number,
            found: found_sort(bytes, tokens),
            wanted: sort,
        })),
        _ => Ok(None),
    }
}

/// The first of the operands of these tokens that is wrong, where they should be of these sorts.
pub(crate) fn wrong_among(
    alloc: Global,
    version: u32,
    bytes: &[u8],
    sorts: &[OperandSort],
    tokens: &[Token],
) -> Result<Option<WrongOperand>, Memory>
    requires { length sorts.now ≤ 5 }
    ensures { IfOk result (λ wrong. wrong ≡ wrong_among version bytes.now 1 sorts.now tokens.now) }
{
    let mut number = 1;
    let mut rest = tokens;
    for sort in sorts {
        let operand = before_comma(rest);
        if let Some(wrong) = wrong_operand(alloc, version, bytes, number, *sort, operand)? {
            return Ok(Some(wrong));
        }
        rest = behind_comma(rest);
        number += 1;
    }
    Ok(None)
}
