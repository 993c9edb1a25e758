//! What a line says: its label and its statement.
ghost use Rattle.std.specs.Prelude.{◌≡◌, ◌≤◌, ◌&&◌, not, if◌then◌else◌, Err, IfOk, length, map};
ghost use Rattle.src_text.specs.Line.{lines_of};
ghost use Rattle.rv_assembler.specs.declared.fault.SourceFault.TheVariants.{UnknownWord};
ghost use Rattle.rv_assembler.specs.Shape.{knows_word, kind_for, is_name, is_colon};
ghost use Rattle.rv_assembler.specs.Operand.{token_at};
ghost use Rattle.rv_assembler.specs.Reading.{extent_for, directive_for, statement_for, statement_of, statement_in, said, labelled, read_tokens, fault_of_line, reading_of, is_version, is_blank_line, version_line};

use crate::coding::code_for;
use crate::fault::SourceFault;
use crate::kind::{Directive, Form, Kind};
use crate::number::wrap;
use crate::operand::{bytes, number_at, token_at};
use crate::shape::{is_name, is_plain, kind, knows};
use crate::statement::{Effect, Extent, Family, Statement};
use dn_base::{MOST_OF_TEXT, Memory};
use src_text::{Line, LineFault, LineReader, Token, TokenKind, map_lines};
use std::alloc::Global;

/// What a line of good form says, and its number.
#[derive(Clone, Copy)]
pub struct Saying {
    pub line: u32,
    pub label: Option<Token>,
    pub statement: Statement,
}

/// A line of good form, or what is wrong with its form.
#[derive(Clone, Copy)]
pub enum Reading {
    Bad(SourceFault),
    Good(Saying),
}

/// The words of an effect whose region is operand number `first`.
fn extent_for(operands: &[Token], form: Form, first: usize) -> Extent
    requires { first ≤ 2 }
    ensures { result ≡ extent_for operands.now form first }
{
    let lo = number_at(operands, first + 2);
    let hi = number_at(operands, first + 4);
    match form {
        Form::Whole => Extent::Whole,
        Form::Part => Extent::Part { lo, hi },
        Form::Stepped => Extent::Stepped {
            lo,
            hi,
            step: number_at(operands, first + 6),
        },
    }
}

/// An effect whose region is operand number `first`; its lock, if it has one, stands before the region.
fn effect_for(
    operands: &[Token],
    writes: bool,
    lock: Option<Token>,
    form: Form,
    first: usize,
) -> Effect
    requires { first ≤ 2 }
    ensures { result ≡ record { writes = writes; lock = lock; region = token_at operands.now first; extent = extent_for operands.now form first } }
{
    Effect {
        writes,
        lock,
        region: token_at(operands, first),
        extent: extent_for(operands, form, first),
    }
}

/// The statement of a directive and its operands.
fn directive_for(operands: &[Token], directive: Directive) -> Statement
    ensures { result ≡ directive_for operands.now directive }
{
    match directive {
        Directive::Region => Statement::Region {
            name: token_at(operands, 0),
            len: number_at(operands, 2),
        },
        Directive::Word => Statement::Word {
            region: token_at(operands, 0),
            index: number_at(operands, 2),
            value: wrap(number_at(operands, 4)),
        },
        Directive::Lock => Statement::Lock {
            name: token_at(operands, 0),
        },
        Directive::Phase => Statement::Phase,
        Directive::Task => Statement::Tasks(Family {
            core: number_at(operands, 0),
            count: 1,
            entry: token_at(operands, 2),
            arg: wrap(number_at(operands, 4)),
            step: 0,
        }),
        Directive::Forall => Statement::Tasks(Family {
            core: number_at(operands, 0),
            count: number_at(operands, 2),
            entry: token_at(operands, 4),
            arg: wrap(number_at(operands, 6)),
            step: wrap(number_at(operands, 8)),
        }),
        Directive::Uses { writes, form } => {
            Statement::Uses(effect_for(operands, writes, None, form, 0))
        }
        Directive::Guarded { writes, form } => {
            let lock = token_at(operands, 0);
            Statement::Uses(effect_for(operands, writes, Some(lock), form, 2))
        }
    }
}

/// The statement of a kind and its operands.
fn statement_for(text: &[u8], operands: &[Token], kind: Kind) -> Statement
    ensures { result ≡ statement_for text.now operands.now kind }
{
    match kind {
        Kind::Code(mnemonic) => Statement::Instruction(code_for(text, operands, mnemonic)),
        Kind::Table(directive) => directive_for(operands, directive),
    }
}

/// The statement of a word and its operands. Only if no row fits, it looks whether any row has the word.
fn statement_of(
    version_2: bool,
    text: &[u8],
    line: u32,
    word: &[u8],
    operands: &[Token],
) -> Result<Statement, SourceFault>
    ensures { result ≡ if not (knows_word version_2 word.now) then Err (UnknownWord line) else statement_of text.now line operands.now (kind_for version_2 text.now word.now operands.now) }
{
    match kind(version_2, text, word, operands) {
        Some(kind) => Ok(statement_for(text, operands, kind)),
        None if knows(version_2, word) => Err(SourceFault::BadOperand { line }),
        None => Err(SourceFault::UnknownWord { line }),
    }
}

/// The statement of these tokens, the first of which is its word.
fn statement(
    version_2: bool,
    text: &[u8],
    line: u32,
    tokens: &[Token],
) -> Result<Statement, SourceFault>
    ensures { result ≡ statement_in version_2 text.now line tokens.now }
{
    match tokens {
        [] => Ok(Statement::Nothing),
        [first, operands @ ..] => {
            if !is_name(*first) {
                return Err(SourceFault::BadOperand { line });
            }
            statement_of(version_2, text, line, bytes(text, *first), operands)
        }
    }
}

/// What a line without a label says.
fn said(line: u32, statement: Result<Statement, SourceFault>) -> Reading
    ensures { result ≡ said line statement }
{
    match statement {
        Err(fault) => Reading::Bad(fault),
        Ok(statement) => Reading::Good(Saying {
            line,
            label: None,
            statement,
        }),
    }
}

/// What a line with a label says; the label has to be a name that may be declared.
fn label_line(
    text: &[u8],
    line: u32,
    label: Token,
    statement: Result<Statement, SourceFault>,
) -> Reading
    ensures { result ≡ labelled text.now line label statement }
{
    match statement {
        Err(fault) => Reading::Bad(fault),
        Ok(statement) => {
            if is_plain(text, label) {
                Reading::Good(Saying {
                    line,
                    label: Some(label),
                    statement,
                })
            } else {
                Reading::Bad(SourceFault::BadOperand { line })
            }
        }
    }
}

/// Whether a line that begins with these tokens begins with a label.
fn is_label(first: Token, second: Token) -> bool
    ensures { result ≡ (is_name first.kind && is_colon second.kind) }
{
    is_name(first) && matches!(second.kind, TokenKind::Colon)
}

/// What these tokens of a line say.
fn read_tokens(version_2: bool, text: &[u8], line: u32, tokens: &[Token]) -> Reading
    ensures { result ≡ read_tokens version_2 text.now line tokens.now }
{
    match tokens {
        [label, colon, rest @ ..] if is_label(*label, *colon) => {
            label_line(text, line, *label, statement(version_2, text, line, rest))
        }
        _ => said(line, statement(version_2, text, line, tokens)),
    }
}

/// The fault of a line that has no tokens.
fn fault_of_line(line: u32, fault: LineFault) -> SourceFault
    ensures { result ≡ fault_of_line line fault }
{
    match fault {
        LineFault::BadByte => SourceFault::BadByte { line },
        LineFault::BadNumber => SourceFault::BadNumber { line },
        LineFault::LineLimit => SourceFault::LineLimit { line },
    }
}

/// What a line says. `version` is the number of the version line, or 0 in a text of version 1.
pub fn read_line(version: u32, text: &[u8], line: &Line) -> Reading
    ensures { result ≡ reading_of version text.now line.now }
{
    if line.number == version {
        return Reading::Good(Saying {
            line: line.number,
            label: None,
            statement: Statement::Nothing,
        });
    }
    match line.fault {
        Some(fault) => Reading::Bad(fault_of_line(line.number, fault)),
        None => read_tokens(0 < version, text, line.number, line.tokens.as_slice()),
    }
}

/// What each line of a text says. `version` is the number of the version line, or 0 in a text of version 1.
pub(crate) fn read_text(alloc: Global, version: u32, text: &[u8]) -> Result<Vec<Reading>, Memory>
    requires { length text.now ≤ MOST_OF_TEXT }
    ensures { IfOk result (λ readings. readings.items ≡ map (reading_of version text.now) (lines_of text.now)) }
{
    map_lines(alloc, text, |line| read_line(version, text, line))
}

/// Whether the line says that the text is of version 2.
fn is_version(text: &[u8], line: &Line) -> bool
    ensures { result ≡ is_version text.now line.now }
{
    match line.tokens.as_slice() {
        [word, number] => bytes(text, *word) == b".version".as_slice()
            && bytes(text, *number) == b"2".as_slice(),
        _ => false,
    }
}

/// Whether the line has only blanks and a comment.
fn is_blank_line(line: &Line) -> bool
    ensures { result ≡ is_blank_line line.now }
{
    line.fault.is_none() && line.tokens.len() == 0
}

/// The number of the line, if it says that the text is of version 2; 0 otherwise.
fn version_in(text: &[u8], line: &Line) -> u32
    ensures { result ≡ (if is_version text.now line.now then line.now.number else 0) }
{
    if is_version(text, line) {
        line.number
    } else {
        0
    }
}

/// The number of the version line, or 0 in a text of version 1.
pub fn version_line(text: &[u8], lines: &[Line]) -> u32
    ensures { result ≡ version_line text.now lines.now }
{
    for line in lines {
        if !is_blank_line(line) {
            return version_in(text, line);
        }
    }
    0
}

/// The number of a text's version line, or 0 in a text of version 1. It reads no further than the first line that isn't blank.
pub(crate) fn version_of(alloc: Global, text: &[u8]) -> Result<u32, Memory>
    requires { length text.now ≤ MOST_OF_TEXT }
    ensures { IfOk result (λ version. version ≡ version_line text.now (lines_of text.now)) }
{
    let mut reader = LineReader::new(text);
    while let Some(line) = reader.next(alloc)? {
        if !is_blank_line(&line) {
            return Ok(version_in(text, &line));
        }
    }
    Ok(0)
}
