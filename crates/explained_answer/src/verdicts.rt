//! A verdict of the referee on a claim of a run of a text, explained.
ghost use Rattle.std.specs.Prelude.{◌≡◌, ◌++◌, [], find, IfOk, OnOk};
ghost use Rattle.src_text.specs.Laws.{ended};
ghost use Rattle.src_text.specs.Line.{cut};
ghost use Rattle.text_places.specs.Lines.{numbered_line};
ghost use Rattle.explained_answer.specs.Verdicts.{form_of, has_form, verdict_row, opens_by, is_on_answer, phrase_of, phrased, pieces, is_line, is_numbered, quotes, row_said, said_line, verdict_from, located_verdict, explained_verdict};

use crate::explaining::Explained;
use crate::verdict_forms::{behind, is_of_form, pieces};
use crate::verdict_phrases::{piece_at, piece_number, push_phrase};
use crate::verdict_rows::{
    VerdictRow, answer_rows, claim_rows, form_of, is_opening, phrase_of, quoted_piece,
};
use dn_base::{Memory, Sequence};
use rv_assembler::SourceFault;
use src_text::first_line;
use std::alloc::Global;
use text_pieces::push;
use text_places::{Located, line_text, located_program};

/// Which of these lines a line is.
fn row_in(rows: &[VerdictRow], line: &[u8]) -> Option<VerdictRow>
    ensures { result ≡ find (has_form line.now) rows.now }
{
    for row in rows {
        if is_of_form(form_of(*row), line) {
            return Some(*row);
        }
    }
    None
}

/// Which line of a verdict a line is. `on_answer` says that the verdict is on the answer.
fn verdict_row(on_answer: bool, line: &[u8]) -> Option<VerdictRow>
    ensures { result ≡ verdict_row on_answer line.now }
{
    if on_answer {
        row_in(&answer_rows(), line)
    } else {
        row_in(&claim_rows(), line)
    }
}

/// Whether the line of this number of a text has these bytes.
fn is_numbered(text: &[u8], number: Option<u32>, bytes: &[u8]) -> bool
    ensures { result ≡ is_numbered text.now number bytes.now }
{
    match number {
        None => false,
        Some(number) => match line_text(text, number as usize) {
            None => false,
            Some(line) => line == bytes,
        },
    }
}

/// Whether a line that quotes a line of the text has its bytes.
fn quotes(text: &[u8], row: VerdictRow, found: &[Sequence<u8>]) -> bool
    ensures { result ≡ quotes text.now row found.now }
{
    match quoted_piece(row) {
        None => true,
        Some(piece) => is_numbered(
            text,
            piece_number(piece_at(found, piece)),
            piece_at(found, piece + 1),
        ),
    }
}

/// A line, and what is said after it.
fn said_line(
    alloc: Global,
    text: &[u8],
    located: &Located,
    on_answer: bool,
    line: &[u8],
) -> Result<Option<Sequence<u8>>, Memory>
    ensures { IfOk result (λ said. said ≡ said_line text.now located.now on_answer line.now) }
{
    let Some(row) = verdict_row(on_answer, line) else {
        return Ok(None);
    };
    let found = pieces(alloc, form_of(row), line)?;
    if !quotes(text, row, found.as_slice()) {
        return Ok(None);
    }
    let mut said = Vec::from_slice(alloc, line)?;
    push(&mut said, b"\n")?;
    push_phrase(&mut said, located, phrase_of(row), found.as_slice())?;
    Ok(Some(Sequence::from_vec(said)))
}

/// Explains the lines of a verdict, one after the other.
fn explained_lines(
    alloc: Global,
    text: &[u8],
    located: &Located,
    on_answer: bool,
    answer: &[u8],
) -> Result<Explained, Memory>
    ensures { IfOk result (λ e. e ≡ verdict_from text.now located.now on_answer 1 [] (cut answer.now)) }
{
    let mut out = Vec::new(alloc);
    let mut rest = answer;
    let mut number = 1;
    while rest.len() > 0 {
        let line = first_line(rest);
        let Some(said) = said_line(alloc, text, located, on_answer, line)? else {
            return Ok(Explained::Refused { line: number });
        };
        push(&mut out, said.as_slice())?;
        rest = behind(rest, line.len() + 1);
        number += 1;
    }
    Ok(Explained::Text(Sequence::from_vec(out)))
}

/// Whether a verdict may begin with the line, if it is one.
fn opens(row: Option<VerdictRow>) -> bool
    ensures { result ≡ opens_by row }
{
    match row {
        Some(row) => is_opening(row),
        None => false,
    }
}

/// Explains a verdict on a claim of a run of this program.
fn located_verdict(
    alloc: Global,
    text: &[u8],
    located: &Located,
    answer: &[u8],
) -> Result<Explained, Memory>
    ensures { IfOk result (λ e. e ≡ located_verdict text.now located.now answer.now) }
{
    let first = first_line(answer);
    let on_answer = is_of_form(form_of(VerdictRow::Answer), first);
    if opens(verdict_row(on_answer, first)) {
        explained_lines(alloc, text, located, on_answer, answer)
    } else {
        Ok(Explained::Refused { line: 1 })
    }
}

/// Repeats a verdict, as `referee` prints it for a claim of a run of the text, with or without its diagnosis, line by line. After
/// each line comes what it says, in words.
///
/// If the answer isn't a verdict of the text, the first line is named, from 1, that a verdict can't have there; for a text with a
/// fault that is line 1. Lines that quote a line of the text have to quote it as it is.
///
/// # Errors
/// `Memory` if there is no room.
#[tactic(auto, unfolding(crate::specs::Verdicts::explained_verdict))]
pub fn explain_verdict(alloc: Global, text: &[u8], answer: &[u8]) -> Result<Explained, Memory>
    ensures { IfOk result (λ e. e ≡ explained_verdict text.now answer.now) }
{
    match located_program(alloc, text) {
        Ok(located) => located_verdict(alloc, text, &located, answer),
        Err(SourceFault::Memory) => Err(Memory),
        Err(_) => Ok(Explained::Refused { line: 1 }),
    }
}
