//! An answer to a text, explained.
ghost use Rattle.std.specs.Prelude.{◌≡◌, ◌≤◌, ◌⊎◌, List, length, flat_map, IfOk};
ghost use Rattle.std.specs.List.{All};
ghost use Rattle.effect_checker.specs.Checked.{IsChecked};
ghost use Rattle.run_replay.specs.declared.trace.Trace.{Trace};
ghost use Rattle.text_places.specs.declared.places.Located.{Located as LocatedOf};
ghost use Rattle.explained_answer.specs.Listing.{explained_listing, IsAListing};
ghost use Rattle.explained_answer.specs.Trace.{IsTraceOf};
ghost use Rattle.explained_answer.specs.declared.line.AnswerLine.{AnswerLine as LineOf};
ghost use Rattle.explained_answer.specs.AnswerLines.{answer_line};
ghost use Rattle.explained_answer.specs.declared.explaining.Explained.TheVariants.{Text as TextOf};
ghost use Rattle.explained_answer.specs.Lines.{IsLineOf, lines_and_sentences};
ghost use Rattle.explained_answer.specs.Explained.{IsLocated, HasNoConflict, IsNoListing, IsListingExplained, IsConflictExplained, IsTraceExplained, IsRunExplained, AreAllExplained, IsExplained};

use crate::parsing::{ReadAnswer, read_answer};
use crate::refusals::{explained_conflict, explained_fault};
use crate::several::explained_lines;
use crate::wholes::{explained_listing, explained_trace};
use dn_base::{MOST_OF_TEXT, Memory, Sequence};
use effect_checker::first_fault;
use rv_assembler::SourceFault;
use std::alloc::Global;
use text_places::{Located, located_program};

/// The result of explaining an answer.
#[derive(Drop)]
pub enum Explained {
    /// Its lines, each with what is said of it.
    Text(Sequence<u8>),
    /// The line of this number, from 1, is the first that can't be a line of an answer to the text.
    Refused { line: usize },
}

/// Explains an answer of a run.
fn explained_run(
    alloc: Global,
    text: &[u8],
    located: &Located,
    answer: &[u8],
) -> Result<Explained, Memory>
    requires located { IsLocated text.now located.now }
    requires checked { IsChecked located.now.program }
    ensures { IfOk result (AreAllExplained text.now located.now answer.now) }
{
    match read_answer(alloc, located, answer)? {
        ReadAnswer::Lines(lines) => {
            let out = explained_lines(alloc, text, located, lines.as_slice())?;
            Ok(Explained::Text(Sequence::from_vec(out)))
        }
        ReadAnswer::Refused { line } => Ok(Explained::Refused { line }),
    }
}

/// Explains an answer to a text whose program is checked.
fn explained_checked(
    alloc: Global,
    text: &[u8],
    located: &Located,
    answer: &[u8],
) -> Result<Explained, Memory>
    requires short { length text.now ≤ MOST_OF_TEXT }
    requires located { IsLocated text.now located.now }
    requires checked { IsChecked located.now.program }
    requires no_listing { IsNoListing text.now located.now answer.now }
    ensures { IfOk result (λ e. IsTraceExplained text.now answer.now e ⊎ IsRunExplained text.now answer.now e) }
{
    let found = explained_trace(alloc, text, answer)?;
    match found {
        Some(explained) => Ok(explained),
        None => explained_run(alloc, text, located, answer),
    }
}

/// Explains an answer to a text with this program; the answer's first line isn't the listing's.
fn explained_unlisted(
    alloc: Global,
    text: &[u8],
    located: &Located,
    answer: &[u8],
) -> Result<Explained, Memory>
    requires short { length text.now ≤ MOST_OF_TEXT }
    requires located { IsLocated text.now located.now }
    requires no_listing { IsNoListing text.now located.now answer.now }
    ensures { IfOk result (λ e. IsConflictExplained text.now answer.now e ⊎ (IsTraceExplained text.now answer.now e ⊎ IsRunExplained text.now answer.now e)) }
{
    match first_fault(&located.program) {
        Some(fault) => explained_conflict(alloc, text, located, fault, answer),
        None => explained_checked(alloc, text, located, answer),
    }
}

/// Explains an answer to a text with this program.
fn explained_program(
    alloc: Global,
    text: &[u8],
    located: &Located,
    answer: &[u8],
) -> Result<Explained, Memory>
    requires short { length text.now ≤ MOST_OF_TEXT }
    requires located { IsLocated text.now located.now }
    ensures { IfOk result (λ e. IsListingExplained text.now answer.now e
        ⊎ (IsConflictExplained text.now answer.now e ⊎ (IsTraceExplained text.now answer.now e ⊎ IsRunExplained text.now answer.now e))) }
{
    let listed = explained_listing(alloc, text, located, answer)?;
    match listed {
        Some(explained) => Ok(explained),
        None => explained_unlisted(alloc, text, located, answer),
    }
}

/// Explains an answer to a text.
fn explained_text(alloc: Global, text: &[u8], answer: &[u8]) -> Result<Explained, Memory>
    ensures { IfOk result (IsExplained text.now answer.now) }
{
    match located_program(alloc, text) {
        Ok(located) => explained_program(alloc, text, &located, answer),
        Err(SourceFault::Memory) => Err(Memory),
        Err(fault) => explained_fault(alloc, text, fault, answer),
    }
}

/// Repeats an answer to a text line by line. After each line that concerns a place in the text it says what that place is.
///
/// The answer must be what `denovo` printed for the text in any mode, or the line with which it refused the text. The trace of
/// the mode trace is only repeated. If the answer isn't one to this text, the first line is named that can't belong to one. Lines
/// that an answer of a checked program may have are never refused.
///
/// # Errors
/// `Memory` if there is no room.
pub fn explain(alloc: Global, text: &[u8], answer: &[u8]) -> Result<Explained, Memory>
    ensures explained { IfOk result (IsExplained text.now answer.now) }
    ensures listing { IfOk result (λ e. (l : LocatedOf) → IsLocated text.now l → IsAListing l answer.now → e ≡ TextOf (explained_listing text.now l answer.now)) }
    ensures trace { IfOk result (λ e. (l : LocatedOf) (t : Trace) → IsLocated text.now l → HasNoConflict l.program
        → IsTraceOf text.now answer.now t → e ≡ TextOf answer.now) }
    ensures taken { IfOk result (λ e. (l : LocatedOf) (lines : List LineOf) → IsLocated text.now l → HasNoConflict l.program
        → All (IsLineOf l) lines → answer.now ≡ flat_map answer_line lines → e ≡ TextOf (lines_and_sentences text.now l lines)) }
{
    explained_text(alloc, text, answer)
}
