//! The listing of a program, explained beside its text.
ghost use Rattle.std.specs.Prelude.{◌≡◌, ◌++◌, map, OnOk, IfOk};
ghost use Rattle.src_text.specs.Line.{cut};
ghost use Rattle.sentences.specs.Quotes.{AreSpans, span_bytes};
ghost use Rattle.explained_answer.specs.Listing.{given_by, second_given_by, word_said, code_said, said_of_row, explained_from, explained_lines, explained_listing, IsListingTaken};
ghost use Rattle.explained_answer.specs.Fronts.{alike, line_behind};

use crate::fronts::{alike, line_behind};
use crate::taken::Taken;
use dn_base::Memory;
use rv_listing::{listing, listing_with_addresses};
use sentences::{line_spans, push_line};
use src_text::Span;
use std::alloc::Global;
use text_pieces::push;
use text_places::{CodePlace, Located};

/// Adds the line of the text that gives a code word.
#[tactic(auto, unfolding(crate::specs::Listing::given_by))]
fn push_given_by(out: &mut Vec<u8>, text: &[u8], spans: &[Span], line: u32) -> Result<(), Memory>
    requires { AreSpans text.now spans.now }
    ensures { OnOk result (out.new.items ≡ out.old.items ++ given_by text.now line) }
{
    push(out, b"  ")?;
    push_line(out, text, spans, line)
}

/// Adds the line of the text that gives a code word as its second one.
#[tactic(auto, unfolding(crate::specs::Listing::second_given_by))]
fn push_second_given_by(
    out: &mut Vec<u8>,
    text: &[u8],
    spans: &[Span],
    line: u32,
) -> Result<(), Memory>
    requires { AreSpans text.now spans.now }
    ensures { OnOk result (out.new.items ≡ out.old.items ++ second_given_by text.now line) }
{
    push(out, b"  second word of line ")?;
    push_line(out, text, spans, line)
}

fn push_word_said(
    out: &mut Vec<u8>,
    text: &[u8],
    spans: &[Span],
    place: CodePlace,
) -> Result<(), Memory>
    requires { AreSpans text.now spans.now }
    ensures { OnOk result (out.new.items ≡ out.old.items ++ word_said text.now place) }
{
    if place.part == 0 {
        push_given_by(out, text, spans, place.line)
    } else {
        push_second_given_by(out, text, spans, place.line)
    }
}

fn push_code_said(
    out: &mut Vec<u8>,
    text: &[u8],
    spans: &[Span],
    place: Option<CodePlace>,
) -> Result<(), Memory>
    requires { AreSpans text.now spans.now }
    ensures { OnOk result (out.new.items ≡ out.old.items ++ code_said text.now place) }
{
    match place {
        Some(word) => push_word_said(out, text, spans, word),
        None => Ok(()),
    }
}

/// Adds what is said after the line of this number; the lines of the code begin with the line `first`.
fn push_said_behind(
    out: &mut Vec<u8>,
    text: &[u8],
    spans: &[Span],
    located: &Located,
    first: usize,
    number: usize,
) -> Result<(), Memory>
    requires { AreSpans text.now spans.now }
    ensures { OnOk result (out.new.items ≡ out.old.items ++ said_of_row text.now located.now first number) }
{
    if number < first {
        return Ok(());
    }
    push_code_said(out, text, spans, located.places.code_word(number - first))
}

/// Adds the lines of a listing, which the answer has, and what is said after each.
fn push_lines(
    out: &mut Vec<u8>,
    text: &[u8],
    spans: &[Span],
    located: &Located,
    answer: &[u8],
    lines: &[Span],
) -> Result<(), Memory>
    requires text { AreSpans text.now spans.now }
    requires lines { AreSpans answer.now lines.now }
    ensures { OnOk result (out.new.items ≡ out.old.items ++ explained_lines text.now located.now (map (span_bytes answer.now) lines.now)) }
{
    let first = lines.len().saturating_sub(located.program.code.len());
    for (number, line) in lines.iter().enumerate() {
        push(out, &answer[line.start..line.end])?;
        push(out, b"\n")?;
        push_said_behind(out, text, spans, located, first, number)?;
    }
    Ok(())
}

/// Adds the lines of an answer, which is a listing, and what is said after each.
fn push_explained(
    alloc: Global,
    out: &mut Vec<u8>,
    text: &[u8],
    located: &Located,
    answer: &[u8],
) -> Result<(), Memory>
    ensures { OnOk result (out.new.items ≡ out.old.items ++ explained_lines text.now located.now (cut answer.now)) }
{
    let spans = line_spans(alloc, text)?;
    let lines = line_spans(alloc, answer)?;
    push_lines(
        out,
        text,
        spans.as_slice(),
        located,
        answer,
        lines.as_slice(),
    )
}

/// The first line of an answer that isn't this listing's.
fn first_other(answer: &[u8], listing: &[u8]) -> usize
    ensures { result ≡ line_behind (alike answer.now listing.now) }
{
    line_behind(&answer[..alike(answer, listing)])
}

/// Takes an answer that is the listing of a text's program, as the mode list prints it, with addresses or without. Appends each of its lines, and after
/// the line of a code word the line of the text that gives it.
///
/// If an answer begins with a listing's first line, and isn't the listing, the first line that differs is given. Of any other
/// answer nothing is said. In both cases the end of `out` isn't defined.
///
/// # Errors
/// `Memory` if there is no room.
pub fn take_listing(
    alloc: Global,
    out: &mut Vec<u8>,
    text: &[u8],
    located: &Located,
    answer: &[u8],
) -> Result<Taken, Memory>
    ensures { IfOk result (IsListingTaken text.now located.now answer.now out.old.items out.new.items) }
{
    let plain = listing(alloc, &located.program)?;
    let addressed = listing_with_addresses(alloc, &located.program)?;
    if answer == plain.as_slice() || answer == addressed.as_slice() {
        push_explained(alloc, out, text, located, answer)?;
        return Ok(Taken::Whole);
    }
    let line = first_other(answer, plain.as_slice()).max(first_other(answer, addressed.as_slice()));
    if line == 1 {
        Ok(Taken::Other)
    } else {
        Ok(Taken::Stops { line })
    }
}
