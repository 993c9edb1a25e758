//! The lines of a text, quoted. Where they stand is found once for all of them.
ghost use Rattle.std.specs.Prelude.{◌≡◌, ◌≤◌, ◌++◌, length, slice_get, OnOk, IfOk};
ghost use Rattle.std.specs.List.{position_or_len};
ghost use Rattle.src_text.specs.Byte.{is_newline};
ghost use Rattle.text_places.specs.Texts.{quoted_line};
ghost use Rattle.sentences.specs.Quotes.{AreSpans};

use dn_base::{Memory, Sequence};
use src_text::{Span, first_line};
use std::alloc::Global;
use text_places::push_quoted;

/// How many bytes stand before the first newline, or in all where there is none.
fn line_length(bytes: &[u8]) -> usize
    ensures place { result ≡ position_or_len is_newline bytes.now }
    ensures within { result ≤ length bytes.now }
{
    first_line(bytes).len()
}

/// Where the lines of a text stand, without their newlines: to be found once for all lines that are quoted.
///
/// # Errors
/// `Memory` if there is no room.
pub fn line_spans(alloc: Global, text: &[u8]) -> Result<Sequence<Span>, Memory>
    ensures { IfOk result (AreSpans text.now) }
{
    let mut spans = Sequence::new(alloc);
    let mut start = 0;
    while start < text.len() {
        let end = start + line_length(&text[start..]);
        spans.push(Span { start, end })?;
        start = end + 1;
    }
    Ok(spans)
}

fn span_at(spans: &[Span], number: usize) -> Option<Span>
    ensures { result ≡ slice_get spans.now number }
{
    spans.get(number).copied()
}

/// Appends the line of this number, from 1, after its number; nothing if the text has no such line.
///
/// # Errors
/// `Memory` if there is no room.
pub fn push_line(out: &mut Vec<u8>, text: &[u8], spans: &[Span], line: u32) -> Result<(), Memory>
    requires { AreSpans text.now spans.now }
    ensures { OnOk result (out.new.items ≡ out.old.items ++ quoted_line text.now line) }
{
    if line == 0 {
        return Ok(());
    }
    match span_at(spans, line as usize - 1) {
        Some(span) => push_quoted(out, line, &text[span.start..span.end]),
        None => Ok(()),
    }
}
