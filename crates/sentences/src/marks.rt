//! Parts of a line, and the mark under them.
ghost use Rattle.std.specs.Prelude.{◌≡◌, ◌++◌, ◌+◌, ◌<◌, ◌≤◌, length, map, take, drop, replicate, OnOk, IfSome};
ghost use Rattle.std.specs.Fmt.{decimal};
ghost use Rattle.std.specs.List.{prefix_len};
ghost use Rattle.src_text.specs.Byte.{is_bad};
ghost use Rattle.sentences.specs.Marks.{bytes_between, part_by, blank_under, mark_line, marked_text, bad_place_from, is_high};

use dn_base::Memory;
use src_text::{Span, Token};
use text_pieces::push;

/// The bytes from `start` to before `end`; none where they aren't some of these.
pub(crate) fn bytes_between(bytes: &[u8], start: usize, end: usize) -> &[u8]
    ensures { result.now ≡ bytes_between bytes.now start end }
{
    if start <= end && end <= bytes.len() {
        &bytes[start..end]
    } else {
        &bytes[..0]
    }
}

pub(crate) fn part_by(token: Token) -> Span
    ensures { result ≡ part_by token }
{
    Span {
        start: token.start as usize,
        end: token.end as usize,
    }
}

/// The first `count` bytes, or all if there are fewer.
pub(crate) fn first(bytes: &[u8], count: usize) -> &[u8]
    ensures { result.now ≡ take count bytes.now }
{
    if count <= bytes.len() {
        &bytes[..count]
    } else {
        bytes
    }
}

/// The bytes behind the first `count`; none if there are no more.
pub(crate) fn behind(bytes: &[u8], count: usize) -> &[u8]
    ensures { result.now ≡ drop count bytes.now }
{
    if count <= bytes.len() {
        &bytes[count..]
    } else {
        &bytes[..0]
    }
}

fn blank_under(byte: u8) -> u8
    ensures { result ≡ blank_under byte }
{
    if byte == b'\t' { b'\t' } else { b' ' }
}

fn push_blanks(out: &mut Vec<u8>, bytes: &[u8]) -> Result<(), Memory>
    ensures { OnOk result (out.new.items ≡ out.old.items ++ map blank_under bytes.now) }
{
    for byte in bytes {
        out.push(blank_under(*byte))?;
    }
    Ok(())
}

fn push_carets(out: &mut Vec<u8>, count: usize) -> Result<(), Memory>
    ensures { OnOk result (out.new.items ≡ out.old.items ++ replicate count 94) }
{
    for caret in 0..count {
        out.push(b'^')?;
    }
    Ok(())
}

fn push_gutter(out: &mut Vec<u8>, line: u32) -> Result<(), Memory>
    ensures { OnOk result (out.new.items ≡ out.old.items ++ map blank_under (decimal line)) }
{
    let digits = line.to_string(*out.allocator())?;
    push_blanks(out, digits.as_bytes())
}

/// Adds the line under a quoted one.
#[tactic(auto, unfolding(crate::specs::Marks::mark_line))]
pub(crate) fn push_mark_line(
    out: &mut Vec<u8>,
    line: u32,
    bytes: &[u8],
    part: Span,
) -> Result<(), Memory>
    ensures { OnOk result (out.new.items ≡ out.old.items ++ mark_line line bytes.now part) }
{
    push(out, b"  ")?;
    push_gutter(out, line)?;
    push(out, b" | ")?;
    push_blanks(out, first(bytes, part.start))?;
    push_carets(out, part.end.saturating_sub(part.start))?;
    push(out, b"\n")
}

/// Adds the bytes of a part, as sentences name it.
#[tactic(auto, unfolding(crate::specs::Marks::marked_text))]
pub(crate) fn push_part(out: &mut Vec<u8>, bytes: &[u8], part: Span) -> Result<(), Memory>
    ensures { OnOk result (out.new.items ≡ out.old.items ++ marked_text bytes.now part) }
{
    push(out, b"  `")?;
    push(out, bytes_between(bytes, part.start, part.end))?;
    push(out, b"`")
}

/// Whether the byte is neither a blank nor one of a token.
fn is_bad(byte: u8) -> bool
    ensures { result ≡ is_bad byte }
{
    !(byte.is_ascii_alphanumeric()
        || matches!(
            byte,
            b' ' | b'\t' | b'\r' | b'-' | b'_' | b'.' | b',' | b':' | b'(' | b')'
        ))
}

/// The place of the first byte that may not stand outside of comments.
pub(crate) fn bad_place(bytes: &[u8]) -> Option<usize>
    ensures value { result ≡ bad_place_from 0 bytes.now }
    ensures within { IfSome result (λ place. place < length bytes.now) }
{
    for (place, byte) in bytes.iter().enumerate() {
        if *byte == b'#' {
            return None;
        }
        if is_bad(*byte) {
            return Some(place);
        }
    }
    None
}

/// How many bytes from the front on are of letters that take several.
pub(crate) fn high_length(bytes: &[u8]) -> usize
    ensures value { result ≡ prefix_len is_high bytes.now }
    ensures within { result ≤ length bytes.now }
{
    let mut length = 0;
    while length < bytes.len() && 128 <= bytes[length] {
        length += 1;
    }
    length
}
