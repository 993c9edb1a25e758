ghost use Rattle.std.specs.Prelude.{◌≡◌, ◌≤◌, length, position, IfOk};
ghost use Rattle.src_text.specs.Byte.{is_newline};
ghost use Rattle.claims.specs.Lines.{newlines_before, line_end, behind_line, behind_lines, line_of_number};

use dn_base::{Memory, Sequence};
use std::alloc::Global;

/// How many newlines stand before a place of a text.
pub(crate) fn newlines_before(text: &[u8], place: usize) -> usize
    requires { place ≤ length text.now }
    ensures value { result ≡ newlines_before place text.now }
    ensures within { result ≤ place }
{
    text[..place].iter().filter(|byte| **byte == b'\n').count()
}

/// Where the first newline of a text stands.
fn newline_of(text: &[u8]) -> Option<usize>
    ensures { result ≡ position is_newline text.now }
{
    text.iter().position(|byte| *byte == b'\n')
}

/// Where the first line of a text ends: at its newline, or at the end of the text.
#[tactic(auto, unfolding(crate::specs::Lines::line_end))]
fn line_end(text: &[u8]) -> usize
    ensures { result ≡ line_end text.now }
{
    newline_of(text).unwrap_or(text.len())
}

/// A text without its first line.
fn behind_line(text: &[u8]) -> &[u8]
    ensures { result.now ≡ behind_line text.now }
{
    let end = line_end(text);
    if end < text.len() {
        &text[end + 1..]
    } else {
        &[]
    }
}

/// A text without its first `count` lines.
fn behind_lines(text: &[u8], count: u32) -> &[u8]
    ensures { result.now ≡ behind_lines count text.now }
{
    let mut rest = text;
    for _ in 0..count {
        rest = behind_line(rest);
    }
    rest
}

/// The line of this number, from 0, without its newline, where the text has this many lines.
///
/// # Errors
/// `Memory` where there is no room for the line.
#[tactic(auto, unfolding(crate::specs::Lines::line_of_number))]
pub(crate) fn line_of_number(
    alloc: Global,
    text: &[u8],
    number: u32,
) -> Result<Option<Sequence<u8>>, Memory>
    ensures { IfOk result (λ line. line ≡ line_of_number number text.now) }
{
    let rest = behind_lines(text, number);
    if rest.is_empty() {
        return Ok(None);
    }
    let end = line_end(rest).min(rest.len());
    let line = Vec::from_slice(alloc, &rest[..end])?;
    Ok(Some(Sequence::from_vec(line)))
}
