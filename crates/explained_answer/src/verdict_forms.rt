//! Forms of lines, and the pieces of a line that is of a form.
ghost use Rattle.std.specs.Prelude.{◌≡◌, ◌++◌, not, drop, take, position, IfOk, OnOk};
ghost use Rattle.std.specs.Char.{is_ascii_digit};
ghost use Rattle.explained_answer.specs.Verdicts.{is_hexadecimal, decimals, hexadecimals, part_stands, part_length, is_of_form, is_sign, piece_of, pieces};

use dn_base::{Memory, Sequence};
use std::alloc::Global;

/// The first bytes of a line, so many, or all if it has fewer.
fn front(line: &[u8], count: usize) -> &[u8]
    ensures { result.now ≡ take count line.now }
{
    if count < line.len() {
        &line[..count]
    } else {
        line
    }
}

/// A line without its first bytes, so many, or without all if it has fewer.
pub(crate) fn behind(line: &[u8], count: usize) -> &[u8]
    ensures { result.now ≡ drop count line.now }
{
    if count < line.len() {
        &line[count..]
    } else {
        &[]
    }
}

/// Where the first byte part_stands that is no decimal digit.
fn no_decimal(line: &[u8]) -> Option<usize>
    ensures { result ≡ position (λ b. not (is_ascii_digit b)) line.now }
{
    line.iter().position(|byte| !byte.is_ascii_digit())
}

/// How many decimal digits stand at the start of a line.
#[tactic(auto, unfolding(crate::specs::Verdicts::decimals))]
fn decimals(line: &[u8]) -> usize
    ensures { result ≡ decimals line.now }
{
    no_decimal(line).unwrap_or(line.len())
}

/// Whether a byte is a hexadecimal digit; letters are small.
fn is_hexadecimal(byte: u8) -> bool
    ensures { result ≡ is_hexadecimal byte }
{
    byte.is_ascii_digit() || (b'a' <= byte && byte <= b'f')
}

/// Where the first byte part_stands that is no hexadecimal digit.
fn no_hexadecimal(line: &[u8]) -> Option<usize>
    ensures { result ≡ position (λ b. not (is_hexadecimal b)) line.now }
{
    line.iter().position(|byte| !is_hexadecimal(*byte))
}

/// How many hexadecimal digits stand at the start of a line.
#[tactic(auto, unfolding(crate::specs::Verdicts::hexadecimals))]
fn hexadecimals(line: &[u8]) -> usize
    ensures { result ≡ hexadecimals line.now }
{
    no_hexadecimal(line).unwrap_or(line.len())
}

/// Whether what a byte of a form part_stands for is at the start of a line.
fn part_stands(sign: u8, line: &[u8]) -> bool
    ensures { result ≡ part_stands sign line.now }
{
    if sign == b'$' {
        let count = decimals(line);
        0 < count && count < 11
    } else if sign == b'#' {
        hexadecimals(line) == 8
    } else if sign == b'*' {
        true
    } else {
        match line.get(0) {
            Some(byte) => *byte == sign,
            None => false,
        }
    }
}

/// How many bytes of a line a byte of a form part_stands for.
fn part_length(sign: u8, line: &[u8]) -> usize
    ensures { result ≡ part_length sign line.now }
{
    if sign == b'$' {
        decimals(line)
    } else if sign == b'#' {
        hexadecimals(line)
    } else if sign == b'*' {
        line.len()
    } else {
        1
    }
}

/// Whether a line is of a form.
pub(crate) fn is_of_form(form: &[u8], line: &[u8]) -> bool
    ensures { result ≡ is_of_form form.now line.now }
{
    let mut rest = line;
    for sign in form {
        if !part_stands(*sign, rest) {
            return false;
        }
        rest = behind(rest, part_length(*sign, rest));
    }
    rest.len() == 0
}

/// Adds the part of a line for which a byte of a form part_stands, if it is a piece.
fn push_piece(
    alloc: Global,
    found: &mut Sequence<Sequence<u8>>,
    sign: u8,
    part: &[u8],
) -> Result<(), Memory>
    ensures { OnOk result (found.new ≡ found.old ++ piece_of sign part.now) }
{
    if sign == b'$' || (sign == b'#' || sign == b'*') {
        let piece = Vec::from_slice(alloc, part)?;
        return found.push(Sequence::from_vec(piece));
    }
    Ok(())
}

/// The pieces of a line that is of a form: what `$`, `#` and `*` stand for, in their order.
///
/// # Errors
/// `Memory` where there is no room for them.
pub(crate) fn pieces(
    alloc: Global,
    form: &[u8],
    line: &[u8],
) -> Result<Sequence<Sequence<u8>>, Memory>
    ensures { IfOk result (λ found. found ≡ pieces form.now line.now) }
{
    let mut found = Sequence::new(alloc);
    let mut rest = line;
    for sign in form {
        let count = part_length(*sign, rest);
        push_piece(alloc, &mut found, *sign, front(rest, count))?;
        rest = behind(rest, count);
    }
    Ok(found)
}
