//! What is said after a line of a verdict, with the line's pieces.
ghost use Rattle.std.specs.Prelude.{◌≡◌, ◌++◌, [], slice_index_or, OnOk};
ghost use Rattle.explained_answer.specs.Verdicts.{piece_value, piece_number, word_named, lock_named, said_of, is_piece_mark, phrased};

use crate::long::digits;
use dn_base::{Memory, Sequence};
use text_pieces::push;
use text_places::{Located, push_lock, push_word};

/// The number that the decimal digits at the start of a piece say, if it is below 2^32.
#[tactic(auto, unfolding(crate::specs::Verdicts::piece_value))]
pub(crate) fn piece_number(piece: &[u8]) -> Option<u32>
    ensures { result ≡ piece_number piece.now }
{
    match digits(piece) {
        Some((value, _)) if value <= 4_294_967_295 => Some(value as u32),
        _ => None,
    }
}

/// The piece of this number; empty if there is none.
pub(crate) fn piece_at(found: &[Sequence<u8>], number: usize) -> &[u8]
    ensures { result.now ≡ slice_index_or found.now number [] }
{
    match found.get(number) {
        Some(piece) => piece.as_slice(),
        None => &[],
    }
}

/// Adds the name of the data word whose number a piece is.
fn push_word_of(out: &mut Vec<u8>, located: &Located, piece: &[u8]) -> Result<(), Memory>
    ensures { OnOk result (out.new.items ≡ out.old.items ++ word_named located.now piece.now (piece_number piece.now)) }
{
    match piece_number(piece) {
        Some(word) => push_word(out, &located.program, word),
        None => {
            push(out, b"word ")?;
            push(out, piece)
        }
    }
}

/// Adds the name of the lock whose number a piece is.
fn push_lock_of(out: &mut Vec<u8>, located: &Located, piece: &[u8]) -> Result<(), Memory>
    ensures { OnOk result (out.new.items ≡ out.old.items ++ lock_named located.now piece.now (piece_number piece.now)) }
{
    match piece_number(piece) {
        Some(lock) => push_lock(out, located.program.locks.as_slice(), lock as usize),
        None => {
            push(out, b"lock ")?;
            push(out, piece)
        }
    }
}

/// Adds what a byte of a phrase says of a piece.
fn push_said(out: &mut Vec<u8>, located: &Located, mark: u8, piece: &[u8]) -> Result<(), Memory>
    ensures { OnOk result (out.new.items ≡ out.old.items ++ said_of located.now mark piece.now) }
{
    if mark == b'$' {
        push(out, piece)
    } else if mark == b'~' {
        Ok(())
    } else if mark == b'@' {
        push_word_of(out, located, piece)
    } else if mark == b'%' {
        push_lock_of(out, located, piece)
    } else {
        push(out, &[mark])
    }
}

/// Whether a byte of a phrase part_stands for the next piece.
fn is_piece_mark(mark: u8) -> bool
    ensures { result ≡ is_piece_mark mark }
{
    mark == b'$' || (mark == b'~' || (mark == b'@' || mark == b'%'))
}

/// Adds a phrase with these pieces.
///
/// # Errors
/// `Memory` where there is no room for it.
pub(crate) fn push_phrase(
    out: &mut Vec<u8>,
    located: &Located,
    phrase: &[u8],
    found: &[Sequence<u8>],
) -> Result<(), Memory>
    ensures { OnOk result (out.new.items ≡ out.old.items ++ phrased located.now found.now 0 phrase.now) }
{
    let mut next = 0;
    for mark in phrase {
        push_said(out, located, *mark, piece_at(found, next))?;
        if is_piece_mark(*mark) {
            next += 1;
        }
    }
    Ok(())
}
