//! Texts of several pieces, which are added by one call.
ghost use Rattle.std.specs.Prelude.{◌≡◌, ◌++◌, OnOk};
ghost use Rattle.text_pieces.specs.Several.{piece_text, pieces_text};

use crate::pieces::{push, push_decimal, push_long};
use dn_base::Memory;

/// A piece of a text.
#[derive(Clone, Copy)]
pub enum Piece<'a> {
    /// These bytes.
    Bytes(&'a [u8]),
    /// A number in decimal digits.
    Number(u32),
    /// A number of 64 bits in decimal digits.
    Long(u64),
}

/// Appends a piece.
fn push_piece(out: &mut Vec<u8>, piece: Piece<'_>) -> Result<(), Memory>
    ensures { OnOk result (out.new.items ≡ out.old.items ++ piece_text piece.entry) }
{
    match piece {
        Piece::Bytes(bytes) => push(out, bytes),
        Piece::Number(number) => push_decimal(out, number),
        Piece::Long(number) => push_long(out, number),
    }
}

/// Appends pieces, one after the other.
///
/// # Errors
/// `Memory` where there is no room for them.
pub fn push_pieces(out: &mut Vec<u8>, pieces: &[Piece<'_>]) -> Result<(), Memory>
    ensures { OnOk result (out.new.items ≡ out.old.items ++ pieces_text pieces.now) }
{
    for piece in pieces {
        push_piece(out, *piece)?;
    }
    Ok(())
}
