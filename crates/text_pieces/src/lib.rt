//! The pieces that printed texts are made of: bytes, and numbers in decimal digits or in eight hexadecimal digits; and parts of
//! documents, which are also found at the beginning of some bytes.
//!
//! Each call that writes appends its piece to a text. After an `Err` the text may have part of the piece, and the caller drops it.
#![tactic(auto)]

mod base16;
mod numbers;
mod pieces;
mod several;
mod text_part;
mod writing;

pub use base16::hexadecimal;
pub use numbers::{behind, field};
pub use pieces::{push, push_decimal, push_hexadecimal, push_long, push_signed, to_hexadecimal};
pub use several::{Piece, push_pieces};
pub use text_part::source;
pub use writing::{push_field, push_source};
