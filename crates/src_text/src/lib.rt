//! The lines of a source text, their tokens, and the names of registers. The language is this project's profile; the names of
//! registers are those of the RISC-V manuals.
#![tactic(auto)]

mod byte;
mod laws;
mod line;
mod number;
mod registers;
mod token;

pub use laws::{
    lines_are_numbered, lines_have_their_tokens, lines_make_up_the_text, tokens_are_longest,
    tokens_are_slices_of_the_text, tokens_make_up_the_code,
};
pub use line::{Line, LineFault, LineReader, first_line, map_lines, tokens};
pub use registers::register;
pub use token::{Span, Token, TokenKind, bad_number};
