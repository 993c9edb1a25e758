//! The listing of a program: a source text with one statement a line, from which the assembler makes the same program.
#![tactic(auto)]

mod effects;
mod instruction;
mod statement;
mod writing;

pub use instruction::push_code_word;
pub use writing::{listing, listing_with_addresses};
