//! The assembler: from a source text to the program that the source language gives it, or to the text's first fault.
#![tactic(auto)]

mod assembling;
mod claim_rows;
mod coding;
mod draft;
mod emission;
mod fault;
mod finishing;
mod good_lines;
mod kind;
mod language;
mod laws;
mod names;
mod number;
mod operand;
mod parsing;
mod shape;
mod statement;
mod testing;
mod uniting;

pub use assembling::assemble;
pub use draft::Cores;
pub use fault::SourceFault;
pub use good_lines::{code_size, family_cores};
pub use language::{
    a_family_has_the_rows_of_its_lines, a_pseudo_instruction_has_its_base_line,
    two_words_make_their_value,
};
pub use laws::{
    a_union_has_all_words, lines_of_good_form_are_few, names_may_be_declared,
    only_long_texts_are_too_large, programs_are_well_formed, what_stands_before_a_line_has_32_bits,
};
pub use parsing::{Reading, Saying, read_line, version_line};
pub use statement::{Code, Effect, Extent, Family, Statement};
