//! From which line of a source text the parts of its program come: code words, regions, data words, locks, phases and tasks, by
//! the definition of the source language; and how sentences name these parts.
#![tactic(auto)]

mod laws;
mod lines;
mod places;
mod texts;
mod words;

pub use laws::{
    a_code_word_is_one_of_its_line, each_part_of_a_program_has_a_place, each_word_has_its_region,
};
pub use lines::line_text;
pub use places::{CodePlace, Located, Places, TaskPlace, located_program, text_places};
pub use texts::{
    push_address, push_code_place, push_lock, push_quoted, push_quoted_line, push_word,
};
pub use words::{WordPlace, region_of_word};
