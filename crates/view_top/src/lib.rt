//! The program view, except its `main`: from arguments and the trace to what the words ask to see of the run.
#![tactic(auto)]

mod accounts;
mod answering;
mod answers;
mod charts;
mod command;
mod documents;
mod laws;
mod lists;
mod options;
mod pages;
mod parsing;
mod program;
mod run_data;
mod serving;
mod states;
mod status;
mod timings;

pub use answering::{Output, answer};
pub use laws::{
    an_answer_has_a_line_for_each_task, an_answer_has_each_data_word_once,
    each_line_gives_its_code_word, the_bytes_that_are_read_are_enough,
};
pub use options::{
    AccountOptions, AnswerOptions, ChartOptions, PageOptions, PictureOptions, StateOptions, View,
};
pub use parsing::read_words;
pub use program::view_program;
pub use program_outside::WordsFault;
pub use serving::{Viewer, view_main};
pub use status::ViewStatus;
