//! The shell of every program here: it takes the arguments, reads a text as a whole, writes the answer as a whole, and ends with
//! an exit code. A program gives it its words and its answer.
#![tactic(auto)]

mod ends;
mod program;
mod programs;
mod reading;
mod serving;
mod statuses;
mod words;
mod writing;

pub use ends::{EndStatus, Failure, Output};
pub use program::{answer_given, exit_code, given_words, no_words, run_program};
pub use programs::{Answers, Program};
pub use reading::{ReadError, read_opened, read_text};
pub use serving::{end_without_text, refuse_words, reply, serve, serve_words};
pub use words::{
    OptionValue, WordsFault, bare_command, matches_by, number, number_option, switch, text_of,
    text_option, with_option, with_options,
};
pub use writing::write_text;
