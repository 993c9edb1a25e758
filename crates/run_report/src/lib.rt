//! The texts that the program prints, byte for byte; and a text's way to its checked program, or to the line that refuses it.
//!
//! Every line ends with a newline. Hexadecimal numbers have `0x` and eight digits in lower case, and all others are
//! decimal.
#![tactic(auto)]

mod answer;
mod grants;
mod programs;
mod refusal;
mod run;
mod totals;

pub use answer::{answer_text, answer_text_without_retired, kind_name, outcome_name, push_end};
pub use grants::grant_text;
pub use programs::{Stop, checked_of, program_of};
pub use refusal::{Refusal, refusal_line};
pub use run::{all_kinds, event_count, event_name, report};
pub use totals::{checked_line, retired_by_all, summary};
