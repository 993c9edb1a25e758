//! The program outcomes, except its `main`: it says what every run of a text has in common, for every order in which the tasks
//! get their locks.
#![tactic(auto)]

mod alone;
mod answering;
mod cells;
mod circles;
mod command;
mod finding;
mod kinds;
mod laws;
mod marks;
mod origins;
mod phase;
mod program;
mod reasons;
mod serving;
mod status;
mod summary;
mod takings;
mod text;
mod watched;
mod why;
mod words;

pub use answering::{Reply, answer};
pub use finding::outcomes;
pub use laws::{
    a_named_acquire_is_made, a_named_register_decides_and_a_named_load_is_made,
    an_open_answer_has_its_reason, every_complete_run_has_what_is_printed,
    every_order_of_grants_has_what_is_printed, the_bytes_that_are_read_are_enough,
    what_is_printed_stands_in_the_answer, without_locks_the_answer_of_the_flat_machine_is_printed,
};
pub use program::outcomes_program;
pub use program_outside::WordsFault;
pub use reasons::{Dependence, Read, Reason, Taken};
pub use serving::{CommonOutcomes, outcomes_main};
pub use status::OutcomesStatus;
pub use text::{common_text, open_line};
pub use why::why_open;
pub use words::read_words;
