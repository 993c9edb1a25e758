//! The program sweep, except its `main`: it runs one text by many seeds, and prints a summary of the runs,
//! a table of their answers, or a table of the runs.
#![tactic(auto)]

mod answering;
mod answers;
mod command;
mod counts;
mod hashing;
mod laws;
mod options;
mod program;
mod running;
mod serving;
mod spread;
mod status;
mod summary;
mod table;
mod tally;
mod words;

pub use answering::{Reply, answer};
pub use hashing::checksum;
pub use laws::{
    each_answer_is_counted_once, each_row_is_of_the_run_that_denovo_prints,
    the_bytes_that_are_read_are_enough, the_least_and_the_most_are_of_the_runs,
};
pub use options::{Form, MOST_SEEDS, Seeds, SweepOptions};
pub use program::sweep_program;
pub use program_outside::WordsFault;
pub use serving::{Sweep, sweep_main};
pub use status::SweepStatus;
pub use words::read_words;
