//! The program referee, except its `main`: it judges a simulator's claim by the run of one thread on one memory, and makes
//! right claims.
#![tactic(auto)]

mod answering;
mod batching;
mod command;
mod documents;
mod laws;
mod mode;
mod program;
mod serving;
mod settled;
mod settled_laws;
mod status;
mod words;

pub use answering::{Reply, answer};
pub use batching::answer_to;
pub use laws::{
    a_claim_agrees_where_one_thread_does, a_claim_that_is_printed_agrees,
    the_bytes_that_are_read_are_enough,
};
pub use mode::{RefereeMode, RefereeOptions};
pub use program::referee_program;
pub use program_outside::WordsFault;
pub use serving::{Referee, referee_main};
pub use settled::judge_settled;
pub use settled_laws::{
    a_claim_agrees_where_an_ending_has_what_is_common, no_run_has_an_answer_that_differs,
    the_answer_of_any_order_agrees,
};
pub use status::RefereeStatus;
pub use words::read_words;
