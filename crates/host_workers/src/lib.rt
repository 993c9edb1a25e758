//! Host workers: threads that make the run of a multicore machine together. Each owns some of the cores and banks. They share a
//! hall, in which each bank, each core's inbox and the barrier controller has a turn of its own.
#![tactic(auto)]

mod crew;
mod deeds;
mod emitting;
mod end_seen;
mod ends;
mod finishing;
mod inboxes;
mod laws;
mod noting;
mod opening;
mod owned;
mod pass;
mod roster;
mod round;
mod run;
mod serving;
mod stamps;
mod stepping;
mod working;

pub use crew::{BankLog, Crew};
pub use end_seen::EndSeen;
pub use laws::{
    a_round_is_a_run, mail_numbers_stay_low, no_object_is_spent, passes_follow_one_another,
    steps_are_of_owners, the_one_list_tells_the_histories, whoever_has_something_to_do_acts,
};
pub use owned::Owned;
pub use pass::worker_pass;
pub use round::{Round, run_round};
pub use run::{WorkersRun, run_keeping_machine, run_workers};
