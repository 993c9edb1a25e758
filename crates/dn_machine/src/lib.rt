//! The multicore machine as code: the cores' nodes, the banks, the barrier controller of the barrier, the messages in flight, and
//! the events that lead from state to state. One thread makes its events; a seed picks them.
#![tactic(auto)]

mod actors;
mod content;
mod draws;
mod enabling;
mod ends;
mod events;
mod forms;
mod held;
mod laws;
mod log;
mod machine;
mod noting;
mod own_row;
mod parts;
mod picking;
mod places;
mod posting;
mod reading;
mod record;
mod running;
mod starting;
mod trying;
mod words;

pub use draws::draw;
pub use held::{pending_among, value_at};
pub use laws::{
    a_complete_run_keeps_the_promises_of_runs, a_pick_is_an_event_that_may_come,
    a_seed_gives_one_complete_run,
};
pub use log::{Happened, Log};
pub use machine::{Machine, a_machine_is_kept};
pub use machine_rules::Stepped;
pub use parts::{MachineParts, what_a_run_leaves_is_kept};
pub use record::RunRecord;
