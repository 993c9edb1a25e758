//! A run in time order: each event is the one that can start first, by the ticks of its kind and the latency of a network. The
//! ticks and the network are this project's profile.
#![tactic(auto)]

mod actors;
mod choice;
mod flight;
mod laws;
mod queue;
mod running;
mod sending;

pub use laws::{
    messages_are_handled_as_sent, nothing_is_passed_over, starts_never_fall,
    there_is_one_run_in_time_order,
};
pub use running::run_in_time_order;
