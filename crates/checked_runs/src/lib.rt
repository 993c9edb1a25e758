//! What is promised of the run of a checked program on the multicore machine, however its events were picked, and the run that a
//! trace tells.
#![tactic(auto)]

mod documents;
mod laws;

pub use documents::{machine_told, run_told, run_told_on, shape_told, trace_in};
pub use laws::{an_outcome_has_its_cause, without_locks_every_run_ends_alike};
