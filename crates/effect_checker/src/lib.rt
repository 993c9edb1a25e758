//! The checker of declared effects: whether the tasks of each phase have no conflicting words, and the least conflict if they
//! have.
#![tactic(auto)]

mod checked;
mod checking;
mod fault;
mod least;
mod searching;
mod takers;

pub use checked::Checked;
pub use checking::{check, first_fault};
pub use fault::CheckFault;
