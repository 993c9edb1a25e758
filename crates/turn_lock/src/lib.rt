//! A turn lock: a sequential object that several callers share. They make one call at a time, in the order in which they drew
//! their tickets. All calls stand in one history, which a single thread could have made. Each caller's own calls stand in it in
//! the caller's order, each exactly once. `Turn::close` gives the object and that history back.
#![tactic(auto)]

mod call;
mod close;
mod desk;
mod entry;
mod object;
mod pass;
mod rule;
mod start;
mod turn;
mod view;

pub use entry::Entry;
pub use object::Object;
pub use pass::TurnPass;
pub use turn::Turn;
