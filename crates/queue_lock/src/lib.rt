//! A queue lock at its home bank: the holder, the cores that wait in the order in which they asked, and the signature of
//! the words that were written under the lock.
//!
//! The lock and its signature are those of DeNovoND (ASPLOS 2013). There the queue is kept at the waiting cores; here it is
//! kept at the lock's home bank, which is this project's own.
#![tactic(auto)]

mod laws;
mod lock;
mod reading;

pub use laws::{
    a_queue_without_a_core_has_room, a_release_hands_the_lock_on,
    a_release_of_another_changes_nothing, an_acquire_counts_its_core, locks_stay_the_machines,
    locks_stay_well_formed, one_core_holds_a_lock, who_waits_stands_in_the_queue,
};
pub use lock::LockHome;
