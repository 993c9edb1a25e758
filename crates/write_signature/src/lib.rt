//! Write signatures: which words may have been written under a lock in a phase.
//!
//! A signature is a Bloom filter. It may have false positives, but no false negatives: it holds every word that was written,
//! and maybe others. A lock carries one from critical section to critical section. A core that acquires the lock drops the
//! copies of the words in it, which may be stale. The idea is DeNovoND's (ASPLOS 2013); the size and the two hash functions are
//! this project's profile.
#![tactic(auto)]

mod laws;
mod signature;

pub use laws::{
    a_phase_takes_over_its_own_writes, insert_covers, insert_empties, join_covers,
    join_has_the_bits_of_either, join_is_of_the_later_phase, nothing_is_held_at_first,
    tags_are_kept,
};
pub use signature::Signature;
