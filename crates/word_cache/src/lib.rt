//! The private cache of a core: words with their states, in sets of up to 16 places.
//!
//! The states are DeNovo's (PACT 2011): a word without a pair is Invalid, otherwise it is Valid or Registered. Leaving is this
//! project's own state: the word was written back, and its home hasn't acknowledged that yet. The mark of a Valid entry is the
//! article's touched bit.
#![tactic(auto)]

mod cache;
mod edits;
mod grant;
mod laws;
mod looks;
mod order;
mod places;
mod row;
mod sweep;
mod times;

pub use cache::WordCache;
pub use laws::{
    a_cache_stays_a_cache, a_full_set_waits, an_entry_changes_alone, each_entry_is_judged_alone,
    pending_entries_are_counted,
};
pub use row::{Entry, Place, Probe};
