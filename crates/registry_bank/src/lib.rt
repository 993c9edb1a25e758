//! The banks of the shared memory. For each of its words a bank holds the value or the word's registrant. For each of its locks
//! it holds the holder, the queue and the signature. It handles the messages of the cores.
//!
//! A home names a word's registrant if it has no data for the word, and keeps no list of sharers: that is DeNovo's (PACT 2011).
//! Queue locks are DeNovoND's (ASPLOS 2013). That write-backs are acknowledged is this project's own.
#![tactic(auto)]

mod bank;
mod laws;

pub use bank::{Bank, BankWord};
pub use laws::{
    a_bank_keeps_its_shape, a_bank_stays_the_machines, a_lock_changes_alone, a_word_changes_alone,
    an_opened_bank_holds_the_first_memory, locks_change_by_their_own_messages,
    other_kinds_change_nothing, words_change_by_their_own_messages,
};
