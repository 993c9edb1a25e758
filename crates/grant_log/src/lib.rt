//! What the actors of a run noted of its events: a log for each actor, with rising stamps; the one list into which all logs are
//! merged; the grants in it; and how many events of each kind there were. Messages with stamps, inboxes of them, and spent
//! actors.
//!
//! If an entry handles a message, its stamp is greater than that of the entry that sent the message. So in the merged list each
//! message is handled after it was sent.
#![tactic(auto)]

mod counts;
mod laws;
mod log;
mod posted;

pub use counts::Counts;
pub use laws::{
    a_merge_is_the_only_one, a_merge_keeps_each_log, an_event_raises_its_kind_alone, counts_add_up,
    stamps_come_first,
};
pub use log::{Stamped, grants, merge};
pub use posted::{Posted, has_numbers_left, note, stamp_of, take_picked};
