use dn_base::{Grant, Sequence};
use grant_log::Counts;
use message_net::Event;
use rv_core::Ending;

/// A run: its events, the grants in the order in which the cores handled them, how many events of each kind there were, and
/// its ending.
#[derive(Drop)]
pub struct RunRecord {
    pub events: Sequence<Event>,
    pub grants: Sequence<Grant>,
    pub counts: Counts,
    pub ending: Ending,
}
