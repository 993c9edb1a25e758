use dn_base::{Grant, LoadSeen};
use message_net::EventKind;

/// What one event of the machine tells: its kind, the load that it completed, and the lock that it granted.
#[derive(Clone, Copy)]
pub struct Stepped {
    pub kind: EventKind,
    pub seen: Option<LoadSeen>,
    pub granted: Option<Grant>,
}
