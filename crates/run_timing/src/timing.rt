use message_net::EventKind;

/// An event of the longest chain: its number among the run's events, from 0, its kind, and at which tick from the run's start
/// it finishes.
#[derive(Clone, Copy, PartialEq, Eq)]
pub struct Link {
    pub event: u32,
    pub kind: EventKind,
    pub finish: u64,
}

const _: () = prove!(size_of::<Link>() == 16);

/// How many ticks a run takes, and the chain of dependent events that takes them. `network` has how many of the ticks messages are
/// under way, by which one event of the chain depends on the one before it; None in a network without latency.
#[derive(Drop)]
pub struct Timing {
    pub total: u64,
    pub network: Option<u64>,
    pub links: Vec<Link>,
}
