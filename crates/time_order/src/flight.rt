ghost use Rattle.std.specs.Prelude.{◌≡◌};
ghost use Rattle.time_order.specs.Flights.{order_of};
ghost use Rattle.time_order.specs.TimeOrder.{less};

use message_net::MailId;

/// A message in flight: when it arrives, in ticks from the run's start, the index of its sender, and its id.
#[derive(Clone, Copy, Drop)]
pub(crate) struct Flight {
    pub(crate) arrival: u64,
    pub(crate) sender: u32,
    pub(crate) id: MailId,
}

impl Flight {
    /// Whether an actor handles this message before another one, if both have arrived.
    pub(crate) fn is_before(&self, other: &Flight) -> bool
        ensures { result ≡ less (order_of self.now) (order_of other.now) }
    {
        self.arrival < other.arrival
            || (self.arrival == other.arrival
                && (self.sender < other.sender
                    || (self.sender == other.sender && self.id.number < other.id.number)))
    }
}
