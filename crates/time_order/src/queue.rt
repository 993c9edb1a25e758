ghost use Rattle.std.specs.Prelude.{◌≡◌, ◌∷◌, ◌+◌, ◌<◌, ◌≤◌, ◌-◌, ℕ, [], Some, true, false, length, slice_get, slice_index_or, sum_by, OnOk, OnErr};
ghost use Rattle.time_order.specs.declared.flight.Flight.{Flight as AFlight};
ghost use Rattle.time_order.specs.Flights.{AreSorted, order_of};
ghost use Rattle.time_order.specs.TimeOrder.{less};

use crate::flight::Flight;
use dn_base::Memory;
use std::alloc::Global;
use std::marker::Model;

/// The messages in flight to one actor, in the order in which it handles them.
#[derive(Drop)]
pub(crate) struct Queue {
    flights: Vec<Flight>,
}

impl Model for Queue {
    ghost use Rattle.std.specs.Prelude.{List};
    ghost use Rattle.time_order.specs.declared.flight.Flight.{Flight};
    ghost use Rattle.time_order.specs.Flights.{AreSorted};

    ghost Value = { List Flight };

    ghost view = { λ q. q.flights.items };

    ghost invariant = { λ q. AreSorted q.flights.items };
}

/// Where a message belongs among those to its receiver: behind each that doesn't come after it. It is looked for from the back,
/// since messages arrive nearly in the order in which they are sent.
fn place_for(flights: &[Flight], flight: &Flight) -> usize
    ensures within { result ≤ length flights.now }
    ensures behind { (k : ℕ) (d : AFlight) → result ≤ k → k < length flights.now → less (order_of flight.now) (order_of (slice_index_or flights.now k d)) ≡ true }
    ensures ahead { (d : AFlight) → 0 < result → less (order_of flight.now) (order_of (slice_index_or flights.now (result - 1) d)) ≡ false }
{
    let mut place = flights.len();
    while place > 0 && flight.is_before(&flights[place - 1]) {
        place -= 1;
    }
    place
}

impl Queue {
    /// Without messages.
    pub(crate) fn new(alloc: Global) -> Queue
        ensures { result ≡ [] }
    {
        Queue {
            flights: Vec::new(alloc),
        }
    }

    /// The message that is handled first, if there is one.
    pub(crate) fn first(&self) -> Option<Flight>
        ensures first { result ≡ slice_get self.now 0 }
        ensures sorted { AreSorted self.now }
    {
        self.flights.as_slice().first().copied()
    }

    /// Puts a message among the others, in their order.
    ///
    /// # Errors
    /// `Memory` where there is no room; the others stay then.
    pub(crate) fn put(&mut self, flight: Flight) -> Result<(), Memory>
        ensures ok { OnOk result ((weight : AFlight → ℕ) → sum_by weight self.new ≡ sum_by weight self.old + weight flight) }
        ensures err { OnErr result (self.new ≡ self.old) }
    {
        let place = place_for(self.flights.as_slice(), &flight);
        self.flights.insert(place, flight)?;
        Ok(())
    }

    /// Removes the message that is handled first, of which there is one.
    pub(crate) fn remove_first(&mut self)
        requires { 0 < length self.old }
        ensures { (f : AFlight) → slice_get self.old 0 ≡ Some f → self.old ≡ f ∷ self.new }
    {
        self.flights.remove(0);
    }
}
