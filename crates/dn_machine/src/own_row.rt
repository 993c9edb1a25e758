ghost use Rattle.std.specs.Prelude.{◌≡◌, ◌<◌, ◌≤◌, Some, true, length, take, None, slice_get, slice_set, slice_index_or};
ghost use Rattle.message_net.specs.declared.event.Event.TheVariants.{Instr as AnInstr};
ghost use Rattle.dn_machine.specs.OwnRow.{cores_with};
ghost use Rattle.dn_machine.specs.Pick.{known_events};

use dn_base::{CoreId, MOST_CORES};
use message_net::Event;
use std::marker::Model;

/// The own event of each core, if it has one, and a list of the cores that have one. So the own event at a position among those
/// that exist is found without a search.
///
/// Contracts see only the own events, with a place for each of 16 cores.
#[derive(Drop)]
pub(crate) struct OwnRow {
    own: [Option<Event>; MOST_CORES],
    /// The numbers of the cores that have an own event, in rising order, in the first `count` places.
    cores: [u8; MOST_CORES],
    count: usize,
}

impl Model for OwnRow {
    ghost use Rattle.std.specs.Prelude.{List, Option};
    ghost use Rattle.message_net.specs.declared.event.Event.{Event};
    ghost use Rattle.dn_machine.specs.OwnRow.{IsListed};

    ghost Value = { List (Option Event) };

    ghost view = { λ r. r.own };

    ghost invariant = { λ r. IsListed r.own r.cores r.count };
}

/// Writes the numbers of the cores that have an own event, in rising order, to the first places, and gives how many there are.
fn list_cores(own: &[Option<Event>; MOST_CORES], cores: &mut [u8; MOST_CORES]) -> usize
    ensures listed { take result cores.new ≡ cores_with 0 own.now }
    ensures most { result ≤ 16 }
{
    let mut count = 0;
    for core in 0..MOST_CORES {
        // Each core is written there, and overwritten by the next one if it has no event. So the loop needs no branch.
        cores[count] = core as u8;
        if own[core].is_some() {
            count += 1;
        }
    }
    count
}

impl OwnRow {
    /// The row of these own events. Takes no memory.
    pub(crate) fn new(own: [Option<Event>; MOST_CORES]) -> OwnRow
        ensures { result ≡ own }
    {
        let mut cores = [0; MOST_CORES];
        let count = list_cores(&own, &mut cores);
        OwnRow { own, cores, count }
    }

    /// Sets or clears the own event of a core.
    #[inline(always)]
    pub(crate) fn set(&mut self, core: usize, event: Option<Event>)
        requires { core < 16 }
        ensures { self.new ≡ slice_set self.old core event }
    {
        let had = self.own[core].is_some();
        self.own[core] = event;
        if event.is_some() != had {
            self.count = list_cores(&self.own, &mut self.cores);
        }
    }

    /// Whether the own event of a core is its instruction.
    #[inline(always)]
    pub(crate) fn has_instr(&self, core: CoreId) -> bool
        ensures { result ≡ true → (c : CoreId) × (slice_get self.now core.0 ≡ Some (Some (AnInstr c))) }
    {
        matches!(self.own.get(core.0 as usize), Some(Some(Event::Instr(_))))
    }

    /// The own event of a core; None if it has none, or isn't below 16.
    #[inline(always)]
    pub(crate) fn of_core(&self, core: CoreId) -> Option<Event>
        ensures { result ≡ slice_index_or self.now core.0 None }
    {
        match self.own.get(core.0 as usize) {
            Some(event) => *event,
            None => None,
        }
    }

    /// How many cores have an own event.
    #[inline(always)]
    pub(crate) fn count(&self) -> u32
        ensures count { result ≡ length (known_events self.now) }
        ensures most { result ≤ 16 }
    {
        self.count as u32
    }

    /// The own event at this position among those that exist, in the order of cores.
    #[inline(always)]
    pub(crate) fn at(&self, place: u32) -> Option<Event>
        ensures { result ≡ slice_get (known_events self.now) place }
    {
        if place as usize >= self.count {
            return None;
        }
        let core = self.cores[place as usize];
        self.own[core as usize]
    }
}
