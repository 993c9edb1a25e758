ghost use Rattle.std.specs.Prelude.{◌≡◌, ◌+◌, ◌<◌, ◌≤◌, ℕ, [], Some, length, OnOk, IfOk};
ghost use Rattle.run_timing.specs.Rows.{IsLatest, behind, finish_in, start_after, with_timing_row};

use crate::befores::Befores;
use dn_base::{MOST_EVENTS, Memory, Sequence};
use message_net::EventKind;
use std::alloc::Global;

const _: () = prove!(size_of::<EventKind>() == 1);

/// When an event starts, in ticks from the run's start, and the event after which it comes, if any.
#[derive(Clone, Copy)]
pub(crate) struct Start {
    pub(crate) event: Option<u32>,
    pub(crate) tick: u64,
}

/// The notes of each event of a run: when it finishes, the event after which it comes, and its kind.
#[derive(Drop)]
pub(crate) struct Rows {
    pub(crate) finishes: Sequence<u64>,
    pub(crate) befores: Befores,
    pub(crate) kinds: Sequence<EventKind>,
}

impl Rows {
    /// Empty, with room for this many events: 13 bytes for each.
    ///
    /// # Errors
    /// `Memory` where there is no room.
    pub(crate) fn with_room(alloc: Global, events: usize) -> Result<Rows, Memory>
        ensures { IfOk result (λ rows. rows ≡ record { finishes = []; befores = []; kinds = [] }) }
    {
        Ok(Rows {
            finishes: Sequence::from_vec(Vec::with_capacity(alloc, events)?),
            befores: Befores::with_room(alloc, events)?,
            kinds: Sequence::from_vec(Vec::with_capacity(alloc, events)?),
        })
    }

    /// When an event finishes; 0 if there is none.
    pub(crate) fn finish(&self, event: Option<u32>) -> u64
        requires { (i : ℕ) → event ≡ Some i → i < length self.now.finishes }
        ensures { result ≡ behind (finish_in self.now) event }
    {
        match event {
            Some(event) => self.finishes.as_slice()[event as usize],
            None => 0,
        }
    }

    /// When an event starts, by the event before it of its own actor and the one that sent its message, which is under way for some
    /// ticks: at the later of the one's finish and the message's arrival. It comes after the one that is later, the own actor's if both
    /// are alike.
    pub(crate) fn start(&self, own: Option<u32>, sender: Option<u32>, delay: u64) -> Start
        requires own { (i : ℕ) → own ≡ Some i → i < length self.now.finishes }
        requires sender { (i : ℕ) → sender ≡ Some i → i < length self.now.finishes }
        requires fits { behind (finish_in self.now) sender + delay < 18446744073709551616 }
        ensures { result ≡ start_after (finish_in self.now) delay own sender }
    {
        let free = Start {
            event: own,
            tick: self.finish(own),
        };
        let arrival = Start {
            event: sender,
            tick: self.finish(sender) + delay,
        };
        match (own, sender) {
            (Some(_), Some(_)) => {
                if free.tick < arrival.tick {
                    arrival
                } else {
                    free
                }
            }
            (None, Some(_)) => arrival,
            (_, None) => free,
        }
    }

    /// Notes one more event, of this kind and this many ticks, which starts then.
    ///
    /// # Errors
    /// `Memory` where there is no room.
    pub(crate) fn add(&mut self, kind: EventKind, ticks: u32, start: Start) -> Result<(), Memory>
        requires before { (i : ℕ) → start.event ≡ Some i → i < length self.old.finishes }
        requires few { length self.old.finishes ≤ MOST_EVENTS }
        requires fits { start.tick + ticks < 18446744073709551616 }
        ensures { OnOk result (self.new ≡ with_timing_row kind ticks start self.old) }
    {
        self.finishes.push(start.tick + ticks as u64)?;
        self.befores.push(start.event)?;
        self.kinds.push(kind)
    }

    /// The event that finishes last, the first of them if there are several; None if there is no event.
    pub(crate) fn latest(&self) -> Option<u32>
        requires few { length self.now.finishes ≤ MOST_EVENTS }
        requires some { (i : ℕ) → i < length self.now.finishes → 1 ≤ finish_in self.now i }
        ensures { IsLatest (length self.now.finishes) (finish_in self.now) result }
    {
        let mut latest = None;
        for (event, finish) in self.finishes.as_slice().iter().enumerate() {
            if self.finish(latest) < *finish {
                latest = Some(event as u32);
            }
        }
        latest
    }
}
