ghost use Rattle.std.specs.Prelude.{◌≡◌, ◌+◌, ◌<◌, ◌≤◌, ◌++◌, ◌∷◌, ℕ, List, Option, [], None, Some, map, length, slice_index_or, IfOk, OnOk};
ghost use Rattle.run_timing.specs.Befores.{IsEarlier, decoded_before};

use dn_base::{Memory, Sequence};
use std::alloc::Global;
use std::marker::Model;

/// For each event of a run, the event after which it comes, if any.
///
/// Each takes 4 bytes, where an `Option<u32>` would take 8. The number of the event plus 1 is stored, or 0 if there is none.
#[derive(Drop)]
pub(crate) struct Befores {
    numbers: Sequence<u32>,
}

impl Model for Befores {
    ghost Value = { List (Option ℕ) };

    ghost view = { λ befores. map decoded_before befores.numbers };
}

/// The number that is stored for an event, or for none.
fn stored_number(event: Option<u32>) -> u32
    requires { (i : ℕ) → event ≡ Some i → i < 4294967295 }
    ensures { decoded_before result ≡ event }
{
    match event {
        Some(event) => event + 1,
        None => 0,
    }
}

/// The event that this stored number stands for, if any.
fn event_of(number: u32) -> Option<u32>
    ensures { result ≡ decoded_before number }
{
    match number {
        0 => None,
        _ => Some(number - 1),
    }
}

impl Befores {
    /// Empty, with room for this many events: 4 bytes for each.
    ///
    /// # Errors
    /// `Memory` where there is no room.
    pub(crate) fn with_room(alloc: Global, events: usize) -> Result<Befores, Memory>
        ensures { IfOk result (λ befores. befores ≡ []) }
    {
        Ok(Befores {
            numbers: Sequence::from_vec(Vec::with_capacity(alloc, events)?),
        })
    }

    /// Adds the event after which one more event comes.
    ///
    /// # Errors
    /// `Memory` where there is no room.
    pub(crate) fn push(&mut self, before: Option<u32>) -> Result<(), Memory>
        requires { (i : ℕ) → before ≡ Some i → i < 4294967295 }
        ensures { OnOk result (self.new ≡ self.old ++ before ∷ []) }
    {
        self.numbers.push(stored_number(before))
    }

    /// The event after which this one comes.
    pub(crate) fn get(&self, event: u32) -> Option<u32>
        requires { event < length self.now }
        ensures { result ≡ slice_index_or self.now event None }
    {
        event_of(self.numbers.as_slice()[event as usize])
    }

    /// How many events lead to this one, itself included: the event after which it comes, the event after which that one comes,
    /// and so on, to one that comes after none.
    pub(crate) fn count_to(&self, last: Option<u32>) -> usize
        requires earlier { IsEarlier self.now }
        requires within { (i : ℕ) → last ≡ Some i → i < length self.now }
    {
        let mut count = 0;
        let mut next = last;
        while let Some(event) = next {
            count += 1;
            next = self.get(event);
        }
        count
    }
}
