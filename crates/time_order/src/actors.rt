ghost use Rattle.std.specs.Prelude.{◌≡◌, ◌+◌, ◌<◌, ◌≤◌, ℕ, None, [], length, replicate, slice_get, slice_index, slice_set, IfOk};
ghost use Rattle.time_order.specs.Actors.{AreLooked};
ghost use Rattle.time_order.specs.Choices.{IsFirstChoice};
ghost use Rattle.time_order.specs.Flights.{AreSorted, queue_at};

use crate::choice::{Choice, first};
use crate::queue::Queue;
use dn_base::{CoreId, Memory, Sequence, Shape};
use dn_machine::Machine;
use std::alloc::Global;

/// What is kept of each actor, by its index: when its last event finished, in ticks from the run's start, 0 before its first; the
/// messages in flight to it; and what it can start first.
#[derive(Drop)]
pub(crate) struct Actors {
    pub(crate) free: Sequence<u64>,
    pub(crate) queues: Vec<Queue>,
    pub(crate) choices: Sequence<Option<Choice>>,
}

/// As many queues without messages.
fn no_queues(alloc: Global, actors: usize) -> Result<Vec<Queue>, Memory>
    ensures { IfOk result (λ queues. queues.items ≡ replicate actors []) }
{
    let mut queues = Vec::with_capacity(alloc, actors)?;
    for _actor in 0..actors {
        queues.push(Queue::new(alloc))?;
    }
    Ok(queues)
}

impl Actors {
    /// The actors of a machine when a run begins.
    ///
    /// # Errors
    /// `Memory` where there is no room.
    pub(crate) fn new(alloc: Global, shape: Shape) -> Result<Actors, Memory>
        ensures free { IfOk result (λ actors. actors.free ≡ replicate (shape.cores + shape.banks + 1) 0) }
        ensures queues { IfOk result (λ actors. actors.queues.items ≡ replicate (shape.cores + shape.banks + 1) []) }
        ensures choices { IfOk result (λ actors. length actors.choices ≡ shape.cores + shape.banks + 1) }
    {
        let actors = shape.cores as usize + shape.banks as usize + 1;
        Ok(Actors {
            free: Sequence::from_vec(vec![in alloc; 0; actors]?),
            queues: no_queues(alloc, actors)?,
            choices: Sequence::from_vec(vec![in alloc; None; actors]?),
        })
    }

    /// Looks what each actor can start first.
    fn look(&mut self, machine: &Machine)
        requires few { length self.old.choices ≤ 33 }
        requires free { length self.old.free ≡ length self.old.choices }
        requires queues { length self.old.queues.items ≡ length self.old.choices }
        ensures looked { AreLooked machine.now.state self.new.free self.new.queues.items (length self.new.choices) self.new.choices }
        ensures sorted { (place : ℕ) → place < length self.new.choices → AreSorted (queue_at self.new.queues.items place) }
        ensures free { self.new.free ≡ self.old.free }
        ensures queues { self.new.queues ≡ self.old.queues }
        ensures long { length self.new.choices ≡ length self.old.choices }
    {
        for place in 0..self.choices.len() {
            let own = machine.own_event(CoreId(place as u32));
            let choice = Choice::of(own, self.free.as_slice()[place], self.queues[place].first());
            self.choices.set(place, choice);
        }
    }

    /// The actor that can start first, by its index, and what it does then.
    pub(crate) fn first(&mut self, machine: &Machine) -> Option<(usize, Choice)>
        requires few { length self.old.choices ≤ 33 }
        requires free { length self.old.free ≡ length self.old.choices }
        requires queues { length self.old.queues.items ≡ length self.old.choices }
        ensures looked { AreLooked machine.now.state self.new.free self.new.queues.items (length self.new.choices) self.new.choices }
        ensures sorted { (place : ℕ) → place < length self.new.choices → AreSorted (queue_at self.new.queues.items place) }
        ensures first { IsFirstChoice self.new.choices (length self.new.choices) result }
        ensures free { self.new.free ≡ self.old.free }
        ensures queues { self.new.queues ≡ self.old.queues }
        ensures long { length self.new.choices ≡ length self.old.choices }
    {
        self.look(machine);
        first(self.choices.as_slice())
    }
}
