//! The rule of a turn, and what its steps tell. These types are for the proofs alone.
ghost use Rattle.std.specs.Prelude.{◌-◌};
ghost use Rattle.turn_lock.specs.History.{maker};
ghost use Rattle.turn_lock.specs.Standing.{dealer, dealt, newcomer, gathered, spent};
ghost use Rattle.turn_lock.specs.Turns.{Kept};
ghost use Rattle.turn_lock.specs.Steps.{drew, looked, left, passed};
ghost use Rattle.turn_lock.specs.Slots.{Lies, history_in_slot};

use crate::desk::Desk;
use crate::entry::Entry;
use crate::object::Object;
use crate::view::View;
use atomic_table::{Join, Play, Seat, Split, Table, TableRule};
use std::alloc::Global;
use std::marker::PhantomData;
use std::snapshot::Snapshot;

/// What a turn is told once: the object as it began, and the number of passes.
pub struct Plan<O> {
    pub object: Snapshot<O>,
    pub passes: u32,
}

impl<O> Drop for Plan<O> {
    fn drop(self) {
        let Self {
            object: _,
            passes: _,
        } = self;
    }
}

/// The rule of a turn: `Kept` holds between any two steps.
pub struct Law<O> {
    object: PhantomData<O>,
}

impl<O: Object> TableRule<Option<Desk<O>>, View<O, Entry<O>>, Plan<O>> for Law<O> {
    ghost holds = { λ plan. Kept maker (Lies O.content O.answer O.next) plan.object.value plan.passes };

    ghost first = { λ plan. dealer plan.object.value 1 (plan.passes - 1) };
}

/// The shared table of a turn: its two words, its slot, and what its seats know.
pub type Board<O> = Table<Option<Desk<O>>, View<O, Entry<O>>, Plan<O>, Law<O>, Global>;

/// A caller's seat at that table.
pub type Chair<O> = Seat<Option<Desk<O>>, View<O, Entry<O>>>;

/// A ticket was drawn.
pub struct Draw;

impl<S, X, E> Play<S, View<X, E>> for Draw {
    ghost then = { drew };
}

/// The serving word was looked at.
pub struct Look<O> {
    object: PhantomData<O>,
}

impl<O: Object> Play<Option<Desk<O>>, View<O, Entry<O>>> for Look<O> {
    ghost then = { looked maker (Lies O.content O.answer O.next) };
}

/// The turn was passed on with no call.
pub struct Leave;

impl<S, X, E> Play<S, View<X, E>> for Leave {
    ghost then = { left };
}

/// The turn was passed on with a call.
pub struct PassOn;

impl<O: Object> Play<Option<Desk<O>>, View<O, Entry<O>>> for PassOn {
    ghost then = { passed maker history_in_slot };
}

/// A pass was dealt out.
pub struct Deal;

impl<X, E> Split<View<X, E>> for Deal {
    ghost left = { dealt };

    ghost right = { newcomer };
}

/// A pass was taken in.
pub struct Gather;

impl<X, E> Join<View<X, E>> for Gather {
    ghost both = { gathered };

    ghost spent = { spent };
}
