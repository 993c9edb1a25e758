ghost use Rattle.std.specs.Prelude.{◌≡◌, [], length};
ghost use Rattle.turn_lock.specs.Standing.{resting, claim};

use crate::entry::Entry;
use crate::object::Object;
use crate::rule::Chair;
use crate::turn::Turn;
use std::marker::Model;

/// A caller's token of one turn: its number, the calls that it made, and the history that it has seen. It may be sent to any
/// thread. A call needs it exclusively.
pub struct TurnPass<O: Object> {
    pub(crate) seat: Chair<O>,
    pub(crate) number: u32,
    pub(crate) seen: u64,
}

impl<O: Object> Model for TurnPass<O> {
    ghost use Rattle.std.specs.Prelude.{◌≡◌, [], length};
    ghost use Rattle.turn_lock.specs.Passes.{Token};
    ghost use Rattle.turn_lock.specs.Standing.{resting};
    ghost use Rattle.turn_lock.specs.declared.entry.Entry.{Entry};

    ghost Value = { Token O O.In O.Out };

    ghost view = { λ p. record { table = p.seat.table_id; opening = p.seat.me.0.opening; number = p.number; seen = p.seat.me.0.own.seen; made = p.seat.me.0.own.mine } };

    ghost invariant = { λ p. (p.seat.me ≡ (resting p.seat.me.0.opening p.seat.me.0.own p.seat.me.0.next, [])) × (p.seat.me.0.own.number ≡ p.number) × (length p.seat.me.0.own.seen ≡ p.seen) };
}

impl<O: Object> TurnPass<O> {
    /// The length of the history that this pass has seen. The last call of that history is the pass's own last call.
    pub fn seen(&self) -> u64
        ensures { result ≡ length self.now.seen }
    {
        self.seen
    }

    pub(crate) fn into_seat(self) -> Chair<O>
        ensures { (result.table_id ≡ self.table) × (result.me ≡ (resting self.opening (claim self.number self.seen self.made) result.me.0.next, [])) }
    {
        let Self {
            seat,
            number: _,
            seen: _,
        } = self;
        seat
    }
}

impl<O: Object> Drop for TurnPass<O> {
    fn drop(self) {
        let Self {
            seat: _,
            number: _,
            seen: _,
        } = self;
    }
}

/// Compiles only if the type may be sent to another thread.
fn may_be_sent<T: Send>(_value: &T) {}

/// Compiles only if the type may be shared by threads.
fn may_be_shared<T: Sync>(_value: &T) {}

/// A turn and its passes may be sent to another thread, and a turn may be shared by threads, where the object and what
/// its calls take and answer may be sent. Nobody calls this; the check of its body proves it.
fn turn_crosses<O: Object + Send>(turn: &Turn<O>, pass: &TurnPass<O>)
where
    O::In: Send,
    O::Out: Send,
{
    may_be_sent(turn);
    may_be_shared(turn);
    may_be_sent(pass);
}
