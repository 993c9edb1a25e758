ghost use Rattle.std.specs.Prelude.{◌≡◌, ◌<◌, [], All, Any, IfOk, IfErr, IsOk};
ghost use Rattle.turn_lock.specs.declared.view.Stage.TheVariants.{Idle};
ghost use Rattle.turn_lock.specs.Standing.{weight};
ghost use Rattle.turn_lock.specs.History.{Legal};
ghost use Rattle.turn_lock.specs.Turns.{HasSeen};
ghost use Rattle.turn_lock.specs.Dealing.{Gathers, IsTrueClaim};
ghost use Rattle.turn_lock.specs.Passes.{AreAllPasses, IsTold};

use crate::desk::Desk;
use crate::entry::Entry;
use crate::object::Object;
use crate::pass::TurnPass;
use crate::rule::{Chair, Gather};
use crate::turn::Turn;
use dn_base::Memory;

impl<O: Object> Turn<O> {
    /// Ends the sharing. Gives the object, and all calls that were made of it in one order. The passes may stand in any order.
    /// This implementation takes no memory, so it never returns an error.
    ///
    /// # Errors
    /// `Memory` if there isn't enough; everything is handed back unchanged.
    pub fn close(
        self,
        passes: Vec<TurnPass<O>>,
    ) -> Result<(O, Vec<Entry<O>>), (Memory, Turn<O>, Vec<TurnPass<O>>)>
        requires { AreAllPasses self passes.items }
        // a single thread could have made the history, from the object as it began to the one that is handed back
        ensures legal { IfOk result (λ r. Legal O.answer O.next (O.content self.opening) r.1.items (O.content r.0)) }
        // each pass had seen a beginning of it, and the pass's calls in it are those that it made, in its order
        ensures told { IfOk result (λ r. All (IsTold r.1.items) passes.items) }
        // some pass had seen all of it
        ensures longest { IfOk result (λ r. Any (λ p. p.seen ≡ r.1.items) passes.items) }
        // and each call is of one of the passes
        ensures named { IfOk result (λ r. All (λ e. e.pass < self.passes) r.1.items) }
        ensures answered { IsOk result }
        ensures refused { IfErr result (λ r. (r.1 ≡ self) × (r.2 ≡ passes)) }
    {
        let seat = self.gather(passes);
        let Desk { object, history } = self.end(seat);
        Ok((object, history))
    }

    // Takes all passes in.
    fn gather(&self, mut passes: Vec<TurnPass<O>>) -> Chair<O>
        requires { AreAllPasses self.now passes.items }
        ensures table { result.table_id ≡ self.now.table }
        ensures gathers { Gathers passes.items [] result.me }
    {
        let shared = &self.table.shared;
        let Some(last) = passes.pop() else {
            unreachable!()
        };
        let mut seat = last.into_seat();
        while let Some(pass) = passes.pop() {
            shared.join_seat::<Gather>(&mut seat, pass.into_seat());
        }
        seat
    }

    // Takes the object out, where a seat stands for all passes.
    fn end(self, seat: Chair<O>) -> Desk<O>
        requires { (seat.table_id ≡ self.table) × (seat.me.0.stage ≡ Idle) × (weight seat.me.0 ≡ self.passes) }
        ensures legal { Legal O.answer O.next (O.content self.opening) result.history.items (O.content result.object) }
        ensures told { IsTrueClaim result.history.items seat.me.0.own × All (IsTrueClaim result.history.items) seat.me.0.joined }
        ensures longest { HasSeen result.history.items seat.me.0 }
        ensures named { All (λ e. e.pass < self.passes) result.history.items }
    {
        let Turn { table } = self;
        let mut closed = table.close_with(seat);
        let slot = closed.take(0);
        closed.free();
        match slot {
            Some(desk) => desk,
            None => unreachable!(),
        }
    }
}
