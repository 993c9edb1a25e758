ghost use Rattle.std.specs.Prelude.{◌≡◌, ◌+◌, ◌-◌, ◌<◌, ◌≤◌, [], ◌∷◌, length, Some, IfOk, vec_capacity};
ghost use Rattle.turn_lock.specs.declared.desk.Desk.{Desk as Laid};
ghost use Rattle.turn_lock.specs.Calling.{IsSameSeat};
ghost use Rattle.turn_lock.specs.Dealing.{Deals};
ghost use Rattle.turn_lock.specs.Passes.{AreUnusedPasses, IsUnusedPass};

use crate::desk::Desk;
use crate::object::Object;
use crate::pass::TurnPass;
use crate::rule::{Board, Chair, Deal, Plan};
use crate::turn::Turn;
use atomic_table::Table;
use dn_base::Memory;
use std::alloc::Global;
use std::snapshot::Snapshot;

// For how many calls a history has room from the start. Unused room is never touched, and so costs nothing. A history that
// grows from nothing would be copied log n times.
const FIRST_CALLS: usize = 4_096;

impl<O: Object> Turn<O> {
    /// Shares an object among 1 to 17 callers. Gives the turn, and the callers' passes with the numbers from 0 on.
    ///
    /// # Errors
    /// `Memory` if there isn't enough; the object is dropped.
    pub fn start(
        alloc: Global,
        object: O,
        passes: u32,
    ) -> Result<(Turn<O>, Vec<TurnPass<O>>), Memory>
    where
        O: Drop,
        requires some { 1 ≤ passes }
        requires few { passes ≤ 17 }
        ensures opening { IfOk result (λ r. r.0.opening ≡ object) }
        ensures passes { IfOk result (λ r. (r.0.passes ≡ passes) × (length r.1.items ≡ passes)) }
        ensures fresh { IfOk result (λ r. AreUnusedPasses r.0 0 r.1.items) }
    {
        let (turn, seat) = Turn::open(alloc, object, passes)?;
        let all = turn.deal_all(alloc, seat, passes)?;
        Ok((turn, all))
    }

    // Lays the object into the slot of a new table. The seat has pass 0, and may deal out the others.
    fn open(alloc: Global, object: O, passes: u32) -> Result<(Turn<O>, Chair<O>), Memory>
    where
        O: Drop,
        requires some { 1 ≤ passes }
        requires few { passes ≤ 17 }
        ensures turn { IfOk result (λ r. (r.0.opening ≡ object) × (r.0.passes ≡ passes)) }
        ensures table { IfOk result (λ r. r.1.table_id ≡ r.0.table) }
        ensures dealer { IfOk result (λ r. Deals r.0.opening 1 (passes - 1) r.1.me) }
    {
        let plan = Plan {
            object: Snapshot::of(&object),
            passes,
        };
        let slots = Desk::in_slot(alloc, object)?;
        let made: Result<(Board<O>, Chair<O>), _> = Table::new(alloc, &[0, 0], slots, &plan);
        match made {
            Ok((table, seat)) => Ok((Turn { table }, seat)),
            Err(_) => Err(Memory),
        }
    }

    // Deals out all passes. The seat that deals is the first one's.
    fn deal_all(
        &self,
        alloc: Global,
        mut seat: Chair<O>,
        passes: u32,
    ) -> Result<Vec<TurnPass<O>>, Memory>
        requires table { seat.table_id ≡ self.now.table }
        requires passes { 1 ≤ passes }
        requires dealer { Deals self.now.opening 1 (passes - 1) seat.me }
        ensures count { IfOk result (λ all. length all.items ≡ passes) }
        ensures fresh { IfOk result (λ all. AreUnusedPasses self.now 0 all.items) }
    {
        let mut all = Vec::with_capacity(alloc, passes as usize)?;
        self.deal_others(&mut seat, passes, &mut all);
        let first = TurnPass {
            seat,
            number: 0,
            seen: 0,
        };
        all.insert(0, first)?;
        Ok(all)
    }

    // Deals out all passes but the first, into room that is there for them.
    fn deal_others(&self, seat: &mut Chair<O>, passes: u32, all: &mut Vec<TurnPass<O>>)
        requires table { seat.old.table_id ≡ self.now.table }
        requires passes { 1 ≤ passes }
        requires dealer { Deals self.now.opening 1 (passes - 1) seat.old.me }
        requires room { (all.old.items ≡ []) × (passes ≤ vec_capacity all.old) }
        ensures seat { IsSameSeat seat.old seat.new }
        ensures dealer { Deals self.now.opening passes 0 seat.new.me }
        ensures fresh { AreUnusedPasses self.now 1 all.new.items × (1 + length all.new.items ≡ passes) }
    {
        for number in 1..passes {
            all.push_reserved(self.deal(seat, number));
        }
    }

    // Deals out one pass.
    fn deal(&self, seat: &mut Chair<O>, number: u32) -> TurnPass<O>
        requires table { seat.old.table_id ≡ self.now.table }
        requires dealer { Deals self.now.opening number seat.old.me.0.spare seat.old.me }
        requires left { 0 < seat.old.me.0.spare }
        ensures seat { IsSameSeat seat.old seat.new }
        ensures dealer { Deals self.now.opening (number + 1) (seat.old.me.0.spare - 1) seat.new.me }
        ensures fresh { IsUnusedPass self.now number result }
    {
        let other = self.table.shared.split_seat::<Deal>(seat);
        TurnPass {
            seat: other,
            number,
            seen: 0,
        }
    }
}

impl<O: Object + Drop> Desk<O> {
    // A table's one slot, with the object and an empty history.
    fn in_slot(alloc: Global, object: O) -> Result<Vec<Option<Desk<O>>>, Memory>
        ensures { IfOk result (λ slots. (d : Laid O O.In O.Out) × (slots.items ≡ Some d ∷ []) × (d.object ≡ object) × (d.history.items ≡ [])) }
    {
        let history = Vec::with_capacity(alloc, FIRST_CALLS)?;
        let mut slots = Vec::with_capacity(alloc, 1)?;
        slots.push_reserved(Some(Desk { object, history }));
        Ok(slots)
    }
}
