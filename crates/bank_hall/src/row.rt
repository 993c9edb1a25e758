ghost use Rattle.std.specs.Prelude.{◌≡◌, ◌<◌, ◌≤◌, [], ◌∷◌, ◌++◌, length, map, All, IfOk, IfErr, OnOk, OnErr};
ghost use Rattle.turn_lock.specs.History.{entry, Legal};
ghost use Rattle.bank_hall.specs.Rows.{HasPassesOf, HasMade, HasCalled, one_call, AreShared, AreNew, handed, with_passes, AreTold, AreClosed, AreAllCallers};
ghost use Rattle.turn_lock.specs.Passes.{AreUnusedPasses, AreAllPasses, IsTold};

use dn_base::Memory;
use std::alloc::Global;
use std::marker::Model;
use std::sync::Wait;
use turn_lock::{Entry, Object, Turn, TurnPass};

/// Objects of one kind, each under a turn of its own.
#[derive(Drop)]
pub(crate) struct Row<O: Object> {
    pub(crate) turns: Vec<Turn<O>>,
}

impl<O: Object> Model for Row<O> {
    ghost use Rattle.std.specs.Prelude.{List};
    ghost use Rattle.turn_lock.specs.Passes.{Sharing};

    ghost Value = { List (Sharing O) };

    ghost view = { λ r. r.turns.items };
}

/// A caller's passes of the turns of a row.
#[derive(Drop)]
pub(crate) struct RowPass<O: Object> {
    pub(crate) number: u32,
    pub(crate) passes: Vec<TurnPass<O>>,
}

impl<O: Object> Model for RowPass<O> {
    ghost use Rattle.bank_hall.specs.Rows.{Tokens};

    ghost Value = { Tokens O O.In O.Out };

    ghost view = { λ p. record { number = p.number; passes = p.passes.items } };
}

impl<O: Object> RowPass<O> {
    /// Puts a pass before the others.
    fn add(&mut self, pass: TurnPass<O>) -> Result<(), Memory>
        ensures { OnOk result (self.new ≡ record self.old { passes = pass ∷ self.old.passes }) }
    {
        self.passes.insert(0, pass)?;
        Ok(())
    }

    /// Removes the last pass, and gives it.
    fn give_up(&mut self) -> TurnPass<O>
        requires { 0 < length self.old.passes }
        ensures { self.old ≡ record self.new { passes = self.new.passes ++ result ∷ [] } }
    {
        take_last(&mut self.passes)
    }
}

/// Removes the last item, and gives it.
pub(crate) fn take_last<T>(items: &mut Vec<T>) -> T
    requires { 0 < length items.old.items }
    ensures { items.old.items ≡ items.new.items ++ result ∷ [] }
{
    match items.pop() {
        Some(item) => item,
        None => unreachable!(),
    }
}

/// Removes the last pass of each caller.
fn take_column<O: Object>(
    alloc: Global,
    callers: &mut Vec<RowPass<O>>,
) -> Result<Vec<TurnPass<O>>, Memory>
    requires { All (λ c. 0 < length c.passes) callers.old.items }
    ensures joined { IfOk result (λ column. callers.old.items ≡ with_passes callers.new.items column.items) }
    ensures count { IfOk result (λ column. length column.items ≡ length callers.new.items) }
{
    let mut column = Vec::new(alloc);
    for place in 0..callers.len() {
        column.push(callers[place].give_up())?;
    }
    Ok(column)
}

/// Ends the sharing of one object.
fn end<O: Object>(turn: Turn<O>, column: Vec<TurnPass<O>>) -> Result<(O, Vec<Entry<O>>), Memory>
where
    O: Drop,
    requires { AreAllPasses turn column.items }
    ensures legal { IfOk result (λ r. Legal O.answer O.next (O.content turn.opening) r.1.items (O.content r.0)) }
    ensures told { IfOk result (λ r. All (IsTold r.1.items) column.items) }
    ensures named { IfOk result (λ r. All (λ e. e.pass < turn.passes) r.1.items) }
{
    match turn.close(column) {
        Ok(closed) => Ok(closed),
        Err(_refused) => Err(Memory),
    }
}

/// Callers with the numbers from 0 on, and no passes yet.
fn callers<O: Object>(alloc: Global, count: u32) -> Result<Vec<RowPass<O>>, Memory>
    ensures new { IfOk result (λ all. AreNew [] 0 all.items) }
    ensures count { IfOk result (λ all. length all.items ≡ count) }
{
    let mut all = Vec::new(alloc);
    for number in 0..count {
        all.push(RowPass {
            number,
            passes: Vec::new(alloc),
        })?;
    }
    Ok(all)
}

/// Gives each caller one of the passes, in their order.
fn hand_out<O: Object>(
    callers: &mut Vec<RowPass<O>>,
    mut passes: Vec<TurnPass<O>>,
) -> Result<(), Memory>
    requires { length passes.items ≤ length callers.old.items }
    ensures { OnOk result (callers.new.items ≡ handed callers.old.items passes.items) }
{
    while let Some(pass) = passes.pop() {
        let place = passes.len();
        callers[place].add(pass)?;
    }
    Ok(())
}

impl<O: Object> Row<O> {
    /// Shares each of the objects among `passes` callers, which have the numbers from 0 on.
    ///
    /// # Errors
    /// `Memory` if there is no room; the objects are dropped.
    pub(crate) fn start(
        alloc: Global,
        mut objects: Vec<O>,
        passes: u32,
    ) -> Result<(Row<O>, Vec<RowPass<O>>), Memory>
    where
        O: Drop,
        requires some { 1 ≤ passes }
        requires few { passes ≤ 17 }
        ensures opened { IfOk result (λ r. AreShared passes objects.items r.0) }
        ensures count { IfOk result (λ r. length r.1.items ≡ passes) }
        ensures new { IfOk result (λ r. AreNew r.0 0 r.1.items) }
    {
        let mut turns = Vec::new(alloc);
        let mut all = callers(alloc, passes)?;
        while let Some(object) = objects.pop() {
            let (turn, fresh) = Turn::start(alloc, object, passes)?;
            hand_out(&mut all, fresh)?;
            turns.insert(0, turn)?;
        }
        Ok((Row { turns }, all))
    }

    /// Waits for the turn of the object at this index, and makes one call of it. `inside` is called within the turn.
    ///
    /// # Errors
    /// `Memory` if there is no room: no call was made, the caller's passes are as before, and the input is given back.
    pub(crate) fn call<R: Wait, F: FnOnce()>(
        &self,
        rt: &R,
        caller: &mut RowPass<O>,
        place: usize,
        input: O::In,
        inside: F,
    ) -> Result<O::Out, (Memory, O::In)>
        requires caller { HasPassesOf self.now caller.old }
        requires place { place < length self.now }
        requires inside { F.IsAlwaysCallable inside }
        ensures caller { HasPassesOf self.now caller.new × (caller.new.number ≡ caller.old.number) }
        ensures call { IfOk result (λ output. HasCalled O.content O.answer O.next self.now place (entry caller.old.number input output) caller.old.passes caller.new.passes) }
        ensures made { IfOk result (λ output. HasMade caller.old caller.new (one_call place (entry caller.old.number input output))) }
        ensures same { OnErr result (caller.new ≡ caller.old) }
        ensures back { IfErr result (λ e. e.1 ≡ input) }
    {
        self.turns[place].call(rt, &mut caller.passes[place], input, inside)
    }

    /// Ends the sharing. Gives the objects, and all calls of each object in one order.
    ///
    /// # Errors
    /// `Memory` if there is no room; everything is dropped.
    pub(crate) fn close(
        self,
        alloc: Global,
        mut callers: Vec<RowPass<O>>,
    ) -> Result<(Vec<O>, Vec<Vec<Entry<O>>>), Memory>
    where
        O: Drop,
        requires { AreAllCallers self callers.items }
        ensures closed { IfOk result (λ r. AreClosed O.content O.answer O.next self r.0.items (map (λ h. h.items) r.1.items)) }
        ensures told { IfOk result (λ r. All (λ c. AreTold (map (λ h. h.items) r.1.items) c.passes) callers.items) }
    {
        let Row { mut turns } = self;
        let mut objects = Vec::new(alloc);
        let mut histories = Vec::new(alloc);
        while let Some(turn) = turns.pop() {
            let column = take_column(alloc, &mut callers)?;
            let (object, history) = end(turn, column)?;
            objects.insert(0, object)?;
            histories.insert(0, history)?;
        }
        Ok((objects, histories))
    }
}

/// Compiles only if the type may be sent to another thread and shared with it.
pub(crate) fn crosses<T: Send + Sync>(_value: &T) {}
