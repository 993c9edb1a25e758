//! A task alone: it goes on from the memory at the beginning of its phase, as if no other task ran.
ghost use Rattle.std.specs.Prelude.{◌≡◌, ◌≤◌, ◌<◌, suc, None, map, length, IfOk, IfSome, IfNone, true, false};
ghost use Rattle.rv_core.specs.Kinds.{Allowed, IsLoad, IsStore, IsAdvance};
ghost use Rattle.rv_core.specs.Next.{IsNextOf};
ghost use Rattle.rv_core.specs.Task.{stopped};
ghost use Rattle.common_outcomes.specs.Alone.{seen, is_settled_if, stored_value, closed, go_on_alone, load_alone, store_alone, acquire_alone, release_alone, alone_step, alone_steps, start_alone, alone};
ghost use Rattle.outcomes_top.specs.Reasons.{makes_one};
ghost use Rattle.outcomes_top.specs.Tracks.{IsTracked, IsWell};

use crate::cells::{Place, cell, close_all, close_listed};
use crate::kinds::{fetch, guards, is_settled, leave, load, value_stored};
use common_outcomes::{Cell, Effect, Kind, Value};
use dn_base::{LockId, Memory, WordId};
use rv_core::{End, Need, Next, TaskState};
use std::alloc::Global;
use std::marker::Model;

/// A task alone so far.
#[derive(Drop)]
pub(crate) struct TaskAlone {
    pub(crate) state: TaskState,
    /// What is known of the registers.
    pub(crate) kinds: [Kind; 32],
    pub(crate) cells: Vec<Cell>,
    /// The locks that it has acquired, as bits.
    pub(crate) acquired: u32,
    /// For each lock the locks that it held when it acquired it, as bits.
    pub(crate) over: [u32; 32],
}

impl Model for TaskAlone {
    ghost use Rattle.common_outcomes.specs.Alone.{Alone};

    ghost Value = { Alone };

    ghost view = { λ a. record { state = a.state; kinds = a.kinds; cells = a.cells.items; acquired = a.acquired; over = a.over } };
}

impl TaskAlone {
    /// The task before its first instruction.
    pub(crate) fn new(alloc: Global, place: &Place<'_>) -> Result<TaskAlone, Memory>
        ensures { IfOk result (λ task. task ≡ start_alone place.now) }
    {
        let untouched = Cell {
            stored: None,
            effect: Effect::Kept,
        };
        let program = place.program;
        Ok(TaskAlone {
            state: TaskState::new(place.decl),
            kinds: [Kind::Known; 32],
            cells: vec![in alloc; untouched; program.memory.len()]?,
            acquired: 0,
            over: [0; 32],
        })
    }

    /// What the task has made of each data word.
    pub(crate) fn cells(&self) -> &[Cell]
        ensures { result.now ≡ self.now.cells }
    {
        self.cells.as_slice()
    }

    /// What the task needs next, and its instruction; None if it has ended, or if its control is open.
    #[inline(always)]
    pub(crate) fn look(&self, place: &Place<'_>) -> Option<Next>
        ensures open { IfSome result (λ next. self.now.state.end ≡ None) }
        ensures next { IfSome result (λ next. IsNextOf place.now.program place.now.decl place.now.fuel self.now.state next) }
        ensures settled { IfSome result (λ next. is_settled_if self.now.kinds self.now.state next.instr ≡ true) }
        ensures allowed { IfSome result (λ next. Allowed place.now.program place.now.decl self.now.state next.need) }
        ensures locks { IfSome result (λ next. length place.now.program.locks ≤ 32) }
        ensures fuel { IfSome result (λ next. place.now.fuel ≤ 32768) }
        ensures none { IfNone result (alone_step place.now self.now ≡ self.now) }
        ensures rests { IfNone result (makes_one place.now self.now ≡ false) }
    {
        if self.state.end.is_some() {
            return None;
        }
        let next = self
            .state
            .next_in(place.program, place.decl, place.fuel, place.code);
        if is_settled(&self.kinds, &self.state, &next.instr) {
            Some(next)
        } else {
            None
        }
    }

    /// Completes the instruction of this look, which loads nothing and doesn't end the task.
    #[inline(always)]
    fn go_on(&mut self, place: &Place<'_>, next: &Next)
        requires open { self.old.state.end ≡ None }
        requires retired { self.old.state.retired ≤ place.now.fuel }
        requires next { IsNextOf place.now.program place.now.decl place.now.fuel self.old.state next.now }
        requires kind { IsAdvance next.now.need }
        ensures value { self.new ≡ go_on_alone place.now.program self.old }
        ensures within { self.new.state.retired ≤ place.now.fuel }
    {
        self.state
            .complete(place.program, place.decl, place.fuel, next);
        fetch(&mut self.kinds, &next.instr);
    }

    /// Completes a load of the word.
    #[inline(always)]
    fn load(&mut self, place: &Place<'_>, next: &Next, word: WordId)
        requires open { self.old.state.end ≡ None }
        requires retired { self.old.state.retired ≤ place.now.fuel }
        requires next { IsNextOf place.now.program place.now.decl place.now.fuel self.old.state next.now }
        requires kind { IsLoad next.now.need }
        ensures value { self.new ≡ load_alone place.now.program self.old (seen place.now self.old.cells word.0) }
        ensures within { self.new.state.retired ≤ place.now.fuel }
    {
        let value = place.value_seen(self.cells.as_slice(), word);
        self.state
            .complete_load(place.program, place.decl, place.fuel, next, value.number);
        load(&mut self.kinds, value.kind, &next.instr);
    }

    /// What the word holds after the instruction of this look, a store to it.
    #[inline(always)]
    fn stored_value(&self, place: &Place<'_>, next: &Next, word: WordId) -> Value
        requires open { self.now.state.end ≡ None }
        requires retired { self.now.state.retired ≤ place.now.fuel }
        requires next { IsNextOf place.now.program place.now.decl place.now.fuel self.now.state next.now }
        requires kind { IsStore next.now.need }
        ensures { result ≡ stored_value place.now self.now word.0 }
    {
        let before = place.value_seen(self.cells.as_slice(), word);
        let number = self
            .state
            .merged_by(place.program, place.decl, place.fuel, next, before.number);
        let shared = place.is_shared(word);
        Value {
            kind: value_stored(&self.kinds, shared, word, before.kind, &next.instr),
            number,
        }
    }

    /// Completes a store to the word.
    #[inline(always)]
    fn store(&mut self, place: &Place<'_>, next: &Next, word: WordId)
        requires open { self.old.state.end ≡ None }
        requires retired { self.old.state.retired ≤ place.now.fuel }
        requires next { IsNextOf place.now.program place.now.decl place.now.fuel self.old.state next.now }
        requires kind { IsStore next.now.need }
        requires word { word.0 < length self.old.cells }
        ensures value { self.new ≡ store_alone place.now self.old word.0 }
        ensures within { self.new.state.retired ≤ place.now.fuel }
    {
        let value = self.stored_value(place, next, word);
        let index = word.0 as usize;
        self.cells[index] = Cell {
            stored: Some(value),
            effect: self.cells[index].effect,
        };
        self.go_on(place, next);
    }

    /// Acquires the lock.
    fn acquire(&mut self, place: &Place<'_>, next: &Next, lock: LockId)
        requires open { self.old.state.end ≡ None }
        requires retired { self.old.state.retired ≤ place.now.fuel }
        requires next { IsNextOf place.now.program place.now.decl place.now.fuel self.old.state next.now }
        requires kind { IsAdvance next.now.need }
        requires lock { lock.0 < 32 }
        ensures value { self.new ≡ acquire_alone place.now.program self.old lock.0 }
        ensures within { self.new.state.retired ≤ place.now.fuel }
    {
        self.over[lock.0 as usize] |= self.state.held;
        self.acquired |= 1 << lock.0;
        self.go_on(place, next);
    }

    /// Releases the lock. The shared words with stored values are listed.
    fn release(&mut self, place: &Place<'_>, next: &Next, lock: LockId, listed: &[u32])
        requires open { self.old.state.end ≡ None }
        requires retired { self.old.state.retired ≤ place.now.fuel }
        requires next { IsNextOf place.now.program place.now.decl place.now.fuel self.old.state next.now }
        requires kind { IsAdvance next.now.need }
        requires tracked { IsTracked place.now self.old.cells listed.now }
        ensures value { self.new ≡ release_alone place.now self.old lock.0 }
        ensures within { self.new.state.retired ≤ place.now.fuel }
    {
        self.go_on(place, next);
        leave(&mut self.kinds, place.decl, lock.0);
        close_listed(self.cells.as_mut_slice(), place, lock.0, listed);
    }

    /// Ends the task, and all its sections.
    fn stop(&mut self, cause: End)
        requires open { self.old.state.end ≡ None }
        requires retired { self.old.state.retired < 4294967295 }
        ensures { self.new ≡ record self.old { state = stopped cause self.old.state; cells = map closed self.old.cells } }
    {
        self.state.stop(cause);
        close_all(self.cells.as_mut_slice());
    }
}

/// A task alone, with a list of the shared words of which it has stored values.
#[derive(Drop)]
pub(crate) struct Tracked {
    pub(crate) task: TaskAlone,
    pub(crate) listed: Vec<u32>,
}

impl Tracked {
    /// Completes a store to the word.
    #[inline(always)]
    fn store(&mut self, place: &Place<'_>, next: &Next, word: WordId) -> Result<(), Memory>
        requires open { self.old.task.state.end ≡ None }
        requires retired { self.old.task.state.retired ≤ place.now.fuel }
        requires next { IsNextOf place.now.program place.now.decl place.now.fuel self.old.task.state next.now }
        requires kind { IsStore next.now.need }
        requires word { word.0 < length self.old.task.cells }
        requires tracked { IsTracked place.now self.old.task.cells self.old.listed.items }
        ensures value { IfOk result (λ done. self.new.task ≡ store_alone place.now self.old.task word.0) }
        ensures within { IfOk result (λ done. self.new.task.state.retired ≤ place.now.fuel) }
        ensures tracked { IfOk result (λ done. IsTracked place.now self.new.task.cells self.new.listed.items) }
    {
        if place.is_shared(word) && cell(self.task.cells.as_slice(), word).stored.is_none() {
            self.listed.push(word.0)?;
        }
        self.task.store(place, next, word);
        Ok(())
    }

    /// Releases the lock.
    fn release(&mut self, place: &Place<'_>, next: &Next, lock: LockId)
        requires open { self.old.task.state.end ≡ None }
        requires retired { self.old.task.state.retired ≤ place.now.fuel }
        requires next { IsNextOf place.now.program place.now.decl place.now.fuel self.old.task.state next.now }
        requires kind { IsAdvance next.now.need }
        requires tracked { IsTracked place.now self.old.task.cells self.old.listed.items }
        ensures value { self.new.task ≡ release_alone place.now self.old.task lock.0 }
        ensures within { self.new.task.state.retired ≤ place.now.fuel }
        ensures tracked { IsTracked place.now self.new.task.cells self.new.listed.items }
    {
        self.task.release(place, next, lock, self.listed.as_slice());
        let decl = place.decl;
        self.listed
            .retain(|word| !guards(decl, lock.0, WordId(*word)));
    }

    /// Makes one instruction of the task; a task that has ended, or whose control is open, isn't changed. Returns whether an
    /// instruction was made.
    pub(crate) fn step(&mut self, place: &Place<'_>) -> Result<bool, Memory>
        requires well { IsWell place.now self.old.task }
        requires tracked { IsTracked place.now self.old.task.cells self.old.listed.items }
        ensures value { IfOk result (λ went. self.new.task ≡ alone_step place.now self.old.task) }
        ensures still { IfOk result (λ went. went ≡ false → alone_step place.now self.old.task ≡ self.old.task) }
        ensures well { IfOk result (λ went. IsWell place.now self.new.task) }
        ensures tracked { IfOk result (λ went. IsTracked place.now self.new.task.cells self.new.listed.items) }
    {
        let Some(next) = self.task.look(place) else {
            return Ok(false);
        };
        match next.need {
            Need::Local => self.task.go_on(place, &next),
            Need::Load { word } => self.task.load(place, &next, word),
            Need::Store { word, .. } => self.store(place, &next, word)?,
            Need::Acquire { lock } => self.task.acquire(place, &next, lock),
            Need::Release { lock } => self.release(place, &next, lock),
            Need::End { cause } => self.task.stop(cause),
        }
        Ok(true)
    }

    /// Makes instructions of the task, until it ends or its control is open.
    fn run(&mut self, place: &Place<'_>) -> Result<(), Memory>
        requires well { IsWell place.now self.old.task }
        requires tracked { IsTracked place.now self.old.task.cells self.old.listed.items }
        ensures value { IfOk result (λ done. self.new.task ≡ alone_steps place.now (suc place.now.fuel) self.old.task) }
        ensures well { IfOk result (λ done. IsWell place.now self.new.task) }
    {
        for _done in 0..place.fuel + 1 {
            if !self.step(place)? {
                return Ok(());
            }
        }
        Ok(())
    }
}

/// The task alone, as far as it comes.
#[tactic(auto, unfolding(common_outcomes::specs::Alone::alone))]
pub(crate) fn run_alone(alloc: Global, place: &Place<'_>) -> Result<TaskAlone, Memory>
    ensures value { IfOk result (λ task. task ≡ alone place.now) }
    ensures words { IfOk result (λ task. length task.cells ≡ length place.now.program.memory) }
{
    let mut tracked = Tracked {
        task: TaskAlone::new(alloc, place)?,
        listed: Vec::new(alloc),
    };
    tracked.run(place)?;
    Ok(tracked.task)
}
