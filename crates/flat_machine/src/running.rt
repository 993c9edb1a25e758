ghost use Rattle.std.specs.Prelude.{◌≡◌, ◌≤◌, ◌<◌, [], ◌∷◌, ◌++◌, None, Some, length, IfOk, OnOk, IfSome, true, false};
ghost use Rattle.rv_core.specs.Access.{is_held};
ghost use Rattle.rv_core.specs.Decoded.{IsDecoded};
ghost use Rattle.rv_core.specs.Kinds.{Allowed, IsLoad};
ghost use Rattle.rv_core.specs.Next.{IsNextOf};
ghost use Rattle.rv_core.specs.Step.{advanced, loaded_of};
ghost use Rattle.flat_machine.specs.Step.{At, fresh, wish, in_state, in_load, flat_step, segment, room, IsWithin, HasLock, WantsLock, IsUnmoved};
ghost use Rattle.flat_machine.specs.Phases.{has_finished};
ghost use Rattle.flat_machine.specs.declared.accesses.FlatAction.TheVariants.{Accesses};
ghost use Rattle.flat_machine.specs.Accesses.{with_actions, flat_access, actions_at, segment_actions};

use crate::accesses::{AccessKind, FlatAccess, FlatAction};
use dn_base::{LoadSeen, Memory, PhaseId, Sequence, WordId};
use region_table::{Program, TaskDecl};
use rv_core::{DecodedCode, End, Need, Next, TaskState};
use std::alloc::Global;
use std::marker::Model;

/// A task that has started.
#[derive(Drop)]
pub(crate) struct Running<'a> {
    pub(crate) phase: PhaseId,
    pub(crate) decl: &'a TaskDecl,
    pub(crate) state: TaskState,
    /// Its loads so far, in their order.
    pub(crate) loads: Sequence<LoadSeen>,
}

impl<'a> Model for Running<'a> {
    ghost use Rattle.flat_machine.specs.Step.{Started};

    ghost Value = { Started };

    ghost view = { λ r. record { phase = r.phase; decl = r.decl.now; state = r.state; loads = r.loads } };
}

/// A task at its start. Takes no memory.
pub(crate) fn start(alloc: Global, phase: PhaseId, decl: &TaskDecl) -> Running<'_>
    ensures { result ≡ fresh phase.0 decl.now }
{
    Running {
        phase,
        decl,
        state: TaskState::new(decl),
        loads: Sequence::new(alloc),
    }
}

impl Running<'_> {
    /// What the task needs next; None if it has ended.
    pub(crate) fn wish(&self, program: &Program, fuel: u32) -> Option<Need>
        requires { length program.now.locks ≤ 32 }
        ensures value { result ≡ wish program.now fuel self.now }
        ensures lock { IfSome result HasLock }
    {
        match self.state.end {
            Some(_) => None,
            None => Some(self.state.need(program, self.decl, fuel)),
        }
    }

    /// Whether the task has ended, and not by a trap or because it ran out of fuel.
    pub(crate) fn has_finished(&self) -> bool
        ensures { result ≡ has_finished self.now }
    {
        matches!(self.state.end, Some(End::Finished))
    }

    /// The task's next instruction, a load of a word of this value, retires and is noted.
    #[inline(always)]
    fn load(
        &mut self,
        program: &Program,
        fuel: u32,
        next: &Next,
        word: WordId,
        value: u32,
    ) -> Result<(), Memory>
        requires open { self.old.state.end ≡ None }
        requires retired { self.old.state.retired ≤ fuel }
        requires next { IsNextOf program.now self.old.decl fuel self.old.state next.now }
        requires kind { IsLoad next.now.need }
        ensures value { IfOk result (λ done. self.new ≡ in_load self.old (loaded_of program.now value self.old.state) (record { word = word; value = value })) }
        ensures within { IsWithin fuel self.new }
        ensures room { room fuel self.new < room fuel self.old }
    {
        self.state
            .complete_load(program, self.decl, fuel, next, value);
        self.loads.push(LoadSeen { word, value })
    }

    /// Adds an access of a word by the task's next instruction to a list of actions.
    // Out of line: few runs ask for actions, and the others needn't make an access ready.
    #[cold]
    #[inline(never)]
    fn log(
        &self,
        actions: &mut Sequence<FlatAction>,
        kind: AccessKind,
        word: WordId,
        value: u32,
    ) -> Result<(), Memory>
        ensures { OnOk result (actions.new ≡ actions.old ++ (Accesses (flat_access self.now kind word value) ∷ [])) }
    {
        let access = FlatAccess {
            phase: self.phase,
            core: self.decl.core,
            pc: self.state.pc,
            held: self.state.held,
            number: self.loads.len(),
            kind,
            word,
            value,
        };
        actions.push(FlatAction::Accesses(access))
    }

    /// Notes an access of a word by the task's next instruction, if actions are logged.
    #[inline(always)]
    fn note(
        &self,
        log: &mut Option<Sequence<FlatAction>>,
        kind: AccessKind,
        word: WordId,
        value: u32,
    ) -> Result<(), Memory>
        ensures { OnOk result (log.new ≡ with_actions log.old (Accesses (flat_access self.now kind word value) ∷ [])) }
    {
        match log {
            None => Ok(()),
            Some(actions) => self.log(actions, kind, word, value),
        }
    }

    /// Makes one instruction of the task; a task that has ended or wants a lock isn't changed. Returns whether an instruction
    /// was made.
    pub(crate) fn step(
        &mut self,
        program: &Program,
        code: &DecodedCode,
        fuel: u32,
        memory: &mut Vec<u32>,
        log: &mut Option<Sequence<FlatAction>>,
    ) -> Result<bool, Memory>
        requires code { IsDecoded program.now code.now }
        requires fuel { fuel ≤ 32768 }
        requires words { length memory.old.items ≡ length program.now.memory }
        requires within { IsWithin fuel self.old }
        ensures value { IfOk result (λ went. let before : At = record { task = self.old; memory = memory.old.items } in
            record { task = self.new; memory = memory.new.items } ≡ flat_step program.now fuel before) }
        ensures still { IfOk result (λ went. went ≡ false → let before : At = record { task = self.old; memory = memory.old.items } in
            IsUnmoved program.now fuel before) }
        ensures log { IfOk result (λ went. let before : At = record { task = self.old; memory = memory.old.items } in
            log.new ≡ with_actions log.old (actions_at program.now fuel before)) }
        ensures quiet { IfOk result (λ went. went ≡ false → let before : At = record { task = self.old; memory = memory.old.items } in
            actions_at program.now fuel before ≡ []) }
        ensures gone { IfOk result (λ went. went ≡ true → room fuel self.new < room fuel self.old) }
        ensures words { length memory.new.items ≡ length program.now.memory }
        ensures within { IsWithin fuel self.new }
        ensures room { room fuel self.new ≤ room fuel self.old }
    {
        if self.state.end.is_some() {
            return Ok(false);
        }
        if self.state.compute_in(program, fuel, code) {
            return Ok(true);
        }
        let next = self.state.next_in(program, self.decl, fuel, code);
        match next.need {
            Need::Local | Need::Release { .. } => {
                self.state.complete(program, self.decl, fuel, &next);
            }
            Need::Load { word } => {
                let value = memory[word.0 as usize];
                self.note(log, AccessKind::Load, word, value)?;
                self.load(program, fuel, &next, word, value)?;
            }
            Need::Store { word, .. } => {
                let place = word.0 as usize;
                let old = memory[place];
                let value = self.state.merged_by(program, self.decl, fuel, &next, old);
                self.note(log, AccessKind::Store, word, value)?;
                memory[place] = value;
                self.state.complete(program, self.decl, fuel, &next);
            }
            Need::Acquire { .. } => return Ok(false),
            Need::End { cause } => self.state.stop(cause),
        }
        Ok(true)
    }

    /// The task, which wants a lock, acquires it.
    pub(crate) fn acquire(&mut self, program: &Program, fuel: u32)
        requires fuel { fuel ≤ 32768 }
        requires within { IsWithin fuel self.old }
        requires wants { WantsLock program.now fuel self.old }
        ensures value { self.new ≡ in_state self.old (advanced program.now self.old.state) }
        ensures within { IsWithin fuel self.new }
        ensures room { room fuel self.new < room fuel self.old }
    {
        self.state.advance(program, self.decl, fuel);
    }

    /// Runs the task until it waits or ends.
    #[tactic(auto, unfolding(crate::specs::Step::segment, crate::specs::Accesses::segment_actions))]
    pub(crate) fn segment(
        &mut self,
        program: &Program,
        code: &DecodedCode,
        fuel: u32,
        memory: &mut Vec<u32>,
        log: &mut Option<Sequence<FlatAction>>,
    ) -> Result<(), Memory>
        requires code { IsDecoded program.now code.now }
        requires fuel { fuel ≤ 32768 }
        requires words { length memory.old.items ≡ length program.now.memory }
        requires within { IsWithin fuel self.old }
        ensures value { IfOk result (λ done. let before : At = record { task = self.old; memory = memory.old.items } in
            record { task = self.new; memory = memory.new.items } ≡ segment program.now fuel before) }
        ensures log { IfOk result (λ done. let before : At = record { task = self.old; memory = memory.old.items } in
            log.new ≡ with_actions log.old (segment_actions program.now fuel before)) }
        ensures words { length memory.new.items ≡ length program.now.memory }
        ensures within { IsWithin fuel self.new }
        ensures room { room fuel self.new ≤ room fuel self.old }
    {
        for _done in 0..fuel + 1 {
            if !self.step(program, code, fuel, memory, log)? {
                return Ok(());
            }
        }
        Ok(())
    }
}
