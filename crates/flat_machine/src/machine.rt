ghost use Rattle.std.specs.Prelude.{◌≡◌, ◌≤◌, ◌<◌, ℕ, ◌+◌, ◌*◌, [], ◌++◌, ◌&&◌, true, false, None, Some, length, drop, map, sum_by, slice_get, option_copied, IfOk, IfSome, IfNone, position};
ghost use Rattle.std.specs.List.{All, HoldsAt, list_any, list_all};
ghost use Rattle.rv_core.specs.Access.{is_held};
ghost use Rattle.rv_core.specs.Decoded.{IsDecoded};
ghost use Rattle.flat_machine.specs.Step.{At, Started, segment, in_state, room, IsWithin, WantsLock};
ghost use Rattle.flat_machine.specs.Phases.{Flat, Ran, run_all, begin, has_finished, next_phase, settled, initial_flat, initial, work, IsSoundFlat};
ghost use Rattle.flat_machine.specs.Grants.{is_free, grant_by, grant_for, is_grant, can_take, first_grant, next_grant, resumed, granted, grants_from, IsStoppedAt, IsLeastFrom};
ghost use Rattle.flat_machine.specs.Accesses.{with_actions, run_actions, begin_actions, settled_actions, initial_actions, resumed_actions, granted_actions, grants_actions};
ghost use Rattle.flat_machine.specs.Ending.{flat_end_of, flat_ends_of, task_loads};

use crate::accesses::{FlatAction, note};
use crate::ending::{FlatEnd, TaskLoads, push_ends, push_loads};
use crate::running::{Running, start};
use dn_base::{Grant, LockId, MOST_WORDS, Memory, PhaseId, Sequence};
use region_table::{Phase, Program, TaskDecl};
use rv_core::{DecodedCode, Ending, Need, TaskEnd, outcome};
use std::alloc::Global;
use std::marker::Model;

/// The flat machine between two grants.
#[derive(Drop)]
pub(crate) struct Machine<'a> {
    /// How many phases have begun.
    pub(crate) begun: u32,
    /// The tasks of the phases before the last one that has begun.
    past: Vec<Running<'a>>,
    /// The tasks of the last phase that has begun, in the order of their cores.
    pub(crate) tasks: Vec<Running<'a>>,
    /// The data words.
    memory: Vec<u32>,
}

impl<'a> Model for Machine<'a> {
    ghost use Rattle.flat_machine.specs.Phases.{Flat};

    ghost Value = { Flat };

    ghost view = { λ m. record { begun = m.begun; past = m.past.items; tasks = m.tasks.items; memory = m.memory.items } };
}

/// Runs the first segment of each of these tasks, one after the other.
fn run_all<'a>(
    alloc: Global,
    program: &Program,
    code: &DecodedCode,
    fuel: u32,
    phase: PhaseId,
    tasks: &'a [TaskDecl],
    memory: &mut Vec<u32>,
    log: &mut Option<Sequence<FlatAction>>,
) -> Result<Vec<Running<'a>>, Memory>
    requires code { IsDecoded program.now code.now }
    requires fuel { fuel ≤ 32768 }
    requires words { length memory.old.items ≡ length program.now.memory }
    ensures value { IfOk result (λ ran. let all : Ran = record { tasks = ran.items; memory = memory.new.items } in
        all ≡ run_all program.now fuel phase.0 tasks.now memory.old.items) }
    ensures log { IfOk result (λ ran. log.new ≡ with_actions log.old (run_actions program.now fuel phase.0 tasks.now memory.old.items)) }
    ensures words { length memory.new.items ≡ length program.now.memory }
    ensures within { IfOk result (λ ran. All (IsWithin fuel) ran.items) }
    ensures count { IfOk result (λ ran. length ran.items ≡ length tasks.now) }
    ensures room { IfOk result (λ ran. sum_by (room fuel) ran.items ≤ length tasks.now * (fuel + 1)) }
{
    let mut ran = Vec::new(alloc);
    for task in tasks {
        let mut running = start(alloc, phase, task);
        running.segment(program, code, fuel, memory, log)?;
        ran.push(running)?;
    }
    Ok(ran)
}

/// Whether all of these tasks have finished.
fn have_finished(tasks: &[Running<'_>]) -> bool
    ensures { result ≡ list_all has_finished tasks.now }
{
    for running in tasks {
        if !running.has_finished() {
            return false;
        }
    }
    true
}

/// Whether none of these tasks holds the lock.
fn is_free(tasks: &[Running<'_>], lock: LockId) -> bool
    requires { lock.0 < 32 }
    ensures { result ≡ is_free tasks.now lock.0 }
{
    for running in tasks {
        if running.state.held & (1 << lock.0) != 0 {
            return false;
        }
    }
    true
}

/// The grant that a task can take, among these tasks.
pub(crate) fn grant_for(
    program: &Program,
    fuel: u32,
    tasks: &[Running<'_>],
    running: &Running<'_>,
) -> Option<Grant>
    requires { length program.now.locks ≤ 32 }
    ensures { result ≡ grant_for program.now fuel tasks.now running.now }
{
    match running.wish(program, fuel) {
        Some(Need::Acquire { lock }) if is_free(tasks, lock) => Some(Grant {
            phase: running.phase,
            core: running.decl.core,
            lock,
        }),
        _ => None,
    }
}

/// Whether the grant that was found is the given one.
pub(crate) fn is_grant(given: Grant, found: Option<Grant>) -> bool
    ensures { result ≡ is_grant given found }
{
    match found {
        Some(grant) => {
            grant.phase.0 == given.phase.0
                && grant.core.0 == given.core.0
                && grant.lock.0 == given.lock.0
        }
        None => false,
    }
}

/// The index of the task that can take this grant.
fn place_of(program: &Program, fuel: u32, tasks: &[Running<'_>], given: Grant) -> Option<usize>
    requires { length program.now.locks ≤ 32 }
    ensures { result ≡ position (can_take program.now fuel tasks.now given) tasks.now }
{
    for (place, running) in tasks.iter().enumerate() {
        if is_grant(given, grant_for(program, fuel, tasks, running)) {
            return Some(place);
        }
    }
    None
}

/// The first grant that one of these tasks can take.
fn first_grant(program: &Program, fuel: u32, tasks: &[Running<'_>]) -> Option<Grant>
    requires { length program.now.locks ≤ 32 }
    ensures { result ≡ first_grant program.now fuel tasks.now tasks.now }
{
    for running in tasks {
        let grant = grant_for(program, fuel, tasks, running);
        if grant.is_some() {
            return grant;
        }
    }
    None
}

/// The loads of these tasks: of those of the earlier phases, and then of those of the last one.
fn all_loads(
    alloc: Global,
    past: Vec<Running<'_>>,
    last: Vec<Running<'_>>,
) -> Result<Sequence<TaskLoads>, Memory>
    ensures { IfOk result (λ loads. loads ≡ map task_loads (past.entry.items ++ last.entry.items)) }
{
    let mut loads = Sequence::new(alloc);
    push_loads(&mut loads, past)?;
    push_loads(&mut loads, last)?;
    Ok(loads)
}

impl<'a> Machine<'a> {
    /// The machine before the first phase.
    fn initial(alloc: Global, program: &Program) -> Result<Machine<'a>, Memory>
        ensures value { IfOk result (λ machine. machine ≡ initial program.now) }
        ensures sound { IfOk result (IsSoundFlat program.now 0) }
        ensures locks { length program.now.locks ≤ 32 }
        ensures words { length program.now.memory ≤ MOST_WORDS }
    {
        Ok(Machine {
            begun: 0,
            past: Vec::new(alloc),
            tasks: Vec::new(alloc),
            memory: Vec::from_slice(alloc, program.memory.as_slice())?,
        })
    }

    /// The next phase, if it may begin: all tasks have finished.
    fn next_phase(&self, program: &'a Program) -> Option<&'a Phase>
        ensures value { option_copied result ≡ next_phase program.now self.now }
        ensures within { IfSome result (λ phase. self.now.begun < 64) }
    {
        if have_finished(self.tasks.as_slice()) {
            program.phases.get(self.begun as usize)
        } else {
            None
        }
    }

    /// A phase begins.
    #[tactic(auto, unfolding(crate::specs::Phases::begin))]
    fn begin(
        &mut self,
        alloc: Global,
        program: &Program,
        code: &DecodedCode,
        fuel: u32,
        phase: &'a Phase,
        log: &mut Option<Sequence<FlatAction>>,
    ) -> Result<(), Memory>
        requires code { IsDecoded program.now code.now }
        requires fuel { fuel ≤ 32768 }
        requires words { length self.old.memory ≡ length program.now.memory }
        requires begun { self.old.begun < 64 }
        ensures value { IfOk result (λ done. self.new ≡ begin program.now fuel phase.now self.old) }
        ensures log { IfOk result (λ done. log.new ≡ with_actions log.old (begin_actions program.now fuel phase.now self.old)) }
        ensures words { IfOk result (λ done. length self.new.memory ≡ length program.now.memory) }
        ensures within { IfOk result (λ done. All (IsWithin fuel) self.new.tasks) }
        ensures count { IfOk result (λ done. length self.new.tasks ≡ length phase.now.tasks) }
        ensures room { IfOk result (λ done. sum_by (room fuel) self.new.tasks ≤ length phase.now.tasks * (fuel + 1)) }
    {
        self.past.append(&mut self.tasks)?;
        self.tasks = run_all(
            alloc,
            program,
            code,
            fuel,
            PhaseId(self.begun),
            phase.tasks.as_slice(),
            &mut self.memory,
            log,
        )?;
        self.begun += 1;
        Ok(())
    }
}

impl<'a> Machine<'a> {
    /// As long as all tasks have finished, the next phase begins.
    fn settle(
        &mut self,
        alloc: Global,
        program: &'a Program,
        code: &DecodedCode,
        fuel: u32,
        log: &mut Option<Sequence<FlatAction>>,
    ) -> Result<(), Memory>
        requires code { IsDecoded program.now code.now }
        requires fuel { fuel ≤ 32768 }
        requires sound { IsSoundFlat program.now fuel self.old }
        ensures value { IfOk result (λ done. self.new ≡ settled program.now fuel self.old) }
        ensures log { IfOk result (λ done. log.new ≡ with_actions log.old (settled_actions program.now fuel self.old)) }
        ensures sound { IfOk result (λ done. IsSoundFlat program.now fuel self.new) }
        ensures work { IfOk result (λ done. work program.now fuel self.new ≤ work program.now fuel self.old) }
    {
        'phases: while let Some(phase) = self.next_phase(program) {
            self.begin(alloc, program, code, fuel, phase, log)?;
        }
        Ok(())
    }

    /// The machine before any grant.
    #[tactic(auto, unfolding(crate::specs::Phases::initial_flat, crate::specs::Accesses::initial_actions))]
    pub(crate) fn open(
        alloc: Global,
        program: &'a Program,
        code: &DecodedCode,
        fuel: u32,
        log: &mut Option<Sequence<FlatAction>>,
    ) -> Result<Machine<'a>, Memory>
        requires code { IsDecoded program.now code.now }
        requires fuel { fuel ≤ 32768 }
        ensures value { IfOk result (λ machine. machine ≡ initial_flat program.now fuel) }
        ensures log { IfOk result (λ machine. log.new ≡ with_actions log.old (initial_actions program.now fuel)) }
        ensures sound { IfOk result (IsSoundFlat program.now fuel) }
        ensures locks { length program.now.locks ≤ 32 }
        ensures words { length program.now.memory ≤ MOST_WORDS }
    {
        let mut machine = Machine::initial(alloc, program)?;
        machine.settle(alloc, program, code, fuel, log)?;
        Ok(machine)
    }

    /// The task at this index, which wants a lock, acquires it and runs its next segment.
    fn resume(
        &mut self,
        program: &Program,
        code: &DecodedCode,
        fuel: u32,
        place: usize,
        log: &mut Option<Sequence<FlatAction>>,
    ) -> Result<(), Memory>
        requires code { IsDecoded program.now code.now }
        requires fuel { fuel ≤ 32768 }
        requires sound { IsSoundFlat program.now fuel self.old }
        requires place { place < length self.old.tasks }
        requires wants { HoldsAt (WantsLock program.now fuel) self.old.tasks place }
        ensures value { IfOk result (λ done. self.new ≡ resumed program.now fuel self.old place (slice_get self.old.tasks place)) }
        ensures log { IfOk result (λ done. log.new ≡ with_actions log.old (resumed_actions program.now fuel self.old (slice_get self.old.tasks place))) }
        ensures sound { IfOk result (λ done. IsSoundFlat program.now fuel self.new) }
        ensures work { IfOk result (λ done. work program.now fuel self.new < work program.now fuel self.old) }
    {
        let running = &mut self.tasks[place];
        running.acquire(program, fuel);
        running.segment(program, code, fuel, &mut self.memory, log)?;
        Ok(())
    }

    /// Gives a lock to the task that can take this grant. The task runs its next segment, and phases begin as they may. Returns
    /// whether the grant was legal; if it wasn't, nothing has changed.
    #[tactic(auto, unfolding(crate::specs::Grants::granted, crate::specs::Accesses::granted_actions))]
    pub(crate) fn grant(
        &mut self,
        alloc: Global,
        program: &'a Program,
        code: &DecodedCode,
        fuel: u32,
        given: Grant,
        log: &mut Option<Sequence<FlatAction>>,
    ) -> Result<bool, Memory>
        requires code { IsDecoded program.now code.now }
        requires fuel { fuel ≤ 32768 }
        requires locks { length program.now.locks ≤ 32 }
        requires sound { IsSoundFlat program.now fuel self.old }
        ensures legal { result ≡ Ok true → granted program.now fuel given self.old ≡ Some self.new }
        ensures illegal { result ≡ Ok false → granted program.now fuel given self.old ≡ None }
        ensures kept { result ≡ Ok false → self.new ≡ self.old }
        ensures log { IfOk result (λ legal. log.new ≡ with_actions log.old (granted_actions program.now fuel given self.old)) }
        ensures sound { IfOk result (λ legal. IsSoundFlat program.now fuel self.new) }
        ensures work { result ≡ Ok true → work program.now fuel self.new < work program.now fuel self.old }
    {
        let Some(place) = place_of(program, fuel, self.tasks.as_slice(), given) else {
            return Ok(false);
        };
        note(log, FlatAction::Takes(given))?;
        self.resume(program, code, fuel, place, log)?;
        self.settle(alloc, program, code, fuel, log)?;
        Ok(true)
    }

    /// Gives these grants one after the other, up to the first that isn't legal. Returns the index of that one, or None if all
    /// are legal.
    pub(crate) fn grant_all(
        &mut self,
        alloc: Global,
        program: &'a Program,
        code: &DecodedCode,
        fuel: u32,
        grants: &[Grant],
        log: &mut Option<Sequence<FlatAction>>,
    ) -> Result<Option<usize>, Memory>
        requires code { IsDecoded program.now code.now }
        requires fuel { fuel ≤ 32768 }
        requires locks { length program.now.locks ≤ 32 }
        requires sound { IsSoundFlat program.now fuel self.old }
        ensures legal { IfOk result (λ stop. IfNone stop (grants_from program.now fuel (Some self.old) grants.now ≡ Some self.new)) }
        ensures stops { IfOk result (λ stop. IfSome stop (IsStoppedAt program.now fuel self.old grants.now self.new)) }
        ensures log { IfOk result (λ stop. log.new ≡ with_actions log.old (grants_actions program.now fuel (Some self.old) grants.now)) }
        ensures sound { IfOk result (λ stop. IsSoundFlat program.now fuel self.new) }
    {
        for (place, given) in grants.iter().enumerate() {
            if !self.grant(alloc, program, code, fuel, *given, log)? {
                return Ok(Some(place));
            }
        }
        Ok(None)
    }

    /// Gives the next grant.
    pub(crate) fn grant_next(
        &mut self,
        alloc: Global,
        program: &'a Program,
        code: &DecodedCode,
        fuel: u32,
        next: Grant,
    ) -> Result<(), Memory>
        requires code { IsDecoded program.now code.now }
        requires fuel { fuel ≤ 32768 }
        requires locks { length program.now.locks ≤ 32 }
        requires sound { IsSoundFlat program.now fuel self.old }
        requires next { next_grant program.now fuel self.old ≡ Some next }
        ensures value { IfOk result (λ done. granted program.now fuel next self.old ≡ Some self.new) }
        ensures sound { IfOk result (λ done. IsSoundFlat program.now fuel self.new) }
        ensures work { IfOk result (λ done. work program.now fuel self.new < work program.now fuel self.old) }
    {
        // the next grant is always legal, so the result says nothing
        let _legal = self.grant(alloc, program, code, fuel, next, &mut None)?;
        Ok(())
    }

    /// Gives the next grant as long as there is one, and adds these grants to an empty list.
    fn grant_each(
        &mut self,
        alloc: Global,
        program: &'a Program,
        code: &DecodedCode,
        fuel: u32,
        grants: &mut Vec<Grant>,
    ) -> Result<(), Memory>
        requires none { grants.old.items ≡ [] }
        requires code { IsDecoded program.now code.now }
        requires fuel { fuel ≤ 32768 }
        requires locks { length program.now.locks ≤ 32 }
        requires sound { IsSoundFlat program.now fuel self.old }
        ensures least { IfOk result (λ done. IsLeastFrom program.now fuel (Some self.old) grants.new.items) }
        ensures leads { IfOk result (λ done. grants_from program.now fuel (Some self.old) grants.new.items ≡ Some self.new) }
        ensures whole { IfOk result (λ done. next_grant program.now fuel self.new ≡ None) }
        ensures sound { IfOk result (λ done. IsSoundFlat program.now fuel self.new) }
    {
        'grants: while let Some(next) = self.next_grant(program, fuel) {
            self.grant_next(alloc, program, code, fuel, next)?;
            grants.push(next)?;
        }
        Ok(())
    }

    /// Gives the next grant as long as there is one. Returns the list of these grants.
    pub(crate) fn grant_least(
        &mut self,
        alloc: Global,
        program: &'a Program,
        code: &DecodedCode,
        fuel: u32,
    ) -> Result<Vec<Grant>, Memory>
        requires code { IsDecoded program.now code.now }
        requires fuel { fuel ≤ 32768 }
        requires locks { length program.now.locks ≤ 32 }
        requires sound { IsSoundFlat program.now fuel self.old }
        ensures least { IfOk result (λ grants. IsLeastFrom program.now fuel (Some self.old) grants.items) }
        ensures leads { IfOk result (λ grants. grants_from program.now fuel (Some self.old) grants.items ≡ Some self.new) }
        ensures whole { IfOk result (λ grants. next_grant program.now fuel self.new ≡ None) }
        ensures sound { IfOk result (λ grants. IsSoundFlat program.now fuel self.new) }
    {
        let mut grants = Vec::new(alloc);
        self.grant_each(alloc, program, code, fuel, &mut grants)?;
        Ok(grants)
    }

    /// The grant to the lowest core whose wanted lock is free; None if there is none.
    #[tactic(auto, unfolding(crate::specs::Grants::next_grant))]
    pub(crate) fn next_grant(&self, program: &Program, fuel: u32) -> Option<Grant>
        requires { length program.now.locks ≤ 32 }
        ensures { result ≡ next_grant program.now fuel self.now }
    {
        first_grant(program, fuel, self.tasks.as_slice())
    }

    /// Adds how all tasks that have started stand to no ends.
    fn push_all_ends(
        &self,
        ends: &mut Sequence<TaskEnd>,
        program: &Program,
        fuel: u32,
    ) -> Result<(), Memory>
        requires { ends.old ≡ [] }
        ensures { IfOk result (λ done. ends.new ≡ flat_ends_of program.now fuel self.now) }
    {
        push_ends(ends, program, fuel, self.past.as_slice())?;
        push_ends(ends, program, fuel, self.tasks.as_slice())
    }

    /// How all tasks that have started stand.
    fn ends(&self, alloc: Global, program: &Program, fuel: u32) -> Result<Sequence<TaskEnd>, Memory>
        ensures { IfOk result (λ ends. ends ≡ flat_ends_of program.now fuel self.now) }
    {
        let mut ends = Sequence::new(alloc);
        self.push_all_ends(&mut ends, program, fuel)?;
        Ok(ends)
    }

    /// The end of the run.
    #[tactic(auto, unfolding(crate::specs::Ending::flat_end_of))]
    pub(crate) fn finish(
        self,
        alloc: Global,
        program: &Program,
        fuel: u32,
    ) -> Result<FlatEnd, Memory>
        requires sound { IsSoundFlat program.now fuel self }
        requires words { length program.now.memory ≤ MOST_WORDS }
        ensures value { IfOk result (λ end. end ≡ flat_end_of program.now fuel self.entry) }
        ensures within { IfOk result (λ end. (length end.ending.memory ≤ MOST_WORDS) × (length end.ending.tasks ≤ 64)) }
    {
        let tasks = self.ends(alloc, program, fuel)?;
        let Machine {
            begun: _,
            past,
            tasks: last,
            memory,
        } = self;
        let loads = all_loads(alloc, past, last)?;
        Ok(FlatEnd {
            ending: Ending {
                outcome: outcome(tasks.as_slice()),
                tasks,
                memory: Sequence::from_vec(memory),
            },
            loads,
        })
    }
}
