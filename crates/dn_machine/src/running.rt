ghost use Rattle.std.specs.Prelude.{◌≡◌, ◌<◌, ◌≤◌, true, false, ℕ, length, Some, None, Ok, IfOk, OnOk, slice_get};
ghost use Rattle.message_net.specs.declared.message.Mail.{Mail};
ghost use Rattle.message_net.specs.declared.event.Event.{Event as AnEvent};
ghost use Rattle.message_net.specs.declared.event.Event.TheVariants.{Instr as AnInstr, Evict as AnEvict, Arrive as AnArrive, Handle as HandleOf};
ghost use Rattle.message_net.specs.declared.event.EventKind.{EventKind};
ghost use Rattle.grant_log.specs.Counts.{kind_count};
ghost use Rattle.message_net.specs.Pool.{AreDistinct};
ghost use Rattle.registration_protocol.specs.Node.{Setting};
ghost use Rattle.registration_protocol.specs.Setting.{setting};
ghost use Rattle.rv_core.specs.Ending.{ending_of};
ghost use Rattle.machine_rules.specs.State.{initial_state};
ghost use Rattle.machine_rules.specs.Memory.{memory_of};
ghost use Rattle.machine_rules.specs.Next.{enabled};
ghost use Rattle.machine_rules.specs.Sound.{IsMachine};
ghost use Rattle.dn_machine.specs.Content.{state_of, KnowsOwn, IsWhole};
ghost use Rattle.dn_machine.specs.Ends.{noted_ending, with_end};
ghost use Rattle.dn_machine.specs.Kept.{IsKept};
ghost use Rattle.dn_machine.specs.Log.{own_core, core_of, end_there, CameAndNoted, no_log, HasRun};
ghost use Rattle.dn_machine.specs.Pick.{pick};
ghost use Rattle.dn_machine.specs.Run.{IsSeedsRunOf};

use crate::content::Content;
use crate::draws::{draw, generator};
use crate::log::{Log, listed_ends};
use crate::picking::{Choice, choose};
use crate::record::RunRecord;
use dn_base::{CoreId, Memory, Sequence, WordId};
use message_net::{Actor, Event, EventKind};
use registration_protocol::Context;
use rv_core::{Ending, TaskEnd, outcome};
use std::alloc::Global;

/// The actor, where it is a core.
#[inline(always)]
fn core_of(actor: Actor) -> Option<CoreId>
    ensures { result ≡ core_of (Some actor) }
{
    match actor {
        Actor::Core(core) => Some(core),
        Actor::Bank(_) => None,
        Actor::Keeper => None,
    }
}

impl Content {
    /// How the task of a core stands, where a core is asked for.
    #[inline(always)]
    fn end_there(&self, context: &Context<'_>, core: Option<CoreId>) -> Option<TaskEnd>
        requires known { KnowsOwn (setting context.now) self.now }
        ensures { (C : Setting) → result ≡ end_there (state_of C self.now) core }
    {
        match core {
            Some(core) => self.end_known(context, core),
            None => None,
        }
    }

    /// Notes how the task of a core stands, where a core is asked for, and its task has ended or waits for a lock.
    #[inline(always)]
    fn note_end(&self, context: &Context<'_>, core: Option<CoreId>, log: &mut Log)
        requires known { KnowsOwn (setting context.now) self.now }
        ensures { (C : Setting) → log.new ≡ record log.old { ends = with_end (end_there (state_of C self.now) core) log.old.ends } }
    {
        if let Some(end) = self.end_there(context, core) {
            log.note_end(end);
        }
    }

    /// Makes and notes the next instruction of a core, which may go on.
    ///
    /// # Errors
    /// `Memory` where there is no room for the log.
    #[inline(always)]
    fn make_instr(
        &mut self,
        context: &Context<'_>,
        core: CoreId,
        log: &mut Log,
    ) -> Result<(), Memory>
        requires whole { IsWhole (state_of (setting context.now) self.old) }
        requires known { KnowsOwn (setting context.now) self.old }
        requires may { enabled (state_of (setting context.now) self.old) (AnInstr core) ≡ true }
        requires spare { (setting context.now).shape.cores ≤ self.old.pool.spare }
        requires few { (kind : EventKind) → kind_count kind log.old.counts < 18446744073709551615 }
        ensures came { OnOk result (CameAndNoted (state_of (setting context.now) self.old) (state_of (setting context.now) self.new) (AnInstr core) log.old log.new) }
        ensures known { KnowsOwn (setting context.now) self.new }
    {
        log.note_event(Event::Instr(core), EventKind::Instr)?;
        self.instruct(context, core);
        self.note_end(context, Some(core), log);
        Ok(())
    }

    /// Makes and notes the eviction of a word by a core, which may evict it.
    ///
    /// # Errors
    /// `Memory` where there is no room for the log.
    #[inline(always)]
    fn make_evict(
        &mut self,
        context: &Context<'_>,
        core: CoreId,
        word: WordId,
        log: &mut Log,
    ) -> Result<(), Memory>
        requires whole { IsWhole (state_of (setting context.now) self.old) }
        requires known { KnowsOwn (setting context.now) self.old }
        requires may { enabled (state_of (setting context.now) self.old) (AnEvict core word) ≡ true }
        requires spare { (setting context.now).shape.cores ≤ self.old.pool.spare }
        requires few { (kind : EventKind) → kind_count kind log.old.counts < 18446744073709551615 }
        ensures came { OnOk result (CameAndNoted (state_of (setting context.now) self.old) (state_of (setting context.now) self.new) (AnEvict core word) log.old log.new) }
        ensures known { KnowsOwn (setting context.now) self.new }
    {
        log.note_event(Event::Evict(core, word), EventKind::Evict)?;
        self.evict(context, core, word);
        self.note_end(context, Some(core), log);
        Ok(())
    }

    /// Makes and notes the arrival of a core at the barrier, which may arrive.
    ///
    /// # Errors
    /// `Memory` where there is no room for the log.
    #[inline(always)]
    fn make_arrive(
        &mut self,
        context: &Context<'_>,
        core: CoreId,
        log: &mut Log,
    ) -> Result<(), Memory>
        requires whole { IsWhole (state_of (setting context.now) self.old) }
        requires known { KnowsOwn (setting context.now) self.old }
        requires may { enabled (state_of (setting context.now) self.old) (AnArrive core) ≡ true }
        requires spare { (setting context.now).shape.cores ≤ self.old.pool.spare }
        requires few { (kind : EventKind) → kind_count kind log.old.counts < 18446744073709551615 }
        ensures came { OnOk result (CameAndNoted (state_of (setting context.now) self.old) (state_of (setting context.now) self.new) (AnArrive core) log.old log.new) }
        ensures known { KnowsOwn (setting context.now) self.new }
    {
        log.note_event(Event::Arrive(core), EventKind::Arrive)?;
        self.arrive(context, core);
        self.note_end(context, Some(core), log);
        Ok(())
    }

    /// Makes and notes the own event of a core, which is enabled.
    ///
    /// # Errors
    /// `Memory` where there is no room for the log.
    #[inline(always)]
    fn make_own(&mut self, context: &Context<'_>, event: Event, log: &mut Log) -> Result<(), Memory>
        requires whole { IsWhole (state_of (setting context.now) self.old) }
        requires known { KnowsOwn (setting context.now) self.old }
        requires may { enabled (state_of (setting context.now) self.old) event ≡ true }
        requires own { (core : CoreId) × (own_core event ≡ Some core) }
        requires spare { (setting context.now).shape.cores ≤ self.old.pool.spare }
        requires few { (kind : EventKind) → kind_count kind log.old.counts < 18446744073709551615 }
        ensures came { OnOk result (CameAndNoted (state_of (setting context.now) self.old) (state_of (setting context.now) self.new) event log.old log.new) }
        ensures known { KnowsOwn (setting context.now) self.new }
    {
        // It is noted first, so that it needn't be kept until it has come. It grants nothing.
        match event {
            Event::Instr(core) => self.make_instr(context, core, log),
            Event::Evict(core, word) => self.make_evict(context, core, word, log),
            Event::Arrive(core) => self.make_arrive(context, core, log),
            Event::Handle(_) => unreachable!(),
        }
    }

    /// Removes the message at an index of the pool, makes its handling, and notes it.
    ///
    /// # Errors
    /// `Memory` where there is no room for the log.
    #[inline(always)]
    fn make_handling(
        &mut self,
        context: &Context<'_>,
        place: u32,
        log: &mut Log,
    ) -> Result<(), Memory>
        requires whole { IsWhole (state_of (setting context.now) self.old) }
        requires known { KnowsOwn (setting context.now) self.old }
        requires distinct { AreDistinct self.old.pool.mails }
        requires place { place < length self.old.pool.mails }
        requires spare { (setting context.now).shape.cores ≤ self.old.pool.spare }
        requires few { (kind : EventKind) → kind_count kind log.old.counts < 18446744073709551615 }
        ensures came { (m : Mail) → slice_get self.old.pool.mails place ≡ Some m
            → OnOk result (CameAndNoted (state_of (setting context.now) self.old) (state_of (setting context.now) self.new) (HandleOf m.id) log.old log.new) }
        ensures known { KnowsOwn (setting context.now) self.new }
    {
        let mail = self.pool.take_at(place);
        // It is noted before it is handled, so that its id and its kind needn't be kept until then.
        log.note_event(Event::Handle(mail.id), mail.message.kind())?;
        let granted = self.deliver(context, mail.to, &mail.message);
        log.note_grant(granted)?;
        self.note_end(context, core_of(mail.to), log);
        Ok(())
    }

    /// Makes and notes the event that a draw picks, if any event is enabled. There is room for its messages. Returns whether an
    /// event came.
    ///
    /// # Errors
    /// `Memory` where there is no room for the log.
    #[inline(always)]
    fn make(&mut self, context: &Context<'_>, draw: u32, log: &mut Log) -> Result<bool, Memory>
        requires machine { IsMachine (state_of (setting context.now) self.old) }
        requires whole { IsWhole (state_of (setting context.now) self.old) }
        requires known { KnowsOwn (setting context.now) self.old }
        requires spare { (setting context.now).shape.cores ≤ self.old.pool.spare }
        requires few { (kind : EventKind) → kind_count kind log.old.counts < 18446744073709551615 }
        ensures over { result ≡ Ok false → (pick (state_of (setting context.now) self.old) draw ≡ None)
            × (state_of (setting context.now) self.new ≡ state_of (setting context.now) self.old) × (log.new ≡ log.old) }
        ensures came { result ≡ Ok true → (e : AnEvent) × (pick (state_of (setting context.now) self.old) draw ≡ Some e)
            × CameAndNoted (state_of (setting context.now) self.old) (state_of (setting context.now) self.new) e log.old log.new }
        ensures known { KnowsOwn (setting context.now) self.new }
    {
        match choose(&self.own, &self.pool, draw) {
            Some(Choice::Own(event)) => {
                self.make_own(context, event, log)?;
                Ok(true)
            }
            Some(Choice::Mail(place)) => {
                self.make_handling(context, place, log)?;
                Ok(true)
            }
            None => Ok(false),
        }
    }

    /// Makes and notes the event that a draw picks, if any event is enabled. Returns whether an event came.
    ///
    /// # Errors
    /// `Memory` where there is no room for the messages or the log.
    #[inline(always)]
    fn advance(&mut self, context: &Context<'_>, draw: u32, log: &mut Log) -> Result<bool, Memory>
        requires machine { IsMachine (state_of (setting context.now) self.old) }
        requires whole { IsWhole (state_of (setting context.now) self.old) }
        requires known { KnowsOwn (setting context.now) self.old }
        requires few { (kind : EventKind) → kind_count kind log.old.counts < 18446744073709551615 }
        ensures over { result ≡ Ok false → (pick (state_of (setting context.now) self.old) draw ≡ None)
            × (state_of (setting context.now) self.new ≡ state_of (setting context.now) self.old) × (log.new ≡ log.old) }
        ensures came { result ≡ Ok true → (e : AnEvent) × (pick (state_of (setting context.now) self.old) draw ≡ Some e)
            × CameAndNoted (state_of (setting context.now) self.old) (state_of (setting context.now) self.new) e log.old log.new }
        ensures known { KnowsOwn (setting context.now) self.new }
    {
        self.reserve(context.shape.cores)?;
        self.make(context, draw, log)
    }

    /// Makes and notes the events that the words of a seed pick one after the other, until none is enabled.
    ///
    /// # Errors
    /// `Memory` where there is no room for the messages or the log.
    pub(crate) fn run(
        &mut self,
        context: &Context<'_>,
        seed: u32,
        log: &mut Log,
    ) -> Result<(), Memory>
        requires initial { state_of (setting context.now) self.old ≡ initial_state (setting context.now) }
        requires kept { IsKept (state_of (setting context.now) self.old) 0 }
        requires known { KnowsOwn (setting context.now) self.old }
        requires empty { log.old ≡ no_log (length (setting context.now).program.phases) }
        ensures { OnOk result (HasRun (initial_state (setting context.now)) seed (state_of (setting context.now) self.new) log.new) }
    {
        let mut words = generator(seed as u64);
        'events: while self.advance(context, draw(&mut words), log)? {}
        Ok(())
    }

    /// The ending with these ends of tasks and the words of this state.
    fn ending_with(
        &self,
        alloc: Global,
        context: &Context<'_>,
        tasks: Sequence<TaskEnd>,
    ) -> Result<Ending, Memory>
        requires banks { 0 < (setting context.now).shape.banks }
        ensures { IfOk result (λ ending. ending ≡ ending_of tasks (memory_of (state_of (setting context.now) self.now))) }
    {
        let memory = self.memory(alloc, context)?;
        Ok(Ending {
            outcome: outcome(tasks.as_slice()),
            tasks,
            memory: Sequence::from_vec(memory),
        })
    }

    /// The ending of a run, from its last state and the noted ends.
    ///
    /// # Errors
    /// `Memory` where there is no room for it.
    pub(crate) fn ending(
        &self,
        alloc: Global,
        context: &Context<'_>,
        ends: &Sequence<Option<TaskEnd>>,
    ) -> Result<Ending, Memory>
        requires machine { IsMachine (state_of (setting context.now) self.now) }
        ensures { IfOk result (λ ending. ending ≡ noted_ending ends.now (state_of (setting context.now) self.now)) }
    {
        let program = context.decoded.program();
        let phases = program.phases.as_slice();
        let begun = (self.keeper.phase().0 as usize + 1).min(phases.len());
        let tasks = listed_ends(alloc, ends.as_slice(), &phases[..begun])?;
        self.ending_with(alloc, context, tasks)
    }

    /// Makes and notes the events that the words of a seed pick, until none is enabled, and gives the ending of that run.
    ///
    /// # Errors
    /// `Memory` where there is no room for the messages, the log or the ending.
    fn run_to_end(
        &mut self,
        alloc: Global,
        context: &Context<'_>,
        seed: u32,
        log: &mut Log,
    ) -> Result<Ending, Memory>
        requires initial { state_of (setting context.now) self.old ≡ initial_state (setting context.now) }
        requires kept { IsKept (state_of (setting context.now) self.old) 0 }
        requires known { KnowsOwn (setting context.now) self.old }
        requires empty { log.old ≡ no_log (length (setting context.now).program.phases) }
        ensures run { OnOk result (HasRun (initial_state (setting context.now)) seed (state_of (setting context.now) self.new) log.new) }
        ensures ending { IfOk result (λ ending. ending ≡ noted_ending log.new.ends (state_of (setting context.now) self.new)) }
    {
        self.run(context, seed, log)?;
        self.ending(alloc, context, &log.ends)
    }
}

/// The record of the run of a seed, from the initial machine, whose content is lent.
///
/// # Errors
/// `Memory` where there is no room for the messages or the record.
fn run_lent(
    alloc: Global,
    context: &Context<'_>,
    content: &mut Content,
    seed: u32,
) -> Result<RunRecord, Memory>
    requires initial { state_of (setting context.now) content.old ≡ initial_state (setting context.now) }
    requires kept { IsKept (state_of (setting context.now) content.old) 0 }
    requires known { KnowsOwn (setting context.now) content.old }
    ensures { IfOk result (IsSeedsRunOf (initial_state (setting context.now)) seed) }
{
    let program = context.decoded.program();
    let mut log = Log::new(alloc, program.phases.len())?;
    let ending = content.run_to_end(alloc, context, seed, &mut log)?;
    Ok(log.record(ending))
}

/// The record of the run of a seed, from the initial machine.
///
/// # Errors
/// `Memory` where there is no room for the messages or the record.
pub(crate) fn run_from_start(
    alloc: Global,
    context: &Context<'_>,
    content: Content,
    seed: u32,
) -> Result<RunRecord, Memory>
    requires initial { state_of (setting context.now) content ≡ initial_state (setting context.now) }
    requires kept { IsKept (state_of (setting context.now) content) 0 }
    requires known { KnowsOwn (setting context.now) content }
    ensures { IfOk result (IsSeedsRunOf (initial_state (setting context.now)) seed) }
{
    let mut content = content;
    run_lent(alloc, context, &mut content, seed)
}
