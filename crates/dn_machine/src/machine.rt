ghost use Rattle.std.specs.Prelude.{◌≡◌, ◌↔◌, ◌+◌, ◌<◌, ◌≤◌, true, OnOk, OnErr, IfOk, IfSome, None, slice_get};
ghost use Rattle.region_table.specs.Program.{IsProgram};
ghost use Rattle.effect_checker.specs.Checked.{IsChecked};
ghost use Rattle.registration_protocol.specs.Fit.{IsContext};
ghost use Rattle.registration_protocol.specs.Node.{Setting};
ghost use Rattle.registration_protocol.specs.Setting.{setting};
ghost use Rattle.machine_rules.specs.State.{initial_state};
ghost use Rattle.machine_rules.specs.Memory.{word_value};
ghost use Rattle.machine_rules.specs.Next.{next, enabled, observed};
ghost use Rattle.machine_rules.specs.Runs.{IsOver};
ghost use Rattle.dn_machine.specs.Content.{state_of, KnowsOwn};
ghost use Rattle.dn_machine.specs.Ends.{end_at};
ghost use Rattle.dn_machine.specs.Kept.{IsKept, IsInitialMachine};
ghost use Rattle.dn_machine.specs.Pick.{own_event_in, pick};
ghost use Rattle.dn_machine.specs.Plans.{AreInOneForm};
ghost use Rattle.dn_machine.specs.Run.{IsSeedsRunOf};
ghost use Rattle.dn_machine.specs.Sizes.{FitsMachine};

use crate::content::Content;
use crate::forms::plans_have_one_form;
use crate::picking::pick_from;
use crate::record::RunRecord;
use crate::running::run_from_start;
use crate::starting::initial_content;
use dn_base::{CoreId, Memory, Shape, WordId};
use effect_checker::Checked;
use machine_rules::Stepped;
use message_net::Event;
use region_table::{PhasePlan, a_program_is_well_formed, plans};
use registration_protocol::Context;
use rv_core::{DecodedProgram, TaskEnd};
use std::alloc::Global;
use std::marker::Model;

/// The multicore machine: a checked program with its decoded code and the plans of its phases, the machine's size, the fuel of
/// each task, what events change, and how many events have come.
///
/// Contracts see the state, and the number of events that led to it.
#[derive(Drop)]
pub struct Machine {
    pub(crate) decoded: DecodedProgram,
    pub(crate) plans: Vec<PhasePlan>,
    pub(crate) shape: Shape,
    pub(crate) fuel: u32,
    pub(crate) content: Content,
    pub(crate) made: u64,
}

impl Model for Machine {
    ghost use Rattle.dn_machine.specs.Kept.{Made, IsKept};
    ghost use Rattle.dn_machine.specs.Content.{state_of, KnowsOwn};

    ghost Value = { Made };

    ghost view = { λ m. record { state = state_of (record { program = m.decoded; plans = m.plans.items; shape = m.shape; fuel = m.fuel }) m.content; made = m.made } };

    ghost invariant = { λ m. IsKept (state_of (record { program = m.decoded; plans = m.plans.items; shape = m.shape; fuel = m.fuel }) m.content) m.made
        × KnowsOwn (record { program = m.decoded; plans = m.plans.items; shape = m.shape; fuel = m.fuel }) m.content };
}

/// The context that the nodes of a machine are given.
pub(crate) fn context_of<'a>(
    decoded: &'a DecodedProgram,
    plans: &'a Vec<PhasePlan>,
    shape: Shape,
    fuel: u32,
) -> Context<'a>
    ensures { setting result ≡ record { program = decoded.now; plans = plans.now.items; shape = shape; fuel = fuel } }
{
    Context {
        decoded,
        plans: plans.as_slice(),
        shape,
        fuel,
    }
}

/// What changes in a machine of this decoded program and these plans, when a run begins.
fn open_content(
    alloc: Global,
    decoded: &DecodedProgram,
    plans: &Vec<PhasePlan>,
    shape: Shape,
    fuel: u32,
) -> Result<Content, Memory>
    requires context { IsContext (record { program = decoded.now; plans = plans.now.items; shape = shape; fuel = fuel }) }
    requires program { IsProgram decoded.now }
    requires checked { IsChecked decoded.now }
    requires some { 1 ≤ shape.cores }
    requires most { shape.cores ≤ 16 }
    ensures state { IfOk result (λ content. let C : Setting = record { program = decoded.now; plans = plans.now.items; shape = shape; fuel = fuel } in
        state_of C content ≡ initial_state C) }
    ensures known { IfOk result (KnowsOwn (record { program = decoded.now; plans = plans.now.items; shape = shape; fuel = fuel })) }
{
    let context = context_of(decoded, plans, shape, fuel);
    initial_content(alloc, &context)
}

impl Machine {
    /// The machine of a checked program when a run begins: each node is in the first phase, the banks hold the initial memory,
    /// and no message is in flight. The shape must have as many cores as the program needs, 1 to 16 banks, 1 to 256 sets and 1 to
    /// 16 ways, and `fuel`, the number of instructions that a task may retire, must be 1 to 32,768.
    ///
    /// # Errors
    /// `Memory` if there is no room.
    pub fn start(
        alloc: Global,
        checked: Checked,
        shape: Shape,
        fuel: u32,
    ) -> Result<Machine, Memory>
        requires fits { FitsMachine checked shape fuel }
        ensures { IfOk result (IsInitialMachine checked shape fuel) }
    {
        let program = checked.program();
        // for the proof alone: the program is well formed and needs 1 to 16 cores, as the invariant of a machine says
        a_program_is_well_formed(program);
        let _cores = program.cores();
        let plans = plans(alloc, program)?;
        // for the proof alone: the plans are in one form, which the clause says of them
        plans_have_one_form(plans.as_slice());
        let decoded = DecodedProgram::new(alloc, checked.into_program())?;
        Machine::of_decoded(alloc, decoded, plans, shape, fuel)
    }

    /// The machine of a decoded program and the plans of its phases when a run begins.
    ///
    /// # Errors
    /// `Memory` if there is no room.
    fn of_decoded(
        alloc: Global,
        decoded: DecodedProgram,
        plans: Vec<PhasePlan>,
        shape: Shape,
        fuel: u32,
    ) -> Result<Machine, Memory>
        requires context { IsContext (record { program = decoded; plans = plans.items; shape = shape; fuel = fuel }) }
        requires program { IsProgram decoded }
        requires checked { IsChecked decoded }
        requires some { 1 ≤ shape.cores }
        requires most { shape.cores ≤ 16 }
        requires one_form { AreInOneForm plans.items }
        ensures { IfOk result (IsInitialMachine decoded shape fuel) }
    {
        let content = open_content(alloc, &decoded, &plans, shape, fuel)?;
        Ok(Machine {
            decoded,
            plans,
            shape,
            fuel,
            content,
            made: 0,
        })
    }

    /// How many events have come.
    pub fn made(&self) -> u64
        ensures { result ≡ self.now.made }
    {
        self.made
    }

    /// Whether an event is enabled.
    pub fn enabled(&self, event: &Event) -> bool
        ensures { result ≡ enabled self.now.state event.now }
    {
        let context = context_of(&self.decoded, &self.plans, self.shape, self.fuel);
        self.content.is_enabled(&context, event)
    }

    /// Makes an event, which must be one that is enabled, and gives what it tells. Fewer than 4,000,000,000 events must have come
    /// before.
    ///
    /// # Errors
    /// `Memory` if there is no room for the messages; the machine is as before then.
    pub fn step(&mut self, event: Event) -> Result<Stepped, Memory>
        requires may { enabled self.old.state event ≡ true }
        requires made { self.old.made < 4000000000 }
        ensures state { OnOk result (self.new.state ≡ next self.old.state event) }
        ensures made { OnOk result (self.new.made ≡ self.old.made + 1) }
        ensures observed { IfOk result (λ stepped. stepped ≡ observed self.old.state event) }
        ensures err { OnErr result (self.new ≡ self.old) }
    {
        self.content.reserve(self.shape.cores)?;
        let context = context_of(&self.decoded, &self.plans, self.shape, self.fuel);
        let stepped = self.content.act(&context, event);
        self.made += 1;
        Ok(stepped)
    }

    /// The event that a draw picks. The candidates are each core's own event, in the order of cores, and then the handling of
    /// each message, in the order of the pool. The one at the draw, modulo their number, is picked; None exactly if no event is
    /// enabled.
    #[tactic(auto, unfolding(crate::specs::Pick::pick))]
    pub fn pick(&self, draw: u32) -> Option<Event>
        ensures picked { result ≡ pick self.now.state draw }
        ensures comes { IfSome result (λ event. enabled self.now.state event ≡ true) }
        ensures none { (result ≡ None) ↔ IsOver self.now.state }
    {
        pick_from(&self.content.own, &self.content.pool, draw)
    }

    /// The own event of a core: its instruction; or else the eviction of the victim, if its next access lacks room; or else its
    /// arrival at the barrier. None if it has none, or if the machine has no such core. It's the one that a draw may pick.
    pub fn own_event(&self, core: CoreId) -> Option<Event>
        ensures event { result ≡ own_event_in self.now.state core.0 }
        ensures comes { IfSome result (λ event. enabled self.now.state event ≡ true) }
    {
        self.content.own.of_core(core)
    }

    /// The value of a data word: that of its pending entry if a core has one, otherwise the one at its home or in its owner's
    /// entry; 0 for any other word.
    pub fn word(&self, word: WordId) -> u32
        ensures { result ≡ word_value self.now.state word.0 }
    {
        let context = context_of(&self.decoded, &self.plans, self.shape, self.fuel);
        self.content.word(&context, word)
    }

    /// How the task of a core stands; None if the core has no task, or its task is running and waits for no lock.
    pub fn task_end(&self, core: CoreId) -> Option<TaskEnd>
        ensures { result ≡ end_at (slice_get self.now.state.nodes core.0) }
    {
        self.content.task_end(core)
    }

    /// Runs the initial machine until no event is enabled. Each event is the one that the next word of the seed's generator
    /// picks.
    ///
    /// After each event the state is coherent, and its words are the memory to which the stores were applied as they retired. The
    /// grants so far lead the reference machine to a state in which the loads of each task begin with its loads so far. At the
    /// end the reference machine's run by the grants has the run's loads and ending.
    ///
    /// # Errors
    /// `Memory` if there is no room for the messages or the record.
    pub fn run(self, alloc: Global, seed: u32) -> Result<RunRecord, Memory>
        requires { self.made ≡ 0 }
        ensures { IfOk result (IsSeedsRunOf self.state seed) }
    {
        let Machine {
            decoded,
            plans,
            shape,
            fuel,
            content,
            made: _,
        } = self;
        let context = context_of(&decoded, &plans, shape, fuel);
        run_from_start(alloc, &context, content, seed)
    }

    /// Runs a copy of this machine as it was when a run began, as `run` does. The machine stays as it is, so that its program can be used
    /// again. The program, its plans and its decoded code aren't copied.
    ///
    /// # Errors
    /// `Memory` if there is no room for what the copy changes, for its messages or the record.
    pub fn run_copy(&self, alloc: Global, seed: u32) -> Result<RunRecord, Memory>
        ensures { IfOk result (IsSeedsRunOf (initial_state self.now.state.setting) seed) }
    {
        let content = open_content(alloc, &self.decoded, &self.plans, self.shape, self.fuel)?;
        let context = context_of(&self.decoded, &self.plans, self.shape, self.fuel);
        run_from_start(alloc, &context, content, seed)
    }

    /// Sets the machine back to where a run begins, so that other events can be made on it. The program, its plans and its decoded code
    /// stay.
    ///
    /// # Errors
    /// `Memory` if there is no room; the machine is as before then.
    pub fn reset(&mut self, alloc: Global) -> Result<(), Memory>
        ensures state { OnOk result (self.new.state ≡ initial_state self.old.state.setting) }
        ensures made { OnOk result (self.new.made ≡ 0) }
        ensures err { OnErr result (self.new ≡ self.old) }
    {
        self.content = open_content(alloc, &self.decoded, &self.plans, self.shape, self.fuel)?;
        self.made = 0;
        Ok(())
    }
}

/// Every machine is left by a run of the initial machine of a checked program, except for the order of its messages. So it has 1
/// to 16 cores, is sound and coherent, and is the initial one if no event has come.
pub fn a_machine_is_kept(machine: &Machine)
    ensures { IsKept machine.now.state machine.now.made }
{
    // for the proof alone: a read of a field brings the invariant of the machine, which is the law
    let _made = &machine.made;
}
