//! A phase: each of its tasks alone, why it is open, and what is known of memory after it.
ghost use Rattle.std.specs.Prelude.{◌≡◌, ◌∷◌, ◌++◌, ◌<◌, ◌≤◌, ℕ, List, length, map, slice_index_or, IfOk, if◌then◌else◌};
ghost use Rattle.std.specs.List.{list_all};
ghost use Rattle.region_table.specs.declared.declared.Phase.{Phase as APhase};
ghost use Rattle.region_table.specs.Program.{IsPhase};
ghost use Rattle.rv_core.specs.Decoded.{IsDecoded};
ghost use Rattle.common_outcomes.specs.Values.{known, joined_effect, applied};
ghost use Rattle.common_outcomes.specs.Alone.{cell_at};
ghost use Rattle.common_outcomes.specs.Phases.{summaries};
ghost use Rattle.common_outcomes.specs.Answer.{open_of, end_alone, has_ended_well, answer_from};
ghost use Rattle.outcomes_top.specs.declared.phase.Progress.TheVariants.{Over, Goes};
ghost use Rattle.common_outcomes.specs.declared.value.Effect.TheVariants.{Kept};
ghost use Rattle.outcomes_top.specs.Marks.{TellShared};
ghost use Rattle.outcomes_top.specs.Reasons.{reason_from, reason_after};
ghost use Rattle.outcomes_top.specs.Effects.{effect_at, AreEffectsOf, without_words, outline_alone, answer_after};

use crate::alone::{TaskAlone, run_alone};
use crate::cells::{Place, apply, join};
use crate::circles::first_stuck;
use crate::marks::mark_all;
use crate::summary::{Outline, end_of, first_held, have_finished, open_control};
use common_outcomes::{Cell, Effect, Open, Value};
use dn_base::{Memory, PhaseId, Sequence};
use region_table::{Phase, Program, TaskDecl};
use rv_core::{DecodedCode, TaskEnd};
use std::alloc::Global;

/// Adds what a task did to each word.
fn join_all(effects: &mut [Effect], cells: &[Cell])
    requires { length cells.now ≡ length effects.old }
    ensures words { length effects.new ≡ length effects.old }
    ensures each { (w : ℕ) → w < length effects.old → effect_at effects.new w ≡ joined_effect (effect_at effects.old w) (cell_at cells.now w).effect }
{
    for place in 0..cells.len() {
        effects[place] = join(effects[place], cells[place].effect);
    }
}

/// Changes what is known of memory by what was done to each word.
fn apply_all(memory: &mut Vec<Value>, effects: &[Effect])
    requires { length effects.now ≡ length memory.old.items }
    ensures words { length memory.new.items ≡ length memory.old.items }
    ensures each { (w : ℕ) → w < length memory.old.items
        → slice_index_or memory.new.items w (known 0) ≡ applied (effect_at effects.now w) (slice_index_or memory.old.items w (known 0)) }
{
    for place in 0..effects.len() {
        memory[place] = apply(effects[place], memory[place]);
    }
}

/// How a task alone stands.
fn outline<'a>(decl: &'a TaskDecl, task: &TaskAlone) -> Outline<'a>
    ensures { result ≡ without_words (record { decl = decl.now; alone = task.now }) }
{
    Outline {
        decl,
        state: task.state,
        acquired: task.acquired,
        over: task.over,
    }
}

/// Runs each task of the phase alone, from this memory, and adds what they did to no effects.
fn run_tasks<'a>(
    alloc: Global,
    program: &Program,
    code: &DecodedCode,
    fuel: u32,
    phase: &'a Phase,
    first: &[Value],
    marks: &[u8],
    effects: &mut [Effect],
) -> Result<Vec<Outline<'a>>, Memory>
    requires code { IsDecoded program.now code.now }
    requires fuel { fuel ≤ 32768 }
    requires locks { length program.now.locks ≤ 32 }
    requires phase { (words locks : ℕ) × IsPhase words locks phase.now }
    requires marks { TellShared phase.now marks.now }
    requires words { length effects.old ≡ length program.now.memory }
    requires none { (w : ℕ) → effect_at effects.old w ≡ Kept }
    ensures value { IfOk result (λ all. all.items ≡ map (outline_alone program.now fuel phase.now first.now) phase.now.tasks) }
    ensures words { length effects.new ≡ length effects.old }
    ensures effects { IfOk result (λ all. AreEffectsOf (summaries program.now fuel phase.now first.now) effects.new) }
{
    let mut all = Vec::new(alloc);
    for decl in phase.tasks.as_slice() {
        let place = Place {
            program,
            code,
            fuel,
            phase,
            decl,
            first,
            marks,
        };
        let task = run_alone(alloc, &place)?;
        join_all(effects, task.cells());
        all.push(outline(decl, &task))?;
    }
    Ok(all)
}

/// Each task of the phase alone, and what they did to each word.
pub(crate) fn alone_in<'a>(
    alloc: Global,
    program: &Program,
    code: &DecodedCode,
    fuel: u32,
    phase: &'a Phase,
    first: &[Value],
) -> Result<(Vec<Outline<'a>>, Vec<Effect>), Memory>
    requires code { IsDecoded program.now code.now }
    requires fuel { fuel ≤ 32768 }
    requires locks { length program.now.locks ≤ 32 }
    requires phase { (locks : ℕ) × IsPhase (length program.now.memory) locks phase.now }
    ensures value { IfOk result (λ done. done.0.items ≡ map (outline_alone program.now fuel phase.now first.now) phase.now.tasks) }
    ensures words { IfOk result (λ done. length done.1.items ≡ length program.now.memory) }
    ensures effects { IfOk result (λ done. AreEffectsOf (summaries program.now fuel phase.now first.now) done.1.items) }
{
    let words = program.memory.len();
    let mut marks: Vec<u8> = vec![in alloc; 0; words]?;
    mark_all(marks.as_mut_slice(), phase);
    let mut effects: Vec<Effect> = vec![in alloc; Effect::Kept; words]?;
    let all = run_tasks(
        alloc,
        program,
        code,
        fuel,
        phase,
        first,
        marks.as_slice(),
        effects.as_mut_slice(),
    )?;
    Ok((all, effects))
}

/// Why the phase is open: control before held, and held before stuck.
fn open_of(phase: PhaseId, all: &[Outline<'_>]) -> Option<Open>
    ensures { result ≡ open_of phase.0 all.now }
{
    let control = open_control(phase, all);
    if control.is_some() {
        return control;
    }
    let held = first_held(phase, all);
    if held.is_some() {
        return held;
    }
    first_stuck(phase, all)
}

/// Adds how these tasks end.
fn push_ends(
    ends: &mut Sequence<TaskEnd>,
    phase: PhaseId,
    all: &[Outline<'_>],
) -> Result<(), Memory>
    ensures { IfOk result (λ done. ends.new ≡ ends.old ++ map (end_alone phase.0) all.now) }
{
    for outline in all {
        ends.push(end_of(phase, outline))?;
    }
    Ok(())
}

/// How it goes on after a phase.
pub(crate) enum Progress {
    /// It is open what the runs have in common.
    Open { open: Open },
    /// The run is over.
    Over,
    /// The next phase begins.
    Goes,
}

/// How it goes on after a phase that isn't open, whose tasks stand so.
fn progress_after(all: &[Outline<'_>]) -> Progress
    ensures { result ≡ (if list_all has_ended_well all.now then Goes else Over) }
{
    if have_finished(all) {
        Progress::Goes
    } else {
        Progress::Over
    }
}

/// What all runs have in common so far: how the tasks of the phases so far end, and what is known of memory.
#[derive(Drop)]
pub(crate) struct Settled {
    pub(crate) ends: Sequence<TaskEnd>,
    pub(crate) memory: Vec<Value>,
}

impl Settled {
    /// Goes on by one phase.
    pub(crate) fn go_on(
        &mut self,
        alloc: Global,
        program: &Program,
        code: &DecodedCode,
        fuel: u32,
        number: PhaseId,
        phase: &Phase,
    ) -> Result<Progress, Memory>
        requires code { IsDecoded program.now code.now }
        requires fuel { fuel ≤ 32768 }
        requires locks { length program.now.locks ≤ 32 }
        requires phase { (locks : ℕ) × IsPhase (length program.now.memory) locks phase.now }
        requires words { length self.old.memory.items ≡ length program.now.memory }
        ensures value { IfOk result (λ progress. (left : List APhase) → answer_after progress program.now fuel number.0 left self.new.ends self.new.memory.items
            ≡ answer_from program.now fuel number.0 (phase.now ∷ left) self.old.ends self.old.memory.items) }
        ensures words { IfOk result (λ progress. length self.new.memory.items ≡ length program.now.memory) }
        ensures reason { IfOk result (λ progress. (left : List APhase) → reason_after progress program.now fuel number.0 phase.now left self.new.memory.items
            ≡ reason_from program.now fuel number.0 (phase.now ∷ left) self.old.memory.items) }
    {
        let (all, effects) = alone_in(alloc, program, code, fuel, phase, self.memory.as_slice())?;
        if let Some(open) = open_of(number, all.as_slice()) {
            return Ok(Progress::Open { open });
        }
        push_ends(&mut self.ends, number, all.as_slice())?;
        apply_all(&mut self.memory, effects.as_slice());
        Ok(progress_after(all.as_slice()))
    }
}
