//! The machine and its program.
ghost use Rattle.std.specs.Prelude.{true, ◌≡◌, ◌++◌, ◌≤◌, ◌∷◌, [], length, slice_get, IfOk, OnOk};
ghost use Rattle.src_text.specs.Laws.{ended};
ghost use Rattle.rv_listing.specs.Instruction.{code_line};
ghost use Rattle.page_data.specs.Json.{string_text};
ghost use Rattle.page_data.specs.Program.{size_text, pair_text, value_texts, value_list, values_text, region_text, interval_pair, words_text, task_item, written_field, guarded_field, plan_fields, phase_object, phase_objects, phase_list, phases_text, code_lines, regions_field, locks_field, code_field, source_field, program_text};

use crate::json::{push_gap, push_named_string, push_string};
use crate::lists::{Item, push_list, push_named_list};
use dn_base::{MOST_WORDS, Memory, Name};
use dn_machine::Machine;
use region_table::{
    Interval, Phase, PhasePlan, Program, Region, TaskDecl, WordSet, a_program_is_well_formed,
};
use rv_listing::push_code_word;
use std::alloc::Global;
use text_pieces::Piece::{Bytes, Long, Number};
use text_pieces::{push, push_pieces};

/// Adds how large the machine is, the fuel of a task, and how many data words there are.
#[tactic(auto, unfolding(crate::specs::Program::size_text))]
pub(crate) fn push_sizes(out: &mut Vec<u8>, machine: &Machine) -> Result<(), Memory>
    ensures { OnOk result (out.new.items ≡ out.old.items ++ size_text machine.now.state.setting) }
{
    let shape = machine.shape();
    push_pieces(
        out,
        &[
            Bytes(b",\"cores\":"),
            Number(shape.cores),
            Bytes(b",\"banks\":"),
            Number(shape.banks),
            Bytes(b",\"sets\":"),
            Number(shape.sets),
            Bytes(b",\"ways\":"),
            Number(shape.ways),
            Bytes(b",\"fuel\":"),
            Number(machine.fuel()),
            Bytes(b",\"words\":"),
            Long(machine.program().memory.len() as u64),
        ],
    )
}

/// Adds two numbers.
#[tactic(auto, unfolding(crate::specs::Json::further_all, crate::specs::Program::pair_text))]
fn push_pair(out: &mut Vec<u8>, first: u32, second: u32) -> Result<(), Memory>
    ensures { OnOk result (out.new.items ≡ out.old.items ++ pair_text first second) }
{
    push_pieces(
        out,
        &[
            Bytes(b"["),
            Number(first),
            Bytes(b","),
            Number(second),
            Bytes(b"]"),
        ],
    )
}

/// Adds the first values that aren't 0. There are at most 65,536.
fn push_value_items(out: &mut Vec<u8>, memory: &[u32]) -> Result<(), Memory>
    requires { length memory.now ≤ MOST_WORDS }
    ensures { OnOk result (out.new.items ≡ out.old.items ++ value_texts true 0 memory.now) }
{
    let mut first = true;
    let mut word = 0;
    for value in memory {
        if *value != 0 {
            push_gap(out, first)?;
            push_pair(out, word, *value)?;
            first = false;
        }
        word += 1;
    }
    Ok(())
}

#[tactic(auto, unfolding(crate::specs::Program::value_list))]
fn push_value_list(out: &mut Vec<u8>, memory: &[u32]) -> Result<(), Memory>
    requires { length memory.now ≤ MOST_WORDS }
    ensures { OnOk result (out.new.items ≡ out.old.items ++ value_list memory.now) }
{
    push(out, b"[")?;
    push_value_items(out, memory)?;
    push(out, b"]")
}

#[tactic(auto, unfolding(crate::specs::Program::values_text))]
fn push_values(out: &mut Vec<u8>, memory: &[u32]) -> Result<(), Memory>
    requires { length memory.now ≤ MOST_WORDS }
    ensures { OnOk result (out.new.items ≡ out.old.items ++ values_text memory.now) }
{
    push(out, b",\"memory\":")?;
    push_value_list(out, memory)
}

/// The name, the first word and the length of a region.
impl Item for Region {
    ghost written = { region_text };

    #[tactic(auto, unfolding(crate::specs::Json::further_all, crate::specs::Program::region_text))]
    fn push_item(&self, out: &mut Vec<u8>) -> Result<(), Memory> {
        push_named_string(out, b"[", self.name.bytes())?;
        push_pieces(
            out,
            &[
                Bytes(b","),
                Number(self.start),
                Bytes(b","),
                Number(self.len),
                Bytes(b"]"),
            ],
        )
    }
}

impl Item for Name {
    ghost written = { string_text };

    fn push_item(&self, out: &mut Vec<u8>) -> Result<(), Memory> {
        push_string(out, self.bytes())
    }
}

impl Item for Interval {
    ghost written = { interval_pair };

    fn push_item(&self, out: &mut Vec<u8>) -> Result<(), Memory> {
        push_pair(out, self.lo, self.hi)
    }
}

/// A set of words, as the intervals that it is.
impl Item for WordSet {
    ghost written = { words_text };

    fn push_item(&self, out: &mut Vec<u8>) -> Result<(), Memory> {
        push_list(out, self.intervals())
    }
}

/// The core, the entry and the argument of a task.
impl Item for TaskDecl {
    ghost written = { task_item };

    #[tactic(auto, unfolding(crate::specs::Json::further_all, crate::specs::Program::task_item))]
    fn push_item(&self, out: &mut Vec<u8>) -> Result<(), Memory> {
        push_pieces(
            out,
            &[
                Bytes(b"["),
                Number(self.core.0),
                Bytes(b","),
                Number(self.entry),
                Bytes(b","),
                Number(self.arg),
                Bytes(b"]"),
            ],
        )
    }
}

#[tactic(auto, unfolding(crate::specs::Program::written_field))]
fn push_written(out: &mut Vec<u8>, plan: &PhasePlan) -> Result<(), Memory>
    ensures { OnOk result (out.new.items ≡ out.old.items ++ written_field plan.now) }
{
    push_named_list(out, b",\"written\":", plan.written.intervals())
}

#[tactic(auto, unfolding(crate::specs::Program::guarded_field))]
fn push_guarded(out: &mut Vec<u8>, plan: &PhasePlan) -> Result<(), Memory>
    ensures { OnOk result (out.new.items ≡ out.old.items ++ guarded_field plan.now) }
{
    push_named_list(out, b",\"guarded\":", plan.guarded.as_slice())
}

/// Adds what a phase may write, and what each lock guards in it.
fn push_plan_fields(out: &mut Vec<u8>, plan: &PhasePlan) -> Result<(), Memory>
    ensures { OnOk result (out.new.items ≡ out.old.items ++ (written_field plan.now ++ guarded_field plan.now)) }
{
    push_written(out, plan)?;
    push_guarded(out, plan)
}

/// Adds what a phase may write and what each lock guards in it, by its number.
fn push_plan(out: &mut Vec<u8>, plans: &[PhasePlan], number: usize) -> Result<(), Memory>
    ensures { OnOk result (out.new.items ≡ out.old.items ++ plan_fields (slice_get plans.now number)) }
{
    match plans.get(number) {
        None => Ok(()),
        Some(plan) => push_plan_fields(out, plan),
    }
}

/// Adds the tasks of a phase, and its plan.
#[tactic(auto, unfolding(crate::specs::Program::phase_object, crate::specs::Program::tasks_field))]
fn push_phase(
    out: &mut Vec<u8>,
    phase: &Phase,
    plans: &[PhasePlan],
    number: usize,
) -> Result<(), Memory>
    ensures { OnOk result (out.new.items ≡ out.old.items ++ phase_object phase.now (slice_get plans.now number)) }
{
    push_named_list(out, b"{\"tasks\":", phase.tasks.as_slice())?;
    push_plan(out, plans, number)?;
    push(out, b"}")
}

/// Adds phases, of which there are at most 64, with their plans.
fn push_phase_items(out: &mut Vec<u8>, phases: &[Phase], plans: &[PhasePlan]) -> Result<(), Memory>
    requires { length phases.now ≤ 64 }
    ensures { OnOk result (out.new.items ≡ out.old.items ++ phase_objects true plans.now 0 phases.now) }
{
    let mut first = true;
    let mut number = 0;
    for phase in phases {
        push_gap(out, first)?;
        push_phase(out, phase, plans, number)?;
        first = false;
        number += 1;
    }
    Ok(())
}

#[tactic(auto, unfolding(crate::specs::Program::phase_list))]
fn push_phase_list(out: &mut Vec<u8>, phases: &[Phase], plans: &[PhasePlan]) -> Result<(), Memory>
    requires { length phases.now ≤ 64 }
    ensures { OnOk result (out.new.items ≡ out.old.items ++ phase_list phases.now plans.now) }
{
    push(out, b"[")?;
    push_phase_items(out, phases, plans)?;
    push(out, b"]")
}

#[tactic(auto, unfolding(crate::specs::Program::phases_text))]
fn push_phases(out: &mut Vec<u8>, phases: &[Phase], plans: &[PhasePlan]) -> Result<(), Memory>
    requires { length phases.now ≤ 64 }
    ensures { OnOk result (out.new.items ≡ out.old.items ++ phases_text phases.now plans.now) }
{
    push(out, b",\"phases\":")?;
    push_phase_list(out, phases, plans)
}

/// Adds a code word as a listing writes it, on a line of its own.
fn push_code_line(lines: &mut Vec<u8>, word: u32) -> Result<(), Memory>
    ensures { OnOk result (lines.new.items ≡ lines.old.items ++ ended (code_line word)) }
{
    push_code_word(lines, word)?;
    push(lines, b"\n")
}

/// Adds code words, each on a line of its own.
fn push_code_lines(lines: &mut Vec<u8>, code: &[u32]) -> Result<(), Memory>
    ensures { OnOk result (lines.new.items ≡ lines.old.items ++ code_lines code.now) }
{
    for word in code {
        push_code_line(lines, *word)?;
    }
    Ok(())
}

/// The lines of the code.
fn code_lines(alloc: Global, code: &[u32]) -> Result<Vec<u8>, Memory>
    ensures { IfOk result (λ lines. lines.items ≡ code_lines code.now) }
{
    let mut lines = Vec::new(alloc);
    push_code_lines(&mut lines, code)?;
    Ok(lines)
}

/// Adds the code, as one string.
#[tactic(auto, unfolding(crate::specs::Program::code_field))]
fn push_code_field(alloc: Global, out: &mut Vec<u8>, program: &Program) -> Result<(), Memory>
    ensures { OnOk result (out.new.items ≡ out.old.items ++ code_field program.now) }
{
    let lines = code_lines(alloc, program.code.as_slice())?;
    push_named_string(out, b",\"code\":", lines.as_slice())
}

#[tactic(auto, unfolding(crate::specs::Program::regions_field))]
fn push_regions_field(out: &mut Vec<u8>, program: &Program) -> Result<(), Memory>
    ensures { OnOk result (out.new.items ≡ out.old.items ++ regions_field program.now) }
{
    push_named_list(out, b",\"regions\":", program.regions.as_slice())
}

#[tactic(auto, unfolding(crate::specs::Program::locks_field))]
fn push_locks_field(out: &mut Vec<u8>, program: &Program) -> Result<(), Memory>
    ensures { OnOk result (out.new.items ≡ out.old.items ++ locks_field program.now) }
{
    push_named_list(out, b",\"locks\":", program.locks.as_slice())
}

#[tactic(auto, unfolding(crate::specs::Program::source_field))]
fn push_source_field(out: &mut Vec<u8>, source: &[u8]) -> Result<(), Memory>
    ensures { OnOk result (out.new.items ≡ out.old.items ++ source_field source.now) }
{
    push_named_string(out, b",\"source\":", source)
}

/// Adds the program of a machine, and its text.
#[tactic(auto, unfolding(crate::specs::Program::program_text))]
pub(crate) fn push_program(
    alloc: Global,
    out: &mut Vec<u8>,
    machine: &Machine,
    source: &[u8],
) -> Result<(), Memory>
    ensures { OnOk result (out.new.items ≡ out.old.items ++ program_text machine.now.state.setting source.now) }
{
    let program = machine.program();
    a_program_is_well_formed(program);
    push_values(out, program.memory.as_slice())?;
    push_regions_field(out, program)?;
    push_locks_field(out, program)?;
    push_phases(out, program.phases.as_slice(), machine.plans())?;
    push_code_field(alloc, out, program)?;
    push_source_field(out, source)
}
