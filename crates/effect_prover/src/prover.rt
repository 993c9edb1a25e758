//! The prover: each task's least table, and its first word whose instruction isn't inside.
ghost use Rattle.std.specs.Prelude.{◌≡◌, ℕ, ◌<◌, Some, Decides, length, IfOk, IfSome};
ghost use Rattle.region_table.specs.Program.{IsProgram};
ghost use Rattle.region_table.specs.Numbers.{HasWords};
ghost use Rattle.effect_prover.specs.declared.row.Row.{Row};
ghost use Rattle.effect_prover.specs.declared.proved.Proved.TheVariants.{Inside};
ghost use Rattle.effect_prover.specs.Row.{IsRow};
ghost use Rattle.effect_prover.specs.Table.{row_at};
ghost use Rattle.effect_prover.specs.Blocks.{AreLed, filled_row, filled};
ghost use Rattle.effect_prover.specs.Inside.{IsInsideAt, IsFirstOutside};
ghost use Rattle.effect_prover.specs.Sweep.{HasHeads};
ghost use Rattle.effect_prover.specs.Kept.{IsTableKept, IsTableReady};
ghost use Rattle.effect_prover.specs.Stretch.{AreUsableKept};
ghost use Rattle.effect_prover.specs.Answer.{IsProversAnswer, RunsInside, IsTaskAnswer, IsPhaseAnswer};

use crate::blocks::row_here;
use crate::inside::is_inside;
use crate::laws::a_proven_program_runs_inside;
use crate::proved::Proved;
use crate::row::Row;
use crate::sweep::{address, heads, instr_at};
use crate::task_table::{TaskTable, keep};
use crate::usable::UsableSets;
use dn_base::{CoreId, Memory, PhaseId};
use effect_checker::Checked;
use region_table::{Phase, Program, TaskDecl, a_program_has_words, a_program_is_well_formed};
use std::alloc::Global;

/// Whether the instruction of a word is inside, by the word's row.
fn place_is_inside(
    alloc: Global,
    program: &Program,
    task: &TaskDecl,
    leaders: &[bool],
    rows: &[Option<Row>],
    row: &Option<Row>,
    place: usize,
    usable: &mut UsableSets,
) -> Result<bool, Memory>
    requires program { IsProgram program.now }
    requires within { place < length program.now.code }
    requires row { IfSome row.now IsRow }
    requires here { row.now ≡ filled_row program.now leaders.now rows.now place }
    requires kept { AreUsableKept task.now usable.old }
    ensures kept { AreUsableKept task.now usable.new }
    ensures answer { IfOk result (λ inside. Decides inside (IsInsideAt program.now task.now (filled program.now leaders.now rows.now) place)) }
{
    let Some(row) = row else {
        return Ok(true);
    };
    let Some(instr) = instr_at(program, place) else {
        return Ok(true);
    };
    is_inside(alloc, program, task, row, &instr, usable)
}

/// The first word of a table whose instruction isn't inside, with these sets kept. The rows are those at the leaders.
#[tactic(auto, using(crate::proofs::AnswerLemmas::answers))]
fn first_outside_by(
    alloc: Global,
    program: &Program,
    task: &TaskDecl,
    leaders: &[bool],
    rows: &[Option<Row>],
    usable: &mut UsableSets,
) -> Result<Option<usize>, Memory>
    requires program { IsProgram program.now }
    requires led { AreLed program.now.code (length program.now.code) leaders.now }
    requires words { length rows.now ≡ length program.now.code }
    requires rows { (i : ℕ) (row : Row) → row_at (filled program.now leaders.now rows.now) i ≡ Some row → IsRow row }
    requires kept { AreUsableKept task.now usable.old }
    ensures { IfOk result (IsFirstOutside program.now task.now (filled program.now leaders.now rows.now)) }
{
    let mut row = None;
    for place in 0..rows.len() {
        row = row_here(program, leaders, rows, place, row);
        if !place_is_inside(alloc, program, task, leaders, rows, &row, place, usable)? {
            return Ok(Some(place));
        }
    }
    Ok(None)
}

/// The first word of a table whose instruction isn't inside. The rows are those at the leaders.
fn first_outside(
    alloc: Global,
    program: &Program,
    task: &TaskDecl,
    leaders: &[bool],
    rows: &[Option<Row>],
) -> Result<Option<usize>, Memory>
    requires program { IsProgram program.now }
    requires led { AreLed program.now.code (length program.now.code) leaders.now }
    requires words { length rows.now ≡ length program.now.code }
    requires rows { (i : ℕ) (row : Row) → row_at (filled program.now leaders.now rows.now) i ≡ Some row → IsRow row }
    ensures { IfOk result (IsFirstOutside program.now task.now (filled program.now leaders.now rows.now)) }
{
    let mut usable = UsableSets::none();
    first_outside_by(alloc, program, task, leaders, rows, &mut usable)
}

/// The first word of a task's least table whose instruction isn't inside; that table is kept.
fn check_kept(
    alloc: Global,
    program: &Program,
    task: &TaskDecl,
    kept: &Option<TaskTable>,
) -> Result<Option<usize>, Memory>
    requires program { IsProgram program.now }
    requires ready { IsTableReady program.now task.now kept.now }
    ensures { IfOk result (IsTaskAnswer program.now task.now) }
{
    let Some(table) = kept else {
        return Ok(None);
    };
    first_outside(
        alloc,
        program,
        task,
        table.leaders.as_slice(),
        table.rows.as_slice(),
    )
}

/// The first word of a task's least table whose instruction isn't inside. The table is kept then.
fn check_task(
    alloc: Global,
    program: &Program,
    task: &TaskDecl,
    heads: &[bool],
    kept: &mut Option<TaskTable>,
) -> Result<Option<usize>, Memory>
    requires program { IsProgram program.now }
    requires heads { HasHeads program.now.code heads.now }
    requires kept { IsTableKept program.now kept.old }
    ensures kept { IsTableKept program.now kept.new }
    ensures answer { IfOk result (IsTaskAnswer program.now task.now) }
{
    keep(alloc, program, task, heads, kept)?;
    check_kept(alloc, program, task, kept)
}

/// A word whose instruction isn't inside: its index, and the core whose task reaches it.
#[derive(Clone, Copy)]
struct Found {
    core: CoreId,
    place: usize,
}

/// The first of these tasks with such a word, by its core, and the first such word of it.
fn check_tasks(
    alloc: Global,
    program: &Program,
    tasks: &[TaskDecl],
    heads: &[bool],
    kept: &mut Option<TaskTable>,
) -> Result<Option<Found>, Memory>
    requires program { IsProgram program.now }
    requires heads { HasHeads program.now.code heads.now }
    requires kept { IsTableKept program.now kept.old }
    ensures kept { IsTableKept program.now kept.new }
    ensures answer { IfOk result (IsPhaseAnswer program.now tasks.now) }
{
    for task in tasks {
        if let Some(place) = check_task(alloc, program, task, heads, kept)? {
            return Ok(Some(Found {
                core: task.core,
                place,
            }));
        }
    }
    Ok(None)
}

/// The answer for a program, phase by phase.
fn check_in_turn(
    alloc: Global,
    program: &Program,
    phases: &[Phase],
    heads: &[bool],
    kept: &mut Option<TaskTable>,
) -> Result<Proved, Memory>
    requires program { IsProgram program.now }
    requires phases { phases.now ≡ program.now.phases }
    requires heads { HasHeads program.now.code heads.now }
    requires kept { IsTableKept program.now kept.old }
    ensures { IfOk result (IsProversAnswer program.now) }
{
    for (number, phase) in phases.iter().enumerate() {
        if let Some(found) = check_tasks(alloc, program, phase.tasks.as_slice(), heads, kept)? {
            return Ok(Proved::Unbounded {
                phase: PhaseId(number as u32),
                core: found.core,
                pc: address(found.place),
            });
        }
    }
    Ok(Proved::Inside)
}

/// The answer for a program, starting with no kept table.
fn check_phases(
    alloc: Global,
    program: &Program,
    phases: &[Phase],
    heads: &[bool],
) -> Result<Proved, Memory>
    requires program { IsProgram program.now }
    requires phases { phases.now ≡ program.now.phases }
    requires heads { HasHeads program.now.code heads.now }
    ensures { IfOk result (IsProversAnswer program.now) }
{
    let mut kept: Option<TaskTable> = None;
    check_in_turn(alloc, program, phases, heads, &mut kept)
}

/// The answer for a program, and what the answer says of every run.
fn prove_program(alloc: Global, program: &Program) -> Result<Proved, Memory>
    requires program { IsProgram program.now }
    requires words { HasWords program.now }
    ensures value { IfOk result (IsProversAnswer program.now) }
    ensures sound { IfOk result (λ answer. answer ≡ Inside → RunsInside program.now) }
{
    // for the proof alone: the law makes the clause sound of the clause value
    a_proven_program_runs_inside();
    let heads = heads(alloc, program)?;
    check_phases(alloc, program, program.phases.as_slice(), heads.as_slice())
}

/// Whether every load and store that a task of the program can reach only accesses words that its task declares.
///
/// For each task it finds the least closed table (`IsLeastTable`). It answers `Inside` exactly if every instruction that a
/// table reaches is inside. Adjacent tasks with the same entry and argument share a table. A table is given back before the
/// next one is made.
///
/// # Errors
/// `Memory` if there is no room for a table.
pub fn prove(alloc: Global, checked: &Checked) -> Result<Proved, Memory>
    // in the least table of every task every instruction is inside, or this is the least place that isn't
    ensures value { IfOk result (IsProversAnswer checked.now) }

    // after the answer Inside no run of the program ends a task by a trap outside
    ensures sound { IfOk result (λ answer. answer ≡ Inside → RunsInside checked.now) }
{
    let program = checked.program();
    // for the proof alone: the program is well formed, and its words have 32 bits, as prove_program requires
    a_program_is_well_formed(program);
    a_program_has_words(program);
    prove_program(alloc, program)
}
