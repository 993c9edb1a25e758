//! Blocks of code words: their leaders, and how the rows of the other words follow from a leader's row.
ghost use Rattle.std.specs.Prelude.{◌≡◌, ◌⊎◌, ℕ, ◌+◌, ◌<◌, ◌≤◌, true, false, Decides, Some, length, IfOk, IfSome};
ghost use Rattle.region_table.specs.Program.{IsProgram};
ghost use Rattle.rv_isa.specs.declared.instr.Instr.{Instr};
ghost use Rattle.effect_prover.specs.Row.{IsRow};
ghost use Rattle.effect_prover.specs.Table.{Table, row_at, address_at, instr_of, target_of};
ghost use Rattle.effect_prover.specs.Blocks.{is_straight, IsStraightAt, is_leader, AreLed, HasMoreLeaders, HasLeaders, leader_of, IsLast, row_behind, filled_row, filled_before};

use crate::row::Row;
use crate::sweep::{address, instr_at, place_of, target};
use dn_base::Memory;
use region_table::{Program, TaskDecl};
use rv_isa::Instr;
use std::alloc::Global;

/// Whether an instruction is straight: it continues at the next word, and nowhere else.
fn is_straight(instr: &Instr) -> bool
    ensures { result ≡ is_straight instr.now }
{
    match *instr {
        Instr::Jal { .. }
        | Instr::Jalr { .. }
        | Instr::Branch { .. }
        | Instr::Ecall
        | Instr::Ebreak => { false }
        _ => true,
    }
}

/// Whether a straight instruction stands at a code word.
fn is_straight_at(program: &Program, place: usize) -> bool
    requires { place < length program.now.code }
    ensures { Decides result (IsStraightAt program.now.code place) }
{
    match instr_at(program, place) {
        Some(instr) => is_straight(&instr),
        None => false,
    }
}

/// Marks a code word as a leader.
fn lead(leaders: &mut [bool], place: usize)
    requires { place < length leaders.old }
    ensures more { HasMoreLeaders leaders.old leaders.new }
    ensures leader { is_leader leaders.new place ≡ true }
{
    leaders[place] = true;
}

/// Marks the first code word, if there is one.
fn mark_first(leaders: &mut [bool])
    ensures more { HasMoreLeaders leaders.old leaders.new }
    ensures first { 0 < length leaders.new → is_leader leaders.new 0 ≡ true }
{
    if !leaders.is_empty() {
        lead(leaders, 0);
    }
}

/// Marks the word after one that isn't straight.
fn mark_behind(program: &Program, leaders: &mut [bool], place: usize)
    requires words { length leaders.old ≡ length program.now.code }
    requires within { place < length program.now.code }
    ensures more { HasMoreLeaders leaders.old leaders.new }
    ensures behind { place + 1 < length program.now.code → IsStraightAt program.now.code place ⊎ (is_leader leaders.new (place + 1) ≡ true) }
{
    if is_straight_at(program, place) {
        return;
    }
    if place + 1 < leaders.len() {
        lead(leaders, place + 1);
    }
}

/// Marks the word at an address, if that is a code word.
fn mark_address(leaders: &mut [bool], address: u32)
    ensures more { HasMoreLeaders leaders.old leaders.new }
    ensures leader { (i : ℕ) → i < length leaders.old → address ≡ address_at i → is_leader leaders.new i ≡ true }
{
    if let Some(place) = place_of(address, leaders.len()) {
        lead(leaders, place);
    }
}

/// Marks the target of a branch or JAL.
fn mark_aim(program: &Program, leaders: &mut [bool], place: usize)
    requires program { IsProgram program.now }
    requires words { length leaders.old ≡ length program.now.code }
    requires within { place < length program.now.code }
    ensures more { HasMoreLeaders leaders.old leaders.new }
    ensures aimed { (j : ℕ) (instr : Instr) → j < length program.now.code → instr_of program.now.code place ≡ Some instr → target_of (address_at place) instr ≡ Some (address_at j) → is_leader leaders.new j ≡ true }
{
    let Some(instr) = instr_at(program, place) else {
        return;
    };
    if let Some(aim) = target(address(place), &instr) {
        mark_address(leaders, aim);
    }
}

/// Marks the leaders that a code word requires.
fn mark_word(program: &Program, leaders: &mut [bool], place: usize)
    requires program { IsProgram program.now }
    requires within { place < length program.now.code }
    requires led { AreLed program.now.code place leaders.old }
    ensures led { AreLed program.now.code (place + 1) leaders.new }
{
    mark_behind(program, leaders, place);
    mark_aim(program, leaders, place);
}

/// Marks all leaders that the code words require.
fn mark_words(program: &Program, leaders: &mut [bool])
    requires program { IsProgram program.now }
    requires words { length leaders.old ≡ length program.now.code }
    ensures { AreLed program.now.code (length program.now.code) leaders.new }
{
    mark_first(leaders);
    for place in 0..leaders.len() {
        mark_word(program, leaders, place);
    }
}

/// Which code words lead blocks in a task's table.
///
/// # Errors
/// `Memory` where there is no room for the marks.
pub(crate) fn leaders(
    alloc: Global,
    program: &Program,
    task: &TaskDecl,
) -> Result<Vec<bool>, Memory>
    requires { IsProgram program.now }
    ensures { IfOk result (λ leaders. HasLeaders program.now task.now leaders.items) }
{
    let words = program.code.len();
    let mut leaders: Vec<bool> = vec![in alloc; false; words]?;
    mark_words(program, leaders.as_mut_slice());
    mark_address(leaders.as_mut_slice(), task.entry);
    Ok(leaders)
}

/// Whether the next word belongs to the same block.
fn goes_on(leaders: &[bool], place: usize) -> bool
    requires { place < length leaders.now }
    ensures { Decides result ((place + 1 < length leaders.now) × (is_leader leaders.now (place + 1) ≡ false)) }
{
    place + 1 < leaders.len() && !leaders[place + 1]
}

/// Takes a row past a straight instruction.
fn step_at(program: &Program, place: usize, row: &mut Row)
    requires program { IsProgram program.now }
    requires within { place < length program.now.code }
    requires plain { IsStraightAt program.now.code place }
    requires row { IsRow row.old }
    ensures value { row_behind program.now place (Some row.old) (instr_of program.now.code place) ≡ Some row.new }
    ensures row { IsRow row.new }
{
    if let Some(instr) = instr_at(program, place) {
        row.step(address(place), &instr);
    }
}

/// The last word of a block, and the row there.
#[derive(Clone, Copy)]
pub(crate) struct Last {
    pub(crate) place: usize,
    pub(crate) row: Row,
}

/// The last word of the block of a word that is reached with a row.
pub(crate) fn last_of_block(program: &Program, leaders: &[bool], at: usize, row: &Row) -> Last
    requires program { IsProgram program.now }
    requires led { AreLed program.now.code (length program.now.code) leaders.now }
    requires within { at < length program.now.code }
    requires row { IsRow row.now }
    ensures last { IsLast leaders.now (length program.now.code) result.place }
    ensures block { leader_of leaders.now result.place ≡ leader_of leaders.now at }
    ensures reached { (t : Table) → filled_row program.now leaders.now t at ≡ Some row.now → filled_row program.now leaders.now t result.place ≡ Some result.row }
    ensures row { IsRow result.row }
{
    let mut last = Last {
        place: at,
        row: *row,
    };
    while goes_on(leaders, last.place) {
        step_at(program, last.place, &mut last.row);
        last.place += 1;
    }
    last
}

/// The row at a word, from the rows at the leaders and the row at the word before.
pub(crate) fn row_here(
    program: &Program,
    leaders: &[bool],
    rows: &[Option<Row>],
    place: usize,
    before: Option<Row>,
) -> Option<Row>
    requires program { IsProgram program.now }
    requires led { AreLed program.now.code (length program.now.code) leaders.now }
    requires words { length rows.now ≡ length program.now.code }
    requires within { place < length rows.now }
    requires before { before ≡ filled_before program.now leaders.now rows.now place }
    requires row { IfSome before IsRow }
    ensures { result ≡ filled_row program.now leaders.now rows.now place }
{
    if leaders[place] {
        return rows[place];
    }
    let mut row = before?;
    step_at(program, place - 1, &mut row);
    Some(row)
}
