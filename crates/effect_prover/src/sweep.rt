//! The sweep over the words of a table that finds the least closed one.
ghost use Rattle.std.specs.Prelude.{◌≡◌, ◌↔◌, ℕ, ◌+◌, ◌-◌, ◌*◌, ◌<◌, ◌≤◌, ◌^◌, true, false, Decides, Some, None, length, replicate, IfOk, OnOk, IfSome, IfNone, option_copied};
ghost use Rattle.region_table.specs.Program.{ProgramParts, IsProgram};
ghost use Rattle.rv_isa.specs.Range.{IsEncodable, HasRegisters};
ghost use Rattle.effect_prover.specs.Row.{start_row, IsRow};
ghost use Rattle.effect_prover.specs.Successors.{successors};
ghost use Rattle.effect_prover.specs.declared.row.Row.{Row};
ghost use Rattle.effect_prover.specs.Table.{row_at, address_at, instr_of, target_of, Covers, IsTable, IsLeastTable};
ghost use Rattle.effect_prover.specs.Blocks.{is_leader, HasLeaders, filled};
ghost use Rattle.effect_prover.specs.Sweep.{HasHeads, IsJoinedTo, IsTakenIn, IsPut, IsTableUnder, IsSwept, IsRowGiven, AreMarked, table_room};

use crate::blocks::last_of_block;
use crate::row::Row;
use crate::successors::Successors;
use dn_base::Memory;
use region_table::{FIRST_CODE_ADDRESS, Program, TaskDecl};
use rv_isa::{Instr, decode};
use std::alloc::Global;

/// The address of a code word.
pub(crate) fn address(place: usize) -> u32
    requires { place < 16384 }
    ensures { result ≡ address_at place }
{
    FIRST_CODE_ADDRESS + 4 * place as u32
}

/// The index of the code word at an address, among `words` code words.
pub(crate) fn place_of(address: u32, words: usize) -> Option<usize>
    ensures some { IfSome result (λ place. (place < words) × (address ≡ address_at place)) }
    ensures none { IfNone result ((i : ℕ) → i < words → address ≡ address_at i → ⊥) }
{
    if address < FIRST_CODE_ADDRESS || address % 4 != 0 {
        return None;
    }
    let place = ((address - FIRST_CODE_ADDRESS) / 4) as usize;
    if place < words { Some(place) } else { None }
}

/// The target of a branch or JAL.
pub(crate) fn target(pc: u32, instr: &Instr) -> Option<u32>
    ensures { result ≡ target_of pc instr.now }
{
    match *instr {
        Instr::Jal { offset, .. } | Instr::Branch { offset, .. } => {
            Some(pc.wrapping_add(offset.cast_unsigned()))
        }
        _ => None,
    }
}

/// The least row that contains a row and the row of a word, if that is reached.
fn joined_to(old: &Option<Row>, given: &Row, head: bool, argument: u32) -> Row
    requires old { IfSome old.now IsRow }
    requires given { IsRow given.now }
    ensures { IsJoinedTo head argument old.now given.now result }
{
    match old {
        Some(row) => row.join(given, head, argument),
        None => given.join(given, head, argument),
    }
}

/// Whether the word is reached, and its row stays the same when a row is joined to it.
fn takes_in(old: &Option<Row>, given: &Row, head: bool, argument: u32) -> bool
    requires old { IfSome old.now IsRow }
    requires given { IsRow given.now }
    ensures { Decides result (IsTakenIn head argument old.now given.now) }
{
    match old {
        Some(row) => row.takes_in(given, head, argument),
        None => false,
    }
}

/// Joins a row to the row of a word. Returns whether that grew.
fn put(rows: &mut [Option<Row>], place: usize, given: &Row, head: bool, argument: u32) -> bool
    requires within { place < length rows.old }
    requires rows { (row : Row) → row_at rows.old place ≡ Some row → IsRow row }
    requires given { IsRow given.now }
    ensures { IsPut head argument rows.old place given.now rows.new result }
{
    if takes_in(&rows[place], given, head, argument) {
        return false;
    }
    let joined = joined_to(&rows[place], given, head, argument);
    rows[place] = Some(joined);
    true
}

/// Gives a row to the word at an address, if there is one. Returns where the sweep continues: at that word if its row grew and
/// it is before the cursor, else at the cursor.
#[tactic(auto, using(crate::proofs::TableLemmas::sweeping))]
fn give(
    program: &Program,
    task: &TaskDecl,
    heads: &[bool],
    rows: &mut [Option<Row>],
    pending: &mut [bool],
    address: Option<u32>,
    given: &Option<Row>,
    cursor: usize,
) -> usize
    requires heads { HasHeads program.now.code heads.now }
    requires shape { IsTable program.now task.now rows.old }
    requires marks { length pending.old ≡ length rows.old }
    requires given { IfSome given.now IsRow }
    ensures { IsRowGiven program.now task.now rows.old pending.old address given.now cursor rows.new pending.new result }
{
    let (Some(address), Some(row)) = (address, given) else {
        return cursor;
    };
    let Some(place) = place_of(address, rows.len()) else {
        return cursor;
    };
    if !put(rows, place, row, heads[place], task.arg) {
        return cursor;
    }
    pending[place] = true;
    if place < cursor { place } else { cursor }
}

/// The instruction that a code word is, if it is one.
#[tactic(auto, using(std::proofs::lemmas::Option::gets))]
pub(crate) fn instr_at(program: &Program, place: usize) -> Option<Instr>
    requires { place < length program.now.code }
    ensures value { result ≡ instr_of program.now.code place }
    ensures fitting { IfSome result (λ i. HasRegisters i × IsEncodable i) }
{
    decode(program.code.as_slice()[place])
}

/// The successors of a code word that is reached with a row.
fn successors_at(program: &Program, place: usize, row: &Row, instr: &Instr) -> Successors
    requires program { IsProgram program.now }
    requires within { place < length program.now.code }
    requires row { IsRow row.now }
    requires registers { HasRegisters instr.now }
    requires fitting { IsEncodable instr.now }
    ensures value { result ≡ successors (length program.now.locks) (address_at place) row.now instr.now }
    ensures next { IfSome result.next IsRow }
    ensures target { IfSome result.target IsRow }
{
    row.successors(program.locks.len() as u32, address(place), instr)
}

/// Takes the row of a leader through its block, and gives it to the successors of the block's last word. Returns where the
/// sweep continues.
fn pass_block(
    program: &Program,
    task: &TaskDecl,
    heads: &[bool],
    leaders: &[bool],
    rows: &mut [Option<Row>],
    pending: &mut [bool],
    at: usize,
) -> usize
    requires program { IsProgram program.now }
    requires heads { HasHeads program.now.code heads.now }
    requires leaders { HasLeaders program.now task.now leaders.now }
    requires within { at < length program.now.code }
    requires leader { is_leader leaders.now at ≡ true }
    requires swept { IsSwept program.now task.now leaders.now rows.old pending.old at }
    ensures swept { IsSwept program.now task.now leaders.now rows.new pending.new result }
    ensures grows { IsTableUnder rows.old rows.new }
    ensures next { result ≤ at + 1 }
    ensures room_falls { table_room rows.new ≤ table_room rows.old }
    ensures room_less { result ≤ at → table_room rows.new < table_room rows.old }
{
    pending[at] = false;
    let Some(row) = &rows[at] else {
        return at + 1;
    };
    let last = last_of_block(program, leaders, at, row);
    let Some(instr) = instr_at(program, last.place) else {
        return at + 1;
    };
    let pc = address(last.place);
    let next = successors_at(program, last.place, &last.row, &instr);
    let cursor = give(
        program,
        task,
        heads,
        rows,
        pending,
        Some(pc + 4),
        &next.next,
        at + 1,
    );
    give(
        program,
        task,
        heads,
        rows,
        pending,
        target(pc, &instr),
        &next.target,
        cursor,
    )
}

/// Passes on the block of a leader that is pending. Returns where the sweep continues. `pass_block` is a function of its own
/// because its rows need much stack: room for them is prepared at each call of it, and most words lead no block.
fn pass(
    program: &Program,
    task: &TaskDecl,
    heads: &[bool],
    leaders: &[bool],
    rows: &mut [Option<Row>],
    pending: &mut [bool],
    at: usize,
) -> usize
    requires program { IsProgram program.now }
    requires heads { HasHeads program.now.code heads.now }
    requires leaders { HasLeaders program.now task.now leaders.now }
    requires within { at < length program.now.code }
    requires swept { IsSwept program.now task.now leaders.now rows.old pending.old at }
    ensures swept { IsSwept program.now task.now leaders.now rows.new pending.new result }
    ensures grows { IsTableUnder rows.old rows.new }
    ensures next { result ≤ at + 1 }
    ensures room_falls { table_room rows.new ≤ table_room rows.old }
    ensures room_less { result ≤ at → table_room rows.new < table_room rows.old }
{
    if !leaders[at] {
        return at + 1;
    }
    if !pending[at] {
        return at + 1;
    }
    pass_block(program, task, heads, leaders, rows, pending, at)
}

/// Sweeps over the blocks from the task's entry on, upwards, and back to an earlier leader whose row grew, until none is
/// pending.
fn sweep(
    program: &Program,
    task: &TaskDecl,
    heads: &[bool],
    leaders: &[bool],
    rows: &mut [Option<Row>],
    pending: &mut [bool],
)
    requires program { IsProgram program.now }
    requires argument { task.now.arg < 2 ^ 32 }
    requires heads { HasHeads program.now.code heads.now }
    requires leaders { HasLeaders program.now task.now leaders.now }
    requires rows { rows.old ≡ replicate (length program.now.code) None }
    requires pending { pending.old ≡ replicate (length program.now.code) false }
    ensures { IsLeastTable program.now task.now (filled program.now leaders.now rows.new) }
{
    let words = rows.len();
    let start = Some(Row::start(task));
    let mut at = give(
        program,
        task,
        heads,
        rows,
        pending,
        Some(task.entry),
        &start,
        words,
    );
    while at < words {
        at = pass(program, task, heads, leaders, rows, pending, at);
    }
}

/// Makes empty rows those of a task's least closed table at the leaders of its blocks.
fn fill_rows(
    alloc: Global,
    program: &Program,
    task: &TaskDecl,
    heads: &[bool],
    leaders: &[bool],
    rows: &mut [Option<Row>],
) -> Result<(), Memory>
    requires program { IsProgram program.now }
    requires heads { HasHeads program.now.code heads.now }
    requires leaders { HasLeaders program.now task.now leaders.now }
    requires argument { task.now.arg < 2 ^ 32 }
    requires rows { rows.old ≡ replicate (length program.now.code) None }
    ensures { OnOk result (IsLeastTable program.now task.now (filled program.now leaders.now rows.new)) }
{
    let mut pending: Vec<bool> = vec![in alloc; false; heads.len()]?;
    sweep(program, task, heads, leaders, rows, pending.as_mut_slice());
    Ok(())
}

/// The rows of a task's least closed table at the leaders of its blocks; the other rows follow from these.
///
/// A block is passed again only if its leader's row grew. README.md says how often that can be.
///
/// # Errors
/// `Memory` where there is no room for the table.
pub(crate) fn least_table(
    alloc: Global,
    program: &Program,
    task: &TaskDecl,
    heads: &[bool],
    leaders: &[bool],
) -> Result<Vec<Option<Row>>, Memory>
    requires program { IsProgram program.now }
    requires heads { HasHeads program.now.code heads.now }
    requires leaders { HasLeaders program.now task.now leaders.now }
    ensures least { IfOk result (λ rows. IsLeastTable program.now task.now (filled program.now leaders.now rows.items)) }
    ensures words { IfOk result (λ rows. length rows.items ≡ length program.now.code) }
{
    let words = heads.len();
    // for the proof alone: the read says that the argument has 32 bits
    let _argument = task.arg;
    let mut rows: Vec<Option<Row>> = vec![in alloc; None; words]?;
    fill_rows(alloc, program, task, heads, leaders, rows.as_mut_slice())?;
    Ok(rows)
}

/// Marks the target of a branch or JAL if that is the same word or an earlier one.
fn mark(program: &Program, heads: &mut [bool], place: usize)
    requires program { IsProgram program.now }
    requires words { length heads.old ≡ length program.now.code }
    requires within { place < length program.now.code }
    requires marked { AreMarked program.now.code place heads.old }
    ensures words { length heads.new ≡ length heads.old }
    ensures marked { AreMarked program.now.code (place + 1) heads.new }
{
    let Some(instr) = instr_at(program, place) else {
        return;
    };
    let Some(aim) = target(address(place), &instr) else {
        return;
    };
    let Some(head) = place_of(aim, heads.len()) else {
        return;
    };
    if head <= place {
        heads[head] = true;
    }
}

/// Marks all heads.
fn mark_all(program: &Program, heads: &mut [bool])
    requires program { IsProgram program.now }
    requires heads { heads.old ≡ replicate (length program.now.code) false }
    ensures { HasHeads program.now.code heads.new }
{
    for place in 0..heads.len() {
        mark(program, heads, place);
    }
}

/// Which code words are heads.
///
/// # Errors
/// `Memory` where there is no room for the marks.
pub(crate) fn heads(alloc: Global, program: &Program) -> Result<Vec<bool>, Memory>
    requires { IsProgram program.now }
    ensures { IfOk result (λ heads. HasHeads program.now.code heads.items) }
{
    let words = program.code.len();
    let mut heads: Vec<bool> = vec![in alloc; false; words]?;
    mark_all(program, heads.as_mut_slice());
    Ok(heads)
}
