//! Whether a load or store that is reached with a row stays within what its task may use.
ghost use Rattle.std.specs.Prelude.{◌≡◌, ◌%◌, ◌<◌, ◌≤◌, Decides, length, IfOk};
ghost use Rattle.rv_core.specs.Address.{size_of};
ghost use Rattle.effect_prover.specs.Row.{IsRow};
ghost use Rattle.effect_prover.specs.Inside.{AreAllowed, addresses, IsInside};
ghost use Rattle.effect_prover.specs.Stretch.{may_use, AreUsableKept, IsLastMultiple, IsFirstMultiple};

use crate::range::Range;
use crate::row::Row;
use crate::usable::{Access, UsableSets, are_usable};
use dn_base::{MOST_WORDS, Memory};
use region_table::{FIRST_DATA_ADDRESS, Program, TaskDecl};
use rv_isa::{AluOp, Instr, Reg, Width};
use std::alloc::Global;

/// The greatest multiple of a width up to `hi`.
fn last_up_to(width: Width, hi: u32) -> u32
    ensures { IsLastMultiple width hi result }
{
    match width {
        Width::B | Width::Bu => hi,
        Width::H | Width::Hu => hi / 2 * 2,
        Width::W => hi / 4 * 4,
    }
}

/// The least multiple of a width from `lo` on, where `last` is one.
fn first_from(width: Width, lo: u32, last: u32) -> u32
    requires multiple { last % size_of width ≡ 0 }
    requires within { lo ≤ last }
    ensures first { IsFirstMultiple width lo result }
    ensures within { result ≤ last }
{
    match width {
        Width::B | Width::Bu => lo,
        Width::H | Width::Hu => (lo + 1) / 2 * 2,
        Width::W => (lo + 3) / 4 * 4,
    }
}

/// Whether the task may use the words at all addresses of a range that are multiples of a width.
#[tactic(auto, using(crate::proofs::StretchLemmas::allowing))]
fn are_allowed(
    alloc: Global,
    program: &Program,
    task: &TaskDecl,
    held: u32,
    access: Access,
    width: Width,
    range: Range,
    usable: &mut UsableSets,
) -> Result<bool, Memory>
    requires memory { length program.now.memory ≤ MOST_WORDS }
    requires kept { AreUsableKept task.now usable.old }
    ensures kept { AreUsableKept task.now usable.new }
    ensures answer { IfOk result (λ allowed. Decides allowed (AreAllowed (may_use access task.now held) (length program.now.memory) width range)) }
{
    let last = last_up_to(width, range.hi);
    if last < range.lo {
        return Ok(true);
    }
    let first = first_from(width, range.lo, last);
    if first < FIRST_DATA_ADDRESS {
        return Ok(false);
    }
    if ((last - FIRST_DATA_ADDRESS) / 4) as usize >= program.memory.len() {
        return Ok(false);
    }
    are_usable(
        alloc,
        access,
        task,
        held,
        (first - FIRST_DATA_ADDRESS) / 4,
        (last - FIRST_DATA_ADDRESS) / 4,
        usable,
    )
}

/// The addresses that a load or store with this base and offset can have.
fn addresses(row: &Row, base: Reg, offset: i32) -> Range
    requires { IsRow row.now }
    ensures { result ≡ addresses row.now base offset }
{
    Range::computed_with(AluOp::Add, row.range(base), offset.cast_unsigned())
}

/// Whether a load or store with this base and offset, which is reached with a row, is inside.
fn access_is_inside(
    alloc: Global,
    program: &Program,
    task: &TaskDecl,
    row: &Row,
    access: Access,
    width: Width,
    base: Reg,
    offset: i32,
    usable: &mut UsableSets,
) -> Result<bool, Memory>
    requires memory { length program.now.memory ≤ MOST_WORDS }
    requires row { IsRow row.now }
    requires kept { AreUsableKept task.now usable.old }
    ensures kept { AreUsableKept task.now usable.new }
    ensures answer { IfOk result (λ inside. Decides inside (AreAllowed (may_use access task.now row.now.held) (length program.now.memory) width (addresses row.now base offset))) }
{
    let range = addresses(row, base, offset);
    are_allowed(alloc, program, task, row.held, access, width, range, usable)
}

/// Whether an instruction that is reached with a row is inside. The words that the task may use may be kept.
///
/// # Errors
/// `Memory` where there is no room for the words that the task may use.
pub(crate) fn is_inside(
    alloc: Global,
    program: &Program,
    task: &TaskDecl,
    row: &Row,
    instr: &Instr,
    usable: &mut UsableSets,
) -> Result<bool, Memory>
    requires memory { length program.now.memory ≤ MOST_WORDS }
    requires row { IsRow row.now }
    requires kept { AreUsableKept task.now usable.old }
    ensures kept { AreUsableKept task.now usable.new }
    ensures answer { IfOk result (λ inside. Decides inside (IsInside program.now task.now row.now instr.now)) }
{
    match *instr {
        Instr::Load {
            width,
            base,
            offset,
            ..
        } => access_is_inside(
            alloc,
            program,
            task,
            row,
            Access::Load,
            width,
            base,
            offset,
            usable,
        ),
        Instr::Store {
            width,
            base,
            offset,
            ..
        } => access_is_inside(
            alloc,
            program,
            task,
            row,
            Access::Store,
            width,
            base,
            offset,
            usable,
        ),
        Instr::Jalr { .. } => Ok(false),
        _ => Ok(true),
    }
}
