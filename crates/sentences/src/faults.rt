//! Sentences on what is wrong with a part of a line.
ghost use Rattle.std.specs.Prelude.{◌≡◌, ◌++◌, OnOk};
ghost use Rattle.sentences.specs.Faults.{sort_text, wanted_text, example_text, operands_text, operand_sort_text, found_if, wanted_operand, is_operand, operand_text, bounds_text, isnt_number, is_too_far, range_text, offset_text, index_text, interval_text, declared_as, again_text, taken_text, is_wanted, undeclared_text, unfit_text, plain_cause, cause_text, finding_text};

use crate::examples::{Form, operands_as};
use crate::findings::{Cause, Finding, Wanted};
use crate::known::Sort;
use crate::marks::{push_mark_line, push_part};
use crate::wrong_operands::{OperandSort, WrongOperand};
use dn_base::Memory;
use text_pieces::Piece::{Bytes, Number};
use text_pieces::{push, push_decimal, push_long, push_pieces, push_signed};

/// What a name is declared as.
fn sort_text(sort: Sort) -> &'static [u8]
    ensures { result.now ≡ sort_text sort }
{
    match sort {
        Sort::Label => b"a label.",
        Sort::Region { .. } => b"a region.",
        Sort::Lock => b"a lock.",
    }
}

/// What a name is wanted as.
fn wanted_text(wanted: Wanted) -> &'static [u8]
    ensures { result.now ≡ wanted_text wanted }
{
    match wanted {
        Wanted::Label => b"a label, and ",
        Wanted::Address => b"a label or a region, and ",
        Wanted::Region => b"a region, and ",
        Wanted::Lock => b"a lock, and ",
    }
}

#[tactic(auto, unfolding(crate::specs::Faults::example_text, crate::specs::Faults::has_operands))]
fn push_example(out: &mut Vec<u8>, form: Form) -> Result<(), Memory>
    ensures { OnOk result (out.new.items ≡ out.old.items ++ example_text form) }
{
    push_pieces(
        out,
        &[
            Bytes(b" has operands as in `"),
            Bytes(operands_as(form)),
            Bytes(b"`."),
        ],
    )
}

/// Adds which operands a word has.
fn push_operands(out: &mut Vec<u8>, form: Option<Form>) -> Result<(), Memory>
    ensures { OnOk result (out.new.items ≡ out.old.items ++ operands_text form) }
{
    match form {
        None => push(out, b" has other operands than these."),
        Some(Form::Nothing) => push(out, b" has no operands."),
        Some(form) => push_example(out, form),
    }
}

/// What an operand is, or is to be.
fn operand_sort_text(sort: OperandSort) -> &'static [u8]
    ensures { result.now ≡ operand_sort_text sort }
{
    match sort {
        OperandSort::Register => b"a register",
        OperandSort::Number => b"a number",
        OperandSort::Name => b"a name",
        OperandSort::Based => b"an offset with a register in parentheses",
    }
}

/// Adds what an operand is, if that is known.
#[tactic(auto, unfolding(crate::specs::Faults::found_text))]
fn push_found(out: &mut Vec<u8>, sort: Option<OperandSort>) -> Result<(), Memory>
    ensures { OnOk result (out.new.items ≡ out.old.items ++ found_if sort) }
{
    match sort {
        Some(sort) => push_pieces(out, &[Bytes(b". It is "), Bytes(operand_sort_text(sort))]),
        None => Ok(()),
    }
}

#[tactic(auto, unfolding(crate::specs::Faults::wanted_operand))]
fn push_wanted_operand(out: &mut Vec<u8>, sort: OperandSort, form: Form) -> Result<(), Memory>
    ensures { OnOk result (out.new.items ≡ out.old.items ++ wanted_operand sort form) }
{
    push(out, b", and ")?;
    push(out, operand_sort_text(sort))?;
    push(out, b" is wanted, as in `")?;
    push(out, operands_as(form))?;
    push(out, b"`.")
}

#[tactic(auto, unfolding(crate::specs::Faults::is_operand))]
fn push_is_operand(out: &mut Vec<u8>) -> Result<(), Memory>
    ensures { OnOk result (out.new.items ≡ out.old.items ++ is_operand) }
{
    push(out, b" is operand ")
}

/// Adds which operand is wrong, what it is, and what is wanted in its place.
#[tactic(auto, unfolding(crate::specs::Faults::operand_text))]
fn push_operand(out: &mut Vec<u8>, wrong: WrongOperand, form: Form) -> Result<(), Memory>
    ensures { OnOk result (out.new.items ≡ out.old.items ++ operand_text wrong form) }
{
    push_is_operand(out)?;
    push_decimal(out, wrong.number)?;
    push_found(out, wrong.found)?;
    push_wanted_operand(out, wrong.wanted, form)
}

#[tactic(auto, unfolding(crate::specs::Faults::bounds_text, crate::specs::Faults::bound_text))]
fn push_bounds(out: &mut Vec<u8>, low: i32, high: i32) -> Result<(), Memory>
    ensures { OnOk result (out.new.items ≡ out.old.items ++ bounds_text low high) }
{
    push_signed(out, low)?;
    push(out, b" to ")?;
    push_signed(out, high)?;
    push(out, b".")
}

#[tactic(auto, unfolding(crate::specs::Faults::isnt_number))]
fn push_isnt_number(out: &mut Vec<u8>) -> Result<(), Memory>
    ensures { OnOk result (out.new.items ≡ out.old.items ++ isnt_number) }
{
    push(out, b" isn't a number from ")
}

#[tactic(auto, unfolding(crate::specs::Faults::is_too_far))]
fn push_is_too_far(out: &mut Vec<u8>) -> Result<(), Memory>
    ensures { OnOk result (out.new.items ≡ out.old.items ++ is_too_far) }
{
    push(
        out,
        b" is out of reach: an offset is an even number of bytes from ",
    )
}

#[tactic(auto, unfolding(crate::specs::Faults::range_text))]
fn push_range(out: &mut Vec<u8>, low: i32, high: i32) -> Result<(), Memory>
    ensures { OnOk result (out.new.items ≡ out.old.items ++ range_text low high) }
{
    push_isnt_number(out)?;
    push_bounds(out, low, high)
}

#[tactic(auto, unfolding(crate::specs::Faults::offset_text))]
fn push_offset(out: &mut Vec<u8>, low: i32, high: i32) -> Result<(), Memory>
    ensures { OnOk result (out.new.items ≡ out.old.items ++ offset_text low high) }
{
    push_is_too_far(out)?;
    push_bounds(out, low, high)
}

#[tactic(auto, unfolding(crate::specs::Faults::index_text))]
fn push_index(out: &mut Vec<u8>, words: u64) -> Result<(), Memory>
    ensures { OnOk result (out.new.items ≡ out.old.items ++ index_text words) }
{
    push(out, b" isn't the index of a word of the region, which has ")?;
    push_long(out, words)?;
    push(out, b", counted from 0.")
}

#[tactic(auto, unfolding(crate::specs::Faults::interval_text))]
fn push_interval(out: &mut Vec<u8>, words: u64) -> Result<(), Memory>
    ensures { OnOk result (out.new.items ≡ out.old.items ++ interval_text words) }
{
    push(
        out,
        b" isn't an interval of the region's words for each of the tasks. The region has ",
    )?;
    push_long(out, words)?;
    push(
        out,
        b" words, counted from 0, and an interval has those from its first number to before its second, one at least.",
    )
}

/// Adds which line declares a name, and as what.
#[tactic(auto, unfolding(crate::specs::Faults::declared_as))]
fn push_declared_as(out: &mut Vec<u8>, line: u32, sort: Sort) -> Result<(), Memory>
    ensures { OnOk result (out.new.items ≡ out.old.items ++ declared_as line sort) }
{
    push(out, b"line ")?;
    push_decimal(out, line)?;
    push(out, b" declares it as ")?;
    push(out, sort_text(sort))
}

#[tactic(auto, unfolding(crate::specs::Faults::again_text))]
fn push_again(out: &mut Vec<u8>, line: u32, sort: Sort) -> Result<(), Memory>
    ensures { OnOk result (out.new.items ≡ out.old.items ++ again_text line sort) }
{
    push(out, b" is declared before: ")?;
    push_declared_as(out, line, sort)
}

#[tactic(auto, unfolding(crate::specs::Faults::taken_text, crate::specs::Faults::wants_core_of, crate::specs::Faults::has_task_there))]
fn push_taken(out: &mut Vec<u8>, line: u32) -> Result<(), Memory>
    ensures { OnOk result (out.new.items ≡ out.old.items ++ taken_text line) }
{
    push_pieces(
        out,
        &[
            Bytes(b" wants a core for which line "),
            Number(line),
            Bytes(b" declares a task in this phase."),
        ],
    )
}

#[tactic(auto, unfolding(crate::specs::Faults::is_wanted))]
fn push_wanted(out: &mut Vec<u8>, wanted: Wanted) -> Result<(), Memory>
    ensures { OnOk result (out.new.items ≡ out.old.items ++ is_wanted wanted) }
{
    push_pieces(out, &[Bytes(b" is wanted as "), Bytes(wanted_text(wanted))])
}

#[tactic(auto, unfolding(crate::specs::Faults::undeclared_text))]
fn push_undeclared(out: &mut Vec<u8>, wanted: Wanted) -> Result<(), Memory>
    ensures { OnOk result (out.new.items ≡ out.old.items ++ undeclared_text wanted) }
{
    push_wanted(out, wanted)?;
    push(out, b"no line declares it.")
}

#[tactic(auto, unfolding(crate::specs::Faults::unfit_text))]
fn push_unfit(out: &mut Vec<u8>, wanted: Wanted, line: u32, sort: Sort) -> Result<(), Memory>
    ensures { OnOk result (out.new.items ≡ out.old.items ++ unfit_text wanted line sort) }
{
    push_wanted(out, wanted)?;
    push_declared_as(out, line, sort)
}

/// What is wrong with a part of the line, where the sentence has no number and no name in it.
fn plain_cause(cause: Cause) -> &'static [u8]
    ensures { result.now ≡ plain_cause cause }
{
    match cause {
        Cause::Byte =>
            b" may not stand here. Outside of comments only blanks, letters, digits and `_ . , : ( ) -` may.",
        Cause::Word => b" is an unknown instruction or directive.",
        Cause::SecondLabel => b" is a second label: a line has one at most.",
        Cause::NoWord => b" stands where the word of a statement is to stand.",
        Cause::Dotted => b" may not be a label: a name that is declared doesn't begin with `.`.",
        Cause::NoNumber => b" is no number from -2147483648 to 4294967295.",
        Cause::Length => b" isn't a number from 1 to 65536.",
        Cause::Cores =>
            b" is the first core of these tasks: there is to be at least one task, and all are to be on cores from 0 to 15.",
        Cause::Address =>
            b" isn't the address of an instruction: it is to be a multiple of 4 from 0 to 4294967292.",
        Cause::NoPhase => b" stands before any `.phase`.",
        Cause::NoTask => b" stands behind no task of its phase.",
        Cause::CodeWords =>
            b" makes more than 16384 code words: `li` and `la` give two, and every other instruction one.",
        Cause::Regions =>
            b" makes more than 256 regions (4096 in version 2), or more than 65536 data words.",
        Cause::Locks => b" makes more than 32 locks.",
        Cause::Phases => b" makes more than 64 phases.",
        Cause::Tasks => b" makes more than 64 tasks.",
        _ => b"",
    }
}

/// Adds what is wrong with a part of the line; the sentence begins with the part.
fn push_cause(out: &mut Vec<u8>, cause: Cause) -> Result<(), Memory>
    ensures { OnOk result (out.new.items ≡ out.old.items ++ cause_text cause) }
{
    match cause {
        Cause::Operands { form } => push_operands(out, form),
        Cause::Operand { wrong, form, .. } => push_operand(out, wrong, form),
        Cause::Range { low, high } => push_range(out, low, high),
        Cause::Offset { low, high } => push_offset(out, low, high),
        Cause::Index { words } => push_index(out, words),
        Cause::Interval { words } => push_interval(out, words),
        Cause::Declared { sort, line } => push_again(out, line, sort),
        Cause::Undeclared { wanted } => push_undeclared(out, wanted),
        Cause::CoreInUse { line } => push_taken(out, line),
        Cause::Unfit { wanted, sort, line } => push_unfit(out, wanted, line, sort),
        Cause::Byte
        | Cause::Word
        | Cause::SecondLabel
        | Cause::NoWord
        | Cause::Dotted
        | Cause::NoNumber
        | Cause::Length
        | Cause::Cores
        | Cause::Address
        | Cause::NoPhase
        | Cause::NoTask
        | Cause::CodeWords
        | Cause::Regions
        | Cause::Locks
        | Cause::Phases
        | Cause::Tasks => push(out, plain_cause(cause)),
    }
}

/// Adds the mark under the part, and what is wrong with it.
#[tactic(auto, unfolding(crate::specs::Faults::finding_text))]
pub(crate) fn push_finding(
    out: &mut Vec<u8>,
    line: u32,
    bytes: &[u8],
    finding: Finding,
) -> Result<(), Memory>
    ensures { OnOk result (out.new.items ≡ out.old.items ++ finding_text line bytes.now finding) }
{
    push_mark_line(out, line, bytes, finding.part)?;
    push_part(out, bytes, finding.part)?;
    push_cause(out, finding.cause)?;
    push(out, b"\n")
}
