//! Sentences on traps.
ghost use Rattle.std.specs.Prelude.{◌≡◌, ◌++◌, OnOk};
ghost use Rattle.sentences.specs.Told.{AreTold};
ghost use Rattle.sentences.specs.Endings.{accesses_at, said_before, said_behind, remedy, data_text, value_text, trap_text, remedy_text, mending_text, trap_sentences};
ghost use Rattle.sentences.specs.Uses.{instruction_access};

use crate::outside::push_outside;
use crate::told::ToldEffects;
use crate::uses::{Access, instruction_access};
use dn_base::Memory;
use region_table::Program;
use rv_core::TrapKind;
use text_pieces::{push, push_decimal, push_hexadecimal};
use text_places::{Located, push_address, push_lock};

fn accesses_at(access: Option<Access>) -> &'static [u8]
    ensures { result.now ≡ accesses_at access }
{
    match access {
        Some(Access::Load) => b"A load from the address ",
        Some(Access::Store) => b"A store to the address ",
        None => b"A load or store at the address ",
    }
}

/// What is said before the value of a trap at an instruction that accesses memory so.
fn said_before(kind: TrapKind, access: Option<Access>) -> &'static [u8]
    ensures { result.now ≡ said_before kind access }
{
    match kind {
        TrapKind::Fetch => b"There is no code word at the address ",
        TrapKind::Illegal => b"The code word ",
        TrapKind::Target => b"A jump to the address ",
        TrapKind::Misaligned | TrapKind::Outside => accesses_at(access),
        TrapKind::Break => b"An `ebreak`",
        TrapKind::Call => b"An `ecall` with ",
        TrapKind::NoLock => b"An `ecall` that asks for lock ",
        TrapKind::Held => b"The task acquires ",
        TrapKind::NotHeld => b"The task releases ",
        TrapKind::HeldEnd => b"The task ends while it holds ",
    }
}

/// What is said after the value of a trap.
fn said_behind(kind: TrapKind) -> &'static [u8]
    ensures { result.now ≡ said_behind kind }
{
    match kind {
        TrapKind::Fetch =>
            b": the task ran on behind its last instruction, or jumped out of the code.",
        TrapKind::Illegal => b" is no instruction.",
        TrapKind::Target => b", which isn't a multiple of 4, as addresses of instructions are.",
        TrapKind::Misaligned => b", which isn't a multiple of the width.",
        TrapKind::Outside => b" isn't allowed here.",
        TrapKind::Break => b" ends its task by a trap.",
        TrapKind::Call => b" in a7.",
        TrapKind::NoLock => b", which the text doesn't declare.",
        TrapKind::Held => b", which it holds already.",
        TrapKind::NotHeld => b", which it doesn't hold.",
        TrapKind::HeldEnd => b".",
    }
}

/// How to fix a trap.
fn remedy(kind: TrapKind) -> &'static [u8]
    ensures { result.now ≡ remedy kind }
{
    match kind {
        TrapKind::Fetch => b"End the task by `li a7, 0` and `ecall`.",
        TrapKind::Illegal => b"Only `.raw` makes such a word: write the instruction by its name.",
        TrapKind::Target => b"Jump to a label.",
        TrapKind::Misaligned =>
            b"`lw` and `sw` need a multiple of 4, and `lh`, `lhu` and `sh` an even address.",
        TrapKind::Outside =>
            b"Declare the word by an effect behind the task's line, or correct the address.",
        TrapKind::Break => b"Leave it out, or end the task by `li a7, 0` and `ecall`.",
        TrapKind::Call =>
            b"0 ends the task, 1 acquires the lock whose number is in a0, and 2 releases it.",
        TrapKind::NoLock =>
            b"Locks are numbered from 0 in the order of their `.lock` lines; the number is in a0.",
        TrapKind::Held => b"Release it first, or leave this acquire out.",
        TrapKind::NotHeld => b"Acquire it first, or leave this release out.",
        TrapKind::HeldEnd => b"Release it first, by `li a7, 2` and `ecall` with its number in a0.",
    }
}

#[tactic(auto, unfolding(crate::specs::Endings::data_text))]
fn push_data(out: &mut Vec<u8>, program: &Program, address: u32) -> Result<(), Memory>
    ensures { OnOk result (out.new.items ≡ out.old.items ++ data_text program.now address) }
{
    push_hexadecimal(out, address)?;
    push(out, b" (")?;
    push_address(out, program, address)?;
    push(out, b")")
}

/// Adds the value of a trap by its meaning: an address, a code word, a number, or a lock.
fn push_value(
    out: &mut Vec<u8>,
    program: &Program,
    kind: TrapKind,
    value: u32,
) -> Result<(), Memory>
    ensures { OnOk result (out.new.items ≡ out.old.items ++ value_text program.now kind value) }
{
    match kind {
        TrapKind::Fetch | TrapKind::Illegal | TrapKind::Target => push_hexadecimal(out, value),
        TrapKind::Misaligned | TrapKind::Outside => push_data(out, program, value),
        TrapKind::Break => Ok(()),
        TrapKind::Call | TrapKind::NoLock => push_decimal(out, value),
        TrapKind::Held | TrapKind::NotHeld | TrapKind::HeldEnd => push_lock(
            out,
            program.locks.as_slice(),
            value as usize,
        ),
    }
}

/// Adds why a task trapped.
#[tactic(auto, unfolding(crate::specs::Endings::trap_text))]
fn push_trap_line(
    out: &mut Vec<u8>,
    program: &Program,
    kind: TrapKind,
    access: Option<Access>,
    value: u32,
) -> Result<(), Memory>
    ensures { OnOk result (out.new.items ≡ out.old.items ++ trap_text program.now kind access value) }
{
    push(out, b"  ")?;
    push(out, said_before(kind, access))?;
    push_value(out, program, kind, value)?;
    push(out, said_behind(kind))?;
    push(out, b"\n")
}

/// Adds what to do.
#[tactic(auto, unfolding(crate::specs::Endings::remedy_text))]
fn push_remedy(out: &mut Vec<u8>, kind: TrapKind) -> Result<(), Memory>
    ensures { OnOk result (out.new.items ≡ out.old.items ++ remedy_text kind) }
{
    push(out, b"  ")?;
    push(out, remedy(kind))?;
    push(out, b"\n")
}

/// Adds how to fix a trap; and before that, where a load or store isn't allowed, why.
fn push_mending<'a>(
    out: &mut Vec<u8>,
    text: &[u8],
    effects: &ToldEffects<'a>,
    located: &'a Located,
    task: (u32, u32),
    kind: TrapKind,
    access: Option<Access>,
    value: u32,
) -> Result<(), Memory>
    requires { AreTold text.now effects.now }
    ensures { OnOk result (out.new.items ≡ out.old.items ++ mending_text text.now located.now task.0 task.1 kind access value) }
{
    match (kind, access) {
        (TrapKind::Outside, Some(access)) => {
            push_outside(out, text, effects, located, task, access, value)
        }
        _ => push_remedy(out, kind),
    }
}

/// Adds why the task of this phase and core trapped at an address, and how to fix it.
pub(crate) fn push_trap<'a>(
    out: &mut Vec<u8>,
    text: &[u8],
    effects: &ToldEffects<'a>,
    located: &'a Located,
    task: (u32, u32),
    kind: TrapKind,
    pc: u32,
    value: u32,
) -> Result<(), Memory>
    requires { AreTold text.now effects.now }
    ensures { OnOk result (out.new.items ≡ out.old.items ++ trap_sentences text.now located.now task.0 task.1 kind (instruction_access located.now.program pc) value) }
{
    let access = instruction_access(&located.program, pc);
    push_trap_line(out, &located.program, kind, access, value)?;
    push_mending(out, text, effects, located, task, kind, access, value)
}
