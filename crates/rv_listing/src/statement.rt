//! How a statement is written.
ghost use Rattle.std.specs.Prelude.{◌≡◌, ◌++◌, map, OnOk};
ghost use Rattle.src_text.specs.Laws.{ended};
ghost use Rattle.rv_listing.specs.Statement.{register, more_operands, operands, statement, operand_text};

use dn_base::Memory;
use rv_isa::Reg;
use text_pieces::{push, push_decimal, push_hexadecimal, push_signed};

/// An operand of a statement.
#[derive(Clone, Copy)]
pub(crate) enum Operand<'a> {
    Name(&'a [u8]),
    Register(Reg),
    /// A number in decimal digits.
    Number(u32),
    /// A number in decimal digits, after `-` where it is below 0.
    Offset(i32),
    /// A number in `0x` and eight hexadecimal digits.
    Word(u32),
    /// An offset, and a register in parentheses.
    Address(i32, Reg),
}

/// Adds the name of a register.
fn push_register(out: &mut Vec<u8>, reg: Reg) -> Result<(), Memory>
    ensures { OnOk result (out.new.items ≡ out.old.items ++ register reg) }
{
    push(out, b"x")?;
    push_decimal(out, u32::from(reg.number()))
}

/// Adds an operand.
fn push_operand(out: &mut Vec<u8>, operand: &Operand<'_>) -> Result<(), Memory>
    ensures { OnOk result (out.new.items ≡ out.old.items ++ operand_text operand.now) }
{
    match operand {
        Operand::Name(name) => push(out, name),
        Operand::Register(reg) => push_register(out, *reg),
        Operand::Number(number) => push_decimal(out, *number),
        Operand::Offset(number) => push_signed(out, *number),
        Operand::Word(number) => push_hexadecimal(out, *number),
        Operand::Address(offset, base) => {
            push_signed(out, *offset)?;
            push(out, b"(")?;
            push_register(out, *base)?;
            push(out, b")")
        }
    }
}

/// Adds operands, each after a comma and a blank.
fn push_more(out: &mut Vec<u8>, operands: &[Operand<'_>]) -> Result<(), Memory>
    ensures { OnOk result (out.new.items ≡ out.old.items ++ more_operands (map operand_text operands.now)) }
{
    for operand in operands {
        push(out, b", ")?;
        push_operand(out, operand)?;
    }
    Ok(())
}

/// Adds the operands of a statement.
fn push_operands(out: &mut Vec<u8>, given: &[Operand<'_>]) -> Result<(), Memory>
    ensures { OnOk result (out.new.items ≡ out.old.items ++ operands (map operand_text given.now)) }
{
    match given {
        [] => Ok(()),
        [first, rest @ ..] => {
            push(out, b" ")?;
            push_operand(out, first)?;
            push_more(out, rest)
        }
    }
}

/// Adds a statement.
pub(crate) fn push_statement(
    out: &mut Vec<u8>,
    word: &[u8],
    operands: &[Operand<'_>],
) -> Result<(), Memory>
    ensures { OnOk result (out.new.items ≡ out.old.items ++ statement word.now (map operand_text operands.now)) }
{
    push(out, word)?;
    push_operands(out, operands)
}

/// Adds a line of one statement.
pub(crate) fn push_line(
    out: &mut Vec<u8>,
    word: &[u8],
    operands: &[Operand<'_>],
) -> Result<(), Memory>
    ensures { OnOk result (out.new.items ≡ out.old.items ++ ended (statement word.now (map operand_text operands.now))) }
{
    push_statement(out, word, operands)?;
    push(out, b"\n")
}
