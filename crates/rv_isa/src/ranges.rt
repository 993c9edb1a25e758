//! Which instructions have an encoding.
ghost use Rattle.std.specs.Prelude.{◌≡◌, ◌↔◌, IsTrue, ℤ, pos, neg_ℤ, ◌≤ℤ◌, ◌<ℤ◌};
ghost use Rattle.rv_isa.specs.Range.{IsEncodable, IsSigned, IsOffset, IsAmount, IsOperand};
ghost use Rattle.rv_isa.specs.Table.{is_shift, has_immediate, is_stored};

use crate::instr::{AluOp, Instr, Width};

/// Whether the instruction has an encoding.
///
/// It has one where the immediate of I and S formats is from -2048 to 2047, that of a branch even and from -4096 to
/// 4094, that of JAL even and from -1048576 to 1048574, the number of LUI and AUIPC from 0 to 1048575, and the amount
/// of a shift from 0 to 31; where a store has width B, H or W; and where an operation with an immediate is not Sub.
pub fn fits(instr: &Instr) -> bool
    ensures { IsTrue result ↔ IsEncodable instr.now }
{
    match *instr {
        Instr::Lui { imm, .. } | Instr::Auipc { imm, .. } => imm < 0x10_0000,
        Instr::Jal { offset, .. } => fits_jump(offset),
        Instr::Jalr { offset, .. } | Instr::Load { offset, .. } => fits_signed(offset),
        Instr::Branch { offset, .. } => fits_branch(offset),
        Instr::Store { width, offset, .. } => is_stored(width) && fits_signed(offset),
        Instr::OpImm { op, imm, .. } => fits_operand(op, imm),
        Instr::Op { .. } | Instr::Fence | Instr::Ecall | Instr::Ebreak => true,
    }
}

fn fits_signed(number: i32) -> bool
    ensures { IsTrue result ↔ IsSigned 12 number }
{
    -2048 <= number && number < 2048
}

#[tactic(auto, unfolding(crate::specs::Word::bits))]
fn fits_branch(offset: i32) -> bool
    ensures { IsTrue result ↔ IsOffset 13 offset }
{
    -4096 <= offset && offset < 4096 && offset.cast_unsigned() & 1 == 0
}

#[tactic(auto, unfolding(crate::specs::Word::bits))]
fn fits_jump(offset: i32) -> bool
    ensures { IsTrue result ↔ IsOffset 21 offset }
{
    -0x10_0000 <= offset && offset < 0x10_0000 && offset.cast_unsigned() & 1 == 0
}

fn fits_operand(op: AluOp, number: i32) -> bool
    ensures { IsTrue result ↔ (IsTrue (has_immediate op) × IsOperand (is_shift op) number) }
{
    match op {
        AluOp::Sub => false,
        AluOp::Sll | AluOp::Srl | AluOp::Sra => 0 <= number && number < 32,
        AluOp::Add | AluOp::Slt | AluOp::Sltu | AluOp::Xor | AluOp::Or | AluOp::And => fits_signed(
            number,
        ),
    }
}

fn is_stored(width: Width) -> bool
    ensures { result ≡ is_stored width }
{
    match width {
        Width::B | Width::H | Width::W => true,
        Width::Bu | Width::Hu => false,
    }
}
