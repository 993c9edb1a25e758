//! What operations and branch tests compute, on values of 32 bits.
ghost use Rattle.std.specs.Prelude.{◌≡◌};
ghost use Rattle.rv_isa.specs.Meaning.{alu_of, taken_of};

use crate::instr::{AluOp, Cond};

/// The result of an operation on two values of 32 bits.
///
/// Sums and differences wrap, and a shift takes the low five bits of `b` ("Integer Computational Instructions" in the
/// RISC-V unprivileged manual).
pub fn alu(op: AluOp, a: u32, b: u32) -> u32
    ensures { result ≡ alu_of op a b }
{
    match op {
        AluOp::Add => a.wrapping_add(b),
        AluOp::Sub => a.wrapping_sub(b),
        AluOp::Sll => a << (b & 0x1f),
        AluOp::Slt => u32::from(a.cast_signed() < b.cast_signed()),
        AluOp::Sltu => u32::from(a < b),
        AluOp::Xor => a ^ b,
        AluOp::Srl => a >> (b & 0x1f),
        AluOp::Sra => (a.cast_signed() >> (b & 0x1f)).cast_unsigned(),
        AluOp::Or => a | b,
        AluOp::And => a & b,
    }
}

/// Whether a branch on two values of 32 bits is taken ("Conditional Branches" in the RISC-V unprivileged manual).
pub fn taken(cond: Cond, a: u32, b: u32) -> bool
    ensures { result ≡ taken_of cond a b }
{
    match cond {
        Cond::Eq => a == b,
        Cond::Ne => a != b,
        Cond::Lt => a.cast_signed() < b.cast_signed(),
        Cond::Ge => a.cast_signed() >= b.cast_signed(),
        Cond::Ltu => a < b,
        Cond::Geu => a >= b,
    }
}
