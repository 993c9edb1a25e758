use crate::reg::Reg;

/// What an instruction computes from two values of 32 bits.
#[derive(Clone, Copy, PartialEq, Eq)]
pub enum AluOp {
    /// The sum, modulo 2^32.
    Add,
    /// The difference, modulo 2^32.
    Sub,
    /// The first value shifted left by the low five bits of the second.
    Sll,
    /// 1 where the first value is less, both with sign, else 0.
    Slt,
    /// 1 where the first value is less, both without sign, else 0.
    Sltu,
    /// Exclusive or, bit by bit.
    Xor,
    /// The first value shifted right by the low five bits of the second; zeros come in.
    Srl,
    /// The first value shifted right by the low five bits of the second; copies of its sign come in.
    Sra,
    /// Or, bit by bit.
    Or,
    /// And, bit by bit.
    And,
}

/// When a branch is taken, by its two values.
#[derive(Clone, Copy, PartialEq, Eq)]
pub enum Cond {
    /// They are equal.
    Eq,
    /// They differ.
    Ne,
    /// The first is less, both with sign.
    Lt,
    /// The first is not less, both with sign.
    Ge,
    /// The first is less, both without sign.
    Ltu,
    /// The first is not less, both without sign.
    Geu,
}

/// How many bytes a load or a store moves, and how a load fills the register.
#[derive(Clone, Copy, PartialEq, Eq)]
pub enum Width {
    /// One byte, sign-extended by a load.
    B,
    /// Two bytes, sign-extended by a load.
    H,
    /// Four bytes.
    W,
    /// One byte, zero-extended; of loads alone.
    Bu,
    /// Two bytes, zero-extended; of loads alone.
    Hu,
}

/// An instruction of RV32I. Its numbers are the values that the instruction means, offsets in bytes; `fits` tells whether they
/// can be encoded.
#[derive(Clone, Copy, PartialEq, Eq)]
pub enum Instr {
    /// `rd` becomes `imm` times 4096; `imm` is the 20-bit number of bits 31 to 12.
    Lui {
        rd: Reg,
        imm: u32,
    },
    /// `rd` becomes pc plus `imm` times 4096; `imm` is the 20-bit number of bits 31 to 12.
    Auipc {
        rd: Reg,
        imm: u32,
    },
    /// A jump to pc plus `offset`; `rd` becomes pc plus 4.
    Jal {
        rd: Reg,
        offset: i32,
    },
    /// A jump to `base` plus `offset`, with bit 0 cleared; `rd` becomes pc plus 4.
    Jalr {
        rd: Reg,
        base: Reg,
        offset: i32,
    },
    /// A jump to pc plus `offset` if `cond` holds of `a` and `b`.
    Branch {
        cond: Cond,
        a: Reg,
        b: Reg,
        offset: i32,
    },
    /// `rd` becomes the value that is read at `base` plus `offset`.
    Load {
        width: Width,
        rd: Reg,
        base: Reg,
        offset: i32,
    },
    /// The low bytes of `src` are written at `base` plus `offset`.
    Store {
        width: Width,
        src: Reg,
        base: Reg,
        offset: i32,
    },
    /// `rd` becomes `op` of `a` and the immediate.
    OpImm {
        op: AluOp,
        rd: Reg,
        a: Reg,
        imm: i32,
    },
    /// `rd` becomes `op` of `a` and `b`.
    Op {
        op: AluOp,
        rd: Reg,
        a: Reg,
        b: Reg,
    },
    /// Orders memory accesses.
    Fence,
    /// A call of the environment (ECALL).
    Ecall,
    /// A stop for a debugger (EBREAK).
    Ebreak,
}
