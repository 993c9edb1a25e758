//! The fields of a word, and the immediates that it holds.
ghost use Rattle.std.specs.Prelude.{◌≡◌, ◌*◌, ◌+◌, ◌^◌, ◌-ℤ◌, ◌<◌, ◌≤◌, pos, nat_lt, if◌then◌else◌};
ghost use Rattle.rv_isa.specs.Word.{bits, imm_i, imm_s, imm_b, imm_u, imm_j};
ghost use Rattle.rv_isa.specs.Row.{opcode, rd, funct3, rs1, rs2, funct7};

use crate::reg::Reg;

/// The `count` bits of `value` from bit `low` upward.
#[tactic(auto, unfolding(crate::specs::Word::bits))]
pub(crate) fn bits(value: u32, low: u32, count: u32) -> u32
    requires low { low < 32 }
    requires count { count < 32 }
    ensures value { result ≡ bits value low count }
    ensures below { result < 2 ^ count }
{
    (value >> low) & ((1 << count) - 1)
}

pub(crate) fn opcode(word: u32) -> u32
    ensures { result ≡ opcode word }
{
    bits(word, 0, 7)
}

pub(crate) fn funct3(word: u32) -> u32
    ensures { result ≡ funct3 word }
{
    bits(word, 12, 3)
}

pub(crate) fn funct7(word: u32) -> u32
    ensures { result ≡ funct7 word }
{
    bits(word, 25, 7)
}

pub(crate) fn rd(word: u32) -> Reg
    ensures { result ≡ rd word }
{
    Reg::of_field(bits(word, 7, 5))
}

pub(crate) fn rs1(word: u32) -> Reg
    ensures { result ≡ rs1 word }
{
    Reg::of_field(bits(word, 15, 5))
}

pub(crate) fn rs2(word: u32) -> Reg
    ensures { result ≡ rs2 word }
{
    Reg::of_field(bits(word, 20, 5))
}

/// The amount of a shift by an immediate.
pub(crate) fn amount(word: u32) -> i32
    ensures { result ≡ pos (rs2 word) }
{
    bits(word, 20, 5) as i32
}

/// The number that a field stands for in two's complement; `half` is the weight of its sign bit.
fn twos_complement(field: u32, half: u32) -> i32
    requires sign { half ≤ 0x10_0000 }
    requires within { field < half + half }
    ensures { result ≡ (if nat_lt field half then pos field else (pos field -ℤ pos (half + half))) }
{
    if field < half {
        field as i32
    } else {
        field as i32 - (half + half) as i32
    }
}

/// The immediate of the I format.
#[tactic(auto, unfolding(crate::specs::Word::sign_extended))]
pub(crate) fn i_immediate(word: u32) -> i32
    ensures { result ≡ imm_i word }
{
    twos_complement(bits(word, 20, 12), 0x800)
}

/// The immediate of the S format.
#[tactic(auto, unfolding(crate::specs::Word::sign_extended))]
pub(crate) fn s_immediate(word: u32) -> i32
    ensures { result ≡ imm_s word }
{
    twos_complement((bits(word, 25, 7) << 5) + bits(word, 7, 5), 0x800)
}

/// The immediate of the B format.
#[tactic(auto, unfolding(crate::specs::Word::sign_extended))]
pub(crate) fn b_immediate(word: u32) -> i32
    ensures { result ≡ imm_b word }
{
    let field = (bits(word, 31, 1) << 12)
        + (bits(word, 7, 1) << 11)
        + (bits(word, 25, 6) << 5)
        + (bits(word, 8, 4) << 1);
    twos_complement(field, 0x1000)
}

/// The number of the U format, for bits 31 to 12.
pub(crate) fn u_immediate(word: u32) -> u32
    ensures { result ≡ imm_u word }
{
    bits(word, 12, 20)
}

/// The immediate of the J format.
#[tactic(auto, unfolding(crate::specs::Word::sign_extended))]
pub(crate) fn j_immediate(word: u32) -> i32
    ensures { result ≡ imm_j word }
{
    let field = (bits(word, 31, 1) << 20)
        + (bits(word, 12, 8) << 12)
        + (bits(word, 20, 1) << 11)
        + (bits(word, 21, 10) << 1);
    twos_complement(field, 0x10_0000)
}
