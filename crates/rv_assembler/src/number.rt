//! Numbers of 32 bits, counts, and the ranges of numbers in statements.
ghost use Rattle.std.specs.Prelude.{◌≡◌, IsTrue, ℤ, pos, neg_ℤ, ◌≤ℤ◌, ◌<ℤ◌};
ghost use Rattle.rv_isa.specs.Range.{IsSigned, IsOffset, IsOperand};
ghost use Rattle.rv_isa.specs.Table.{is_shift, has_immediate};
ghost use Rattle.rv_assembler.specs.Number.{wrapped, is_upper, is_even, is_immediate, is_jump, is_branch, is_operand, is_length, is_interval};
ghost use Rattle.rv_assembler.specs.Gathering.{more};

use rv_isa::AluOp;

/// A number modulo 2^32.
pub(crate) fn wrap(number: i64) -> u32
    ensures { result ≡ wrapped number }
{
    (number.cast_unsigned() % 4294967296) as u32
}

/// A count increased by `by`. It stays at the greatest number of 32 bits, which is far above every limit.
pub(crate) fn more(count: u32, by: u32) -> u32
    ensures { result ≡ more count by }
{
    count.saturating_add(by)
}

/// Whether LUI and AUIPC can hold the number.
pub(crate) fn is_upper(number: i64) -> bool
    ensures { result ≡ is_upper number }
{
    0 <= number && number < 0x10_0000
}

/// Whether the number fits twelve bits as a signed number.
pub(crate) fn is_immediate(number: i64) -> bool
    ensures value { result ≡ is_immediate number }
    ensures fits { IsTrue result → IsSigned 12 number }
{
    -2048 <= number && number < 2048
}

/// Whether bit 0 of the number is 0.
#[tactic(auto, unfolding(rv_isa::specs::Word::bits))]
fn is_even(number: i32) -> bool
    ensures { result ≡ is_even number }
{
    number.cast_unsigned() & 1 == 0
}

/// Whether JAL can hold the offset.
#[tactic(auto, unfolding(rv_isa::specs::Word::bits))]
pub(crate) fn is_jump(offset: i64) -> bool
    ensures value { result ≡ is_jump offset }
    ensures fits { IsTrue result → IsOffset 21 offset }
{
    -0x10_0000 <= offset && offset < 0x10_0000 && is_even(offset as i32)
}

/// Whether a branch can hold the offset.
#[tactic(auto, unfolding(rv_isa::specs::Word::bits))]
pub(crate) fn is_branch(offset: i64) -> bool
    ensures value { result ≡ is_branch offset }
    ensures fits { IsTrue result → IsOffset 13 offset }
{
    -4096 <= offset && offset < 4096 && is_even(offset as i32)
}

/// Whether the operation can hold the immediate.
pub(crate) fn is_operand(op: AluOp, number: i64) -> bool
    ensures value { result ≡ is_operand op number }
    ensures fits { IsTrue result → IsTrue (has_immediate op) × IsOperand (is_shift op) number }
{
    match op {
        AluOp::Sub => false,
        AluOp::Sll | AluOp::Srl | AluOp::Sra => 0 <= number && number < 32,
        _ => is_immediate(number),
    }
}

/// Whether a region may have this many words.
pub(crate) fn is_length(number: i64) -> bool
    ensures { result ≡ is_length number }
{
    1 <= number && number <= 65536
}

/// Whether the words from `lo` up to, but not including, `hi` are words of a region of `len` words, and there is at least one.
pub(crate) fn is_interval(lo: i128, hi: i128, len: i64) -> bool
    ensures { result ≡ is_interval lo hi len }
{
    0 <= lo && lo < hi && hi <= i128::from(len)
}
