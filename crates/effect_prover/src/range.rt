//! Ranges of numbers, and the arithmetic of RV32I on them.
ghost use Rattle.std.specs.Prelude.{◌≡◌, ℕ, Decides, ◌+◌, ◌-◌, ◌<◌, ◌≤◌, ◌^◌};
ghost use Rattle.rv_isa.specs.Meaning.{alu_of};
ghost use Rattle.effect_prover.specs.Range.{Has, IsRange, one, every, is_one, wrapped_range, shifted_left, shifted_right, form, form_imm, computed, computed_imm, common, below, above, at_least, at_most};

use rv_isa::{AluOp, alu};

/// The numbers from `lo` to `hi`, both included. They have 32 bits without sign.
#[derive(Clone, Copy, PartialEq, Eq)]
pub struct Range {
    pub lo: u32,
    pub hi: u32,
}

/// How many numbers of 32 bits there are.
const NUMBERS: u64 = 0x1_0000_0000;

impl Range {
    /// One number alone.
    pub(crate) fn one(number: u32) -> Range
        ensures { result ≡ one number }
    {
        Range {
            lo: number,
            hi: number,
        }
    }

    /// Every number.
    pub(crate) fn every() -> Range
        ensures { result ≡ every }
    {
        Range {
            lo: 0,
            hi: u32::MAX,
        }
    }

    /// The numbers from 0 to `hi`.
    pub(crate) fn up_to(hi: u32) -> Range
        ensures { result ≡ record { lo = 0; hi = hi } }
    {
        Range { lo: 0, hi }
    }

    /// Whether the range is a single number.
    pub(crate) fn is_one(self) -> bool
        ensures { result ≡ is_one self }
    {
        self.lo == self.hi
    }

    /// Whether the other range is the same.
    pub(crate) fn is_same(self, other: Range) -> bool
        ensures { Decides result (self ≡ other) }
    {
        self == other
    }

    /// The range of the results from `least` to `greatest`, taken modulo 2^32.
    fn wrap(least: u64, greatest: u64) -> Range
        ensures { result ≡ wrapped_range least greatest }
    {
        if least / NUMBERS == greatest / NUMBERS {
            Range {
                lo: (least % NUMBERS) as u32,
                hi: (greatest % NUMBERS) as u32,
            }
        } else {
            Range::every()
        }
    }

    /// The sums of its numbers and the other's.
    fn plus(self, other: Range) -> Range
        ensures { result ≡ wrapped_range (self.lo + other.lo) (self.hi + other.hi) }
    {
        Range::wrap(
            u64::from(self.lo) + u64::from(other.lo),
            u64::from(self.hi) + u64::from(other.hi),
        )
    }

    /// Its numbers minus the other's.
    fn minus(self, other: Range) -> Range
        ensures { result ≡ wrapped_range (self.lo + 2 ^ 32 - other.hi) (self.hi + 2 ^ 32 - other.lo) }
    {
        Range::wrap(
            u64::from(self.lo) + NUMBERS - u64::from(other.hi),
            u64::from(self.hi) + NUMBERS - u64::from(other.lo),
        )
    }

    /// Its numbers shifted to the left; if a bit can be lost, every number.
    fn shifted_left(self, amount: u32) -> Range
        requires range { IsRange self }
        requires amount { amount < 32 }
        ensures { result ≡ shifted_left self amount }
    {
        if self.hi <= u32::MAX >> amount {
            Range {
                lo: self.lo << amount,
                hi: self.hi << amount,
            }
        } else {
            Range::every()
        }
    }

    /// Its numbers shifted to the right; zeros come in.
    fn shifted_right(self, amount: u32) -> Range
        requires amount { amount < 32 }
        ensures { result ≡ shifted_right self amount }
    {
        Range {
            lo: self.lo >> amount,
            hi: self.hi >> amount,
        }
    }

    /// The results of an operation on its numbers and the other's.
    fn form(op: AluOp, a: Range, b: Range) -> Range
        ensures { result ≡ form op a b }
    {
        match op {
            AluOp::Add => a.plus(b),
            AluOp::Sub => a.minus(b),
            AluOp::Slt | AluOp::Sltu => Range::up_to(1),
            AluOp::And => Range::up_to(if a.hi < b.hi { a.hi } else { b.hi }),
            AluOp::Sll | AluOp::Xor | AluOp::Srl | AluOp::Sra | AluOp::Or => Range::every(),
        }
    }

    /// The range of the results; if both operands are single numbers, so is the result.
    fn results(op: AluOp, a: Range, b: Range) -> Range
        ensures { result ≡ computed op a b }
    {
        if a.is_one() && b.is_one() {
            Range::one(alu(op, a.lo, b.lo))
        } else {
            Range::form(op, a, b)
        }
    }

    /// The results with an immediate.
    fn results_with(op: AluOp, a: Range, immediate: u32) -> Range
        requires { IsRange a }
        ensures { result ≡ computed_imm op a immediate }
    {
        if a.is_one() {
            return Range::one(alu(op, a.lo, immediate));
        }
        match op {
            AluOp::Sll => a.shifted_left(immediate & 31),
            AluOp::Srl => a.shifted_right(immediate & 31),
            _ => Range::form(op, a, Range::one(immediate)),
        }
    }

    /// The results of an operation on the numbers of two registers.
    #[tactic(auto, using(crate::proofs::RangeLemmas::results_lie))]
    pub(crate) fn compute(op: AluOp, a: Range, b: Range) -> Range
        requires first { IsRange a }
        requires second { IsRange b }
        ensures value { result ≡ computed op a b }
        ensures range { IsRange result }

        // each result that the operation can have is in the range
        ensures has { (x y : ℕ) → Has a x → Has b y → Has result (alu_of op x y) }
    {
        Range::results(op, a, b)
    }

    /// The results of an operation on the numbers of a register and an immediate with these 32 bits.
    #[tactic(auto, using(crate::proofs::RangeLemmas::results_lie))]
    pub(crate) fn computed_with(op: AluOp, a: Range, immediate: u32) -> Range
        requires { IsRange a }
        ensures value { result ≡ computed_imm op a immediate }
        ensures range { IsRange result }

        // each result that the operation can have is in the range
        ensures has { (x : ℕ) → Has a x → Has result (alu_of op x immediate) }
    {
        Range::results_with(op, a, immediate)
    }
}
