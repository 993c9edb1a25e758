//! Where a task can continue after an instruction, by the form of the instruction.
ghost use Rattle.std.specs.Prelude.{◌≡◌, ℕ, true, ◌^◌, ◌≤◌, ◌<◌, ◌+◌};
ghost use Rattle.rv_isa.specs.Range.{IsEncodable, HasRegisters};
ghost use Rattle.effect_prover.specs.Row.{IsRow};
ghost use Rattle.effect_prover.specs.Blocks.{is_straight};
ghost use Rattle.effect_prover.specs.Successors.{no_successors, falls_through, jumps, where_equal, where_less, where_not_less, where_different, are_low, less_branches, not_less_branches, any_branches, branches, branch_on, loadable, held_with, held_without, held_after_acquire, held_after_release, calls, successors};

use crate::join::{greater, lesser};
use crate::range::Range;
use crate::row::{A0, A7, Row};
use rv_isa::{Cond, Instr, Reg, Width, taken};

/// Where a task can continue after an instruction, each with its row, or None if it can't.
#[derive(Clone, Copy)]
pub struct Successors {
    /// At the next code word.
    pub next: Option<Row>,
    /// At the target of a branch or JAL.
    pub target: Option<Row>,
}

impl Successors {
    /// Nowhere.
    fn stays() -> Successors
        ensures { result ≡ no_successors }
    {
        Successors {
            next: None,
            target: None,
        }
    }

    /// Only at the next word.
    fn falls_through(row: &Row) -> Successors
        ensures { result ≡ falls_through row.now }
    {
        Successors {
            next: Some(*row),
            target: None,
        }
    }

    /// Only at the target.
    fn jumps(row: &Row) -> Successors
        ensures { result ≡ jumps row.now }
    {
        Successors {
            next: None,
            target: Some(*row),
        }
    }
}

/// These locks without one; a lock from 32 on is never held.
#[tactic(auto, using(crate::proofs::RowLemmas::high_locks))]
fn without_lock(held: u32, lock: u32) -> u32
    ensures { result ≡ held_without held lock }
{
    if lock >= 32 {
        held
    } else if held & (1 << lock) != 0 {
        held ^ (1 << lock)
    } else {
        held
    }
}

impl Row {
    /// The row if the two registers are equal; None if they can't be.
    fn where_equal(&self, a: Reg, b: Reg) -> Option<Row>
        requires { IsRow self.now }
        ensures { result ≡ where_equal self.now a b }
    {
        let (x, y) = (self.range(a), self.range(b));
        let both = Range {
            lo: greater(x.lo, y.lo),
            hi: lesser(x.hi, y.hi),
        };
        if both.hi < both.lo {
            return None;
        }
        let mut row = *self;
        row.set(a, both);
        row.set(b, both);
        Some(row)
    }

    /// The row if the first register is less than the second without sign; None if it can't be.
    fn where_less(&self, a: Reg, b: Reg) -> Option<Row>
        requires { IsRow self.now }
        ensures { result ≡ where_less self.now a b }
    {
        let (x, y) = (self.range(a), self.range(b));
        if x.lo >= y.hi {
            return None;
        }
        let low = Range {
            lo: x.lo,
            hi: lesser(x.hi, y.hi - 1),
        };
        let high = Range {
            lo: greater(y.lo, x.lo + 1),
            hi: y.hi,
        };
        let mut row = *self;
        row.set(a, low);
        row.set(b, high);
        Some(row)
    }

    /// The row if the first register isn't less than the second without sign; None if it is in any case.
    fn where_not_less(&self, a: Reg, b: Reg) -> Option<Row>
        requires { IsRow self.now }
        ensures { result ≡ where_not_less self.now a b }
    {
        let (x, y) = (self.range(a), self.range(b));
        if x.hi < y.lo {
            return None;
        }
        let high = Range {
            lo: greater(x.lo, y.lo),
            hi: x.hi,
        };
        let low = Range {
            lo: y.lo,
            hi: lesser(y.hi, x.hi),
        };
        let mut row = *self;
        row.set(a, high);
        row.set(b, low);
        Some(row)
    }

    /// The row if the two registers differ; None if they can't.
    fn where_different(&self, a: Reg, b: Reg) -> Option<Row>
        requires { IsRow self.now }
        ensures { result ≡ where_different self.now a b }
    {
        let (x, y) = (self.range(a), self.range(b));
        if x.is_one() && y.is_one() && x.lo == y.lo {
            None
        } else {
            Some(*self)
        }
    }

    /// Whether both registers are below 2^31, where the signed and the unsigned order agree.
    fn are_low(&self, a: Reg, b: Reg) -> bool
        requires { IsRow self.now }
        ensures { result ≡ are_low self.now a b }
    {
        self.range(a).hi < 0x8000_0000 && self.range(b).hi < 0x8000_0000
    }

    /// A branch that is taken if the first register is less.
    fn less_branches(&self, a: Reg, b: Reg) -> Successors
        requires { IsRow self.now }
        ensures { result ≡ less_branches self.now a b }
    {
        Successors {
            next: self.where_not_less(a, b),
            target: self.where_less(a, b),
        }
    }

    /// A branch that is taken if the first register isn't less.
    fn not_less_branches(&self, a: Reg, b: Reg) -> Successors
        requires { IsRow self.now }
        ensures { result ≡ not_less_branches self.now a b }
    {
        Successors {
            next: self.where_less(a, b),
            target: self.where_not_less(a, b),
        }
    }

    /// A branch of which nothing is known.
    fn any_branches(&self) -> Successors
        ensures { result ≡ any_branches self.now }
    {
        Successors {
            next: Some(*self),
            target: Some(*self),
        }
    }

    /// A branch on two registers.
    fn branches(&self, cond: Cond, a: Reg, b: Reg) -> Successors
        requires { IsRow self.now }
        ensures { result ≡ branches cond self.now a b }
    {
        match cond {
            Cond::Eq => Successors {
                next: self.where_different(a, b),
                target: self.where_equal(a, b),
            },
            Cond::Ne => Successors {
                next: self.where_equal(a, b),
                target: self.where_different(a, b),
            },
            Cond::Ltu => self.less_branches(a, b),
            Cond::Geu => self.not_less_branches(a, b),
            Cond::Lt if self.are_low(a, b) => self.less_branches(a, b),
            Cond::Ge if self.are_low(a, b) => self.not_less_branches(a, b),
            Cond::Lt | Cond::Ge => self.any_branches(),
        }
    }

    /// A branch; one that compares a register with itself goes one way only.
    fn branch_on(&self, cond: Cond, a: Reg, b: Reg) -> Successors
        requires { IsRow self.now }
        ensures { result ≡ branch_on cond self.now a b }
    {
        if a != b {
            self.branches(cond, a, b)
        } else if taken(cond, 0, 0) {
            Successors::jumps(self)
        } else {
            Successors::falls_through(self)
        }
    }

    /// The locks that are held for certain after a lock of this range was acquired.
    fn after_acquire(&self, locks: u32, lock: Range) -> u32
        requires { locks ≤ 32 }
        ensures { result ≡ held_after_acquire locks self.now.held lock }
    {
        if lock.is_one() && lock.lo < locks {
            self.held | (1 << lock.lo)
        } else {
            self.held
        }
    }

    /// The locks that are held for certain after a lock of this range was released.
    fn after_release(&self, lock: Range) -> u32
        ensures { result ≡ held_after_release self.now.held lock }
    {
        if lock.is_one() {
            without_lock(self.held, lock.lo)
        } else {
            0
        }
    }

    /// An ECALL: 1 in a7 acquires the lock in a0, 2 releases it, and after any other number the task doesn't continue. If the
    /// number isn't known, the locks aren't either.
    fn calls(&self, locks: u32, number: Range, lock: Range) -> Successors
        requires { locks ≤ 32 }
        ensures { result ≡ calls locks self.now number lock }
    {
        if !number.is_one() {
            return Successors::falls_through(&self.with_held(0));
        }
        match number.lo {
            1 => Successors::falls_through(&self.with_held(self.after_acquire(locks, lock))),
            2 => Successors::falls_through(&self.with_held(self.after_release(lock))),
            _ => Successors::stays(),
        }
    }

    /// Changes the row by a straight instruction at the address `pc`.
    pub(crate) fn step(&mut self, pc: u32, instr: &Instr)
        requires row { IsRow self.old }
        requires plain { is_straight instr.now ≡ true }
        ensures { (locks : ℕ) → successors locks pc self.old instr.now ≡ falls_through self.new }
    {
        match *instr {
            Instr::Lui { rd, imm } => self.set(rd, Range::one(imm << 12)),
            Instr::Auipc { rd, imm } => self.set(rd, Range::one(pc.wrapping_add(imm << 12))),
            Instr::Load { width, rd, .. } => self.set(rd, loadable(width)),
            Instr::OpImm { op, rd, a, imm } => {
                let results = Range::computed_with(op, self.range(a), imm.cast_unsigned());
                self.set(rd, results);
            }
            Instr::Op { op, rd, a, b } => {
                self.set(rd, Range::compute(op, self.range(a), self.range(b)));
            }
            _ => {}
        }
    }

    /// The row after such an instruction.
    fn after_step(&self, pc: u32, instr: &Instr) -> Successors
        requires row { IsRow self.now }
        requires plain { is_straight instr.now ≡ true }
        ensures { (locks : ℕ) → result ≡ successors locks pc self.now instr.now }
    {
        let mut row = *self;
        row.step(pc, instr);
        Successors::falls_through(&row)
    }

    /// The successors of an instruction at the address `pc`, in a program with `locks` locks.
    pub(crate) fn successors(&self, locks: u32, pc: u32, instr: &Instr) -> Successors
        requires row { IsRow self.now }
        requires locks { locks ≤ 32 }
        requires pc { pc + 4 < 2 ^ 32 }
        ensures { result ≡ successors locks pc self.now instr.now }
    {
        match *instr {
            Instr::Jal { rd, .. } => Successors::jumps(&self.with(rd, Range::one(pc + 4))),
            Instr::Branch { cond, a, b, .. } => self.branch_on(cond, a, b),
            Instr::Ecall => self.calls(locks, self.ranges[A7], self.ranges[A0]),
            Instr::Jalr { .. } | Instr::Ebreak => Successors::stays(),
            _ => self.after_step(pc, instr),
        }
    }
}

/// What a load can put into its register.
fn loadable(width: Width) -> Range
    ensures { result ≡ loadable width }
{
    match width {
        Width::B | Width::H | Width::W => Range::every(),
        Width::Bu => Range::up_to(255),
        Width::Hu => Range::up_to(65_535),
    }
}
