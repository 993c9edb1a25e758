//! What a table says of a task at one code word.
ghost use Rattle.std.specs.Prelude.{◌≡◌};
ghost use Rattle.effect_prover.specs.Row.{range_of, with_range, start_row, IsRow};

use crate::range::Range;
use region_table::TaskDecl;
use rv_isa::Reg;

/// What holds of a task whenever it reaches a code word.
#[derive(Clone, Copy)]
pub struct Row {
    /// The numbers that x0 to x31 can have. The first is 0.
    pub ranges: [Range; 32],
    /// Bit `l` is set if the task holds lock `l` for certain.
    pub held: u32,
}

/// Register a0, which has a task's argument and the number of a lock.
pub(crate) const A0: usize = 10;

/// Register a7, which has the number of an ECALL.
pub(crate) const A7: usize = 17;

impl Row {
    /// The row of a task at its start.
    pub(crate) fn start(task: &TaskDecl) -> Row
        ensures { result ≡ start_row task.now }
    {
        let mut ranges = [Range::one(0); 32];
        ranges[A0] = Range::one(task.arg);
        Row { ranges, held: 0 }
    }

    /// The range of a register.
    pub(crate) fn range(&self, reg: Reg) -> Range
        requires { IsRow self.now }
        ensures { result ≡ range_of self.now reg }
    {
        self.ranges[reg.number() as usize]
    }

    /// Gives a register another range; a write to x0 is dropped.
    pub(crate) fn set(&mut self, reg: Reg, range: Range)
        requires { IsRow self.old }
        ensures { self.new ≡ with_range self.old reg range }
    {
        let number = reg.number() as usize;
        if number != 0 {
            self.ranges[number] = range;
        }
    }

    /// The row with another range of a register.
    pub(crate) fn with(&self, reg: Reg, range: Range) -> Row
        requires { IsRow self.now }
        ensures { result ≡ with_range self.now reg range }
    {
        let mut row = *self;
        row.set(reg, range);
        row
    }

    /// The row with other locks.
    pub(crate) fn with_held(&self, held: u32) -> Row
        ensures { result ≡ record self.now { held = held } }
    {
        Row {
            ranges: self.ranges,
            held,
        }
    }
}
