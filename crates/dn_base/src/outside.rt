ghost use Rattle.std.specs.Prelude.{◌≡◌, ◌≤◌, ◌<◌, ℕ, Bool, List, Option, length, IfOk, IsErr, OnOk};
ghost use Rattle.std.specs.Io.KnownBytes.{Keeps, ReadConsumes, WriteAppends};
ghost use Rattle.dn_base.specs.Faults.{Rose};
ghost use Rattle.dn_base.specs.Flushes.{Flushes, WriteUnflushes};

use crate::failure::Failed;
use crate::ids::BankId;

/// Where the program's text comes from.
///
/// `content` is the bytes that are left to read, or None for a source that doesn't tell them. `faults` counts the calls that
/// failed. It never falls.
pub trait Source {
    ghost content: { Self → Option (List ℕ) };

    ghost faults: { Self → ℕ };

    /// Copies the next bytes into `buf`, at most as many as it has room for, and returns their number.
    ///
    /// 0 for a `buf` that has room says that the text is at its end.
    ///
    /// # Errors
    /// Each `Failed` raises the count of faults, up to its greatest value. No byte is taken then.
    fn read(&mut self, buf: &mut [u8]) -> Result<usize, Failed>
        ensures within { IfOk result (λ count. count ≤ length buf.old) }
        ensures bytes { ReadConsumes (content self.old) (content self.new) result buf.new }
        ensures counted { faults self.old ≤ faults self.new }
        ensures faultless { OnOk result (faults self.new ≡ faults self.old) }
        ensures failed { IsErr result → Rose (faults self.old) (faults self.new) };
}

/// Where the program's output goes.
///
/// `content` is the bytes that were written, and `flushed` whether all of them have been flushed. Each is None for a sink that
/// doesn't tell it. `faults` counts the calls that failed. It never falls.
pub trait Sink {
    ghost content: { Self → Option (List ℕ) };

    ghost flushed: { Self → Option Bool };

    ghost faults: { Self → ℕ };

    /// Takes bytes from the start of `buf`, and returns their number. It takes at least one, unless `buf` is empty. They are
    /// flushed by the next call of `flush`.
    ///
    /// # Errors
    /// Each `Failed` raises the count of faults, up to its greatest value. No byte is taken then.
    fn write(&mut self, buf: &[u8]) -> Result<usize, Failed>
        ensures within { IfOk result (λ count. count ≤ length buf.now) }
        ensures some { IfOk result (λ count. 0 < length buf.now → 0 < count) }
        ensures bytes { WriteAppends (content self.old) (content self.new) result buf.now }
        ensures handed_on { WriteUnflushes (flushed self.old) (flushed self.new) result }
        ensures counted { faults self.old ≤ faults self.new }
        ensures faultless { OnOk result (faults self.new ≡ faults self.old) }
        ensures failed { IsErr result → Rose (faults self.old) (faults self.new) };

    /// Flushes the bytes that were taken. It takes none itself.
    ///
    /// # Errors
    /// Each `Failed` raises the count of faults, up to its greatest value.
    fn flush(&mut self) -> Result<(), Failed>
        ensures bytes { Keeps (content self.old) (content self.new) }
        ensures handed_on { Flushes (flushed self.old) (flushed self.new) result }
        ensures counted { faults self.old ≤ faults self.new }
        ensures faultless { OnOk result (faults self.new ≡ faults self.old) }
        ensures failed { IsErr result → Rose (faults self.old) (faults self.new) };
}

/// What a worker calls inside the turn of a bank. It has no effect on a run: tests use it to watch host workers.
///
/// Only a gate whose type holds a handle with the bound `Wait` may wait. Any other gate returns.
pub trait Gate {
    /// Called when the worker of this number is inside the turn of this bank.
    fn at(&self, worker: u32, bank: BankId);
}

/// A gate that does nothing.
#[derive(Clone, Copy, PartialEq, Eq)]
pub struct OpenGate;

impl Gate for OpenGate {
    /// Returns at once.
    fn at(&self, _worker: u32, _bank: BankId) {}
}
