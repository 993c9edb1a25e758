ghost use Rattle.std.specs.Prelude.{◌≡◌, ◌+◌, ◌<◌, None};

use region_table::TaskDecl;

/// Why an instruction can't retire. A trap ends its task (this project's profile).
#[derive(Clone, Copy, Debug, PartialEq, Eq)]
pub enum TrapKind {
    /// The program counter isn't the address of a code word. The value is the program counter.
    Fetch,
    /// The word is no instruction. The value is the word.
    Illegal,
    /// A jump to an address that isn't a multiple of 4. The value is the target.
    Target,
    /// A load or store at an address that isn't a multiple of its width. The value is the address.
    Misaligned,
    /// A load or store at an address outside the data words, or of a word that the task may not use in that way. The value is
    /// the address.
    Outside,
    /// An EBREAK. The value is 0.
    Break,
    /// An ECALL with a number above 2 in a7. The value is that number.
    Call,
    /// An acquire or release of a lock that the program doesn't have. The value is the lock's number in a0.
    NoLock,
    /// An acquire of a lock that the task holds. The value is the lock's number.
    Held,
    /// A release of a lock that the task doesn't hold. The value is the lock's number.
    NotHeld,
    /// An ECALL that ends the task while it holds a lock. The value is the least lock that it holds.
    HeldEnd,
}

/// How a task ended.
#[derive(Clone, Copy, Debug, PartialEq, Eq)]
pub enum End {
    /// By its ECALL with 0 in a7.
    Finished,
    /// It has retired as many instructions as it may.
    Fuel,
    /// By an instruction that trapped and didn't retire: the kind of trap, the address of the instruction in bytes, and the
    /// kind's value.
    Trap { kind: TrapKind, pc: u32, value: u32 },
}

/// The state of one task.
#[derive(Clone, Copy, PartialEq, Eq)]
pub struct TaskState {
    /// The values of x0 to x31. The first stays 0.
    pub regs: [u32; 32],
    /// The address of the next instruction, in bytes.
    pub pc: u32,
    /// Bit `l` is set while the task holds lock `l`.
    pub held: u32,
    /// How many instructions have retired.
    pub retired: u32,
    /// How the task ended, or None if it hasn't ended.
    pub end: Option<End>,
}

/// Register a0, which holds a task's argument and the number of a lock.
pub(crate) const A0: usize = 10;

impl TaskState {
    ghost use Rattle.rv_core.specs.Task.{started, stopped};

    /// The state in which a task starts: at its entry, with its argument in a0 and 0 in every other register.
    pub fn new(task: &TaskDecl) -> TaskState
        ensures { result ≡ started task.now }
    {
        let mut regs = [0; 32];
        regs[A0] = task.arg;
        TaskState {
            regs,
            pc: task.entry,
            held: 0,
            retired: 0,
            end: None,
        }
    }

    /// Ends the task. The ECALL that finishes it retires; a task that traps or runs out of fuel retires nothing.
    pub fn stop(&mut self, cause: End)
        requires open { self.old.end ≡ None }
        requires retired { self.old.retired < 4294967295 }
        ensures { self.new ≡ stopped cause self.old }
    {
        if matches!(cause, End::Finished) {
            self.retired += 1;
        }
        self.end = Some(cause);
    }
}
