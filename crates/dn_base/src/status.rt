ghost use Rattle.std.specs.Prelude.{◌≡◌};
ghost use Rattle.dn_base.specs.Status.{exit_code_of, status_of};

/// How the program ended. The exit code is the status's number (this project's profile).
#[derive(Clone, Copy, PartialEq, Eq)]
pub enum Status {
    /// Every task finished, or the mode runs no program.
    Done = 0,
    /// The command doesn't take the arguments.
    Usage = 1,
    /// The text, or the trace, was refused.
    SourceRefused = 2,
    /// A task trapped, and no task waits for a lock.
    Trapped = 3,
    /// A task ran out of fuel. No task trapped or waits for a lock.
    Fuel = 4,
    /// A task waits for a lock that never becomes free.
    Stuck = 5,
    /// A read of the source failed.
    ReadFault = 6,
    /// A write to the sink, or its flush, failed.
    WriteFault = 7,
    /// There wasn't enough memory.
    Memory = 8,
}

/// How a run ended. It is Stuck if a started task waits for a lock, else Trapped if a task trapped, else Fuel if a task ran out
/// of fuel, else Done.
#[derive(Clone, Copy, Debug, PartialEq, Eq)]
pub enum Outcome {
    Done,
    Trapped,
    Fuel,
    Stuck,
}

impl Status {
    /// The exit code, from 0 to 8.
    pub fn code(self) -> u8
        ensures { result ≡ exit_code_of self }
    {
        self as u8
    }
}

impl From<Outcome> for Status {
    ghost from_gives = { λ outcome status. status ≡ status_of outcome };

    fn from(outcome: Outcome) -> Status {
        match outcome {
            Outcome::Done => Status::Done,
            Outcome::Trapped => Status::Trapped,
            Outcome::Fuel => Status::Fuel,
            Outcome::Stuck => Status::Stuck,
        }
    }
}
