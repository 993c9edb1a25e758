ghost use Rattle.std.specs.Prelude.{◌≡◌};
ghost use Rattle.sweep_top.specs.Status.{sweep_code, sweep_told};

use program_outside::{EndStatus, Failure};

/// How the program ended, as its exit code tells it.
#[derive(Clone, Copy)]
pub enum SweepStatus {
    /// All runs were made and printed.
    Swept = 0,
    /// The command doesn't take the arguments.
    Usage = 1,
    /// The text was refused.
    Refused = 2,
    /// A read of the source failed.
    ReadFault = 6,
    /// A write to the sink, or its flush, failed.
    WriteFault = 7,
    /// There wasn't enough memory.
    Memory = 8,
}

impl SweepStatus {
    /// The exit code: 0 to 2 and 6 to 8. A status that denovo has too has the same code as there.
    pub fn code(self) -> u8
        ensures { result ≡ sweep_code self }
    {
        self as u8
    }
}

impl EndStatus for SweepStatus {
    ghost told = { sweep_told };

    ghost code_of = { sweep_code };

    fn of(failure: Failure) -> SweepStatus {
        match failure {
            Failure::Usage => SweepStatus::Usage,
            Failure::ReadFault => SweepStatus::ReadFault,
            Failure::WriteFault => SweepStatus::WriteFault,
            Failure::Memory => SweepStatus::Memory,
        }
    }

    fn exit_code(&self) -> u8 {
        self.code()
    }
}
