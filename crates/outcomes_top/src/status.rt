ghost use Rattle.std.specs.Prelude.{◌≡◌};
ghost use Rattle.outcomes_top.specs.Status.{outcomes_code, outcomes_told};

use program_outside::{EndStatus, Failure};

/// How the program ended, as its exit code tells it.
#[derive(Clone, Copy)]
pub enum OutcomesStatus {
    /// What the runs have in common was printed.
    Settled = 0,
    /// The command doesn't take the arguments.
    Usage = 1,
    /// The text was refused.
    Refused = 2,
    /// It is open what the runs have in common.
    Open = 3,
    /// A read of the source failed.
    ReadFault = 6,
    /// A write to the sink, or its flush, failed.
    WriteFault = 7,
    /// There wasn't enough memory.
    Memory = 8,
}

impl OutcomesStatus {
    /// The exit code: 0 to 3 and 6 to 8. A status that denovo has too has the same code as there.
    pub fn code(self) -> u8
        ensures { result ≡ outcomes_code self }
    {
        self as u8
    }
}

impl EndStatus for OutcomesStatus {
    ghost told = { outcomes_told };

    ghost code_of = { outcomes_code };

    fn of(failure: Failure) -> OutcomesStatus {
        match failure {
            Failure::Usage => OutcomesStatus::Usage,
            Failure::ReadFault => OutcomesStatus::ReadFault,
            Failure::WriteFault => OutcomesStatus::WriteFault,
            Failure::Memory => OutcomesStatus::Memory,
        }
    }

    fn exit_code(&self) -> u8 {
        self.code()
    }
}
