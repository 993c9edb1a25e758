ghost use Rattle.std.specs.Prelude.{◌≡◌};
ghost use Rattle.referee_top.specs.Status.{referee_code, referee_told};

use program_outside::{EndStatus, Failure};

/// How the referee ended, as its exit code tells it.
#[derive(Clone, Copy)]
pub enum RefereeStatus {
    /// The claim agrees, or a claim that agrees was printed.
    Agrees = 0,
    /// The command doesn't take the arguments.
    Usage = 1,
    /// The run log was refused, or its text.
    Refused = 2,
    /// The claim differs from the run by its grants, or one of the grants isn't legal; or in the mode settled from what all runs have in
    /// common, or that is open.
    Differs = 3,
    /// A read of the source failed.
    ReadFault = 6,
    /// A write to the sink, or its flush, failed.
    WriteFault = 7,
    /// There wasn't enough memory.
    Memory = 8,
}

impl RefereeStatus {
    /// The exit code: 0 to 3 and 6 to 8. A status that denovo has too has the same code as there.
    pub fn code(self) -> u8
        ensures { result ≡ referee_code self }
    {
        self as u8
    }
}

impl EndStatus for RefereeStatus {
    ghost told = { referee_told };

    ghost code_of = { referee_code };

    fn of(failure: Failure) -> RefereeStatus {
        match failure {
            Failure::Usage => RefereeStatus::Usage,
            Failure::ReadFault => RefereeStatus::ReadFault,
            Failure::WriteFault => RefereeStatus::WriteFault,
            Failure::Memory => RefereeStatus::Memory,
        }
    }

    fn exit_code(&self) -> u8 {
        self.code()
    }
}
