ghost use Rattle.std.specs.Prelude.{◌≡◌};
ghost use Rattle.view_top.specs.Status.{view_code, view_told};

use program_outside::{EndStatus, Failure};

/// How the program ended, as its exit code tells it.
#[derive(Clone, Copy)]
pub enum ViewStatus {
    /// What the words ask for was made, whatever the outcome of the trace's run.
    Done = 0,
    /// The command doesn't take the words, or they ask for an event that the trace doesn't have.
    Usage = 1,
    /// The trace was refused, or its text.
    Refused = 2,
    /// The state is the one before an earlier event than the one that was asked for, because that earlier event is not enabled.
    Unreached = 3,
    /// A read of the source failed.
    ReadFault = 6,
    /// A write to the sink, or its flush, failed.
    WriteFault = 7,
    /// There wasn't enough memory.
    Memory = 8,
}

impl ViewStatus {
    /// The exit code: 0 to 3 and 6 to 8. A status that denovo has too has the same code as there.
    pub fn code(self) -> u8
        ensures { result ≡ view_code self }
    {
        self as u8
    }
}

impl EndStatus for ViewStatus {
    ghost told = { view_told };

    ghost code_of = { view_code };

    fn of(failure: Failure) -> ViewStatus {
        match failure {
            Failure::Usage => ViewStatus::Usage,
            Failure::ReadFault => ViewStatus::ReadFault,
            Failure::WriteFault => ViewStatus::WriteFault,
            Failure::Memory => ViewStatus::Memory,
        }
    }

    fn exit_code(&self) -> u8 {
        self.code()
    }
}
