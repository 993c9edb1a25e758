ghost use Rattle.std.specs.Prelude.{◌≡◌, ℕ};

use dn_base::Sequence;

/// Why a call of a program comes to no answer.
#[derive(Clone, Copy)]
pub enum Failure {
    /// The command doesn't take the arguments.
    Usage,
    /// A read of the source failed.
    ReadFault,
    /// A write to the sink, or its flush, failed.
    WriteFault,
    /// There wasn't enough memory.
    Memory,
}

/// How a call of a program ends.
///
/// `told` is the end that tells each failure. `code_of` is the exit code of an end.
pub trait EndStatus: Drop {
    ghost use Rattle.program_outside.specs.declared.ends.Failure.{Failure};

    ghost told: { Failure → Self };

    ghost code_of: { Self → ℕ };

    /// The end that tells this failure.
    fn of(failure: Failure) -> Self
        ensures { result ≡ told failure };

    /// The exit code.
    fn exit_code(&self) -> u8
        ensures { result ≡ code_of self.now };
}

/// An answer: how the call ends with it, and all bytes that are to be written.
#[derive(Drop)]
pub struct Output<E> {
    pub status: E,
    pub bytes: Sequence<u8>,
}
