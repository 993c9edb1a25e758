ghost use Rattle.std.specs.Prelude.{◌≡◌};

use dn_base::Memory as NoRoom;
use std::alloc::{AllocError, AllocFailed};
use thiserror::Error;

/// Why a source text is no program. The first faulty line of a text decides, and on that line the first fault in this order.
/// Lines are numbered from 1.
#[derive(Clone, Copy, Debug, PartialEq, Eq, Error)]
pub enum SourceFault {
    /// The text has more than 1,048,576 bytes.
    #[error("the text has more than 1048576 bytes")]
    TooLarge,
    /// Outside a comment stands a byte that is no blank, letter, digit or one of `_ . , : ( ) -`.
    #[error("line {line}: a byte that may not stand here")]
    BadByte { line: u32 },
    /// A number token is no number from -2147483648 to 4294967295.
    #[error("line {line}: not a number of 32 bits")]
    BadNumber { line: u32 },
    /// The line has more than 1,024 bytes, or 65,536 lines stand before it.
    #[error("line {line}: the line is too long, or one too many")]
    LineLimit { line: u32 },
    /// The statement begins with a name that is no mnemonic and no directive.
    #[error("line {line}: no such mnemonic or directive")]
    UnknownWord { line: u32 },
    /// The operands aren't those of the statement.
    #[error("line {line}: not the operands of this statement")]
    BadOperand { line: u32 },
    /// A number is outside its range, or a branch or jump is too far from its label.
    #[error("line {line}: a number is out of range")]
    OutOfRange { line: u32 },
    /// The line declares a name that is already declared.
    #[error("line {line}: the name is declared already")]
    DoubleName { line: u32 },
    /// A name isn't declared, or is of another kind.
    #[error("line {line}: no such name of this kind")]
    UnknownName { line: u32 },
    /// A task stands before any phase or on a core that has one, or an effect has no task.
    #[error("line {line}: the statement may not stand here")]
    Misplaced { line: u32 },
    /// With this line the program exceeds a limit of programs.
    #[error("line {line}: the program is too large")]
    Limit { line: u32 },
    /// There wasn't enough memory.
    #[error("no memory")]
    Memory,
}

impl From<NoRoom> for SourceFault {
    ghost use Rattle.rv_assembler.specs.declared.fault.SourceFault.TheVariants.{Memory as WantsMemory};

    ghost from_gives = { λ _ fault. fault ≡ WantsMemory };

    fn from(_error: NoRoom) -> SourceFault {
        SourceFault::Memory
    }
}

impl From<AllocError> for SourceFault {
    ghost use Rattle.rv_assembler.specs.declared.fault.SourceFault.TheVariants.{Memory as WantsMemory};

    ghost from_gives = { λ _ fault. fault ≡ WantsMemory };

    fn from(_error: AllocError) -> SourceFault {
        SourceFault::Memory
    }
}

impl<T: Drop> From<AllocFailed<T>> for SourceFault {
    ghost use Rattle.rv_assembler.specs.declared.fault.SourceFault.TheVariants.{Memory as WantsMemory};

    ghost from_gives = { λ _ fault. fault ≡ WantsMemory };

    fn from(_error: AllocFailed<T>) -> SourceFault {
        SourceFault::Memory
    }
}
