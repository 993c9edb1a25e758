//! How many code words and tasks a line of good form gives, for crates that look for the line of a code word or task.
ghost use Rattle.std.specs.Prelude.{◌≡◌};
ghost use Rattle.rv_assembler.specs.Number.{wrapped};
ghost use Rattle.rv_assembler.specs.Counts.{code_size};

use crate::draft::Cores;
use crate::names::size;
use crate::number::wrap;
use crate::statement::{Family, Statement};

/// How many code words a statement gives: none, one, or two.
pub fn code_size(statement: &Statement) -> u32
    ensures { result ≡ code_size statement.now }
{
    match *statement {
        Statement::Instruction(code) => size(code),
        _ => 0,
    }
}

/// The cores of a family of tasks. Numbers are taken modulo 2^32, which changes nothing in a text without a fault.
pub fn family_cores(family: Family) -> Cores
    ensures { result ≡ record { first = wrapped family.core; count = wrapped family.count } }
{
    Cores {
        first: wrap(family.core),
        count: wrap(family.count),
    }
}
