ghost use Rattle.std.specs.Prelude.{◌≡◌, ◌≢◌, Ok, IfOk, IfErr};
ghost use Rattle.rv_assembler.specs.declared.fault.SourceFault.TheVariants.{Memory as NoMemory};
ghost use Rattle.region_table.specs.Program.{names_of};
ghost use Rattle.rv_assembler.specs.Names.{AreDeclaredNames};
ghost use Rattle.rv_assembler.specs.Source.{source};
ghost use Rattle.effect_checker.specs.Checked.{IsChecked};
ghost use Rattle.run_report.specs.declared.refusal.Refusal.TheVariants.{Source as OfSource};
ghost use Rattle.run_report.specs.Refusal.{refusal_of};
ghost use Rattle.run_report.specs.Texts.{IsNoProgram, IsStop, IsUnfit};

use crate::{Refusal, refusal_line};
use dn_base::{Memory, Sequence};
use effect_checker::{Checked, check};
use region_table::Program;
use rv_assembler::{SourceFault, assemble};
use std::alloc::Global;

/// Why a text or a trace gives no result.
#[derive(Drop)]
pub enum Stop {
    /// It is refused with this line.
    Refused(Sequence<u8>),
    /// There wasn't enough memory.
    Memory,
}

impl From<Memory> for Stop {
    ghost use Rattle.run_report.specs.declared.programs.Stop.TheVariants.{Memory as NoRoom};

    ghost from_gives = { λ _ stop. stop ≡ NoRoom };

    fn from(_memory: Memory) -> Stop {
        Stop::Memory
    }
}

/// The refusal of a text.
fn refusal(alloc: Global, why: &Refusal) -> Stop
    requires { why.now ≢ OfSource NoMemory }
    ensures { IsStop (λ line. line ≡ refusal_of why.now) result }
{
    match refusal_line(alloc, why) {
        Ok(line) => Stop::Refused(Sequence::from_vec(line)),
        Err(_) => Stop::Memory,
    }
}

/// The program of a text, unchecked.
///
/// # Errors
/// `Refused` with the line of the text's first fault, and `Memory` if there is no room.
pub fn program_of(alloc: Global, text: &[u8]) -> Result<Program, Stop>
    ensures ok { IfOk result (λ program. source text.now ≡ Ok program) }
    ensures names { IfOk result (λ program. AreDeclaredNames (names_of program)) }
    ensures stop { IfErr result (IsStop (IsNoProgram text.now)) }
{
    match assemble(alloc, text) {
        Ok(program) => Ok(program),
        Err(SourceFault::Memory) => Err(Stop::Memory),
        Err(fault) => Err(refusal(alloc, &Refusal::Source(fault))),
    }
}

/// The program of a text, checked: its tasks don't conflict.
///
/// # Errors
/// `Refused` with the line of the text's first fault, or of its program's least conflict, and `Memory` if there is no room.
pub fn checked_of(alloc: Global, text: &[u8]) -> Result<Checked, Stop>
    ensures ok { IfOk result (λ program. source text.now ≡ Ok program) }
    ensures checked { IfOk result IsChecked }
    ensures stop { IfErr result (IsStop (IsUnfit text.now)) }
{
    match check(program_of(alloc, text)?) {
        Ok(checked) => Ok(checked),
        Err(fault) => Err(refusal(alloc, &Refusal::Check(fault))),
    }
}
