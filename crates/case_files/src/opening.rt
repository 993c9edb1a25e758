ghost use Rattle.std.specs.Prelude.{◌≡◌, IfOk};
ghost use Rattle.dn_top.specs.Command.{OptionsInRange};

use crate::{BadForm, Case, Trouble};
use dn_base::{Memory, Shape};
use dn_machine::Machine;
use dn_top::{Options, read_words};
use effect_checker::{Checked, check};
use program_outside::WordsFault;
use rv_assembler::{SourceFault, assemble};
use std::alloc::Global;

/// What a case gives is not the text of a checked program, or there are other words than the command's.
pub const NO_MACHINE: Trouble = Trouble::Form(BadForm::NoMachine);

/// What the words of a case ask for.
pub fn options_of(alloc: Global, case: &Case) -> Result<Options, Trouble>
    ensures { IfOk result OptionsInRange }
{
    match read_words(alloc, case.words.as_slice()) {
        Ok(options) => Ok(options),
        Err(WordsFault::Memory) => Err(Trouble::Memory),
        Err(WordsFault::Usage) => Err(NO_MACHINE),
    }
}

/// Whether one worker makes the run of a case, so that its kinds of event are the same each time.
pub fn is_made_alone(alloc: Global, case: &Case) -> Result<bool, Memory> {
    match options_of(alloc, case) {
        Ok(options) => Ok(options.workers == 1),
        Err(Trouble::Form(_)) => Ok(true),
        Err(Trouble::Memory) => Err(Memory),
    }
}

/// The program of a text.
pub fn program(alloc: Global, text: &[u8]) -> Result<Checked, Trouble> {
    let program = match assemble(alloc, text) {
        Ok(program) => program,
        Err(SourceFault::Memory) => return Err(Trouble::Memory),
        Err(_) => return Err(NO_MACHINE),
    };
    match check(program) {
        Ok(checked) => Ok(checked),
        Err(_) => Err(NO_MACHINE),
    }
}

/// The machine of a program, as a run of these options begins.
pub fn open(alloc: Global, checked: Checked, options: &Options) -> Result<Machine, Memory>
    requires { OptionsInRange options.now }
    ensures { IfOk result (λ machine. machine.made ≡ 0) }
{
    let shape = Shape {
        cores: checked.program().cores(),
        banks: options.banks,
        sets: options.sets,
        ways: options.ways,
    };
    Machine::start(alloc, checked, shape, options.fuel)
}
