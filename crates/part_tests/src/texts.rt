use dn_base::Memory;
use effect_checker::{Checked, check};
use region_table::Program;
use rv_assembler::assemble;
use std::alloc::Global;

/// The program of a text.
pub(crate) fn program(alloc: Global, text: &[u8]) -> Result<Program, Memory> {
    match assemble(alloc, text) {
        Ok(program) => Ok(program),
        Err(_) => Err(Memory),
    }
}

/// The checked program of a text.
pub(crate) fn checked(alloc: Global, text: &[u8]) -> Result<Checked, Memory> {
    match check(program(alloc, text)?) {
        Ok(checked) => Ok(checked),
        Err(_) => Err(Memory),
    }
}
