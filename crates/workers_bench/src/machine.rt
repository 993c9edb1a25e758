ghost use Rattle.std.specs.Prelude.{◌≡◌, IfSome};

use dn_base::Shape;
use dn_machine::Machine;
use effect_checker::{Checked, check};
use rv_assembler::assemble;
use std::alloc::Global;

/// The program of a text; None where the text is refused, or there is no room.
fn checked_of(alloc: Global, text: &[u8]) -> Option<Checked> {
    check(assemble(alloc, text).ok()?).ok()
}

/// The machine of a text, with the default size of the command; None if the text is refused, or there is no room.
pub fn machine_of(alloc: Global, text: &[u8]) -> Option<Machine>
    ensures { IfSome result (λ m. m.made ≡ 0) }
{
    let checked = checked_of(alloc, text)?;
    let shape = Shape {
        cores: checked.program().cores(),
        banks: 4,
        sets: 64,
        ways: 4,
    };
    Machine::start(alloc, checked, shape, 32_768).ok()
}
