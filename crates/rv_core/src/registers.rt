ghost use Rattle.std.specs.Prelude.{◌≡◌};
ghost use Rattle.rv_core.specs.Registers.{value_in, with_value};

use rv_isa::Reg;

/// The value of a register; x0 reads as 0.
#[inline(always)]
pub(crate) fn read(regs: &[u32; 32], reg: Reg) -> u32
    ensures { result ≡ value_in regs.now reg }
{
    let number = reg.number() as usize;
    if number == 0 { 0 } else { regs[number] }
}

/// Writes a register; a write to x0 is dropped.
#[inline(always)]
pub(crate) fn write(regs: &mut [u32; 32], reg: Reg, value: u32)
    ensures { regs.new ≡ with_value regs.old reg value }
{
    let number = reg.number() as usize;
    if number != 0 {
        regs[number] = value;
    }
}
