//! The loop that an instruction is in.
ghost use Rattle.std.specs.Prelude.{◌≡◌};
ghost use Rattle.sentences.specs.Loops.{plain_offset, jump_offset, target_from, word_target, loop_if, address_behind, loop_among, loop_around};

use region_table::FIRST_CODE_ADDRESS;
use rv_isa::{Instr, Reg, decode};

/// A loop: the addresses of its first instruction, and of the instruction that goes back to that.
#[derive(Clone, Copy, Debug)]
pub struct Loop {
    pub head: u32,
    pub back: u32,
}

/// How far a jump goes that notes its return address in this register; None if it notes one.
fn plain_offset(rd: Reg, offset: i32) -> Option<i32>
    ensures { result ≡ plain_offset rd offset }
{
    if rd.number() == 0 { Some(offset) } else { None }
}

/// How far a branch goes, or a jump that notes no return address.
fn jump_offset(instr: Instr) -> Option<i32>
    ensures { result ≡ jump_offset instr }
{
    match instr {
        Instr::Jal { rd, offset } => plain_offset(rd, offset),
        Instr::Branch { offset, .. } => Some(offset),
        _ => None,
    }
}

fn target_from(address: u32, offset: i32) -> u32
    ensures { result ≡ target_from address offset }
{
    address.wrapping_add(offset.cast_unsigned())
}

/// Where the code word at an address may go on, other than behind it.
fn word_target(address: u32, word: u32) -> Option<u32>
    ensures { result ≡ word_target address word }
{
    let offset = jump_offset(decode(word)?)?;
    Some(target_from(address, offset))
}

/// The loop that goes back from an address to a head, if that is one around the instruction at `pc`.
fn loop_if(pc: u32, address: u32, head: Option<u32>) -> Option<Loop>
    ensures { result ≡ loop_if pc address head }
{
    match head {
        Some(head) if head <= pc && pc <= address => Some(Loop {
            head,
            back: address,
        }),
        _ => None,
    }
}

fn address_behind(address: u32) -> u32
    ensures { result ≡ address_behind address }
{
    address.wrapping_add(4)
}

/// The first of these code words that closes a loop around the instruction at `pc`; the first word is at this address.
fn loop_among(pc: u32, first: u32, words: &[u32]) -> Option<Loop>
    ensures { result ≡ loop_among pc first words.now }
{
    let mut address = first;
    for word in words {
        let found = loop_if(pc, address, word_target(address, *word));
        if found.is_some() {
            return found;
        }
        address = address_behind(address);
    }
    None
}

/// The loop that the instruction at `pc` is in; the one that ends first, if it is in several.
pub(crate) fn loop_around(code: &[u32], pc: u32) -> Option<Loop>
    ensures { result ≡ loop_around code.now pc }
{
    loop_among(pc, FIRST_CODE_ADDRESS, code)
}
