ghost use Rattle.std.specs.Prelude.{◌≡◌, ◌⊎◌, ◌+◌, ◌-◌, ◌/◌, ◌%◌, ◌<◌, ◌≤◌, length};
ghost use Rattle.rv_core.specs.Address.{code_at, data_at, size_of, byte_at, half_at, extended, replaced};

use region_table::{FIRST_CODE_ADDRESS, FIRST_DATA_ADDRESS};
use rv_isa::Width;

/// The code word at an address, or None if there is none.
pub(crate) fn code_word(code: &[u32], pc: u32) -> Option<u32>
    ensures { result ≡ code_at code.now pc }
{
    if pc >= FIRST_CODE_ADDRESS && pc % 4 == 0 {
        code.get(((pc - FIRST_CODE_ADDRESS) / 4) as usize).copied()
    } else {
        None
    }
}

/// Where the code word of an address stands among the code words. For an address at which none can stand it is a number that is too great
/// for any program's code. So one comparison with the length of the code tells whether a word is there.
#[inline(always)]
pub(crate) fn code_place(pc: u32) -> u32
    ensures here { 4096 ≤ pc → pc % 4 ≡ 0 → result ≡ (pc - 4096) / 4 }
    ensures nowhere { (pc < 4096) ⊎ (0 < pc % 4) → 65536 ≤ result }
{
    // Where an address isn't a multiple of 4, its low bits come to the top. An address below the code wraps.
    pc.wrapping_sub(FIRST_CODE_ADDRESS).rotate_right(2)
}

/// The data word at an address, in a memory of `words` words, or None where none stands there.
#[inline(always)]
pub(crate) fn data_word(words: usize, address: u32) -> Option<u32>
    ensures { result ≡ data_at words address }
{
    if address >= FIRST_DATA_ADDRESS && (((address - FIRST_DATA_ADDRESS) / 4) as usize) < words {
        Some((address - FIRST_DATA_ADDRESS) / 4)
    } else {
        None
    }
}

/// How many bytes a load or store moves.
#[inline(always)]
pub(crate) fn size(width: Width) -> u32
    ensures value { result ≡ size_of width }
    ensures some { 0 < result }
{
    match width {
        Width::B | Width::Bu => 1,
        Width::H | Width::Hu => 2,
        Width::W => 4,
    }
}

/// The byte at `lane` of a word.
#[inline(always)]
fn byte(word: u32, lane: u32) -> u8
    requires { lane < 4 }
    ensures { result ≡ byte_at word lane }
{
    word.to_le_bytes()[lane as usize]
}

/// The two bytes from `lane` on of a word.
#[inline(always)]
fn half(word: u32, lane: u32) -> u16
    requires { lane + 1 < 4 }
    ensures { result ≡ half_at word lane }
{
    u16::from_le_bytes([byte(word, lane), byte(word, lane + 1)])
}

/// The register after a load from the bytes of a word that begin at `lane`.
#[inline(always)]
pub(crate) fn part(width: Width, word: u32, lane: u32) -> u32
    requires { lane + size_of width ≤ 4 }
    ensures { result ≡ extended width word lane }
{
    match width {
        Width::B => i32::from(byte(word, lane).cast_signed()).cast_unsigned(),
        Width::H => i32::from(half(word, lane).cast_signed()).cast_unsigned(),
        Width::W => word,
        Width::Bu => u32::from(byte(word, lane)),
        Width::Hu => u32::from(half(word, lane)),
    }
}

/// The word after a store of the low bytes of a value to the bytes that begin at `lane`.
#[inline(always)]
pub(crate) fn replace(width: Width, word: u32, lane: u32, value: u32) -> u32
    requires { lane + size_of width ≤ 4 }
    ensures { result ≡ replaced width word lane value }
{
    let mut bytes = word.to_le_bytes();
    let lane = lane as usize;
    match width {
        Width::B => {
            bytes[lane] = byte(value, 0);
            u32::from_le_bytes(bytes)
        }
        Width::H => {
            bytes[lane] = byte(value, 0);
            bytes[lane + 1] = byte(value, 1);
            u32::from_le_bytes(bytes)
        }
        Width::W => value,
        Width::Bu | Width::Hu => word,
    }
}
