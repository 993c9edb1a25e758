ghost use Rattle.std.specs.Prelude.{◌≡◌, ◌++◌, OnOk, slice_get};
ghost use Rattle.text_places.specs.Texts.{indexed, plain_word, region_word_text, word_text, byte_text, address_text, part_text, code_text, lock_text, quoted, quoted_line};

use crate::{CodePlace, WordPlace, line_text, region_of_word};
use dn_base::{Memory, Name};
use region_table::{FIRST_DATA_ADDRESS, Program};
use text_pieces::{push, push_decimal, push_long};

#[tactic(auto, unfolding(crate::specs::Texts::indexed))]
fn push_indexed(out: &mut Vec<u8>, name: &Name, index: u32) -> Result<(), Memory>
    ensures { OnOk result (out.new.items ≡ out.old.items ++ indexed name.now index) }
{
    push(out, name.bytes())?;
    push(out, b"[")?;
    push_decimal(out, index)?;
    push(out, b"]")
}

#[tactic(auto, unfolding(crate::specs::Texts::plain_word))]
fn push_plain_word(out: &mut Vec<u8>, word: u32) -> Result<(), Memory>
    ensures { OnOk result (out.new.items ≡ out.old.items ++ plain_word word) }
{
    push(out, b"word ")?;
    push_decimal(out, word)
}

/// Adds a word of a region, or the word by its number where there is no such region.
fn push_region_word(
    out: &mut Vec<u8>,
    program: &Program,
    place: WordPlace,
    word: u32,
) -> Result<(), Memory>
    ensures { OnOk result (out.new.items ≡ out.old.items ++ region_word_text (slice_get program.now.regions place.region) place.index word) }
{
    match program.regions.get(place.region) {
        Some(region) => push_indexed(out, &region.name, place.index),
        None => push_plain_word(out, word),
    }
}

/// Appends a data word of a program: as `m[3]`, or as `word 70` if no region has it.
///
/// # Errors
/// `Memory` where there is no room.
pub fn push_word(out: &mut Vec<u8>, program: &Program, word: u32) -> Result<(), Memory>
    ensures { OnOk result (out.new.items ≡ out.old.items ++ word_text program.now.regions word) }
{
    match region_of_word(program, word) {
        Some(place) => push_region_word(out, program, place, word),
        None => push_plain_word(out, word),
    }
}

#[tactic(auto, unfolding(crate::specs::Texts::byte_text))]
fn push_byte(out: &mut Vec<u8>, byte: u32) -> Result<(), Memory>
    ensures { OnOk result (out.new.items ≡ out.old.items ++ byte_text byte) }
{
    if byte == 0 {
        return Ok(());
    }
    push(out, b" + ")?;
    push_decimal(out, byte)
}

/// Appends what a data address points to: a word as `m[3]`, a later byte of a word as `m[3] + 2`, or `outside of all regions`.
///
/// # Errors
/// `Memory` where there is no room.
pub fn push_address(out: &mut Vec<u8>, program: &Program, address: u32) -> Result<(), Memory>
    ensures { OnOk result (out.new.items ≡ out.old.items ++ address_text program.now.regions address) }
{
    if address < FIRST_DATA_ADDRESS {
        return push(out, b"outside of all regions");
    }
    let word = (address - FIRST_DATA_ADDRESS) / 4;
    match region_of_word(program, word) {
        Some(place) => {
            push_region_word(out, program, place, word)?;
            push_byte(out, address % 4)
        }
        None => push(out, b"outside of all regions"),
    }
}

#[tactic(auto, unfolding(crate::specs::Texts::part_text))]
fn push_part(out: &mut Vec<u8>, part: u32) -> Result<(), Memory>
    ensures { OnOk result (out.new.items ≡ out.old.items ++ part_text part) }
{
    if part == 0 {
        return Ok(());
    }
    push(out, b" (second word)")
}

/// Appends the origin of a code word: `line 12`, or `line 12 (second word)` for the second word of `li` and `la`.
///
/// # Errors
/// `Memory` where there is no room.
#[tactic(auto, unfolding(crate::specs::Texts::code_text))]
pub fn push_code_place(out: &mut Vec<u8>, place: CodePlace) -> Result<(), Memory>
    ensures { OnOk result (out.new.items ≡ out.old.items ++ code_text place) }
{
    push(out, b"line ")?;
    push_decimal(out, place.line)?;
    push_part(out, place.part)
}

/// Appends a lock by its name and number, as `k (lock 0)`, or by its number alone if there is no such lock.
///
/// # Errors
/// `Memory` where there is no room.
#[tactic(auto, unfolding(crate::specs::Texts::lock_text))]
pub fn push_lock(out: &mut Vec<u8>, locks: &[Name], number: usize) -> Result<(), Memory>
    ensures { OnOk result (out.new.items ≡ out.old.items ++ lock_text locks.now number) }
{
    match locks.get(number) {
        Some(name) => {
            push(out, name.bytes())?;
            push(out, b" (lock ")?;
            push_long(out, number as u64)?;
            push(out, b")")
        }
        None => {
            push(out, b"lock ")?;
            push_long(out, number as u64)
        }
    }
}

/// Appends the bytes of a line after its number, as `12 | la t0, m`, and a newline.
///
/// # Errors
/// `Memory` where there is no room.
#[tactic(auto, unfolding(crate::specs::Texts::quoted))]
pub fn push_quoted(out: &mut Vec<u8>, line: u32, bytes: &[u8]) -> Result<(), Memory>
    ensures { OnOk result (out.new.items ≡ out.old.items ++ quoted line bytes.now) }
{
    push_decimal(out, line)?;
    push(out, b" | ")?;
    push(out, bytes)?;
    push(out, b"\n")
}

/// Appends a line of a text after its number, as `12 | la t0, m`, and a newline. Nothing if the text has no such line.
///
/// # Errors
/// `Memory` where there is no room.
pub fn push_quoted_line(out: &mut Vec<u8>, text: &[u8], line: u32) -> Result<(), Memory>
    ensures { OnOk result (out.new.items ≡ out.old.items ++ quoted_line text.now line) }
{
    match line_text(text, line as usize) {
        Some(bytes) => push_quoted(out, line, bytes),
        None => Ok(()),
    }
}
