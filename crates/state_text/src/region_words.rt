//! The data words of a region, eight in a line.
ghost use Rattle.std.specs.Prelude.{◌≡◌, ◌++◌, max, length, take, drop, replicate, flat_map, OnOk};
ghost use Rattle.state_text.specs.ForReaders.{number_text, greatest, right_aligned, break_before, number_lines, columns_text, words_under, region_head, region_lines};

use crate::Base;
use dn_base::Memory;
use itoa::Buffer;
use region_table::Region;
use text_pieces::{push, to_hexadecimal};

/// Adds this many blanks.
fn push_blanks(out: &mut Vec<u8>, count: usize) -> Result<(), Memory>
    ensures { OnOk result (out.new.items ≡ out.old.items ++ replicate count 32) }
{
    for blank in 0..count {
        out.push(b' ')?;
    }
    Ok(())
}

/// Adds a number's digits at the right end of so many columns.
#[tactic(auto, unfolding(crate::specs::ForReaders::right_aligned))]
fn push_aligned(out: &mut Vec<u8>, width: usize, digits: &[u8]) -> Result<(), Memory>
    ensures { OnOk result (out.new.items ≡ out.old.items ++ right_aligned width digits.now) }
{
    push_blanks(out, width.saturating_sub(digits.len()))?;
    push(out, digits)
}

/// Adds a number at the right end of so many columns.
fn push_number(out: &mut Vec<u8>, base: Base, width: usize, number: u32) -> Result<(), Memory>
    ensures { OnOk result (out.new.items ≡ out.old.items ++ right_aligned width (number_text base number)) }
{
    match base {
        Base::Decimal => {
            let mut digits = Buffer::new();
            push_aligned(out, width, digits.format(number).as_bytes())
        }
        Base::Hexadecimal => push_aligned(out, width, &to_hexadecimal(number)),
    }
}

/// How many columns a number takes.
fn width_of(base: Base, number: u32) -> usize
    ensures { result ≡ length (number_text base number) }
{
    match base {
        Base::Decimal => {
            let mut digits = Buffer::new();
            digits.format(number).as_bytes().len()
        }
        Base::Hexadecimal => to_hexadecimal(number).len(),
    }
}

/// The greatest of some words, or 0.
fn greatest(words: &[u32]) -> u32
    ensures { result ≡ greatest words.now }
{
    let mut greatest = 0;
    for word in words {
        greatest = greatest.max(*word);
    }
    greatest
}

/// Adds what stands before the number of this index.
fn push_break(out: &mut Vec<u8>, index: usize) -> Result<(), Memory>
    ensures { OnOk result (out.new.items ≡ out.old.items ++ break_before index) }
{
    if index % 8 == 0 {
        push(out, b"\n  ")
    } else {
        push(out, b" ")
    }
}

/// Adds the words of a region, eight in a line, in columns of this width.
fn push_number_lines(
    out: &mut Vec<u8>,
    base: Base,
    width: usize,
    words: &[u32],
) -> Result<(), Memory>
    ensures { OnOk result (out.new.items ≡ out.old.items ++ number_lines base width 0 words.now) }
{
    let mut index = 0;
    for word in words {
        push_break(out, index)?;
        push_number(out, base, width, *word)?;
        index += 1;
    }
    Ok(())
}

/// The words of a region.
fn words_under<'a>(memory: &'a [u32], region: &Region) -> &'a [u32]
    ensures { result.now ≡ words_under memory.now region.now }
{
    let start = memory.len().min(region.start as usize);
    let (_, behind) = memory.split_at(start);
    let count = behind.len().min(region.len as usize);
    let (words, _) = behind.split_at(count);
    words
}

/// Adds the words of a region, in columns that are as wide as the greatest of them.
fn push_columns(out: &mut Vec<u8>, base: Base, words: &[u32]) -> Result<(), Memory>
    ensures { OnOk result (out.new.items ≡ out.old.items ++ columns_text base words.now) }
{
    push_number_lines(out, base, width_of(base, greatest(words)), words)
}

#[tactic(auto, unfolding(crate::specs::ForReaders::region_head))]
fn push_head(out: &mut Vec<u8>, name: &[u8]) -> Result<(), Memory>
    ensures { OnOk result (out.new.items ≡ out.old.items ++ region_head name.now) }
{
    push(out, b"region ")?;
    push(out, name)
}

/// Adds a region: its name, and its words.
fn push_region(out: &mut Vec<u8>, base: Base, memory: &[u32], region: &Region) -> Result<(), Memory>
    ensures { OnOk result (out.new.items ≡ out.old.items ++ region_lines base memory.now region.now) }
{
    push_head(out, region.name.bytes())?;
    push_columns(out, base, words_under(memory, region))?;
    push(out, b"\n")
}

/// Adds all regions.
pub(crate) fn push_regions(
    out: &mut Vec<u8>,
    base: Base,
    memory: &[u32],
    regions: &[Region],
) -> Result<(), Memory>
    ensures { OnOk result (out.new.items ≡ out.old.items ++ flat_map (region_lines base memory.now) regions.now) }
{
    for region in regions {
        push_region(out, base, memory, region)?;
    }
    Ok(())
}
