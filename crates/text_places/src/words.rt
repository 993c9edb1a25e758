//! The data words of regions.
ghost use Rattle.std.specs.Prelude.{◌≡◌, slice_get};
ghost use Rattle.text_places.specs.Words.{region_has, place_at, place_before, word_place};

use region_table::{Program, Region};

/// Which word of which region a data word is, both numbered from 0.
#[derive(Clone, Copy)]
pub struct WordPlace {
    pub region: usize,
    pub index: u32,
}

fn region_has(region: &Region, word: u32) -> bool
    ensures { result ≡ region_has region.now word }
{
    region.start <= word && word - region.start < region.len
}

/// A data word as a word of the region of this number, if that has it.
fn place_at(regions: &[Region], number: usize, word: u32) -> Option<WordPlace>
    ensures { result ≡ place_at number (slice_get regions.now number) word }
{
    match regions.get(number) {
        Some(region) if region_has(region, word) => Some(WordPlace {
            region: number,
            index: word - region.start,
        }),
        _ => None,
    }
}

/// A data word as a word of the last of the first `many` regions, if that has it.
fn place_before(regions: &[Region], many: usize, word: u32) -> Option<WordPlace>
    ensures { result ≡ place_before 0 regions.now many word }
{
    if many == 0 {
        None
    } else {
        place_at(regions, many - 1, word)
    }
}

/// The data word of this number as a word of its region; None if no region of the program has it. The regions are adjacent, so
/// a binary search finds it.
pub fn region_of_word(program: &Program, word: u32) -> Option<WordPlace>
    ensures { result ≡ word_place program.now.regions word }
{
    let regions = program.regions.as_slice();
    let many = regions.partition_point(|r| r.start <= word);
    place_before(regions, many, word)
}
