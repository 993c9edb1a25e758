//! Where an address of data is.
ghost use Rattle.std.specs.Prelude.{◌≡◌, ◌-◌, length, slice_get};
ghost use Rattle.text_places.specs.Words.{word_place};
ghost use Rattle.sentences.specs.Sites.{site_behind, site_of_word, site_of, name_of, lock_name, len_of};

use dn_base::Name;
use region_table::{FIRST_DATA_ADDRESS, Program, Region};
use text_places::{WordPlace, region_of_word};

/// Where an address is.
#[derive(Clone, Copy)]
pub(crate) enum Site {
    /// In this data word of a region.
    Within { word: u32, place: WordPlace },
    /// So many bytes before the first region.
    Before { bytes: u32 },
    /// Where the last region, which has this number, would have the word of this index.
    Behind { region: usize, index: u32 },
    /// The text has no regions.
    Nowhere,
}

fn site_behind(regions: &[Region], number: usize, word: u32) -> Site
    ensures { result ≡ site_behind number word (slice_get regions.now number) }
{
    match regions.get(number) {
        Some(region) => Site::Behind {
            region: number,
            index: word.saturating_sub(region.start),
        },
        None => Site::Nowhere,
    }
}

fn site_of_word(program: &Program, word: u32) -> Site
    ensures { result ≡ site_of_word program.now.regions word (word_place program.now.regions word) }
{
    match region_of_word(program, word) {
        Some(place) => Site::Within { word, place },
        None => {
            let last = program.regions.len().saturating_sub(1);
            site_behind(program.regions.as_slice(), last, word)
        }
    }
}

/// Where an address is among the regions of a program.
pub(crate) fn site_of(program: &Program, address: u32) -> Site
    ensures { result ≡ site_of program.now.regions address }
{
    if program.regions.len() == 0 {
        return Site::Nowhere;
    }
    if address < FIRST_DATA_ADDRESS {
        return Site::Before {
            bytes: FIRST_DATA_ADDRESS - address,
        };
    }
    site_of_word(program, (address - FIRST_DATA_ADDRESS) / 4)
}

/// The name of the region of this number; nothing if there is none.
pub(crate) fn name_of(regions: &[Region], number: usize) -> &[u8]
    ensures { result.now ≡ name_of (slice_get regions.now number) }
{
    match regions.get(number) {
        Some(region) => region.name.bytes(),
        None => b"",
    }
}

/// How many words the region of this number has; 0 if there is none.
pub(crate) fn len_of(regions: &[Region], number: usize) -> u32
    ensures { result ≡ len_of (slice_get regions.now number) }
{
    match regions.get(number) {
        Some(region) => region.len,
        None => 0,
    }
}

/// The name of the lock of this number; nothing if there is none.
pub(crate) fn lock_name(locks: &[Name], number: usize) -> &[u8]
    ensures { result.now ≡ lock_name (slice_get locks.now number) }
{
    match locks.get(number) {
        Some(name) => name.bytes(),
        None => b"",
    }
}
