ghost use Rattle.std.specs.Prelude.{◌≡◌, ℕ, ◌+◌, ◌≤◌, IfOk};
ghost use Rattle.region_table.specs.Words.{has, IsCanonical};
ghost use Rattle.region_table.specs.Program.{AreTiled};
ghost use Rattle.region_table.specs.Overlap.{overlaps, in_overlapped};

use crate::declared::Region;
use crate::interval::Interval;
use crate::merging::join;
use crate::searching::first_past;
use crate::words::WordSet;
use dn_base::{MOST_WORDS, Memory};
use std::alloc::Global;

/// Whether the intervals have a word of the region, by a binary search.
fn has_word_of(words: &[Interval], region: &Region) -> bool
    requires canonical { IsCanonical words.now }
    requires within { region.now.start + region.now.len ≤ MOST_WORDS }
    ensures { result ≡ overlaps words.now region.now }
{
    match first_past(words, region.start) {
        Some(interval) => interval.lo < region.start + region.len,
        None => false,
    }
}

/// The words of the whole regions of which the intervals have a word.
pub(crate) fn whole_regions(
    alloc: Global,
    regions: &[Region],
    words: &[Interval],
) -> Result<WordSet, Memory>
    requires canonical { IsCanonical words.now }
    requires tiled { (size : ℕ) × (size ≤ MOST_WORDS) × AreTiled 0 regions.now size }
    ensures { IfOk result (λ whole. (w : ℕ) → has whole w ≡ in_overlapped regions.now words.now w) }
{
    let mut out = Vec::new(alloc);
    for region in regions {
        if has_word_of(words, region) {
            let end = region.start + region.len;
            join(
                &mut out,
                Interval {
                    lo: region.start,
                    hi: end,
                },
            )?;
        }
    }
    Ok(WordSet::of_intervals(out))
}
