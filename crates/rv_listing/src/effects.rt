//! How the words that a task uses are written.
ghost use Rattle.std.specs.Prelude.{◌≡◌, ℕ, ◌++◌, ◌+◌, ◌<◌, ◌≤◌, codes, drop, take, length, option_map, slice_index_or, flat_map, Some, None, [], OnOk, IfOk};
ghost use Rattle.std.specs.Option.{option_to_list};
ghost use Rattle.std.specs.List.{All};
ghost use Rattle.src_text.specs.Laws.{ended};
ghost use Rattle.region_table.specs.declared.declared.Region.{Region};
ghost use Rattle.region_table.specs.Words.{IsCanonical};
ghost use Rattle.region_table.specs.Program.{AreTiled};
ghost use Rattle.rv_listing.specs.Law.{AreCanonical};
ghost use Rattle.rv_listing.specs.Listing.{text_of, use_line, part_line, interval_lines, set_lines, guarded_lines, all_guarded_lines, effect_lines};

use crate::statement::{Operand, push_line};
use dn_base::{MOST_WORDS, Memory, Name};
use region_table::{Effects, Interval, Region, WordSet};

/// How a task uses words: the word of the statement, and the lock that it holds, if any.
#[derive(Clone, Copy)]
pub(crate) struct Usage<'a> {
    pub word: &'static [u8],
    pub lock: Option<&'a [u8]>,
}

/// Adds the line of some words of a region.
#[tactic(auto, unfolding(crate::specs::Listing::use_line))]
fn push_use<'a>(
    out: &mut Vec<u8>,
    usage: Usage<'a>,
    region: &'a [u8],
    lo: u32,
    hi: u32,
) -> Result<(), Memory>
    ensures { OnOk result (out.new.items ≡ out.old.items ++ ended (use_line usage.entry.word.now (option_map (λ s. s.now) usage.entry.lock) region.now lo hi)) }
{
    use Operand::{Name, Number};
    match usage.lock {
        None => push_line(out, usage.word, &[Name(region), Number(lo), Number(hi)]),
        Some(lock) => push_line(
            out,
            usage.word,
            &[Name(lock), Name(region), Number(lo), Number(hi)],
        ),
    }
}

/// Adds the line of the part of an interval that lies in a region, if it has a word.
fn push_part<'a>(
    out: &mut Vec<u8>,
    usage: Usage<'a>,
    interval: Interval,
    region: &'a Region,
) -> Result<(), Memory>
    requires { region.now.start + region.now.len ≤ MOST_WORDS }
    ensures { OnOk result (out.new.items ≡ out.old.items ++ text_of (option_to_list (part_line usage.entry.word.now (option_map (λ s. s.now) usage.entry.lock) interval region.now))) }
{
    let lo = interval.lo.max(region.start);
    let hi = interval.hi.min(region.start + region.len);
    if lo < hi {
        push_use(
            out,
            usage,
            region.name.bytes(),
            lo - region.start,
            hi - region.start,
        )
    } else {
        Ok(())
    }
}

/// Adds the lines of an interval's parts in the regions from number `from` on. Gives the number of the first region that ends
/// after the interval.
fn push_interval<'a>(
    out: &mut Vec<u8>,
    usage: Usage<'a>,
    regions: &'a [Region],
    from: usize,
    interval: Interval,
) -> Result<usize, Memory>
    requires tiled { (size : ℕ) × (size ≤ MOST_WORDS) × AreTiled 0 regions.now size }
    requires from { from ≤ length regions.now }
    requires passed { All (λ (r : Region). r.start + r.len ≤ interval.lo) (take from regions.now) }
    requires some { interval.lo < interval.hi }
    ensures lines { IfOk result (λ _. out.new.items ≡ out.old.items ++ text_of (interval_lines usage.entry.word.now (option_map (λ s. s.now) usage.entry.lock) regions.now interval)) }
    ensures within { IfOk result (λ index. index ≤ length regions.now) }
    ensures passed { IfOk result (λ index. All (λ (r : Region). r.start + r.len ≤ interval.hi) (take index regions.now)) }
{
    let mut index = from;
    while index < regions.len() {
        let region = &regions[index];
        push_part(out, usage, interval, region)?;
        if interval.hi < region.start + region.len {
            return Ok(index);
        }
        index += 1;
    }
    Ok(index)
}

/// Adds the lines of a set of words. The time is proportional to the regions and the intervals.
pub(crate) fn push_set<'a>(
    out: &mut Vec<u8>,
    usage: Usage<'a>,
    regions: &'a [Region],
    set: &WordSet,
) -> Result<(), Memory>
    requires { (size : ℕ) × (size ≤ MOST_WORDS) × AreTiled 0 regions.now size }
    ensures lines { OnOk result (out.new.items ≡ out.old.items ++ text_of (set_lines usage.entry.word.now (option_map (λ s. s.now) usage.entry.lock) regions.now set.now)) }
    ensures canonical { IfOk result (λ _. IsCanonical set.now) }
{
    let mut from = 0;
    for interval in set.intervals() {
        from = push_interval(out, usage, regions, from, *interval)?;
    }
    Ok(())
}

/// Adds the lines of what a task uses under a lock.
fn push_guarded<'a>(
    out: &mut Vec<u8>,
    regions: &'a [Region],
    effects: &Effects,
    number: usize,
    lock: &'a Name,
) -> Result<(), Memory>
    requires tiled { (size : ℕ) × (size ≤ MOST_WORDS) × AreTiled 0 regions.now size }
    requires reads { number < length effects.now.guarded_reads }
    requires writes { number < length effects.now.guarded_writes }
    ensures lines { OnOk result (out.new.items ≡ out.old.items ++ text_of (guarded_lines regions.now effects.now number lock.now)) }
    ensures reads { IfOk result (λ _. IsCanonical (slice_index_or effects.now.guarded_reads number [])) }
    ensures writes { IfOk result (λ _. IsCanonical (slice_index_or effects.now.guarded_writes number [])) }
{
    let lock = Some(lock.bytes());
    let reads = Usage {
        word: b".greads",
        lock,
    };
    let writes = Usage {
        word: b".gwrites",
        lock,
    };
    push_set(
        out,
        reads,
        regions,
        &effects.guarded_reads.as_slice()[number],
    )?;
    push_set(
        out,
        writes,
        regions,
        &effects.guarded_writes.as_slice()[number],
    )
}

/// Adds the lines of what a task uses under locks.
fn push_all_guarded<'a>(
    out: &mut Vec<u8>,
    regions: &'a [Region],
    locks: &'a [Name],
    effects: &Effects,
) -> Result<(), Memory>
    requires tiled { (size : ℕ) × (size ≤ MOST_WORDS) × AreTiled 0 regions.now size }
    requires reads { length effects.now.guarded_reads ≡ length locks.now }
    requires writes { length effects.now.guarded_writes ≡ length locks.now }
    ensures lines { OnOk result (out.new.items ≡ out.old.items ++ text_of (all_guarded_lines regions.now effects.now 0 locks.now)) }
    ensures reads { IfOk result (λ _. All IsCanonical effects.now.guarded_reads) }
    ensures writes { IfOk result (λ _. All IsCanonical effects.now.guarded_writes) }
{
    for (number, lock) in locks.iter().enumerate() {
        push_guarded(out, regions, effects, number, lock)?;
    }
    Ok(())
}

/// Adds the lines of all words that a task uses.
pub(crate) fn push_effects<'a>(
    out: &mut Vec<u8>,
    regions: &'a [Region],
    locks: &'a [Name],
    effects: &Effects,
) -> Result<(), Memory>
    requires tiled { (size : ℕ) × (size ≤ MOST_WORDS) × AreTiled 0 regions.now size }
    requires reads { length effects.now.guarded_reads ≡ length locks.now }
    requires writes { length effects.now.guarded_writes ≡ length locks.now }
    ensures lines { OnOk result (out.new.items ≡ out.old.items ++ text_of (effect_lines regions.now locks.now effects.now)) }
    ensures canonical { IfOk result (λ _. AreCanonical effects.now) }
{
    let reads = Usage {
        word: b".reads",
        lock: None,
    };
    let writes = Usage {
        word: b".writes",
        lock: None,
    };
    push_set(out, reads, regions, &effects.reads)?;
    push_set(out, writes, regions, &effects.writes)?;
    push_all_guarded(out, regions, locks, effects)
}
