//! The summary of the runs of many seeds.
ghost use Rattle.std.specs.Prelude.{◌≡◌, ◌++◌, nat_eq, length, IfOk, OnOk};
ghost use Rattle.std.specs.Set.{distinct_count};
ghost use Rattle.run_report.specs.Run.{all_kinds, event_word};
ghost use Rattle.run_report.specs.Summary.{count_line};
ghost use Rattle.sweep_top.specs.Kept.{counted_answers, kind_spread_lines, tally_summary};
ghost use Rattle.sweep_top.specs.Summary.{kind_spread_line, outcome_count_line, outcome_lines, spread_part, summed_line};

use crate::counts::OutcomeCounts;
use crate::spread::{Spread, Summed};
use crate::tally::Tally;
use dn_base::{Memory, Outcome};
use indexmap::IndexSet;
use itoa::Buffer;
use message_net::EventKind;
use run_report::{all_kinds, event_name, outcome_name};
use std::alloc::Global;
use text_pieces::{push, push_decimal, push_long};

/// Appends a line with a word and a number.
#[tactic(auto, unfolding(run_report::specs::Summary::count_line))]
fn push_line(out: &mut Vec<u8>, word: &[u8], number: u64) -> Result<(), Memory>
    ensures { OnOk result (out.new.items ≡ out.old.items ++ count_line word.now number) }
{
    push(out, word)?;
    push_long(out, number)?;
    push(out, b"\n")
}

/// Appends how many runs have an outcome.
#[tactic(auto, unfolding(crate::specs::Summary::outcome_count_line))]
fn push_outcome(out: &mut Vec<u8>, outcome: Outcome, count: u32) -> Result<(), Memory>
    ensures { OnOk result (out.new.items ≡ out.old.items ++ outcome_count_line outcome count) }
{
    push(out, b"outcome ")?;
    push(out, outcome_name(outcome))?;
    push(out, b" ")?;
    push_decimal(out, count)?;
    push(out, b"\n")
}

/// Appends how many runs have each outcome.
#[tactic(auto, unfolding(crate::specs::Summary::outcome_lines))]
fn push_outcomes(out: &mut Vec<u8>, counts: &OutcomeCounts) -> Result<(), Memory>
    ensures { OnOk result (out.new.items ≡ out.old.items ++ outcome_lines counts.now) }
{
    push_outcome(out, Outcome::Done, counts.done)?;
    push_outcome(out, Outcome::Trapped, counts.trapped)?;
    push_outcome(out, Outcome::Fuel, counts.fuel)?;
    push_outcome(out, Outcome::Stuck, counts.stuck)
}

/// Appends the least and the most of a number of all runs.
#[tactic(auto, unfolding(crate::specs::Summary::spread_part))]
fn push_spread(out: &mut Vec<u8>, spread: &Spread) -> Result<(), Memory>
    ensures { OnOk result (out.new.items ≡ out.old.items ++ spread_part spread.now) }
{
    push(out, b" least ")?;
    push_long(out, spread.least)?;
    push(out, b" most ")?;
    push_long(out, spread.most)
}

/// Appends the line of a number of all runs: its least and its most, and the sum.
#[tactic(auto, unfolding(crate::specs::Summary::summed_line))]
fn push_summed(out: &mut Vec<u8>, name: &[u8], summed: &Summed) -> Result<(), Memory>
    ensures { OnOk result (out.new.items ≡ out.old.items ++ summed_line name.now summed.now) }
{
    push(out, name)?;
    push_spread(out, &summed.spread)?;
    push(out, b" sum ")?;
    let mut digits = Buffer::new();
    push(out, digits.format(summed.sum).as_bytes())?;
    push(out, b"\n")
}

/// Appends the line of a kind of event.
#[tactic(auto, unfolding(crate::specs::Summary::kind_spread_line))]
fn push_kind(out: &mut Vec<u8>, kind: EventKind, spread: &Spread) -> Result<(), Memory>
    ensures { OnOk result (out.new.items ≡ out.old.items ++ kind_spread_line kind spread.now) }
{
    push(out, b"count ")?;
    push(out, event_name(kind))?;
    push_spread(out, spread)?;
    push(out, b"\n")
}

/// Appends the lines of these kinds of event.
fn push_kinds(out: &mut Vec<u8>, spreads: &[Spread; 17], kinds: &[EventKind]) -> Result<(), Memory>
    ensures { OnOk result (out.new.items ≡ out.old.items ++ kind_spread_lines spreads.now kinds.now) }
{
    for kind in kinds {
        push_kind(out, *kind, &spreads[kind.index()])?;
    }
    Ok(())
}

/// How many different numbers there are.
fn different(alloc: Global, numbers: &[u64]) -> Result<usize, Memory>
    ensures { IfOk result (λ count. count ≡ distinct_count nat_eq numbers.now) }
{
    let mut set = IndexSet::new(alloc);
    for number in numbers {
        set.insert(*number)?;
    }
    Ok(set.len())
}

/// The summary of what is kept of the runs.
///
/// # Errors
/// `Memory` where there is no room for it.
#[tactic(auto, unfolding(crate::specs::Kept::tally_summary))]
pub(crate) fn summary(alloc: Global, tally: &Tally) -> Result<Vec<u8>, Memory>
    ensures { IfOk result (λ text. text.items ≡ tally_summary tally.now) }
{
    let mut out = Vec::new(alloc);
    push_line(&mut out, b"runs ", u64::from(tally.runs))?;
    push_outcomes(&mut out, &tally.outcomes)?;
    push_line(&mut out, b"answers ", tally.answers.len() as u64)?;
    let grants = different(alloc, tally.grants.as_slice())?;
    push_line(&mut out, b"grants ", grants as u64)?;
    push_summed(&mut out, b"retired", &tally.retired)?;
    push_summed(&mut out, b"events", &tally.events)?;
    push_kinds(&mut out, &tally.kinds, &all_kinds())?;
    Ok(out)
}
