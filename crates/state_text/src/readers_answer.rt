//! The answer of a run for readers.
ghost use Rattle.std.specs.Prelude.{◌≡◌, ◌≤◌, ◌++◌, length, flat_map, IfOk, OnOk};
ghost use Rattle.run_report.specs.Answer.{outcome_line};
ghost use Rattle.state_text.specs.ForReaders.{task_end_line, named_grant_line, answer_for_readers};

use crate::Base;
use crate::answer_tasks::{NamedSource, push_tasks};
use crate::region_words::push_regions;
use dn_base::{Grant, MOST_OF_TEXT, Memory, Name, Outcome};
use run_report::outcome_name;
use rv_assembler::version_line;
use rv_core::Ending;
use src_text::tokens;
use std::alloc::Global;
use text_pieces::{push, push_decimal};
use text_places::{Located, push_lock};

#[tactic(auto, unfolding(run_report::specs::Answer::outcome_line))]
fn push_outcome(out: &mut Vec<u8>, outcome: Outcome) -> Result<(), Memory>
    ensures { OnOk result (out.new.items ≡ out.old.items ++ outcome_line outcome) }
{
    push(out, b"outcome ")?;
    push(out, outcome_name(outcome))?;
    push(out, b"\n")
}

#[tactic(auto, unfolding(crate::specs::ForReaders::named_grant_line))]
fn push_grant(out: &mut Vec<u8>, locks: &[Name], grant: Grant) -> Result<(), Memory>
    ensures { OnOk result (out.new.items ≡ out.old.items ++ named_grant_line locks.now grant) }
{
    push(out, b"grant of ")?;
    push_lock(out, locks, grant.lock.0 as usize)?;
    push(out, b" to core ")?;
    push_decimal(out, grant.core.0)?;
    push(out, b" in phase ")?;
    push_decimal(out, grant.phase.0)?;
    push(out, b"\n")
}

/// Adds the lines of these grants.
fn push_grants(out: &mut Vec<u8>, locks: &[Name], grants: &[Grant]) -> Result<(), Memory>
    ensures { OnOk result (out.new.items ≡ out.old.items ++ flat_map (named_grant_line locks.now) grants.now) }
{
    for grant in grants {
        push_grant(out, locks, *grant)?;
    }
    Ok(())
}

/// Adds a line for each task that started.
fn push_ended(
    alloc: Global,
    out: &mut Vec<u8>,
    text: &[u8],
    located: &Located,
    ending: &Ending,
) -> Result<(), Memory>
    requires { length text.now ≤ MOST_OF_TEXT }
    ensures { OnOk result (out.new.items ≡ out.old.items ++ flat_map (task_end_line text.now located.now) ending.now.tasks) }
{
    let tokenized = tokens(alloc, text)?;
    let lines = tokenized.as_slice();
    let source = NamedSource {
        text,
        lines,
        version: version_line(text, lines),
        located,
    };
    push_tasks(out, &source, ending.tasks.as_slice())
}

/// The answer of a run for readers: a line with the outcome; a line for each task that started, with its name, how it ended, and how
/// many instructions it retired; each region with its words at the end, eight in a line; and a line for each grant of a lock, in order.
///
/// A task has the name of the entry that its line in the text names. The text has at most 1,048,576 bytes, and `located` is its
/// program with the places of its parts.
///
/// # Errors
/// `Memory` where there is no room for the text.
#[tactic(auto, unfolding(crate::specs::ForReaders::answer_for_readers))]
pub fn answer_for_readers(
    alloc: Global,
    base: Base,
    text: &[u8],
    located: &Located,
    ending: &Ending,
    grants: &[Grant],
) -> Result<Vec<u8>, Memory>
    requires { length text.now ≤ MOST_OF_TEXT }
    ensures { IfOk result (λ out. out.items ≡ answer_for_readers base text.now located.now ending.now grants.now) }
{
    let program = &located.program;
    let mut out = Vec::new(alloc);
    push_outcome(&mut out, ending.outcome)?;
    push_ended(alloc, &mut out, text, located, ending)?;
    push_regions(
        &mut out,
        base,
        ending.memory.as_slice(),
        program.regions.as_slice(),
    )?;
    push_grants(&mut out, program.locks.as_slice(), grants)?;
    Ok(out)
}
