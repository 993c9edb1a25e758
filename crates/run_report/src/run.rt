ghost use Rattle.std.specs.Prelude.{◌≡◌, ◌<◌, ◌≤◌, ◌++◌, length, flat_map, sum, IfOk, OnOk};
ghost use Rattle.run_report.specs.Run.{event_word, all_kinds, counted_line, kind_line, counts_text, run_text, report_of};

use crate::answer::answer_text;
use crate::grants::push_grants;
use dn_base::{Grant, MOST_WORDS, Memory};
use grant_log::Counts;
use message_net::EventKind;
use rv_core::Ending;
use std::alloc::Global;
use text_pieces::{push, push_long};

/// The kinds of event, in the order in which their counts are printed.
#[tactic(auto, unfolding(crate::specs::Run::all_kinds))]
pub fn all_kinds() -> [EventKind; 17]
    ensures { result ≡ all_kinds }
{
    [
        EventKind::Instr,
        EventKind::Evict,
        EventKind::Arrive,
        EventKind::ReadReq,
        EventKind::ReadFwd,
        EventKind::DataReply,
        EventKind::RegReq,
        EventKind::RegFwd,
        EventKind::RegAck,
        EventKind::WriteBack,
        EventKind::WbAck,
        EventKind::Acquire,
        EventKind::Release,
        EventKind::Grant,
        EventKind::Arrived,
        EventKind::Go,
        EventKind::Halt,
    ]
}

/// The printed name of a kind of event.
pub fn event_name(kind: EventKind) -> &'static [u8]
    ensures { result.now ≡ event_word kind }
{
    match kind {
        EventKind::Instr => b"instr",
        EventKind::Evict => b"evict",
        EventKind::Arrive => b"arrive",
        EventKind::ReadReq => b"read-req",
        EventKind::ReadFwd => b"read-fwd",
        EventKind::DataReply => b"data-reply",
        EventKind::RegReq => b"reg-req",
        EventKind::RegFwd => b"reg-fwd",
        EventKind::RegAck => b"reg-ack",
        EventKind::WriteBack => b"write-back",
        EventKind::WbAck => b"wb-ack",
        EventKind::Acquire => b"acquire",
        EventKind::Release => b"release",
        EventKind::Grant => b"grant",
        EventKind::Arrived => b"arrived",
        EventKind::Go => b"go",
        EventKind::Halt => b"halt",
    }
}

/// Adds a word and how many events it counts.
#[tactic(auto, unfolding(crate::specs::Run::counted_line))]
fn push_event(out: &mut Vec<u8>, word: &[u8], count: u64) -> Result<(), Memory>
    ensures { OnOk result (out.new.items ≡ out.old.items ++ counted_line word.now count) }
{
    push(out, b"count ")?;
    push(out, word)?;
    push(out, b" ")?;
    push_long(out, count)?;
    push(out, b"\n")
}

/// Adds how many events of each of these kinds there were.
fn push_kinds(out: &mut Vec<u8>, counts: &Counts, kinds: &[EventKind]) -> Result<(), Memory>
    ensures { OnOk result (out.new.items ≡ out.old.items ++ flat_map (kind_line counts.now) kinds.now) }
{
    for kind in kinds {
        push_event(out, event_name(*kind), counts.count(*kind))?;
    }
    Ok(())
}

/// How many events of all kinds there were.
pub fn event_count(kinds: &[u64]) -> u64
    requires { sum kinds.now < 18446744073709551616 }
    ensures { result ≡ sum kinds.now }
{
    kinds.iter().sum()
}

fn push_counts(out: &mut Vec<u8>, counts: &Counts) -> Result<(), Memory>
    requires { sum counts.now.kinds < 18446744073709551616 }
    ensures { OnOk result (out.new.items ≡ out.old.items ++ counts_text counts.now) }
{
    push_event(out, b"events", event_count(&counts.kinds))?;
    push_kinds(out, counts, &all_kinds())
}

/// The answer of a run, and then how it was made: a line for each grant of a lock, in order, and lines with the number of
/// events and the number of events of each kind.
///
/// The ending must have at most 65,536 words and 64 tasks, and the sum of the counts must fit 64 bits.
///
/// # Errors
/// `Memory` where there is no room for the text.
#[tactic(auto, unfolding(crate::specs::Run::report_of, crate::specs::Run::run_text, crate::specs::Grants::grant_lines))]
pub fn report(
    alloc: Global,
    ending: &Ending,
    grants: &[Grant],
    counts: &Counts,
) -> Result<Vec<u8>, Memory>
    requires words { length ending.now.memory ≤ MOST_WORDS }
    requires tasks { length ending.now.tasks ≤ 64 }
    requires events { sum counts.now.kinds < 18446744073709551616 }
    ensures { IfOk result (λ text. text.items ≡ report_of ending.now grants.now counts.now) }
{
    let mut out = answer_text(alloc, ending)?;
    push_grants(&mut out, grants)?;
    push_counts(&mut out, counts)?;
    Ok(out)
}
