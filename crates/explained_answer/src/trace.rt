//! The trace of a text.
ghost use Rattle.std.specs.Prelude.{◌≡◌, ◌≤◌, ◌+◌, length, IfOk, MatchOption};
ghost use Rattle.text_pieces.specs.Parts.{source_part};
ghost use Rattle.run_replay.specs.declared.trace.Trace.{Trace as TraceOf};
ghost use Rattle.run_replay.specs.Document.{IsDocument};
ghost use Rattle.run_replay.specs.Faults.{HasFault};
ghost use Rattle.explained_answer.specs.Fronts.{line_behind};
ghost use Rattle.explained_answer.specs.Trace.{StandsHead, IsTraceTaken, taken_by};

use crate::fronts::{alike, line_behind};
use crate::taken::Taken;
use dn_base::{MOST_EVENTS, MOST_OF_TEXT, Memory};
use run_replay::{TraceFault, behind_title, read_shape, read_trace};
use std::alloc::Global;
use text_pieces::{behind, field, push_source};

/// A source text after the number of its bytes.
fn source_part(alloc: Global, text: &[u8]) -> Result<Vec<u8>, Memory>
    requires { length text.now ≤ MOST_OF_TEXT }
    ensures { IfOk result (λ part. part.items ≡ source_part text.now) }
{
    let mut part = Vec::new(alloc);
    push_source(&mut part, text)?;
    Ok(part)
}

/// The fault of an answer as a trace; None if it is one.
fn fault_of(alloc: Global, answer: &[u8]) -> Result<Option<TraceFault>, Memory>
    ensures { IfOk result (λ found. MatchOption found ((t : TraceOf) × IsDocument answer.now t) (HasFault answer.now)) }
{
    match read_trace(alloc, answer) {
        Ok(_) => Ok(None),
        Err(TraceFault::Memory) => Err(Memory),
        Err(fault) => Ok(Some(fault)),
    }
}

/// What is taken of an answer with this fault; `count` events should follow, the first of them on this line.
fn taken_by(count: u32, line: usize, fault: TraceFault) -> Taken
    requires { line ≤ 18446744069414584319 }
    ensures { result ≡ taken_by count line fault }
{
    match fault {
        TraceFault::Line { number } => Taken::Stops {
            line: line + number as usize,
        },
        TraceFault::Rest => Taken::Stops {
            line: line + count as usize,
        },
        TraceFault::TooLarge | TraceFault::Head | TraceFault::Memory => Taken::Other,
    }
}

/// Takes an answer that begins with all that comes before `count` events, the first of them on this line.
fn taken_by_events(
    alloc: Global,
    text: &[u8],
    answer: &[u8],
    count: u32,
    line: usize,
) -> Result<Taken, Memory>
    requires head { StandsHead text.now answer.now count }
    requires line { line ≡ 3 + line_behind (source_part text.now) }
    requires few { line ≤ 18446744069414584319 }
    ensures { IfOk result (IsTraceTaken text.now answer.now) }
{
    let found = fault_of(alloc, answer)?;
    match found {
        None => Ok(Taken::Whole),
        Some(fault) => Ok(taken_by(count, line, fault)),
    }
}

/// Takes an answer that is the trace of a text, as the mode trace prints it. It isn't checked whether the events are enabled.
///
/// If an answer begins with a trace's first line, and isn't such a trace, the first line that differs is given.
///
/// # Errors
/// `Memory` if there is no room.
pub fn take_trace(alloc: Global, text: &[u8], answer: &[u8]) -> Result<Taken, Memory>
    requires { length text.now ≤ MOST_OF_TEXT }
    ensures { IfOk result (IsTraceTaken text.now answer.now) }
{
    let Some(bytes) = behind_title(answer) else {
        return Ok(Taken::Other);
    };
    let Some((_, at_text)) = read_shape(bytes) else {
        return Ok(Taken::Stops { line: 2 });
    };
    let part = source_part(alloc, text)?;
    let Some(at_count) = behind(at_text, part.as_slice()) else {
        let place = alike(at_text, part.as_slice());
        let line = 2 + line_behind(&at_text[..place]);
        return Ok(Taken::Stops { line });
    };
    let line = 2 + line_behind(part.as_slice());
    let Some((count, _)) = field(at_count, b"events ", 0, MOST_EVENTS as u32, b'\n') else {
        return Ok(Taken::Stops { line });
    };
    taken_by_events(alloc, text, answer, count, line + 1)
}
