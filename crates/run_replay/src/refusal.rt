ghost use Rattle.std.specs.Prelude.{◌≡◌, ◌≢◌, ◌++◌, IfOk, OnOk};
ghost use Rattle.run_replay.specs.declared.trace.TraceFault.TheVariants.{Memory as NoMemory};
ghost use Rattle.run_replay.specs.declared.refusal.TraceRefusal.TheVariants.{Fault as OfFault};
ghost use Rattle.run_replay.specs.Refusal.{fault_text, refusal_text};

use crate::trace::TraceFault;
use dn_base::Memory;
use std::alloc::Global;
use text_pieces::{push, push_decimal};

/// Why a document isn't that of a complete run.
#[derive(Clone, Copy, PartialEq, Eq)]
pub enum TraceRefusal {
    /// The bytes are no document.
    Fault(TraceFault),
    /// The event of this number, from 0, is not enabled in its turn; all events before it may.
    NotEnabled { number: u32 },
    /// Another event is enabled after the events.
    Incomplete,
}

#[tactic(auto, unfolding(crate::specs::Refusal::fault_text))]
fn push_fault(out: &mut Vec<u8>, fault: TraceFault) -> Result<(), Memory>
    ensures { OnOk result (out.new.items ≡ out.old.items ++ fault_text fault) }
{
    match fault {
        TraceFault::TooLarge => push(out, b"too-large"),
        TraceFault::Head => push(out, b"head"),
        TraceFault::Line { number } => {
            push(out, b"event ")?;
            push_decimal(out, number)
        }
        TraceFault::Rest => push(out, b"rest"),
        TraceFault::Memory => push(out, b"memory"),
    }
}

/// The line that says why a document is refused.
///
/// Out of memory is no refusal: the fault `TraceFault::Memory` must not be passed.
///
/// # Errors
/// `Memory` if there is no room for the line.
#[tactic(auto, unfolding(crate::specs::Refusal::refusal_text))]
pub fn trace_line(alloc: Global, refusal: &TraceRefusal) -> Result<Vec<u8>, Memory>
    requires { refusal.now ≢ OfFault NoMemory }
    ensures { IfOk result (λ line. line.items ≡ refusal_text refusal.now) }
{
    let mut out = Vec::new(alloc);
    push(&mut out, b"refused trace ")?;
    match *refusal {
        TraceRefusal::Fault(fault) => push_fault(&mut out, fault)?,
        TraceRefusal::NotEnabled { number } => {
            push(&mut out, b"not-enabled ")?;
            push_decimal(&mut out, number)?;
        }
        TraceRefusal::Incomplete => push(&mut out, b"incomplete")?,
    }
    push(&mut out, b"\n")?;
    Ok(out)
}
