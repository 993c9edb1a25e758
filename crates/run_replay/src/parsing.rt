ghost use Rattle.std.specs.Prelude.{◌≡◌, ◌≢◌, ◌⊎◌, Ok, Err, IfOk, IfErr};
ghost use Rattle.run_replay.specs.declared.trace.Trace.{Trace as TraceOf};
ghost use Rattle.run_replay.specs.declared.trace.TraceFault.{TraceFault as FaultOf};
ghost use Rattle.run_replay.specs.declared.trace.TraceFault.TheVariants.{Memory as NoMemory};
ghost use Rattle.run_replay.specs.Document.{IsDocument};
ghost use Rattle.run_replay.specs.Faults.{HasFault};

use crate::events::events;
use crate::head::read_heading;
use crate::trace::{Trace, TraceFault};
use dn_base::{MOST_OF_DOCUMENT, Sequence};
use std::alloc::Global;

/// What a document tells of a run, or the fault of the bytes.
fn read(alloc: Global, bytes: &[u8]) -> Result<Trace, TraceFault>
    ensures ok { IfOk result (IsDocument bytes.now) }
    ensures err { IfErr result (λ f. f ≢ NoMemory → HasFault bytes.now f) }
{
    if bytes.len() > MOST_OF_DOCUMENT {
        return Err(TraceFault::TooLarge);
    }
    let Some(heading) = read_heading(bytes) else {
        return Err(TraceFault::Head);
    };
    let events = events(alloc, heading.count, heading.rest)?;
    let text = Vec::from_slice(alloc, heading.text)?;
    Ok(Trace {
        shape: heading.shape,
        text: Sequence::from_vec(text),
        events,
    })
}

/// The trace that a document tells.
///
/// The memory is proportional to the number of bytes, whatever numbers they tell.
///
/// # Errors
/// `TooLarge`, `Head`, `Line` or `Rest` exactly if that is the fault of the bytes, and `Memory` if there is no room.
pub fn read_trace(alloc: Global, bytes: &[u8]) -> Result<Trace, TraceFault>
    ensures ok { IfOk result (IsDocument bytes.now) }
    ensures err { IfErr result (λ f. f ≢ NoMemory → HasFault bytes.now f) }
    ensures read { (t : TraceOf) → IsDocument bytes.now t → (result ≡ Ok t) ⊎ (result ≡ Err NoMemory) }
    ensures refused { (f : FaultOf) → HasFault bytes.now f → (result ≡ Err f) ⊎ (result ≡ Err NoMemory) }
{
    read(alloc, bytes)
}
