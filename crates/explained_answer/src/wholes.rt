//! The answers that are whole texts.
ghost use Rattle.std.specs.Prelude.{◌≤◌, length, IfOk, MatchOption};
ghost use Rattle.explained_answer.specs.Explained.{IsNoListing, IsNoTrace, IsListingAnswer, IsTraceAnswer};

use crate::explaining::Explained;
use crate::{Taken, take_listing, take_trace};
use dn_base::{MOST_OF_TEXT, Memory, Sequence};
use std::alloc::Global;
use text_places::Located;

/// Explains an answer that is the listing of the text's program, or begins as it; None if its first line differs.
pub(crate) fn explained_listing(
    alloc: Global,
    text: &[u8],
    located: &Located,
    answer: &[u8],
) -> Result<Option<Explained>, Memory>
    ensures { IfOk result (λ found. MatchOption found (IsNoListing text.now located.now answer.now) (IsListingAnswer text.now located.now answer.now)) }
{
    let mut out = Vec::new(alloc);
    match take_listing(alloc, &mut out, text, located, answer)? {
        Taken::Whole => Ok(Some(Explained::Text(Sequence::from_vec(out)))),
        Taken::Stops { line } => Ok(Some(Explained::Refused { line })),
        Taken::Other => Ok(None),
    }
}

/// Repeats an answer that is the trace of the text, or begins as one; None if its first line differs.
pub(crate) fn explained_trace(
    alloc: Global,
    text: &[u8],
    answer: &[u8],
) -> Result<Option<Explained>, Memory>
    requires { length text.now ≤ MOST_OF_TEXT }
    ensures { IfOk result (λ found. MatchOption found (IsNoTrace text.now answer.now) (IsTraceAnswer text.now answer.now)) }
{
    match take_trace(alloc, text, answer)? {
        Taken::Whole => {
            let repeated = Vec::from_slice(alloc, answer)?;
            Ok(Some(Explained::Text(Sequence::from_vec(repeated))))
        }
        Taken::Stops { line } => Ok(Some(Explained::Refused { line })),
        Taken::Other => Ok(None),
    }
}
