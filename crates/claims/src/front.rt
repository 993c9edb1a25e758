ghost use Rattle.std.specs.Prelude.{◌≡◌, ◌≢◌, ◌<◌, [], length, Err, IfOk, IfErr};
ghost use Rattle.claims.specs.declared.claim.ClaimFault.TheVariants.{TooLarge as AreTooMany, Head as NoHead, Memory as NoMemory};
ghost use Rattle.claims.specs.Claim.{most_bytes};
ghost use Rattle.claims.specs.Faults.{HasFrontFault};
ghost use Rattle.claims.specs.Rows.{asked_by, IsFront};

use crate::claim::{ClaimFault, Question};
use crate::head::{Opening, read_heading};
use crate::rows::push_grants;
use dn_base::{Grant, MOST_OF_DOCUMENT, Memory, Sequence};
use std::alloc::Global;

/// Adds the grants that some bytes tell behind what is claimed of. The answer is that, with the bytes after the grants.
///
/// # Errors
/// `TooLarge`, `Head` or `Grant` where the bytes don't begin so, and `Memory`. `TooLarge` and `Head` are found before any memory
/// is taken.
pub(crate) fn push_front<'a>(
    grants: &mut Sequence<Grant>,
    bytes: &'a [u8],
) -> Result<Opening<'a>, ClaimFault>
    requires { grants.old ≡ [] }
    ensures ok { IfOk result (λ o. IsFront bytes.now o grants.new) }
    ensures err { IfErr result (λ f. f ≢ NoMemory → HasFrontFault bytes.now f) }
    ensures large { most_bytes < length bytes.now → result ≡ Err AreTooMany }
    ensures head { HasFrontFault bytes.now NoHead → result ≡ Err NoHead }
{
    if bytes.len() > MOST_OF_DOCUMENT {
        return Err(ClaimFault::TooLarge);
    }
    let Some(heading) = read_heading(bytes) else {
        return Err(ClaimFault::Head);
    };
    let rest = push_grants(grants, heading.count, heading.rest)?;
    Ok(Opening {
        fuel: heading.fuel,
        text: heading.text,
        rest,
    })
}

/// What is claimed of, with a text of its own.
pub(crate) fn question_of(alloc: Global, opening: Opening<'_>) -> Result<Question, Memory>
    ensures { IfOk result (λ question. question ≡ asked_by opening.entry) }
{
    let text = Vec::from_slice(alloc, opening.text)?;
    Ok(Question {
        fuel: opening.fuel,
        text: Sequence::from_vec(text),
    })
}
