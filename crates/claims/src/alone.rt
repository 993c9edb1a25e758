ghost use Rattle.std.specs.Prelude.{◌≡◌, ◌≢◌, ◌⊎◌, ◌↔◌, ◌<◌, length, Ok, Err, IfOk, IfErr};
ghost use Rattle.claims.specs.declared.claim.Question.{Question as QuestionOf};
ghost use Rattle.claims.specs.declared.claim.GrantOrder.{GrantOrder as OrderOf};
ghost use Rattle.claims.specs.declared.claim.ClaimFault.{ClaimFault as FaultOf};
ghost use Rattle.claims.specs.declared.claim.ClaimFault.TheVariants.{TooLarge as AreTooMany, Head as NoHead, Memory as NoMemory};
ghost use Rattle.claims.specs.Alone.{IsQuestionDocument, HasQuestionFault, IsOrderDocument, HasOrderFault};
ghost use Rattle.claims.specs.Claim.{most_bytes};

use crate::claim::{ClaimFault, GrantOrder, Question};
use crate::front::{push_front, question_of};
use crate::head::read_opening;
use dn_base::{MOST_OF_DOCUMENT, Sequence};
use std::alloc::Global;

/// The question that some bytes tell alone, or their fault.
fn question(alloc: Global, bytes: &[u8]) -> Result<Question, ClaimFault>
    ensures ok { IfOk result (IsQuestionDocument bytes.now) }
    ensures err { IfErr result (λ f. f ≢ NoMemory → HasQuestionFault bytes.now f) }
    ensures large { most_bytes < length bytes.now → result ≡ Err AreTooMany }
    ensures head { HasQuestionFault bytes.now NoHead → result ≡ Err NoHead }
{
    if bytes.len() > MOST_OF_DOCUMENT {
        return Err(ClaimFault::TooLarge);
    }
    let Some(opening) = read_opening(bytes) else {
        return Err(ClaimFault::Head);
    };
    if opening.rest.len() > 0 {
        return Err(ClaimFault::Behind);
    }
    Ok(question_of(alloc, opening)?)
}

/// The question and the order of the grants that some bytes tell alone, or their fault.
fn order(alloc: Global, bytes: &[u8]) -> Result<GrantOrder, ClaimFault>
    ensures ok { IfOk result (IsOrderDocument bytes.now) }
    ensures err { IfErr result (λ f. f ≢ NoMemory → HasOrderFault bytes.now f) }
    ensures large { most_bytes < length bytes.now → result ≡ Err AreTooMany }
    ensures head { HasOrderFault bytes.now NoHead → result ≡ Err NoHead }
{
    let mut grants = Sequence::new(alloc);
    let front = push_front(&mut grants, bytes)?;
    if front.rest.len() > 0 {
        return Err(ClaimFault::Behind);
    }
    let question = question_of(alloc, front)?;
    Ok(GrantOrder { question, grants })
}

/// The question that a run log tells: the first three parts of a claim, alone.
///
/// # Errors
/// `TooLarge`, `Head` or `Behind` exactly if that is the fault of the bytes, and `Memory` if there is no room. `TooLarge` and
/// `Head` are found before any memory is taken.
pub fn read_question(alloc: Global, bytes: &[u8]) -> Result<Question, ClaimFault>
    ensures ok { IfOk result (IsQuestionDocument bytes.now) }
    ensures err { IfErr result (λ f. f ≢ NoMemory → HasQuestionFault bytes.now f) }
    ensures read { (q : QuestionOf) → IsQuestionDocument bytes.now q → (result ≡ Ok q) ⊎ (result ≡ Err NoMemory) }
    ensures refused { (f : FaultOf) → HasQuestionFault bytes.now f → (result ≡ Err f) ⊎ (result ≡ Err NoMemory) }
    ensures large { (result ≡ Err AreTooMany) ↔ (most_bytes < length bytes.now) }
    ensures head { (result ≡ Err NoHead) ↔ HasQuestionFault bytes.now NoHead }
{
    question(alloc, bytes)
}

/// The question and the order of the grants that a run log tells: the first four parts of a claim, alone.
///
/// The memory is proportional to the number of bytes, whatever numbers they tell.
///
/// # Errors
/// `TooLarge`, `Head`, `Grant` or `Behind` exactly if that is the fault of the bytes, and `Memory` if there is no room.
/// `TooLarge` and `Head` are found before any memory is taken.
pub fn read_order(alloc: Global, bytes: &[u8]) -> Result<GrantOrder, ClaimFault>
    ensures ok { IfOk result (IsOrderDocument bytes.now) }
    ensures err { IfErr result (λ f. f ≢ NoMemory → HasOrderFault bytes.now f) }
    ensures read { (o : OrderOf) → IsOrderDocument bytes.now o → (result ≡ Ok o) ⊎ (result ≡ Err NoMemory) }
    ensures refused { (f : FaultOf) → HasOrderFault bytes.now f → (result ≡ Err f) ⊎ (result ≡ Err NoMemory) }
    ensures large { (result ≡ Err AreTooMany) ↔ (most_bytes < length bytes.now) }
    ensures head { (result ≡ Err NoHead) ↔ HasOrderFault bytes.now NoHead }
{
    order(alloc, bytes)
}
