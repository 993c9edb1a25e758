ghost use Rattle.std.specs.Prelude.{◌≡◌, ◌≢◌, IfOk, IfErr};
ghost use Rattle.claims.specs.declared.claim.ClaimFault.TheVariants.{Memory as NoMemory};
ghost use Rattle.claims.specs.Alone.{IsQuestionDocument, HasQuestionFault, IsOrderDocument, HasOrderFault};
ghost use Rattle.claims.specs.Claim.{IsClaimDocument};
ghost use Rattle.claims.specs.Faults.{HasFault};
ghost use Rattle.claims.specs.Refusal.{refusal_text};
ghost use Rattle.run_report.specs.Texts.{IsStop};
ghost use Rattle.text_places.specs.Places.{text_places};
ghost use Rattle.referee_top.specs.Answers.{IsFaulty};

use claims::{
    Claim, ClaimFault, GrantOrder, Question, claim_line, read_claim, read_order, read_question,
};
use dn_base::{Memory, Sequence};
use run_report::Stop;
use std::alloc::Global;
use text_places::{Places, located_program};

/// The refusal of a run log, read or to be written, for this fault, which isn't out of memory.
pub(crate) fn refusal_of(alloc: Global, fault: ClaimFault) -> Stop
    requires { fault ≢ NoMemory }
    ensures { IsStop (λ line. line ≡ refusal_text fault) result }
{
    match claim_line(alloc, fault) {
        Ok(line) => Stop::Refused(Sequence::from_vec(line)),
        Err(_) => Stop::Memory,
    }
}

/// What a run log claims.
///
/// # Errors
/// `Refused` with the line of the run log's first fault, and `Memory` where there is no room.
pub(crate) fn claim_in(alloc: Global, document: &[u8]) -> Result<Claim, Stop>
    ensures ok { IfOk result (IsClaimDocument document.now) }
    ensures stop { IfErr result (IsStop (IsFaulty HasFault document.now)) }
{
    match read_claim(alloc, document) {
        Ok(claim) => Ok(claim),
        Err(ClaimFault::Memory) => Err(Stop::Memory),
        Err(fault) => Err(refusal_of(alloc, fault)),
    }
}

/// The question and the order of the grants that a run log tells.
///
/// # Errors
/// `Refused` with the line of the run log's first fault, and `Memory` where there is no room.
pub(crate) fn order_in(alloc: Global, document: &[u8]) -> Result<GrantOrder, Stop>
    ensures ok { IfOk result (IsOrderDocument document.now) }
    ensures stop { IfErr result (IsStop (IsFaulty HasOrderFault document.now)) }
{
    match read_order(alloc, document) {
        Ok(order) => Ok(order),
        Err(ClaimFault::Memory) => Err(Stop::Memory),
        Err(fault) => Err(refusal_of(alloc, fault)),
    }
}

/// The question that a run log tells.
///
/// # Errors
/// `Refused` with the line of the run log's first fault, and `Memory` where there is no room.
pub(crate) fn question_in(alloc: Global, document: &[u8]) -> Result<Question, Stop>
    ensures ok { IfOk result (IsQuestionDocument document.now) }
    ensures stop { IfErr result (IsStop (IsFaulty HasQuestionFault document.now)) }
{
    match read_question(alloc, document) {
        Ok(question) => Ok(question),
        Err(ClaimFault::Memory) => Err(Stop::Memory),
        Err(fault) => Err(refusal_of(alloc, fault)),
    }
}

/// The places of a text that has a program, so that only memory can be wanting.
///
/// # Errors
/// `Memory` where there is no room.
pub(crate) fn places_of(alloc: Global, text: &[u8]) -> Result<Places, Memory>
    ensures { IfOk result (λ places. places ≡ text_places text.now) }
{
    match located_program(alloc, text) {
        Ok(located) => Ok(located.places),
        Err(_) => Err(Memory),
    }
}
