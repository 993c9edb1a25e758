ghost use Rattle.std.specs.Prelude.{◌≡◌, IfOk, IfErr};
ghost use Rattle.claims.specs.Alone.{IsOrder};
ghost use Rattle.claims.specs.Claim.{IsClaimDocument, IsQuestion, claim_text as text_of};
ghost use Rattle.claims.specs.Judge.{IsJudgeable};
ghost use Rattle.claims.specs.Right.{IsRightClaim, IsLeastClaim};
ghost use Rattle.run_report.specs.Texts.{IsStop};
ghost use Rattle.text_places.specs.Places.{text_places};
ghost use Rattle.referee_top.specs.declared.mode.RefereeMode.TheVariants as mode;
ghost use Rattle.referee_top.specs.Answers.{IsAnswer, IsJudged, IsDiagnosed, IsSettledJudged, IsPlainDocument, IsNotPlain, surplus, IsOrdered, IsLeastReply, IsTooLarge, IsUnwritten, mode_done, refused_with, verdict_reply, verdict_status, claim_reply};

use crate::documents::{claim_in, order_in, places_of, question_in, refusal_of};
use crate::mode::RefereeMode;
use crate::settled::judge_settled;
use crate::status::RefereeStatus;
use claims::{
    Claim, ClaimFault, ClaimTextError, GrantOrder, Question, RightClaim, Verdict, claim_text,
    diagnose, judge, least_claim, push_diagnosis, push_verdict, right_claim,
};
use common_outcomes::Outcomes;
use dn_base::{Memory, Sequence};
use effect_checker::Checked;
use outcomes_top::{open_line, outcomes};
use program_outside::Output;
use run_report::{Stop, checked_of};
use std::alloc::Global;
use text_places::Places;

/// A status, and all bytes that are to be written.
pub type Reply = Output<RefereeStatus>;

/// The status of a verdict.
fn status_of(verdict: &Verdict) -> RefereeStatus
    ensures { result ≡ verdict_status verdict.now }
{
    match verdict {
        Verdict::Agrees => RefereeStatus::Agrees,
        Verdict::Grants { .. } => RefereeStatus::Differs,
        Verdict::Tasks => RefereeStatus::Differs,
        Verdict::Load { .. } => RefereeStatus::Differs,
        Verdict::Answer { .. } => RefereeStatus::Differs,
    }
}

/// The reply with a verdict.
fn say(alloc: Global, verdict: &Verdict) -> Result<Reply, Memory>
    ensures { IfOk result (λ reply. reply ≡ verdict_reply verdict.now) }
{
    let mut text = Vec::new(alloc);
    push_verdict(&mut text, verdict)?;
    Ok(Output {
        status: status_of(verdict),
        bytes: Sequence::from_vec(text),
    })
}

/// The reply with a right claim.
///
/// # Errors
/// `Refused` if its run log would be too large, and `Memory` if there is no room for it.
fn write(alloc: Global, claim: &Claim) -> Result<Reply, Stop>
    requires { IsQuestion claim.now.question }
    ensures reply { IfOk result (λ reply. reply ≡ claim_reply claim.now) }
    ensures again { IfOk result (λ reply. IsClaimDocument (text_of claim.now) claim.now) }
    ensures stop { IfErr result (IsStop (IsTooLarge claim.now)) }
{
    match claim_text(alloc, claim) {
        Ok(document) => Ok(Output {
            status: RefereeStatus::Agrees,
            bytes: Sequence::from_vec(document),
        }),
        Err(ClaimTextError::TooLarge) => Err(refusal_of(alloc, ClaimFault::TooLarge)),
        Err(ClaimTextError::Memory) => Err(Stop::Memory),
    }
}

/// The verdict on a claim.
fn judge_claim(alloc: Global, checked: &Checked, claim: &Claim) -> Result<Reply, Memory>
    requires { IsJudgeable claim.now }
    ensures { IfOk result (IsJudged checked.now claim.now) }
{
    let verdict = judge(alloc, checked, claim)?;
    say(alloc, &verdict)
}

/// The verdict on a claim, and what leads from it to the fault, by the places of the claim's text.
fn diagnose_claim(
    alloc: Global,
    checked: &Checked,
    places: &Places,
    claim: &Claim,
) -> Result<Reply, Memory>
    requires claim { IsJudgeable claim.now }
    requires places { places.now ≡ text_places claim.now.question.text }
    ensures { IfOk result (IsDiagnosed checked.now claim.now) }
{
    let verdict = judge(alloc, checked, claim)?;
    let diagnosis = diagnose(alloc, checked, claim, &verdict)?;
    let text = claim.question.text.as_slice();
    let mut bytes = Vec::new(alloc);
    push_verdict(&mut bytes, &verdict)?;
    push_diagnosis(&mut bytes, text, checked.program(), places, &diagnosis)?;
    Ok(Output {
        status: status_of(&verdict),
        bytes: Sequence::from_vec(bytes),
    })
}

/// The first thing that a claim tells beside its question and its answer.
fn surplus(claim: &Claim) -> Option<ClaimFault>
    ensures { result ≡ surplus claim.now }
{
    if claim.grants.len() > 0 {
        return Some(ClaimFault::Grant { number: 0 });
    }
    if claim.loads.is_some() {
        return Some(ClaimFault::Loads);
    }
    None
}

/// What is said of a claimed answer beside what all runs have in common.
fn settle_claim(alloc: Global, checked: &Checked, claim: &Claim) -> Result<Reply, Memory>
    requires { IsJudgeable claim.now }
    ensures { IfOk result (IsSettledJudged checked.now claim.now) }
{
    match outcomes(alloc, checked, claim.question.fuel)? {
        Outcomes::Settled { common } => {
            let verdict = judge_settled(alloc, &common, claim.answer.as_slice())?;
            say(alloc, &verdict)
        }
        Outcomes::Open { open } => Ok(Output {
            status: RefereeStatus::Differs,
            bytes: Sequence::from_vec(open_line(alloc, open)?),
        }),
    }
}

/// The claim of the run by the grants of an order.
fn run_by_order(alloc: Global, checked: &Checked, order: GrantOrder) -> Result<Reply, Stop>
    requires { IsOrder order }
    ensures done { IfOk result (IsOrdered checked.now order) }
    ensures stop { IfErr result (IsStop (IsUnwritten (IsRightClaim checked.now order.question order.grants))) }
{
    let GrantOrder { question, grants } = order;
    match right_claim(alloc, checked, question, grants.into_vec())? {
        RightClaim::Whole(claim) => write(alloc, &claim),
        RightClaim::Refused { place } => {
            let grant = place as u32;
            Ok(say(alloc, &Verdict::Grants { grant })?)
        }
    }
}

/// The claim of the run by the least grants.
fn least(alloc: Global, checked: &Checked, question: Question) -> Result<Reply, Stop>
    requires { IsQuestion question }
    ensures done { IfOk result (IsLeastReply checked.now question) }
    ensures stop { IfErr result (IsStop (IsUnwritten (IsLeastClaim checked.now question))) }
{
    let claim = least_claim(alloc, checked, question)?;
    write(alloc, &claim)
}

/// Judges the claim of a run log.
fn judge_document(alloc: Global, document: &[u8]) -> Result<Reply, Stop>
    ensures done { IfOk result (mode_done mode.Judge document.now) }
    ensures stop { IfErr result (IsStop (refused_with mode.Judge document.now)) }
{
    let claim = claim_in(alloc, document)?;
    let checked = checked_of(alloc, claim.question.text.as_slice())?;
    Ok(judge_claim(alloc, &checked, &claim)?)
}

/// Judges the claim of a run log, and says what leads from the verdict to the fault.
fn diagnose_document(alloc: Global, document: &[u8]) -> Result<Reply, Stop>
    ensures done { IfOk result (mode_done mode.Diagnose document.now) }
    ensures stop { IfErr result (IsStop (refused_with mode.Diagnose document.now)) }
{
    let claim = claim_in(alloc, document)?;
    let checked = checked_of(alloc, claim.question.text.as_slice())?;
    let places = places_of(alloc, claim.question.text.as_slice())?;
    Ok(diagnose_claim(alloc, &checked, &places, &claim)?)
}

/// The claim of a run log that says nothing of grants and loads.
///
/// # Errors
/// `Refused` with the line of the run log's first fault, or of the first thing that it tells beside a question and an answer, and
/// `Memory` where there is no room.
fn plain_claim_in(alloc: Global, document: &[u8]) -> Result<Claim, Stop>
    ensures ok { IfOk result (IsPlainDocument document.now) }
    ensures stop { IfErr result (IsStop (IsNotPlain document.now)) }
{
    let claim = claim_in(alloc, document)?;
    match surplus(&claim) {
        None => Ok(claim),
        Some(fault) => Err(refusal_of(alloc, fault)),
    }
}

/// Judges the answer of a run log's claim by what all runs have in common.
fn settled_document(alloc: Global, document: &[u8]) -> Result<Reply, Stop>
    ensures done { IfOk result (mode_done mode.Settled document.now) }
    ensures stop { IfErr result (IsStop (refused_with mode.Settled document.now)) }
{
    let claim = plain_claim_in(alloc, document)?;
    let checked = checked_of(alloc, claim.question.text.as_slice())?;
    Ok(settle_claim(alloc, &checked, &claim)?)
}

/// Writes the claim of the run that goes by the grants of a run log.
fn answer_document(alloc: Global, document: &[u8]) -> Result<Reply, Stop>
    ensures done { IfOk result (mode_done mode.Answer document.now) }
    ensures stop { IfErr result (IsStop (refused_with mode.Answer document.now)) }
{
    let order = order_in(alloc, document)?;
    let checked = checked_of(alloc, order.question.text.as_slice())?;
    run_by_order(alloc, &checked, order)
}

/// Writes the claim of the run that goes by the least grants.
fn least_document(alloc: Global, document: &[u8]) -> Result<Reply, Stop>
    ensures done { IfOk result (mode_done mode.Least document.now) }
    ensures stop { IfErr result (IsStop (refused_with mode.Least document.now)) }
{
    let question = question_in(alloc, document)?;
    let checked = checked_of(alloc, question.text.as_slice())?;
    least(alloc, &checked, question)
}

/// What each mode does with a run log.
fn done(alloc: Global, asked: RefereeMode, document: &[u8]) -> Result<Reply, Stop>
    ensures done { IfOk result (mode_done asked document.now) }
    ensures stop { IfErr result (IsStop (refused_with asked document.now)) }
{
    match asked {
        RefereeMode::Judge => judge_document(alloc, document),
        RefereeMode::Diagnose => diagnose_document(alloc, document),
        RefereeMode::Settled => settled_document(alloc, document),
        RefereeMode::Answer => answer_document(alloc, document),
        RefereeMode::Least => least_document(alloc, document),
    }
}

/// The answer to a mode and a run log.
///
/// A run log that isn't of its form is refused with the line of its first fault. If its text has no checked program, it is refused
/// as denovo refuses that text, with the same line. In the mode settled a claim that says something of grants or loads is refused
/// too. In the modes answer and least, a claim that would have more than 536,870,912 bytes isn't written, but refused as too
/// large.
///
/// # Errors
/// `Memory` where there is no room for what the run log tells, the run or the answer.
pub fn answer(alloc: Global, asked: RefereeMode, document: &[u8]) -> Result<Reply, Memory>
    ensures { IfOk result (IsAnswer asked document.now) }
{
    match done(alloc, asked, document) {
        Ok(reply) => Ok(reply),
        Err(Stop::Refused(line)) => Ok(Output {
            status: RefereeStatus::Refused,
            bytes: line,
        }),
        Err(Stop::Memory) => Err(Memory),
    }
}
