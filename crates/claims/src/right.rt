ghost use Rattle.std.specs.Prelude.{◌≡◌, ◌≤◌, length, IfOk};
ghost use Rattle.claims.specs.Right.{claim_of_run, IsRightBy, IsLeastClaim};

use crate::{Claim, Question};
use dn_base::{Grant, MOST_WORDS, Memory, Sequence};
use effect_checker::Checked;
use flat_machine::{FlatEnd, FlatRun, flat_run, least_run};
use run_report::answer_text;
use std::alloc::Global;

/// The result of a list of grants, as a claim.
#[derive(Drop)]
pub enum RightClaim {
    /// The list is legal and maximal, and this is the claim of the run by it, with all its loads.
    Whole(Claim),
    /// The first grant that isn't legal is the one at this index, from 0. The index after the last grant says that at the end
    /// of the list some task waits for a free lock.
    Refused { place: usize },
}

/// The claim of a run that these grants lead to this end.
///
/// # Errors
/// `Memory` where there is no room for the answer.
fn claim_of(
    alloc: Global,
    question: Question,
    grants: Vec<Grant>,
    end: FlatEnd,
) -> Result<Claim, Memory>
    requires words { length end.ending.memory ≤ MOST_WORDS }
    requires tasks { length end.ending.tasks ≤ 64 }
    ensures { IfOk result (λ claim. claim ≡ claim_of_run question grants.items end) }
{
    let FlatEnd { ending, loads } = end;
    let answer = answer_text(alloc, &ending)?;
    Ok(Claim {
        question,
        grants: Sequence::from_vec(grants),
        loads: Some(loads),
        answer: Sequence::from_vec(answer),
    })
}

/// The claim of the run of a checked program by a list of grants, with all its loads, or the first grant that isn't legal.
///
/// The question's fuel must be from 1 to 32,768. It isn't checked that the program is that of the question's text.
///
/// # Errors
/// `Memory` where there is no room for the run and its answer.
pub fn right_claim(
    alloc: Global,
    checked: &Checked,
    question: Question,
    grants: Vec<Grant>,
) -> Result<RightClaim, Memory>
    requires some { 1 ≤ question.fuel }
    requires most { question.fuel ≤ 32768 }
    ensures { IfOk result (IsRightBy checked.now question grants.items) }
{
    match flat_run(alloc, checked, question.fuel, &grants)? {
        FlatRun::Refused { place } => Ok(RightClaim::Refused { place }),
        FlatRun::Whole(end) => {
            let claim = claim_of(alloc, question, grants, end)?;
            Ok(RightClaim::Whole(claim))
        }
    }
}

/// The claim of the run of a checked program by the canonical list of grants, with all its loads.
///
/// The question's fuel must be from 1 to 32,768. It isn't checked that the program is that of the question's text.
///
/// # Errors
/// `Memory` where there is no room for the run and its answer.
pub fn least_claim(alloc: Global, checked: &Checked, question: Question) -> Result<Claim, Memory>
    requires some { 1 ≤ question.fuel }
    requires most { question.fuel ≤ 32768 }
    ensures { IfOk result (IsLeastClaim checked.now question) }
{
    let run = least_run(alloc, checked, question.fuel)?;
    claim_of(alloc, question, run.grants, run.end)
}
