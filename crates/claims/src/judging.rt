ghost use Rattle.std.specs.Prelude.{◌≡◌, ◌↔◌, ◌≤◌, All, length, IfOk};
ghost use Rattle.claims.specs.Claim.{IsLoads, IsTask};
ghost use Rattle.claims.specs.declared.verdict.Verdict.TheVariants.{Agrees as SaysAgrees};
ghost use Rattle.claims.specs.Judge.{IsJudgeable, task_verdict, tasks_verdict, loads_verdict, answer_verdict, end_verdict, IsVerdict, AgreesWithRun};

use crate::alike::first_difference;
use crate::lines::{line_of_number, newlines_before};
use crate::{Claim, LoadPlace, Verdict};
use dn_base::{MOST_OF_DOCUMENT, MOST_WORDS, Memory, Sequence};
use effect_checker::Checked;
use flat_machine::{FlatEnd, FlatRun, TaskLoads, flat_run};
use run_report::answer_text;
use std::alloc::Global;

/// What is said of the first wrong load of a task, if it has one.
#[tactic(auto, unfolding(crate::specs::Judge::task_verdict))]
fn judge_task(claimed: &TaskLoads, right: &TaskLoads) -> Option<Verdict>
    requires { IsTask claimed.now }
    ensures { result ≡ task_verdict claimed.now right.now }
{
    let place = first_difference(claimed.loads.as_slice(), right.loads.as_slice())?;
    let seen = right.loads.get(place).copied();
    let place = LoadPlace {
        phase: right.phase,
        core: right.core,
        load: place as u32,
    };
    Some(Verdict::Load { place, right: seen })
}

/// What is said of the first wrong load of these tasks, if they have one.
fn judge_tasks(claimed: &[TaskLoads], right: &[TaskLoads]) -> Option<Verdict>
    requires { All IsTask claimed.now }
    ensures { result ≡ tasks_verdict claimed.now right.now }
{
    let both = claimed.len().min(right.len());
    for task in 0..both {
        let verdict = judge_task(&claimed[task], &right[task]);
        if verdict.is_some() {
            return verdict;
        }
    }
    None
}

/// What is said of the claimed loads, if something is wrong with them.
fn judge_loads(claimed: &Option<Sequence<TaskLoads>>, right: &[TaskLoads]) -> Option<Verdict>
    requires { IsLoads claimed.now }
    ensures { result ≡ loads_verdict claimed.now right.now }
{
    match claimed {
        None => None,
        Some(claimed) => {
            if first_difference(claimed.as_slice(), right).is_some() {
                return Some(Verdict::Tasks);
            }
            judge_tasks(claimed.as_slice(), right)
        }
    }
}

/// What is said of a claimed answer of at most 536,870,912 bytes beside the right one: that it agrees, or the first line that is wrong.
///
/// # Errors
/// `Memory` where there is no room for the right line.
#[tactic(auto, unfolding(crate::specs::Judge::answer_verdict))]
pub fn judge_answer(alloc: Global, claimed: &[u8], right: &[u8]) -> Result<Verdict, Memory>
    requires { length claimed.now ≤ MOST_OF_DOCUMENT }
    ensures { IfOk result (λ verdict. verdict ≡ answer_verdict claimed.now right.now) }
{
    let Some(place) = first_difference(claimed, right) else {
        return Ok(Verdict::Agrees);
    };
    let line = newlines_before(right, place) as u32;
    let right = line_of_number(alloc, right, line)?;
    Ok(Verdict::Answer { line, right })
}

/// What is said of a claim whose grants lead to this end.
///
/// # Errors
/// `Memory` where there is no room for the right answer and a line of it.
#[tactic(auto, unfolding(crate::specs::Judge::end_verdict))]
fn judge_end(alloc: Global, claim: &Claim, end: &FlatEnd) -> Result<Verdict, Memory>
    requires claim { IsJudgeable claim.now }
    requires words { length end.now.ending.memory ≤ MOST_WORDS }
    requires tasks { length end.now.ending.tasks ≤ 64 }
    ensures { IfOk result (λ verdict. verdict ≡ end_verdict claim.now end.now) }
{
    if let Some(verdict) = judge_loads(&claim.loads, end.loads.as_slice()) {
        return Ok(verdict);
    }
    let right = answer_text(alloc, &end.ending)?;
    judge_answer(alloc, claim.answer.as_slice(), &right)
}

/// The verdict on a claim of the run of a checked program, with the fuel of the claim's question.
///
/// The claim must be within the limits of a run log. It isn't checked that the program is that of the question's text.
///
/// The first of these that is true of the claim is the verdict: a grant isn't legal; loads are claimed, and not of the tasks
/// that started; a load is wrong; the answer is wrong. Otherwise the claim agrees.
///
/// The time is proportional to the bytes of the claim and the retired instructions.
///
/// # Errors
/// `Memory` where there is no room for the run and its answer.
pub fn judge(alloc: Global, checked: &Checked, claim: &Claim) -> Result<Verdict, Memory>
    requires { IsJudgeable claim.now }
    ensures verdict { IfOk result (IsVerdict checked.now claim.now) }
    ensures agrees { IfOk result (λ verdict. (verdict ≡ SaysAgrees) ↔ AgreesWithRun checked.now claim.now) }
{
    let fuel = claim.question.fuel;
    match flat_run(alloc, checked, fuel, claim.grants.as_slice())? {
        FlatRun::Refused { place } => Ok(Verdict::Grants {
            grant: place as u32,
        }),
        FlatRun::Whole(end) => judge_end(alloc, claim, &end),
    }
}
