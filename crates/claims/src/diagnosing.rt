ghost use Rattle.std.specs.Prelude.{◌≡◌, option_copied, take, find, count_by, IfOk};
ghost use Rattle.flat_machine.specs.Accesses.{actions_so_far};
ghost use Rattle.flat_machine.specs.Ending.{flat_end};
ghost use Rattle.claims.specs.declared.diagnosis.Diagnosis.TheVariants as diagnosis;
ghost use Rattle.claims.specs.Judge.{IsJudgeable, IsVerdict};
ghost use Rattle.claims.specs.Diagnosis.{is_load, load_by, is_by_task, claimed_load, is_claimed_as, is_wrong_load, earliest_wrong, is_take, store_to, last_store, wrong_load, wrong_action, first_wrong_load, loads_claimed, name_of_task, is_earlier_task, task_between, tasks_diagnosis, IsGrantsDiagnosis, IsTasksDiagnosis, IsDiagnosis};

use crate::alike::{Alike, first_difference};
use crate::diagnosis::{Diagnosis, TaskName, WrongLoad};
use crate::lines::line_of_number;
use crate::{Claim, Verdict};
use dn_base::{LoadSeen, Memory, WordId};
use effect_checker::Checked;
use flat_machine::{
    AccessKind, FlatAccess, FlatAction, FlatRun, TaskLoads, fault_of_grants, flat_actions, flat_run,
};
use std::alloc::Global;

/// Whether an access is a load.
fn is_load(kind: AccessKind) -> bool
    ensures { result ≡ is_load kind }
{
    matches!(kind, AccessKind::Load)
}

/// Whether these are the loads of the task that makes an access.
fn is_by_task(access: &FlatAccess, task: &TaskLoads) -> bool
    ensures { result ≡ is_by_task access.now task.now }
{
    task.phase.0 == access.phase.0 && task.core.0 == access.core.0
}

/// The claimed loads of the task that makes an access.
fn task_of<'t>(claimed: &'t [TaskLoads], access: &FlatAccess) -> Option<&'t TaskLoads>
    ensures { option_copied result ≡ find (is_by_task access.now) claimed.now }
{
    for task in claimed {
        if is_by_task(access, task) {
            return Some(task);
        }
    }
    None
}

/// What is claimed of a load.
fn claimed_load(claimed: &[TaskLoads], access: &FlatAccess) -> Option<LoadSeen>
    ensures { result ≡ claimed_load claimed.now access.now }
{
    match task_of(claimed, access) {
        Some(task) => task.loads.get(access.number).copied(),
        None => None,
    }
}

/// Whether a load is claimed as it is.
fn is_claimed_as(access: &FlatAccess, claimed: Option<LoadSeen>) -> bool
    ensures { result ≡ is_claimed_as access.now claimed }
{
    let seen = LoadSeen {
        word: access.word,
        value: access.value,
    };
    match claimed {
        Some(load) => load.is_alike(&seen),
        None => false,
    }
}

/// Whether an action is a load that is claimed wrongly.
fn is_wrong_load(claimed: &[TaskLoads], action: &FlatAction) -> bool
    ensures { result ≡ is_wrong_load claimed.now action.now }
{
    match action {
        FlatAction::Takes(_) => false,
        FlatAction::Accesses(access) => {
            is_load(access.kind) && !is_claimed_as(access, claimed_load(claimed, access))
        }
    }
}

/// The place of the earliest load that is claimed wrongly.
fn earliest_wrong(claimed: &[TaskLoads], actions: &[FlatAction]) -> Option<usize>
    ensures { result ≡ earliest_wrong claimed.now actions.now }
{
    actions
        .iter()
        .position(|action| is_wrong_load(claimed, action))
}

/// Whether an action takes a grant.
fn is_take(action: &FlatAction) -> bool
    ensures { result ≡ is_take action.now }
{
    matches!(action, FlatAction::Takes(_))
}

/// How many of these actions take a grant.
fn takes(actions: &[FlatAction]) -> usize
    ensures { result ≡ count_by is_take actions.now }
{
    actions.iter().filter(|action| is_take(*action)).count()
}

/// The access of an action, if it is a store to this word.
fn store_to(word: WordId, action: &FlatAction) -> Option<FlatAccess>
    ensures { result ≡ store_to word.0 action.now }
{
    match action {
        FlatAction::Takes(_) => None,
        FlatAction::Accesses(access) => {
            if !is_load(access.kind) && access.word.0 == word.0 {
                Some(*access)
            } else {
                None
            }
        }
    }
}

/// The last store to this word among some actions.
fn last_store(word: WordId, actions: &[FlatAction]) -> Option<FlatAccess>
    ensures { result ≡ last_store word.0 actions.now }
{
    let mut last = None;
    for action in actions {
        last = store_to(word, action).or(last);
    }
    last
}

/// A load that is claimed wrongly, with what the thread did before it.
fn wrong_load(claimed: &[TaskLoads], before: &[FlatAction], load: &FlatAccess) -> WrongLoad
    ensures { result ≡ wrong_load claimed.now before.now load.now }
{
    WrongLoad {
        load: *load,
        claimed: claimed_load(claimed, load),
        grants: takes(before),
        stored: last_store(load.word, before),
    }
}

/// The earliest load that is claimed wrongly, if there is one.
#[tactic(auto, unfolding(crate::specs::Diagnosis::first_wrong_load))]
fn first_wrong_load(claimed: &[TaskLoads], actions: &[FlatAction]) -> Option<WrongLoad>
    ensures { result ≡ first_wrong_load claimed.now actions.now }
{
    let place = earliest_wrong(claimed, actions)?;
    match actions.get(place)? {
        FlatAction::Accesses(load) => Some(wrong_load(claimed, &actions[..place], load)),
        FlatAction::Takes(_) => None,
    }
}

/// The loads that a claim tells; none, if it says nothing of loads.
fn loads_claimed(claim: &Claim) -> &[TaskLoads]
    ensures { result.now ≡ loads_claimed claim.now.loads }
{
    match &claim.loads {
        Some(tasks) => tasks.as_slice(),
        None => &[],
    }
}

fn name_of_task(task: &TaskLoads) -> TaskName
    ensures { result ≡ name_of_task task.now }
{
    TaskName {
        phase: task.phase,
        core: task.core,
    }
}

/// Whether a task comes before another, by phases and cores.
fn is_earlier_task(task: &TaskLoads, other: &TaskLoads) -> bool
    ensures { result ≡ is_earlier_task task.now other.now }
{
    task.phase.0 < other.phase.0 || (task.phase.0 == other.phase.0 && task.core.0 < other.core.0)
}

/// The earlier of the two tasks that stand at a place.
fn task_between(claimed: Option<&TaskLoads>, right: Option<&TaskLoads>) -> Option<TaskName>
    ensures { result ≡ task_between (option_copied claimed.entry) (option_copied right.entry) }
{
    match (claimed, right) {
        (None, None) => None,
        (None, Some(right)) => Some(name_of_task(right)),
        (Some(claimed), None) => Some(name_of_task(claimed)),
        (Some(claimed), Some(right)) => {
            if is_earlier_task(claimed, right) {
                Some(name_of_task(claimed))
            } else {
                Some(name_of_task(right))
            }
        }
    }
}

/// What is said of claimed tasks that aren't those that started.
#[tactic(auto, unfolding(crate::specs::Diagnosis::tasks_diagnosis))]
fn diagnose_tasks(claimed: &[TaskLoads], right: &[TaskLoads]) -> Diagnosis
    ensures { result ≡ tasks_diagnosis claimed.now right.now }
{
    let first = match first_difference(claimed, right) {
        Some(place) => task_between(claimed.get(place), right.get(place)),
        None => None,
    };
    Diagnosis::Tasks {
        started: right.len(),
        first,
    }
}

/// What leads from the verdict on a claim to the fault.
///
/// The claim must be within the limits of a run log, and this must be its verdict. It isn't checked that the program is that of the
/// question's text. Where the claim differs, the program runs once more.
///
/// # Errors
/// `Memory` where there is no room for the run, its loads and stores, or a line of the answer.
pub fn diagnose(
    alloc: Global,
    checked: &Checked,
    claim: &Claim,
    verdict: &Verdict,
) -> Result<Diagnosis, Memory>
    requires claim { IsJudgeable claim.now }
    requires verdict { IsVerdict checked.now claim.now verdict.now }
    ensures { IfOk result (IsDiagnosis checked.now claim.now verdict.now) }
{
    let fuel = claim.question.fuel;
    let grants = claim.grants.as_slice();
    match verdict {
        Verdict::Agrees => Ok(Diagnosis::Agrees),
        Verdict::Grants { .. } => {
            let fault = fault_of_grants(alloc, checked, fuel, grants)?;
            Ok(Diagnosis::Grants(fault))
        }
        Verdict::Tasks => match flat_run(alloc, checked, fuel, grants)? {
            FlatRun::Whole(end) => Ok(diagnose_tasks(loads_claimed(claim), end.loads.as_slice())),
            FlatRun::Refused { .. } => Ok(Diagnosis::Agrees),
        },
        Verdict::Load { .. } => {
            let actions = flat_actions(alloc, checked, fuel, grants)?;
            let first = first_wrong_load(loads_claimed(claim), actions.as_slice());
            Ok(Diagnosis::Load(first))
        }
        Verdict::Answer { line, .. } => {
            let claimed = line_of_number(alloc, claim.answer.as_slice(), *line)?;
            Ok(Diagnosis::Answer(claimed))
        }
    }
}
