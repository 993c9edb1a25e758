ghost use Rattle.std.specs.Prelude.{◌≡◌, ◌⊎◌, ◌<◌, ◌≤◌, ◌++◌, All, flat_map, length, Err, IfOk, IfErr, OnOk};
ghost use Rattle.claims.specs.declared.claim.ClaimTextError.TheVariants.{TooLarge as TextTooLarge, Memory as NoMemory};
ghost use Rattle.claims.specs.Claim.{IsQuestion, IsGrant, IsTaskHead, IsTask, IsLoads, IsClaim, IsClaimDocument, title, question_text, head_text, head_of, three_fields, grant_row, load_row, task_head_row, task_rows, head_of_task, loads_head_row, head_of_loads, tasks_text, loads_text, claim_text as text_of, most_bytes};

use crate::claim::{Claim, ClaimTextError, Question};
use crate::limits::{grants_fit, line_count, loads_fit};
use crate::rows::TaskHead;
use dn_base::{Grant, LoadSeen, MOST_OF_DOCUMENT, MOST_OF_TEXT, Memory, Sequence};
use flat_machine::TaskLoads;
use std::alloc::Global;
use text_pieces::{push, push_field, push_hexadecimal, push_source};

#[tactic(auto, unfolding(crate::specs::Claim::title))]
fn push_title(out: &mut Vec<u8>) -> Result<(), Memory>
    ensures { OnOk result (out.new.items ≡ out.old.items ++ title) }
{
    push(out, b"denovo-claim 1\n")
}

/// Adds what is claimed of.
#[tactic(auto, unfolding(crate::specs::Claim::question_text))]
fn push_question(out: &mut Vec<u8>, question: &Question) -> Result<(), Memory>
    requires { length question.now.text ≤ MOST_OF_TEXT }
    ensures { OnOk result (out.new.items ≡ out.old.items ++ question_text question.now) }
{
    push_title(out)?;
    push_field(out, b"fuel ", question.fuel, b"\n")?;
    push_source(out, question.text.as_slice())
}

/// Adds three numbers, the first after a name, and the end of their line.
#[tactic(auto, unfolding(crate::specs::Claim::three_fields))]
fn push_three(
    out: &mut Vec<u8>,
    name: &[u8],
    first: u32,
    second: u32,
    third: u32,
) -> Result<(), Memory>
    ensures { OnOk result (out.new.items ≡ out.old.items ++ three_fields name.now first second third) }
{
    push_field(out, name, first, b" ")?;
    push_field(out, b"", second, b" ")?;
    push_field(out, b"", third, b"\n")
}

fn push_grants(out: &mut Vec<u8>, grants: &[Grant]) -> Result<(), Memory>
    ensures text { OnOk result (out.new.items ≡ out.old.items ++ flat_map grant_row grants.now) }
    ensures fits { All IsGrant grants.now }
{
    grants_fit(grants);
    for grant in grants {
        push_three(out, b"grant ", grant.phase.0, grant.core.0, grant.lock.0)?;
    }
    Ok(())
}

#[tactic(auto, unfolding(crate::specs::Claim::load_row))]
fn push_load(out: &mut Vec<u8>, load: LoadSeen) -> Result<(), Memory>
    ensures { OnOk result (out.new.items ≡ out.old.items ++ load_row load) }
{
    push_field(out, b"", load.word.0, b" ")?;
    push_hexadecimal(out, load.value)?;
    push(out, b"\n")
}

fn push_loads(out: &mut Vec<u8>, loads: &[LoadSeen]) -> Result<(), Memory>
    ensures { OnOk result (out.new.items ≡ out.old.items ++ flat_map load_row loads.now) }
{
    for load in loads {
        push_load(out, *load)?;
    }
    Ok(())
}

/// Adds the line of a task.
fn push_task_head(out: &mut Vec<u8>, head: TaskHead) -> Result<(), Memory>
    ensures text { OnOk result (out.new.items ≡ out.old.items ++ task_head_row head) }
    ensures fits { IsTaskHead head }
{
    push_three(out, b"task ", head.phase.0, head.core.0, head.count)
}

/// Adds the line of a task, and those of its loads.
///
/// # Errors
/// `TooLarge` where no document has room for these, and `Memory`.
#[tactic(auto, unfolding(crate::specs::Claim::task_rows))]
fn push_task(out: &mut Vec<u8>, task: &TaskLoads) -> Result<(), ClaimTextError>
    ensures text { OnOk result (out.new.items ≡ out.old.items ++ task_rows task.now) }
    ensures fits { OnOk result (IsTask task.now) }
    ensures large { IfErr result (λ error. error ≡ TextTooLarge → most_bytes < length (task_rows task.now)) }
{
    loads_fit(task.loads.as_slice());
    let head = TaskHead {
        phase: task.phase,
        core: task.core,
        count: line_count(task.loads.len())?,
    };
    push_task_head(out, head)?;
    push_loads(out, task.loads.as_slice())?;
    Ok(())
}

fn push_tasks(out: &mut Vec<u8>, tasks: &[TaskLoads]) -> Result<(), ClaimTextError>
    ensures text { OnOk result (out.new.items ≡ out.old.items ++ flat_map task_rows tasks.now) }
    ensures fits { OnOk result (All IsTask tasks.now) }
    ensures large { IfErr result (λ error. error ≡ TextTooLarge → most_bytes < length (flat_map task_rows tasks.now)) }
{
    for task in tasks {
        push_task(out, task)?;
    }
    Ok(())
}

/// Adds the line that says of how many tasks the loads are claimed.
#[tactic(auto, unfolding(crate::specs::Claim::loads_head_row))]
fn push_loads_head(out: &mut Vec<u8>, count: Option<u32>) -> Result<(), Memory>
    ensures { OnOk result (out.new.items ≡ out.old.items ++ loads_head_row count) }
{
    match count {
        None => push(out, b"loads none\n"),
        Some(count) => push_field(out, b"loads ", count, b"\n"),
    }
}

/// Adds what is said of loads.
///
/// # Errors
/// `TooLarge` where no document has room for it, and `Memory`.
#[tactic(auto, unfolding(crate::specs::Claim::loads_text))]
fn push_loads_part(
    out: &mut Vec<u8>,
    loads: &Option<Sequence<TaskLoads>>,
) -> Result<(), ClaimTextError>
    ensures text { OnOk result (out.new.items ≡ out.old.items ++ loads_text loads.now) }
    ensures fits { OnOk result (IsLoads loads.now) }
    ensures large { IfErr result (λ error. error ≡ TextTooLarge → most_bytes < length (loads_text loads.now)) }
{
    match loads {
        None => Ok(push_loads_head(out, None)?),
        Some(tasks) => {
            push_loads_head(out, Some(line_count(tasks.len())?))?;
            push_tasks(out, tasks.as_slice())
        }
    }
}

/// Adds what stands before this many grants.
#[tactic(auto, unfolding(crate::specs::Claim::head_text))]
fn push_head(out: &mut Vec<u8>, question: &Question, count: u32) -> Result<(), Memory>
    requires { length question.now.text ≤ MOST_OF_TEXT }
    ensures { OnOk result (out.new.items ≡ out.old.items ++ head_text (record { question = question.now; count = count })) }
{
    push_question(out, question)?;
    push_field(out, b"grants ", count, b"\n")
}

/// All parts of a claim, one after the other.
///
/// # Errors
/// `TooLarge` where a number of lines is too large to be told, and `Memory`.
#[tactic(auto, unfolding(crate::specs::Claim::claim_text))]
fn write(alloc: Global, claim: &Claim) -> Result<Vec<u8>, ClaimTextError>
    requires { length claim.now.question.text ≤ MOST_OF_TEXT }
    ensures text { IfOk result (λ document. document.items ≡ text_of claim.now) }
    ensures fits { IfOk result (λ document. IsQuestion claim.now.question → IsClaim claim.now) }
    ensures large { IfErr result (λ error. error ≡ TextTooLarge → most_bytes < length (text_of claim.now)) }
{
    let mut out = Vec::new(alloc);
    push_head(&mut out, &claim.question, line_count(claim.grants.len())?)?;
    push_grants(&mut out, claim.grants.as_slice())?;
    push_loads_part(&mut out, &claim.loads)?;
    push(&mut out, claim.answer.as_slice())?;
    Ok(out)
}

/// Looks that a run log isn't larger than one may be.
///
/// # Errors
/// `TooLarge` exactly where it is.
fn within_limit(document: &[u8]) -> Result<(), ClaimTextError>
    ensures ok { OnOk result (length document.now ≤ most_bytes) }
    ensures err { IfErr result (λ error. (error ≡ TextTooLarge) × (most_bytes < length document.now)) }
{
    if document.len() > MOST_OF_DOCUMENT {
        return Err(ClaimTextError::TooLarge);
    }
    Ok(())
}

/// The run log of a claim. Its first lines tell the fuel and the source text. Then come a line for each grant, the loads task by
/// task or the line that says that none are claimed, and the answer as it is. Numbers are decimal, without leading zeros; values
/// are in eight hexadecimal digits.
///
/// The text must have at most 1,048,576 bytes. If the fuel is from 1 to 32,768, `read_claim` gives the claim again.
///
/// # Errors
/// `TooLarge` if the run log would have more than 536,870,912 bytes, and `Memory` if there is no room for it. If both are true,
/// either may be returned.
pub fn claim_text(alloc: Global, claim: &Claim) -> Result<Vec<u8>, ClaimTextError>
    requires { length claim.now.question.text ≤ MOST_OF_TEXT }
    ensures text { IfOk result (λ document. document.items ≡ text_of claim.now) }
    ensures document { IfOk result (λ document. IsQuestion claim.now.question → IsClaimDocument document.items claim.now) }
    ensures large { IfErr result (λ error. error ≡ TextTooLarge → most_bytes < length (text_of claim.now)) }
    ensures refused { most_bytes < length (text_of claim.now) → (result ≡ Err TextTooLarge) ⊎ (result ≡ Err NoMemory) }
{
    let document = write(alloc, claim)?;
    within_limit(&document)?;
    Ok(document)
}
