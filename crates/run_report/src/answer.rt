ghost use Rattle.std.specs.Prelude.{◌≡◌, ◌+◌, ◌*◌, ◌++◌, ◌<◌, ◌≤◌, length, flat_map, IfOk, OnOk};
ghost use Rattle.run_report.specs.Answer.{outcome_word, kind_word, end_text, outcome_line, task_line, task_line_without_retired, words_line, word_line, word_lines, answer_of, answer_without_retired};

use dn_base::{MOST_WORDS, Memory, Outcome};
use region_table::FIRST_DATA_ADDRESS;
use rv_core::{EndShown, Ending, TaskEnd, TrapKind};
use std::alloc::Global;
use text_pieces::{push, push_decimal, push_hexadecimal};

/// The printed name of an outcome.
pub fn outcome_name(outcome: Outcome) -> &'static [u8]
    ensures { result.now ≡ outcome_word outcome }
{
    match outcome {
        Outcome::Done => b"done",
        Outcome::Trapped => b"trapped",
        Outcome::Fuel => b"fuel",
        Outcome::Stuck => b"stuck",
    }
}

/// The printed name of a kind of trap.
pub fn kind_name(kind: TrapKind) -> &'static [u8]
    ensures { result.now ≡ kind_word kind }
{
    match kind {
        TrapKind::Fetch => b"fetch",
        TrapKind::Illegal => b"illegal",
        TrapKind::Target => b"target",
        TrapKind::Misaligned => b"misaligned",
        TrapKind::Outside => b"outside",
        TrapKind::Break => b"break",
        TrapKind::Call => b"call",
        TrapKind::NoLock => b"nolock",
        TrapKind::Held => b"held",
        TrapKind::NotHeld => b"nothold",
        TrapKind::HeldEnd => b"heldend",
    }
}

#[tactic(auto, unfolding(crate::specs::Answer::outcome_line))]
pub(crate) fn push_outcome(out: &mut Vec<u8>, outcome: Outcome) -> Result<(), Memory>
    ensures { OnOk result (out.new.items ≡ out.old.items ++ outcome_line outcome) }
{
    push(out, b"outcome ")?;
    push(out, outcome_name(outcome))?;
    push(out, b"\n")
}

/// Appends how a task stands, as the task's line has it: `finished`, `fuel`, `waits 0`, or a trap with its kind, address and
/// value.
///
/// # Errors
/// `Memory` where there is no room.
pub fn push_end(out: &mut Vec<u8>, end: EndShown) -> Result<(), Memory>
    ensures { OnOk result (out.new.items ≡ out.old.items ++ end_text end) }
{
    match end {
        EndShown::Finished => push(out, b"finished"),
        EndShown::Fuel => push(out, b"fuel"),
        EndShown::Trap { kind, pc, value } => {
            push(out, b"trap ")?;
            push(out, kind_name(kind))?;
            push(out, b" pc ")?;
            push_hexadecimal(out, pc)?;
            push(out, b" value ")?;
            push_hexadecimal(out, value)
        }
        EndShown::Waits { lock } => {
            push(out, b"waits ")?;
            push_decimal(out, lock.0)
        }
    }
}

#[tactic(auto, unfolding(crate::specs::Answer::task_line))]
fn push_task(out: &mut Vec<u8>, task: TaskEnd) -> Result<(), Memory>
    ensures { OnOk result (out.new.items ≡ out.old.items ++ task_line task) }
{
    push(out, b"task ")?;
    push_decimal(out, task.phase.0)?;
    push(out, b" ")?;
    push_decimal(out, task.core.0)?;
    push(out, b" ")?;
    push_end(out, task.end)?;
    push(out, b" retired ")?;
    push_decimal(out, task.retired)?;
    push(out, b"\n")
}

fn push_tasks(out: &mut Vec<u8>, tasks: &[TaskEnd]) -> Result<(), Memory>
    ensures { OnOk result (out.new.items ≡ out.old.items ++ flat_map task_line tasks.now) }
{
    for task in tasks {
        push_task(out, *task)?;
    }
    Ok(())
}

#[tactic(auto, unfolding(crate::specs::Answer::task_line_without_retired))]
fn push_task_without_retired(out: &mut Vec<u8>, task: TaskEnd) -> Result<(), Memory>
    ensures { OnOk result (out.new.items ≡ out.old.items ++ task_line_without_retired task) }
{
    push(out, b"task ")?;
    push_decimal(out, task.phase.0)?;
    push(out, b" ")?;
    push_decimal(out, task.core.0)?;
    push(out, b" ")?;
    push_end(out, task.end)?;
    push(out, b"\n")
}

fn push_tasks_without_retired(out: &mut Vec<u8>, tasks: &[TaskEnd]) -> Result<(), Memory>
    ensures { OnOk result (out.new.items ≡ out.old.items ++ flat_map task_line_without_retired tasks.now) }
{
    for task in tasks {
        push_task_without_retired(out, *task)?;
    }
    Ok(())
}

#[tactic(auto, unfolding(crate::specs::Answer::words_line))]
pub(crate) fn push_count(out: &mut Vec<u8>, count: u32) -> Result<(), Memory>
    ensures { OnOk result (out.new.items ≡ out.old.items ++ words_line count) }
{
    push(out, b"words ")?;
    push_decimal(out, count)?;
    push(out, b"\n")
}

#[tactic(auto, unfolding(crate::specs::Answer::word_line))]
fn push_word(out: &mut Vec<u8>, word: u32, value: u32) -> Result<(), Memory>
    requires { word < MOST_WORDS }
    ensures { OnOk result (out.new.items ≡ out.old.items ++ word_line word value) }
{
    if value == 0 {
        return Ok(());
    }
    push(out, b"word ")?;
    push_hexadecimal(out, FIRST_DATA_ADDRESS + 4 * word)?;
    push(out, b" ")?;
    push_hexadecimal(out, value)?;
    push(out, b"\n")
}

fn push_words(out: &mut Vec<u8>, memory: &[u32]) -> Result<(), Memory>
    requires { length memory.now ≤ MOST_WORDS }
    ensures { OnOk result (out.new.items ≡ out.old.items ++ word_lines 0 memory.now) }
{
    let mut word = 0;
    for value in memory {
        push_word(out, word, *value)?;
        word += 1;
    }
    Ok(())
}

/// The answer of a run: a line with the outcome, a line for each task that started, a line with the number of data
/// words, and a line with the address and the value of each data word that isn't 0.
///
/// The ending has at most 65,536 words and 64 tasks.
///
/// # Errors
/// `Memory` where there is no room for the text.
#[tactic(auto, unfolding(crate::specs::Answer::answer_of))]
pub fn answer_text(alloc: Global, ending: &Ending) -> Result<Vec<u8>, Memory>
    requires words { length ending.now.memory ≤ MOST_WORDS }
    requires tasks { length ending.now.tasks ≤ 64 }
    ensures { IfOk result (λ text. text.items ≡ answer_of ending.now) }
{
    let mut out = Vec::new(alloc);
    push_outcome(&mut out, ending.outcome)?;
    push_tasks(&mut out, ending.tasks.as_slice())?;
    push_count(&mut out, ending.memory.len() as u32)?;
    push_words(&mut out, ending.memory.as_slice())?;
    Ok(out)
}

/// The answer of a run without the counts of instructions: the same lines as of `answer_text`, but each task's ends with how the
/// task stands.
///
/// # Errors
/// `Memory` where there is no room for the text.
#[tactic(auto, unfolding(crate::specs::Answer::answer_without_retired))]
pub fn answer_text_without_retired(alloc: Global, ending: &Ending) -> Result<Vec<u8>, Memory>
    requires words { length ending.now.memory ≤ MOST_WORDS }
    requires tasks { length ending.now.tasks ≤ 64 }
    ensures { IfOk result (λ text. text.items ≡ answer_without_retired ending.now) }
{
    let mut out = Vec::new(alloc);
    push_outcome(&mut out, ending.outcome)?;
    push_tasks_without_retired(&mut out, ending.tasks.as_slice())?;
    push_count(&mut out, ending.memory.len() as u32)?;
    push_words(&mut out, ending.memory.as_slice())?;
    Ok(out)
}
