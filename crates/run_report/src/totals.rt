ghost use Rattle.std.specs.Prelude.{◌≡◌, ◌≤◌, ◌++◌, length, sum, IfOk, OnOk};
ghost use Rattle.region_table.specs.Program.{tasks_of};
ghost use Rattle.run_report.specs.Summary.{count_line, sum_line, retired_by_all, summary_of, checked_of};

use crate::answer::{push_count, push_outcome};
use dn_base::{MOST_WORDS, Memory};
use region_table::{Phase, Program};
use rv_core::{Ending, TaskEnd};
use std::alloc::Global;
use text_pieces::{push, push_decimal, push_hexadecimal, push_long};

/// The instructions that all tasks retired.
pub fn retired_by_all(tasks: &[TaskEnd]) -> u64
    requires { length tasks.now ≤ 64 }
    ensures { result ≡ retired_by_all tasks.now }
{
    tasks.iter().map(|task| u64::from(task.retired)).sum()
}

/// The sum of all words.
fn word_sum(memory: &[u32]) -> u64
    requires { length memory.now ≤ MOST_WORDS }
    ensures { result ≡ sum memory.now }
{
    memory.iter().map(|value| u64::from(*value)).sum()
}

/// How many tasks all phases have.
fn task_count(phases: &[Phase]) -> u32
    requires { length (tasks_of phases.now) ≤ 64 }
    ensures { result ≡ length (tasks_of phases.now) }
{
    let mut count = 0;
    for phase in phases {
        count += phase.tasks.len() as u32;
    }
    count
}

/// Adds a word and a number.
#[tactic(auto, unfolding(crate::specs::Summary::count_line))]
fn push_line(out: &mut Vec<u8>, word: &[u8], count: u64) -> Result<(), Memory>
    ensures { OnOk result (out.new.items ≡ out.old.items ++ count_line word.now count) }
{
    push(out, word)?;
    push_long(out, count)?;
    push(out, b"\n")
}

#[tactic(auto, unfolding(crate::specs::Summary::sum_line))]
fn push_sum(out: &mut Vec<u8>, memory: &[u32]) -> Result<(), Memory>
    requires { length memory.now ≤ MOST_WORDS }
    ensures { OnOk result (out.new.items ≡ out.old.items ++ sum_line memory.now) }
{
    push(out, b"sum ")?;
    push_hexadecimal(out, (word_sum(memory) % 0x1_0000_0000) as u32)?;
    push(out, b"\n")
}

/// The summary of a run: a line each with the outcome, the number of tasks that started, of the instructions that they retired
/// and of data words, and the sum of all data words modulo 2^32.
///
/// The ending must have at most 65,536 words and 64 tasks.
///
/// # Errors
/// `Memory` where there is no room for the text.
#[tactic(auto, unfolding(crate::specs::Summary::summary_of))]
pub fn summary(alloc: Global, ending: &Ending) -> Result<Vec<u8>, Memory>
    requires words { length ending.now.memory ≤ MOST_WORDS }
    requires tasks { length ending.now.tasks ≤ 64 }
    ensures { IfOk result (λ text. text.items ≡ summary_of ending.now) }
{
    let mut out = Vec::new(alloc);
    push_outcome(&mut out, ending.outcome)?;
    push_line(&mut out, b"tasks ", ending.tasks.len() as u64)?;
    push_line(
        &mut out,
        b"retired ",
        retired_by_all(ending.tasks.as_slice()),
    )?;
    push_count(&mut out, ending.memory.len() as u32)?;
    push_sum(&mut out, ending.memory.as_slice())?;
    Ok(out)
}

/// The line that says of a checked program how many phases, tasks and data words it has.
///
/// # Errors
/// `Memory` where there is no room for the line.
#[tactic(auto, unfolding(crate::specs::Summary::checked_of))]
pub fn checked_line(alloc: Global, program: &Program) -> Result<Vec<u8>, Memory>
    ensures { IfOk result (λ text. text.items ≡ checked_of program.now) }
{
    let mut out = Vec::new(alloc);
    push(&mut out, b"checked ")?;
    push_decimal(&mut out, program.phases.len() as u32)?;
    push(&mut out, b" ")?;
    push_decimal(&mut out, task_count(program.phases.as_slice()))?;
    push(&mut out, b" ")?;
    push_decimal(&mut out, program.memory.len() as u32)?;
    push(&mut out, b"\n")?;
    Ok(out)
}
