//! The table of answers.
ghost use Rattle.std.specs.Prelude.{◌≡◌, ◌++◌, flat_map, IfOk, OnOk};
ghost use Rattle.sweep_top.specs.AnswerTable.{answer_row, answers_head};
ghost use Rattle.sweep_top.specs.Kept.{counted_answers};

use crate::counts::AnswerCount;
use crate::table::{push_checksum, push_count};
use dn_base::Memory;
use indexmap::IndexMap;
use run_report::outcome_name;
use std::alloc::Global;
use text_pieces::{push, push_decimal};

/// Appends the row of an answer.
#[tactic(auto, unfolding(crate::specs::AnswerTable::answer_row))]
fn push_answer(out: &mut Vec<u8>, text: &[u8], count: &AnswerCount) -> Result<(), Memory>
    ensures { OnOk result (out.new.items ≡ out.old.items ++ answer_row (text.now, count.now)) }
{
    push_decimal(out, count.seed)?;
    push_count(out, u64::from(count.runs))?;
    push(out, b",")?;
    push(out, outcome_name(count.outcome))?;
    push_count(out, count.retired)?;
    push_checksum(out, text)?;
    push(out, b"\n")
}

/// Appends the rows of all answers.
fn push_answers(out: &mut Vec<u8>, answers: &IndexMap<Vec<u8>, AnswerCount>) -> Result<(), Memory>
    ensures { OnOk result (out.new.items ≡ out.old.items ++ flat_map answer_row (counted_answers answers.now.entries)) }
{
    for (text, count) in answers.iter() {
        push_answer(out, text.as_slice(), count)?;
    }
    Ok(())
}

/// The table of these answers: a head line and a row for each.
///
/// # Errors
/// `Memory` where there is no room for the table.
#[tactic(auto, unfolding(crate::specs::AnswerTable::answers_head))]
pub(crate) fn answer_table(
    alloc: Global,
    answers: &IndexMap<Vec<u8>, AnswerCount>,
) -> Result<Vec<u8>, Memory>
    ensures { IfOk result (λ text. text.items ≡ answers_head ++ flat_map answer_row (counted_answers answers.now.entries)) }
{
    let mut out = Vec::new(alloc);
    push(&mut out, b"seed,runs,outcome,retired,answer\n")?;
    push_answers(&mut out, answers)?;
    Ok(out)
}
