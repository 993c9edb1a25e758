ghost use Rattle.std.specs.Prelude.{◌≡◌, ◌++◌, ◌<◌, ◌≤◌, length, map, IfOk, OnOk};
ghost use Rattle.outcomes_top.specs.Text.{known_number, printed_ending, varies_line, varies_lines, common_text, open_line};

use common_outcomes::{Common, Kind, Open, Value};
use dn_base::{MOST_WORDS, Memory, Sequence};
use region_table::FIRST_DATA_ADDRESS;
use run_report::answer_text;
use rv_core::{Ending, TaskEnd};
use std::alloc::Global;
use text_pieces::{push, push_decimal, push_hexadecimal};

/// The number that is printed of a word; 0, which has no line, if the word isn't known.
fn known_number(value: Value) -> u32
    ensures { result ≡ known_number value }
{
    match value.kind {
        Kind::Known => value.number,
        _ => 0,
    }
}

/// The words that are known; a word that isn't counts as 0.
fn known_words(alloc: Global, memory: &[Value]) -> Result<Sequence<u32>, Memory>
    ensures { IfOk result (λ words. words ≡ map known_number memory.now) }
{
    let mut words = Sequence::new(alloc);
    for value in memory {
        words.push(known_number(*value))?;
    }
    Ok(words)
}

/// The ends of these tasks.
fn copy_ends(alloc: Global, ends: &[TaskEnd]) -> Result<Sequence<TaskEnd>, Memory>
    ensures { IfOk result (λ copy. copy ≡ ends.now) }
{
    Ok(Sequence::from_vec(Vec::from_slice(alloc, ends)?))
}

/// The ending of which the lines are printed.
fn printed_ending(alloc: Global, common: &Common) -> Result<Ending, Memory>
    ensures { IfOk result (λ ending. ending ≡ printed_ending common.now) }
{
    Ok(Ending {
        outcome: common.outcome,
        tasks: copy_ends(alloc, common.tasks.as_slice())?,
        memory: known_words(alloc, common.memory.as_slice())?,
    })
}

/// Appends the line of a word that may vary.
#[tactic(auto, unfolding(crate::specs::Text::varies_line))]
fn push_varies(out: &mut Vec<u8>, word: u32, value: Value) -> Result<(), Memory>
    requires { word < MOST_WORDS }
    ensures { OnOk result (out.new.items ≡ out.old.items ++ varies_line word value) }
{
    match value.kind {
        Kind::Known => Ok(()),
        _ => {
            push(out, b"varies ")?;
            push_hexadecimal(out, FIRST_DATA_ADDRESS + 4 * word)?;
            push(out, b"\n")
        }
    }
}

/// Appends the lines of the words that may vary.
fn push_all_varies(out: &mut Vec<u8>, memory: &[Value]) -> Result<(), Memory>
    requires { length memory.now ≤ MOST_WORDS }
    ensures { OnOk result (out.new.items ≡ out.old.items ++ varies_lines 0 memory.now) }
{
    let mut word = 0;
    for value in memory {
        push_varies(out, word, *value)?;
        word += 1;
    }
    Ok(())
}

/// The lines that are in the answer of every run, and a line for each word that may vary.
///
/// # Errors
/// `Memory` where there is no room for the text.
#[tactic(auto, unfolding(crate::specs::Text::common_text))]
pub fn common_text(alloc: Global, common: &Common) -> Result<Vec<u8>, Memory>
    requires words { length common.now.memory ≤ MOST_WORDS }
    requires tasks { length common.now.tasks ≤ 64 }
    ensures { IfOk result (λ text. text.items ≡ common_text common.now) }
{
    let mut out = answer_text(alloc, &printed_ending(alloc, common)?)?;
    push_all_varies(&mut out, common.memory.as_slice())?;
    Ok(out)
}

/// The line that says why it is open what the runs have in common.
///
/// # Errors
/// `Memory` where there is no room for the line.
#[tactic(auto, unfolding(crate::specs::Text::open_line))]
pub fn open_line(alloc: Global, why: Open) -> Result<Vec<u8>, Memory>
    ensures { IfOk result (λ line. line.items ≡ open_line why) }
{
    let mut out = Vec::new(alloc);
    match why {
        Open::Control { phase, core, pc } => {
            push(&mut out, b"open control ")?;
            push_decimal(&mut out, phase.0)?;
            push(&mut out, b" ")?;
            push_decimal(&mut out, core.0)?;
            push(&mut out, b" ")?;
            push_hexadecimal(&mut out, pc)?;
        }
        Open::Held { phase, core, lock } => {
            push(&mut out, b"open held ")?;
            push_decimal(&mut out, phase.0)?;
            push(&mut out, b" ")?;
            push_decimal(&mut out, core.0)?;
            push(&mut out, b" ")?;
            push_decimal(&mut out, lock.0)?;
        }
        Open::Stuck { phase, lock } => {
            push(&mut out, b"open stuck ")?;
            push_decimal(&mut out, phase.0)?;
            push(&mut out, b" ")?;
            push_decimal(&mut out, lock.0)?;
        }
    }
    push(&mut out, b"\n")?;
    Ok(out)
}
