ghost use Rattle.std.specs.Prelude.{◌≡◌, ◌<◌, ◌≤◌, length, map, IfOk, option_map};
ghost use Rattle.claims.specs.Judge.{answer_verdict};
ghost use Rattle.referee_top.specs.Settled.{behind_prefix, behind_value, behind_any, behind_word, word_front, word_bytes, settled_lines, no_number, settled_front, rest_verdict, words_verdict, settled_verdict};
ghost use Rattle.run_report.specs.Answer.{word_line};

use claims::{Verdict, judge_answer};
use common_outcomes::{Common, Kind, Value};
use dn_base::{MOST_OF_DOCUMENT, MOST_WORDS, Memory, Sequence};
use region_table::FIRST_DATA_ADDRESS;
use run_report::answer_text;
use rv_core::{Ending, TaskEnd};
use std::alloc::Global;
use text_pieces::{behind, hexadecimal, push, push_hexadecimal, to_hexadecimal};

/// What follows `front` in a text that begins with it.
fn behind_prefix<'a>(text: &'a [u8], front: &[u8]) -> Option<&'a [u8]>
    ensures { option_map (λ rest. rest.now) result ≡ behind_prefix front.now text.now }
{
    behind(text, front)
}

/// What follows a number of base 16 and a newline in a text that begins with them.
fn behind_value(text: &[u8]) -> Option<&[u8]>
    ensures { option_map (λ rest. rest.now) result ≡ behind_value text.now }
{
    let (_, rest) = hexadecimal(text)?;
    behind_prefix(rest, b"\n")
}

/// What follows the line of a word up to its value, in a text that begins so.
#[tactic(auto, unfolding(crate::specs::Settled::word_front))]
fn behind_front(text: &[u8], word: u32) -> Option<&[u8]>
    requires { word < MOST_WORDS }
    ensures { option_map (λ rest. rest.now) result ≡ behind_prefix (word_front word) text.now }
{
    let rest = behind_prefix(text, b"word ")?;
    let rest = behind_prefix(rest, &to_hexadecimal(FIRST_DATA_ADDRESS + 4 * word))?;
    behind_prefix(rest, b" ")
}

/// What follows the line of a word in a text that begins with it, whatever its value is; else the text.
fn behind_any(text: &[u8], word: u32) -> &[u8]
    requires { word < MOST_WORDS }
    ensures { result.now ≡ behind_any word text.now }
{
    match behind_front(text, word) {
        Some(rest) => behind_value(rest).unwrap_or(text),
        None => text,
    }
}

/// What follows the line of a word with this value in a text that begins with it. A word that is 0 has no line.
fn behind_line(text: &[u8], word: u32, value: u32) -> Option<&[u8]>
    requires { word < MOST_WORDS }
    ensures { option_map (λ rest. rest.now) result ≡ behind_prefix (word_line word value) text.now }
{
    if value == 0 {
        return Some(text);
    }
    let rest = behind_front(text, word)?;
    let rest = behind_prefix(rest, &to_hexadecimal(value))?;
    behind_prefix(rest, b"\n")
}

/// What follows what an answer should say of a word, in a text that begins so.
fn behind_word(text: &[u8], word: u32, value: Value) -> Option<&[u8]>
    requires { word < MOST_WORDS }
    ensures { option_map (λ rest. rest.now) result ≡ behind_word word value text.now }
{
    match value.kind {
        Kind::Known => behind_line(text, word, value.number),
        _ => Some(behind_any(text, word)),
    }
}

/// How many settled lines a word has: one if it is known, and isn't 0.
fn settled_lines(value: Value) -> u32
    ensures value { result ≡ settled_lines value }
    ensures most { result ≤ 1 }
{
    match value.kind {
        Kind::Known => u32::from(value.number != 0),
        _ => 0,
    }
}

/// The line of a word, without its newline.
#[tactic(auto, unfolding(crate::specs::Settled::word_bytes, crate::specs::Settled::word_front))]
fn word_bytes(alloc: Global, word: u32, value: u32) -> Result<Sequence<u8>, Memory>
    requires { word < MOST_WORDS }
    ensures { IfOk result (λ line. line ≡ word_bytes word value) }
{
    let mut line = Vec::new(alloc);
    push(&mut line, b"word ")?;
    push_hexadecimal(&mut line, FIRST_DATA_ADDRESS + 4 * word)?;
    push(&mut line, b" ")?;
    push_hexadecimal(&mut line, value)?;
    Ok(Sequence::from_vec(line))
}

/// What is said where all settled lines stood there, and this is left.
fn rest_verdict(line: u32, rest: &[u8]) -> Verdict
    ensures { result ≡ rest_verdict line rest.now }
{
    if rest.is_empty() {
        Verdict::Agrees
    } else {
        Verdict::Answer { line, right: None }
    }
}

/// What is said of the part of an answer that tells the words, whose first settled line has this number.
///
/// # Errors
/// `Memory` where there is no room for the settled line.
fn judge_words(alloc: Global, memory: &[Value], first: u32, text: &[u8]) -> Result<Verdict, Memory>
    requires words { length memory.now ≤ MOST_WORDS }
    requires first { first ≤ 66 }
    ensures { IfOk result (λ verdict. verdict ≡ words_verdict first 0 memory.now text.now) }
{
    let mut rest = text;
    let mut line = first;
    let mut word = 0;
    for value in memory {
        let Some(behind) = behind_word(rest, word, *value) else {
            let right = Some(word_bytes(alloc, word, value.number)?);
            return Ok(Verdict::Answer { line, right });
        };
        rest = behind;
        line += settled_lines(*value);
        word += 1;
    }
    Ok(rest_verdict(line, rest))
}

/// The number that a word has in an answer in which all are 0.
fn no_number(_value: Value) -> u32
    ensures { result ≡ no_number _value }
{
    0
}

/// As many words as these, of which each is 0.
fn zeros(alloc: Global, memory: &[Value]) -> Result<Sequence<u32>, Memory>
    ensures words { IfOk result (λ words. words ≡ map no_number memory.now) }
    ensures count { IfOk result (λ words. length words ≡ length memory.now) }
{
    let mut words = Sequence::new(alloc);
    for value in memory {
        words.push(no_number(*value))?;
    }
    Ok(words)
}

/// The ends of these tasks.
fn copy_ends(alloc: Global, ends: &[TaskEnd]) -> Result<Sequence<TaskEnd>, Memory>
    ensures { IfOk result (λ copy. copy ≡ ends.now) }
{
    Ok(Sequence::from_vec(Vec::from_slice(alloc, ends)?))
}

/// The settled lines in front of those of the words: those of an answer whose words are all 0.
fn settled_front(alloc: Global, common: &Common) -> Result<Vec<u8>, Memory>
    requires words { length common.now.memory ≤ MOST_WORDS }
    requires tasks { length common.now.tasks ≤ 64 }
    ensures { IfOk result (λ front. front.items ≡ settled_front common.now) }
{
    let tasks = copy_ends(alloc, common.tasks.as_slice())?;
    let memory = zeros(alloc, common.memory.as_slice())?;
    let ending = Ending {
        outcome: common.outcome,
        tasks,
        memory,
    };
    answer_text(alloc, &ending)
}

/// What is said of an answer of at most 536,870,912 bytes that is claimed of some run, beside what all runs have in common: that it
/// agrees, or the first settled line that doesn't stand there. Words that may vary aren't compared.
///
/// The time is proportional to the bytes of the answer and the number of words.
///
/// # Errors
/// `Memory` where there is no room for the settled lines.
#[tactic(auto, unfolding(crate::specs::Settled::settled_verdict))]
pub fn judge_settled(alloc: Global, common: &Common, claimed: &[u8]) -> Result<Verdict, Memory>
    requires words { length common.now.memory ≤ MOST_WORDS }
    requires tasks { length common.now.tasks ≤ 64 }
    requires claimed { length claimed.now ≤ MOST_OF_DOCUMENT }
    ensures { IfOk result (λ verdict. verdict ≡ settled_verdict common.now claimed.now) }
{
    let front = settled_front(alloc, common)?;
    match behind_prefix(claimed, &front) {
        Some(rest) => {
            let first = common.tasks.len() as u32 + 2;
            judge_words(alloc, common.memory.as_slice(), first, rest)
        }
        None => judge_answer(alloc, claimed, &front),
    }
}
