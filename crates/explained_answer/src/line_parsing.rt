//! A line of an answer at the start of some bytes.
ghost use Rattle.std.specs.Prelude.{IfSome, IfNone};
ghost use Rattle.run_report.specs.Grants.{grant_line};
ghost use Rattle.text_pieces.specs.Field.{Stands, NoneStands};
ghost use Rattle.explained_answer.specs.AnswerLines.{HasGrantNumbers, IsAnswerLine, IsOpenLine, IsOtherLine, answer_line};

use crate::line::AnswerLine;
use crate::long::ticks;
use crate::numbers::{three_numbers, two_numbers};
use crate::programs::{fixed_line, place_line, sum, varies};
use crate::tasks::task;
use crate::timing::{link, network};
use crate::words::{count, outcome, word};
use dn_base::{CoreId, Grant, LockId, PhaseId};

/// The grant whose line stands at the start of some bytes, and what follows it.
fn grant(bytes: &[u8]) -> Option<(Grant, &[u8])>
    ensures some { IfSome result (λ f. Stands HasGrantNumbers grant_line bytes.now f.0 f.1.now) }
    ensures none { IfNone result (NoneStands HasGrantNumbers grant_line bytes.now) }
{
    let (phase, core, lock, rest) = three_numbers(bytes, b"grant ")?;
    let grant = Grant {
        phase: PhaseId(phase),
        core: CoreId(core),
        lock: LockId(lock),
    };
    Some((grant, rest))
}

/// The line on what runs have in common that stands at the start of some bytes, and what follows it.
fn read_open(bytes: &[u8]) -> Option<(AnswerLine, &[u8])>
    ensures some { IfSome result (λ f. Stands IsAnswerLine answer_line bytes.now f.0 f.1.now) }
    ensures none { IfNone result (NoneStands IsOpenLine answer_line bytes.now) }
{
    if let Some((word, rest)) = varies(bytes) {
        return Some((AnswerLine::Varies { word }, rest));
    }
    if let Some((phase, core, pc, rest)) = place_line(bytes, b"open control ") {
        return Some((AnswerLine::OpenControl { phase, core, pc }, rest));
    }
    if let Some((phase, core, lock, rest)) = three_numbers(bytes, b"open held ") {
        return Some((AnswerLine::OpenHeld { phase, core, lock }, rest));
    }
    let (phase, lock, rest) = two_numbers(bytes, b"open stuck ", b"", b'\n')?;
    Some((AnswerLine::OpenStuck { phase, lock }, rest))
}

/// The line on a program, a sum, a time or a refusal that stands at the start of some bytes, and what follows it.
fn read_other(bytes: &[u8]) -> Option<(AnswerLine, &[u8])>
    ensures some { IfSome result (λ f. Stands IsAnswerLine answer_line bytes.now f.0 f.1.now) }
    ensures none { IfNone result (NoneStands IsOtherLine answer_line bytes.now) }
{
    if let Some((phases, tasks, words, rest)) = three_numbers(bytes, b"checked ") {
        return Some((
            AnswerLine::Checked {
                phases,
                tasks,
                words,
            },
            rest,
        ));
    }
    if let Some((phase, core, pc, rest)) = place_line(bytes, b"unbounded ") {
        return Some((AnswerLine::Unbounded { phase, core, pc }, rest));
    }
    if let Some((value, rest)) = sum(bytes) {
        return Some((AnswerLine::Sum { value }, rest));
    }
    if let Some((ticks, rest)) = ticks(bytes, b"time ") {
        return Some((AnswerLine::Time { ticks }, rest));
    }
    if let Some((ticks, rest)) = network(bytes) {
        return Some((AnswerLine::Network { ticks }, rest));
    }
    if let Some((link, rest)) = link(bytes) {
        return Some((AnswerLine::Link(link), rest));
    }
    if let Some((line, rest)) = fixed_line(bytes) {
        return Some((AnswerLine::Fixed(line), rest));
    }
    read_open(bytes)
}

/// Reads a line of an answer at the start of some bytes. Gives it and the bytes after it; None if no such line stands there.
pub fn read_line(bytes: &[u8]) -> Option<(AnswerLine, &[u8])>
    ensures some { IfSome result (λ f. Stands IsAnswerLine answer_line bytes.now f.0 f.1.now) }
    ensures none { IfNone result (NoneStands IsAnswerLine answer_line bytes.now) }
{
    if let Some((outcome, rest)) = outcome(bytes) {
        return Some((AnswerLine::Outcome(outcome), rest));
    }
    if let Some((task, rest)) = task(bytes) {
        return Some((AnswerLine::Task(task), rest));
    }
    if let Some((word, value, rest)) = word(bytes) {
        return Some((AnswerLine::Word { word, value }, rest));
    }
    if let Some((grant, rest)) = grant(bytes) {
        return Some((AnswerLine::Grant(grant), rest));
    }
    if let Some((of, number, rest)) = count(bytes) {
        return Some((AnswerLine::Count { of, number }, rest));
    }
    read_other(bytes)
}
