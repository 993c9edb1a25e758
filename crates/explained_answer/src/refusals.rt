//! The answers to texts that are refused.
ghost use Rattle.std.specs.Prelude.{◌≡◌, ◌≢◌, Err, IfOk, IsTrue, IsFalse};
ghost use Rattle.rv_assembler.specs.declared.fault.SourceFault.TheVariants.{Memory as NoMemory};
ghost use Rattle.rv_assembler.specs.Source.{source};
ghost use Rattle.run_report.specs.declared.refusal.Refusal.TheVariants.{Source as OfSource, Check as OfCheck};
ghost use Rattle.run_report.specs.Refusal.{refusal_of};
ghost use Rattle.sentences.specs.Faults.{refusal_sentences};
ghost use Rattle.sentences.specs.Conflicts.{conflict_sentences};
ghost use Rattle.explained_answer.specs.Explained.{is_before_text, IsBeforeText, IsNotBeforeText, IsOtherAnswer, IsRefusalExplained};

use crate::explaining::Explained;
use crate::{AnswerLine, Count, FixedLine, read_line};
use dn_base::{Memory, Sequence};
use effect_checker::CheckFault;
use run_report::{Refusal, refusal_line};
use rv_assembler::SourceFault;
use sentences::{push_conflict, push_refusal};
use std::alloc::Global;
use text_places::Located;

/// Whether the line refuses arguments, or the form of a trace, before any text is looked at.
fn is_before_text(line: AnswerLine) -> bool
    ensures { result ≡ is_before_text line }
{
    match line {
        AnswerLine::Fixed(
            FixedLine::Usage | FixedLine::TooLarge | FixedLine::Head | FixedLine::Rest,
        ) => true,
        AnswerLine::Count {
            of: Count::WholeEvents,
            ..
        } => true,
        _ => false,
    }
}

/// Whether an answer is a single line that was printed before any text was looked at.
fn comes_before_text(answer: &[u8]) -> bool
    ensures yes { IsTrue result → IsBeforeText answer.now }
    ensures no { IsFalse result → IsNotBeforeText answer.now }
{
    match read_line(answer) {
        Some((line, rest)) => is_before_text(line) && rest.is_empty(),
        None => false,
    }
}

/// Explains an answer that isn't the refusal of a refused text: it is repeated if it was printed before any text was looked at.
fn other_answer(alloc: Global, answer: &[u8]) -> Result<Explained, Memory>
    ensures { IfOk result (IsOtherAnswer answer.now) }
{
    if !comes_before_text(answer) {
        return Ok(Explained::Refused { line: 1 });
    }
    let repeated = Vec::from_slice(alloc, answer)?;
    Ok(Explained::Text(Sequence::from_vec(repeated)))
}

/// Explains an answer to a text with this fault.
pub(crate) fn explained_fault(
    alloc: Global,
    text: &[u8],
    fault: SourceFault,
    answer: &[u8],
) -> Result<Explained, Memory>
    requires is { source text.now ≡ Err fault }
    requires known { fault ≢ NoMemory }
    ensures { IfOk result (IsRefusalExplained (refusal_of (OfSource fault)) (refusal_sentences text.now fault) answer.now) }
{
    let mut line = refusal_line(alloc, &Refusal::Source(fault))?;
    if answer != line.as_slice() {
        return other_answer(alloc, answer);
    }
    push_refusal(&mut line, text, fault)?;
    Ok(Explained::Text(Sequence::from_vec(line)))
}

/// Explains an answer to a text whose program has this conflict.
pub(crate) fn explained_conflict(
    alloc: Global,
    text: &[u8],
    located: &Located,
    fault: CheckFault,
    answer: &[u8],
) -> Result<Explained, Memory>
    ensures { IfOk result (IsRefusalExplained (refusal_of (OfCheck fault)) (conflict_sentences text.now located.now fault) answer.now) }
{
    let mut line = refusal_line(alloc, &Refusal::Check(fault))?;
    if answer != line.as_slice() {
        return other_answer(alloc, answer);
    }
    push_conflict(&mut line, text, located, fault)?;
    Ok(Explained::Text(Sequence::from_vec(line)))
}
