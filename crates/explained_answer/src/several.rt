//! The lines of the answers of runs, one answer after the other.
ghost use Rattle.std.specs.Prelude.{◌≡◌, ◌<◌, ◌≤◌, ◌++◌, ◌∷◌, All, length, take, drop, map, flat_map, option_copied, Some, OnOk, IfOk};
ghost use Rattle.std.specs.List.{prefix_len, slice_range};
ghost use Rattle.sentences.specs.Told.{AreTold};
ghost use Rattle.sentences.specs.Quotes.{AreSpans};
ghost use Rattle.effect_checker.specs.Checked.{IsChecked};
ghost use Rattle.explained_answer.specs.Explained.{IsLocated};
ghost use Rattle.explained_answer.specs.Lines.{answers_run_again, answer_and_sentences, lines_and_sentences, IsLineOf, IsWritten, lines_in, lines_of_one, HasLinesWithin};
ghost use Rattle.explained_answer.specs.Several.{begins_answer, goes_on, answers_in};

use crate::AnswerLine;
use crate::ended::{last_lines, named_on};
use crate::lines::push_explained;
use crate::parsing::ReadLine;
use crate::run_again::{answer_again, checked_program, standstill_on};
use dn_base::Memory;
use effect_checker::Checked;
use sentences::{ToldEffects, line_spans, told_effects};
use src_text::Span;
use std::alloc::Global;
use text_places::Located;

/// Where tasks stand is said of so many answers, the first ones: each of them is run again.
const ANSWERS_RUN_AGAIN: usize = 16;

/// The lines of one of several answers: from the number `start` on, and before the number `end`.
#[derive(Clone, Copy)]
pub(crate) struct OneAnswer {
    start: usize,
    end: usize,
}

fn begins_answer(line: AnswerLine) -> bool
    ensures { result ≡ begins_answer line }
{
    matches!(line, AnswerLine::Outcome(_))
}

/// How many of these lines belong to the answer of the line before them.
fn before_next(lines: &[ReadLine<'_>]) -> usize
    ensures value { result ≡ prefix_len goes_on lines.now }
    ensures within { result ≤ length lines.now }
{
    let mut count = 0;
    while count < lines.len() && !begins_answer(lines[count].line) {
        count += 1;
    }
    count
}

/// Where the answer that begins at the line of this number ends: the number of the line behind its last.
fn answer_end(lines: &[ReadLine<'_>], start: usize) -> usize
    requires { start < length lines.now }
    ensures first { answers_in (lines_in (drop start lines.now)) ≡ lines_in (slice_range lines.now start result) ∷ answers_in (lines_in (drop result lines.now)) }
    ensures on { start < result }
    ensures within { result ≤ length lines.now }
{
    start + 1 + before_next(&lines[start + 1..])
}

/// The answers that some lines are.
fn answers_in(alloc: Global, lines: &[ReadLine<'_>]) -> Result<Vec<OneAnswer>, Memory>
    ensures are { IfOk result (λ answers. map (lines_of_one lines.now) answers.items ≡ answers_in (lines_in lines.now)) }
    ensures within { IfOk result (λ answers. All (HasLinesWithin lines.now) answers.items) }
{
    let mut answers = Vec::new(alloc);
    let mut start = 0;
    'answers: while start < lines.len() {
        let end = answer_end(lines, start);
        answers.push(OneAnswer { start, end })?;
        start = end;
    }
    Ok(answers)
}

/// Adds the lines of one answer, each with what is said of it. `again` is the program that is run once more for where the answer's
/// tasks stand; without one, that isn't said.
fn push_answer<'a>(
    out: &mut Vec<u8>,
    text: &[u8],
    spans: &[Span],
    effects: &ToldEffects<'a>,
    located: &'a Located,
    again: Option<&Checked>,
    lines: &[ReadLine<'_>],
) -> Result<(), Memory>
    requires spans { AreSpans text.now spans.now }
    requires effects { AreTold text.now effects.now }
    requires written { All IsWritten lines.now }
    requires are { All (IsLineOf located.now) (lines_in lines.now) }
    ensures { OnOk result (out.new.items ≡ out.old.items ++ answer_and_sentences text.now located.now (option_copied again.entry) (lines_in lines.now)) }
{
    let alloc = *out.allocator();
    let last = last_lines(alloc, located, lines)?;
    let told = answer_again(alloc, again, lines)?;
    for read in lines {
        let still = standstill_on(&told, &last, read.line);
        let named = named_on(&last, lines, read.line);
        push_explained(
            out,
            text,
            spans,
            effects,
            located,
            read.line,
            read.written,
            still,
            named,
            told.why,
        )?;
    }
    Ok(())
}

/// Adds the lines of these answers, one answer after the other. `again` is as for one answer.
fn push_answers<'a>(
    out: &mut Vec<u8>,
    text: &[u8],
    spans: &[Span],
    effects: &ToldEffects<'a>,
    located: &'a Located,
    again: Option<&Checked>,
    lines: &[ReadLine<'_>],
    answers: &[OneAnswer],
) -> Result<(), Memory>
    requires spans { AreSpans text.now spans.now }
    requires effects { AreTold text.now effects.now }
    requires written { All IsWritten lines.now }
    requires are { All (IsLineOf located.now) (lines_in lines.now) }
    requires within { All (HasLinesWithin lines.now) answers.now }
    ensures { OnOk result (out.new.items ≡ out.old.items
        ++ flat_map (answer_and_sentences text.now located.now (option_copied again.entry)) (map (lines_of_one lines.now) answers.now)) }
{
    for answer in answers {
        let own = &lines[answer.start..answer.end];
        push_answer(out, text, spans, effects, located, again, own)?;
    }
    Ok(())
}

/// The answers that are run again, and the others.
fn split_answers(answers: &[OneAnswer]) -> (&[OneAnswer], &[OneAnswer])
    ensures first { result.0.now ≡ take answers_run_again answers.now }
    ensures others { result.1.now ≡ drop answers_run_again answers.now }
{
    if ANSWERS_RUN_AGAIN < answers.len() {
        answers.split_at(ANSWERS_RUN_AGAIN)
    } else {
        answers.split_at(answers.len())
    }
}

/// Adds the lines of all answers. Where tasks stand is said of the first ones only.
fn push_all_answers<'a>(
    out: &mut Vec<u8>,
    text: &'a [u8],
    located: &'a Located,
    again: Option<&Checked>,
    lines: &[ReadLine<'_>],
    answers: &[OneAnswer],
) -> Result<(), Memory>
    requires again { option_copied again ≡ Some located.now.program }
    requires written { All IsWritten lines.now }
    requires are { All (IsLineOf located.now) (lines_in lines.now) }
    requires answers { map (lines_of_one lines.now) answers.now ≡ answers_in (lines_in lines.now) }
    requires within { All (HasLinesWithin lines.now) answers.now }
    ensures { OnOk result (out.new.items ≡ out.old.items ++ lines_and_sentences text.now located.now (lines_in lines.now)) }
{
    let alloc = *out.allocator();
    let found = line_spans(alloc, text)?;
    let spans = found.as_slice();
    let effects = told_effects(alloc, text)?;
    let (first, others) = split_answers(answers);
    push_answers(out, text, spans, &effects, located, again, lines, first)?;
    push_answers(out, text, spans, &effects, located, None, lines, others)
}

/// Explains the lines of answers, one answer after the other.
pub(crate) fn explained_lines<'a>(
    alloc: Global,
    text: &'a [u8],
    located: &'a Located,
    lines: &[ReadLine<'_>],
) -> Result<Vec<u8>, Memory>
    requires located { IsLocated text.now located.now }
    requires checked { IsChecked located.now.program }
    requires written { All IsWritten lines.now }
    requires are { All (IsLineOf located.now) (lines_in lines.now) }
    ensures { IfOk result (λ out. out.items ≡ lines_and_sentences text.now located.now (lines_in lines.now)) }
{
    let answers = answers_in(alloc, lines)?;
    let checked = checked_program(alloc, text)?;
    let mut out = Vec::new(alloc);
    push_all_answers(
        &mut out,
        text,
        located,
        checked.as_ref(),
        lines,
        answers.as_slice(),
    )?;
    Ok(out)
}
