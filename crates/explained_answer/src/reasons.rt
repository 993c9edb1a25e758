//! Why an answer of outcomes is open.
ghost use Rattle.std.specs.Prelude.{◌≡◌, ◌++◌, OnOk, IfOk};
ghost use Rattle.std.specs.List.{list_any};
ghost use Rattle.sentences.specs.Endings.{place_behind, place_if};
ghost use Rattle.sentences.specs.Quotes.{AreSpans};
ghost use Rattle.explained_answer.specs.Lines.{lines_in};
ghost use Rattle.explained_answer.specs.Reasons.{is_open_line, is_control, is_held_end, is_stuck_so, is_open_so, reason_for, reason_by_lines, reads_register, read_under, guarded_text, under_if, ends_sentence, the_load, dependence_text, depends_text, a_task, task_that_line, task_line_text, holding_text, while_holding, takes_lock, taken_at_place, place_or_end, acquire_text, takes_text, open_phase, why_text, sweep_advice, said_of_reason};

use crate::AnswerLine;
use crate::parsing::ReadLine;
use common_outcomes::Open;
use dn_base::Memory;
use effect_checker::Checked;
use outcomes_top::{Dependence, Reason, Taken, why_open};
use sentences::{code_place_at, push_place_behind};
use src_text::Span;
use std::alloc::Global;
use text_pieces::{push, push_decimal};
use text_places::{CodePlace, Located, TaskPlace, push_lock, push_word};

/// The greatest number of instructions that a task may retire.
const MOST_FUEL: u32 = 32768;

/// Whether an answer is open by the line.
fn is_open_line(line: AnswerLine) -> bool
    ensures { result ≡ is_open_line line }
{
    matches!(
        line,
        AnswerLine::OpenControl { .. } | AnswerLine::OpenHeld { .. } | AnswerLine::OpenStuck { .. }
    )
}

fn is_control(phase: u32, core: u32, pc: u32, why: Open) -> bool
    ensures { result ≡ is_control phase core pc why }
{
    match why {
        Open::Control {
            phase: p,
            core: c,
            pc: at,
        } => phase == p.0 && core == c.0 && pc == at,
        _ => false,
    }
}

fn is_held_end(phase: u32, core: u32, lock: u32, why: Open) -> bool
    ensures { result ≡ is_held_end phase core lock why }
{
    match why {
        Open::Held {
            phase: p,
            core: c,
            lock: k,
        } => phase == p.0 && core == c.0 && lock == k.0,
        _ => false,
    }
}

fn is_stuck_so(phase: u32, lock: u32, why: Open) -> bool
    ensures { result ≡ is_stuck_so phase lock why }
{
    match why {
        Open::Stuck { phase: p, lock: k } => phase == p.0 && lock == k.0,
        _ => false,
    }
}

/// Whether the answer is open as the line says.
fn is_open_so(line: AnswerLine, why: Open) -> bool
    ensures { result ≡ is_open_so line why }
{
    match line {
        AnswerLine::OpenControl {
            phase,
            core,
            pc: at,
        } => is_control(phase, core, at, why),
        AnswerLine::OpenHeld { phase, core, lock } => is_held_end(phase, core, lock, why),
        AnswerLine::OpenStuck { phase, lock } => is_stuck_so(phase, lock, why),
        _ => false,
    }
}

/// The reason, if it is the line's.
fn reason_for(why: Option<Reason>, line: AnswerLine) -> Option<Reason>
    ensures { result ≡ reason_for why line }
{
    match why {
        Some(reason) if is_open_so(line, reason.why) => Some(reason),
        _ => None,
    }
}

/// Whether one of the lines says that the answer is open.
fn has_open(lines: &[ReadLine<'_>]) -> bool
    ensures { result ≡ list_any is_open_line (lines_in lines.now) }
{
    for read in lines {
        if is_open_line(read.line) {
            return true;
        }
    }
    false
}

/// Why the answer of the program with the greatest fuel is open, if one of the lines says that it is.
pub(crate) fn reason_by_lines(
    alloc: Global,
    checked: &Checked,
    lines: &[ReadLine<'_>],
) -> Result<Option<Reason>, Memory>
    ensures { IfOk result (λ found. found ≡ reason_by_lines checked.now (lines_in lines.now)) }
{
    if has_open(lines) {
        why_open(alloc, checked, MOST_FUEL)
    } else {
        Ok(None)
    }
}

#[tactic(auto, unfolding(crate::specs::Reasons::reads_register))]
fn push_reads_register(out: &mut Vec<u8>, register: u32) -> Result<(), Memory>
    ensures { OnOk result (out.new.items ≡ out.old.items ++ reads_register register) }
{
    push(out, b"  It reads x")?;
    push_decimal(out, register)?;
    push(out, b", whose value comes from ")
}

#[tactic(auto, unfolding(crate::specs::Reasons::read_under))]
fn push_read_under(out: &mut Vec<u8>) -> Result<(), Memory>
    ensures { OnOk result (out.new.items ≡ out.old.items ++ read_under) }
{
    push(out, b", read under ")
}

#[tactic(auto, unfolding(crate::specs::Reasons::guarded_text))]
fn push_guarded_text(out: &mut Vec<u8>, located: &Located, lock: u32) -> Result<(), Memory>
    ensures { OnOk result (out.new.items ≡ out.old.items ++ guarded_text located.now lock) }
{
    push_read_under(out)?;
    push_lock(out, located.program.locks.as_slice(), lock as usize)
}

fn push_under_if(out: &mut Vec<u8>, located: &Located, lock: Option<u32>) -> Result<(), Memory>
    ensures { OnOk result (out.new.items ≡ out.old.items ++ under_if located.now lock) }
{
    match lock {
        Some(lock) => push_guarded_text(out, located, lock),
        None => Ok(()),
    }
}

#[tactic(auto, unfolding(crate::specs::Reasons::ends_sentence))]
fn push_end_of_sentence(out: &mut Vec<u8>) -> Result<(), Memory>
    ensures { OnOk result (out.new.items ≡ out.old.items ++ ends_sentence) }
{
    push(out, b".\n")
}

/// Adds where the load stands.
#[tactic(auto, unfolding(crate::specs::Reasons::the_load))]
fn push_load_place(
    out: &mut Vec<u8>,
    text: &[u8],
    spans: &[Span],
    place: Option<CodePlace>,
) -> Result<(), Memory>
    requires { AreSpans text.now spans.now }
    ensures { OnOk result (out.new.items ≡ out.old.items ++ place_if the_load text.now place) }
{
    match place {
        Some(place) => push_place_behind(out, b"  The load is at ", text, spans, place),
        None => Ok(()),
    }
}

/// Adds the register on which control depends, the word that its value comes from, and the load.
fn push_dependence(
    out: &mut Vec<u8>,
    text: &[u8],
    spans: &[Span],
    located: &Located,
    dependence: Dependence,
) -> Result<(), Memory>
    requires { AreSpans text.now spans.now }
    ensures { OnOk result (out.new.items ≡ out.old.items ++ dependence_text text.now located.now dependence) }
{
    let read = dependence.read;
    push_reads_register(out, dependence.register)?;
    push_word(out, &located.program, read.word.0)?;
    push_under_if(out, located, read.lock)?;
    push_end_of_sentence(out)?;
    push_load_place(out, text, spans, code_place_at(&located.places, read.pc))
}

fn push_depends(
    out: &mut Vec<u8>,
    text: &[u8],
    spans: &[Span],
    located: &Located,
    dependence: Option<Dependence>,
) -> Result<(), Memory>
    requires { AreSpans text.now spans.now }
    ensures { OnOk result (out.new.items ≡ out.old.items ++ depends_text text.now located.now dependence) }
{
    match dependence {
        Some(dependence) => push_dependence(out, text, spans, located, dependence),
        None => Ok(()),
    }
}

#[tactic(auto, unfolding(crate::specs::Reasons::a_task))]
fn push_a_task(out: &mut Vec<u8>) -> Result<(), Memory>
    ensures { OnOk result (out.new.items ≡ out.old.items ++ a_task) }
{
    push(out, b"  The task")
}

#[tactic(auto, unfolding(crate::specs::Reasons::task_that_line))]
fn push_task_that_line(out: &mut Vec<u8>, line: u32) -> Result<(), Memory>
    ensures { OnOk result (out.new.items ≡ out.old.items ++ task_that_line line) }
{
    push(out, b" that line ")?;
    push_decimal(out, line)?;
    push(out, b" declares")
}

fn push_task_line(out: &mut Vec<u8>, task: Option<TaskPlace>) -> Result<(), Memory>
    ensures { OnOk result (out.new.items ≡ out.old.items ++ task_line_text task) }
{
    match task {
        Some(place) => push_task_that_line(out, place.line),
        None => Ok(()),
    }
}

#[tactic(auto, unfolding(crate::specs::Reasons::holding_text))]
fn push_holding_text(out: &mut Vec<u8>, located: &Located, lock: u32) -> Result<(), Memory>
    ensures { OnOk result (out.new.items ≡ out.old.items ++ holding_text located.now lock) }
{
    push(out, b" holds ")?;
    push_lock(out, located.program.locks.as_slice(), lock as usize)?;
    push(out, b" and")
}

fn push_while_holding(out: &mut Vec<u8>, located: &Located, lock: Option<u32>) -> Result<(), Memory>
    ensures { OnOk result (out.new.items ≡ out.old.items ++ while_holding located.now lock) }
{
    match lock {
        Some(lock) => push_holding_text(out, located, lock),
        None => Ok(()),
    }
}

#[tactic(auto, unfolding(crate::specs::Reasons::takes_lock))]
fn push_takes_lock(out: &mut Vec<u8>, located: &Located, lock: u32) -> Result<(), Memory>
    ensures { OnOk result (out.new.items ≡ out.old.items ++ takes_lock located.now lock) }
{
    push(out, b" takes ")?;
    push_lock(out, located.program.locks.as_slice(), lock as usize)
}

/// Adds where a lock is taken.
#[tactic(auto, unfolding(crate::specs::Reasons::taken_at_place))]
fn push_place_or_end(
    out: &mut Vec<u8>,
    text: &[u8],
    spans: &[Span],
    place: Option<CodePlace>,
) -> Result<(), Memory>
    requires { AreSpans text.now spans.now }
    ensures { OnOk result (out.new.items ≡ out.old.items ++ place_or_end text.now place) }
{
    match place {
        Some(place) => push_place_behind(out, b" at ", text, spans, place),
        None => push_end_of_sentence(out),
    }
}

/// Adds which task takes the lock, and where.
fn push_acquire_text(
    out: &mut Vec<u8>,
    text: &[u8],
    spans: &[Span],
    located: &Located,
    phase: u32,
    taken: Taken,
) -> Result<(), Memory>
    requires { AreSpans text.now spans.now }
    ensures { OnOk result (out.new.items ≡ out.old.items ++ acquire_text text.now located.now phase taken) }
{
    push_a_task(out)?;
    push_task_line(out, located.places.task(phase as usize, taken.core.0))?;
    push_while_holding(out, located, taken.holding)?;
    push_takes_lock(out, located, taken.lock.0)?;
    push_place_or_end(out, text, spans, code_place_at(&located.places, taken.pc))
}

fn push_takes(
    out: &mut Vec<u8>,
    text: &[u8],
    spans: &[Span],
    located: &Located,
    phase: u32,
    taken: Option<Taken>,
) -> Result<(), Memory>
    requires { AreSpans text.now spans.now }
    ensures { OnOk result (out.new.items ≡ out.old.items ++ takes_text text.now located.now phase taken) }
{
    match taken {
        Some(taken) => push_acquire_text(out, text, spans, located, phase, taken),
        None => Ok(()),
    }
}

/// The phase that is open.
fn open_phase(why: Open) -> u32
    ensures { result ≡ open_phase why }
{
    match why {
        Open::Control { phase, .. } | Open::Held { phase, .. } | Open::Stuck { phase, .. } => {
            phase.0
        }
    }
}

fn push_why_text(
    out: &mut Vec<u8>,
    text: &[u8],
    spans: &[Span],
    located: &Located,
    reason: Option<Reason>,
) -> Result<(), Memory>
    requires { AreSpans text.now spans.now }
    ensures { OnOk result (out.new.items ≡ out.old.items ++ why_text text.now located.now reason) }
{
    match reason {
        Some(reason) => {
            let phase = open_phase(reason.why);
            push_depends(out, text, spans, located, reason.dependence)?;
            push_takes(out, text, spans, located, phase, reason.first)?;
            push_takes(out, text, spans, located, phase, reason.second)
        }
        None => Ok(()),
    }
}

/// Adds what can be done where it is open what the runs have in common.
#[tactic(auto, unfolding(crate::specs::Reasons::sweep_advice))]
fn push_sweep_advice(out: &mut Vec<u8>) -> Result<(), Memory>
    ensures { OnOk result (out.new.items ≡ out.old.items ++ sweep_advice) }
{
    push(
        out,
        b"  `./sweep --form answers` runs the program by many seeds, and lists which answers came and how often.\n",
    )
}

/// Adds why the answer is open, if the line says that it is, and what can be done.
pub(crate) fn push_reason(
    out: &mut Vec<u8>,
    text: &[u8],
    spans: &[Span],
    located: &Located,
    why: Option<Reason>,
    line: AnswerLine,
) -> Result<(), Memory>
    requires { AreSpans text.now spans.now }
    ensures { OnOk result (out.new.items ≡ out.old.items ++ said_of_reason text.now located.now why line) }
{
    if !is_open_line(line) {
        return Ok(());
    }
    push_why_text(out, text, spans, located, reason_for(why, line))?;
    push_sweep_advice(out)
}
