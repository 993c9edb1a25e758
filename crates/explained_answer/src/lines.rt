//! The lines of the answer of a run.
ghost use Rattle.std.specs.Prelude.{◌≡◌, ◌++◌, OnOk};
ghost use Rattle.sentences.specs.Endings.{place_behind};
ghost use Rattle.sentences.specs.Told.{AreTold};
ghost use Rattle.sentences.specs.Quotes.{AreSpans};
ghost use Rattle.explained_answer.specs.AnswerLines.{answer_line};
ghost use Rattle.explained_answer.specs.Lines.{named_word, named_lock, which_line, declared_there, task_there, the_instruction, at_its_place, instruction_there, unproven_text, varying_word, control_warning, control_text, the_task, that_line, declared_by, while_it_holds, held_warning, stuck_warning, held_text, stuck_text, sentences_behind};
ghost use Rattle.explained_answer.specs.Reasons.{said_of_reason};

use crate::AnswerLine;
use crate::causes::{push_ended_holder, push_outcome};
use crate::reasons::push_reason;
use dn_base::Memory;
use outcomes_top::Reason;
use rv_core::TaskEnd;
use sentences::{Standstill, ToldEffects, code_place_at, push_ending, push_place_behind};
use src_text::Span;
use text_pieces::{push, push_decimal};
use text_places::{CodePlace, Located, Places, TaskPlace, push_lock, push_word};

#[tactic(auto, unfolding(crate::specs::Lines::named_word))]
fn push_named_word(out: &mut Vec<u8>, located: &Located, word: u32) -> Result<(), Memory>
    ensures { OnOk result (out.new.items ≡ out.old.items ++ named_word located.now word) }
{
    push(out, b"  ")?;
    push_word(out, &located.program, word)?;
    push(out, b"\n")
}

#[tactic(auto, unfolding(crate::specs::Lines::named_lock))]
fn push_named_lock(out: &mut Vec<u8>, located: &Located, lock: u32) -> Result<(), Memory>
    ensures { OnOk result (out.new.items ≡ out.old.items ++ named_lock located.now lock) }
{
    push(out, b"  ")?;
    push_lock(out, located.program.locks.as_slice(), lock as usize)?;
    push(out, b"\n")
}

#[tactic(auto, unfolding(crate::specs::Lines::which_line))]
fn push_which_line(out: &mut Vec<u8>) -> Result<(), Memory>
    ensures { OnOk result (out.new.items ≡ out.old.items ++ which_line) }
{
    push(out, b" of the task that line ")
}

/// Adds the line that declares a task.
#[tactic(auto, unfolding(crate::specs::Lines::declared_there))]
fn push_declared_there(out: &mut Vec<u8>, line: u32) -> Result<(), Memory>
    ensures { OnOk result (out.new.items ≡ out.old.items ++ declared_there line) }
{
    push_which_line(out)?;
    push_decimal(out, line)?;
    push(out, b" declares")
}

fn push_task_there(out: &mut Vec<u8>, task: Option<TaskPlace>) -> Result<(), Memory>
    ensures { OnOk result (out.new.items ≡ out.old.items ++ task_there task) }
{
    match task {
        Some(place) => push_declared_there(out, place.line),
        None => Ok(()),
    }
}

#[tactic(auto, unfolding(crate::specs::Lines::the_instruction))]
fn push_the_instruction(out: &mut Vec<u8>) -> Result<(), Memory>
    ensures { OnOk result (out.new.items ≡ out.old.items ++ the_instruction) }
{
    push(out, b"  This is the instruction")
}

#[tactic(auto, unfolding(crate::specs::Lines::at_its_place))]
fn push_at_place(
    out: &mut Vec<u8>,
    text: &[u8],
    spans: &[Span],
    place: CodePlace,
) -> Result<(), Memory>
    requires { AreSpans text.now spans.now }
    ensures { OnOk result (out.new.items ≡ out.old.items ++ place_behind at_its_place text.now place) }
{
    push_place_behind(out, b" at ", text, spans, place)
}

/// Adds where an instruction of a task stands.
fn push_instruction_there(
    out: &mut Vec<u8>,
    text: &[u8],
    spans: &[Span],
    task: Option<TaskPlace>,
    place: CodePlace,
) -> Result<(), Memory>
    requires { AreSpans text.now spans.now }
    ensures { OnOk result (out.new.items ≡ out.old.items ++ instruction_there text.now task place) }
{
    push_the_instruction(out)?;
    push_task_there(out, task)?;
    push_at_place(out, text, spans, place)
}

/// Adds where the instruction stands that the prover names.
fn push_unproven(
    out: &mut Vec<u8>,
    text: &[u8],
    spans: &[Span],
    places: &Places,
    task: (u32, u32),
    pc: u32,
) -> Result<(), Memory>
    requires { AreSpans text.now spans.now }
    ensures { OnOk result (out.new.items ≡ out.old.items ++ unproven_text text.now places.now task.0 task.1 pc) }
{
    match code_place_at(places, pc) {
        Some(place) => push_instruction_there(
            out,
            text,
            spans,
            places.task(task.0 as usize, task.1),
            place,
        ),
        None => Ok(()),
    }
}

/// Adds the name of a word that the order of grants may decide.
#[tactic(auto, unfolding(crate::specs::Lines::varying_word))]
fn push_varying_word(out: &mut Vec<u8>, located: &Located, word: u32) -> Result<(), Memory>
    ensures { OnOk result (out.new.items ≡ out.old.items ++ varying_word located.now word) }
{
    push(out, b"  ")?;
    push_word(out, &located.program, word)?;
    push(out, b": the order of grants may decide its value.\n")
}

#[tactic(auto, unfolding(crate::specs::Lines::control_warning))]
fn push_control_warning(out: &mut Vec<u8>) -> Result<(), Memory>
    ensures { OnOk result (out.new.items ≡ out.old.items ++ control_warning) }
{
    push(
        out,
        b"  What it does may depend on the order of grants: a register that it reads holds what this order may decide. So the runs aren't followed further.\n",
    )
}

/// Adds where the instruction stands at which control is open.
#[tactic(auto, unfolding(crate::specs::Lines::control_text))]
fn push_control(
    out: &mut Vec<u8>,
    text: &[u8],
    spans: &[Span],
    places: &Places,
    task: (u32, u32),
    pc: u32,
) -> Result<(), Memory>
    requires { AreSpans text.now spans.now }
    ensures { OnOk result (out.new.items ≡ out.old.items ++ control_text text.now places.now task.0 task.1 pc) }
{
    push_unproven(out, text, spans, places, task, pc)?;
    push_control_warning(out)
}

#[tactic(auto, unfolding(crate::specs::Lines::the_task))]
fn push_the_task(out: &mut Vec<u8>) -> Result<(), Memory>
    ensures { OnOk result (out.new.items ≡ out.old.items ++ the_task) }
{
    push(out, b"  The task")
}

#[tactic(auto, unfolding(crate::specs::Lines::that_line))]
fn push_that_line(out: &mut Vec<u8>, line: u32) -> Result<(), Memory>
    ensures { OnOk result (out.new.items ≡ out.old.items ++ that_line line) }
{
    push(out, b" that line ")?;
    push_decimal(out, line)?;
    push(out, b" declares")
}

fn push_declared_by(out: &mut Vec<u8>, task: Option<TaskPlace>) -> Result<(), Memory>
    ensures { OnOk result (out.new.items ≡ out.old.items ++ declared_by task) }
{
    match task {
        Some(place) => push_that_line(out, place.line),
        None => Ok(()),
    }
}

#[tactic(auto, unfolding(crate::specs::Lines::while_it_holds))]
fn push_while_it_holds(out: &mut Vec<u8>) -> Result<(), Memory>
    ensures { OnOk result (out.new.items ≡ out.old.items ++ while_it_holds) }
{
    push(out, b" ends while it holds ")
}

#[tactic(auto, unfolding(crate::specs::Lines::held_warning))]
fn push_held_warning(out: &mut Vec<u8>) -> Result<(), Memory>
    ensures { OnOk result (out.new.items ≡ out.old.items ++ held_warning) }
{
    push(
        out,
        b", and another task of the phase takes this lock. If that one comes later, it waits for ever.\n  Release the lock before the task ends.\n",
    )
}

#[tactic(auto, unfolding(crate::specs::Lines::stuck_warning))]
fn push_stuck_warning(out: &mut Vec<u8>) -> Result<(), Memory>
    ensures { OnOk result (out.new.items ≡ out.old.items ++ stuck_warning) }
{
    push(
        out,
        b": in some order of grants tasks may hold locks and wait for each other's in a cycle, and this lock is on it.\n  Let all tasks of the phase take their locks in one order.\n",
    )
}

/// Adds which task ends with a lock, and what follows.
#[tactic(auto, unfolding(crate::specs::Lines::held_text))]
fn push_held(
    out: &mut Vec<u8>,
    located: &Located,
    phase: u32,
    core: u32,
    lock: u32,
) -> Result<(), Memory>
    ensures { OnOk result (out.new.items ≡ out.old.items ++ held_text located.now phase core lock) }
{
    push_the_task(out)?;
    push_declared_by(out, located.places.task(phase as usize, core))?;
    push_while_it_holds(out)?;
    push_lock(out, located.program.locks.as_slice(), lock as usize)?;
    push_held_warning(out)
}

/// Adds which lock is on a cycle, and what follows.
#[tactic(auto, unfolding(crate::specs::Lines::stuck_text))]
fn push_stuck(out: &mut Vec<u8>, located: &Located, lock: u32) -> Result<(), Memory>
    ensures { OnOk result (out.new.items ≡ out.old.items ++ stuck_text located.now lock) }
{
    push(out, b"  ")?;
    push_lock(out, located.program.locks.as_slice(), lock as usize)?;
    push_stuck_warning(out)
}

/// Adds what is said after a line of an answer. `still` has what is known of the line's task, and `named` is the cause of an outcome,
/// or the task that holds the lock for which the line's task waits, if it ended.
fn push_sentences<'a>(
    out: &mut Vec<u8>,
    text: &[u8],
    spans: &[Span],
    effects: &ToldEffects<'a>,
    located: &'a Located,
    line: AnswerLine,
    still: Standstill,
    named: Option<TaskEnd>,
) -> Result<(), Memory>
    requires spans { AreSpans text.now spans.now }
    requires effects { AreTold text.now effects.now }
    ensures { OnOk result (out.new.items ≡ out.old.items ++ sentences_behind text.now located.now still named line) }
{
    match line {
        AnswerLine::Outcome(outcome) => push_outcome(out, &located.places, outcome, named),
        AnswerLine::Task(task) => {
            push_ending(out, text, spans, effects, located, task, still)?;
            push_ended_holder(out, &located.places, named)
        }
        AnswerLine::Word { word, value: _ } => push_named_word(out, located, word),
        AnswerLine::Grant(grant) => push_named_lock(out, located, grant.lock.0),
        AnswerLine::Unbounded {
            phase,
            core,
            pc: at,
        } => push_unproven(out, text, spans, &located.places, (phase, core), at),
        AnswerLine::Varies { word } => push_varying_word(out, located, word),
        AnswerLine::OpenControl {
            phase,
            core,
            pc: at,
        } => push_control(out, text, spans, &located.places, (phase, core), at),
        AnswerLine::OpenHeld { phase, core, lock } => push_held(out, located, phase, core, lock),
        AnswerLine::OpenStuck {
            phase: _phase,
            lock,
        } => push_stuck(out, located, lock),
        AnswerLine::Count { .. }
        | AnswerLine::Sum { .. }
        | AnswerLine::Time { .. }
        | AnswerLine::Network { .. }
        | AnswerLine::Link(_)
        | AnswerLine::Checked { .. }
        | AnswerLine::Fixed(_) => Ok(()),
    }
}

/// Adds a line, which is written so, and what is said of it. `why` is the reason for which the answer is open.
pub(crate) fn push_explained<'a>(
    out: &mut Vec<u8>,
    text: &[u8],
    spans: &[Span],
    effects: &ToldEffects<'a>,
    located: &'a Located,
    line: AnswerLine,
    written: &[u8],
    still: Standstill,
    named: Option<TaskEnd>,
    why: Option<Reason>,
) -> Result<(), Memory>
    requires spans { AreSpans text.now spans.now }
    requires effects { AreTold text.now effects.now }
    requires written { written.now ≡ answer_line line }
    ensures { OnOk result (out.new.items ≡ out.old.items ++ (answer_line line ++ sentences_behind text.now located.now still named line ++ said_of_reason text.now located.now why line)) }
{
    push(out, written)?;
    push_sentences(out, text, spans, effects, located, line, still, named)?;
    push_reason(out, text, spans, located, why, line)
}
