//! Sentences on the tasks of an answer that ended: the cause, and the holder of a lock for which another task waits.
ghost use Rattle.std.specs.Prelude.{◌≡◌, ◌++◌, OnOk};
ghost use Rattle.explained_answer.specs.Ended.{a_task, at_line, declares_it, declarer_line, declarer_text, ended_how, ended_text, is_cause, keeps_locks, kept_when_ended, stuck_text, cause_words, no_cause_text, outcome_text, ended_holder_text};

use dn_base::{Memory, Outcome};
use rv_core::{EndShown, TaskEnd};
use text_pieces::{push, push_decimal};
use text_places::{Places, TaskPlace};

#[tactic(auto, unfolding(crate::specs::Ended::a_task))]
fn push_a_task(out: &mut Vec<u8>) -> Result<(), Memory>
    ensures { OnOk result (out.new.items ≡ out.old.items ++ a_task) }
{
    push(out, b"  The task of core ")
}

#[tactic(auto, unfolding(crate::specs::Ended::declares_it))]
fn push_declares_it(out: &mut Vec<u8>) -> Result<(), Memory>
    ensures { OnOk result (out.new.items ≡ out.old.items ++ declares_it) }
{
    push(out, b" declares,")
}

#[tactic(auto, unfolding(crate::specs::Ended::at_line))]
fn push_at_line(out: &mut Vec<u8>) -> Result<(), Memory>
    ensures { OnOk result (out.new.items ≡ out.old.items ++ at_line) }
{
    push(out, b", which line ")
}

#[tactic(auto, unfolding(crate::specs::Ended::declarer_line))]
fn push_declaring_line(out: &mut Vec<u8>, line: u32) -> Result<(), Memory>
    ensures { OnOk result (out.new.items ≡ out.old.items ++ declarer_line line) }
{
    push_at_line(out)?;
    push_decimal(out, line)?;
    push_declares_it(out)
}

/// Adds the line that declares a task.
fn push_declaring(out: &mut Vec<u8>, place: Option<TaskPlace>) -> Result<(), Memory>
    ensures { OnOk result (out.new.items ≡ out.old.items ++ declarer_text place) }
{
    match place {
        Some(place) => push_declaring_line(out, place.line),
        None => Ok(()),
    }
}

/// How a task ended.
fn ended_how(end: EndShown) -> &'static [u8]
    ensures { result.now ≡ ended_how end }
{
    match end {
        EndShown::Finished => b" finished",
        EndShown::Fuel => b" ran out of fuel",
        EndShown::Trap { .. } => b" trapped",
        EndShown::Waits { .. } => b" waits",
    }
}

/// Adds a task, the line that declares it, and how it ended.
#[tactic(auto, unfolding(crate::specs::Ended::ended_text))]
fn push_ended(out: &mut Vec<u8>, places: &Places, task: TaskEnd) -> Result<(), Memory>
    ensures { OnOk result (out.new.items ≡ out.old.items ++ ended_text places.now task) }
{
    let (phase, core) = (task.phase.0, task.core.0);
    push_a_task(out)?;
    push_decimal(out, core)?;
    push(out, b" in phase ")?;
    push_decimal(out, phase)?;
    push_declaring(out, places.task(phase as usize, core))?;
    push(out, ended_how(task.end))
}

#[tactic(auto, unfolding(crate::specs::Ended::is_cause))]
fn push_is_cause(out: &mut Vec<u8>) -> Result<(), Memory>
    ensures { OnOk result (out.new.items ≡ out.old.items ++ is_cause) }
{
    push(out, b": that is the cause.\n")
}

#[tactic(auto, unfolding(crate::specs::Ended::keeps_locks))]
fn push_keeps_locks(out: &mut Vec<u8>) -> Result<(), Memory>
    ensures { OnOk result (out.new.items ≡ out.old.items ++ keeps_locks) }
{
    push(
        out,
        b": that is the cause. It keeps the locks that it holds.\n",
    )
}

#[tactic(auto, unfolding(crate::specs::Ended::kept_when_ended))]
fn push_kept_when_ended(out: &mut Vec<u8>) -> Result<(), Memory>
    ensures { OnOk result (out.new.items ≡ out.old.items ++ kept_when_ended) }
{
    push(out, b" while it held this lock: fix that first.\n")
}

#[tactic(auto, unfolding(crate::specs::Ended::stuck_text))]
fn push_stuck(out: &mut Vec<u8>) -> Result<(), Memory>
    ensures { OnOk result (out.new.items ≡ out.old.items ++ stuck_text) }
{
    push(
        out,
        b"  If a task below trapped or is out of fuel, fix that first: it keeps the locks that it holds.\n",
    )
}

fn push_cause(out: &mut Vec<u8>, outcome: Outcome) -> Result<(), Memory>
    ensures { OnOk result (out.new.items ≡ out.old.items ++ cause_words outcome) }
{
    match outcome {
        Outcome::Stuck => push_keeps_locks(out),
        Outcome::Done | Outcome::Trapped | Outcome::Fuel => push_is_cause(out),
    }
}

fn push_no_cause(out: &mut Vec<u8>, outcome: Outcome) -> Result<(), Memory>
    ensures { OnOk result (out.new.items ≡ out.old.items ++ no_cause_text outcome) }
{
    match outcome {
        Outcome::Stuck => push_stuck(out),
        Outcome::Done | Outcome::Trapped | Outcome::Fuel => Ok(()),
    }
}

/// Adds what is said of the outcome; `cause` is the task that is called the cause.
pub(crate) fn push_outcome(
    out: &mut Vec<u8>,
    places: &Places,
    outcome: Outcome,
    cause: Option<TaskEnd>,
) -> Result<(), Memory>
    ensures { OnOk result (out.new.items ≡ out.old.items ++ outcome_text places.now outcome cause) }
{
    match cause {
        Some(task) => {
            push_ended(out, places, task)?;
            push_cause(out, outcome)
        }
        None => push_no_cause(out, outcome),
    }
}

/// Adds what is said of the task that holds the lock for which another waits, if it ended.
pub(crate) fn push_ended_holder(
    out: &mut Vec<u8>,
    places: &Places,
    holder: Option<TaskEnd>,
) -> Result<(), Memory>
    ensures { OnOk result (out.new.items ≡ out.old.items ++ ended_holder_text places.now holder) }
{
    match holder {
        Some(task) => {
            push_ended(out, places, task)?;
            push_kept_when_ended(out)
        }
        None => Ok(()),
    }
}
