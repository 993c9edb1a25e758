//! Whether an event is enabled, or why it may not.
ghost use Rattle.std.specs.Prelude.{◌≡◌, ◌++◌, OnOk};
ghost use Rattle.state_text.specs.Because.{reason_before, another_set, two_words_text, reason_names, reason_behind, reason_text, subject_text, may_line, may_not_line, whether_line};

use crate::Reason;
use crate::called::{push_core, push_data_word, push_mail};
use dn_base::{Memory, WordId};
use message_net::Event;
use region_table::Program;
use text_pieces::push;
use text_places::push_lock;

/// What stands before the words or the lock that a reason names.
#[tactic(auto, unfolding(crate::specs::Because::reason_before))]
fn text_before(reason: Reason) -> &'static [u8]
    ensures { result.now ≡ reason_before reason }
{
    match reason {
        Reason::NoCore => b"isn't there",
        Reason::Halted => b"is halted",
        Reason::Arrived => b"has arrived",
        Reason::NoTask => b"has no task",
        Reason::TaskEnded => b"has a task that has ended",
        Reason::TaskRuns => b"has a task that goes on",
        Reason::WaitsForWord(_) => b"waits for ",
        Reason::WaitsForLock(_) => b"waits for ",
        Reason::HasValue(_) => b"has the value of ",
        Reason::IsLeaving(_) => b"has ",
        Reason::IsPending(_) => b"has ",
        Reason::NoEntry(_) => b"has no entry of ",
        Reason::NoRoom(_) => b"has no room for ",
        Reason::HasPending => b"has pending entries",
        Reason::NeedsNoRoom => b"needs no room",
        Reason::OtherSet { .. } => b"needs room for ",
        Reason::NoMail => b"isn't in flight",
    }
}

#[tactic(auto, unfolding(crate::specs::Because::another_set))]
fn push_another_set(out: &mut Vec<u8>) -> Result<(), Memory>
    ensures { OnOk result (out.new.items ≡ out.old.items ++ another_set) }
{
    push(out, b", which is of another set than ")
}

#[tactic(auto, unfolding(crate::specs::Because::two_words_text))]
fn push_two_words(
    out: &mut Vec<u8>,
    program: &Program,
    wanted: WordId,
    word: WordId,
) -> Result<(), Memory>
    ensures { OnOk result (out.new.items ≡ out.old.items ++ two_words_text program.now wanted.0 word.0) }
{
    push_data_word(out, program, wanted)?;
    push_another_set(out)?;
    push_data_word(out, program, word)
}

/// Adds the words or the lock that a reason names.
fn push_names(out: &mut Vec<u8>, program: &Program, reason: Reason) -> Result<(), Memory>
    ensures { OnOk result (out.new.items ≡ out.old.items ++ reason_names program.now reason) }
{
    match reason {
        Reason::WaitsForWord(word) => push_data_word(out, program, word),
        Reason::WaitsForLock(lock) => push_lock(out, program.locks.as_slice(), lock.0 as usize),
        Reason::HasValue(word) => push_data_word(out, program, word),
        Reason::IsLeaving(word) => push_data_word(out, program, word),
        Reason::IsPending(word) => push_data_word(out, program, word),
        Reason::NoEntry(word) => push_data_word(out, program, word),
        Reason::NoRoom(word) => push_data_word(out, program, word),
        Reason::OtherSet { word, wanted } => push_two_words(out, program, wanted, word),
        _ => Ok(()),
    }
}

/// What stands after them.
#[tactic(auto, unfolding(crate::specs::Because::reason_behind))]
fn text_behind(reason: Reason) -> &'static [u8]
    ensures { result.now ≡ reason_behind reason }
{
    match reason {
        Reason::HasValue(_) => b", and its instruction comes first",
        Reason::IsLeaving(_) => b" leaving",
        Reason::IsPending(_) => b" pending",
        _ => b"",
    }
}

/// Adds what a reason says of the core or message of an event.
#[tactic(auto, unfolding(crate::specs::Because::reason_text))]
fn push_reason(out: &mut Vec<u8>, program: &Program, reason: Reason) -> Result<(), Memory>
    ensures { OnOk result (out.new.items ≡ out.old.items ++ reason_text program.now reason) }
{
    push(out, text_before(reason))?;
    push_names(out, program, reason)?;
    push(out, text_behind(reason))
}

/// Adds whose event it is.
#[tactic(auto, unfolding(crate::specs::Because::subject_text))]
fn push_subject(out: &mut Vec<u8>, event: Event) -> Result<(), Memory>
    ensures { OnOk result (out.new.items ≡ out.old.items ++ subject_text event) }
{
    match event {
        Event::Instr(core) | Event::Evict(core, _) | Event::Arrive(core) => push_core(out, core),
        Event::Handle(id) => push_mail(out, id),
    }
}

#[tactic(auto, unfolding(crate::specs::Because::may_line))]
fn push_may(out: &mut Vec<u8>) -> Result<(), Memory>
    ensures { OnOk result (out.new.items ≡ out.old.items ++ may_line) }
{
    push(out, b"may come")?;
    push(out, b"\n")
}

#[tactic(auto, unfolding(crate::specs::Because::may_not_line))]
fn push_may_not(
    out: &mut Vec<u8>,
    program: &Program,
    event: Event,
    reason: Reason,
) -> Result<(), Memory>
    ensures { OnOk result (out.new.items ≡ out.old.items ++ may_not_line program.now event reason) }
{
    push(out, b"may not come: ")?;
    push_subject(out, event)?;
    push(out, b" ")?;
    push_reason(out, program, reason)?;
    push(out, b"\n")
}

/// Adds whether an event is enabled, or the reason against it.
pub(crate) fn push_whether(
    out: &mut Vec<u8>,
    program: &Program,
    event: Event,
    reason: Option<Reason>,
) -> Result<(), Memory>
    ensures { OnOk result (out.new.items ≡ out.old.items ++ whether_line program.now event reason) }
{
    match reason {
        None => push_may(out),
        Some(reason) => push_may_not(out, program, event, reason),
    }
}
