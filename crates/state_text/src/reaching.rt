//! The state before an event of a trace.
ghost use Rattle.std.specs.Prelude.{◌≡◌, ◌≤◌, length, take, IfOk};
ghost use Rattle.dn_machine.specs.Sizes.{FitsMachine};
ghost use Rattle.state_text.specs.Shown.{shown_text};
ghost use Rattle.state_text.specs.Reached.{IsFollowed, IsAnswerOf};

use crate::answer::StateAnswer;
use crate::shown_text;
use dn_base::{MOST_EVENTS, Memory, Shape};
use dn_machine::{Machine, a_machine_is_kept};
use effect_checker::Checked;
use message_net::Event;
use std::alloc::Global;
use text_places::Places;

/// Makes events one after the other, as long as each is enabled. Returns how many came.
///
/// # Errors
/// `Memory` where there is no room for the messages.
fn follow(machine: &mut Machine, events: &[Event]) -> Result<u32, Memory>
    requires made { machine.old.made ≡ 0 }
    requires few { length events.now ≤ MOST_EVENTS }
    ensures { IfOk result (IsFollowed machine.old.state machine.new.state events.now) }
{
    let mut came: u32 = 0;
    for event in events {
        let stepped = machine.try_step(*event)?;
        match stepped {
            Some(_) => {}
            None => return Ok(came),
        }
        came += 1;
    }
    Ok(came)
}

/// The state of a machine before the event of a number, as text; or before an earlier event, if that is the first that is not
/// enabled.
///
/// # Errors
/// `Memory` if there is no room for the messages or the text.
fn answer_of(
    alloc: Global,
    machine: &mut Machine,
    places: &Places,
    events: &[Event],
    asked: u32,
) -> Result<StateAnswer, Memory>
    requires made { machine.old.made ≡ 0 }
    requires few { length events.now ≤ MOST_EVENTS }
    requires asked { asked ≤ length events.now }
    ensures followed { IfOk result (λ answer. IsFollowed machine.old.state machine.new.state (take asked events.now) answer.event) }
    ensures text { IfOk result (λ answer. answer.text.items ≡ shown_text places.now machine.new.state events.now asked answer.event) }
{
    let (before, _) = events.split_at(asked as usize);
    let event = follow(machine, before)?;
    let text = shown_text(alloc, machine, places, events, asked, event)?;
    Ok(StateAnswer { event, text })
}

/// The state before the event of a number, from 0, as text; or before an earlier event, if that is the first that is not enabled.
/// The number of all events asks for the state after the last one. The reason against the event is true, and exactly the enabled
/// events are listed.
///
/// The places must be those of the program's text, from which lines and names are taken. The shape must have as many cores as the
/// program needs, 1 to 16 banks, 1 to 256 sets and 1 to 16 ways. `fuel`, the number of instructions that a task may retire, must
/// be 1 to 32,768, and there must be at most 25,169,664 events. Only the events before the one that is asked for are made; a
/// message that one of them handles is found by its id in constant time. Then each part of the state is looked at once.
///
/// # Errors
/// `Memory` if there is no room for the machine, its messages or the text.
pub fn state_at(
    alloc: Global,
    places: &Places,
    checked: Checked,
    shape: Shape,
    fuel: u32,
    events: &[Event],
    asked: u32,
) -> Result<StateAnswer, Memory>
    requires fits { FitsMachine checked shape fuel }
    requires few { length events.now ≤ MOST_EVENTS }
    requires asked { asked ≤ length events.now }
    ensures { IfOk result (IsAnswerOf checked shape fuel places.now events.now asked) }
{
    let mut machine = Machine::start(alloc, checked, shape, fuel)?;
    // for the proof alone: no event has come, so the machine is the opened one, and its setting is ready
    a_machine_is_kept(&machine);
    let answer = answer_of(alloc, &mut machine, places, events, asked)?;
    // for the proof alone: the state is one of the machine, as the clause says of its reasons and of the events that are listed
    a_machine_is_kept(&machine);
    Ok(answer)
}
