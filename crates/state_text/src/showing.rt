//! A state as text.
ghost use Rattle.std.specs.Prelude.{◌≡◌, ◌++◌, flat_map, length, slice_get, IfOk, OnOk};
ghost use Rattle.state_text.specs.Cores.{core_lines};
ghost use Rattle.state_text.specs.Shown.{numbered_event, not_reached, may_not, unreached_line, event_head, event_line_text, end_line, event_lines_at, asked_lines, may_come_line, state_lines, shown_text};

use crate::because::push_whether;
use crate::called::push_event;
use crate::cores::push_core_lines;
use crate::homes::push_homes;
use crate::keeper::push_keeper;
use crate::locks::push_locks;
use crate::mails::push_mails;
use crate::{enabled_events, reason_against};
use dn_base::{CoreId, Memory};
use dn_machine::{Machine, a_machine_is_kept};
use message_net::Event;
use region_table::Program;
use std::alloc::Global;
use text_pieces::{push, push_decimal, push_long};
use text_places::Places;

#[tactic(auto, unfolding(crate::specs::Shown::numbered_event))]
fn push_numbered(out: &mut Vec<u8>, number: u32) -> Result<(), Memory>
    ensures { OnOk result (out.new.items ≡ out.old.items ++ numbered_event number) }
{
    push(out, b"event ")?;
    push_decimal(out, number)
}

#[tactic(auto, unfolding(crate::specs::Shown::not_reached))]
fn push_not_reached(out: &mut Vec<u8>) -> Result<(), Memory>
    ensures { OnOk result (out.new.items ≡ out.old.items ++ not_reached) }
{
    push(out, b" isn't reached: ")
}

#[tactic(auto, unfolding(crate::specs::Shown::may_not))]
fn push_may_not(out: &mut Vec<u8>) -> Result<(), Memory>
    ensures { OnOk result (out.new.items ≡ out.old.items ++ may_not) }
{
    push(out, b" may not come")
}

#[tactic(auto, unfolding(crate::specs::Shown::unreached_line))]
fn push_unreached(out: &mut Vec<u8>, asked: u32, place: u32) -> Result<(), Memory>
    ensures { OnOk result (out.new.items ≡ out.old.items ++ unreached_line asked place) }
{
    push_numbered(out, asked)?;
    push_not_reached(out)?;
    push_numbered(out, place)?;
    push_may_not(out)?;
    push(out, b"\n")
}

#[tactic(auto, unfolding(crate::specs::Shown::event_head))]
fn push_head(out: &mut Vec<u8>, place: u32, count: usize) -> Result<(), Memory>
    ensures { OnOk result (out.new.items ≡ out.old.items ++ event_head place count) }
{
    push_numbered(out, place)?;
    push(out, b" of ")?;
    push_long(out, count as u64)?;
    push(out, b": ")
}

#[tactic(auto, unfolding(crate::specs::Shown::event_line_text))]
fn push_event_line(
    out: &mut Vec<u8>,
    program: &Program,
    place: u32,
    count: usize,
    event: Event,
) -> Result<(), Memory>
    ensures { OnOk result (out.new.items ≡ out.old.items ++ event_line_text program.now place count event) }
{
    push_head(out, place, count)?;
    push_event(out, program, event)?;
    push(out, b"\n")
}

#[tactic(auto, unfolding(crate::specs::Shown::end_line))]
fn push_end_line(out: &mut Vec<u8>, place: u32, count: usize) -> Result<(), Memory>
    ensures { OnOk result (out.new.items ≡ out.old.items ++ end_line place count) }
{
    push_head(out, place, count)?;
    push(out, b"the document ends")?;
    push(out, b"\n")
}

/// Adds the event at a place, and whether it is enabled.
fn push_event_at(
    out: &mut Vec<u8>,
    machine: &Machine,
    place: u32,
    count: usize,
    event: Option<Event>,
) -> Result<(), Memory>
    ensures { OnOk result (out.new.items ≡ out.old.items ++ event_lines_at machine.now.state place count event) }
{
    let program = machine.program();
    match event {
        None => push_end_line(out, place, count),
        Some(event) => {
            push_event_line(out, program, place, count, event)?;
            push_whether(out, program, event, reason_against(machine, &event))
        }
    }
}

/// Adds which event was asked for, and before which one the state is.
fn push_asked(
    out: &mut Vec<u8>,
    machine: &Machine,
    events: &[Event],
    asked: u32,
    place: u32,
) -> Result<(), Memory>
    ensures { OnOk result (out.new.items ≡ out.old.items ++ asked_lines machine.now.state events.now asked place) }
{
    if place != asked {
        push_unreached(out, asked, place)?;
    }
    let event = events.get(place as usize).copied();
    push_event_at(out, machine, place, events.len(), event)
}

/// Adds the lines of all cores.
fn push_cores(
    alloc: Global,
    out: &mut Vec<u8>,
    machine: &Machine,
    places: &Places,
) -> Result<(), Memory>
    ensures { OnOk result (out.new.items ≡ out.old.items ++ flat_map (core_lines machine.now.state.setting.program places.now) machine.now.state.nodes) }
{
    // for the proof alone: there are as many nodes as cores
    a_machine_is_kept(machine);
    for core in 0..machine.shape().cores {
        let node = machine.node(CoreId(core));
        push_core_lines(alloc, out, machine.program(), places, node)?;
    }
    Ok(())
}

#[tactic(auto, unfolding(crate::specs::Shown::may_come_line))]
fn push_may_come(out: &mut Vec<u8>, program: &Program, event: Event) -> Result<(), Memory>
    ensures { OnOk result (out.new.items ≡ out.old.items ++ may_come_line program.now event) }
{
    push(out, b"may come: ")?;
    push_event(out, program, event)?;
    push(out, b"\n")
}

fn push_all_that_may(out: &mut Vec<u8>, program: &Program, events: &[Event]) -> Result<(), Memory>
    ensures { OnOk result (out.new.items ≡ out.old.items ++ flat_map (may_come_line program.now) events.now) }
{
    for event in events {
        push_may_come(out, program, *event)?;
    }
    Ok(())
}

/// Adds the parts of a state, and the enabled events.
#[tactic(auto, unfolding(crate::specs::Shown::state_lines))]
fn push_state(
    alloc: Global,
    out: &mut Vec<u8>,
    machine: &Machine,
    places: &Places,
) -> Result<(), Memory>
    ensures { OnOk result (out.new.items ≡ out.old.items ++ state_lines places.now machine.now.state) }
{
    push_keeper(out, machine.keeper())?;
    push_cores(alloc, out, machine, places)?;
    push_homes(out, machine)?;
    push_locks(out, machine)?;
    push_mails(out, machine)?;
    let events = enabled_events(alloc, machine)?;
    push_all_that_may(out, machine.program(), events.as_slice())
}

/// The text of a machine's state before the event at an index, from 0, of these events. `asked` is the index that was asked for.
/// Where `place` is another one, the text says that the event there is not enabled, so that the one that was asked for isn't
/// reached.
///
/// The places must be those of the program's text, from which lines and names are taken. Each part of the state is looked at once.
///
/// # Errors
/// `Memory` if there is no room for the text or for the list of the enabled events.
#[tactic(auto, unfolding(crate::specs::Shown::shown_text))]
pub fn shown_text(
    alloc: Global,
    machine: &Machine,
    places: &Places,
    events: &[Event],
    asked: u32,
    place: u32,
) -> Result<Vec<u8>, Memory>
    ensures { IfOk result (λ text. text.items ≡ shown_text places.now machine.now.state events.now asked place) }
{
    let mut out = Vec::new(alloc);
    push_asked(&mut out, machine, events, asked, place)?;
    push_state(alloc, &mut out, machine, places)?;
    Ok(out)
}
