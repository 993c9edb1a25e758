//! The page's first state, and its events.
ghost use Rattle.std.specs.Prelude.{◌≡◌, ◌++◌, ◌+◌, ◌≤◌, ◌<◌, ◌∷◌, [], true, length, IfOk, OnOk};
ghost use Rattle.text_pieces.specs.Pieces.{newline};
ghost use Rattle.machine_rules.specs.Next.{next, enabled};
ghost use Rattle.machine_rules.specs.Runs.{after, IsRun};
ghost use Rattle.run_changes.specs.Events.{event_made};
ghost use Rattle.page_data.specs.Json.{gap};
ghost use Rattle.page_data.specs.Rows.{row_head, row_tail, event_row};
ghost use Rattle.page_data.specs.Page.{changes_field, next_field, mails_field, start_part, event_rows, event_list, events_part};

use crate::json::push_gap;
use crate::lists::push_named_list;
use crate::mails::{actor_number, push_handled, push_mail_items, push_sent};
use dn_base::Memory;
use dn_machine::Machine;
use message_net::Event;
use run_changes::{EventMade, changes_since, make};
use std::alloc::Global;
use text_pieces::Piece::{Bytes, Long, Number};
use text_pieces::{push, push_pieces};

#[tactic(auto, unfolding(crate::specs::Page::changes_field))]
fn push_since(alloc: Global, out: &mut Vec<u8>, machine: &Machine) -> Result<(), Memory>
    ensures { OnOk result (out.new.items ≡ out.old.items ++ changes_field machine.now.state) }
{
    let changes = changes_since(alloc, machine)?;
    push_named_list(out, b",\"start\":{\"changes\":", changes.as_slice())
}

#[tactic(auto, unfolding(crate::specs::Page::next_field))]
fn push_next(out: &mut Vec<u8>, machine: &Machine) -> Result<(), Memory>
    ensures { OnOk result (out.new.items ≡ out.old.items ++ next_field machine.now.state) }
{
    push_named_list(out, b",\"next\":", machine.numbers())
}

#[tactic(auto, unfolding(crate::specs::Json::list_text, crate::specs::Page::mails_field))]
fn push_flying(out: &mut Vec<u8>, machine: &Machine) -> Result<(), Memory>
    ensures { OnOk result (out.new.items ≡ out.old.items ++ mails_field machine.now.state) }
{
    push(out, b",\"mails\":[")?;
    push_mail_items(out, machine.pool())?;
    push(out, b"]}")
}

/// Adds what leads to a machine's state from the beginning of its run, the number of each actor's next message, and the messages
/// in flight.
#[tactic(auto, unfolding(crate::specs::Page::start_part))]
pub(crate) fn push_start(alloc: Global, out: &mut Vec<u8>, machine: &Machine) -> Result<(), Memory>
    ensures { OnOk result (out.new.items ≡ out.old.items ++ start_part machine.now.state) }
{
    push_since(alloc, out, machine)?;
    push_next(out, machine)?;
    push_flying(out, machine)
}

#[tactic(auto, unfolding(crate::specs::Rows::row_head))]
fn push_event_head(out: &mut Vec<u8>, event: Event, made: &EventMade) -> Result<(), Memory>
    ensures { OnOk result (out.new.items ≡ out.old.items ++ row_head event made.now) }
{
    push_pieces(
        out,
        &[
            Bytes(b"["),
            Number(made.kind.index() as u32),
            Bytes(b","),
            Long(actor_number(made.actor)),
            Bytes(b","),
        ],
    )?;
    push_handled(out, event)
}

#[tactic(auto, unfolding(crate::specs::Rows::row_tail))]
fn push_event_tail(out: &mut Vec<u8>, made: &EventMade) -> Result<(), Memory>
    ensures { OnOk result (out.new.items ≡ out.old.items ++ row_tail made.now) }
{
    push_named_list(out, b",", made.changes.as_slice())?;
    push_sent(out, made.sent.as_slice())?;
    push(out, b"]")
}

/// Adds the row of an event that was made.
#[tactic(auto, unfolding(crate::specs::Rows::event_row))]
fn push_row(out: &mut Vec<u8>, first: bool, event: Event, made: &EventMade) -> Result<(), Memory>
    ensures { OnOk result (out.new.items ≡ out.old.items ++ (gap first ++ (newline ++ event_row event made.now))) }
{
    push_gap(out, first)?;
    push(out, b"\n")?;
    push_event_head(out, event, made)?;
    push_event_tail(out, made)
}

/// Makes an event, which is enabled, and adds its row.
fn make_row(
    alloc: Global,
    out: &mut Vec<u8>,
    machine: &mut Machine,
    first: bool,
    event: Event,
) -> Result<(), Memory>
    requires may { enabled machine.old.state event ≡ true }
    requires made { machine.old.made < 4000000000 }
    ensures row { OnOk result (out.new.items ≡ out.old.items ++ (gap first ++ (newline ++ event_row event (event_made machine.old.state event)))) }
    ensures state { OnOk result (machine.new.state ≡ next machine.old.state event) }
    ensures setting { OnOk result (machine.new.state.setting ≡ machine.old.state.setting) }
    ensures made { OnOk result (machine.new.made ≡ machine.old.made + 1) }
{
    match make(alloc, machine, event)? {
        Some(made) => push_row(out, first, event, &made),
        None => Ok(()),
    }
}

/// Makes events, which are enabled one after the other, and adds their rows.
fn make_rows(
    alloc: Global,
    out: &mut Vec<u8>,
    machine: &mut Machine,
    events: &[Event],
) -> Result<(), Memory>
    requires run { IsRun machine.old.state events.now }
    requires few { machine.old.made + length events.now ≤ 4000000000 }
    ensures rows { OnOk result (out.new.items ≡ out.old.items ++ event_rows true machine.old.state events.now) }
    ensures setting { OnOk result (machine.new.state.setting ≡ machine.old.state.setting) }
{
    let mut first = true;
    for event in events {
        make_row(alloc, out, machine, first, *event)?;
        first = false;
    }
    Ok(())
}

#[tactic(auto, unfolding(crate::specs::Page::event_list))]
fn push_event_list(
    alloc: Global,
    out: &mut Vec<u8>,
    machine: &mut Machine,
    events: &[Event],
) -> Result<(), Memory>
    requires run { IsRun machine.old.state events.now }
    requires few { machine.old.made + length events.now ≤ 4000000000 }
    ensures list { OnOk result (out.new.items ≡ out.old.items ++ event_list machine.old.state events.now) }
    ensures setting { OnOk result (machine.new.state.setting ≡ machine.old.state.setting) }
{
    push(out, b"[")?;
    make_rows(alloc, out, machine, events)?;
    push(out, b"\n]}\n")
}

/// Makes events, which are enabled one after the other, and adds what each does.
#[tactic(auto, unfolding(crate::specs::Page::events_part))]
pub(crate) fn push_events(
    alloc: Global,
    out: &mut Vec<u8>,
    machine: &mut Machine,
    events: &[Event],
) -> Result<(), Memory>
    requires run { IsRun machine.old.state events.now }
    requires few { machine.old.made + length events.now ≤ 4000000000 }
    ensures part { OnOk result (out.new.items ≡ out.old.items ++ events_part machine.old.state events.now) }
    ensures setting { OnOk result (machine.new.state.setting ≡ machine.old.state.setting) }
{
    push(out, b",\"events\":")?;
    push_event_list(alloc, out, machine, events)
}

/// Makes an event that is enabled.
///
/// # Errors
/// `Memory` where there is no room for the messages.
fn step(machine: &mut Machine, event: Event) -> Result<(), Memory>
    requires may { enabled machine.old.state event ≡ true }
    requires made { machine.old.made < 4000000000 }
    ensures state { OnOk result (machine.new.state ≡ next machine.old.state event) }
    ensures setting { OnOk result (machine.new.state.setting ≡ machine.old.state.setting) }
    ensures made { OnOk result (machine.new.made ≡ machine.old.made + 1) }
{
    machine.step(event)?;
    Ok(())
}

/// Makes events, which are enabled one after the other.
///
/// # Errors
/// `Memory` where there is no room for the messages.
pub(crate) fn pass(machine: &mut Machine, events: &[Event]) -> Result<(), Memory>
    requires run { IsRun machine.old.state events.now }
    requires few { machine.old.made + length events.now ≤ 4000000000 }
    ensures state { OnOk result (machine.new.state ≡ after machine.old.state events.now) }
    ensures made { OnOk result (machine.new.made ≡ machine.old.made + length events.now) }
    ensures setting { OnOk result (machine.new.state.setting ≡ machine.old.state.setting) }
{
    for event in events {
        step(machine, *event)?;
    }
    Ok(())
}
