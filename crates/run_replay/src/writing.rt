ghost use Rattle.std.specs.Prelude.{◌≡◌, ◌≤◌, ◌++◌, length, IfOk, OnOk};
ghost use Rattle.run_replay.specs.Document.{title, shape_line, head_text, mail_line, event_line, event_lines, IsTrace, IsDocument};

use crate::trace::TraceShape;
use dn_base::{MOST_OF_TEXT, Memory};
use message_net::{Actor, Event, MailId};
use std::alloc::Global;
use text_pieces::{push, push_field, push_source};

#[tactic(auto, unfolding(crate::specs::Document::shape_line))]
fn push_shape(out: &mut Vec<u8>, shape: TraceShape) -> Result<(), Memory>
    ensures { OnOk result (out.new.items ≡ out.old.items ++ shape_line shape) }
{
    push_field(out, b"banks ", shape.banks, b" ")?;
    push_field(out, b"sets ", shape.sets, b" ")?;
    push_field(out, b"ways ", shape.ways, b" ")?;
    push_field(out, b"fuel ", shape.fuel, b"\n")
}

#[tactic(auto, unfolding(crate::specs::Document::title))]
fn push_title(out: &mut Vec<u8>) -> Result<(), Memory>
    ensures { OnOk result (out.new.items ≡ out.old.items ++ title) }
{
    push(out, b"denovo-trace 1\n")
}

/// Appends the head for this number of events.
#[tactic(auto, unfolding(crate::specs::Document::head_text))]
fn push_head(out: &mut Vec<u8>, shape: TraceShape, text: &[u8], count: u32) -> Result<(), Memory>
    requires { length text.now ≤ MOST_OF_TEXT }
    ensures { OnOk result (out.new.items ≡ out.old.items ++ head_text (record { shape = shape; text = text.now; count = count })) }
{
    push_title(out)?;
    push_shape(out, shape)?;
    push_source(out, text)?;
    push_field(out, b"events ", count, b"\n")
}

/// Adds the line of the handling of a message.
#[tactic(auto, unfolding(crate::specs::Document::mail_line))]
fn push_mail(out: &mut Vec<u8>, id: MailId) -> Result<(), Memory>
    ensures { OnOk result (out.new.items ≡ out.old.items ++ mail_line id.sender id.number) }
{
    match id.sender {
        Actor::Core(core) => {
            push_field(out, b"h c ", core.0, b" ")?;
            push_field(out, b"", id.number, b"\n")
        }
        Actor::Bank(bank) => {
            push_field(out, b"h b ", bank.0, b" ")?;
            push_field(out, b"", id.number, b"\n")
        }
        Actor::Keeper => push_field(out, b"h k ", id.number, b"\n"),
    }
}

#[tactic(auto, unfolding(crate::specs::Document::event_line))]
fn push_event(out: &mut Vec<u8>, event: Event) -> Result<(), Memory>
    ensures { OnOk result (out.new.items ≡ out.old.items ++ event_line event) }
{
    match event {
        Event::Instr(core) => push_field(out, b"i ", core.0, b"\n"),
        Event::Evict(core, word) => {
            push_field(out, b"e ", core.0, b" ")?;
            push_field(out, b"", word.0, b"\n")
        }
        Event::Arrive(core) => push_field(out, b"a ", core.0, b"\n"),
        Event::Handle(id) => push_mail(out, id),
    }
}

fn push_events(out: &mut Vec<u8>, events: &[Event]) -> Result<(), Memory>
    ensures { OnOk result (out.new.items ≡ out.old.items ++ event_lines events.now) }
{
    for event in events {
        push_event(out, *event)?;
    }
    Ok(())
}

/// The document of a run. The first lines tell the machine's size and the fuel. Then come the source text, after its number of
/// bytes, the number of events, and a line for each event in order. Numbers are decimal, without leading zeros.
///
/// The arguments must be within the limits of `Trace`: cores and banks have numbers below 16, and words below 65,536.
///
/// # Errors
/// `Memory` if there is no room for the document.
pub fn trace_text(
    alloc: Global,
    text: &[u8],
    shape: TraceShape,
    events: &[Event],
) -> Result<Vec<u8>, Memory>
    requires { IsTrace (record { shape = shape; text = text.now; events = events.now }) }
    ensures { IfOk result (λ document. IsDocument document.items (record { shape = shape; text = text.now; events = events.now })) }
{
    let mut out = Vec::new(alloc);
    push_head(&mut out, shape, text, events.len() as u32)?;
    push_events(&mut out, events)?;
    Ok(out)
}
