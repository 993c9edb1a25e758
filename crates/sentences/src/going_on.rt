//! Where in the code a task stands, and the loop that it is in.
ghost use Rattle.std.specs.Prelude.{◌≡◌, ◌++◌, OnOk};
ghost use Rattle.sentences.specs.Quotes.{AreSpans};
ghost use Rattle.sentences.specs.Loops.{loop_around};
ghost use Rattle.sentences.specs.Endings.{its_next, it_waits_at, it_acquired_it_at, in_loop_from, loop_on_line, loop_from_line, loop_text, loop_between, loop_lines, next_text, place_behind, place_if, known_place};

use crate::endings::code_place_at;
use crate::loops::{Loop, loop_around};
use crate::quotes::push_line;
use dn_base::Memory;
use src_text::Span;
use text_pieces::{push, push_decimal};
use text_places::{CodePlace, Located, Places, push_code_place};

/// Appends a place in the code behind some words: the line of its code word, and what stands there. `spans` are the places of the
/// text's lines.
///
/// # Errors
/// `Memory` if there is no room; the text may have a part of it then.
#[tactic(auto, unfolding(crate::specs::Endings::place_behind))]
pub fn push_place_behind(
    out: &mut Vec<u8>,
    words: &[u8],
    text: &[u8],
    spans: &[Span],
    place: CodePlace,
) -> Result<(), Memory>
    requires { AreSpans text.now spans.now }
    ensures { OnOk result (out.new.items ≡ out.old.items ++ place_behind words.now text.now place) }
{
    push(out, words)?;
    push_code_place(out, place)?;
    push(out, b":\n  ")?;
    push_line(out, text, spans, place.line)
}

fn push_place_if(
    out: &mut Vec<u8>,
    words: &[u8],
    text: &[u8],
    spans: &[Span],
    place: Option<CodePlace>,
) -> Result<(), Memory>
    requires { AreSpans text.now spans.now }
    ensures { OnOk result (out.new.items ≡ out.old.items ++ place_if words.now text.now place) }
{
    match place {
        Some(place) => push_place_behind(out, words, text, spans, place),
        None => Ok(()),
    }
}

/// Adds the place of the address `pc` behind some words; nothing if the address isn't known, or there is no code.
fn push_known_place(
    out: &mut Vec<u8>,
    words: &[u8],
    text: &[u8],
    spans: &[Span],
    located: &Located,
    pc: Option<u32>,
) -> Result<(), Memory>
    requires { AreSpans text.now spans.now }
    ensures { OnOk result (out.new.items ≡ out.old.items ++ known_place words.now text.now located.now pc) }
{
    match pc {
        Some(pc) => push_place_if(out, words, text, spans, code_place_at(&located.places, pc)),
        None => Ok(()),
    }
}

#[tactic(auto, unfolding(crate::specs::Endings::loop_on_line))]
fn push_loop_on_line(out: &mut Vec<u8>, line: u32) -> Result<(), Memory>
    ensures { OnOk result (out.new.items ≡ out.old.items ++ loop_on_line line) }
{
    push(out, b"  It is in the loop on line ")?;
    push_decimal(out, line)?;
    push(out, b".\n")
}

#[tactic(auto, unfolding(crate::specs::Endings::in_loop_from))]
fn push_in_loop_from(out: &mut Vec<u8>) -> Result<(), Memory>
    ensures { OnOk result (out.new.items ≡ out.old.items ++ in_loop_from) }
{
    push(out, b"  It is in the loop from line ")
}

#[tactic(auto, unfolding(crate::specs::Endings::loop_from_line))]
fn push_loop_from_line(out: &mut Vec<u8>, first: u32, last: u32) -> Result<(), Memory>
    ensures { OnOk result (out.new.items ≡ out.old.items ++ loop_from_line first last) }
{
    push_in_loop_from(out)?;
    push_decimal(out, first)?;
    push(out, b" to line ")?;
    push_decimal(out, last)?;
    push(out, b".\n")
}

fn push_loop(out: &mut Vec<u8>, first: u32, last: u32) -> Result<(), Memory>
    ensures { OnOk result (out.new.items ≡ out.old.items ++ loop_text first last) }
{
    if first == last {
        push_loop_on_line(out, first)
    } else {
        push_loop_from_line(out, first, last)
    }
}

fn push_loop_between(
    out: &mut Vec<u8>,
    head: Option<CodePlace>,
    back: Option<CodePlace>,
) -> Result<(), Memory>
    ensures { OnOk result (out.new.items ≡ out.old.items ++ loop_between head back) }
{
    match (head, back) {
        (Some(head), Some(back)) => push_loop(out, head.line, back.line),
        _ => Ok(()),
    }
}

/// Adds the lines of a loop.
fn push_loop_lines(out: &mut Vec<u8>, places: &Places, found: Option<Loop>) -> Result<(), Memory>
    ensures { OnOk result (out.new.items ≡ out.old.items ++ loop_lines places.now found) }
{
    match found {
        Some(found) => push_loop_between(
            out,
            code_place_at(places, found.head),
            code_place_at(places, found.back),
        ),
        None => Ok(()),
    }
}

/// Adds the line of the instruction that is next, which is at the address `pc`.
#[tactic(auto, unfolding(crate::specs::Endings::its_next))]
fn push_next_at(
    out: &mut Vec<u8>,
    text: &[u8],
    spans: &[Span],
    located: &Located,
    pc: Option<u32>,
) -> Result<(), Memory>
    requires { AreSpans text.now spans.now }
    ensures { OnOk result (out.new.items ≡ out.old.items ++ known_place its_next text.now located.now pc) }
{
    push_known_place(
        out,
        b"  Its next instruction is at ",
        text,
        spans,
        located,
        pc,
    )
}

/// Adds the line of the next instruction of a task, which is at the address `pc`, and of the loop that it is in.
pub(crate) fn push_next(
    out: &mut Vec<u8>,
    text: &[u8],
    spans: &[Span],
    located: &Located,
    pc: Option<u32>,
) -> Result<(), Memory>
    requires { AreSpans text.now spans.now }
    ensures { OnOk result (out.new.items ≡ out.old.items ++ next_text text.now located.now pc) }
{
    match pc {
        Some(pc) => {
            push_next_at(out, text, spans, located, Some(pc))?;
            let found = loop_around(located.program.code.as_slice(), pc);
            push_loop_lines(out, &located.places, found)
        }
        None => Ok(()),
    }
}

/// Adds the line of the ECALL by which a task waits, which is at the address `pc`.
#[tactic(auto, unfolding(crate::specs::Endings::it_waits_at))]
pub(crate) fn push_wait_place(
    out: &mut Vec<u8>,
    text: &[u8],
    spans: &[Span],
    located: &Located,
    pc: Option<u32>,
) -> Result<(), Memory>
    requires { AreSpans text.now spans.now }
    ensures { OnOk result (out.new.items ≡ out.old.items ++ known_place it_waits_at text.now located.now pc) }
{
    push_known_place(out, b"  It waits at ", text, spans, located, pc)
}

/// Adds the line of the ECALL by which a task acquired the lock that it holds, which is at the address `pc`.
#[tactic(auto, unfolding(crate::specs::Endings::it_acquired_it_at))]
pub(crate) fn push_acquire_place(
    out: &mut Vec<u8>,
    text: &[u8],
    spans: &[Span],
    located: &Located,
    pc: Option<u32>,
) -> Result<(), Memory>
    requires { AreSpans text.now spans.now }
    ensures { OnOk result (out.new.items ≡ out.old.items ++ known_place it_acquired_it_at text.now located.now pc) }
{
    push_known_place(out, b"  It acquired it at ", text, spans, located, pc)
}
