ghost use Rattle.std.specs.Prelude.{◌≡◌, ◌++◌, OnOk};
ghost use Rattle.claims.specs.Verdict.{load_line, load_text, line_text, place_text, verdict_text};

use crate::verdict::{LoadPlace, Verdict};
use dn_base::{LoadSeen, Memory, Sequence};
use text_pieces::{push, push_decimal, push_field, push_hexadecimal};

/// Adds the place of a load.
#[tactic(auto, unfolding(crate::specs::Verdict::place_text))]
fn push_place(out: &mut Vec<u8>, place: LoadPlace) -> Result<(), Memory>
    ensures { OnOk result (out.new.items ≡ out.old.items ++ place_text place) }
{
    push_decimal(out, place.phase.0)?;
    push(out, b" ")?;
    push_decimal(out, place.core.0)?;
    push(out, b" ")?;
    push_decimal(out, place.load)
}

/// Adds the load that stands at a place, or `end` where there is none.
#[tactic(auto, unfolding(crate::specs::Verdict::load_text))]
pub(crate) fn push_load(out: &mut Vec<u8>, load: Option<LoadSeen>) -> Result<(), Memory>
    ensures { OnOk result (out.new.items ≡ out.old.items ++ load_text load) }
{
    match load {
        None => push(out, b"end"),
        Some(load) => {
            push(out, b"word ")?;
            push_decimal(out, load.word.0)?;
            push(out, b" value ")?;
            push_hexadecimal(out, load.value)
        }
    }
}

/// Adds the line that stands in an answer, if there is one.
#[tactic(auto, unfolding(crate::specs::Verdict::line_text))]
fn push_line(out: &mut Vec<u8>, line: &Option<Sequence<u8>>) -> Result<(), Memory>
    ensures { OnOk result (out.new.items ≡ out.old.items ++ line_text line.now) }
{
    match line {
        None => Ok(()),
        Some(line) => {
            push(out, line.as_slice())?;
            push(out, b"\n")
        }
    }
}

/// Adds a line that ends with a place and the load that should stand there.
#[tactic(auto, unfolding(crate::specs::Verdict::load_line))]
fn push_load_line(
    out: &mut Vec<u8>,
    name: &[u8],
    place: LoadPlace,
    right: Option<LoadSeen>,
) -> Result<(), Memory>
    ensures { OnOk result (out.new.items ≡ out.old.items ++ load_line name.now place right) }
{
    push(out, name)?;
    push_place(out, place)?;
    push(out, b" ")?;
    push_load(out, right)?;
    push(out, b"\n")
}

/// Adds the lines that say that a claim agrees, or where it differs first.
///
/// # Errors
/// `Memory` where there is no room for them.
#[tactic(auto, unfolding(crate::specs::Verdict::verdict_text))]
pub fn push_verdict(out: &mut Vec<u8>, verdict: &Verdict) -> Result<(), Memory>
    ensures { OnOk result (out.new.items ≡ out.old.items ++ verdict_text verdict.now) }
{
    match verdict {
        Verdict::Agrees => push(out, b"agrees\n"),
        Verdict::Grants { grant } => push_field(out, b"differs grants ", *grant, b"\n"),
        Verdict::Tasks => push(out, b"differs tasks\n"),
        Verdict::Load { place, right } => push_load_line(out, b"differs load ", *place, *right),
        Verdict::Answer { line, right } => {
            push_field(out, b"differs answer ", *line, b"\n")?;
            push_line(out, right)
        }
    }
}
