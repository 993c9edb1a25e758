ghost use Rattle.std.specs.Prelude.{◌≡◌, ◌≢◌, List, ℕ, ◌++◌, IfSome, IfNone};
ghost use Rattle.text_pieces.specs.Field.{Stands, NoneStands};
ghost use Rattle.run_replay.specs.Document.{title, shape_line, head_text, IsTraceShape, IsHead};
ghost use Rattle.run_replay.specs.Lines.{told_by};

use crate::trace::TraceShape;
use dn_base::MOST_EVENTS;
use text_pieces::{behind, field, source};

/// The head of a document, and the bytes after it.
#[derive(Clone, Copy)]
pub(crate) struct Heading<'a> {
    pub(crate) shape: TraceShape,
    pub(crate) text: &'a [u8],
    pub(crate) count: u32,
    pub(crate) rest: &'a [u8],
}

/// The bytes after the first line of a document; None if they don't begin with that line. Takes no memory.
#[tactic(auto, unfolding(crate::specs::Document::title))]
pub fn behind_title(bytes: &[u8]) -> Option<&[u8]>
    ensures some { IfSome result (λ rest. bytes.now ≡ title ++ rest.now) }
    ensures none { IfNone result ((rest : List ℕ) → bytes.now ≢ title ++ rest) }
{
    behind(bytes, b"denovo-trace 1\n")
}

/// The shape and the fuel of a document, whose line stands at the start of some bytes, and the bytes after it; None if no such
/// line stands there. Takes no memory.
pub fn read_shape(bytes: &[u8]) -> Option<(TraceShape, &[u8])>
    ensures some { IfSome result (λ f. Stands IsTraceShape shape_line bytes.now f.0 f.1.now) }
    ensures none { IfNone result (NoneStands IsTraceShape shape_line bytes.now) }
{
    let (banks, bytes) = field(bytes, b"banks ", 1, 16, b' ')?;
    let (sets, bytes) = field(bytes, b"sets ", 1, 256, b' ')?;
    let (ways, bytes) = field(bytes, b"ways ", 1, 16, b' ')?;
    let (fuel, bytes) = field(bytes, b"fuel ", 1, 32_768, b'\n')?;
    let shape = TraceShape {
        banks,
        sets,
        ways,
        fuel,
    };
    Some((shape, bytes))
}

/// Reads the head of a document. Gives it and the bytes after it.
pub(crate) fn read_heading(bytes: &[u8]) -> Option<Heading<'_>>
    ensures some { IfSome result (λ h. Stands IsHead head_text bytes.now (told_by h) h.rest.now) }
    ensures none { IfNone result (NoneStands IsHead head_text bytes.now) }
{
    let bytes = behind_title(bytes)?;
    let (shape, bytes) = read_shape(bytes)?;
    let (text, bytes) = source(bytes)?;
    let (count, rest) = field(bytes, b"events ", 0, MOST_EVENTS as u32, b'\n')?;
    Some(Heading {
        shape,
        text,
        count,
        rest,
    })
}
