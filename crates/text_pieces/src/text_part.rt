ghost use Rattle.std.specs.Prelude.{IfSome, IfNone};
ghost use Rattle.text_pieces.specs.Field.{Stands, NoneStands};
ghost use Rattle.text_pieces.specs.Parts.{IsSource, source_part};

use crate::numbers::{behind, field};
use dn_base::MOST_OF_TEXT;

/// Reads a source text at the start of some bytes: a line with its number of bytes, at most 1,048,576, then the text and a
/// newline. Gives the text and the bytes after it. None if no such text stands there.
pub fn source(bytes: &[u8]) -> Option<(&[u8], &[u8])>
    ensures some { IfSome result (λ f. Stands IsSource source_part bytes.now f.0.now f.1.now) }
    ensures none { IfNone result (NoneStands IsSource source_part bytes.now) }
{
    let (count, bytes) = field(bytes, b"source ", 0, MOST_OF_TEXT as u32, b'\n')?;
    let (text, bytes) = bytes.split_at_checked(count as usize)?;
    let rest = behind(bytes, b"\n")?;
    Some((text, rest))
}
