ghost use Rattle.std.specs.Prelude.{◌≡◌, ◌≤◌, ◌++◌, length, OnOk};
ghost use Rattle.text_pieces.specs.Field.{field};
ghost use Rattle.text_pieces.specs.Parts.{source_part};

use crate::{push, push_decimal};
use dn_base::{MOST_OF_TEXT, Memory};

/// Appends a number in decimal digits between a name and an end.
///
/// # Errors
/// `Memory` where there is no room for them.
#[tactic(auto, unfolding(crate::specs::Field::field))]
pub fn push_field(out: &mut Vec<u8>, name: &[u8], number: u32, end: &[u8]) -> Result<(), Memory>
    ensures { OnOk result (out.new.items ≡ out.old.items ++ field name.now end.now number) }
{
    push(out, name)?;
    push_decimal(out, number)?;
    push(out, end)
}

/// Appends a source text of at most 1,048,576 bytes after the line with its number of bytes.
///
/// # Errors
/// `Memory` where there is no room for it.
#[tactic(auto, unfolding(crate::specs::Parts::source_part))]
pub fn push_source(out: &mut Vec<u8>, text: &[u8]) -> Result<(), Memory>
    requires { length text.now ≤ MOST_OF_TEXT }
    ensures { OnOk result (out.new.items ≡ out.old.items ++ source_part text.now) }
{
    push_field(out, b"source ", text.len() as u32, b"\n")?;
    push(out, text)?;
    push(out, b"\n")
}
