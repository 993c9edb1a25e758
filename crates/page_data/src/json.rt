//! JSON strings, and what stands between items.
ghost use Rattle.std.specs.Prelude.{◌≡◌, ◌++◌, ◌&&◌, ◌∷◌, [], flat_map, OnOk};
ghost use Rattle.std.specs.Fmt.{decimal};
ghost use Rattle.page_data.specs.Json.{is_unescaped, escape, character, string_text, gap, further, further_all};

use dn_base::Memory;
use text_pieces::{push, push_decimal, to_hexadecimal};

/// Whether a byte stands for itself in a string.
fn is_unescaped(byte: u8) -> bool
    ensures { result ≡ is_unescaped byte }
{
    32 <= byte && byte <= 126 && byte != b'"' && byte != b'\\' && byte != b'<'
}

/// Adds a byte that doesn't stand for itself.
#[tactic(auto, unfolding(text_pieces::specs::Pieces::hexadecimal))]
fn push_escape(out: &mut Vec<u8>, byte: u8) -> Result<(), Memory>
    ensures { OnOk result (out.new.items ≡ out.old.items ++ escape byte) }
{
    if byte == b'\n' {
        return push(out, b"\\n");
    }
    let digits = to_hexadecimal(u32::from(byte));
    push(out, &[b'\\', b'u', b'0', b'0', digits[8], digits[9]])
}

/// Adds a byte of a string.
#[tactic(auto, unfolding(crate::specs::Json::character))]
fn push_character(out: &mut Vec<u8>, byte: u8) -> Result<(), Memory>
    ensures { OnOk result (out.new.items ≡ out.old.items ++ character byte) }
{
    if is_unescaped(byte) {
        push(out, &[byte])
    } else {
        push_escape(out, byte)
    }
}

/// Adds the bytes of a string.
fn push_characters(out: &mut Vec<u8>, bytes: &[u8]) -> Result<(), Memory>
    ensures { OnOk result (out.new.items ≡ out.old.items ++ flat_map character bytes.now) }
{
    for byte in bytes {
        push_character(out, *byte)?;
    }
    Ok(())
}

/// Adds a string.
#[tactic(auto, unfolding(crate::specs::Json::string_text))]
pub(crate) fn push_string(out: &mut Vec<u8>, bytes: &[u8]) -> Result<(), Memory>
    ensures { OnOk result (out.new.items ≡ out.old.items ++ string_text bytes.now) }
{
    push(out, b"\"")?;
    push_characters(out, bytes)?;
    push(out, b"\"")
}

/// Adds a string after what names it.
pub(crate) fn push_named_string(out: &mut Vec<u8>, name: &[u8], bytes: &[u8]) -> Result<(), Memory>
    ensures { OnOk result (out.new.items ≡ out.old.items ++ (name.now ++ string_text bytes.now)) }
{
    push(out, name)?;
    push_string(out, bytes)
}

/// Adds a comma, but before the first item of a list.
pub(crate) fn push_gap(out: &mut Vec<u8>, first: bool) -> Result<(), Memory>
    ensures { OnOk result (out.new.items ≡ out.old.items ++ gap first) }
{
    if first { Ok(()) } else { push(out, b",") }
}

/// Adds a number after a comma.
pub(crate) fn push_further(out: &mut Vec<u8>, number: u32) -> Result<(), Memory>
    ensures { OnOk result (out.new.items ≡ out.old.items ++ further number) }
{
    push(out, b",")?;
    push_decimal(out, number)
}

/// Adds numbers, each after a comma.
#[tactic(auto, unfolding(crate::specs::Json::further_all))]
pub(crate) fn push_all(out: &mut Vec<u8>, numbers: &[u32]) -> Result<(), Memory>
    ensures { OnOk result (out.new.items ≡ out.old.items ++ further_all numbers.now) }
{
    for number in numbers {
        push_further(out, *number)?;
    }
    Ok(())
}
