ghost use Rattle.std.specs.Prelude.{◌≡◌, ◌++◌, ◌/◌, ◌%◌, ◌^◌, ◌<◌, OnOk};
ghost use Rattle.std.specs.Fmt.{decimal, signed_decimal};
ghost use Rattle.text_pieces.specs.Pieces.{hexadecimal, hex_digit};

use dn_base::Memory;
use itoa::Buffer;

/// Appends bytes.
///
/// # Errors
/// `Memory` where there is no room for them.
pub fn push(out: &mut Vec<u8>, bytes: &[u8]) -> Result<(), Memory>
    ensures { OnOk result (out.new.items ≡ out.old.items ++ bytes.now) }
{
    out.extend_from_slice(bytes)?;
    Ok(())
}

/// Appends a number in decimal digits.
///
/// # Errors
/// `Memory` where there is no room for them.
pub fn push_decimal(out: &mut Vec<u8>, number: u32) -> Result<(), Memory>
    ensures { OnOk result (out.new.items ≡ out.old.items ++ decimal number) }
{
    let mut digits = Buffer::new();
    push(out, digits.format(number).as_bytes())
}

/// Appends a number of 64 bits in decimal digits.
///
/// # Errors
/// `Memory` where there is no room for them.
pub fn push_long(out: &mut Vec<u8>, number: u64) -> Result<(), Memory>
    ensures { OnOk result (out.new.items ≡ out.old.items ++ decimal number) }
{
    let mut digits = Buffer::new();
    push(out, digits.format(number).as_bytes())
}

/// Appends a number in decimal digits, after `-` if it is below 0.
///
/// # Errors
/// `Memory` where there is no room for them.
pub fn push_signed(out: &mut Vec<u8>, number: i32) -> Result<(), Memory>
    ensures { OnOk result (out.new.items ≡ out.old.items ++ signed_decimal number) }
{
    let mut digits = Buffer::new();
    push(out, digits.format(number).as_bytes())
}

/// A digit of base 16.
fn digit(value: u32) -> u8
    requires { value < 16 }
    ensures { result ≡ hex_digit value }
{
    if value < 10 {
        b'0' + value as u8
    } else {
        b'a' + (value as u8 - 10)
    }
}

/// A number as `0x` and eight hexadecimal digits, with `a` to `f` in lower case.
#[tactic(auto, unfolding(crate::specs::Pieces::hexadecimal))]
pub fn to_hexadecimal(number: u32) -> [u8; 10]
    ensures { result ≡ hexadecimal number }
{
    [
        b'0',
        b'x',
        digit(number >> 28 & 15),
        digit(number >> 24 & 15),
        digit(number >> 20 & 15),
        digit(number >> 16 & 15),
        digit(number >> 12 & 15),
        digit(number >> 8 & 15),
        digit(number >> 4 & 15),
        digit(number & 15),
    ]
}

/// Appends a number as `0x` and eight hexadecimal digits, with `a` to `f` in lower case.
///
/// # Errors
/// `Memory` where there is no room for them.
pub fn push_hexadecimal(out: &mut Vec<u8>, number: u32) -> Result<(), Memory>
    ensures { OnOk result (out.new.items ≡ out.old.items ++ hexadecimal number) }
{
    push(out, &to_hexadecimal(number))
}
