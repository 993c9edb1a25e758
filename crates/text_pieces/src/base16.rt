ghost use Rattle.std.specs.Prelude.{◌≡◌, ◌≢◌, ◌≤◌, ◌<◌, ◌++◌, ℕ, List, length, IfSome, IfNone};
ghost use Rattle.text_pieces.specs.Pieces.{hexadecimal as hexadecimal_of};
ghost use Rattle.text_pieces.specs.Field.{Stands, NoneStands};
ghost use Rattle.text_pieces.specs.Base16.{IsWord, digit_of, seems_word};

use crate::numbers::behind;
use crate::to_hexadecimal;

/// The value of a digit of base 16 in lower case, which is below 16. For any other byte some value below 16.
fn value_of(byte: u8) -> u32
    ensures value { result ≡ digit_of byte }
    ensures below { result < 16 }
{
    if byte <= b'9' {
        u32::from(byte % 16)
    } else {
        u32::from((byte - b'0' + 9) % 16)
    }
}

/// The number whose digits are the third to the tenth byte, if these are hexadecimal digits.
#[tactic(auto, unfolding(crate::specs::Base16::seems_word))]
fn number_of(bytes: &[u8]) -> u32
    requires { 10 ≤ length bytes.now }
    ensures { result ≡ seems_word bytes.now }
{
    value_of(bytes[2]) * 0x1000_0000
        + value_of(bytes[3]) * 0x100_0000
        + value_of(bytes[4]) * 0x10_0000
        + value_of(bytes[5]) * 0x1_0000
        + value_of(bytes[6]) * 0x1000
        + value_of(bytes[7]) * 0x100
        + value_of(bytes[8]) * 0x10
        + value_of(bytes[9])
}

/// Reads a number at the start of some bytes, written as `0x` and eight hexadecimal digits with `a` to `f` in lower case. Gives
/// the number and the bytes after it. None if no such number stands there.
pub fn hexadecimal(bytes: &[u8]) -> Option<(u32, &[u8])>
    ensures some { IfSome result (λ f. Stands IsWord hexadecimal_of bytes.now f.0 f.1.now) }
    ensures none { IfNone result (NoneStands IsWord hexadecimal_of bytes.now) }
{
    if bytes.len() < 10 {
        return None;
    }
    let number = number_of(bytes);
    let rest = behind(bytes, &to_hexadecimal(number))?;
    Some((number, rest))
}
