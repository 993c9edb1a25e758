//! Numbers of ticks, which may have more than 32 bits.
ghost use Rattle.std.specs.Prelude.{◌≡◌, ◌≢◌, ℕ, ◌≤◌, ◌<◌, ◌↔◌, List, ◌∷◌, [], ◌++◌, false, IsTrue, length, slice_index, take_while, IfSome, IfNone};
ghost use Rattle.std.specs.Fmt.{decimal};
ghost use Rattle.std.specs.Char.{is_ascii_digit};
ghost use Rattle.std.specs.Str.Parse.{digits_value};
ghost use Rattle.text_pieces.specs.Pieces.{newline};
ghost use Rattle.text_pieces.specs.Field.{field, Stands, NoneStands};
ghost use Rattle.explained_answer.specs.Parts.{IsTicks};

use text_pieces::behind;

/// The greatest number of ticks of a run: 25,169,664 events of 1,000,000 ticks, each with a message that takes 6 hops of 1,000,000.
const MOST_TICKS: u64 = 176_187_648_000_000;

/// The value of the digits at the start of some bytes, if it is at most `MOST_TICKS`, and how many digits there are.
pub(crate) fn digits(bytes: &[u8]) -> Option<(u64, usize)>
    ensures value { IfSome result (λ d. (d.0 ≡ digits_value 10 (take_while is_ascii_digit bytes.now)) × (d.0 ≤ 176187648000000)) }
    ensures length { IfSome result (λ d. d.1 ≡ length (take_while is_ascii_digit bytes.now)) }
    ensures none { IfNone result (176187648000000 < digits_value 10 (take_while is_ascii_digit bytes.now)) }
{
    let mut value = 0;
    let mut length = 0;
    for byte in bytes {
        if !byte.is_ascii_digit() {
            return Some((value, length));
        }
        value = value * 10 + u64::from(*byte - b'0');
        if value > MOST_TICKS {
            return None;
        }
        length += 1;
    }
    Some((value, length))
}

/// Whether the number of digits is at least one, and the first isn't 0 unless it is the only one.
fn is_plain(bytes: &[u8], count: usize) -> bool
    requires { count ≤ length bytes.now }
    ensures { IsTrue result ↔ ((0 < count) × (slice_index bytes.now 0 ≡ 48 → count ≡ 1)) }
{
    count == 1 || (count > 1 && bytes[0] != b'0')
}

/// Reads a number of ticks at the start of some bytes, in decimal digits without leading zeros. Gives it and what follows,
/// which doesn't begin with a digit.
fn numeral(bytes: &[u8]) -> Option<(u64, &[u8])>
    ensures within { IfSome result (λ f. IsTicks f.0) }
    ensures parts { IfSome result (λ f. bytes.now ≡ decimal f.0 ++ f.1.now) }
    ensures none { IfNone result ((n : ℕ) (rest : List ℕ) → IsTicks n → bytes.now ≢ decimal n ++ 10 ∷ rest) }
    ensures one { IfSome result (λ f. (n : ℕ) (rest : List ℕ) → IsTicks n → bytes.now ≡ decimal n ++ 10 ∷ rest → (f.0 ≡ n) × (f.1.now ≡ 10 ∷ rest)) }
{
    let (value, count) = digits(bytes)?;
    if !is_plain(bytes, count) {
        return None;
    }
    Some((value, &bytes[count..]))
}

/// Reads a number of ticks between a name and a newline at the start of some bytes. Gives it and what follows.
pub(crate) fn ticks<'a>(bytes: &'a [u8], name: &[u8]) -> Option<(u64, &'a [u8])>
    ensures some { IfSome result (λ f. Stands IsTicks (field name.now newline) bytes.now f.0 f.1.now) }
    ensures none { IfNone result (NoneStands IsTicks (field name.now newline) bytes.now) }
{
    let bytes = behind(bytes, name)?;
    let (value, bytes) = numeral(bytes)?;
    let rest = behind(bytes, b"\n")?;
    Some((value, rest))
}
