ghost use Rattle.std.specs.Prelude.{◌≡◌, ◌≢◌, ℕ, ◌≤◌, ◌<◌, ◌↔◌, List, ◌∷◌, [], ◌++◌, false, IsTrue, length, slice_index, take_while, IfSome, IfNone};
ghost use Rattle.std.specs.Fmt.{decimal};
ghost use Rattle.std.specs.Char.{is_ascii_digit};
ghost use Rattle.std.specs.Str.Parse.{digits_value};
ghost use Rattle.text_pieces.specs.Field.{field, IsFrom, Stands, NoneStands};

/// The value of the digits at the start of some bytes, if it is at most `most`, and the number of digits.
fn digits(bytes: &[u8], most: u32) -> Option<(u32, usize)>
    ensures value { IfSome result (λ d. (d.0 ≡ digits_value 10 (take_while is_ascii_digit bytes.now)) × (d.0 ≤ most)) }
    ensures length { IfSome result (λ d. d.1 ≡ length (take_while is_ascii_digit bytes.now)) }
    ensures none { IfNone result (most < digits_value 10 (take_while is_ascii_digit bytes.now)) }
{
    let mut value = 0;
    let mut length = 0;
    for byte in bytes {
        if !byte.is_ascii_digit() {
            return Some((value as u32, length));
        }
        value = value * 10 + u64::from(*byte - b'0');
        if value > u64::from(most) {
            return None;
        }
        length += 1;
    }
    Some((value as u32, length))
}

/// Whether the number of digits is at least one, and the first isn't 0 unless it is the only one.
fn is_plain(bytes: &[u8], count: usize) -> bool
    requires { count ≤ length bytes.now }
    ensures { IsTrue result ↔ ((0 < count) × (slice_index bytes.now 0 ≡ 48 → count ≡ 1)) }
{
    count == 1 || (count > 1 && bytes[0] != b'0')
}

/// The bytes after `text`, if some bytes begin with it; else None.
pub fn behind<'a>(bytes: &'a [u8], text: &[u8]) -> Option<&'a [u8]>
    ensures some { IfSome result (λ rest. bytes.now ≡ text.now ++ rest.now) }
    ensures none { IfNone result ((rest : List ℕ) → bytes.now ≢ text.now ++ rest) }
{
    bytes.strip_prefix(text)
}

/// Reads a number from `least` to `most` at the start of some bytes, in decimal digits without leading zeros. Gives it and the
/// bytes after it, which don't begin with a digit.
fn numeral(bytes: &[u8], least: u32, most: u32) -> Option<(u32, &[u8])>
    ensures within { IfSome result (λ f. IsFrom least most f.0) }
    ensures parts { IfSome result (λ f. bytes.now ≡ decimal f.0 ++ f.1.now) }
    ensures none { IfNone result ((n e : ℕ) (rest : List ℕ) → IsFrom least most n → is_ascii_digit e ≡ false → bytes.now ≢ decimal n ++ e ∷ rest) }
    ensures one { IfSome result (λ f. (n e : ℕ) (rest : List ℕ) → IsFrom least most n → is_ascii_digit e ≡ false → bytes.now ≡ decimal n ++ e ∷ rest → (f.0 ≡ n) × (f.1.now ≡ e ∷ rest)) }
{
    let (value, count) = digits(bytes, most)?;
    if value < least || !is_plain(bytes, count) {
        return None;
    }
    Some((value, &bytes[count..]))
}

/// Reads a field at the start of some bytes: a name, a number from `least` to `most` in decimal digits without leading zeros,
/// and the byte `end`, which is no digit. Gives the number and the bytes after the field. None if no such field stands there.
pub fn field<'a>(
    bytes: &'a [u8],
    name: &[u8],
    least: u32,
    most: u32,
    end: u8,
) -> Option<(u32, &'a [u8])>
    requires { is_ascii_digit end ≡ false }
    ensures some { IfSome result (λ f. Stands (IsFrom least most) (field name.now (end ∷ [])) bytes.now f.0 f.1.now) }
    ensures none { IfNone result (NoneStands (IsFrom least most) (field name.now (end ∷ [])) bytes.now) }
{
    let bytes = behind(bytes, name)?;
    let (value, bytes) = numeral(bytes, least, most)?;
    let rest = behind(bytes, &[end])?;
    Some((value, rest))
}
