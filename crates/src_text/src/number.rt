ghost use Rattle.std.specs.Prelude.{◌≡◌, ◌≤◌, IfSome};
ghost use Rattle.src_text.specs.Number.{if_at_most, digit_of, magnitude_of, number_of, value_after, value_of};

/// The greatest number of a text: the greatest word of 32 bits without sign.
const GREATEST: u64 = 4294967295;

/// The greatest number after a minus: the least signed word is -2147483648.
const GREATEST_NEGATED: u64 = 2147483648;

/// The value of a digit of base 16, of either case, and 16 for every other byte.
fn digit(byte: u8) -> u64
    ensures { result ≡ digit_of byte }
{
    match byte {
        b'0'..=b'9' => u64::from(byte - b'0'),
        b'a'..=b'f' => u64::from(byte - b'a') + 10,
        b'A'..=b'F' => u64::from(byte - b'A') + 10,
        _ => 16,
    }
}

/// The value of at least one digit of a base of at most 16, if it isn't above `most`, which fits a word.
fn digits(bytes: &[u8], base: u64, most: u64) -> Option<u64>
    requires some { 1 ≤ base }
    requires base { base ≤ 16 }
    requires most { most ≤ 4294967295 }
    ensures value { result ≡ if_at_most most (value_of base bytes.now) }
    ensures within { IfSome result (λ value. value ≤ most) }
{
    if bytes.is_empty() {
        return None;
    }
    let mut value = 0;
    for byte in bytes {
        let next = digit(*byte);
        if next >= base {
            return None;
        }
        value = value * base + next;
        if value > most {
            return None;
        }
    }
    Some(value)
}

/// The value of decimal digits, or of `0x` and hexadecimal digits, if it isn't above `most`.
fn magnitude(bytes: &[u8], most: u64) -> Option<u64>
    requires { most ≤ 4294967295 }
    ensures value { result ≡ if_at_most most (magnitude_of bytes.now) }
    ensures within { IfSome result (λ value. value ≤ most) }
{
    match bytes {
        [b'0', b'x', rest @ ..] => digits(rest, 16, most),
        _ => digits(bytes, 10, most),
    }
}

/// The value of a number token, from -2147483648 to 4294967295. None where the bytes aren't such a number.
pub(crate) fn number(bytes: &[u8]) -> Option<i64>
    ensures { result ≡ number_of bytes.now }
{
    match bytes {
        [b'-', rest @ ..] => Some(-(magnitude(rest, GREATEST_NEGATED)? as i64)),
        _ => Some(magnitude(bytes, GREATEST)? as i64),
    }
}
