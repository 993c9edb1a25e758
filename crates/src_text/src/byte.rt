ghost use Rattle.std.specs.Prelude.{◌≡◌};
ghost use Rattle.src_text.specs.Byte.{is_bad, is_digit, is_mark, is_word};

/// A letter of either case, a digit, `_` or `.`.
pub(crate) fn is_word(byte: u8) -> bool
    ensures { result ≡ is_word byte }
{
    byte.is_ascii_alphanumeric() || byte == b'_' || byte == b'.'
}

/// `,`, `:`, `(` or `)`.
pub(crate) fn is_mark(byte: u8) -> bool
    ensures { result ≡ is_mark byte }
{
    matches!(byte, b',' | b':' | b'(' | b')')
}

/// A byte that may not stand outside a comment.
pub(crate) fn is_bad(byte: u8) -> bool
    ensures { result ≡ is_bad byte }
{
    !(matches!(byte, b' ' | b'\t' | b'\r' | b'-') || is_word(byte) || is_mark(byte))
}
