//! The lines of a text, by their numbers.
ghost use Rattle.std.specs.Prelude.{◌≡◌};
ghost use Rattle.std.specs.Option.{option_copied};
ghost use Rattle.text_places.specs.Lines.{numbered_line};

use src_text::first_line;

/// The bytes of the line of this number, from 1, without its newline; None if the text has no such line.
pub fn line_text(text: &[u8], line: usize) -> Option<&[u8]>
    ensures { option_copied result ≡ numbered_line text.now line }
{
    let mut number = 1;
    let mut start = 0;
    while start < text.len() {
        let bytes = first_line(&text[start..]);
        if number == line {
            return Some(bytes);
        }
        number += 1;
        start += bytes.len() + 1;
    }
    None
}
