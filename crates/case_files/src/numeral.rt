ghost use Rattle.std.specs.Prelude.{◌<◌, IfOk};

use crate::trouble::{BadForm, Trouble};
use std::alloc::Global;

/// A number in decimal digits.
pub fn number(text: &str) -> Result<u32, Trouble> {
    match text.parse::<u32>() {
        Ok(number) => Ok(number),
        Err(_) => Err(Trouble::Form(BadForm::NoNumber)),
    }
}

/// A number in decimal digits that isn't 0.
pub fn positive(text: &str) -> Result<u32, Trouble>
    ensures { IfOk result (λ number. 0 < number) }
{
    match number(text)? {
        0 => Err(Trouble::Form(BadForm::NoNumber)),
        number => Ok(number),
    }
}

/// Numbers in decimal digits with blanks between them.
pub fn numbers(alloc: Global, text: &str) -> Result<Vec<u32>, Trouble> {
    text.split_whitespace().map(number).try_collect(alloc)
}

/// An exit code.
pub fn exit_code(text: &str) -> Result<u8, Trouble> {
    match text.parse::<u8>() {
        Ok(code) => Ok(code),
        Err(_) => Err(Trouble::Form(BadForm::NoNumber)),
    }
}

/// A byte, as 0x and hexadecimal digits.
fn byte(text: &str) -> Result<u8, Trouble> {
    let Some(digits) = text.strip_prefix("0x") else {
        return Err(Trouble::Form(BadForm::NoByte));
    };
    match u8::from_str_radix(digits, 16) {
        Ok(byte) => Ok(byte),
        Err(_) => Err(Trouble::Form(BadForm::NoByte)),
    }
}

/// Bytes with blanks between them.
pub fn bytes(alloc: Global, text: &str) -> Result<Vec<u8>, Trouble> {
    text.split_whitespace().map(byte).try_collect(alloc)
}
