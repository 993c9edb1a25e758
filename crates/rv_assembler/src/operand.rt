//! The operands of a statement, by the indices of their tokens.
ghost use Rattle.std.specs.Prelude.{◌≡◌, ◌<◌, ℕ, Some};
ghost use Rattle.rv_assembler.specs.Operand.{bytes_of, token_at, number_at, register_at, register_number};

use rv_isa::Reg;
use src_text::{Token, TokenKind, register};

/// The value for a missing token.
const NO_TOKEN: Token = Token {
    kind: TokenKind::Comma,
    start: 0,
    end: 0,
};

/// The bytes of a token; none if its positions aren't in the text.
pub(crate) fn bytes(text: &[u8], token: Token) -> &[u8]
    ensures { result.now ≡ bytes_of text.now token }
{
    let start = token.start as usize;
    let end = token.end as usize;
    if start <= end && end <= text.len() {
        &text[start..end]
    } else {
        &text[..0]
    }
}

pub(crate) fn token_at(tokens: &[Token], index: usize) -> Token
    ensures { result ≡ token_at tokens.now index }
{
    tokens.get(index).copied().unwrap_or(NO_TOKEN)
}

/// The number at this index, or 0 if there is none.
pub(crate) fn number_at(tokens: &[Token], index: usize) -> i64
    ensures { result ≡ number_at tokens.now index }
{
    match token_at(tokens, index).kind {
        TokenKind::Number(number) => number,
        _ => 0,
    }
}

/// The register of a number below 32.
pub(crate) fn register_numbered(number: u8) -> Reg
    requires { number < 32 }
    ensures { result ≡ number }
{
    Reg::new(number).unwrap()
}

/// The register of this number, or x0 if there is none.
fn register_or_zero(number: Option<u8>) -> Reg
    requires { (n : ℕ) → number ≡ Some n → n < 32 }
    ensures { result ≡ register_number number }
{
    match number {
        Some(number) => register_numbered(number),
        None => register_numbered(0),
    }
}

/// The register at this index, or x0 if there is none.
pub(crate) fn register_at(text: &[u8], tokens: &[Token], index: usize) -> Reg
    ensures { result ≡ register_at text.now tokens.now index }
{
    register_or_zero(register(bytes(text, token_at(tokens, index))))
}
