ghost use Rattle.std.specs.Prelude.{◌≡◌, ◌<◌, ◌≤◌, ◌+◌, ◌^◌, length, IfOk, MatchOption, filter_map, find, option_map, true, false};
ghost use Rattle.std.specs.List.{list_any, prefix_len};
ghost use Rattle.src_text.specs.Byte.{is_word};
ghost use Rattle.src_text.specs.Lexeme.{begins_token, front, is_bad_number, token_kind_of, lexemes_after, lexemes_of, span_of, token_of};

use crate::byte::{is_mark, is_word};
use crate::line::code;
use crate::number::number;
use dn_base::{Memory, Sequence};
use std::alloc::Global;

/// What a token is. The value of a number is from -2147483648 to 4294967295.
#[derive(Clone, Copy, PartialEq, Eq)]
pub enum TokenKind {
    Name,
    Number(i64),
    Comma,
    Colon,
    Left,
    Right,
}

/// A token: `start` and `end` are the positions in the text of its first byte and after its last byte, counted from 0.
#[derive(Clone, Copy, PartialEq, Eq)]
pub struct Token {
    pub kind: TokenKind,
    pub start: u32,
    pub end: u32,
}

/// Some bytes of a line: from `start` to before `end`, counted from 0.
#[derive(Clone, Copy, PartialEq, Eq)]
pub struct Span {
    pub start: usize,
    pub end: usize,
}

/// Whether a token begins at `byte`, which follows `before`.
fn begins(before: u8, byte: u8) -> bool
    ensures { result ≡ begins_token before byte }
{
    is_mark(byte) || byte == b'-' || (is_word(byte) && !is_word(before) && before != b'-')
}

/// How many bytes from the front on belong to a word.
fn word_length(bytes: &[u8]) -> usize
    ensures value { result ≡ prefix_len is_word bytes.now }
    ensures within { result ≤ length bytes.now }
{
    let mut length = 0;
    while length < bytes.len() && is_word(bytes[length]) {
        length += 1;
    }
    length
}

/// The bytes of the token at the front.
fn front(bytes: &[u8]) -> &[u8]
    requires { 0 < length bytes.now }
    ensures value { result.now ≡ front bytes.now }
    ensures some { 0 < length result.now }
    ensures within { length result.now ≤ length bytes.now }
{
    if is_mark(bytes[0]) {
        &bytes[..1]
    } else {
        &bytes[..1 + word_length(&bytes[1..])]
    }
}

/// The kind of token that the bytes are. None if they begin as a number and aren't one.
fn kind(bytes: &[u8]) -> Option<TokenKind>
    requires { 0 < length bytes.now }
    ensures { result ≡ token_kind_of bytes.now }
{
    match bytes[0] {
        b',' => Some(TokenKind::Comma),
        b':' => Some(TokenKind::Colon),
        b'(' => Some(TokenKind::Left),
        b')' => Some(TokenKind::Right),
        b'-' | b'0'..=b'9' => number(bytes).map(TokenKind::Number),
        _ => Some(TokenKind::Name),
    }
}

/// The tokens of a line's code, which begins at the position `start` of the text. None if a number is bad.
pub(crate) fn scan(
    alloc: Global,
    start: usize,
    code: &[u8],
) -> Result<Option<Sequence<Token>>, Memory>
    requires { start + length code.now < 2 ^ 32 }
    ensures { IfOk result (λ found. let lexemes = lexemes_after 32 start code.now in
        MatchOption found (list_any is_bad_number lexemes ≡ true)
        (λ tokens. (list_any is_bad_number lexemes ≡ false) × (tokens ≡ filter_map token_of lexemes))) }
{
    let mut tokens = Sequence::new(alloc);
    let mut before = b' ';
    for (i, byte) in code.iter().enumerate() {
        if begins(before, *byte) {
            let lexeme = front(&code[i..]);
            let Some(kind) = kind(lexeme) else {
                return Ok(None);
            };
            let place = start + i;
            tokens.push(Token {
                kind,
                start: place as u32,
                end: (place + lexeme.len()) as u32,
            })?;
        }
        before = *byte;
    }
    Ok(Some(tokens))
}

/// Where the first number of a line's code stands that is bad.
fn bad_number_in(code: &[u8]) -> Option<Span>
    ensures { result ≡ option_map span_of (find is_bad_number (lexemes_after 32 0 code.now)) }
{
    let mut before = b' ';
    for (start, byte) in code.iter().enumerate() {
        if begins(before, *byte) {
            let lexeme = front(&code[start..]);
            if kind(lexeme).is_none() {
                let end = start + lexeme.len();
                return Some(Span { start, end });
            }
        }
        before = *byte;
    }
    None
}

/// Where the first number of a line stands that is bad: it begins as a number, and is none or too large. A number in the
/// comment doesn't count. Takes no memory.
pub fn bad_number(line: &[u8]) -> Option<Span>
    ensures { result ≡ option_map span_of (find is_bad_number (lexemes_of 0 line.now)) }
{
    bad_number_in(code(line))
}
