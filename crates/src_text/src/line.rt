ghost use Rattle.std.specs.Prelude.{◌≡◌, ◌<◌, ◌≤◌, ◌+◌, ◌^◌, [], length, IfOk, Some};
ghost use Rattle.std.specs.List.{before_first, list_any, AllZip};
ghost use Rattle.std.specs.Fn.{FnReturnsAt};
ghost use Rattle.src_text.specs.Byte.{is_bad, is_newline};
ghost use Rattle.src_text.specs.Lexeme.{before_comment};
ghost use Rattle.src_text.specs.Line.{is_over_limit, line_of, lines_of, IsNextLine};

use crate::byte::is_bad;
use crate::token::{Token, scan};
use dn_base::{Memory, Sequence};
use std::alloc::Global;
use std::marker::Model;

/// What is wrong with a line. The first of these that it has is reported.
#[derive(Clone, Copy, PartialEq, Eq)]
pub enum LineFault {
    /// Outside a comment stands a byte that is no blank, letter, digit or one of `_ . , : ( ) -`.
    BadByte,
    /// A number token isn't an optional `-` followed by decimal digits or by `0x` and hexadecimal digits, or its value isn't
    /// from -2147483648 to 4294967295.
    BadNumber,
    /// The line is longer than 1,024 bytes, or has a number above 65,536.
    LineLimit,
}

/// A line of a text: its number, from 1, and either its tokens in order or its fault.
#[derive(Clone, Drop)]
pub struct Line {
    pub number: u32,
    pub tokens: Sequence<Token>,
    pub fault: Option<LineFault>,
}

/// The greatest length of a line in bytes, without its newline.
const MOST_BYTES: usize = 1024;

/// The greatest number of a line.
const MOST_LINES: u32 = 65536;

/// The bytes of a text up to the first newline, or all where there is none. Takes no memory.
pub fn first_line(text: &[u8]) -> &[u8]
    ensures value { result.now ≡ before_first is_newline text.now }
    ensures within { length result.now ≤ length text.now }
{
    let mut length = 0;
    while length < text.len() && text[length] != b'\n' {
        length += 1;
    }
    &text[..length]
}

/// The bytes of a line before its comment, or all where there is none.
pub(crate) fn code(line: &[u8]) -> &[u8]
    ensures value { result.now ≡ before_comment line.now }
    ensures within { length result.now ≤ length line.now }
{
    let mut length = 0;
    while length < line.len() && line[length] != b'#' {
        length += 1;
    }
    &line[..length]
}

/// Whether a byte of the code may not stand outside a comment.
fn has_bad_byte(code: &[u8]) -> bool
    ensures { result ≡ list_any is_bad code.now }
{
    code.iter().any(|byte| is_bad(*byte))
}

/// Whether the line is too long, or one too many.
fn is_over_limit(number: u32, line: &[u8]) -> bool
    ensures { result ≡ is_over_limit number line.now }
{
    line.len() > MOST_BYTES || number > MOST_LINES
}

/// A line with a fault, which has no tokens; takes no memory.
fn faulty(alloc: Global, number: u32, fault: LineFault) -> Line
    ensures { result ≡ record { number = number; tokens = []; fault = Some fault } }
{
    Line {
        number,
        tokens: Sequence::new(alloc),
        fault: Some(fault),
    }
}

/// The line of this number, whose bytes begin at the place `start` of the text.
fn read_line(alloc: Global, number: u32, start: usize, line: &[u8]) -> Result<Line, Memory>
    requires { start + length line.now < 2 ^ 32 }
    ensures { IfOk result (λ read. read ≡ line_of number start line.now) }
{
    let code = code(line);
    if has_bad_byte(code) {
        return Ok(faulty(alloc, number, LineFault::BadByte));
    }
    let Some(tokens) = scan(alloc, start, code)? else {
        return Ok(faulty(alloc, number, LineFault::BadNumber));
    };
    if is_over_limit(number, line) {
        return Ok(faulty(alloc, number, LineFault::LineLimit));
    }
    Ok(Line {
        number,
        tokens,
        fault: None,
    })
}

/// Reads the lines of a text one after the other, so that they needn't all be kept. Contracts see the lines that are left.
///
/// Each newline (byte 10) ends a line. What follows the last newline is a line only if it has a byte. Space, tab and carriage
/// return are blanks. `#` begins a comment up to the end of the line, which may have any bytes. A name begins with a letter,
/// `_` or `.`, and a number with a digit or `-`; both include all letters, digits, `_` and `.` that follow. `,`, `:`, `(` and
/// `)` are tokens by themselves. A line with a fault has no tokens.
#[derive(Drop)]
pub struct LineReader<'t> {
    text: &'t [u8],
    /// The number of the next line, and the place where it begins.
    number: u32,
    start: usize,
}

impl<'t> Model for LineReader<'t> {
    ghost use Rattle.std.specs.Prelude.{List, ◌≤◌, ◌+◌, drop, length};
    ghost use Rattle.src_text.specs.declared.line.Line.{Line};
    ghost use Rattle.src_text.specs.Line.{cut, numbered};

    ghost Value = { List Line };

    ghost view = { λ r. numbered r.number r.start (cut (drop r.start r.text.now)) };

    ghost invariant = { λ r. (r.number ≤ r.start + 1) × (r.start ≤ length r.text.now + 1) × (length r.text.now ≤ 1048576) };
}

impl<'t> LineReader<'t> {
    /// Before the first line of a text of at most 1,048,576 bytes. Takes no memory.
    pub fn new(text: &'t [u8]) -> LineReader<'t>
        requires { length text.now ≤ 1048576 }
        ensures { result ≡ lines_of text.now }
    {
        LineReader {
            text,
            number: 1,
            start: 0,
        }
    }

    /// The next line, or None behind the last one.
    ///
    /// # Errors
    /// `Memory` if there is no room for its tokens.
    pub fn next(&mut self, alloc: Global) -> Result<Option<Line>, Memory>
        ensures { IfOk result (IsNextLine self.old self.new) }
    {
        if self.start >= self.text.len() {
            return Ok(None);
        }
        let line = first_line(&self.text[self.start..]);
        let read = read_line(alloc, self.number, self.start, line)?;
        self.number += 1;
        self.start += line.len() + 1;
        Ok(Some(read))
    }
}

/// What `f` makes of each line of a text of at most 1,048,576 bytes, in order. One line at a time has its tokens.
///
/// # Errors
/// `Memory` if there is no room for the tokens of a line, or for the list.
pub fn map_lines<T: Drop, F: Fn(&Line) -> T>(
    alloc: Global,
    text: &[u8],
    f: F,
) -> Result<Vec<T>, Memory>
    requires short { length text.now ≤ 1048576 }
    requires calls { F.IsAlwaysCallable f }
    ensures { IfOk result (λ made. AllZip (FnReturnsAt F.Fn f) (lines_of text.now) made.items) }
{
    let mut made = Vec::new(alloc);
    let mut reader = LineReader::new(text);
    while let Some(line) = reader.next(alloc)? {
        made.push(f(&line))?;
    }
    Ok(made)
}

/// All lines of a text of at most 1,048,576 bytes, in order, as `LineReader` reads them.
///
/// # Errors
/// `Memory` if there is no room for the lines.
pub fn tokens(alloc: Global, text: &[u8]) -> Result<Vec<Line>, Memory>
    requires { length text.now ≤ 1048576 }
    ensures { IfOk result (λ lines. lines.items ≡ lines_of text.now) }
{
    let mut lines = Vec::new(alloc);
    let mut reader = LineReader::new(text);
    while let Some(line) = reader.next(alloc)? {
        lines.push(line)?;
    }
    Ok(lines)
}
