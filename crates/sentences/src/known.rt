//! Which line declares a name, and as what.
ghost use Rattle.std.specs.Prelude.{◌≡◌, ◌≤◌, length, map, option_map, IfOk, bytes_eq};
ghost use Rattle.rv_assembler.specs.Operand.{bytes_of};
ghost use Rattle.rv_assembler.specs.Reading.{reading_of};
ghost use Rattle.sentences.specs.Known.{is_labelled, sort_if, sort_by, sort_on, known_by, known_among, known_in};

use crate::marks::bytes_between;
use dn_base::{MOST_OF_TEXT, Memory};
use rv_assembler::{Reading, Saying, Statement, read_line, version_line};
use src_text::{Line, Token, tokens};
use std::alloc::Global;

/// What a name is declared as.
#[derive(Clone, Copy)]
pub(crate) enum Sort {
    Label,
    /// A region of this many words.
    Region { len: i64 },
    Lock,
}

/// A declaration of a name, by the number of its line.
#[derive(Clone, Copy)]
pub(crate) struct Known {
    pub(crate) line: u32,
    pub(crate) sort: Sort,
}

/// The bytes of a token.
pub(crate) fn token_bytes(text: &[u8], token: Token) -> &[u8]
    ensures { result.now ≡ bytes_of text.now token }
{
    bytes_between(text, token.start as usize, token.end as usize)
}

fn is_spelled(text: &[u8], token: Token, name: &[u8]) -> bool
    ensures { result ≡ bytes_eq (bytes_of text.now token) name.now }
{
    token_bytes(text, token) == name
}

fn is_labelled(text: &[u8], name: &[u8], label: Option<Token>) -> bool
    ensures { result ≡ is_labelled text.now name.now label }
{
    match label {
        Some(label) => is_spelled(text, label, name),
        None => false,
    }
}

fn sort_if(declares: bool, sort: Sort) -> Option<Sort>
    ensures { result ≡ sort_if declares sort }
{
    if declares { Some(sort) } else { None }
}

/// What a statement declares the name as.
fn sort_by(text: &[u8], name: &[u8], statement: &Statement) -> Option<Sort>
    ensures { result ≡ sort_by text.now name.now statement.now }
{
    match *statement {
        Statement::Region { name: token, len } => {
            sort_if(is_spelled(text, token, name), Sort::Region { len })
        }
        Statement::Lock { name: token } => sort_if(is_spelled(text, token, name), Sort::Lock),
        _ => None,
    }
}

/// What a line declares the name as.
fn sort_on(text: &[u8], name: &[u8], saying: &Saying) -> Option<Sort>
    ensures { result ≡ sort_on text.now name.now saying.now }
{
    if is_labelled(text, name, saying.label) {
        Some(Sort::Label)
    } else {
        sort_by(text, name, &saying.statement)
    }
}

fn known_by(text: &[u8], name: &[u8], reading: &Reading) -> Option<Known>
    ensures { result ≡ known_by text.now name.now reading.now }
{
    let saying = match reading {
        Reading::Bad(_) => return None,
        Reading::Good(saying) => saying,
    };
    match sort_on(text, name, saying) {
        Some(sort) => Some(Known {
            line: saying.line,
            sort,
        }),
        None => None,
    }
}

/// The first of some lines that declares the name. The version line has the number `version`; 0 stands for version 1.
fn known_among(text: &[u8], version: u32, lines: &[Line], name: &[u8]) -> Option<Known>
    ensures { result ≡ known_among text.now name.now (map (reading_of version text.now) lines.now) }
{
    for line in lines {
        if let Some(known) = known_by(text, name, &read_line(version, text, line)) {
            return Some(known);
        }
    }
    None
}

/// The first line of the text that declares the name.
#[tactic(auto, unfolding(crate::specs::Known::known_in))]
pub(crate) fn known_in(alloc: Global, text: &[u8], name: &[u8]) -> Result<Option<Known>, Memory>
    requires { length text.now ≤ MOST_OF_TEXT }
    ensures { IfOk result (λ known. known ≡ known_in text.now name.now) }
{
    let tokenized = tokens(alloc, text)?;
    let lines = tokenized.as_slice();
    Ok(known_among(text, version_line(text, lines), lines, name))
}
