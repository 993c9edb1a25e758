//! The names that a text declares as what is wanted.
ghost use Rattle.std.specs.Prelude.{◌≡◌, ◌≤◌, ◌++◌, length, flat_map, OnOk};
ghost use Rattle.sentences.specs.Others.{wants_label, wants_region, wants_lock, listed_name, listed_if, listed_label, listed_by, listed_on, listed_at, listed_in, names_or_none, others_line, others_by, others};

use crate::findings::{Cause, Finding, Wanted};
use crate::known::token_bytes;
use dn_base::{MOST_OF_TEXT, Memory};
use rv_assembler::{Reading, Statement, read_line, version_line};
use src_text::{Line, Token, tokens};
use text_pieces::push;

fn wants_label(wanted: Wanted) -> bool
    ensures { result ≡ wants_label wanted }
{
    matches!(wanted, Wanted::Label | Wanted::Address)
}

fn wants_region(wanted: Wanted) -> bool
    ensures { result ≡ wants_region wanted }
{
    matches!(wanted, Wanted::Address | Wanted::Region)
}

fn wants_lock(wanted: Wanted) -> bool
    ensures { result ≡ wants_lock wanted }
{
    matches!(wanted, Wanted::Lock)
}

#[tactic(auto, unfolding(crate::specs::Others::listed_name))]
fn push_name(out: &mut Vec<u8>, text: &[u8], name: Token) -> Result<(), Memory>
    ensures { OnOk result (out.new.items ≡ out.old.items ++ listed_name text.now name) }
{
    push(out, b" `")?;
    push(out, token_bytes(text, name))?;
    push(out, b"`")
}

fn push_name_if(out: &mut Vec<u8>, listed: bool, text: &[u8], name: Token) -> Result<(), Memory>
    ensures { OnOk result (out.new.items ≡ out.old.items ++ listed_if listed text.now name) }
{
    if listed {
        push_name(out, text, name)
    } else {
        Ok(())
    }
}

fn push_label(
    out: &mut Vec<u8>,
    text: &[u8],
    wanted: Wanted,
    label: Option<Token>,
) -> Result<(), Memory>
    ensures { OnOk result (out.new.items ≡ out.old.items ++ listed_label text.now wanted label) }
{
    match label {
        Some(label) => push_name_if(out, wants_label(wanted), text, label),
        None => Ok(()),
    }
}

fn push_declared(
    out: &mut Vec<u8>,
    text: &[u8],
    wanted: Wanted,
    statement: &Statement,
) -> Result<(), Memory>
    ensures { OnOk result (out.new.items ≡ out.old.items ++ listed_by text.now wanted statement.now) }
{
    match *statement {
        Statement::Region { name, .. } => push_name_if(out, wants_region(wanted), text, name),
        Statement::Lock { name } => push_name_if(out, wants_lock(wanted), text, name),
        _ => Ok(()),
    }
}

/// Adds the names of a line.
fn push_names_on(
    out: &mut Vec<u8>,
    text: &[u8],
    wanted: Wanted,
    reading: &Reading,
) -> Result<(), Memory>
    ensures { OnOk result (out.new.items ≡ out.old.items ++ listed_on text.now wanted reading.now) }
{
    match reading {
        Reading::Bad(_) => Ok(()),
        Reading::Good(saying) => {
            push_label(out, text, wanted, saying.label)?;
            push_declared(out, text, wanted, &saying.statement)
        }
    }
}

fn push_names_of(
    out: &mut Vec<u8>,
    text: &[u8],
    version: u32,
    lines: &[Line],
    wanted: Wanted,
) -> Result<(), Memory>
    ensures { OnOk result (out.new.items ≡ out.old.items ++ flat_map (listed_at text.now version wanted) lines.now) }
{
    for line in lines {
        push_names_on(out, text, wanted, &read_line(version, text, line))?;
    }
    Ok(())
}

/// Adds the names of the text's lines.
#[tactic(auto, unfolding(crate::specs::Others::listed_in))]
fn push_names(out: &mut Vec<u8>, text: &[u8], wanted: Wanted) -> Result<(), Memory>
    requires { length text.now ≤ MOST_OF_TEXT }
    ensures { OnOk result (out.new.items ≡ out.old.items ++ listed_in text.now wanted) }
{
    let tokenized = tokens(*out.allocator(), text)?;
    let lines = tokenized.as_slice();
    push_names_of(out, text, version_line(text, lines), lines, wanted)
}

fn push_names_or_none(out: &mut Vec<u8>, text: &[u8], wanted: Wanted) -> Result<(), Memory>
    requires { length text.now ≤ MOST_OF_TEXT }
    ensures { OnOk result (out.new.items ≡ out.old.items ++ names_or_none (listed_in text.now wanted)) }
{
    let before = out.len();
    push_names(out, text, wanted)?;
    if out.len() == before {
        push(out, b" none")
    } else {
        Ok(())
    }
}

#[tactic(auto, unfolding(crate::specs::Others::others_line))]
fn push_others_line(out: &mut Vec<u8>, text: &[u8], wanted: Wanted) -> Result<(), Memory>
    requires { length text.now ≤ MOST_OF_TEXT }
    ensures { OnOk result (out.new.items ≡ out.old.items ++ others_line text.now wanted) }
{
    push(out, b"  Declared as such:")?;
    push_names_or_none(out, text, wanted)?;
    push(out, b"\n")
}

fn push_others_by(out: &mut Vec<u8>, text: &[u8], cause: Cause) -> Result<(), Memory>
    requires { length text.now ≤ MOST_OF_TEXT }
    ensures { OnOk result (out.new.items ≡ out.old.items ++ others_by text.now cause) }
{
    match cause {
        Cause::Undeclared { wanted } | Cause::Unfit { wanted, .. } => {
            push_others_line(out, text, wanted)
        }
        _ => Ok(()),
    }
}

/// Adds the names beside one that isn't declared as what is wanted.
#[tactic(auto, unfolding(crate::specs::Others::others))]
pub(crate) fn push_others(
    out: &mut Vec<u8>,
    text: &[u8],
    finding: Option<Finding>,
) -> Result<(), Memory>
    ensures { OnOk result (out.new.items ≡ out.old.items ++ others text.now finding) }
{
    if MOST_OF_TEXT < text.len() {
        return Ok(());
    }
    match finding {
        Some(finding) => push_others_by(out, text, finding.cause),
        None => Ok(()),
    }
}
