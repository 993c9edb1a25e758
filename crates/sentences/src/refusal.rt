//! The sentences on a refused text.
ghost use Rattle.std.specs.Prelude.{◌≡◌, ◌++◌, OnOk, IfOk, Err};
ghost use Rattle.std.specs.Option.{option_copied};
ghost use Rattle.text_places.specs.Lines.{numbered_line};
ghost use Rattle.rv_assembler.specs.Source.{source};
ghost use Rattle.sentences.specs.Faults.{indented_line, sentence, finding_or_kind, finding_if_small, line_sentences, kind_sentences, line_or_kind, sentences_at, refusal_sentences};

use crate::faults::push_finding;
use crate::findings::{Finding, finding_of};
use crate::kinds::{amendment, complaint, faulty_line, finding_amendment};
use crate::others::push_others;
use dn_base::{MOST_OF_TEXT, Memory};
use rv_assembler::SourceFault;
use std::alloc::Global;
use text_pieces::push;
use text_places::{line_text, push_quoted_line};

#[tactic(auto, unfolding(crate::specs::Faults::indented_line))]
fn push_indented_line(out: &mut Vec<u8>, text: &[u8], line: u32) -> Result<(), Memory>
    ensures { OnOk result (out.new.items ≡ out.old.items ++ indented_line text.now line) }
{
    push(out, b"  ")?;
    push_quoted_line(out, text, line)
}

#[tactic(auto, unfolding(crate::specs::Faults::sentence))]
fn push_sentence(out: &mut Vec<u8>, words: &[u8]) -> Result<(), Memory>
    ensures { OnOk result (out.new.items ≡ out.old.items ++ sentence words.now) }
{
    push(out, b"  ")?;
    push(out, words)?;
    push(out, b"\n")
}

/// What is wrong on a line, where the text isn't too large.
fn finding_if_small(
    alloc: Global,
    text: &[u8],
    bytes: &[u8],
    fault: SourceFault,
) -> Result<Option<Finding>, Memory>
    ensures { IfOk result (λ finding. finding ≡ finding_if_small text.now bytes.now fault) }
{
    if MOST_OF_TEXT < text.len() || MOST_OF_TEXT < bytes.len() {
        return Ok(None);
    }
    finding_of(alloc, text, bytes, fault)
}

/// Adds what is wrong: by the finding, and where there is none by the kind of the fault.
fn push_finding_or_kind(
    out: &mut Vec<u8>,
    line: u32,
    bytes: &[u8],
    fault: SourceFault,
    finding: Option<Finding>,
) -> Result<(), Memory>
    ensures { OnOk result (out.new.items ≡ out.old.items ++ finding_or_kind line bytes.now fault finding) }
{
    match finding {
        Some(finding) => push_finding(out, line, bytes, finding),
        None => push_sentence(out, complaint(fault)),
    }
}

#[tactic(auto, unfolding(crate::specs::Faults::line_sentences))]
fn push_line_sentences(
    out: &mut Vec<u8>,
    text: &[u8],
    fault: SourceFault,
    line: u32,
    bytes: &[u8],
) -> Result<(), Memory>
    ensures { OnOk result (out.new.items ≡ out.old.items ++ line_sentences text.now fault line bytes.now) }
{
    let finding = finding_if_small(*out.allocator(), text, bytes, fault)?;
    push_indented_line(out, text, line)?;
    push_finding_or_kind(out, line, bytes, fault, finding)?;
    push_others(out, text, finding)?;
    push_sentence(out, finding_amendment(fault, bytes, finding))
}

/// Adds what is wrong and how it is fixed, by the kind of the fault alone.
fn push_kind(out: &mut Vec<u8>, fault: SourceFault) -> Result<(), Memory>
    ensures { OnOk result (out.new.items ≡ out.old.items ++ kind_sentences fault) }
{
    push_sentence(out, complaint(fault))?;
    push_sentence(out, amendment(fault))
}

fn push_line_or_kind(
    out: &mut Vec<u8>,
    text: &[u8],
    fault: SourceFault,
    line: u32,
) -> Result<(), Memory>
    ensures { OnOk result (out.new.items ≡ out.old.items ++ line_or_kind text.now fault line (numbered_line text.now line)) }
{
    match line_text(text, line as usize) {
        Some(bytes) => push_line_sentences(out, text, fault, line, bytes),
        None => push_kind(out, fault),
    }
}

fn push_sentences_at(
    out: &mut Vec<u8>,
    text: &[u8],
    fault: SourceFault,
    line: Option<u32>,
) -> Result<(), Memory>
    ensures { OnOk result (out.new.items ≡ out.old.items ++ sentences_at text.now fault line) }
{
    match line {
        Some(line) => push_line_or_kind(out, text, fault, line),
        None => push_kind(out, fault),
    }
}

/// Appends the sentences on a text that the assembler refuses with this fault: the line with the fault after its number, a mark
/// under the part that is wrong, why it is wrong, and how to fix it.
///
/// # Errors
/// `Memory` if there is no room; the text may have a part of the sentences then.
pub fn push_refusal(out: &mut Vec<u8>, text: &[u8], fault: SourceFault) -> Result<(), Memory>
    requires { source text.now ≡ Err fault }
    ensures { OnOk result (out.new.items ≡ out.old.items ++ refusal_sentences text.now fault) }
{
    push_sentences_at(out, text, fault, faulty_line(fault))
}
