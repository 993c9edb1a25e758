ghost use Rattle.std.specs.Prelude.{◌≡◌, ◌++◌, OnOk, IfOk};
ghost use Rattle.explain_top.specs.Answers.{IsEither, IsOutput, refused_line, output_of};

use dn_base::{MOST_OF_DOCUMENT, Memory, Sequence, Status};
use explained_answer::{Explained, explain, explain_verdict};
use program_outside::Output;
use std::alloc::Global;
use text_pieces::{push, push_long};

/// A status, and all bytes that are to be written.
pub type Explanation = Output<Status>;

/// A refusal with this line.
fn refusal_of(line: Vec<u8>) -> Explanation
    ensures { result ≡ record { status = Status.SourceRefused; bytes = line.items } }
{
    Output {
        status: Status::SourceRefused,
        bytes: Sequence::from_vec(line),
    }
}

/// The line that refuses an answer at its line of this number.
#[tactic(auto, unfolding(crate::specs::Answers::refused_line))]
fn refused_line(alloc: Global, number: usize) -> Result<Vec<u8>, Memory>
    ensures { IfOk result (λ line. line.items ≡ refused_line number) }
{
    let mut line = Vec::new(alloc);
    push(&mut line, b"refused answer ")?;
    push_long(&mut line, number as u64)?;
    push(&mut line, b"\n")?;
    Ok(line)
}

/// What is written of an explained answer.
fn output_of(alloc: Global, explained: Explained) -> Result<Explanation, Memory>
    ensures { IfOk result (λ output. output ≡ output_of explained) }
{
    match explained {
        Explained::Text(bytes) => Ok(Output {
            status: Status::Done,
            bytes,
        }),
        Explained::Refused { line } => Ok(refusal_of(refused_line(alloc, line)?)),
    }
}

/// Explains an answer of denovo, or else a verdict of the referee.
fn explain_any(alloc: Global, text: &[u8], answer: &[u8]) -> Result<Explained, Memory>
    ensures { IfOk result (IsEither text.now answer.now) }
{
    match explain(alloc, text, answer)? {
        Explained::Text(bytes) => Ok(Explained::Text(bytes)),
        Explained::Refused { line } => {
            if line == 1 {
                explain_verdict(alloc, text, answer)
            } else {
                Ok(Explained::Refused { line })
            }
        }
    }
}

/// The output for a text and the answer that denovo printed for it, or the verdict that the referee printed on a claim of a run
/// of it: the answer explained, or the line that refuses it.
///
/// # Errors
/// `Memory` where there is no room.
pub fn answer(alloc: Global, text: &[u8], answer: &[u8]) -> Result<Explanation, Memory>
    ensures { IfOk result (IsOutput text.now answer.now) }
{
    if answer.len() > MOST_OF_DOCUMENT {
        return Ok(refusal_of(Vec::from_slice(alloc, b"refused answer too-large\n")?));
    }
    output_of(alloc, explain_any(alloc, text, answer)?)
}
