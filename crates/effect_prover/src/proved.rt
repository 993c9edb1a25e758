ghost use Rattle.std.specs.Prelude.{◌≡◌, ◌++◌, IfOk, OnOk};
ghost use Rattle.effect_prover.specs.declared.proved.Proved.TheVariants.{Unbounded as UnboundedAt};
ghost use Rattle.effect_prover.specs.Answer.{proved_text};

use dn_base::{CoreId, Memory, PhaseId};
use std::alloc::Global;
use text_pieces::{push, push_decimal, push_hexadecimal};

/// What the prover says of a program.
#[derive(Clone, Copy)]
pub enum Proved {
    /// Every load and store that a task can reach only accesses words that the task declares. So no run ends a task by the trap
    /// `outside`.
    Inside,
    /// A load, a store or a jump to a register for which this isn't proven: the least by its phase, its core, and its address
    /// in bytes.
    Unbounded {
        phase: PhaseId,
        core: CoreId,
        pc: u32,
    },
}

/// Adds the line of an answer that tells the place of an instruction.
#[tactic(auto, unfolding(crate::specs::Answer::proved_text))]
fn push_unbounded(out: &mut Vec<u8>, phase: PhaseId, core: CoreId, pc: u32) -> Result<(), Memory>
    ensures { OnOk result (out.new.items ≡ out.old.items ++ proved_text (UnboundedAt phase core pc)) }
{
    push(out, b"unbounded ")?;
    push_decimal(out, phase.0)?;
    push(out, b" ")?;
    push_decimal(out, core.0)?;
    push(out, b" ")?;
    push_hexadecimal(out, pc)?;
    push(out, b"\n")
}

/// Adds the line of an answer.
#[tactic(auto, unfolding(crate::specs::Answer::proved_text))]
fn push_answer(out: &mut Vec<u8>, answer: &Proved) -> Result<(), Memory>
    ensures { OnOk result (out.new.items ≡ out.old.items ++ proved_text answer.now) }
{
    match answer {
        Proved::Inside => push(out, b"proved inside\n"),
        Proved::Unbounded { phase, core, pc } => push_unbounded(out, *phase, *core, *pc),
    }
}

/// The line of an answer: `proved inside`, or `unbounded`, the phase, the core, and the address in base 16.
///
/// # Errors
/// `Memory` where there is no room for the text.
pub fn prove_text(alloc: Global, answer: &Proved) -> Result<Vec<u8>, Memory>
    ensures { IfOk result (λ text. text.items ≡ proved_text answer.now) }
{
    let mut out = Vec::new(alloc);
    push_answer(&mut out, answer)?;
    Ok(out)
}
