ghost use Rattle.std.specs.Prelude.{◌≡◌, ◌≢◌, ◌++◌, IfOk, OnOk};
ghost use Rattle.std.specs.Fmt.{decimal};
ghost use Rattle.rv_assembler.specs.declared.fault.SourceFault.TheVariants.{Memory as NoMemory};
ghost use Rattle.run_report.specs.declared.refusal.Refusal.TheVariants.{Source as OfSource};
ghost use Rattle.run_report.specs.Refusal.{source_text, conflict_text, check_text, refusal_of};

use dn_base::{Memory, PhaseId, WordId};
use effect_checker::CheckFault;
use rv_assembler::SourceFault;
use std::alloc::Global;
use text_pieces::{push, push_decimal};

/// Why arguments or a text are refused.
#[derive(Clone, Copy, PartialEq, Eq)]
pub enum Refusal {
    /// The command doesn't take the words.
    Usage,
    /// The text is no program.
    Source(SourceFault),
    /// Two tasks of the program conflict on a word.
    Check(CheckFault),
}

/// Adds the number of a line and the kind of its fault.
fn push_line(out: &mut Vec<u8>, line: u32, kind: &[u8]) -> Result<(), Memory>
    ensures { OnOk result (out.new.items ≡ out.old.items ++ decimal line ++ kind.now) }
{
    push_decimal(out, line)?;
    push(out, kind)
}

#[tactic(auto, unfolding(crate::specs::Refusal::source_text))]
fn push_source(out: &mut Vec<u8>, fault: SourceFault) -> Result<(), Memory>
    ensures { OnOk result (out.new.items ≡ out.old.items ++ source_text fault) }
{
    match fault {
        SourceFault::TooLarge => push(out, b"too-large"),
        SourceFault::BadByte { line } => push_line(out, line, b" bad-byte"),
        SourceFault::BadNumber { line } => push_line(out, line, b" bad-number"),
        SourceFault::LineLimit { line } => push_line(out, line, b" line-limit"),
        SourceFault::UnknownWord { line } => push_line(out, line, b" unknown-word"),
        SourceFault::BadOperand { line } => push_line(out, line, b" bad-operand"),
        SourceFault::OutOfRange { line } => push_line(out, line, b" out-of-range"),
        SourceFault::DoubleName { line } => push_line(out, line, b" double-name"),
        SourceFault::UnknownName { line } => push_line(out, line, b" unknown-name"),
        SourceFault::Misplaced { line } => push_line(out, line, b" misplaced"),
        SourceFault::Limit { line } => push_line(out, line, b" limit"),
        SourceFault::Memory => push(out, b"memory"),
    }
}

/// Adds a conflict of a phase: its kind, two numbers with what stands between them, and the word.
#[tactic(auto, unfolding(crate::specs::Refusal::conflict_text))]
fn push_conflict(
    out: &mut Vec<u8>,
    phase: PhaseId,
    kind: &[u8],
    numbers: (u32, u32),
    between: &[u8],
    word: WordId,
) -> Result<(), Memory>
    ensures { OnOk result (out.new.items
        ≡ out.old.items ++ conflict_text phase.0 kind.now numbers.0 between.now numbers.1 word.0) }
{
    push(out, b"phase ")?;
    push_decimal(out, phase.0)?;
    push(out, kind)?;
    push_decimal(out, numbers.0)?;
    push(out, between)?;
    push_decimal(out, numbers.1)?;
    push(out, b" word ")?;
    push_decimal(out, word.0)
}

/// Adds what is said of a conflict.
fn push_check(out: &mut Vec<u8>, fault: CheckFault) -> Result<(), Memory>
    ensures { OnOk result (out.new.items ≡ out.old.items ++ check_text fault) }
{
    match fault {
        CheckFault::PlainConflict {
            phase,
            core_a,
            core_b,
            word,
        } => {
            let cores = (core_a.0, core_b.0);
            push_conflict(out, phase, b" plain-conflict cores ", cores, b" ", word)
        }
        CheckFault::GuardedPlain {
            phase,
            lock,
            core,
            word,
        } => {
            let both = (lock.0, core.0);
            push_conflict(out, phase, b" guarded-plain lock ", both, b" core ", word)
        }
        CheckFault::TwoLocks {
            phase,
            lock_a,
            lock_b,
            word,
        } => {
            let locks = (lock_a.0, lock_b.0);
            push_conflict(out, phase, b" two-locks locks ", locks, b" ", word)
        }
    }
}

/// The line that says why arguments or a text are refused.
///
/// Out of memory is no refusal: the fault `SourceFault::Memory` must not be passed.
///
/// # Errors
/// `Memory` where there is no room for the line.
#[tactic(auto, unfolding(crate::specs::Refusal::refusal_of))]
pub fn refusal_line(alloc: Global, refusal: &Refusal) -> Result<Vec<u8>, Memory>
    requires { refusal.now ≢ OfSource NoMemory }
    ensures { IfOk result (λ line. line.items ≡ refusal_of refusal.now) }
{
    let mut out = Vec::new(alloc);
    match *refusal {
        Refusal::Usage => push(&mut out, b"refused usage")?,
        Refusal::Source(fault) => {
            push(&mut out, b"refused source ")?;
            push_source(&mut out, fault)?;
        }
        Refusal::Check(fault) => {
            push(&mut out, b"refused check ")?;
            push_check(&mut out, fault)?;
        }
    }
    push(&mut out, b"\n")?;
    Ok(out)
}
