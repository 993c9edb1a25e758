//! The lines of tasks.
ghost use Rattle.std.specs.Prelude.{◌≡◌, ℕ, List, [], ◌∷◌, IfSome, IfNone};
ghost use Rattle.rv_core.specs.declared.task.TrapKind.{TrapKind as TrapKindOf};
ghost use Rattle.run_report.specs.Answer.{task_line};
ghost use Rattle.text_pieces.specs.Field.{Stands, NoneStands};
ghost use Rattle.explained_answer.specs.AnswerLines.{HasTrapNumbers, HasStopNumbers, HasTaskNumbers, trap_front, trap_rest, stop_text, all_traps};

use crate::numbers::two_numbers;
use dn_base::{CoreId, LockId, PhaseId};
use rv_core::{EndShown, TaskEnd, TrapKind};
use text_pieces::{behind, field, hexadecimal};

/// What a line says of a trap, after its kind.
#[derive(Clone, Copy)]
pub(crate) struct Trapped {
    pub(crate) pc: u32,
    pub(crate) value: u32,
    pub(crate) retired: u32,
}

/// How a task stands at the end, and how many instructions it has retired.
#[derive(Clone, Copy)]
pub(crate) struct Stopped {
    pub(crate) end: EndShown,
    pub(crate) retired: u32,
}

/// What stands before the address in the line of a trap.
fn trap_front(kind: TrapKind) -> &'static [u8]
    ensures { result.now ≡ trap_front kind }
{
    match kind {
        TrapKind::Fetch => b"trap fetch pc ",
        TrapKind::Illegal => b"trap illegal pc ",
        TrapKind::Target => b"trap target pc ",
        TrapKind::Misaligned => b"trap misaligned pc ",
        TrapKind::Outside => b"trap outside pc ",
        TrapKind::Break => b"trap break pc ",
        TrapKind::Call => b"trap call pc ",
        TrapKind::NoLock => b"trap nolock pc ",
        TrapKind::Held => b"trap held pc ",
        TrapKind::NotHeld => b"trap nothold pc ",
        TrapKind::HeldEnd => b"trap heldend pc ",
    }
}

/// Reads the end of a trap's line at the start of some bytes, where `front` is its beginning up to the address. Gives the trap
/// and what follows.
fn trap_behind<'a>(bytes: &'a [u8], front: &[u8]) -> Option<(Trapped, &'a [u8])>
    ensures some { IfSome result (λ f. Stands HasTrapNumbers (trap_rest front.now) bytes.now f.0 f.1.now) }
    ensures none { IfNone result (NoneStands HasTrapNumbers (trap_rest front.now) bytes.now) }
{
    let at_pc = behind(bytes, front)?;
    let (pc, behind_pc) = hexadecimal(at_pc)?;
    let at_value = behind(behind_pc, b" value ")?;
    let (value, behind_value) = hexadecimal(at_value)?;
    let (retired, rest) = field(behind_value, b" retired ", 0, u32::MAX, b'\n')?;
    let trapped = Trapped { pc, value, retired };
    Some((trapped, rest))
}

#[tactic(auto, unfolding(crate::specs::AnswerLines::all_traps))]
fn trap_kinds() -> [TrapKind; 11]
    ensures { result ≡ all_traps }
{
    [
        TrapKind::Fetch,
        TrapKind::Illegal,
        TrapKind::Target,
        TrapKind::Misaligned,
        TrapKind::Outside,
        TrapKind::Break,
        TrapKind::Call,
        TrapKind::NoLock,
        TrapKind::Held,
        TrapKind::NotHeld,
        TrapKind::HeldEnd,
    ]
}

/// The trap of some kind that stands at the start of some bytes, and what follows it.
fn trap(bytes: &[u8]) -> Option<(TrapKind, Trapped, &[u8])>
    ensures some { IfSome result (λ f. Stands HasTrapNumbers (trap_rest (trap_front f.0)) bytes.now f.1 f.2.now) }
    ensures none { IfNone result ((k : TrapKindOf) → NoneStands HasTrapNumbers (trap_rest (trap_front k)) bytes.now) }
{
    let kinds = trap_kinds();
    for kind in &kinds {
        if let Some((trapped, rest)) = trap_behind(bytes, trap_front(*kind)) {
            return Some((*kind, trapped, rest));
        }
    }
    None
}

/// The end of a task's line that stands at the start of some bytes, and what follows it.
fn stop(bytes: &[u8]) -> Option<(Stopped, &[u8])>
    ensures some { IfSome result (λ f. Stands HasStopNumbers stop_text bytes.now f.0 f.1.now) }
    ensures none { IfNone result (NoneStands HasStopNumbers stop_text bytes.now) }
{
    if let Some((retired, rest)) = field(bytes, b"finished retired ", 0, u32::MAX, b'\n') {
        let end = EndShown::Finished;
        return Some((Stopped { end, retired }, rest));
    }
    if let Some((retired, rest)) = field(bytes, b"fuel retired ", 0, u32::MAX, b'\n') {
        let end = EndShown::Fuel;
        return Some((Stopped { end, retired }, rest));
    }
    if let Some((lock, retired, rest)) = two_numbers(bytes, b"waits ", b"retired ", b'\n') {
        let end = EndShown::Waits { lock: LockId(lock) };
        return Some((Stopped { end, retired }, rest));
    }
    let (kind, trapped, rest) = trap(bytes)?;
    let Trapped { pc, value, retired } = trapped;
    let end = EndShown::Trap { kind, pc, value };
    Some((Stopped { end, retired }, rest))
}

/// The task whose line stands at the start of some bytes, and what follows it.
pub(crate) fn task(bytes: &[u8]) -> Option<(TaskEnd, &[u8])>
    ensures some { IfSome result (λ f. Stands HasTaskNumbers task_line bytes.now f.0 f.1.now) }
    ensures none { IfNone result (NoneStands HasTaskNumbers task_line bytes.now) }
{
    let (phase, core, at_end) = two_numbers(bytes, b"task ", b"", b' ')?;
    let (stopped, rest) = stop(at_end)?;
    let task = TaskEnd {
        phase: PhaseId(phase),
        core: CoreId(core),
        end: stopped.end,
        retired: stopped.retired,
    };
    Some((task, rest))
}
