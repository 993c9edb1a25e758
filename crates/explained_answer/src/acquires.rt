//! Where the task that holds a lock acquired it, by the run of the answer once more.
ghost use Rattle.std.specs.Prelude.{◌≡◌, ℕ, List, Some};
ghost use Rattle.region_table.specs.Program.{ProgramParts};
ghost use Rattle.dn_base.specs.declared.ids.LockId.{LockId as LockOf};
ghost use Rattle.rv_core.specs.declared.ending.EndShown.TheVariants.{Waits};
ghost use Rattle.rv_core.specs.declared.ending.TaskEnd.{TaskEnd as EndOf};
ghost use Rattle.explained_answer.specs.Acquires.{if_of_lock, last_acquire, pc_if_in, acquired_on, awaited_acquire, IsLastAcquire};
ghost use Rattle.explained_answer.specs.Ended.{answer_tasks};
ghost use Rattle.explained_answer.specs.Holders.{answer_grants};
ghost use Rattle.explained_answer.specs.RunAgain.{fuel_of, run_again};
ghost use Rattle.explained_answer.specs.declared.line.AnswerLine.{AnswerLine as LineOf};

use crate::AnswerLine;
use flat_machine::Acquire;
use rv_core::EndShown;

/// An acquire, if it is of the lock.
fn if_of_lock(lock: u32, acquire: Acquire) -> Option<Acquire>
    ensures { result ≡ if_of_lock lock acquire }
{
    if acquire.grant.lock.0 == lock {
        Some(acquire)
    } else {
        None
    }
}

/// The last acquire of a lock.
fn last_acquire(lock: u32, acquires: &[Acquire]) -> Option<Acquire>
    ensures { result ≡ last_acquire lock acquires.now }
{
    let mut last = None;
    for acquire in acquires {
        last = if_of_lock(lock, *acquire).or(last);
    }
    last
}

/// The address of an acquire, if it is in the phase.
fn pc_if_in(phase: u32, acquire: Option<Acquire>) -> Option<u32>
    ensures { result ≡ pc_if_in phase acquire }
{
    match acquire {
        Some(acquire) if acquire.grant.phase.0 == phase => Some(acquire.pc),
        _ => None,
    }
}

/// The address of the ECALL by which the lock was acquired last for which the task of a line waits.
pub(crate) fn acquired_on(acquires: &[Acquire], line: AnswerLine) -> Option<u32>
    ensures { result ≡ acquired_on acquires.now line }
{
    let AnswerLine::Task(task) = line else {
        return None;
    };
    match task.end {
        EndShown::Waits { lock } => pc_if_in(task.phase.0, last_acquire(lock.0, acquires)),
        EndShown::Finished | EndShown::Fuel | EndShown::Trap { .. } => None,
    }
}

/// The place that is named as the one where the holder of a lock acquired it: the answer's last grant of the lock is in the phase of
/// the task that waits, and its core is the holder that is named. In the run of the program by the grants before it the task of this
/// core waits for the lock at this address.
pub fn a_named_acquire_is_the_last_of_its_lock()
    ensures { (P : ProgramParts) (lines : List LineOf) (t : EndOf) (lock : LockOf) (pc : ℕ) → t.end ≡ Waits lock
        → awaited_acquire (run_again P lines).acquires t.phase.0 t.end ≡ Some pc
        → IsLastAcquire P (fuel_of (answer_tasks lines)) (answer_grants lines) t.phase.0 lock.0 pc }
{}
