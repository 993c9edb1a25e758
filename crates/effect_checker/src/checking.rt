ghost use Rattle.std.specs.Prelude.{◌≡◌, ◌↔◌, ℕ, ◌≤◌, IsOk, IfOk, IfErr, IfSome, IfNone};
ghost use Rattle.region_table.specs.declared.declared.Phase.{Phase};
ghost use Rattle.effect_checker.specs.Checked.{IsChecked, IsCheckedPhase};
ghost use Rattle.effect_checker.specs.Faults.{IsLeastFault};
ghost use Rattle.effect_checker.specs.Least.{IsFirstAmong, AreRising, HaveLocks};
ghost use Rattle.effect_checker.specs.Takers.{UseWordsBelow};

use crate::checked::Checked;
use crate::fault::CheckFault;
use crate::searching::{first_guarded_plain, first_plain_conflict, first_two_locks};
use crate::takers::are_apart;
use dn_base::{MOST_WORDS, PhaseId};
use region_table::{Program, TaskDecl};

/// The first fault among the tasks of a phase.
fn phase_fault(phase: PhaseId, tasks: &[TaskDecl], locks: u32) -> Option<CheckFault>
    requires rising { AreRising tasks.now }
    requires locks { HaveLocks locks tasks.now }
    requires few { locks ≤ 32 }
    requires words { UseWordsBelow MOST_WORDS tasks.now }
    ensures some { IfSome result (IsFirstAmong phase.0 tasks.now) }
    ensures none { IfNone result (IsCheckedPhase (record { tasks = tasks.now })) }
{
    if let Some((core_a, core_b, word)) = first_plain_conflict(tasks) {
        return Some(CheckFault::PlainConflict {
            phase,
            core_a,
            core_b,
            word,
        });
    }
    if are_apart(tasks, locks) {
        return None;
    }
    if let Some((lock, core, word)) = first_guarded_plain(tasks, locks) {
        return Some(CheckFault::GuardedPlain {
            phase,
            lock,
            core,
            word,
        });
    }
    let (lock_a, lock_b, word) = first_two_locks(tasks, locks)?;
    Some(CheckFault::TwoLocks {
        phase,
        lock_a,
        lock_b,
        word,
    })
}

/// The least fault of the program in the order of `CheckFault`, or None if the program is checked. `check` gives the same
/// answer, and takes the program. Takes no memory.
pub fn first_fault(program: &Program) -> Option<CheckFault>
    ensures some { IfSome result (IsLeastFault program.now) }
    ensures none { IfNone result (IsChecked program.now) }
{
    let locks = program.locks.len() as u32;
    for (number, phase) in program.phases.as_slice().iter().enumerate() {
        if let Some(fault) = phase_fault(PhaseId(number as u32), phase.tasks.as_slice(), locks) {
            return Some(fault);
        }
    }
    None
}

/// Checks the declared effects of a program by the three rules of `Checked`. Takes no memory.
///
/// For each phase it passes over two lists of intervals a few times for each pair of tasks, and then over the words of the
/// tasks' sets, where a word counts once for each set that has it. Each pass over words first clears 64 KiB of notes. If two
/// tasks conflict, it makes one more pass for each lock. For the first lock with a fault it then compares the lists of
/// intervals for each pair of tasks and each other lock.
///
/// # Errors
/// The least fault in the order of `CheckFault`, exactly if the program is not checked.
pub fn check(program: Program) -> Result<Checked, CheckFault>
    ensures checked { IsOk result ↔ IsChecked program }
    ensures same { IfOk result (λ checked. checked ≡ program) }
    ensures least { IfErr result (IsLeastFault program) }
{
    match first_fault(&program) {
        Some(fault) => Err(fault),
        None => Ok(Checked::of_program(program)),
    }
}
