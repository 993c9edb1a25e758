//! Theorems of programs: what holds of the tasks of every program, and of the plans of its phases. A theorem is a function
//! without effect; its contract states the theorem.
ghost use Rattle.std.specs.Prelude.{◌≡◌, ◌<◌, ℕ, List, [], IsTrue, length, slice_get, slice_index_or, Some};
ghost use Rattle.std.specs.List.{IsAmong};
ghost use Rattle.region_table.specs.declared.declared.TaskDecl.{TaskDecl};
ghost use Rattle.region_table.specs.declared.declared.Phase.{Phase};
ghost use Rattle.region_table.specs.declared.plan.PhasePlan.{PhasePlan};
ghost use Rattle.region_table.specs.Words.{has};
ghost use Rattle.region_table.specs.Program.{ProgramParts, IsProgram};
ghost use Rattle.region_table.specs.Plan.{task_writes, task_guards, IsPlan};
ghost use Rattle.region_table.specs.Tasks.{declared, IsDeclaration};
ghost use Rattle.region_table.specs.Numbers.{HasWords};

use crate::numbers::{phases_fit, words_fit};
use crate::program::Program;

/// Every program is well formed.
pub fn a_program_is_well_formed(program: &Program)
    ensures { IsProgram program.now }
{
    // for the proof alone: a read of a field brings the invariant of the program, which is the law
    let _code = &program.code;
}

/// The words of a program and the numbers of its tasks have 32 bits, and its sets of words are canonical. The call goes through
/// all sets of all tasks, and takes no memory.
pub fn a_program_has_words(program: &Program)
    ensures { HasWords program.now }
{
    // for the proof alone: each call says its part of the law
    words_fit(program.code.as_slice());
    words_fit(program.memory.as_slice());
    phases_fit(program.phases.as_slice());
}

/// The task that a program declares for a core in a phase is a task of that phase and that core. Conversely, each task of a
/// phase is the one that the program declares for its core.
pub fn a_core_has_one_task_in_a_phase()
    ensures found { (P : ProgramParts) (phase core : ℕ) (d : TaskDecl) → declared P phase core ≡ Some d → IsDeclaration P phase core d }
    ensures only { (P : ProgramParts) (phase : ℕ) (p : Phase) (d : TaskDecl) → IsProgram P → slice_get P.phases phase ≡ Some p → IsAmong p.tasks d
        → declared P phase d.core.0 ≡ Some d }
{}

/// The plan of a phase has the words that a task of the phase writes, plainly or under a lock. For each lock it has the words
/// that the lock guards for some task.
pub fn a_plan_has_the_words_of_its_tasks()
    ensures written { (P : ProgramParts) (p : Phase) (plan : PhasePlan) (d : TaskDecl) (w : ℕ) → IsProgram P → IsAmong P.phases p → IsPlan P p plan → IsAmong p.tasks d
        → IsTrue (task_writes d w) → IsTrue (has plan.written w) }
    ensures guarded { (P : ProgramParts) (p : Phase) (plan : PhasePlan) (d : TaskDecl) (lock w : ℕ) → IsPlan P p plan → IsAmong p.tasks d → lock < length P.locks
        → IsTrue (task_guards d lock w) → IsTrue (has (slice_index_or plan.guarded lock []) w) }
{}
