ghost use Rattle.std.specs.Prelude.{◌≡◌, ◌≢◌, ℕ, IsTrue};
ghost use Rattle.std.specs.List.{IsAmong};
ghost use Rattle.region_table.specs.declared.declared.TaskDecl.{TaskDecl};
ghost use Rattle.region_table.specs.declared.declared.Phase.{Phase};
ghost use Rattle.region_table.specs.Program.{ProgramParts};
ghost use Rattle.region_table.specs.Plan.{uses_plainly, task_guards};

use region_table::Program;
use std::marker::Model;

/// A program whose declared effects are checked. In each phase:
///
/// - A word that a task writes plainly, that is without a lock, is neither read nor written plainly by any other task.
/// - A word that a lock guards for some task is neither read nor written plainly by any task.
/// - A word is guarded by at most one lock.
///
/// Contracts see the program. Every `Checked` is checked.
#[derive(Drop)]
pub struct Checked {
    program: Program,
}

impl Model for Checked {
    ghost use Rattle.region_table.specs.Program.{ProgramParts};
    ghost use Rattle.effect_checker.specs.Checked.{IsChecked};

    ghost Value = { ProgramParts };

    ghost view = { λ c. c.program };

    ghost invariant = { λ c. IsChecked c.program };
}

impl Checked {
    ghost use Rattle.effect_checker.specs.Checked.{IsChecked, writes_plainly};

    /// Makes a `Checked` of a program that is known to be checked, for a caller that took a `Checked` apart. Takes no memory.
    pub fn of_program(program: Program) -> Checked
        requires { IsChecked program }
        ensures { result ≡ program }
    {
        Checked { program }
    }

    /// The program that was checked. Takes no memory.
    pub fn program(&self) -> &Program
        ensures value { result.now ≡ self.now }
        ensures checked { IsChecked self.now }
    {
        &self.program
    }

    /// Gives the program back. Takes no memory.
    pub fn into_program(self) -> Program
        ensures value { result ≡ self }
        ensures checked { IsChecked self }
    {
        let Checked { program } = self;
        program
    }

    /// In any phase of a checked program, a word that a task writes plainly is neither read nor written plainly by a task on
    /// another core.
    pub fn plain_words_are_apart()
        ensures { (program : ProgramParts) (p : Phase) (t u : TaskDecl) (w : ℕ) → IsChecked program → IsAmong program.phases p → IsAmong p.tasks t → IsAmong p.tasks u
            → t.core.0 ≢ u.core.0 → IsTrue (writes_plainly t w) → IsTrue (uses_plainly u w) → ⊥ }
    {}

    /// In any phase of a checked program, a word that a lock guards for a task is neither read nor written plainly by any task,
    /// that one included.
    pub fn guarded_words_are_not_plain()
        ensures { (program : ProgramParts) (p : Phase) (t u : TaskDecl) (lock w : ℕ) → IsChecked program → IsAmong program.phases p → IsAmong p.tasks t → IsAmong p.tasks u
            → IsTrue (task_guards t lock w) → IsTrue (uses_plainly u w) → ⊥ }
    {}

    /// In any phase of a checked program, a word is guarded by at most one lock, for whichever tasks.
    pub fn guarded_words_have_one_lock()
        ensures { (program : ProgramParts) (p : Phase) (t u : TaskDecl) (a b w : ℕ) → IsChecked program → IsAmong program.phases p → IsAmong p.tasks t → IsAmong p.tasks u
            → IsTrue (task_guards t a w) → IsTrue (task_guards u b w) → a ≡ b }
    {}
}

/// Compiles only if the type may be sent to another thread and shared with it.
fn crosses<T: Send + Sync>(_value: &T) {}

/// A checked program may be sent to another thread, and shared with it. Nobody calls this; the check of its body proves it.
pub(crate) fn checked_crosses(checked: &Checked) {
    crosses(checked);
}
