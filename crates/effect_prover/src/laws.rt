//! Theorems: what a task's tables say of every run. A theorem is a function without effect; its contract states the theorem.
ghost use Rattle.std.specs.Prelude.{◌≡◌, ℕ};
ghost use Rattle.region_table.specs.Program.{ProgramParts, IsProgram};
ghost use Rattle.region_table.specs.Numbers.{HasWords};
ghost use Rattle.region_table.specs.declared.declared.TaskDecl.{TaskDecl};
ghost use Rattle.effect_prover.specs.Table.{Table, IsLeastTable};
ghost use Rattle.effect_prover.specs.Answer.{IsProven, IsUnbounded, RunsInside};

/// A task has at most one least table. So in a proven program every instruction of every least table is inside.
pub fn a_task_has_one_least_table()
    ensures one { (P : ProgramParts) (d : TaskDecl) (a b : Table) → IsLeastTable P d a → IsLeastTable P d b → a ≡ b }
    ensures either { (P : ProgramParts) (phase core pc : ℕ) → IsProven P → IsUnbounded P phase core pc → ⊥ }
{}

/// In a run of a proven program no task ends by the trap `outside`, for all fuel and grants.
pub fn a_proven_program_runs_inside()
    ensures { (P : ProgramParts) → IsProgram P → HasWords P → IsProven P → RunsInside P }
{}
