//! Theorems: what holds of every run. A theorem is a function without effect; its contract states the theorem.
ghost use Rattle.std.specs.Prelude.{◌≡◌, ℕ, List, [], Some};
ghost use Rattle.dn_base.specs.declared.ids.Grant.{Grant};
ghost use Rattle.dn_base.specs.declared.ids.Shape.{Shape};
ghost use Rattle.region_table.specs.Program.{ProgramParts};
ghost use Rattle.flat_machine.specs.declared.ending.FlatEnd.{FlatEnd};
ghost use Rattle.flat_machine.specs.Ending.{flat_end};
ghost use Rattle.dn_machine.specs.declared.record.RunRecord.{RunRecord};
ghost use Rattle.checked_runs.specs.Causes.{IsCaused};
ghost use Rattle.checked_runs.specs.Runs.{IsRunOf};

/// If a run is out of fuel or stuck, its tasks are the cause.
pub fn an_outcome_has_its_cause()
    ensures { (P : ProgramParts) (fuel : ℕ) (grants : List Grant) (end : FlatEnd)
        → flat_end P fuel grants ≡ Some end → IsCaused P fuel grants end.ending }
{}

/// Without locks every run of a program ends in the same way, for all shapes of the machine, and however the events were
/// picked.
pub fn without_locks_every_run_ends_alike()
    ensures { (P : ProgramParts) (machine other : Shape) (fuel : ℕ) (r s : RunRecord) → IsRunOf P machine fuel r → IsRunOf P other fuel s → P.locks ≡ [] → r.ending ≡ s.ending }
{}
