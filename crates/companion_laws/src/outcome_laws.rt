//! Theorems: what a run of denovo has in common with all runs of its text. A theorem is a function without effect; its contract
//! states the theorem.
ghost use Rattle.std.specs.Prelude.{◌≡◌, ℕ, List};
ghost use Rattle.dn_base.specs.declared.ids.Shape.{Shape};
ghost use Rattle.region_table.specs.Program.{ProgramParts, IsProgram};
ghost use Rattle.region_table.specs.Numbers.{HasWords};
ghost use Rattle.effect_checker.specs.Checked.{IsChecked};
ghost use Rattle.dn_machine.specs.declared.record.RunRecord.{RunRecord};
ghost use Rattle.dn_top.specs.declared.options.Options.{Options};
ghost use Rattle.checked_runs.specs.Runs.{IsRunOf};
ghost use Rattle.dn_top.specs.Answers.{IsFlatRun};
ghost use Rattle.dn_top.specs.Laws.{Call};
ghost use Rattle.dn_top.specs.declared.output.Output.{Output};
ghost use Rattle.common_outcomes.specs.declared.answer.Common.{Common};
ghost use Rattle.common_outcomes.specs.declared.answer.Outcomes.TheVariants.{Settled};
ghost use Rattle.common_outcomes.specs.Answer.{outcomes};
ghost use Rattle.common_outcomes.specs.Laws.{IsCommonTo};
ghost use Rattle.companion_laws.specs.CommonRuns.{HasCommon, has_common_in};
ghost use Rattle.companion_laws.specs.HandedBack.{HandedBack};

/// Where the answer of a program and a fuel is settled, every run of denovo has what it says: the outcome, the ends of tasks, and
/// the value of each word that is known. The clause `run` says so of each run of which `IsRunOf` is true, by any seed, shape of
/// the machine and number of workers. The clause `call` says so of the run that a call of `dn_top::denovo_main` handed back, in
/// the modes run, work, trace, time and replay. The clause `flat` says so of the ending that the mode flat prints.
pub fn every_run_of_denovo_has_what_is_common()
    ensures run { (P : ProgramParts) (machine : Shape) (fuel : ℕ) (r : RunRecord) (common : Common) → IsProgram P → HasWords P → IsChecked P
        → outcomes P fuel ≡ Settled common → IsRunOf P machine fuel r → IsCommonTo common r.ending }
    ensures flat { (P : ProgramParts) (fuel : ℕ) (out : Output) (h : IsFlatRun P fuel out) → IsProgram P → IsChecked P → HasCommon P fuel h.end.ending }
    ensures call { (o : Options) (text : List ℕ) (call : Call) (r : RunRecord) → HandedBack o text call r → has_common_in o.mode o text r }
{}
