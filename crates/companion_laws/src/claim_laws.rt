//! Theorems: what the referee says of the claims of runs. A theorem is a function without effect; its contract states the
//! theorem.
ghost use Rattle.std.specs.Prelude.{◌≡◌, ◌++◌, ℕ, true, List, is_some};
ghost use Rattle.dn_base.specs.declared.ids.Shape.{Shape};
ghost use Rattle.region_table.specs.Program.{ProgramParts};
ghost use Rattle.message_net.specs.declared.event.Event.{Event};
ghost use Rattle.registration_protocol.specs.Node.{Setting};
ghost use Rattle.dn_machine.specs.Settings.{IsSettingOf};
ghost use Rattle.dn_machine.specs.declared.record.RunRecord.{RunRecord};
ghost use Rattle.run_report.specs.Answer.{answer_of};
ghost use Rattle.run_report.specs.Run.{run_text};
ghost use Rattle.claims.specs.declared.claim.Claim.{Claim};
ghost use Rattle.claims.specs.Claim.{IsClaimDocument};
ghost use Rattle.claims.specs.Judge.{IsVerdict};
ghost use Rattle.claims.specs.declared.verdict.Verdict.TheVariants.{Agrees};
ghost use Rattle.dn_top.specs.declared.options.Mode.TheVariants.{Run};
ghost use Rattle.dn_top.specs.declared.options.Options.{Options};
ghost use Rattle.program_outside.specs.Outside.{Took};
ghost use Rattle.run_report.specs.Texts.{HasChecked};
ghost use Rattle.dn_top.specs.Laws.{Call};
ghost use Rattle.checked_runs.specs.Runs.{IsRunOf};
ghost use Rattle.referee_top.specs.declared.mode.RefereeMode.TheVariants.{Judge};
ghost use Rattle.referee_top.specs.Answers.{Reply, HasTold, IsAnswer, verdict_reply};
ghost use Rattle.companion_laws.specs.Claims.{IsClaimOf, IsClaimOfRun};
ghost use Rattle.companion_laws.specs.HandedBack.{IsClaimOfRecord, claims_run_in, HandedBack};

/// The claim of any complete run of the multicore machine agrees: its grants, the loads of its events, task by task, and its
/// answer, for all shapes of the machine and all orders of events. The judge says so of the claim, and the referee of its run log.
pub fn the_claim_of_any_run_agrees()
    ensures verdict { (C : Setting) (events : List Event) (c : Claim) → IsClaimOf C events c → IsVerdict C.program c Agrees }
    ensures answer { (document : List ℕ) (out : Reply) → IsClaimOfRun document → IsAnswer Judge document out → out ≡ verdict_reply Agrees }
{}

/// The claim of any run of denovo agrees. A call of `dn_top::denovo_main` hands a run back in the modes run, work, trace,
/// replay and time, with one worker or several. Take a claim about its text with the grants of that run, the loads of its
/// events, task by task, or no loads, and the answer of its ending. The judge says that it agrees (`verdict`), and so does the
/// referee of the claim's document (`answer`). There is such a claim, with all loads (`claimed`), and its answer is what the
/// mode run prints first (`printed`). The clause `run` says the same for each run of which dn_top's `IsRunOf` is true.
pub fn the_claim_of_any_run_of_denovo_agrees()
    ensures run { (P : ProgramParts) (machine : Shape) (fuel : ℕ) (r : RunRecord) (C : Setting) (c : Claim) → IsRunOf P machine fuel r → IsSettingOf P machine fuel C → IsClaimOfRecord C r c
        → IsVerdict P c Agrees }
    ensures verdict { (o : Options) (text : List ℕ) (call : Call) (r : RunRecord) (c : Claim) → HandedBack o text call r → claims_run_in o.mode o text r c
        → HasChecked c.question.text (λ P. IsVerdict P c Agrees) }
    ensures answer { (o : Options) (text : List ℕ) (call : Call) (r : RunRecord) (document : List ℕ) (out : Reply) → HandedBack o text call r
        → HasTold IsClaimDocument document (λ c. claims_run_in o.mode o text r c) → IsAnswer Judge document out → out ≡ verdict_reply Agrees }
    ensures claimed { (o : Options) (text : List ℕ) (call : Call) (r : RunRecord) → HandedBack o text call r → (c : Claim) × (is_some c.loads ≡ true) × claims_run_in o.mode o text r c }
    ensures printed { (o : Options) (text : List ℕ) (call : Call) (r : RunRecord) → HandedBack o text call r → o.mode ≡ Run
        → Took call.before.sink call.after.sink (answer_of r.ending ++ run_text r.grants r.counts) }
{}
