//! Theorems of the referee's answers. A theorem is a function without effect; its contract states the theorem.
ghost use Rattle.std.specs.Prelude.{◌≡◌, ◌≢◌, ◌↔◌, ℕ, List};
ghost use Rattle.claims.specs.declared.verdict.Verdict.TheVariants.{Agrees as SaysAgrees};
ghost use Rattle.program_outside.specs.Serving.{IsEnough};
ghost use Rattle.referee_top.specs.declared.mode.RefereeMode.{RefereeMode};
ghost use Rattle.referee_top.specs.declared.mode.RefereeOptions.{RefereeOptions};
ghost use Rattle.referee_top.specs.declared.mode.RefereeMode.TheVariants.{Judge, Diagnose, Settled};
ghost use Rattle.referee_top.specs.declared.status.RefereeStatus.TheVariants.{Agrees};
ghost use Rattle.referee_top.specs.Answers.{Reply, IsAnswer, verdict_reply};
ghost use Rattle.referee_top.specs.Batch.{IsAnswerTo};
ghost use Rattle.referee_top.specs.Laws.{IsClaimOfOneThread};

/// The referee says that a run log agrees exactly if it claims what one thread on one memory does by the claimed grants: their run
/// has an end, with the claimed loads, if loads are claimed, and the claimed answer.
pub fn a_claim_agrees_where_one_thread_does()
    ensures { (document : List ℕ) (out : Reply) → IsAnswer Judge document out → (out.status ≡ Agrees) ↔ IsClaimOfOneThread document }
{}

/// The mode judge says that a claim agrees which the modes answer or least print.
pub fn a_claim_that_is_printed_agrees()
    ensures { (asked : RefereeMode) (document : List ℕ) (printed out : Reply) → asked ≢ Judge → asked ≢ Diagnose → asked ≢ Settled → IsAnswer asked document printed → printed.status ≡ Agrees
        → IsAnswer Judge printed.bytes out → out ≡ verdict_reply SaysAgrees }
{}

/// What answers as many bytes as are read at most answers every text that begins with them.
pub fn the_bytes_that_are_read_are_enough()
    ensures { (o : RefereeOptions) → IsEnough (IsAnswerTo o) 536870913 }
{}
