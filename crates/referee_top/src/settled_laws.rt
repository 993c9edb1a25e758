//! Theorems of the mode settled. A theorem is a function without effect; its contract states the theorem.
ghost use Rattle.std.specs.Prelude.{◌≡◌, ◌≢◌, ◌↔◌, ℕ, List, Ok, Some};
ghost use Rattle.dn_base.specs.declared.ids.Grant.{Grant as GrantOf};
ghost use Rattle.region_table.specs.Program.{ProgramParts};
ghost use Rattle.rv_assembler.specs.Source.{source};
ghost use Rattle.effect_checker.specs.Checked.{IsChecked};
ghost use Rattle.flat_machine.specs.declared.ending.FlatEnd.{FlatEnd as EndOf};
ghost use Rattle.flat_machine.specs.Ending.{flat_end};
ghost use Rattle.common_outcomes.specs.declared.answer.Common.{Common as CommonOf};
ghost use Rattle.common_outcomes.specs.declared.answer.Outcomes.TheVariants.{Settled as IsSettled};
ghost use Rattle.common_outcomes.specs.Answer.{outcomes};
ghost use Rattle.claims.specs.declared.claim.Claim.{Claim as ClaimOf};
ghost use Rattle.claims.specs.declared.verdict.Verdict.TheVariants.{Agrees as SaysAgrees};
ghost use Rattle.run_report.specs.Answer.{answer_of};
ghost use Rattle.referee_top.specs.declared.mode.RefereeMode.TheVariants.{Settled};
ghost use Rattle.referee_top.specs.declared.status.RefereeStatus.TheVariants.{Agrees};
ghost use Rattle.referee_top.specs.Answers.{Reply as ReplyOf, IsPlainDocument, IsAnswer, verdict_reply};
ghost use Rattle.referee_top.specs.Laws.{IsClaimOfCommon};

/// In the mode settled the referee says that a run log agrees exactly if it is settled what all runs of its text have in common,
/// and the claimed answer is that of an ending that has this: the outcome, the ends of tasks, and each word that is known.
pub fn a_claim_agrees_where_an_ending_has_what_is_common()
    ensures { (document : List ℕ) (out : ReplyOf) → IsAnswer Settled document out → (out.status ≡ Agrees) ↔ IsClaimOfCommon document }
{}

/// So a claim whose answer is that of any run of the text agrees, in whatever order the run's locks were granted.
pub fn the_answer_of_any_order_agrees()
    ensures { (document : List ℕ) (c : ClaimOf) (P : ProgramParts) (common : CommonOf) (gs : List GrantOf) (e : EndOf) (out : ReplyOf) → IsPlainDocument document c → source c.question.text ≡ Ok P
        → IsChecked P → outcomes P c.question.fuel ≡ IsSettled common → flat_end P c.question.fuel gs ≡ Some e → c.answer ≡ answer_of e.ending → IsAnswer Settled document out
        → out ≡ verdict_reply SaysAgrees }
{}

/// Where it is settled what the runs of a text have in common, no run has the answer of a claim that differs.
pub fn no_run_has_an_answer_that_differs()
    ensures { (document : List ℕ) (c : ClaimOf) (P : ProgramParts) (common : CommonOf) (gs : List GrantOf) (e : EndOf) (out : ReplyOf) → IsPlainDocument document c → source c.question.text ≡ Ok P
        → IsChecked P → outcomes P c.question.fuel ≡ IsSettled common → IsAnswer Settled document out → out.status ≢ Agrees → flat_end P c.question.fuel gs ≡ Some e
        → c.answer ≢ answer_of e.ending }
{}
