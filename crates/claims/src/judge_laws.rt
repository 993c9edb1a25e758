//! Theorems of the definitions, for proofs about claims and their verdicts.
ghost use Rattle.std.specs.Prelude.{◌≡◌, ◌↔◌, ℕ, List};
ghost use Rattle.dn_base.specs.declared.ids.Grant.{Grant as GrantOf};
ghost use Rattle.region_table.specs.Program.{ProgramParts};
ghost use Rattle.claims.specs.declared.claim.Claim.{Claim as ClaimOf};
ghost use Rattle.claims.specs.declared.claim.Question.{Question as QuestionOf};
ghost use Rattle.claims.specs.Claim.{IsClaimDocument};
ghost use Rattle.claims.specs.declared.verdict.Verdict.{Verdict as VerdictOf};
ghost use Rattle.claims.specs.declared.verdict.Verdict.TheVariants.{Agrees as SaysAgrees};
ghost use Rattle.claims.specs.Judge.{IsJudgeable, IsVerdict, AgreesWithRun};
ghost use Rattle.claims.specs.Right.{IsRightClaim};

/// A claim has exactly one verdict.
pub fn a_claim_has_one_verdict()
    ensures some { (P : ProgramParts) (c : ClaimOf) → (v : VerdictOf) × IsVerdict P c v }
    ensures one { (P : ProgramParts) (c : ClaimOf) (v w : VerdictOf) → IsVerdict P c v → IsVerdict P c w → v ≡ w }
{}

/// The verdict is that a claim agrees exactly if the run by its grants has an end, with the claimed loads, if loads are
/// claimed, and the claimed answer.
pub fn a_claim_agrees_where_its_run_does()
    ensures { (P : ProgramParts) (c : ClaimOf) → IsVerdict P c SaysAgrees ↔ AgreesWithRun P c }
{}

/// The verdict on a claim that `right_claim` gives is that it agrees.
pub fn a_right_claim_agrees()
    ensures { (P : ProgramParts) (q : QuestionOf) (gs : List GrantOf) (c : ClaimOf) → IsRightClaim P q gs c → IsVerdict P c SaysAgrees }
{}

/// The claim of a run log can be judged.
pub fn a_claim_of_a_document_can_be_judged()
    ensures { (bytes : List ℕ) (c : ClaimOf) → IsClaimDocument bytes c → IsJudgeable c }
{}
