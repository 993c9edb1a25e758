//! Theorems of the definitions, for proofs about claims.
ghost use Rattle.std.specs.Prelude.{◌≡◌, ℕ, List};
ghost use Rattle.claims.specs.declared.claim.Claim.{Claim as ClaimOf};
ghost use Rattle.claims.specs.declared.claim.ClaimFault.{ClaimFault as FaultOf};
ghost use Rattle.claims.specs.Claim.{IsClaimDocument};
ghost use Rattle.claims.specs.Faults.{HasFault};

/// Bytes are the run log of at most one claim.
pub fn a_document_is_of_one_claim()
    ensures { (bytes : List ℕ) (c d : ClaimOf) → IsClaimDocument bytes c → IsClaimDocument bytes d → c ≡ d }
{}

/// Bytes have at most one fault, and none if they are a claim.
pub fn bytes_have_one_fault()
    ensures one { (bytes : List ℕ) (f g : FaultOf) → HasFault bytes f → HasFault bytes g → f ≡ g }
    ensures none { (bytes : List ℕ) (c : ClaimOf) (f : FaultOf) → IsClaimDocument bytes c → HasFault bytes f → ⊥ }
{}
