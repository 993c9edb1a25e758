ghost use Rattle.std.specs.Prelude.{◌≡◌, ◌≢◌, ◌++◌, IfOk, OnOk};
ghost use Rattle.claims.specs.declared.claim.ClaimFault.TheVariants.{Memory as NoMemory};
ghost use Rattle.claims.specs.Refusal.{fault_text, refusal_text};

use crate::claim::ClaimFault;
use dn_base::Memory;
use std::alloc::Global;
use text_pieces::{push, push_decimal};

#[tactic(auto, unfolding(crate::specs::Refusal::fault_text))]
fn push_fault(out: &mut Vec<u8>, fault: ClaimFault) -> Result<(), Memory>
    ensures { OnOk result (out.new.items ≡ out.old.items ++ fault_text fault) }
{
    match fault {
        ClaimFault::TooLarge => push(out, b"too-large"),
        ClaimFault::Head => push(out, b"head"),
        ClaimFault::Grant { number } => {
            push(out, b"grant ")?;
            push_decimal(out, number)
        }
        ClaimFault::Loads => push(out, b"loads"),
        ClaimFault::Task { number } => {
            push(out, b"task ")?;
            push_decimal(out, number)
        }
        ClaimFault::Load { task, number } => {
            push(out, b"load ")?;
            push_decimal(out, task)?;
            push(out, b" ")?;
            push_decimal(out, number)
        }
        ClaimFault::Behind => push(out, b"behind"),
        ClaimFault::Memory => push(out, b"memory"),
    }
}

/// The line that says why a claim is refused.
///
/// Out of memory is no refusal: the fault `ClaimFault::Memory` must not be passed.
///
/// # Errors
/// `Memory` if there is no room for the line.
#[tactic(auto, unfolding(crate::specs::Refusal::refusal_text))]
pub fn claim_line(alloc: Global, fault: ClaimFault) -> Result<Vec<u8>, Memory>
    requires { fault ≢ NoMemory }
    ensures { IfOk result (λ line. line.items ≡ refusal_text fault) }
{
    let mut out = Vec::new(alloc);
    push(&mut out, b"refused claim ")?;
    push_fault(&mut out, fault)?;
    push(&mut out, b"\n")?;
    Ok(out)
}
