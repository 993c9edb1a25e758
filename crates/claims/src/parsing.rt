ghost use Rattle.std.specs.Prelude.{◌≡◌, ◌≢◌, ◌⊎◌, ◌↔◌, ◌<◌, length, None, Ok, Err, IfOk, IfErr};
ghost use Rattle.claims.specs.declared.claim.Claim.{Claim as ClaimOf};
ghost use Rattle.claims.specs.declared.claim.ClaimFault.{ClaimFault as FaultOf};
ghost use Rattle.claims.specs.declared.claim.ClaimFault.TheVariants.{TooLarge as AreTooMany, Head as NoHead, Memory as NoMemory};
ghost use Rattle.claims.specs.Claim.{IsClaimDocument, most_bytes};
ghost use Rattle.claims.specs.Faults.{HasFault};
ghost use Rattle.claims.specs.Rows.{IsLoadsPart, FailsPart};

use crate::claim::{Claim, ClaimFault};
use crate::front::{push_front, question_of};
use crate::rows::{loads_head, push_tasks};
use dn_base::Sequence;
use flat_machine::TaskLoads;
use std::alloc::Global;

/// Puts what some bytes say of loads into `loads`, which is None before. The answer is what follows that.
///
/// # Errors
/// `Loads`, `Task` or `Load` if a line isn't complete and of its form, and `Memory`.
fn put_loads<'a>(
    alloc: Global,
    loads: &mut Option<Sequence<TaskLoads>>,
    bytes: &'a [u8],
) -> Result<&'a [u8], ClaimFault>
    requires { loads.old ≡ None }
    ensures ok { IfOk result (λ rest. IsLoadsPart bytes.now loads.new rest.now) }
    ensures err { IfErr result (FailsPart bytes.now) }
{
    let Some((count, rest)) = loads_head(bytes) else {
        return Err(ClaimFault::Loads);
    };
    let Some(count) = count else {
        return Ok(rest);
    };
    let mut tasks = Sequence::new(alloc);
    let rest = push_tasks(alloc, &mut tasks, count, rest)?;
    *loads = Some(tasks);
    Ok(rest)
}

/// What a run log claims, or the fault of the bytes.
fn read(alloc: Global, bytes: &[u8]) -> Result<Claim, ClaimFault>
    ensures ok { IfOk result (IsClaimDocument bytes.now) }
    ensures err { IfErr result (λ f. f ≢ NoMemory → HasFault bytes.now f) }
    ensures large { most_bytes < length bytes.now → result ≡ Err AreTooMany }
    ensures head { HasFault bytes.now NoHead → result ≡ Err NoHead }
{
    let mut grants = Sequence::new(alloc);
    let front = push_front(&mut grants, bytes)?;
    let mut loads = None;
    let answer = put_loads(alloc, &mut loads, front.rest)?;
    let question = question_of(alloc, front)?;
    let answer = Vec::from_slice(alloc, answer)?;
    Ok(Claim {
        question,
        grants,
        loads,
        answer: Sequence::from_vec(answer),
    })
}

/// The claim that a run log tells.
///
/// The memory is proportional to the number of bytes, whatever numbers they tell.
///
/// # Errors
/// `TooLarge`, `Head`, `Grant`, `Loads`, `Task` or `Load` exactly if that is the fault of the bytes, and `Memory` if there is
/// no room. `TooLarge` and `Head` are found before any memory is taken.
pub fn read_claim(alloc: Global, bytes: &[u8]) -> Result<Claim, ClaimFault>
    ensures ok { IfOk result (IsClaimDocument bytes.now) }
    ensures err { IfErr result (λ f. f ≢ NoMemory → HasFault bytes.now f) }
    ensures read { (c : ClaimOf) → IsClaimDocument bytes.now c → (result ≡ Ok c) ⊎ (result ≡ Err NoMemory) }
    ensures refused { (f : FaultOf) → HasFault bytes.now f → (result ≡ Err f) ⊎ (result ≡ Err NoMemory) }
    ensures large { (result ≡ Err AreTooMany) ↔ (most_bytes < length bytes.now) }
    ensures head { (result ≡ Err NoHead) ↔ HasFault bytes.now NoHead }
{
    read(alloc, bytes)
}
