ghost use Rattle.std.specs.Prelude.{◌≡◌, ◌++◌, flat_map, IfOk, OnOk};
ghost use Rattle.run_report.specs.Grants.{grant_line, grant_lines};

use dn_base::{Grant, Memory};
use std::alloc::Global;
use text_pieces::{push, push_decimal};

#[tactic(auto, unfolding(crate::specs::Grants::grant_line))]
fn push_grant(out: &mut Vec<u8>, grant: Grant) -> Result<(), Memory>
    ensures { OnOk result (out.new.items ≡ out.old.items ++ grant_line grant) }
{
    push(out, b"grant ")?;
    push_decimal(out, grant.phase.0)?;
    push(out, b" ")?;
    push_decimal(out, grant.core.0)?;
    push(out, b" ")?;
    push_decimal(out, grant.lock.0)?;
    push(out, b"\n")
}

pub(crate) fn push_grants(out: &mut Vec<u8>, grants: &[Grant]) -> Result<(), Memory>
    ensures { OnOk result (out.new.items ≡ out.old.items ++ flat_map grant_line grants.now) }
{
    for grant in grants {
        push_grant(out, *grant)?;
    }
    Ok(())
}

/// The grants of locks in their order, a line each: the phase, the core and the lock.
///
/// # Errors
/// `Memory` where there is no room for the text.
#[tactic(auto, unfolding(crate::specs::Grants::grant_lines))]
pub fn grant_text(alloc: Global, grants: &[Grant]) -> Result<Vec<u8>, Memory>
    ensures { IfOk result (λ text. text.items ≡ grant_lines grants.now) }
{
    let mut out = Vec::new(alloc);
    push_grants(&mut out, grants)?;
    Ok(out)
}
