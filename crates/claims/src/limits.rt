//! Why the numbers of a claim are within the limits of a run log: by their types.
ghost use Rattle.std.specs.Prelude.{◌≡◌, ◌<◌, All, IfOk, IfErr};
ghost use Rattle.claims.specs.Claim.{IsNumber, IsGrant, IsLoad, most_bytes};

use crate::claim::ClaimTextError;
use dn_base::{Grant, LoadSeen};

/// The number of lines, as a run log tells it in 32 bits.
///
/// # Errors
/// `TooLarge` if there are 2^32 or more: each line has at least a byte, so no document has room for that many.
pub(crate) fn line_count(lines: usize) -> Result<u32, ClaimTextError>
    ensures count { IfOk result (λ count. count ≡ lines) }
    ensures number { IfOk result (λ count. IsNumber lines) }
    ensures large { IfErr result (λ error. most_bytes < lines) }
{
    if lines > u32::MAX as usize {
        return Err(ClaimTextError::TooLarge);
    }
    Ok(lines as u32)
}

fn grant_fits(_grant: Grant)
    ensures { IsGrant _grant }
{}

/// The numbers of these grants are below 2^32.
pub(crate) fn grants_fit(grants: &[Grant])
    ensures { All IsGrant grants.now }
{
    for grant in grants {
        // for the proof alone: a grant that is passed on brings the ranges of its numbers
        grant_fits(*grant);
    }
}

fn load_fits(_load: LoadSeen)
    ensures { IsLoad _load }
{}

/// The numbers of these loads are below 2^32.
pub(crate) fn loads_fit(loads: &[LoadSeen])
    ensures { All IsLoad loads.now }
{
    for load in loads {
        // for the proof alone, as for grants
        load_fits(*load);
    }
}
