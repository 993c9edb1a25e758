ghost use Rattle.std.specs.Prelude.{◌≡◌, ◌++◌, OnOk};
ghost use Rattle.sweep_top.specs.Checksum.{checksum, hashed_from, long_hexadecimal};

use dn_base::Memory;
use text_pieces::{push, to_hexadecimal};

/// The offset basis and the prime of FNV-1a with 64 bits.
const BASIS: u64 = 14_695_981_039_346_656_037;

const PRIME: u64 = 1_099_511_628_211;

/// The checksum of these bytes: FNV-1a with 64 bits.
#[tactic(auto, unfolding(crate::specs::Checksum::checksum))]
pub fn checksum(bytes: &[u8]) -> u64
    ensures { result ≡ checksum bytes.now }
{
    let mut hash = BASIS;
    for byte in bytes {
        hash = (hash ^ u64::from(*byte)).wrapping_mul(PRIME);
    }
    hash
}

/// Appends a number of 64 bits in base 16, with all its sixteen digits.
///
/// # Errors
/// `Memory` where there is no room.
#[tactic(auto, unfolding(crate::specs::Checksum::long_hexadecimal))]
pub(crate) fn push_long_hexadecimal(out: &mut Vec<u8>, number: u64) -> Result<(), Memory>
    ensures { OnOk result (out.new.items ≡ out.old.items ++ long_hexadecimal number) }
{
    push(out, &to_hexadecimal((number >> 32) as u32))?;
    push(out, &to_hexadecimal((number % 0x1_0000_0000) as u32)[2..])
}
