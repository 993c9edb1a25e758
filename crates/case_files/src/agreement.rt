ghost use Rattle.std.specs.Prelude.{◌↔◌, ◌≤◌, length, IsTrue};
ghost use Rattle.case_files.specs.Standing.{BeginsLine, StandIn};

use dn_base::Sequence;

/// Whether a line begins after the first bytes.
fn begins_a_line(bytes: &[u8], place: usize) -> bool
    requires { place ≤ length bytes.now }
    ensures { IsTrue result ↔ BeginsLine bytes.now place }
{
    place == 0 || bytes[place - 1] == b'\n'
}

/// Whether the parts stand in the bytes: the first at the start, the last at the end, and any lines between them.
pub fn stand_in(parts: &[Sequence<u8>], bytes: &[u8]) -> bool
    ensures { IsTrue result ↔ StandIn parts.now bytes.now }
{
    let Some((first, others)) = parts.split_first() else {
        return bytes.is_empty();
    };
    if others.is_empty() {
        return bytes == first.as_slice();
    }
    if bytes.len() < first.len() {
        return false;
    }
    let (front, rest) = bytes.split_at(first.len());
    if front != first.as_slice() {
        return false;
    }
    for skipped in 0..rest.len() + 1 {
        if begins_a_line(rest, skipped) && stand_in(others, rest.split_at(skipped).1) {
            return true;
        }
    }
    false
}
