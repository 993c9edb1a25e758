ghost use Rattle.std.specs.Prelude.{◌≡◌, [], ◌∷◌, ◌++◌, IfOk, OnOk};
ghost use Rattle.std.specs.List.{repeat};

use std::alloc::{AllocError, Global};

/// Adds a line with its newline.
pub fn push_line(out: &mut Vec<u8>, line: &str) -> Result<(), AllocError>
    ensures { OnOk result (out.new.items ≡ out.old.items ++ line.now ++ 10 ∷ []) }
{
    out.extend_from_slice(line.as_bytes())?;
    out.push(b'\n')?;
    Ok(())
}

/// Adds copies of a line, with the number of each, from 0, in place of each `@`.
pub fn push_copies(
    alloc: Global,
    out: &mut Vec<u8>,
    count: u32,
    line: &str,
) -> Result<(), AllocError> {
    for number in 0..count {
        let number = number.to_string(alloc)?;
        let line = line.replace(alloc, "@", number.as_str())?;
        push_line(out, line.as_str())?;
    }
    Ok(())
}

/// Adds a line for each grant. A grant is given as its phase, core and lock with points between them.
pub fn push_grants(alloc: Global, out: &mut Vec<u8>, grants: &str) -> Result<(), AllocError> {
    for grant in grants.split_whitespace() {
        let grant = grant.replace(alloc, ".", " ")?;
        out.extend_from_slice(b"grant ")?;
        push_line(out, grant.as_str())?;
    }
    Ok(())
}

/// Copies of these bytes, one after the other.
#[tactic(auto, using(crate::proofs::RepeatLemmas::repeat_more))]
pub fn copies(alloc: Global, bytes: &[u8], count: u32) -> Result<Vec<u8>, AllocError>
    ensures { IfOk result (λ all. all.items ≡ repeat count bytes.now) }
{
    let mut all = Vec::new(alloc);
    for _copy in 0..count {
        all.extend_from_slice(bytes)?;
    }
    Ok(all)
}
