ghost use Rattle.std.specs.Prelude.{◌≡◌, ◌++◌, OnOk};

use dn_base::Memory;

/// Adds text at the end.
pub(crate) fn push(out: &mut Vec<u8>, text: &str) -> Result<(), Memory>
    ensures { OnOk result (out.new.items ≡ out.old.items ++ text.now) }
{
    out.extend_from_slice(text.as_bytes())?;
    Ok(())
}
