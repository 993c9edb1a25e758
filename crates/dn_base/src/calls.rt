ghost use Rattle.std.specs.Prelude.{◌↔◌, IsTrue, Contains};

/// Whether the number of this call is in the list.
pub(crate) fn lists(numbers: &[u32], call: u64) -> bool
    ensures { IsTrue result ↔ Contains numbers.now call }
{
    numbers.iter().any(|number| u64::from(*number) == call)
}
