ghost use Rattle.std.specs.Prelude.{◌≡◌, Some};

use explain_top::{ReadError, Texts};
use std::alloc::Global;
use std::marker::Model;

/// One text in memory, which every name names.
#[derive(Drop)]
pub(crate) struct HeldText<'a> {
    bytes: &'a [u8],
}

impl<'a> Model for HeldText<'a> {
    ghost use Rattle.std.specs.Prelude.{ℕ, List};

    ghost Value = { List ℕ };

    ghost view = { λ s. s.bytes.now };
}

impl<'a> HeldText<'a> {
    pub(crate) fn new(bytes: &'a [u8]) -> HeldText<'a>
        ensures { result ≡ bytes.now }
    {
        HeldText { bytes }
    }
}

impl Texts for HeldText<'_> {
    ghost text = { λ s _. Some s };

    ghost faults = { λ _. 0 };

    fn read(&mut self, alloc: Global, _name: &str, most: usize) -> Result<Vec<u8>, ReadError> {
        let bytes = self.bytes;
        let count = bytes.len().min(most);
        Ok(Vec::from_slice(alloc, &bytes[..count])?)
    }
}
