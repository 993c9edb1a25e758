ghost use Rattle.std.specs.Prelude.{◌≡◌, ◌≤◌, ◌<◌, Some, length, IfOk, IsErr, OnOk, min};
ghost use Rattle.std.specs.Io.KnownBytes.{ReadConsumes};
ghost use Rattle.dn_base.specs.Faults.{Rose};

use dn_base::{Failed, Source};
use std::marker::Model;

/// Bytes in memory as a source. It gives as many as the caller has room for, and never fails.
#[derive(Drop)]
pub struct SliceSource<'a> {
    left: &'a [u8],
}

impl<'a> Model for SliceSource<'a> {
    ghost use Rattle.std.specs.Prelude.{ℕ, List};

    ghost Value = { List ℕ };

    ghost view = { λ s. s.left.now };
}

impl<'a> SliceSource<'a> {
    /// A source of these bytes.
    pub fn new(bytes: &'a [u8]) -> SliceSource<'a>
        ensures { result ≡ bytes.now }
    {
        SliceSource { left: bytes }
    }
}

impl Source for SliceSource<'_> {
    ghost content = { λ s. Some s };

    ghost faults = { λ _. 0 };

    fn read(&mut self, buf: &mut [u8]) -> Result<usize, Failed> {
        let left = self.left;
        let count = buf.len().min(left.len());
        buf[..count].copy_from_slice(&left[..count]);
        self.left = &left[count..];
        Ok(count)
    }
}
