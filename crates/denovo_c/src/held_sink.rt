ghost use Rattle.std.specs.Prelude.{◌≡◌, ◌≤◌, ◌<◌, ◌++◌, Some, true, [], length, IfOk, IsErr, OnOk};
ghost use Rattle.std.specs.Io.KnownBytes.{Keeps, WriteAppends};
ghost use Rattle.dn_base.specs.Faults.{Rose};
ghost use Rattle.dn_base.specs.Flushes.{Flushes, WriteUnflushes};

use dn_base::{Failed, Sink};
use std::alloc::Global;
use std::marker::Model;

/// A sink that holds all that it took. A write fails if there is no room for its bytes.
#[derive(Drop)]
pub struct HeldSink {
    bytes: Vec<u8>,
    flushed: bool,
    faults: u64,
}

impl Model for HeldSink {
    ghost use Rattle.denovo_c.specs.Held.{HeldBytes};

    ghost Value = { HeldBytes };

    ghost view = { λ s. record { bytes = s.bytes.items; flushed = s.flushed; faults = s.faults } };
}

impl HeldSink {
    /// A sink that took nothing yet.
    pub fn new(alloc: Global) -> HeldSink
        ensures { result ≡ record { bytes = []; flushed = true; faults = 0 } }
    {
        HeldSink {
            bytes: Vec::new(alloc),
            flushed: true,
            faults: 0,
        }
    }

    /// The bytes that it took.
    pub fn bytes(&self) -> &[u8]
        ensures { result.now ≡ self.now.bytes }
    {
        self.bytes.as_slice()
    }
}

impl Sink for HeldSink {
    ghost content = { λ s. Some s.bytes };

    ghost flushed = { λ s. Some s.flushed };

    ghost faults = { λ s. s.faults };

    fn write(&mut self, buf: &[u8]) -> Result<usize, Failed> {
        if self.bytes.extend_from_slice(buf).is_err() {
            self.faults = self.faults.saturating_add(1);
            return Err(Failed);
        }
        if !buf.is_empty() {
            self.flushed = false;
        }
        Ok(buf.len())
    }

    fn flush(&mut self) -> Result<(), Failed> {
        self.flushed = true;
        Ok(())
    }
}
