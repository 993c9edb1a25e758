ghost use Rattle.std.specs.Prelude.{◌≡◌, ◌≤◌, ◌<◌, ◌+◌, ◌-◌, ◌++◌, ◌↔◌, ◌⊎◌, ℕ, Bool, true, false, List, Option, Some, [], length, if◌then◌else◌, ◌==◌, min, take, IfOk, IsErr, OnOk, OnErr, Contains};
ghost use Rattle.std.specs.Io.KnownBytes.{Keeps, WriteAppends};
ghost use Rattle.dn_base.specs.Faults.{Rose, raised};
ghost use Rattle.dn_base.specs.Flushes.{Flushes, WriteUnflushes};
ghost use Rattle.dn_base.specs.Memories.{one_more};

use crate::calls::lists;
use crate::failure::{Failed, Memory};
use crate::outside::Sink;
use std::alloc::Global;
use std::marker::Model;

/// A sink in memory, for tests. It has a fixed room, takes a few bytes at a time, and fails at the calls that the test chooses.
#[derive(Drop)]
pub struct VecSink {
    bytes: Vec<u8>,
    flushed: bool,
    room: u32,
    per_write: u32,
    fail_at: Vec<u32>,
    calls: u64,
    faults: u64,
}

impl Model for VecSink {
    ghost use Rattle.std.specs.Prelude.{ℕ, ◌<◌, ◌≤◌, vec_len, vec_capacity};
    ghost use Rattle.dn_base.specs.Memories.{TakenBytes};

    ghost Value = { TakenBytes };

    ghost view = { λ s. record {
      held = s.bytes.items;
      flushed = s.flushed;
      room = s.room;
      per_write = s.per_write;
      fail_at = s.fail_at.items;
      calls = s.calls;
      faults = s.faults;
    } };

    ghost invariant = { λ s. (vec_len s.bytes ≤ s.room) × (s.room ≤ vec_capacity s.bytes) × (0 < s.per_write) };
}

impl VecSink {
    /// A sink with room for `room` bytes, which are allocated now. A write takes at most `per_write` bytes. The calls whose
    /// numbers are in `fail_at` fail; writes and flushes are counted together, from 0.
    ///
    /// # Errors
    /// `Memory` if there is no room for the bytes and the list.
    pub fn new(alloc: Global, room: u32, per_write: u32, fail_at: &[u32]) -> Result<VecSink, Memory>
        requires { 0 < per_write }
        ensures { IfOk result (λ sink. sink ≡ record {
          held = [];
          flushed = true;
          room = room;
          per_write = per_write;
          fail_at = fail_at.now;
          calls = 0;
          faults = 0;
        }) }
    {
        Ok(VecSink {
            bytes: Vec::with_capacity(alloc, room as usize)?,
            flushed: true,
            room,
            per_write,
            fail_at: Vec::from_slice(alloc, fail_at)?,
            calls: 0,
            faults: 0,
        })
    }

    /// The bytes that were taken.
    pub fn bytes(&self) -> &[u8]
        ensures { result.now ≡ self.now.held }
    {
        self.bytes.as_slice()
    }

    /// Counts a call. It is an error if the call is one of those that fail, which counts as a fault.
    fn count_call(&mut self) -> Result<(), Failed>
        ensures counted { self.old.faults ≤ self.new.faults }
        ensures failed { IsErr result → Rose self.old.faults self.new.faults }
        ensures listed { IsErr result ↔ Contains self.old.fail_at self.old.calls }
        ensures ok { OnOk result (self.new ≡ record self.old { calls = one_more self.old.calls }) }
        ensures err { OnErr result (self.new
            ≡ record self.old { calls = one_more self.old.calls; faults = raised self.old.faults }) }
    {
        let call = self.calls;
        self.calls = self.calls.saturating_add(1);
        if lists(self.fail_at.as_slice(), call) {
            self.faults = self.faults.saturating_add(1);
            return Err(Failed);
        }
        Ok(())
    }

    /// Appends these bytes, for which there is room. If there are any, the sink isn't flushed then.
    fn append(&mut self, bytes: &[u8])
        requires { length self.old.held + length bytes.now ≤ self.old.room }
        ensures { self.new ≡ record self.old {
          held = self.old.held ++ bytes.now;
          flushed = if length bytes.now == 0 then self.old.flushed else false;
        } }
    {
        self.bytes.extend_from_slice(bytes).unwrap();
        if !bytes.is_empty() {
            self.flushed = false;
        }
    }
}

impl Sink for VecSink {
    ghost content = { λ s. Some s.held };

    ghost flushed = { λ s. Some s.flushed };

    ghost faults = { λ s. s.faults };

    fn write(&mut self, buf: &[u8]) -> Result<usize, Failed>
        ensures within { IfOk result (λ count. count ≤ length buf.now) }
        ensures some { IfOk result (λ count. 0 < length buf.now → 0 < count) }
        ensures bytes { WriteAppends (Some self.old.held) (Some self.new.held) result buf.now }
        ensures handed_on { WriteUnflushes (Some self.old.flushed) (Some self.new.flushed) result }
        ensures counted { self.old.faults ≤ self.new.faults }
        ensures faultless { OnOk result (self.new.faults ≡ self.old.faults) }
        ensures failed { IsErr result → Rose self.old.faults self.new.faults }
        ensures listed { IsErr result ↔ (Contains self.old.fail_at self.old.calls
            ⊎ ((self.old.room ≤ length self.old.held) × (0 < length buf.now))) }
        ensures amount { IfOk result (λ count. count
            ≡ min self.old.per_write (min (length buf.now) (self.old.room - length self.old.held))) }
        ensures ok { IfOk result (λ count. self.new ≡ record self.old {
          held = self.old.held ++ take count buf.now;
          flushed = if count == 0 then self.old.flushed else false;
          calls = one_more self.old.calls;
        }) }
        ensures err { OnErr result (self.new
            ≡ record self.old { calls = one_more self.old.calls; faults = raised self.old.faults }) }
    {
        self.count_call()?;
        let left = self.room as usize - self.bytes.len();
        if left == 0 && !buf.is_empty() {
            self.faults = self.faults.saturating_add(1);
            return Err(Failed);
        }
        let count = (self.per_write as usize).min(buf.len().min(left));
        self.append(&buf[..count]);
        Ok(count)
    }

    fn flush(&mut self) -> Result<(), Failed>
        ensures bytes { Keeps (Some self.old.held) (Some self.new.held) }
        ensures handed_on { Flushes (Some self.old.flushed) (Some self.new.flushed) result }
        ensures counted { self.old.faults ≤ self.new.faults }
        ensures faultless { OnOk result (self.new.faults ≡ self.old.faults) }
        ensures failed { IsErr result → Rose self.old.faults self.new.faults }
        ensures listed { IsErr result ↔ Contains self.old.fail_at self.old.calls }
        ensures ok { OnOk result (self.new ≡ record self.old { flushed = true; calls = one_more self.old.calls }) }
        ensures err { OnErr result (self.new
            ≡ record self.old { calls = one_more self.old.calls; faults = raised self.old.faults }) }
    {
        self.count_call()?;
        self.flushed = true;
        Ok(())
    }
}
