ghost use Rattle.std.specs.Prelude.{◌≡◌, ◌≤◌, ◌<◌, ◌++◌, ◌↔◌, ℕ, List, Option, Some, [], length, min, take, drop, IfOk, IsErr, OnOk, OnErr, Contains};
ghost use Rattle.std.specs.Io.KnownBytes.{ReadConsumes};
ghost use Rattle.dn_base.specs.Faults.{Rose, raised};
ghost use Rattle.dn_base.specs.Memories.{one_more};

use crate::calls::lists;
use crate::failure::{Failed, Memory};
use crate::outside::Source;
use std::alloc::Global;
use std::marker::Model;

/// A text in memory as a source, for tests. It gives a few bytes at a time, and fails at the calls that the test chooses.
#[derive(Drop)]
pub struct TextSource {
    bytes: Vec<u8>,
    place: usize,
    per_read: u32,
    fail_at: Vec<u32>,
    calls: u64,
    faults: u64,
}

impl Model for TextSource {
    ghost use Rattle.std.specs.Prelude.{ℕ, ◌<◌, ◌≤◌, vec_len, drop};
    ghost use Rattle.dn_base.specs.Memories.{GivenText};

    ghost Value = { GivenText };

    ghost view = { λ s. record {
      left = drop s.place s.bytes.items;
      per_read = s.per_read;
      fail_at = s.fail_at.items;
      calls = s.calls;
      faults = s.faults;
    } };

    ghost invariant = { λ s. (s.place ≤ vec_len s.bytes) × (0 < s.per_read) };
}

impl TextSource {
    /// A source of these bytes. A read gives at most `per_read` bytes. The calls whose numbers are in `fail_at`, counted from
    /// 0, fail.
    ///
    /// # Errors
    /// `Memory` if there is no room for the bytes and the list.
    pub fn new(
        alloc: Global,
        bytes: &[u8],
        per_read: u32,
        fail_at: &[u32],
    ) -> Result<TextSource, Memory>
        requires { 0 < per_read }
        ensures { IfOk result (λ source. source ≡ record {
          left = bytes.now;
          per_read = per_read;
          fail_at = fail_at.now;
          calls = 0;
          faults = 0;
        }) }
    {
        Ok(TextSource {
            bytes: Vec::from_slice(alloc, bytes)?,
            place: 0,
            per_read,
            fail_at: Vec::from_slice(alloc, fail_at)?,
            calls: 0,
            faults: 0,
        })
    }

    /// Copies the next bytes to the start of `buf`, and returns their number.
    fn give(&mut self, buf: &mut [u8]) -> usize
        ensures count { result ≡ min self.old.per_read (min (length buf.old) (length self.old.left)) }
        ensures state { self.new ≡ record self.old { left = drop result self.old.left } }
        ensures bytes { self.old.left ≡ take result buf.new ++ self.new.left }
        ensures end { result ≡ 0 → 0 < length buf.old → self.new.left ≡ [] }
    {
        let left = self.bytes.len() - self.place;
        let count = (self.per_read as usize).min(buf.len().min(left));
        let end = self.place + count;
        buf[..count].copy_from_slice(&self.bytes.as_slice()[self.place..end]);
        self.place = end;
        count
    }
}

impl Source for TextSource {
    ghost content = { λ s. Some s.left };

    ghost faults = { λ s. s.faults };

    fn read(&mut self, buf: &mut [u8]) -> Result<usize, Failed>
        ensures within { IfOk result (λ count. count ≤ length buf.old) }
        ensures bytes { ReadConsumes (Some self.old.left) (Some self.new.left) result buf.new }
        ensures counted { self.old.faults ≤ self.new.faults }
        ensures faultless { OnOk result (self.new.faults ≡ self.old.faults) }
        ensures failed { IsErr result → Rose self.old.faults self.new.faults }
        ensures listed { IsErr result ↔ Contains self.old.fail_at self.old.calls }
        ensures amount { IfOk result (λ count.
            count ≡ min self.old.per_read (min (length buf.old) (length self.old.left))) }
        ensures ok { IfOk result (λ count. self.new
            ≡ record self.old { left = drop count self.old.left; calls = one_more self.old.calls }) }
        ensures err { OnErr result (self.new
            ≡ record self.old { calls = one_more self.old.calls; faults = raised self.old.faults }) }
    {
        let call = self.calls;
        self.calls = self.calls.saturating_add(1);
        if lists(self.fail_at.as_slice(), call) {
            self.faults = self.faults.saturating_add(1);
            return Err(Failed);
        }
        Ok(self.give(buf))
    }
}
