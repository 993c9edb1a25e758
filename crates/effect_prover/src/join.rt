//! The least ranges and rows that contain two others. At a head, ranges may only have certain ends, so that a row there grows
//! only a few times.
ghost use Rattle.std.specs.Prelude.{◌≡◌, ◌≤◌, ◌<◌, min, max, Decides};
ghost use Rattle.effect_prover.specs.Range.{IsRange};
ghost use Rattle.effect_prover.specs.Row.{IsRow};
ghost use Rattle.effect_prover.specs.Sweep.{IsEndUpTo, IsEndFrom, IsJoinedRange, IsRowJoined};

use crate::range::Range;
use crate::row::Row;

/// The lesser of two numbers.
pub(crate) fn lesser(a: u32, b: u32) -> u32
    ensures { result ≡ min a b }
{
    if a < b { a } else { b }
}

/// The greater of two numbers.
pub(crate) fn greater(a: u32, b: u32) -> u32
    ensures { result ≡ max a b }
{
    if a < b { b } else { a }
}

/// The greatest signed number.
const GREATEST: u32 = 0x7fff_ffff;

/// The greatest end of a head's range that is at most `n`.
fn end_up_to(argument: u32, n: u32) -> u32
    ensures { IsEndUpTo argument n result }
{
    let fixed = match n {
        u32::MAX => u32::MAX,
        _ if n > GREATEST => GREATEST + 1,
        GREATEST => GREATEST,
        _ => 0,
    };
    if argument <= n {
        greater(argument, fixed)
    } else {
        fixed
    }
}

/// The least end of a head's range that is at least `n`.
fn end_from(argument: u32, n: u32) -> u32
    ensures { IsEndFrom argument n result }
{
    let fixed = match n {
        0 => 0,
        _ if n <= GREATEST => GREATEST,
        _ if n == GREATEST + 1 => GREATEST + 1,
        _ => u32::MAX,
    };
    if n <= argument {
        lesser(argument, fixed)
    } else {
        fixed
    }
}

impl Range {
    /// The least range with the numbers of both; at a head, the least that a head may have.
    pub(crate) fn join(self, given: Range, head: bool, argument: u32) -> Range
        requires old { IsRange self }
        requires given { IsRange given }
        ensures { IsJoinedRange head argument self given result }
    {
        let lo = lesser(self.lo, given.lo);
        let hi = greater(self.hi, given.hi);
        if head && lo != hi {
            Range {
                lo: end_up_to(argument, lo),
                hi: end_from(argument, hi),
            }
        } else {
            Range { lo, hi }
        }
    }
}

impl Row {
    /// The least row that contains both.
    pub(crate) fn join(&self, given: &Row, head: bool, argument: u32) -> Row
        requires old { IsRow self.now }
        requires given { IsRow given.now }
        ensures { IsRowJoined head argument self.now given.now result }
    {
        let mut ranges = self.ranges;
        for number in 0..32 {
            ranges[number] = self.ranges[number].join(given.ranges[number], head, argument);
        }
        Row {
            ranges,
            held: self.held & given.held,
        }
    }

    /// Whether the joined row is this one.
    pub(crate) fn takes_in(&self, given: &Row, head: bool, argument: u32) -> bool
        requires old { IsRow self.now }
        requires given { IsRow given.now }
        ensures { Decides result (IsRowJoined head argument self.now given.now self.now) }
    {
        if self.held & given.held != self.held {
            return false;
        }
        for number in 0..32 {
            let range = self.ranges[number];
            if !range.is_same(range.join(given.ranges[number], head, argument)) {
                return false;
            }
        }
        true
    }
}
