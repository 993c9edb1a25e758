//! The text of a work of a chosen size, for the machine to run: three phases of four tasks on two regions, a and b.
//!
//! The tasks of the first phase fill a, so that its word i is 3i + 1. Those of the second phase set each word of b to the sum
//! of the same word of a and the next one. Those of the third set each word of a to such a sum of words of b. The first word of
//! a region comes after its last.
#![tactic(auto)]

mod code;
mod declared;
mod pieces;

ghost use Rattle.std.specs.Prelude.{◌≡◌, ◌≤◌, IfOk};
ghost use Rattle.work_gen.specs.Work.{work_of};

use crate::code::{push_adding, push_filling, push_starting};
use crate::declared::push_declared;
use dn_base::Memory;
use std::alloc::Global;

/// The text of the work of a size n from 1 to 128: each region has 64n words, and each task a quarter of them.
///
/// # Errors
/// `Memory` where there is no room for the text.
#[tactic(auto, unfolding(crate::specs::Work::text_for))]
pub fn work(alloc: Global, size: u32) -> Result<Vec<u8>, Memory>
    requires least { 1 ≤ size }
    requires most { size ≤ 128 }
    ensures { IfOk result (λ text. text.items ≡ work_of size) }
{
    let part = 16 * size;
    let words = 64 * size;
    let mut out = Vec::new(alloc);
    push_declared(&mut out, part, words)?;
    push_filling(&mut out, part)?;
    push_starting(&mut out)?;
    push_adding(&mut out, part, words)?;
    Ok(out)
}
