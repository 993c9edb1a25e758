ghost use Rattle.std.specs.Prelude.{◌≡◌, ◌+◌, ◌<◌, ◌||◌, ◌==◌, ℕ, Bool, length, slice_get, Some, IfOk};
ghost use Rattle.run_chart.specs.Marks.{AreMarks};

use dn_base::Memory;
use std::alloc::Global;

/// Marks the event of this number, where it is one of those that the marks are for: the first of them has the number `first`.
fn mark(marks: &mut Vec<bool>, first: u32, number: u32)
    ensures length { length marks.new.items ≡ length marks.old.items }
    ensures items { (i : ℕ) (old : Bool) → slice_get marks.old.items i ≡ Some old → slice_get marks.new.items i ≡ Some ((number == first + i) || old) }
{
    if number >= first {
        let place = (number - first) as usize;
        if place < marks.len() {
            marks[place] = true;
        }
    }
}

/// Which of this many events from the first one on are on the chain. The chain is gone through once, and needn't be in order.
///
/// # Errors
/// `Memory` where there is no room.
pub(crate) fn marks(
    alloc: Global,
    chain: &[u32],
    first: u32,
    count: usize,
) -> Result<Vec<bool>, Memory>
    ensures { IfOk result (λ marks. AreMarks chain.now first count marks.items) }
{
    let mut marks = vec![in alloc; false; count]?;
    for number in chain {
        mark(&mut marks, first, *number);
    }
    Ok(marks)
}
