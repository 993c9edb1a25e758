//! What becomes of a word, of a lock and of the barrier controller.
ghost use Rattle.std.specs.Prelude.{◌≡◌, ◌++◌, ◌≤◌, ◌<◌, ◌∷◌, [], length, option_copied, IfOk, OnOk};
ghost use Rattle.run_changes.specs.Changes.{same_content, home_change, same_holder, same_queue, queue_change, arrived_core, arrived_from, barrier_change};

use crate::change::Change;
use crate::look::LockLook;
use crate::parts::{note, note_unless};
use dn_base::{CoreId, LockId, Memory, Sequence, WordId};
use phase_barrier::Keeper;
use queue_lock::LockHome;
use registry_bank::BankWord;
use std::alloc::Global;

fn is_same_content(before: BankWord, after: BankWord) -> bool
    ensures { result ≡ same_content before after }
{
    before == after
}

/// What becomes of a word at its home.
pub(crate) fn note_home(
    out: &mut Vec<Change>,
    word: WordId,
    before: Option<BankWord>,
    after: Option<BankWord>,
) -> Result<(), Memory>
    ensures { OnOk result (out.new.items ≡ out.old.items ++ home_change word before after) }
{
    match (before, after) {
        (Some(before), Some(after)) => note_unless(
            out,
            is_same_content(before, after),
            Change::Home(word, after),
        ),
        _ => Ok(()),
    }
}

fn is_same_holder(before: Option<CoreId>, after: Option<CoreId>) -> bool
    ensures { result ≡ same_holder before after }
{
    before == after
}

/// Whether a lock has the same holder, and as many cores wait for it.
fn is_same_queue(look: &LockLook, home: &LockHome) -> bool
    ensures { result ≡ same_queue look.now home.now }
{
    is_same_holder(look.holder, home.holder()) && look.waiting == home.queue_len()
}

/// The cores that wait for a lock.
fn queue_of(alloc: Global, home: &LockHome) -> Result<Sequence<CoreId>, Memory>
    ensures { IfOk result (λ queue. queue ≡ home.now.queue) }
{
    let mut queue = Sequence::new(alloc);
    let mut index = 0;
    while let Some(core) = home.queued(index) {
        queue.push(core)?;
        index += 1;
    }
    Ok(queue)
}

/// What becomes of a lock that is there.
fn note_lock(
    alloc: Global,
    out: &mut Vec<Change>,
    lock: LockId,
    look: &LockLook,
    home: &LockHome,
) -> Result<(), Memory>
    ensures { OnOk result (out.new.items ≡ out.old.items ++ queue_change lock look.now (Some home.now)) }
{
    let queue = Change::Queue {
        lock,
        holder: home.holder(),
        waiting: queue_of(alloc, home)?,
    };
    note_unless(out, is_same_queue(look, home), queue)?;
    let kept = home.signature();
    note_unless(out, look.kept.is_same(&kept), Change::Signed(lock, kept))
}

/// What becomes of a lock at its home.
pub(crate) fn note_queue(
    alloc: Global,
    out: &mut Vec<Change>,
    lock: LockId,
    look: &LockLook,
    home: Option<&LockHome>,
) -> Result<(), Memory>
    ensures { OnOk result (out.new.items ≡ out.old.items ++ queue_change lock look.now (option_copied home.entry)) }
{
    match home {
        None => Ok(()),
        Some(home) => note_lock(alloc, out, lock, look, home),
    }
}

/// Adds a core, if it has arrived.
fn add_arrived(out: &mut Sequence<CoreId>, core: u32, arrived: bool) -> Result<(), Memory>
    ensures { OnOk result (out.new ≡ out.old ++ arrived_core core arrived) }
{
    if arrived {
        out.push(CoreId(core))?;
    }
    Ok(())
}

/// The cores that have arrived at the barrier.
fn arrived_at(alloc: Global, keeper: &Keeper) -> Result<Sequence<CoreId>, Memory>
    ensures { IfOk result (λ arrived. arrived ≡ arrived_from keeper.now 0 (length keeper.now.arrived)) }
{
    let mut arrived = Sequence::new(alloc);
    for core in 0..keeper.cores() {
        add_arrived(&mut arrived, core, keeper.has_arrived(CoreId(core)))?;
    }
    Ok(arrived)
}

/// What the barrier controller is.
fn barrier_of(alloc: Global, keeper: &Keeper) -> Result<Change, Memory>
    ensures { IfOk result (λ change. change ≡ barrier_change keeper.now) }
{
    Ok(Change::Barrier {
        phase: keeper.phase(),
        bad: keeper.is_bad(),
        arrived: arrived_at(alloc, keeper)?,
    })
}

/// Notes what the barrier controller is.
pub(crate) fn note_barrier(
    alloc: Global,
    out: &mut Vec<Change>,
    keeper: &Keeper,
) -> Result<(), Memory>
    ensures { OnOk result (out.new.items ≡ out.old.items ++ barrier_change keeper.now ∷ []) }
{
    note(out, barrier_of(alloc, keeper)?)
}
