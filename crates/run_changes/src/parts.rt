//! What becomes of the parts of a core's node.
ghost use Rattle.std.specs.Prelude.{◌≡◌, ◌++◌, ◌<◌, ◌≤◌, ◌∷◌, [], length, slice_index_or, OnOk};
ghost use Rattle.rv_core.specs.Access.{is_held};
ghost use Rattle.run_changes.specs.Changes.{change_unless, same_entry, entry_change, change_before, entry_changes, retire_change, end_change, task_change, locks_held, same_wait, wait_change, hold_change, sign_change, lock_changes, flag_change};

use crate::change::Change;
use crate::look::EntryBefore;
use dn_base::{LockId, Memory, WordId};
use registration_protocol::{Node, NodeWait};
use rv_core::{End, TaskState};
use word_cache::Entry;
use write_signature::Signature;

/// Adds a change at the end.
pub(crate) fn note(out: &mut Vec<Change>, change: Change) -> Result<(), Memory>
    ensures { OnOk result (out.new.items ≡ out.old.items ++ change ∷ []) }
{
    out.push(change)?;
    Ok(())
}

/// Adds a change where a test fails.
pub(crate) fn note_unless(out: &mut Vec<Change>, same: bool, change: Change) -> Result<(), Memory>
    ensures { OnOk result (out.new.items ≡ out.old.items ++ change_unless same change) }
{
    if same { Ok(()) } else { note(out, change) }
}

fn is_same_entry(before: Entry, after: Entry) -> bool
    ensures { result ≡ same_entry before after }
{
    before == after
}

/// What becomes of the entry of a word.
pub(crate) fn note_entry(
    out: &mut Vec<Change>,
    word: WordId,
    before: Option<Entry>,
    after: Option<Entry>,
) -> Result<(), Memory>
    ensures { OnOk result (out.new.items ≡ out.old.items ++ entry_change word before after) }
{
    match (before, after) {
        (None, None) => Ok(()),
        (Some(_), None) => note(out, Change::Gone(word)),
        (None, Some(after)) => note(out, Change::Holds(word, after)),
        (Some(before), Some(after)) => note_unless(
            out,
            is_same_entry(before, after),
            Change::Holds(word, after),
        ),
    }
}

/// What becomes of the entries of these words.
pub(crate) fn note_entries(
    out: &mut Vec<Change>,
    node: &Node,
    befores: &[EntryBefore],
) -> Result<(), Memory>
    ensures { OnOk result (out.new.items ≡ out.old.items ++ entry_changes node.now befores.now) }
{
    for before in befores {
        note_entry(out, before.word, before.entry, node.entry(before.word))?;
    }
    Ok(())
}

/// What becomes of a task that hadn't ended or had.
fn note_end(
    out: &mut Vec<Change>,
    before: &TaskState,
    after: &TaskState,
    end: Option<End>,
) -> Result<(), Memory>
    ensures { OnOk result (out.new.items ≡ out.old.items ++ end_change before.now after.now end) }
{
    match end {
        None => note_unless(
            out,
            before.retired == after.retired,
            Change::Retired { pc: after.pc },
        ),
        Some(by) => note_unless(out, before.end.is_some(), Change::Ended(by)),
    }
}

/// What becomes of the task.
pub(crate) fn note_task(
    out: &mut Vec<Change>,
    before: Option<TaskState>,
    after: Option<TaskState>,
) -> Result<(), Memory>
    ensures { OnOk result (out.new.items ≡ out.old.items ++ task_change before after) }
{
    match (before, after) {
        (Some(before), Some(after)) => note_end(out, &before, &after, after.end),
        _ => Ok(()),
    }
}

/// The locks that a task holds, as bits; none where there is no task.
pub(crate) fn locks_held(task: Option<TaskState>) -> u32
    ensures { result ≡ locks_held task }
{
    match task {
        None => 0,
        Some(task) => task.held,
    }
}

fn is_same_wait(before: NodeWait, after: NodeWait) -> bool
    ensures { result ≡ same_wait before after }
{
    before == after
}

/// What becomes of the wait.
pub(crate) fn note_wait(
    out: &mut Vec<Change>,
    before: NodeWait,
    after: NodeWait,
) -> Result<(), Memory>
    ensures { OnOk result (out.new.items ≡ out.old.items ++ wait_change before after) }
{
    note_unless(out, is_same_wait(before, after), Change::Waits(after))
}

/// Whether a lock is among those that are held.
fn is_held(held: u32, lock: u32) -> bool
    requires { lock < 32 }
    ensures { result ≡ is_held held lock }
{
    held & (1 << lock) != 0
}

/// Whether a lock is held now or isn't any more.
fn note_hold(out: &mut Vec<Change>, lock: u32, before: bool, after: bool) -> Result<(), Memory>
    ensures { OnOk result (out.new.items ≡ out.old.items ++ hold_change lock before after) }
{
    match (before, after) {
        (false, true) => note(out, Change::Takes(LockId(lock))),
        (true, false) => note(out, Change::Gives(LockId(lock))),
        _ => Ok(()),
    }
}

/// What becomes of the signature for a lock.
fn note_signature(
    out: &mut Vec<Change>,
    lock: u32,
    before: &Signature,
    after: &Signature,
) -> Result<(), Memory>
    ensures { OnOk result (out.new.items ≡ out.old.items ++ sign_change lock before.now after.now) }
{
    note_unless(
        out,
        before.is_same(after),
        Change::Signed(LockId(lock), *after),
    )
}

/// The signature that a lock had before; the one that it has after where there was none.
fn signature_at(before: &[Signature], lock: usize, after: &Signature) -> Signature
    ensures { result ≡ slice_index_or before.now lock after.now }
{
    match before.get(lock) {
        Some(signature) => *signature,
        None => *after,
    }
}

/// What becomes of a lock, by whether it is held before and after, and by the signatures before and after.
fn note_lock(
    out: &mut Vec<Change>,
    lock: u32,
    held: u32,
    holds: u32,
    before: &[Signature],
    after: &Signature,
) -> Result<(), Memory>
    requires { lock < 32 }
    ensures { OnOk result (out.new.items ≡ out.old.items ++ (hold_change lock (is_held held lock) (is_held holds lock) ++ sign_change lock (slice_index_or before.now lock after.now) after.now)) }
{
    note_hold(out, lock, is_held(held, lock), is_held(holds, lock))?;
    note_signature(
        out,
        lock,
        &signature_at(before, lock as usize, after),
        after,
    )
}

/// What becomes of each lock, by the locks that are held before and after, and by the signatures before and after. There are at most
/// 32.
pub(crate) fn note_locks(
    out: &mut Vec<Change>,
    held: u32,
    holds: u32,
    before: &[Signature],
    after: &[Signature],
) -> Result<(), Memory>
    requires { length after.now ≤ 32 }
    ensures { OnOk result (out.new.items ≡ out.old.items ++ lock_changes held holds before.now 0 after.now) }
{
    let mut lock = 0;
    for signature in after {
        note_lock(out, lock, held, holds, before, signature)?;
        lock += 1;
    }
    Ok(())
}

/// Notes a change where a flag is set that wasn't.
pub(crate) fn note_flag(
    out: &mut Vec<Change>,
    before: bool,
    after: bool,
    change: Change,
) -> Result<(), Memory>
    ensures { OnOk result (out.new.items ≡ out.old.items ++ flag_change before after change) }
{
    if !before && after {
        note(out, change)
    } else {
        Ok(())
    }
}
