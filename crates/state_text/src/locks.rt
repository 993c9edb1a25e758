//! The lines of the locks.
ghost use Rattle.std.specs.Prelude.{◌≡◌, ◌++◌, Some, option_copied, OnOk};
ghost use Rattle.machine_rules.specs.State.{lock_at};
ghost use Rattle.state_text.specs.Parts.{free_line, holder_line, holder_line_of, queued_line, queued_line_of, queue_lines, holding_lines, lock_lines_of, lock_lines_at, lock_lines};

use crate::called::push_core;
use crate::signed::Signed;
use crate::signing::{push_lock_name, push_signature};
use crate::tasks::lock_count;
use dn_base::{BankId, CoreId, LockId, Memory, remainder};
use dn_machine::{Machine, a_machine_is_kept};
use queue_lock::LockHome;
use region_table::Program;
use text_pieces::push;

/// A lock at its home.
fn lock_of(machine: &Machine, lock: LockId) -> Option<&LockHome>
    ensures { option_copied result ≡ lock_at machine.now.state lock.0 }
{
    // for the proof alone: there is a bank
    a_machine_is_kept(machine);
    let bank = BankId(remainder(lock.0, machine.shape().banks));
    machine.bank(bank).lock(lock)
}

#[tactic(auto, unfolding(crate::specs::Parts::free_line))]
fn push_free(out: &mut Vec<u8>, program: &Program, lock: LockId) -> Result<(), Memory>
    ensures { OnOk result (out.new.items ≡ out.old.items ++ free_line program.now lock.0) }
{
    push_lock_name(out, program, lock)?;
    push(out, b": free")?;
    push(out, b"\n")
}

#[tactic(auto, unfolding(crate::specs::Parts::holder_line))]
fn push_held_by(
    out: &mut Vec<u8>,
    program: &Program,
    lock: LockId,
    core: CoreId,
) -> Result<(), Memory>
    ensures { OnOk result (out.new.items ≡ out.old.items ++ holder_line program.now lock.0 core.0) }
{
    push_lock_name(out, program, lock)?;
    push(out, b": holder ")?;
    push_core(out, core)?;
    push(out, b"\n")
}

/// Adds which core holds a lock, or that none does.
fn push_holder(
    out: &mut Vec<u8>,
    program: &Program,
    lock: LockId,
    holder: Option<CoreId>,
) -> Result<(), Memory>
    ensures { OnOk result (out.new.items ≡ out.old.items ++ holder_line_of program.now lock.0 holder) }
{
    match holder {
        None => push_free(out, program, lock),
        Some(core) => push_held_by(out, program, lock, core),
    }
}

#[tactic(auto, unfolding(crate::specs::Parts::queued_line))]
fn push_queued(
    out: &mut Vec<u8>,
    program: &Program,
    lock: LockId,
    core: CoreId,
) -> Result<(), Memory>
    ensures { OnOk result (out.new.items ≡ out.old.items ++ queued_line program.now lock.0 core.0) }
{
    push_lock_name(out, program, lock)?;
    push(out, b": queue ")?;
    push_core(out, core)?;
    push(out, b"\n")
}

/// Adds a core that waits for a lock, if there is one.
fn push_if_queued(
    out: &mut Vec<u8>,
    program: &Program,
    lock: LockId,
    core: Option<CoreId>,
) -> Result<(), Memory>
    ensures { OnOk result (out.new.items ≡ out.old.items ++ queued_line_of program.now lock.0 core) }
{
    match core {
        None => Ok(()),
        Some(core) => push_queued(out, program, lock, core),
    }
}

/// Adds the cores that wait for a lock, in the order of its queue.
fn push_queue(
    out: &mut Vec<u8>,
    program: &Program,
    lock: LockId,
    home: &LockHome,
) -> Result<(), Memory>
    ensures { OnOk result (out.new.items ≡ out.old.items ++ queue_lines program.now lock.0 home.now.queue) }
{
    for index in 0..home.queue_len() {
        push_if_queued(out, program, lock, home.queued(index))?;
    }
    Ok(())
}

/// Adds who holds a lock, and who waits for it.
fn push_holding(
    out: &mut Vec<u8>,
    program: &Program,
    lock: LockId,
    home: &LockHome,
) -> Result<(), Memory>
    ensures { OnOk result (out.new.items ≡ out.old.items ++ holding_lines program.now lock.0 home.now) }
{
    push_holder(out, program, lock, home.holder())?;
    push_queue(out, program, lock, home)
}

/// Adds what the home of a lock holds for it.
fn push_home_lines(
    out: &mut Vec<u8>,
    machine: &Machine,
    lock: LockId,
    home: &LockHome,
) -> Result<(), Memory>
    ensures { OnOk result (out.new.items ≡ out.old.items ++ lock_lines_of machine.now.state lock.0 (Some home.now)) }
{
    push_holding(out, machine.program(), lock, home)?;
    push_signature(out, machine, Signed::Lock(lock.0), home.signature(), lock)
}

/// Adds the lines of a lock, if its home has it.
fn push_lock_lines(out: &mut Vec<u8>, machine: &Machine, lock: LockId) -> Result<(), Memory>
    ensures { OnOk result (out.new.items ≡ out.old.items ++ lock_lines_at machine.now.state lock.0) }
{
    match lock_of(machine, lock) {
        None => Ok(()),
        Some(home) => push_home_lines(out, machine, lock, home),
    }
}

/// Adds the lines of all locks.
pub(crate) fn push_locks(out: &mut Vec<u8>, machine: &Machine) -> Result<(), Memory>
    ensures { OnOk result (out.new.items ≡ out.old.items ++ lock_lines machine.now.state) }
{
    for lock in 0..lock_count(machine.program()) {
        push_lock_lines(out, machine, LockId(lock))?;
    }
    Ok(())
}
