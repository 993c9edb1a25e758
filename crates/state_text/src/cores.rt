//! The lines of a core.
ghost use Rattle.std.specs.Prelude.{◌≡◌, ◌++◌, OnOk};
ghost use Rattle.state_text.specs.Cores.{phase_line, reading_line, filled_line, locking_line, wait_lines, arrived_line, halted_line, mark_lines, core_lines};

use crate::called::{push_core, push_data_word};
use crate::entries::push_entries;
use crate::tasks::{push_held, push_task};
use dn_base::{CoreId, LockId, Memory, WordId};
use region_table::Program;
use registration_protocol::{Node, NodeWait};
use std::alloc::Global;
use text_pieces::{push, push_decimal};
use text_places::{Places, push_lock};

#[tactic(auto, unfolding(crate::specs::Cores::phase_line))]
fn push_phase(out: &mut Vec<u8>, node: &Node) -> Result<(), Memory>
    ensures { OnOk result (out.new.items ≡ out.old.items ++ phase_line node.now) }
{
    push_core(out, node.core())?;
    push(out, b" phase ")?;
    push_decimal(out, node.phase().0)?;
    push(out, b"\n")
}

#[tactic(auto, unfolding(crate::specs::Cores::reading_line))]
fn push_reading(
    out: &mut Vec<u8>,
    program: &Program,
    core: CoreId,
    word: WordId,
) -> Result<(), Memory>
    ensures { OnOk result (out.new.items ≡ out.old.items ++ reading_line program.now core.0 word.0) }
{
    push_core(out, core)?;
    push(out, b" waits for ")?;
    push_data_word(out, program, word)?;
    push(out, b"\n")
}

#[tactic(auto, unfolding(crate::specs::Cores::filled_line))]
fn push_filled(
    out: &mut Vec<u8>,
    program: &Program,
    core: CoreId,
    word: WordId,
) -> Result<(), Memory>
    ensures { OnOk result (out.new.items ≡ out.old.items ++ filled_line program.now core.0 word.0) }
{
    push_core(out, core)?;
    push(out, b" has the value of ")?;
    push_data_word(out, program, word)?;
    push(out, b"\n")
}

#[tactic(auto, unfolding(crate::specs::Cores::locking_line))]
fn push_locking(
    out: &mut Vec<u8>,
    program: &Program,
    core: CoreId,
    lock: LockId,
) -> Result<(), Memory>
    ensures { OnOk result (out.new.items ≡ out.old.items ++ locking_line program.now core.0 lock.0) }
{
    push_core(out, core)?;
    push(out, b" waits for ")?;
    push_lock(out, program.locks.as_slice(), lock.0 as usize)?;
    push(out, b"\n")
}

/// Adds what a core waits for, if it waits.
fn push_wait(
    out: &mut Vec<u8>,
    program: &Program,
    core: CoreId,
    wait: NodeWait,
) -> Result<(), Memory>
    ensures { OnOk result (out.new.items ≡ out.old.items ++ wait_lines program.now core.0 wait) }
{
    match wait {
        NodeWait::None => Ok(()),
        NodeWait::Reading(word) => push_reading(out, program, core, word),
        NodeWait::Filled(word) => push_filled(out, program, core, word),
        NodeWait::Locking(lock) => push_locking(out, program, core, lock),
    }
}

#[tactic(auto, unfolding(crate::specs::Cores::arrived_line))]
fn push_arrived(out: &mut Vec<u8>, core: CoreId) -> Result<(), Memory>
    ensures { OnOk result (out.new.items ≡ out.old.items ++ arrived_line core.0) }
{
    push_core(out, core)?;
    push(out, b" has arrived")?;
    push(out, b"\n")
}

#[tactic(auto, unfolding(crate::specs::Cores::halted_line))]
fn push_halted(out: &mut Vec<u8>, core: CoreId) -> Result<(), Memory>
    ensures { OnOk result (out.new.items ≡ out.old.items ++ halted_line core.0) }
{
    push_core(out, core)?;
    push(out, b" is halted")?;
    push(out, b"\n")
}

/// Adds whether a core has arrived, and whether it is halted.
fn push_marks(out: &mut Vec<u8>, node: &Node) -> Result<(), Memory>
    ensures { OnOk result (out.new.items ≡ out.old.items ++ mark_lines node.now) }
{
    if node.has_arrived() {
        push_arrived(out, node.core())?;
    }
    if node.has_halted() {
        push_halted(out, node.core())?;
    }
    Ok(())
}

/// Adds the lines of a core.
pub(crate) fn push_core_lines(
    alloc: Global,
    out: &mut Vec<u8>,
    program: &Program,
    places: &Places,
    node: &Node,
) -> Result<(), Memory>
    ensures { OnOk result (out.new.items ≡ out.old.items ++ core_lines program.now places.now node.now) }
{
    push_phase(out, node)?;
    push_task(out, program, places, node)?;
    push_wait(out, program, node.core(), node.wait())?;
    push_held(out, program, node)?;
    push_marks(out, node)?;
    push_entries(alloc, out, program, node)
}
