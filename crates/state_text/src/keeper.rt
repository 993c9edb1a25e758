//! The lines of the barrier controller.
ghost use Rattle.std.specs.Prelude.{◌≡◌, ◌++◌, flat_map, length, OnOk};
ghost use Rattle.std.specs.List.{range_with_len};
ghost use Rattle.state_text.specs.Parts.{keeper_text, keeper_phase_line, counted_core_line, counted_line_of, bad_line, keeper_lines};

use crate::called::push_core;
use dn_base::{CoreId, Memory};
use phase_barrier::Keeper;
use text_pieces::{push, push_decimal};

#[tactic(auto, unfolding(crate::specs::Parts::keeper_text))]
fn push_keeper_text(out: &mut Vec<u8>) -> Result<(), Memory>
    ensures { OnOk result (out.new.items ≡ out.old.items ++ keeper_text) }
{
    push(out, b"keeper")
}

#[tactic(auto, unfolding(crate::specs::Parts::keeper_phase_line))]
fn push_keeper_phase(out: &mut Vec<u8>, keeper: &Keeper) -> Result<(), Memory>
    ensures { OnOk result (out.new.items ≡ out.old.items ++ keeper_phase_line keeper.now) }
{
    push_keeper_text(out)?;
    push(out, b" phase ")?;
    push_decimal(out, keeper.phase().0)?;
    push(out, b" of ")?;
    push_decimal(out, keeper.phases())?;
    push(out, b"\n")
}

#[tactic(auto, unfolding(crate::specs::Parts::counted_core_line))]
fn push_counted_core(out: &mut Vec<u8>, core: CoreId) -> Result<(), Memory>
    ensures { OnOk result (out.new.items ≡ out.old.items ++ counted_core_line core.0) }
{
    push_keeper_text(out)?;
    push(out, b" counts ")?;
    push_core(out, core)?;
    push(out, b"\n")
}

/// Adds that a core is counted, if it is.
fn push_if_counted(out: &mut Vec<u8>, keeper: &Keeper, core: CoreId) -> Result<(), Memory>
    ensures { OnOk result (out.new.items ≡ out.old.items ++ counted_line_of keeper.now core.0) }
{
    if keeper.has_arrived(core) {
        push_counted_core(out, core)?;
    }
    Ok(())
}

fn push_counted(out: &mut Vec<u8>, keeper: &Keeper) -> Result<(), Memory>
    ensures { OnOk result (out.new.items ≡ out.old.items ++ flat_map (counted_line_of keeper.now) (range_with_len 0 (length keeper.now.arrived))) }
{
    for core in 0..keeper.cores() {
        push_if_counted(out, keeper, CoreId(core))?;
    }
    Ok(())
}

#[tactic(auto, unfolding(crate::specs::Parts::bad_line))]
fn push_bad(out: &mut Vec<u8>) -> Result<(), Memory>
    ensures { OnOk result (out.new.items ≡ out.old.items ++ bad_line) }
{
    push_keeper_text(out)?;
    push(out, b" counts a bad task")?;
    push(out, b"\n")
}

/// Adds the barrier controller's phase, the cores that it counts, and whether a task of one was bad.
pub(crate) fn push_keeper(out: &mut Vec<u8>, keeper: &Keeper) -> Result<(), Memory>
    ensures { OnOk result (out.new.items ≡ out.old.items ++ keeper_lines keeper.now) }
{
    push_keeper_phase(out, keeper)?;
    push_counted(out, keeper)?;
    if keeper.is_bad() {
        push_bad(out)?;
    }
    Ok(())
}
