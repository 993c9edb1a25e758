//! How the tasks of a phase stand, each alone, and whether one of them ends with a lock that another one takes.
ghost use Rattle.std.specs.Prelude.{◌≡◌, ◌<◌, ◌≤◌, ◌&&◌, ℕ};
ghost use Rattle.std.specs.List.{find, list_any, list_all, range_with_len};
ghost use Rattle.std.specs.Option.{option_map};
ghost use Rattle.rv_core.specs.Access.{is_held};
ghost use Rattle.common_outcomes.specs.Phases.{is_control_open, takes_elsewhere};
ghost use Rattle.common_outcomes.specs.Answer.{control_of, held_lock, first_held, shown_or, end_alone, has_ended_well};

use common_outcomes::Open;
use dn_base::{LockId, PhaseId};
use region_table::TaskDecl;
use rv_core::{End, EndShown, TaskEnd, TaskState};
use std::marker::Model;

/// A task alone, as far as it came. Contracts see its summary, with no registers and no words.
#[derive(Drop)]
pub(crate) struct Outline<'a> {
    pub(crate) decl: &'a TaskDecl,
    pub(crate) state: TaskState,
    /// The locks that it has acquired, as bits.
    pub(crate) acquired: u32,
    /// For each lock the locks that it held when it acquired it, as bits.
    pub(crate) over: [u32; 32],
}

impl<'a> Model for Outline<'a> {
    ghost use Rattle.std.specs.Prelude.{[]};
    ghost use Rattle.common_outcomes.specs.Phases.{Summary};

    ghost Value = { Summary };

    ghost view = { λ r. record { decl = r.decl.now; alone = record { state = r.state; kinds = []; cells = []; acquired = r.acquired; over = r.over } } };
}

/// Whether a lock is among these.
pub(crate) fn has_lock(locks: u32, lock: u32) -> bool
    requires { lock < 32 }
    ensures { result ≡ is_held locks lock }
{
    locks & (1 << lock) != 0
}

/// The first task of which control is open, and where.
pub(crate) fn open_control(phase: PhaseId, all: &[Outline<'_>]) -> Option<Open>
    ensures { result ≡ option_map (control_of phase.0) (find is_control_open all.now) }
{
    for outline in all {
        if outline.state.end.is_none() {
            return Some(Open::Control {
                phase,
                core: outline.decl.core,
                pc: outline.state.pc,
            });
        }
    }
    None
}

/// Whether another of these tasks acquires the lock.
fn is_taken_elsewhere(all: &[Outline<'_>], decl: &TaskDecl, lock: u32) -> bool
    requires { lock < 32 }
    ensures { result ≡ list_any (takes_elsewhere decl.now lock) all.now }
{
    for outline in all {
        if outline.decl.core.0 != decl.core.0 && has_lock(outline.acquired, lock) {
            return true;
        }
    }
    false
}

/// Whether the lock is among those that are held, and another of these tasks acquires it.
fn is_wanted(all: &[Outline<'_>], held: u32, decl: &TaskDecl, lock: u32) -> bool
    requires { lock < 32 }
    ensures { result ≡ (is_held held lock && list_any (takes_elsewhere decl.now lock) all.now) }
{
    has_lock(held, lock) && is_taken_elsewhere(all, decl, lock)
}

/// The least lock below `most` that is among those that are held, and that another of these tasks acquires.
fn held_below(all: &[Outline<'_>], held: u32, decl: &TaskDecl, most: u32) -> Option<u32>
    requires { most ≤ 32 }
    ensures { result ≡ find (λ (l : ℕ). is_held held l && list_any (takes_elsewhere decl.now l) all.now) (range_with_len 0 most) }
{
    for lock in 0..most {
        if is_wanted(all, held, decl, lock) {
            return Some(lock);
        }
    }
    None
}

/// The least lock with which the task ended and that another task takes.
fn held_lock(all: &[Outline<'_>], outline: &Outline<'_>) -> Option<u32>
    ensures { result ≡ held_lock all.now outline.now }
{
    held_below(all, outline.state.held, outline.decl, 32)
}

/// The first task that ends with such a lock.
pub(crate) fn first_held(phase: PhaseId, all: &[Outline<'_>]) -> Option<Open>
    ensures { result ≡ first_held phase.0 all.now all.now }
{
    for outline in all {
        if let Some(lock) = held_lock(all, outline) {
            return Some(Open::Held {
                phase,
                core: outline.decl.core,
                lock: LockId(lock),
            });
        }
    }
    None
}

/// How a task is shown.
fn end_shown(end: Option<End>) -> EndShown
    ensures { result ≡ shown_or end }
{
    match end {
        Some(by) => EndShown::from(by),
        None => EndShown::Fuel,
    }
}

/// How a task alone ends.
pub(crate) fn end_of(phase: PhaseId, outline: &Outline<'_>) -> TaskEnd
    ensures { result ≡ end_alone phase.0 outline.now }
{
    TaskEnd {
        phase,
        core: outline.decl.core,
        end: end_shown(outline.state.end),
        retired: outline.state.retired,
    }
}

/// Whether all of these tasks have finished.
pub(crate) fn have_finished(all: &[Outline<'_>]) -> bool
    ensures { result ≡ list_all has_ended_well all.now }
{
    for outline in all {
        if !matches!(outline.state.end, Some(End::Finished)) {
            return false;
        }
    }
    true
}
