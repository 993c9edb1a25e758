ghost use Rattle.std.specs.Prelude.{◌≡◌, map, flat_map, IfOk, IsPermutation};
ghost use Rattle.std.specs.List.Sorted.{IsSorted};
ghost use Rattle.grant_log.specs.Order.{entry_order};
ghost use Rattle.grant_log.specs.Log.{AreLogs, IsMerge, grants_in};

use dn_base::{Grant, Memory};
use message_net::{Actor, Event, EventKind};
use std::alloc::Global;
use std::cmp::Ordering;

/// An event as the actor that made it notes it.
#[derive(Clone, Copy, Debug, PartialEq, Eq)]
pub struct Stamped {
    /// The stamp of the event. The stamps of one actor rise.
    pub stamp: u64,
    pub actor: Actor,
    pub event: Event,
    pub kind: EventKind,
    /// The lock that the event granted, if it did.
    pub granted: Option<Grant>,
}

/// The order of two entries: by their stamps, and if these are equal by their actors.
fn order(a: &Stamped, b: &Stamped) -> Ordering
    ensures { result ≡ entry_order a.now b.now }
{
    a.stamp.cmp(&b.stamp).then(a.actor.cmp(&b.actor))
}

/// The entries of all logs, one log after the other.
fn gather(alloc: Global, logs: Vec<Vec<Stamped>>) -> Result<Vec<Stamped>, Memory>
    ensures { IfOk result (λ entries. entries.items ≡ flat_map (λ log. log.items) logs.items) }
{
    Ok(logs.into_iter().flatten().collect(alloc)?)
}

/// The entries in their order.
fn in_order(mut entries: Vec<Stamped>) -> Result<Vec<Stamped>, Memory>
    ensures permutation { IfOk result (λ sorted. IsPermutation entries.items sorted.items) }
    ensures sorted { IfOk result (λ sorted. IsSorted entry_order sorted.items) }
{
    entries.sort_by(|a, b| order(a, b))?;
    Ok(entries)
}

/// The entries of all logs, sorted by their stamps, and those with the same stamp by their actors.
///
/// A log has the notes of one actor, with rising stamps. Every actor has at most one log.
///
/// # Errors
/// `Memory` where there is no room for the list.
pub fn merge(alloc: Global, logs: Vec<Vec<Stamped>>) -> Result<Vec<Stamped>, Memory>
    requires { AreLogs (map (λ log. log.items) logs.items) }
    ensures { IfOk result (λ merged. IsMerge (map (λ log. log.items) logs.items) merged.items) }
{
    let merged = in_order(gather(alloc, logs)?)?;
    Ok(merged)
}

/// The grants of locks among the entries, in their order.
///
/// # Errors
/// `Memory` where there is no room for the list.
pub fn grants(alloc: Global, merged: &[Stamped]) -> Result<Vec<Grant>, Memory>
    ensures { IfOk result (λ grants. grants.items ≡ grants_in merged.now) }
{
    Ok(
        merged
            .iter()
            .filter_map(|entry| entry.granted)
            .collect(alloc)?,
    )
}

/// Compiles only if the type may be sent to another thread and shared with it.
fn crosses<T: Send + Sync>(_value: &T) {}

/// An entry may be sent to another thread, and shared with it. Nobody calls this; the check of its body proves it.
pub(crate) fn entry_crosses(entry: &Stamped) {
    crosses(entry);
}
