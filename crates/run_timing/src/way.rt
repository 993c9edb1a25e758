ghost use Rattle.std.specs.Prelude.{◌≡◌, ◌+◌, ◌<◌, ◌≤◌, ℕ, None, Some, length, slice_get, sum_by, IfOk};
ghost use Rattle.run_timing.specs.Rows.{AreInStep, IsWay, finish_in, ticks_of_link};
ghost use Rattle.run_timing.specs.Ticks.{AreWithinLimits};

use crate::rows::Rows;
use crate::ticks::Ticks;
use crate::timing::Link;
use dn_base::{Memory, Sequence};
use message_net::EventKind;
use std::alloc::Global;

/// The kind of an event.
fn kind_at(kinds: &Sequence<EventKind>, event: u32) -> EventKind
    requires { event < length kinds.now }
    ensures { slice_get kinds.now event ≡ Some result }
{
    kinds.as_slice()[event as usize]
}

/// The link of an event.
fn link_of(rows: &Rows, event: u32) -> Link
    requires within { event < length rows.now.finishes }
    requires kinds { length rows.now.kinds ≡ length rows.now.finishes }
    ensures event { result.event ≡ event }
    ensures finish { result.finish ≡ finish_in rows.now event }
    ensures kind { slice_get rows.now.kinds event ≡ Some result.kind }
{
    Link {
        event,
        kind: kind_at(&rows.kinds, event),
        finish: rows.finishes.as_slice()[event as usize],
    }
}

/// The links that lead to an event, from one that comes after none. There is room for all of them from the start, 16 bytes each.
///
/// # Errors
/// `Memory` where there is no room for them.
pub(crate) fn way_to(alloc: Global, rows: &Rows, last: Option<u32>) -> Result<Vec<Link>, Memory>
    requires rows { AreInStep rows.now }
    requires within { (i : ℕ) → last ≡ Some i → i < length rows.now.finishes }
    ensures { IfOk result (λ links. IsWay rows.now None last links.items) }
{
    let mut links = Vec::with_capacity(alloc, rows.befores.count_to(last))?;
    let mut next = last;
    while let Some(event) = next {
        let link = link_of(rows, event);
        links.push(link)?;
        next = rows.befores.get(event);
    }
    links.reverse();
    Ok(links)
}

/// What is left of a total without the ticks of the links' events.
pub(crate) fn without_events(total: u64, links: &[Link], ticks: &Ticks) -> u64
    requires ticks { AreWithinLimits ticks.now }
    requires most { sum_by (ticks_of_link ticks.now) links.now ≤ total }
    ensures { result + sum_by (ticks_of_link ticks.now) links.now ≡ total }
{
    let mut left = total;
    for link in links {
        left -= ticks.of(link.kind) as u64;
    }
    left
}
