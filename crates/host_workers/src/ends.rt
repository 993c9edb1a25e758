//! How the tasks had ended that arrived at the barrier in a round, in the order of the merged list.
ghost use Rattle.std.specs.Prelude.{◌≡◌, ◌≢◌, ◌<◌, ℕ, filter_map, length, map, slice_get, slice_index, List, None, IfOk};
ghost use Rattle.host_workers.specs.Steps.{Done};
ghost use Rattle.host_workers.specs.Rounds.{end_of_done};
ghost use Rattle.host_workers.specs.Ends.{AreEndsOf, left_of, end_at_stamp, left_behind};

use crate::EndSeen;
use dn_base::Memory;
use grant_log::Stamped;
use message_net::Actor;
use rv_core::TaskEnd;
use std::alloc::Global;

/// The next end seen of a core, where `done` says how many of each core's ends were used.
fn next_seen(ends: &[Vec<EndSeen>], done: &[usize], core: usize) -> Option<EndSeen>
    requires { length done.now ≡ length ends.now }
    ensures next { result ≡ slice_get (left_of (map (λ e. e.items) ends.now) done.now core) 0 }
    ensures place { result ≢ None → core < length done.now }
    ensures few { result ≢ None → slice_index done.now core < 18446744073709551615 }
{
    match ends.get(core) {
        Some(seen) => match seen.as_slice().get(done[core]) {
            Some(end) => Some(*end),
            None => None,
        },
        None => None,
    }
}

/// The end that the worker of a core saw at the event of this actor with this stamp, if the actor is a core and its next end is
/// that one. That end counts as used then.
fn take_end(actor: Actor, stamp: u64, ends: &[Vec<EndSeen>], done: &mut [usize]) -> Option<TaskEnd>
    requires { length done.old ≡ length ends.now }
    ensures end { result ≡ end_at_stamp actor stamp (left_of (map (λ e. e.items) ends.now) done.old) }
    ensures left { (core : ℕ) → left_of (map (λ e. e.items) ends.now) done.new core
        ≡ left_behind actor stamp (left_of (map (λ e. e.items) ends.now) done.old) core }
    ensures long { length done.new ≡ length done.old }
{
    let Actor::Core(core) = actor else {
        return None;
    };
    let place = core.0 as usize;
    match next_seen(ends, done, place) {
        Some(seen) => {
            if seen.stamp == stamp {
                done[place] += 1;
                Some(seen.end)
            } else {
                None
            }
        }
        None => None,
    }
}

/// The ends of the tasks that arrived, in the order of the merged list. `ends` has the ends seen of each core, in the order of
/// the core's events.
///
/// # Errors
/// `Memory` where there is no room.
pub(crate) fn ends_in(
    alloc: Global,
    merged: &[Stamped],
    ends: &[Vec<EndSeen>],
) -> Result<Vec<TaskEnd>, Memory>
    requires { (told : List Done) × AreEndsOf merged.now (map (λ e. e.items) ends.now) told }
    ensures { IfOk result (λ out. (told : List Done) → AreEndsOf merged.now (map (λ e. e.items) ends.now) told
        → out.items ≡ filter_map end_of_done told) }
{
    let mut done = vec![in alloc; 0_usize; ends.len()]?;
    let mut out = Vec::new(alloc);
    for entry in merged {
        if let Some(end) = take_end(entry.actor, entry.stamp, ends, done.as_mut_slice()) {
            out.push(end)?;
        }
    }
    Ok(out)
}
