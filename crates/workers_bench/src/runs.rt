//! The same calls of one object by several threads, through a turn and under std's `Mutex`.
ghost use Rattle.std.specs.Prelude.{IfSome};
ghost use Rattle.std.specs.List.{All};
ghost use Rattle.turn_lock.specs.Passes.{IsPassOf};

use crate::limit::{Limit, Made, Pace, Run};
use crate::total::{Noted, Total};
use std::alloc::Global;
use std::rt::Clock;
use std::sync::{Mutex, Wait};
use std::thread;
use std::thread::Threads;
use turn_lock::{Turn, TurnPass};

// How many callers a turn may have.
const MOST_THREADS: u32 = 17;

// A turn of a total of 0, and its passes.
fn start(alloc: Global, threads: u32) -> Option<(Turn<Total>, Vec<TurnPass<Total>>)>
    ensures { IfSome result (λ r. All (IsPassOf r.0) r.1.items) }
{
    if threads == 0 || threads > MOST_THREADS {
        return None;
    }
    let Ok((turn, passes)) = Turn::start(alloc, Total { sum: 0 }, threads) else {
        return None;
    };
    Some((turn, passes))
}

// One call through the turn: how many calls there are then, or None where memory ran out.
fn call_once<R: Wait>(rt: &R, turn: &Turn<Total>, pass: &mut TurnPass<Total>) -> Option<u64>
    requires { IsPassOf turn.now pass.old }
    ensures { IsPassOf turn.now pass.new }
{
    match turn.call(rt, pass, 1, || ()) {
        Ok(_total) => Some(pass.seen()),
        Err(_none) => None,
    }
}

// Calls up to the limit.
fn call_often<R: Wait + Clock>(
    rt: &R,
    turn: &Turn<Total>,
    mut pass: TurnPass<Total>,
    limit: Limit,
) -> Made
    requires { IsPassOf turn.now pass }
{
    let mut pace = Pace::new(limit);
    for _call in 0..limit.calls {
        if pace.is_over(rt) {
            break;
        }
        let Some(seen) = call_once(rt, turn, &mut pass) else {
            break;
        };
        pace.count(seen);
    }
    pace.made()
}

/// What this many threads make through a turn, or None if memory ran out, or there are no threads or more than 17.
pub fn by_turn<R: Threads + Wait + Clock + Sync>(
    rt: &R,
    alloc: Global,
    threads: u32,
    limit: Limit,
) -> Option<Run> {
    let (turn, passes) = start(alloc, threads)?;
    let turn = &turn;
    let made = thread::map_vec(
        rt,
        passes,
        &|pass: TurnPass<Total>| -> Made
            requires { IsPassOf turn.now pass }
        { call_often(rt, turn, pass, limit) },
    );
    Some(Run::of(made.ok()?.as_slice()))
}

// One call under the lock: how many calls there are then, or None where memory ran out.
fn note_once<R: Wait>(rt: &R, noted: &Mutex<Noted>, thread: u32) -> Option<u64> {
    noted.lock(rt).call(thread, 1).ok()
}

// Calls up to the limit.
fn note_often<R: Wait + Clock>(rt: &R, noted: &Mutex<Noted>, thread: u32, limit: Limit) -> Made {
    let mut pace = Pace::new(limit);
    for _call in 0..limit.calls {
        if pace.is_over(rt) {
            break;
        }
        let Some(seen) = note_once(rt, noted, thread) else {
            break;
        };
        pace.count(seen);
    }
    pace.made()
}

/// What this many threads make under a `Mutex`, or None if memory ran out.
pub fn by_mutex<R: Threads + Wait + Clock + Sync>(
    rt: &R,
    alloc: Global,
    threads: u32,
    limit: Limit,
) -> Option<Run> {
    let noted = Mutex::new(Noted::new(alloc).ok()?);
    let shared = &noted;
    let made = thread::map_indices(
        rt,
        alloc,
        threads as usize,
        &|thread| { note_often(rt, shared, u32::try_from(thread).unwrap_or(0), limit) },
    );
    Some(Run::of(made.ok()?.as_slice()))
}
