//! Turns whose object adds its input to a total, and answers the total.
ghost use Rattle.std.specs.Prelude.{◌≡◌, ℕ, ◌+◌, ◌%◌, ◌^◌, IfOk, IfSome};
ghost use Rattle.turn_lock.specs.Passes.{IsPassOf};

use dn_base::Memory;
use std::alloc::Global;
use std::sync::atomic::{AtomicU64, Ordering};
use std::sync::{Arc, Wait};
use std::thread::{Threads, join};
use turn_lock::{Entry, Object, Turn, TurnPass};

/// Adds its input to a total, and answers the total.
#[derive(Drop)]
struct Total {
    sum: u64,
    /// How many steps were made, where everybody sees it.
    steps: Arc<AtomicU64, Global>,
    /// How many calls asked for memory, and which of them finds none.
    asked: u32,
    refused: u32,
}

impl Object for Total {
    type In = u32;

    type Out = u64;

    ghost Content = { ℕ };

    ghost content = { λ t. t.sum };

    ghost spare = { λ t. 1 };

    ghost answer = { λ sum n. (sum + n) % 2 ^ 64 };

    ghost next = { λ sum n. (sum + n) % 2 ^ 64 };

    fn reserve(&mut self) -> Result<(), Memory> {
        self.asked = self.asked.wrapping_add(1);
        if self.asked == self.refused {
            return Err(Memory);
        }
        Ok(())
    }

    fn step(&mut self, input: u32) -> u64 {
        self.steps.fetch_add(1, Ordering::SeqCst);
        self.sum = self.sum.wrapping_add(u64::from(input));
        self.sum
    }
}

/// A turn and its two passes.
type Started = (Turn<Total>, TurnPass<Total>, TurnPass<Total>);

/// Shares a total of 0, which finds no memory at this call, among two callers.
fn start(alloc: Global, steps: &Arc<AtomicU64, Global>, refused: u32) -> Result<Started, Memory>
    ensures passes { IfOk result (λ r. IsPassOf r.0 r.1 × IsPassOf r.0 r.2) }
    ensures count { IfOk result (λ r. r.0.passes ≡ 2) }
{
    let total = Total {
        sum: 0,
        steps: Arc::try_clone(steps)?,
        asked: 0,
        refused,
    };
    let (turn, mut passes) = Turn::start(alloc, total, 2)?;
    match (passes.pop(), passes.pop()) {
        (Some(one), Some(zero)) => Ok((turn, zero, one)),
        _ => Err(Memory),
    }
}

/// A call: its pass, its input and its answer.
type Call = (u32, u32, u64);

/// The calls of a history.
type Calls = Vec<Call>;

fn calls_in(alloc: Global, history: &[Entry<Total>]) -> Result<Calls, Memory> {
    let mut calls = Vec::new(alloc);
    for entry in history {
        calls.push((entry.pass, entry.input, entry.output))?;
    }
    Ok(calls)
}

/// Ends the sharing: the total, and the calls.
fn close(
    alloc: Global,
    turn: Turn<Total>,
    zero: TurnPass<Total>,
    one: TurnPass<Total>,
) -> Result<(u64, Calls), Memory>
    requires passes { IsPassOf turn zero × IsPassOf turn one }
    requires count { turn.passes ≡ 2 }
{
    match turn.close(vec![in alloc; zero, one]?) {
        Ok((total, history)) => Ok((total.sum, calls_in(alloc, history.as_slice())?)),
        Err((memory, _turn, _passes)) => Err(memory),
    }
}

/// What a call was answered, and how many steps had been made when it had the object in hand; None where it hadn't.
type Answered = (Result<u64, (Memory, u32)>, Option<u64>);

fn call<R: Wait>(
    rt: &R,
    turn: &Turn<Total>,
    pass: &mut TurnPass<Total>,
    input: u32,
    steps: &AtomicU64,
) -> Answered
    requires { IsPassOf turn.now pass.old }
    ensures { IsPassOf turn.now pass.new }
{
    let mut seen = None;
    let answer = turn.call(rt, pass, input, || {
        seen = Some(steps.load(Ordering::SeqCst));
    });
    (answer, seen)
}

/// What four calls are answered, the second of which is made with the second pass.
fn four_calls<R: Wait>(
    rt: &R,
    turn: &Turn<Total>,
    zero: &mut TurnPass<Total>,
    one: &mut TurnPass<Total>,
    steps: &AtomicU64,
) -> [Answered; 4]
    requires { IsPassOf turn.now zero.old × IsPassOf turn.now one.old }
    ensures { IsPassOf turn.now zero.new × IsPassOf turn.now one.new }
{
    [
        call(rt, turn, zero, 2, steps),
        call(rt, turn, one, 5, steps),
        call(rt, turn, zero, 3, steps),
        call(rt, turn, zero, 3, steps),
    ]
}

/// What the four calls are answered, how long a history each pass has seen then, the total, and the calls in the history.
type FourCalls = ([Answered; 4], (u64, u64), u64, Calls);

fn shared_by_two<R: Wait>(
    rt: &R,
    alloc: Global,
    steps: &Arc<AtomicU64, Global>,
) -> Result<FourCalls, Memory> {
    let (turn, mut zero, mut one) = start(alloc, steps, 3)?;
    let answers = four_calls(rt, &turn, &mut zero, &mut one, steps);
    let seen = (zero.seen(), one.seen());
    let (sum, calls) = close(alloc, turn, zero, one)?;
    Ok((answers, seen, sum, calls))
}

// What is handed in is called before the object's step, so it sees the steps of the calls before. That it is called once the
// object is in hand, and so within the turn, the refused call shows: it doesn't come there.
#[test]
fn calls_of_two_passes_stand_in_one_history(rt: HostRuntime) -> Result<(), Memory> {
    let alloc = rt.alloc();
    let steps = Arc::new(alloc, AtomicU64::new(0))?;
    let (answers, seen, sum, calls) = shared_by_two(&rt, alloc, &steps)?;
    let wanted = [
        (Ok(2), Some(0)),
        (Ok(7), Some(1)),
        (Err((Memory, 3)), None),
        (Ok(10), Some(2)),
    ];
    assert!(rt; answers == wanted);
    assert_eq!(rt; (seen, sum), ((3, 2), 10));
    assert!(rt; calls.as_slice() == [(0, 2, 2), (1, 5, 7), (0, 3, 10)].as_slice());
    Ok(())
}

/// Calls with 1. Whether there was memory.
fn call_once<R: Wait>(rt: &R, turn: &Turn<Total>, pass: &mut TurnPass<Total>) -> bool
    requires { IsPassOf turn.now pass.old }
    ensures { IsPassOf turn.now pass.new }
{
    turn.call(rt, pass, 1, || ()).is_ok()
}

/// Calls so often; a call that finds no memory is made once more.
fn call_often<R: Wait>(
    rt: &R,
    turn: &Turn<Total>,
    mut pass: TurnPass<Total>,
    calls: u32,
) -> Option<TurnPass<Total>>
    requires { IsPassOf turn.now pass }
    ensures { IfSome result (λ p. IsPassOf turn.now p) }
{
    for _call in 0..calls {
        if !call_once(rt, turn, &mut pass) && !call_once(rt, turn, &mut pass) {
            return None;
        }
    }
    Some(pass)
}

/// Each of two threads calls with a pass of its own.
fn call_in_two<R: Threads + Wait + Sync>(
    rt: &R,
    turn: &Turn<Total>,
    zero: TurnPass<Total>,
    one: TurnPass<Total>,
    calls: u32,
) -> Option<(TurnPass<Total>, TurnPass<Total>)>
    requires { IsPassOf turn.now zero × IsPassOf turn.now one }
    ensures { IfSome result (λ r. IsPassOf turn.now r.0 × IsPassOf turn.now r.1) }
{
    let (zero, one) = join(
        rt,
        || -> Option<TurnPass<Total>>
            requires { IsPassOf turn.now zero }
            ensures { IfSome result (λ p. IsPassOf turn.entry.now p) }
        { call_often(rt, turn, zero, calls) },
        || -> Option<TurnPass<Total>>
            requires { IsPassOf turn.now one }
            ensures { IfSome result (λ p. IsPassOf turn.entry.now p) }
        { call_often(rt, turn, one, calls) },
    );
    Some((zero?, one?))
}

/// The total after this many calls of each of two threads, and how many calls the history has of each pass.
type Totals = (u64, usize, usize);

/// How many calls there are of the pass with this number.
fn calls_of(calls: &[Call], pass: u32) -> usize {
    calls.iter().filter(|call| call.0 == pass).count()
}

fn totals_once<R: Threads + Wait + Sync>(
    rt: &R,
    alloc: Global,
    each: u32,
) -> Result<Totals, Memory> {
    let steps = Arc::new(alloc, AtomicU64::new(0))?;
    let (turn, zero, one) = start(alloc, &steps, 0)?;
    let Some((zero, one)) = call_in_two(rt, &turn, zero, one, each) else {
        return Err(Memory);
    };
    let (sum, calls) = close(alloc, turn, zero, one)?;
    let calls = calls.as_slice();
    Ok((sum, calls_of(calls, 0), calls_of(calls, 1)))
}

/// The same. A turn that found no memory to start is started once more.
fn totals<R: Threads + Wait + Sync>(rt: &R, alloc: Global, each: u32) -> Result<Totals, Memory> {
    match totals_once(rt, alloc, each) {
        Err(Memory) => totals_once(rt, alloc, each),
        totals => totals,
    }
}

// A history has room for 4,096 calls from the start, so that of the second pair of threads grows. Where there is no memory for
// that the call is refused, leaves no trace, and is made once more.
#[test]
fn two_threads_call_with_a_pass_each(rt: HostRuntime) -> Result<(), Memory> {
    let alloc = rt.alloc();
    for (each, wanted) in [(100, (200, 100, 100)), (2_100, (4_200, 2_100, 2_100))] {
        assert_eq!(rt; totals(&rt, alloc, each)?, wanted);
    }
    Ok(())
}
