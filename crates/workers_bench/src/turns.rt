//! Calls of one object and its history that several threads share: through a turn of `turn_lock`, and under std's `Mutex`.
use crate::limit::{Limit, Run};
use crate::runs;
use std::alloc::Global;
use std::rt::Clock;
use std::sync::Wait;
use std::thread::Threads;
use std::time::{Duration, Instant};
use std::{io, thread};

// How many calls are counted in all.
const CALLS: u32 = 8000;

// How many runs are measured each way.
const RUNS: usize = 5;

// How many threads share the object.
const THREADS: [u32; 5] = [1, 2, 4, 8, 17];

// Which of the two is measured.
#[derive(Clone, Copy)]
enum Way {
    Turn,
    Mutex,
}

impl Way {
    fn name(self) -> &'static str {
        match self {
            Way::Turn => "turn",
            Way::Mutex => "mutex",
        }
    }
}

// The word at this place, where it is a number.
fn number_at(words: &[String], place: usize) -> Option<u32> {
    words.get(place)?.as_str().parse::<u32>().ok()
}

// Which of the two the last word names.
fn way_of(words: &[String]) -> Option<Way> {
    let word = words.get(3)?.as_str();
    if word == "turn" {
        Some(Way::Turn)
    } else if word == "mutex" {
        Some(Way::Mutex)
    } else {
        None
    }
}

// How long a run lasts, where the second word says so.
fn time_of(words: &[String]) -> Option<Duration> {
    Some(Duration::from_millis(u64::from(number_at(words, 1)?)))
}

// One run.
fn run<R: Threads + Wait + Clock + Sync>(
    rt: &R,
    alloc: Global,
    way: Way,
    threads: u32,
    limit: Limit,
) -> Option<Run> {
    match way {
        Way::Turn => runs::by_turn(rt, alloc, threads, limit),
        Way::Mutex => runs::by_mutex(rt, alloc, threads, limit),
    }
}

// The end of a run that begins now.
fn until<R: Clock>(rt: &R, time: Duration, is_watched: bool) -> Option<Limit> {
    let now = Instant::now(rt).ok()?;
    Some(Limit {
        calls: u32::MAX,
        end: Some(now.checked_add(time)?),
        is_watched,
    })
}

fn per_second(calls: u64, taken: Duration) -> u64 {
    let micros = taken.as_micros().max(1);
    u64::try_from(u128::from(calls) * 1_000_000 / micros).unwrap_or(u64::MAX)
}

// Calls per second of one run, or None where memory or the clock failed.
fn rate<R: Threads + Wait + Clock + Sync>(
    rt: &R,
    alloc: Global,
    way: Way,
    threads: u32,
    time: Duration,
) -> Option<u64> {
    let start = Instant::now(rt).ok()?;
    let run = run(rt, alloc, way, threads, until(rt, time, false)?)?;
    Some(per_second(run.calls, start.elapsed(rt).ok()?))
}

// The medians of calls per second, of runs taken in turns: through the turn, and under the `Mutex`.
fn medians<R: Threads + Wait + Clock + Sync>(
    rt: &R,
    alloc: Global,
    threads: u32,
    time: Duration,
) -> (u64, u64) {
    let mut turns = [0; RUNS];
    let mut mutexes = [0; RUNS];
    for (turn, mutex) in turns.iter_mut().zip(mutexes.iter_mut()) {
        *turn = rate(rt, alloc, Way::Turn, threads, time).unwrap_or(0);
        *mutex = rate(rt, alloc, Way::Mutex, threads, time).unwrap_or(0);
    }
    turns.sort_unstable();
    mutexes.sort_unstable();
    (turns[RUNS / 2], mutexes[RUNS / 2])
}

fn print_rates<R: Print>(rt: &R, threads: u32, turn: u64, mutex: u64) -> io::Result<()> {
    let hundredths = u128::from(mutex) * 100 / u128::from(turn.max(1));
    let whole = hundredths / 100;
    let rest = hundredths % 100;
    println!(rt;
        "threads {threads}: turn {turn} calls/s, mutex {mutex} calls/s, ratio {whole}.{rest:02}"
    )
}

// One run in which the threads watch their waits, or None where memory or the clock failed.
fn run_with_watch<R: Threads + Wait + Clock + Sync>(
    rt: &R,
    alloc: Global,
    way: Way,
    threads: u32,
    time: Duration,
) -> Option<Run> {
    run(rt, alloc, way, threads, until(rt, time, true)?)
}

// Makes one run in which the threads watch their waits, and prints what is seen of single threads.
fn watch<R: Threads + Wait + Clock + Print + Sync>(
    rt: &R,
    alloc: Global,
    way: Way,
    threads: u32,
    time: Duration,
) -> io::Result<()> {
    match run_with_watch(rt, alloc, way, threads, time) {
        Some(run) => print_shares(rt, way, threads, run),
        None => println!(rt; "memory or the clock failed"),
    }
}

fn print_shares<R: Print>(rt: &R, way: Way, threads: u32, run: Run) -> io::Result<()> {
    let way = way.name();
    let Run {
        calls: _,
        least,
        most,
        wait,
    } = run;
    println!(rt;
        "threads {threads}: {way}: calls of one thread {least} to {most}, longest wait {wait} us"
    )
}

// Measures both ways.
fn measure<R: Threads + Wait + Clock + Print + Sync>(
    rt: &R,
    alloc: Global,
    time: Duration,
) -> io::Result<()> {
    let processors = thread::available_parallelism(rt)?.get();
    println!(rt; "processors {processors}")?;
    for threads in THREADS {
        let (turn, mutex) = medians(rt, alloc, threads, time);
        print_rates(rt, threads, turn, mutex)?;
        watch(rt, alloc, Way::Turn, threads, time)?;
        watch(rt, alloc, Way::Mutex, threads, time)?;
    }
    Ok(())
}

// Makes one run, and prints its calls per second.
fn run_once<R: Threads + Wait + Clock + Print + Sync>(
    rt: &R,
    alloc: Global,
    way: Way,
    threads: u32,
    time: Duration,
) -> io::Result<()> {
    match rate(rt, alloc, way, threads, time) {
        Some(calls) => println!(rt; "threads {threads}: {calls} calls/s"),
        None => println!(rt;
            "the number of threads is not from 1 to 17, or memory or the clock failed"
        ),
    }
}

// This many calls in all, each thread as many as the others.
fn calls_of<R: Threads + Wait + Clock + Sync>(
    rt: &R,
    alloc: Global,
    way: Way,
    threads: u32,
) -> u64 {
    let limit = Limit {
        calls: CALLS / threads.max(1),
        end: None,
        is_watched: false,
    };
    match run(rt, alloc, way, threads, limit) {
        Some(run) => run.calls,
        None => 0,
    }
}

/// Makes a fixed number of calls each way, and prints how many there were.
pub fn count<R: Threads + Wait + Clock + Print + Sync>(rt: &R, alloc: Global) -> io::Result<()> {
    for threads in THREADS {
        let turn = calls_of(rt, alloc, Way::Turn, threads);
        let mutex = calls_of(rt, alloc, Way::Mutex, threads);
        println!(rt; "threads {threads}: turn {turn} calls, mutex {mutex} calls")?;
    }
    Ok(())
}

/// Makes what the words behind the first one ask for: nothing, the fixed number of calls; MILLIS, runs of this many milliseconds
/// each way; MILLIS THREADS turn or MILLIS THREADS mutex, one run.
pub fn bench<R: Threads + Wait + Clock + Print + Sync>(
    rt: &R,
    alloc: Global,
    words: &[String],
) -> io::Result<()> {
    match (time_of(words), number_at(words, 2), way_of(words)) {
        (Some(time), Some(threads), Some(way)) => run_once(rt, alloc, way, threads, time),
        (Some(time), _, _) => measure(rt, alloc, time),
        (None, _, _) => count(rt, alloc),
    }
}
