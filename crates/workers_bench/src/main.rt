//! Benches of workers: how long the run of a text by several workers takes and how many rounds and passes such a run has; and how long
//! calls of one object take that several threads share.
//!
//! The first word of the command is the number of workers, from 1 to 16, and the text comes from standard input. The program
//! prints how many events the run has; with the word `time` also the microseconds from the machine to the run's record, and with
//! the word `rounds` in their place the rounds, and the passes of each worker. With neither it also makes a fixed number of calls
//! through a turn and under std's `Mutex`, by 1, 2, 4, 8 and 17 threads, and prints how many there were.
//!
//! With the first word `turns` no text is read. With a second word, MILLIS, each run of calls lasts this many milliseconds, and the
//! program prints calls per second for 1, 2, 4, 8 and 17 threads, the medians of several runs taken in turns, and how many times as
//! long as under a `Mutex` a call takes through a turn; then, of one more run each way, in which each thread looks at the clock at
//! each call, the fewest and the most calls that one thread made, and the longest time from one call of a thread to its next. With
//! MILLIS THREADS turn or MILLIS THREADS mutex, it makes one run of one of the two, so that its processor time can be seen.
#![tactic(auto)]

ghost use Rattle.std.specs.Prelude.{◌≡◌, ◌≤◌};

mod limit;
mod machine;
mod rounds;
mod runs;
mod total;
mod turns;

use crate::machine::machine_of;
use crate::rounds::{Tally, count_rounds};
use dn_base::{Memory, OpenGate};
use dn_machine::{Machine, RunRecord};
use host_workers::run_workers;
use std::alloc::Global;
use std::rt::{Clock, Env};
use std::sync::Wait;
use std::thread::Threads;
use std::time::Instant;
use std::{env, io};

/// The seed of all runs.
const SEED: u32 = 1;

/// The arguments, without the program's name.
fn words(rt: &(impl Env + AllocGlobal)) -> io::Result<Vec<String>> {
    let mut words = Vec::new(rt.alloc());
    for word in env::args(rt)?.skip(1) {
        words.push(word)?;
    }
    Ok(words)
}

/// The run of a machine. What is promised of it is of no use here.
fn run<R: Threads + Wait + Sync>(
    rt: &R,
    alloc: Global,
    machine: Machine,
    workers: u32,
) -> Result<RunRecord, Memory>
    requires some { 1 ≤ workers }
    requires few { workers ≤ 16 }
    requires made { machine.made ≡ 0 }
{
    run_workers(rt, alloc, machine, workers, SEED, &OpenGate)
}

/// How many events the run of a machine has.
fn events_of<R: Threads + Wait + Sync>(
    rt: &R,
    alloc: Global,
    machine: Machine,
    workers: u32,
) -> Result<usize, Memory>
    requires some { 1 ≤ workers }
    requires few { workers ≤ 16 }
    requires made { machine.made ≡ 0 }
{
    Ok(run(rt, alloc, machine, workers)?.events.len())
}

/// Runs a machine, and prints how many events there were.
fn run_only<R: Threads + Wait + Print + Sync>(
    rt: &R,
    alloc: Global,
    machine: Machine,
    workers: u32,
) -> io::Result<()>
    requires some { 1 ≤ workers }
    requires few { workers ≤ 16 }
    requires made { machine.made ≡ 0 }
{
    let Ok(events) = events_of(rt, alloc, machine, workers) else {
        return println!(rt; "there was no memory");
    };
    println!(rt; "events {events}")
}

/// Runs a machine, and prints how many events there were and how long it took.
fn time<R: Threads + Wait + Clock + Print + Sync>(
    rt: &R,
    alloc: Global,
    machine: Machine,
    workers: u32,
) -> io::Result<()>
    requires some { 1 ≤ workers }
    requires few { workers ≤ 16 }
    requires made { machine.made ≡ 0 }
{
    let begun = Instant::now(rt)?;
    let Ok(record) = run(rt, alloc, machine, workers) else {
        return println!(rt; "there was no memory");
    };
    let elapsed = begun.elapsed(rt);
    let events = record.events.len();
    // for the prover alone: one call drops the record, in place of the drops of all its parts at each exit
    drop(record);
    let micros = elapsed?.as_micros();
    println!(rt; "events {events} micros {micros}")
}

/// Runs a machine, and prints how many events, rounds and passes there were.
fn count<R: Threads + Wait + Print + Sync>(
    rt: &R,
    alloc: Global,
    machine: Machine,
    workers: u32,
) -> io::Result<()>
    requires some { 1 ≤ workers }
    requires few { workers ≤ 16 }
{
    let Ok(tally) = count_rounds(rt, alloc, machine, workers, SEED) else {
        return println!(rt; "there was no memory");
    };
    print_tally(rt, &tally, workers)
}

/// Prints how many events, rounds and passes of this many workers there were.
fn print_tally<R: Print>(rt: &R, tally: &Tally, workers: u32) -> io::Result<()> {
    let events = tally.events;
    let rounds = tally.rounds;
    print!(rt; "events {events} rounds {rounds} passes")?;
    for (_worker, many) in (0..workers).zip(tally.passes.iter()) {
        print!(rt; " {many}")?;
    }
    println!(rt; "")
}

/// The number of workers that the first word asks for, 1 where it is no number.
fn workers_of(words: &[String]) -> u32
    ensures { (1 ≤ result) × (result ≤ 16) }
{
    let asked = match words.first() {
        Some(word) => word.as_str().parse::<u32>().unwrap_or(1),
        None => 1,
    };
    asked.max(1).min(16)
}

/// What is measured besides the events.
#[derive(Clone, Copy)]
enum Measure {
    Nothing,
    Time,
    Rounds,
}

/// What the second word asks for.
fn measure_of(words: &[String]) -> Measure {
    let Some(word) = words.get(1) else {
        return Measure::Nothing;
    };
    if word.as_str() == "rounds" {
        Measure::Rounds
    } else {
        Measure::Time
    }
}

/// Runs a machine by workers, and prints what is asked for.
fn bench_run<R: Threads + Wait + Clock + Print + Sync>(
    rt: &R,
    alloc: Global,
    machine: Machine,
    words: &[String],
) -> io::Result<()>
    requires made { machine.made ≡ 0 }
{
    let workers = workers_of(words);
    match measure_of(words) {
        Measure::Rounds => count(rt, alloc, machine, workers),
        Measure::Time => time(rt, alloc, machine, workers),
        Measure::Nothing => {
            run_only(rt, alloc, machine, workers)?;
            turns::count(rt, alloc)
        }
    }
}

/// Whether the words ask for calls through a turn in place of a run by workers.
fn asks_for_turns(words: &[String]) -> bool {
    match words.first() {
        Some(word) => word.as_str() == "turns",
        None => false,
    }
}

fn main(rt: HostRuntime) -> io::Result<()> {
    let alloc = rt.alloc();
    let words = words(&rt)?;
    if asks_for_turns(words.as_slice()) {
        return turns::bench(&rt, alloc, words.as_slice());
    }
    let text = io::read_to_string(alloc, rt.reader())?;
    match machine_of(alloc, text.as_bytes()) {
        Some(machine) => bench_run(&rt, alloc, machine, words.as_slice()),
        None => println!(rt; "the text has no machine, or there was no memory"),
    }
}
