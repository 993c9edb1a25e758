//! How many rounds a run has, and how many passes each worker makes in them.
ghost use Rattle.std.specs.Prelude.{◌≡◌, ◌<◌, ◌≤◌, false};

use bank_hall::{BankActor, BankIn, Port, PortIn};
use dn_base::{Memory, OpenGate};
use dn_machine::Machine;
use host_workers::{Round, run_round};
use std::alloc::Global;
use std::sync::Wait;
use std::thread::Threads;
use turn_lock::Entry;

/// A round takes no machine that has made this many events.
const MOST_EVENTS: u64 = 3_000_000_000;

/// How many events and rounds there were, and the passes of each worker in all of them.
#[derive(Drop)]
pub struct Tally {
    pub events: u64,
    pub rounds: u32,
    pub passes: [u64; 16],
}

/// The steps of a bank, each of which is one of a pass.
fn steps(history: &[Entry<BankActor>]) -> u64 {
    history
        .iter()
        .filter(|entry| matches!(entry.input, BankIn::Step { .. }))
        .count() as u64
}

/// The takes of a core's port.
fn takes(history: &[Entry<Port>]) -> u64 {
    history
        .iter()
        .filter(|entry| matches!(entry.input, PortIn::Take { .. }))
        .count() as u64
}

/// The passes of the worker that has the bank and the core of its number; 0 where it has neither.
fn passes_of(round: &Round, worker: usize) -> u64 {
    match (round.banks.get(worker), round.ports.get(worker)) {
        (Some(history), _) => steps(history.as_slice()),
        (None, Some(history)) => takes(history.as_slice()),
        (None, None) => 0,
    }
}

impl Tally {
    fn add(&mut self, round: &Round) {
        self.events = round.machine.made();
        self.rounds = self.rounds.saturating_add(1);
        for (worker, passes) in self.passes.iter_mut().enumerate() {
            *passes = passes.saturating_add(passes_of(round, worker));
        }
    }
}

/// Whether no event is enabled, or a round takes the machine no more.
fn is_over(machine: &Machine) -> bool
    ensures { result ≡ false → machine.now.made < 3000000000 }
{
    machine.pick(0).is_none() || machine.made() >= MOST_EVENTS
}

/// One round. The count needs none of its promises.
fn next_round<R: Threads + Wait + Sync>(
    rt: &R,
    alloc: Global,
    machine: Machine,
    workers: u32,
    seed: u32,
) -> Result<Round, Memory>
    requires some { 1 ≤ workers }
    requires few { workers ≤ 16 }
    requires made { machine.made < 3000000000 }
{
    run_round(rt, alloc, machine, workers, seed, &OpenGate)
}

/// Makes one round and counts it. Gives the machine that it leaves.
///
/// # Errors
/// `Memory` where there is no room.
fn count_round<R: Threads + Wait + Sync>(
    rt: &R,
    alloc: Global,
    machine: Machine,
    workers: u32,
    seed: u32,
    tally: &mut Tally,
) -> Result<Machine, Memory>
    requires some { 1 ≤ workers }
    requires few { workers ≤ 16 }
    requires made { machine.made < 3000000000 }
{
    let round = next_round(rt, alloc, machine, workers, seed)?;
    tally.add(&round);
    Ok(round.machine)
}

/// Makes rounds until the run is over, and counts them.
///
/// # Errors
/// `Memory` where there is no room.
fn count_all<R: Threads + Wait + Sync>(
    rt: &R,
    alloc: Global,
    machine: Machine,
    workers: u32,
    seed: u32,
    tally: &mut Tally,
) -> Result<(), Memory>
    requires some { 1 ≤ workers }
    requires few { workers ≤ 16 }
{
    let mut current = machine;
    for round in 0..u32::MAX {
        if is_over(&current) {
            break;
        }
        current = count_round(rt, alloc, current, workers, seed.wrapping_add(round), tally)?;
    }
    Ok(())
}

/// Makes a run in rounds, as `run_workers` does, and counts. Workers that own no bank and no core are not counted.
///
/// # Errors
/// `Memory` where there is no room.
pub fn count_rounds<R: Threads + Wait + Sync>(
    rt: &R,
    alloc: Global,
    machine: Machine,
    workers: u32,
    seed: u32,
) -> Result<Tally, Memory>
    requires some { 1 ≤ workers }
    requires few { workers ≤ 16 }
{
    let mut tally = Tally {
        events: 0,
        rounds: 0,
        passes: [0; 16],
    };
    count_all(rt, alloc, machine, workers, seed, &mut tally)?;
    Ok(tally)
}
