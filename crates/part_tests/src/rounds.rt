//! First rounds of machines. The tests use none of the promises of a round, so `round_of` hands none of them on.
ghost use Rattle.std.specs.Prelude.{◌≡◌, ◌≤◌};

use crate::call_texts::{BANKS, LOCKED_COUNTER, STORE_FIVE, events_of_store_five, machine_of};
use bank_hall::{BankActor, BankIn};
use dn_base::{BankId, CoreId, Gate, Memory, OpenGate, PhaseId, WordId};
use dn_machine::Machine;
use grant_log::Stamped;
use host_workers::{Round, run_round};
use message_net::Event;
use rv_core::{EndShown, TaskEnd};
use std::alloc::Global;
use std::sync::Wait;
use std::sync::atomic::{AtomicU32, Ordering};
use std::thread::Threads;
use turn_lock::Entry;

const WORKERS: u32 = 4;

/// The first round of a machine.
fn first_round<R: Threads + Wait + Sync, G: Gate + Sync>(
    rt: &R,
    alloc: Global,
    machine: Machine,
    workers: u32,
    gate: &G,
) -> Result<Round, Memory>
    requires made { machine.made ≡ 0 }
    requires some { 1 ≤ workers }
    requires few { workers ≤ 16 }
{
    run_round(rt, alloc, machine, workers, 1, gate)
}

/// The first round of a text's machine.
fn round_of<R: Threads + Wait + Sync, G: Gate + Sync>(
    rt: &R,
    alloc: Global,
    text: &[u8],
    workers: u32,
    gate: &G,
) -> Result<Round, Memory>
    requires some { 1 ≤ workers }
    requires few { workers ≤ 16 }
{
    let machine = machine_of(alloc, text)?;
    first_round(rt, alloc, machine, workers, gate)
}

/// What a round left: what was noted, the tasks that ended, how many events were made, whether one is enabled, and the first
/// word.
#[derive(Drop)]
struct Left {
    merged: Vec<Stamped>,
    ends: Vec<TaskEnd>,
    made: u64,
    pick: Option<Event>,
    word: u32,
}

/// The round of `STORE_FIVE` by one worker. A test that kept the round itself would take much longer to prove.
fn round_of_one<R: Threads + Wait + Sync>(rt: &R, alloc: Global) -> Result<Left, Memory> {
    let Round {
        merged,
        ends,
        machine,
        banks: _,
        ports: _,
        keeper: _,
    } = round_of(rt, alloc, STORE_FIVE, 1, &OpenGate)?;
    Ok(Left {
        merged,
        ends,
        made: machine.made(),
        pick: machine.pick(0),
        word: machine.word(WordId(0)),
    })
}

/// How many banks the round of `LOCKED_COUNTER` by four workers has, and what this gate of it finds wrong there.
fn round_at<R: Threads + Wait + Sync>(
    rt: &R,
    alloc: Global,
    gate: &Counting,
) -> Result<(usize, Option<(u32, u32)>), Memory> {
    let round = round_of(rt, alloc, LOCKED_COUNTER, WORKERS, gate)?;
    Ok((round.banks.len(), gate.wrong(&round)))
}

/// The same with a new gate.
fn round_of_four<R: Threads + Wait + Sync>(
    rt: &R,
    alloc: Global,
) -> Result<(usize, Option<(u32, u32)>), Memory> {
    let gate = Counting::new(alloc)?;
    round_at(rt, alloc, &gate)
}

/// Counts its calls for each worker and bank, those of worker 0 first.
#[derive(Drop)]
struct Counting {
    calls: Vec<AtomicU32>,
}

/// The place of a worker and a bank in the counts.
fn place(worker: u32, bank: u32) -> usize {
    worker as usize * BANKS as usize + bank as usize
}

impl Counting {
    fn new(alloc: Global) -> Result<Counting, Memory> {
        let mut calls = Vec::new(alloc);
        for _pair in 0..WORKERS * BANKS {
            calls.push(AtomicU32::new(0))?;
        }
        Ok(Counting { calls })
    }

    fn counted(&self, worker: u32, bank: u32) -> u32 {
        match self.calls.get(place(worker, bank)) {
            Some(calls) => calls.load(Ordering::SeqCst),
            None => 0,
        }
    }

    /// The first worker and bank for which the calls aren't as many as the steps, or for which there are some though the bank is
    /// another worker's, or none though it is its own.
    fn wrong(&self, round: &Round) -> Option<(u32, u32)> {
        for (bank, history) in (0..BANKS).zip(round.banks.iter()) {
            for worker in 0..WORKERS {
                let counted = self.counted(worker, bank);
                let steps = steps_of(worker, history.as_slice());
                if counted != steps || (counted > 0) != (worker == bank) {
                    return Some((worker, bank));
                }
            }
        }
        None
    }
}

impl Gate for Counting {
    fn at(&self, worker: u32, bank: BankId) {
        if let Some(calls) = self.calls.get(place(worker, bank.0)) {
            calls.fetch_add(1, Ordering::SeqCst);
        }
    }
}

/// How many steps a worker made of the bank with this history.
fn steps_of(worker: u32, history: &[Entry<BankActor>]) -> u32 {
    let mut steps: u32 = 0;
    for entry in history {
        if entry.pass == worker && matches!(entry.input, BankIn::Step { .. }) {
            steps = steps.saturating_add(1);
        }
    }
    steps
}

/// Whether the round of `STORE_FIVE` left all its events and the end of its task.
fn has_all_events(left: &Left) -> bool {
    let end = TaskEnd {
        phase: PhaseId(0),
        core: CoreId(0),
        end: EndShown::Finished,
        retired: 5,
    };
    left.merged.as_slice() == events_of_store_five().as_slice()
        && left.ends.as_slice() == [end].as_slice()
}

/// With four workers the gate is called once for each step of a bank. One worker makes the run in one round.
#[test]
fn rounds_are_made_by_one_worker_and_by_four(rt: HostRuntime) -> Result<(), Memory> {
    let alloc = rt.alloc();
    assert_eq!(rt; round_of_four(&rt, alloc)?, (4, None));
    let left = round_of_one(&rt, alloc)?;
    assert!(rt; has_all_events(&left));
    assert_eq!(rt; (left.made, left.pick, left.word), (10, None, 5));
    Ok(())
}
