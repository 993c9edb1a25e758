//! A whole run of a machine by workers, in rounds.
ghost use Rattle.std.specs.Prelude.{◌≡◌, ◌≢◌, ◌+◌, ◌^◌, ◌%◌, ◌<◌, ◌≤◌, true, List, length, None, IfOk, OnOk};
ghost use Rattle.message_net.specs.declared.event.Event.{Event as EventOf};
ghost use Rattle.message_net.specs.declared.event.EventKind.{EventKind};
ghost use Rattle.machine_rules.specs.State.{initial_state};
ghost use Rattle.machine_rules.specs.Next.{enabled};
ghost use Rattle.machine_rules.specs.Runs.{IsOver};
ghost use Rattle.dn_machine.specs.Run.{IsCoherentRun};
ghost use Rattle.host_workers.specs.RoundOf.{IsTallied, HasNotedRound, IsRunSoFar, IsMadeByWorkers};

use crate::noting::{note_last, note_round};
use crate::round::{Round, run_round};
use dn_base::{Gate, MOST_EVENTS, Memory};
use dn_machine::{Log, Machine, RunRecord, a_machine_is_kept};
use rv_core::Ending;
use std::alloc::{AllocError, Global};
use std::sync::Wait;
use std::thread::Threads;

/// The largest block that makes the C library's allocator keep what is freed, up to twice its size (glibc, mallopt(3)): 32 MiB
/// less 8 KiB.
const KEPT_BYTES: usize = 33_546_240;

/// Makes the allocator keep freed memory for the next round; `run_workers` says why.
fn keep_freed_memory(alloc: Global) {
    let block: Result<Vec<u8>, AllocError> = Vec::with_capacity(alloc, KEPT_BYTES);
    drop(block);
}

/// The seed of the next round: it is 1 greater, modulo 2^32.
fn seed_after(seed: u32) -> u32
    ensures { result ≡ (seed + 1) % 2 ^ 32 }
{
    seed.wrapping_add(1)
}

/// Notes a round, and gives the machine that it left.
///
/// # Errors
/// `Memory` if there is no room; the log can't be used any more then.
fn finish_round(log: &mut Log, round: Round) -> Result<Machine, Memory>
    requires counted { (kinds : List EventKind) × IsTallied kinds log.old }
    requires few { length log.old.events + length round.merged.items ≤ MOST_EVENTS }
    ensures machine { IfOk result (λ m. m ≡ round.machine) }
    ensures noted { OnOk result (HasNotedRound round log.old log.new) }
{
    match note_round(log, &round) {
        Ok(()) => Ok(round.into_machine()),
        Err(memory) => {
            // for the prover alone: one call drops the round, in place of the drops of all its parts
            drop(round);
            Err(memory)
        }
    }
}

/// Makes one more round, and notes it.
///
/// # Errors
/// `Memory` if there is no room; the log can't be used any more then.
fn go_on<R: Threads + Wait + Sync, G: Gate + Sync>(
    rt: &R,
    alloc: Global,
    machine: Machine,
    workers: u32,
    seed: u32,
    gate: &G,
    log: &mut Log,
) -> Result<Machine, Memory>
    requires some { 1 ≤ workers }
    requires few { workers ≤ 16 }
    requires far { IsRunSoFar machine.state.setting machine log.old }
    requires comes { (e : EventOf) × (enabled machine.state e ≡ true) }
    ensures far { IfOk result (λ m. IsRunSoFar machine.state.setting m log.new) }
    ensures more { IfOk result (λ m. length log.old.events < length log.new.events) }
    ensures setting { IfOk result (λ m. m.state.setting ≡ machine.state.setting) }
{
    let round = run_round(rt, alloc, machine, workers, seed, gate)?;
    finish_round(log, round)
}

/// Makes rounds until no event is enabled, and notes them. Gives the machine after them.
///
/// # Errors
/// `Memory` if there is no room; the log can't be used any more then.
fn make_rounds<R: Threads + Wait + Sync, G: Gate + Sync>(
    rt: &R,
    alloc: Global,
    machine: Machine,
    workers: u32,
    seed: u32,
    gate: &G,
    log: &mut Log,
) -> Result<Machine, Memory>
    requires some { 1 ≤ workers }
    requires few { workers ≤ 16 }
    requires far { IsRunSoFar machine.state.setting machine log.old }
    ensures far { IfOk result (λ m. IsRunSoFar machine.state.setting m log.new) }
    ensures over { IfOk result (λ m. IsOver m.state) }
    ensures setting { IfOk result (λ m. m.state.setting ≡ machine.state.setting) }
{
    let mut current = machine;
    let mut next_seed = seed;
    'rounds: while let Some(_event) = current.pick(0) {
        current = go_on(rt, alloc, current, workers, next_seed, gate, log)?;
        next_seed = seed_after(next_seed);
    }
    Ok(current)
}

/// Notes how the tasks stand at the end of the run of which a log tells, by the machine after it. Gives the ending of the run.
///
/// # Errors
/// `Memory` where there is no room for the ending.
fn note_ending(alloc: Global, machine: &Machine, log: &mut Log) -> Result<Ending, Memory>
    requires far { IsRunSoFar machine.now.state.setting machine.now log.old }
    requires over { IsOver machine.now.state }
    ensures run { IfOk result (λ ending. IsCoherentRun (initial_state machine.now.state.setting) (record { events = log.new.events; grants = log.new.grants; counts = log.new.counts; ending = ending })) }
    ensures events { log.new.events ≡ log.old.events }
{
    // for the proof alone: the machine has at most 16 cores and is sound, which the ending of the run needs
    a_machine_is_kept(machine);
    note_last(log, machine);
    machine.ending(alloc, log)
}

/// The record of the run of which a log tells, by the machine after it.
///
/// # Errors
/// `Memory` where there is no room for the record.
fn record_of(alloc: Global, machine: &Machine, mut log: Log) -> Result<RunRecord, Memory>
    requires far { IsRunSoFar machine.now.state.setting machine.now log }
    requires over { IsOver machine.now.state }
    ensures run { IfOk result (IsCoherentRun (initial_state machine.now.state.setting)) }
    ensures events { IfOk result (λ run. run.events ≡ log.events) }
{
    let ending = note_ending(alloc, machine, &mut log)?;
    Ok(log.record(ending))
}

/// A run that workers made, and the machine on which they made it, as its events left it: its program, plans and decoded code can
/// be used again.
#[derive(Drop)]
pub struct WorkersRun {
    pub run: RunRecord,
    pub machine: Machine,
}

/// The record of the run of which a log tells, beside the machine after it.
///
/// # Errors
/// `Memory` where there is no room for the record.
fn kept_beside(alloc: Global, machine: Machine, log: Log) -> Result<WorkersRun, Memory>
    requires far { IsRunSoFar machine.state.setting machine log }
    requires over { IsOver machine.state }
    ensures made { IfOk result (IsMadeByWorkers (initial_state machine.state.setting)) }
    ensures setting { IfOk result (λ made. made.machine.state.setting ≡ machine.state.setting) }
{
    match record_of(alloc, &machine, log) {
        Ok(run) => Ok(WorkersRun { run, machine }),
        Err(memory) => {
            // for the prover alone: one call drops the machine, in place of the drops of all its parts
            drop(machine);
            Err(memory)
        }
    }
}

/// Makes rounds until no event is enabled. Gives the record of the run, of which the log tells so far, and the machine.
///
/// # Errors
/// `Memory` if there is no room.
fn recorded_run<R: Threads + Wait + Sync, G: Gate + Sync>(
    rt: &R,
    alloc: Global,
    machine: Machine,
    workers: u32,
    seed: u32,
    gate: &G,
    mut log: Log,
) -> Result<WorkersRun, Memory>
    requires some { 1 ≤ workers }
    requires few { workers ≤ 16 }
    requires far { IsRunSoFar machine.state.setting machine log }
    ensures made { IfOk result (IsMadeByWorkers (initial_state machine.state.setting)) }
    ensures setting { IfOk result (λ made. made.machine.state.setting ≡ machine.state.setting) }
{
    let last = make_rounds(rt, alloc, machine, workers, seed, gate, &mut log)?;
    kept_beside(alloc, last, log)
}

/// The whole run of a machine by 1 to 16 workers, as `run_workers` makes it, and the machine, as the run's events left it.
/// `Machine::reset` sets it back.
///
/// # Errors
/// `Memory` if there is no room.
pub fn run_keeping_machine<R: Threads + Wait + Sync, G: Gate + Sync>(
    rt: &R,
    alloc: Global,
    machine: Machine,
    workers: u32,
    seed: u32,
    gate: &G,
) -> Result<WorkersRun, Memory>
    requires some { 1 ≤ workers }
    requires few { workers ≤ 16 }
    requires made { machine.made ≡ 0 }
    ensures made { IfOk result (IsMadeByWorkers machine.state) }
    ensures setting { IfOk result (λ made. made.machine.state.setting ≡ machine.state.setting) }
{
    keep_freed_memory(alloc);
    // for the proof alone: no event has come, so the machine is the initial one, with which a run begins
    a_machine_is_kept(&machine);
    match machine.log(alloc) {
        Ok(log) => recorded_run(rt, alloc, machine, workers, seed, gate, log),
        Err(memory) => {
            // for the prover alone: one call drops the machine, in place of the drops of all its parts
            drop(machine);
            Err(memory)
        }
    }
}

/// The whole run of a machine by 1 to 16 workers, in rounds. If an event is enabled after a round, there is another round, with a
/// seed that is 1 greater modulo 2^32. The machine must be an initial one.
///
/// # Memory
/// At its start the run allocates a block of 32 MB (33,546,240 bytes) and frees it at once. A round hands back all calls of its
/// objects, some 300 bytes each, and the next round needs as much again. After such a block was freed, the allocator of glibc
/// keeps up to 64 MB of freed memory as long as the process lives. Without it, the blocks of each round go back to the
/// operating system, and each of their pages has to be mapped again in the next round. On 2026-11-28 (commit 0becdb6) a run of
/// 457,000 events had 105,000 page faults for this reason, which took two fifths of its processor time. The block costs two
/// system calls and no memory, since none of its pages is touched. If there is no room for it the run goes on without it. With
/// another allocator it has no effect.
///
/// # Errors
/// `Memory` if there is no room.
pub fn run_workers<R: Threads + Wait + Sync, G: Gate + Sync>(
    rt: &R,
    alloc: Global,
    machine: Machine,
    workers: u32,
    seed: u32,
    gate: &G,
) -> Result<RunRecord, Memory>
    requires some { 1 ≤ workers }
    requires few { workers ≤ 16 }
    requires made { machine.made ≡ 0 }
    ensures { IfOk result (IsCoherentRun machine.state) }
{
    let WorkersRun { run, machine: last } = run_keeping_machine(
        rt, alloc, machine, workers, seed, gate,
    )?;
    // for the prover alone: one call drops the machine, in place of the drops of all its parts
    drop(last);
    Ok(run)
}
