//! A whole run in time order.
ghost use Rattle.std.specs.Prelude.{◌≡◌, ◌<◌, ◌≤◌, length, true, IfOk, OnOk};
ghost use Rattle.machine_rules.specs.State.{initial_state};
ghost use Rattle.machine_rules.specs.Next.{enabled};
ghost use Rattle.dn_machine.specs.Ends.{noted_ending};
ghost use Rattle.dn_machine.specs.Log.{no_log};
ghost use Rattle.run_timing.specs.Network.{IsWithinLatency};
ghost use Rattle.run_timing.specs.Ticks.{AreWithinLimits};
ghost use Rattle.time_order.specs.Flights.{left_by};
ghost use Rattle.time_order.specs.Run.{HasRunInOrder, IsTimeOrderRun};

use crate::actors::Actors;
use crate::sending::{put_sent, take_handled};
use dn_base::Memory;
use dn_machine::{Log, Machine, RunRecord, a_machine_is_kept};
use message_net::Event;
use run_replay::advance;
use run_timing::{Network, Ticks};
use std::alloc::Global;

/// How many messages stay in flight while an event comes, which is enabled: a handling removes one.
fn staying(machine: &Machine, event: Event) -> u32
    requires { enabled machine.now.state event ≡ true }
    ensures { result ≡ length (left_by machine.now.state event) }
{
    match event {
        Event::Handle(_) => machine.pool().count() - 1,
        _ => machine.pool().count(),
    }
}

/// Makes and notes the events of a run in time order, until none is enabled.
///
/// # Errors
/// `Memory` where there is no room for the messages or the notes.
fn run_events(
    alloc: Global,
    machine: &mut Machine,
    log: &mut Log,
    ticks: &Ticks,
    network: &Network,
) -> Result<(), Memory>
    requires initial { machine.old.state ≡ initial_state machine.old.state.setting }
    requires made { machine.old.made ≡ 0 }
    requires empty { log.old ≡ no_log (length machine.old.state.setting.program.phases) }
    requires ticks { AreWithinLimits ticks.now }
    requires latency { IsWithinLatency network.now }
    ensures run { OnOk result (HasRunInOrder ticks.now network.now machine.old.state machine.new.state log.new) }
{
    let shape = machine.shape();
    let mut actors = Actors::new(alloc, shape)?;
    // for the proof alone: the setting of the machine is ready, so that its run has few events and messages
    a_machine_is_kept(machine);
    while let Some((place, choice)) = actors.first(machine) {
        let first = staying(machine, choice.event);
        let Some(happened) = advance(machine, choice.event)? else {
            unreachable!()
        };
        let finish = choice.start + ticks.of(happened.observed.kind) as u64;
        log.note(happened)?;
        actors.free.set(place, finish);
        take_handled(&mut actors.queues, place, choice.event);
        put_sent(
            &mut actors.queues,
            machine.pool(),
            first,
            finish,
            network,
            shape,
        )?;
    }
    Ok(())
}

/// Runs a machine in time order until no event is enabled. No event may have come on the machine; afterwards it is as the run leaves
/// it, and `Machine::reset` sets it back. An event of each kind takes 1 to 1,000,000 ticks, and a message 0 to 1,000,000 for each hop.
///
/// Each event is the candidate that can start first: a core's own event when the core is free, the handling of a message when it has
/// arrived and its receiver is free. Of several that can start at the same time, the actor with the least index goes first, cores
/// before banks before the barrier controller; of one actor a message before its own event, and messages by arrival, sender and
/// number. So there is one such run. It keeps all that is promised of a seed's run.
///
/// # Errors
/// `Memory` if there is no room for the messages or the record.
pub fn run_in_time_order(
    alloc: Global,
    machine: &mut Machine,
    ticks: &Ticks,
    network: &Network,
) -> Result<RunRecord, Memory>
    requires initial { machine.old.state ≡ initial_state machine.old.state.setting }
    requires made { machine.old.made ≡ 0 }
    requires ticks { AreWithinLimits ticks.now }
    requires latency { IsWithinLatency network.now }
    ensures run { IfOk result (IsTimeOrderRun ticks.now network.now machine.old.state) }
    ensures setting { OnOk result (machine.new.state.setting ≡ machine.old.state.setting) }
{
    // for the proof alone: the setting of the machine is ready, so that its complete run keeps all that is promised of runs
    a_machine_is_kept(machine);
    let mut log = machine.log(alloc)?;
    run_events(alloc, machine, &mut log, ticks, network)?;
    let ending = machine.ending(alloc, &log)?;
    Ok(log.record(ending))
}
