ghost use Rattle.std.specs.Prelude.{◌≡◌, ◌<◌, ◌≤◌, Some, length, IfOk, OnOk};
ghost use Rattle.machine_rules.specs.State.{initial_state};
ghost use Rattle.dn_machine.specs.Kept.{IsKept};
ghost use Rattle.dn_machine.specs.Log.{core_of, end_there};
ghost use Rattle.dn_machine.specs.Sizes.{FitsMachine};
ghost use Rattle.run_replay.specs.Replay.{IsTrueOf, IsReplayOf, IsReplayOutcome};
ghost use Rattle.run_replay.specs.Advance.{HasAdvanced};

use dn_base::{Grant, MOST_EVENTS, Memory, Sequence, Shape};
use dn_machine::{Happened, Log, Machine, a_machine_is_kept};
use effect_checker::Checked;
use grant_log::Counts;
use message_net::{Actor, Event};
use rv_core::{Ending, TaskEnd};
use std::alloc::Global;

/// The result of a replay.
#[derive(Drop)]
pub enum Replayed {
    /// The events are a complete run, with this ending, these grants in the order in which the cores handled them, and these
    /// counts of events of each kind.
    Complete {
        ending: Ending,
        grants: Sequence<Grant>,
        counts: Counts,
    },
    /// The event of this number, from 0, is the first that is not enabled in its turn.
    NotEnabled {
        number: u32,
    },
    /// Each event is enabled in its turn, and after them another one.
    Incomplete,
}

/// How the task of an actor stands, where that is a core: None where it has none, and where it hasn't ended and waits for no lock.
fn task_end(machine: &Machine, actor: Actor) -> Option<TaskEnd>
    ensures { result ≡ end_there machine.now.state (core_of (Some actor)) }
{
    match actor {
        Actor::Core(core) => machine.task_end(core),
        Actor::Bank(_) => None,
        Actor::Keeper => None,
    }
}

/// Makes an event if it is enabled, and gives what a log notes of it; None if it is not enabled. Fewer than 4,000,000,000 events must
/// have come before.
///
/// # Errors
/// `Memory` if there is no room for the messages.
pub fn advance(machine: &mut Machine, event: Event) -> Result<Option<Happened>, Memory>
    requires { machine.old.made < 4000000000 }
    ensures advanced { IfOk result (HasAdvanced machine.old machine.new event) }
    ensures setting { OnOk result (machine.new.state.setting ≡ machine.old.state.setting) }
{
    let Some((actor, observed)) = machine.try_step(event)? else {
        return Ok(None);
    };
    // for the proof alone: the machine is sound and coherent after the event too, which is a part of the clause
    a_machine_is_kept(machine);
    let end = task_end(machine, actor);
    Ok(Some(Happened {
        event,
        observed,
        end,
    }))
}

/// The result of a replay in which all events came: a complete run, or an unfinished one.
fn finish(alloc: Global, machine: &Machine, log: Log) -> Result<Replayed, Memory>
    ensures tells { IfOk result (IsReplayOutcome machine.now.state log) }
    ensures kept { IsKept machine.now.state machine.now.made }
{
    // for the proof alone: the machine is sound and coherent, which is the clause kept
    a_machine_is_kept(machine);
    if machine.pick(0).is_some() {
        return Ok(Replayed::Incomplete);
    }
    let ending = machine.ending(alloc, &log)?;
    let Log {
        events: _,
        grants,
        counts,
        ends: _,
    } = log;
    Ok(Replayed::Complete {
        ending,
        grants,
        counts,
    })
}

/// Replays events on a machine that is lent, as `replay` says, so that the machine's program, plans and decoded code can be used
/// again. No event may have come on the machine. Afterwards it is as the events leave it, up to the first that is not enabled;
/// `Machine::reset` sets it back.
///
/// # Errors
/// `Memory` if there is no room for the messages or the notes of the events.
pub fn replay_on(alloc: Global, machine: &mut Machine, events: &[Event]) -> Result<Replayed, Memory>
    requires initial { machine.old.state ≡ initial_state machine.old.state.setting }
    requires made { machine.old.made ≡ 0 }
    requires few { length events.now ≤ MOST_EVENTS }
    ensures is_true { IfOk result (IsTrueOf machine.old.state.setting events.now) }
    ensures setting { OnOk result (machine.new.state.setting ≡ machine.old.state.setting) }
{
    let mut log = machine.log(alloc)?;
    let mut number: u32 = 0;
    for event in events {
        let came = advance(machine, *event)?;
        let Some(happened) = came else {
            return Ok(Replayed::NotEnabled { number });
        };
        log.note(happened)?;
        number += 1;
    }
    finish(alloc, machine, log)
}

/// Replays events on the initial machine of a checked program, each in its turn, as long as they are enabled.
///
/// The answer is `Complete` exactly if the events are a complete run, with its ending, grants and counts. It is `NotEnabled`
/// exactly if the event of that number is the first that is not enabled in its turn. It is `Incomplete` exactly if each is
/// enabled in its turn and then another one. A complete run ends as the reference machine's run by its grants.
///
/// The shape must have as many cores as the program needs, 1 to 16 banks, 1 to 256 sets and 1 to 16 ways. `fuel`, the number of
/// instructions that a task may retire, must be 1 to 32,768, and there must be at most 25,169,664 events. A message that is
/// handled is found by its id in constant time, however many are in flight.
///
/// # Errors
/// `Memory` if there is no room for the machine, its messages or the notes of the events.
pub fn replay(
    alloc: Global,
    checked: Checked,
    shape: Shape,
    fuel: u32,
    events: &[Event],
) -> Result<Replayed, Memory>
    requires fits { FitsMachine checked shape fuel }
    requires few { length events.now ≤ MOST_EVENTS }
    ensures { IfOk result (IsReplayOf checked shape fuel events.now) }
{
    let mut machine = Machine::start(alloc, checked, shape, fuel)?;
    // for the proof alone: no event has come, so the machine is the opened one, sound and coherent
    a_machine_is_kept(&machine);
    replay_on(alloc, &mut machine, events)
}
