//! When each event of a run finishes.
ghost use Rattle.std.specs.Prelude.{◌≡◌, ◌≤◌, length, IfOk, OnOk};
ghost use Rattle.dn_machine.specs.Settings.{IsRunOn};
ghost use Rattle.dn_machine.specs.Sizes.{FitsMachine};
ghost use Rattle.machine_rules.specs.Runs.{IsRun, after};
ghost use Rattle.machine_rules.specs.State.{initial_state};
ghost use Rattle.run_timing.specs.Finishes.{AreFinishes, AreFinishesOf};
ghost use Rattle.run_timing.specs.Noted.{AreRowsOf};
ghost use Rattle.run_timing.specs.Ticks.{AreWithinLimits};

use crate::rows::Rows;
use crate::running::timed_rows;
use crate::ticks::Ticks;
use dn_base::{MOST_EVENTS, Memory, Sequence, Shape};
use dn_machine::{Machine, a_machine_is_kept};
use effect_checker::Checked;
use message_net::Event;
use std::alloc::Global;

/// The finishes that are noted; what else is noted is freed.
fn finishes_in(rows: Rows) -> Sequence<u64>
    ensures { result ≡ rows.finishes }
{
    let Rows {
        finishes,
        befores,
        kinds,
    } = rows;
    drop(befores);
    drop(kinds);
    finishes
}

/// When each event of a run finishes, on a machine that is lent, as `finish_run` says. No event may have come on the machine.
/// Afterwards it is as the events leave it; `Machine::reset` sets it back.
///
/// # Errors
/// `Memory` if there is no room for the messages or for the notes of each event.
pub fn finish_events(
    alloc: Global,
    machine: &mut Machine,
    events: &[Event],
    ticks: &Ticks,
) -> Result<Sequence<u64>, Memory>
    requires initial { machine.old.state ≡ initial_state machine.old.state.setting }
    requires made { machine.old.made ≡ 0 }
    requires run { IsRun machine.old.state events.now }
    requires few { length events.now ≤ MOST_EVENTS }
    requires ticks { AreWithinLimits ticks.now }
    ensures finishes { IfOk result (AreFinishes ticks.now machine.old.state events.now) }
    ensures leads { OnOk result (machine.new.state ≡ after machine.old.state events.now) }
{
    let shape = machine.shape();
    let rows = timed_rows(alloc, machine, shape, events, ticks)?;
    Ok(finishes_in(rows))
}

/// When each event of a run finishes, in ticks from the run's start: its own ticks after the later of the event before it of its
/// actor and the event that sent the message which it handles. It is when the longest chain that ends with the event does.
///
/// The premises are those of `time_run`. Besides the events, it takes 13 bytes for each event, and 4 for each message that they
/// handle; afterwards 8 for each event.
///
/// # Errors
/// `Memory` if there is no room for the machine or for the notes of each event.
pub fn finish_run(
    alloc: Global,
    checked: Checked,
    shape: Shape,
    fuel: u32,
    events: &[Event],
    ticks: &Ticks,
) -> Result<Sequence<u64>, Memory>
    requires fits { FitsMachine checked shape fuel }
    requires run { IsRunOn checked shape fuel events.now }
    requires few { length events.now ≤ MOST_EVENTS }
    requires ticks { AreWithinLimits ticks.now }
    ensures { IfOk result (AreFinishesOf checked shape fuel events.now ticks.now) }
{
    let mut machine = Machine::start(alloc, checked, shape, fuel)?;
    // for the proof alone: no event has come, so the machine is the opened one, and the events are a run of it
    a_machine_is_kept(&machine);
    finish_events(alloc, &mut machine, events, ticks)
}
