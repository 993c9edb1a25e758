ghost use Rattle.std.specs.Prelude.{◌≡◌, ◌+◌, ◌≤◌, ℕ, length, sum_by, IfOk, OnOk};
ghost use Rattle.machine_rules.specs.State.{initial_state};
ghost use Rattle.machine_rules.specs.Runs.{IsRun, after};
ghost use Rattle.run_timing.specs.Longest.{IsLongest, IsTimingOf};
ghost use Rattle.dn_machine.specs.Settings.{IsRunOn};
ghost use Rattle.dn_machine.specs.Sizes.{FitsMachine};
ghost use Rattle.run_timing.specs.Network.{told_delay};
ghost use Rattle.run_timing.specs.Rows.{ticks_of_link};
ghost use Rattle.run_timing.specs.Ticks.{AreWithinLimits};

use crate::running::timed_rows;
use crate::ticks::Ticks;
use crate::timing::{Link, Timing};
use crate::way::{way_to, without_events};
use dn_base::{MOST_EVENTS, Memory, Shape};
use dn_machine::{Machine, a_machine_is_kept};
use effect_checker::Checked;
use message_net::Event;
use std::alloc::Global;

/// How much of a chain's total are delays of messages; None in a network without latency.
fn delays(total: u64, links: &[Link], ticks: &Ticks) -> Option<u64>
    requires ticks { AreWithinLimits ticks.now }
    requires most { sum_by (ticks_of_link ticks.now) links.now ≤ total }
    ensures { (n : ℕ) → n + sum_by (ticks_of_link ticks.now) links.now ≡ total → result ≡ told_delay ticks.now.network n }
{
    if ticks.network.latency == 0 {
        None
    } else {
        Some(without_events(total, links, ticks))
    }
}

/// How long a run takes on a machine that is lent, as `time_run` says, so that the machine's program, plans and decoded code can be
/// used again. No event may have come on the machine. Afterwards it is as the events leave it; `Machine::reset` sets it back.
///
/// # Errors
/// `Memory` if there is no room for the messages, for the notes of each event, or for the links.
pub fn time_events(
    alloc: Global,
    machine: &mut Machine,
    events: &[Event],
    ticks: &Ticks,
) -> Result<Timing, Memory>
    requires initial { machine.old.state ≡ initial_state machine.old.state.setting }
    requires made { machine.old.made ≡ 0 }
    requires run { IsRun machine.old.state events.now }
    requires few { length events.now ≤ MOST_EVENTS }
    requires ticks { AreWithinLimits ticks.now }
    ensures timing { IfOk result (IsLongest ticks.now machine.old.state events.now) }
    ensures leads { OnOk result (machine.new.state ≡ after machine.old.state events.now) }
{
    let shape = machine.shape();
    let rows = timed_rows(alloc, machine, shape, events, ticks)?;
    let last = rows.latest();
    let total = rows.finish(last);
    let links = way_to(alloc, &rows, last)?;
    let shown = links.as_slice();
    let network = delays(total, shown, ticks);
    Ok(Timing {
        total,
        network,
        links,
    })
}

/// How long a run takes, and its longest chain of events, in which each depends on the one before it. An event depends on the
/// previous event of its own actor, and on the event that sent the message which it handles.
///
/// The events must be a run of the initial machine of the checked program, this shape and this fuel, and at most 25,169,664.
/// The shape must have as many cores as the program needs, 1 to 16 banks, 1 to 256 sets and 1 to 16 ways. A task may retire
/// `fuel` instructions, 1 to 32,768. An event of each kind takes 1 to 1,000,000 ticks, and a message 0 to 1,000,000 for each hop of its
/// network; a chain takes the ticks of its events, and the delays of the messages by which one depends on the one before it.
///
/// Of the longest chains, the links are one that ends with the least event. If by the two events on which a link depends it could
/// start at the same time, the link before it is that of its own actor.
///
/// Besides the events, it takes 13 bytes for each event, and 4 for each message that they handle, while they are timed; then 13
/// bytes for each event, and 16 for each link. So it takes at most 29 bytes an event, including the links that are handed back,
/// and an amount that doesn't grow with the run: the machine, and some bytes for each actor. A run that isn't complete may leave
/// messages in flight. If an actor sent more messages than were handled, the notes of its messages double as they grow.
///
/// # Errors
/// `Memory` if there is no room for the machine, for the notes of each event, or for the links.
pub fn time_run(
    alloc: Global,
    checked: Checked,
    shape: Shape,
    fuel: u32,
    events: &[Event],
    ticks: &Ticks,
) -> Result<Timing, Memory>
    requires fits { FitsMachine checked shape fuel }
    requires run { IsRunOn checked shape fuel events.now }
    requires few { length events.now ≤ MOST_EVENTS }
    requires ticks { AreWithinLimits ticks.now }
    ensures { IfOk result (IsTimingOf checked shape fuel events.now ticks.now) }
{
    let mut machine = Machine::start(alloc, checked, shape, fuel)?;
    // for the proof alone: no event has come, so the machine is the opened one, and the events are a run of it
    a_machine_is_kept(&machine);
    time_events(alloc, &mut machine, events, ticks)
}
