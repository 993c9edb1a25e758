ghost use Rattle.std.specs.Prelude.{◌≡◌, ◌+◌, ◌≤◌, [], None, length, replicate, IfOk, OnOk};
ghost use Rattle.machine_rules.specs.State.{initial_state};
ghost use Rattle.machine_rules.specs.Runs.{IsRun, after};
ghost use Rattle.run_timing.specs.Noted.{AreRowsOf};
ghost use Rattle.run_timing.specs.Ticks.{AreWithinLimits};

use crate::making::{make, sent_since};
use crate::noting::{handled_delay, note_row};
use crate::rows::Rows;
use crate::ticks::Ticks;
use crate::tracks::Tracks;
use dn_base::{MOST_EVENTS, Memory, Shape};
use dn_machine::{Machine, a_machine_is_kept};
use message_net::Event;
use std::alloc::Global;

/// Makes the events of a run one by one on the initial machine, and notes each.
///
/// # Errors
/// `Memory` where there is no room.
fn note_run(
    machine: &mut Machine,
    rows: &mut Rows,
    tracks: &mut Tracks,
    shape: Shape,
    events: &[Event],
    ticks: &Ticks,
) -> Result<(), Memory>
    requires initial { machine.old.state ≡ initial_state machine.old.state.setting }
    requires made { machine.old.made ≡ 0 }
    requires shape { machine.old.state.setting.shape ≡ shape }
    requires run { IsRun machine.old.state events.now }
    requires few { length events.now ≤ MOST_EVENTS }
    requires ticks { AreWithinLimits ticks.now }
    requires rows { rows.old ≡ record { finishes = []; befores = []; kinds = [] } }
    requires last { tracks.old.last ≡ replicate (shape.cores + shape.banks + 1) None }
    requires senders { tracks.old.senders.items ≡ replicate (shape.cores + shape.banks + 1) [] }
    ensures rows { OnOk result (AreRowsOf ticks.now machine.old.state events.now rows.new) }
    ensures leads { OnOk result (machine.new.state ≡ after machine.old.state events.now) }
{
    // for the proof alone: the setting of the machine is ready, so that its run has few events and mails
    a_machine_is_kept(machine);
    let mut number = 0;
    for event in events {
        let happened = make(machine, *event)?;
        let index = happened.actor.index(shape.cores, shape.banks);
        let delay = handled_delay(&ticks.network, *event, happened.actor, shape);
        let start = tracks.start(rows, *event, index, shape, delay);
        let sent = sent_since(machine, tracks, happened.actor, index);
        tracks.note(index, sent, number)?;
        note_row(rows, happened, start, ticks)?;
        number += 1;
    }
    Ok(())
}

/// The rows of a run's events, which the initial machine makes one by one. They take 13 bytes for each event, and while they are
/// made 4 more for each message. A complete run has no more messages than events. The room for a whole run is allocated at once.
///
/// # Errors
/// `Memory` where there is no room for the rows or the messages.
pub(crate) fn timed_rows(
    alloc: Global,
    machine: &mut Machine,
    shape: Shape,
    events: &[Event],
    ticks: &Ticks,
) -> Result<Rows, Memory>
    requires initial { machine.old.state ≡ initial_state machine.old.state.setting }
    requires made { machine.old.made ≡ 0 }
    requires shape { machine.old.state.setting.shape ≡ shape }
    requires run { IsRun machine.old.state events.now }
    requires few { length events.now ≤ MOST_EVENTS }
    requires ticks { AreWithinLimits ticks.now }
    ensures rows { IfOk result (AreRowsOf ticks.now machine.old.state events.now) }
    ensures leads { OnOk result (machine.new.state ≡ after machine.old.state events.now) }
{
    let actors = shape.cores as usize + shape.banks as usize + 1;
    let mut tracks = Tracks::for_events(alloc, events, shape, actors)?;
    let mut rows = Rows::with_room(alloc, events.len())?;
    note_run(machine, &mut rows, &mut tracks, shape, events, ticks)?;
    Ok(rows)
}
