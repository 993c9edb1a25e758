ghost use Rattle.std.specs.Prelude.{◌≡◌, ◌+◌, ◌-◌, ◌≤◌, [], length, take, drop, IfOk, OnOk};
ghost use Rattle.machine_rules.specs.State.{initial_state};
ghost use Rattle.machine_rules.specs.Sound.{IsMachine};
ghost use Rattle.run_chart.specs.Charts.{chart_by, chart_in, chart_of, drawn, last_event, leaving_in, reaches_end, waiting_at, waiting_in, IsRangeDrawn, IsFinishable};
ghost use Rattle.run_chart.specs.Drawing.{begun, empty_drawing};

use crate::drawing::{Drawing, Range, pass};
use crate::finishing::{Columns, leaving_mails, shown_actors, waiting_tasks};
use crate::mails::unknown_mails;
use crate::{Chart, ChartRow, Fit, LeavingMail, WaitingTask};
use dn_base::{MOST_EVENTS, Memory, Sequence, Shape};
use dn_machine::{Machine, a_machine_is_kept};
use message_net::Event;
use std::alloc::Global;
use std::mem;

/// The first `wanted` events, or all if there are no more.
fn first_of(events: &[Event], wanted: u32) -> (&[Event], &[Event])
    ensures front { result.0.now ≡ take wanted events.now }
    ensures back { result.1.now ≡ drop wanted events.now }
    ensures most { length result.0.now ≤ wanted }
{
    let wanted = wanted as usize;
    if wanted < events.len() {
        events.split_at(wanted)
    } else {
        events.split_at(events.len())
    }
}

/// Whether no event of `events` follows the range.
fn reaches_end(range: Range, events: u32) -> bool
    ensures { result ≡ reaches_end range events }
{
    events as u64 <= range.first as u64 + range.most as u64
}

/// The tasks that wait for a lock when the run ends, if the chart reaches its end.
fn waiting_at(
    alloc: Global,
    is_end: bool,
    machine: &Machine,
    line: u32,
) -> Result<Sequence<WaitingTask>, Memory>
    requires machine { IsMachine machine.now.state }
    requires few { line ≤ 4000000000 }
    requires cores { machine.now.state.setting.shape.cores ≤ 16 }
    ensures value { IfOk result (λ waiting. waiting ≡ waiting_at is_end line machine.now.state) }
    ensures most { IfOk result (λ waiting. length waiting ≤ 16) }
{
    if is_end {
        waiting_tasks(alloc, machine, line)
    } else {
        Ok(Sequence::new(alloc))
    }
}

/// A chart, and the machine on which its events were made.
#[derive(Drop)]
pub struct Charted {
    pub chart: Chart,
    pub machine: Machine,
}

/// What all charts of a run have in common.
#[derive(Clone, Copy)]
pub(crate) struct Frame {
    pub(crate) shape: Shape,
    pub(crate) fuel: u32,
    pub(crate) range: Range,
    pub(crate) events: u32,
    pub(crate) columns: Columns,
}

/// The number of the last of this many things, or 0.
fn last_of(count: usize) -> usize
    ensures { result ≡ count - 1 }
{
    if count == 0 { 0 } else { count - 1 }
}

/// The number of the last row's event, if there is one.
fn last_event(rows: &[ChartRow]) -> Option<u32>
    ensures { result ≡ last_event rows.now }
{
    match rows.get(last_of(rows.len())) {
        Some(row) => Some(row.event),
        None => None,
    }
}

/// The chart of these rows, which end before a line, messages and tasks.
fn chart_with(
    alloc: Global,
    frame: Frame,
    rows: Sequence<ChartRow>,
    leaving: Sequence<LeavingMail>,
    waiting: Sequence<WaitingTask>,
    line: u32,
) -> Result<Chart, Memory>
    requires { line + length leaving + length waiting ≤ 4294967295 }
    ensures { IfOk result (λ chart. chart ≡ chart_by frame rows leaving waiting line) }
{
    let lines = line + leaving.len() as u32 + waiting.len() as u32;
    let shown = shown_actors(
        alloc,
        frame.columns,
        rows.as_slice(),
        leaving.as_slice(),
        waiting.as_slice(),
        frame.shape,
    )?;
    Ok(Chart {
        shape: frame.shape,
        fuel: frame.fuel,
        first: frame.range.first,
        last: last_event(rows.as_slice()),
        events: frame.events,
        shown,
        rows,
        leaving,
        waiting,
        lines,
        note: Sequence::new(alloc),
        fit: Fit::Rows,
    })
}

/// The chart without rows.
fn empty_chart(alloc: Global, frame: Frame) -> Result<Chart, Memory>
    ensures { IfOk result (λ chart. chart ≡ chart_by frame [] [] [] 0) }
{
    chart_with(
        alloc,
        frame,
        Sequence::new(alloc),
        Sequence::new(alloc),
        Sequence::new(alloc),
        0,
    )
}

impl Drawing {
    /// A drawing of no events, on this machine. Takes no memory.
    fn new(alloc: Global, machine: Machine) -> Drawing
        ensures { result ≡ empty_drawing machine }
    {
        Drawing {
            machine,
            sent: Sequence::new(alloc),
            event: 0,
            line: 0,
            rows: Sequence::new(alloc),
        }
    }

    /// Begins to draw after `event` events, which had no rows.
    ///
    /// # Errors
    /// `Memory` where there is no room.
    fn begin(&mut self, alloc: Global, event: u32) -> Result<(), Memory>
        requires line { self.old.line ≡ 0 }
        requires rows { self.old.rows ≡ [] }
        ensures { OnOk result (self.new ≡ begun self.old.machine event) }
    {
        self.sent = unknown_mails(alloc, self.machine.pool())?;
        self.event = event;
        Ok(())
    }

    /// Draws a range of events. Those before it are only made, and those after it aren't looked at. Returns whether those before
    /// it came, each in its turn.
    ///
    /// # Errors
    /// `Memory` where there is no room.
    fn draw(
        &mut self,
        alloc: Global,
        events: &[Event],
        range: Range,
        chain: &[u32],
    ) -> Result<bool, Memory>
        requires made { self.old.machine.made ≡ 0 }
        requires line { self.old.line ≡ 0 }
        requires rows { self.old.rows ≡ [] }
        requires few { length events.now ≤ MOST_EVENTS }
        requires most { range.most ≤ 4096 }
        ensures drawn { IfOk result (IsRangeDrawn self.old.machine range chain.now events.now self.new) }
        ensures setting { OnOk result (self.new.machine.state.setting ≡ self.old.machine.state.setting) }
    {
        let (before, rest) = first_of(events, range.first);
        if !pass(&mut self.machine, before)? {
            return Ok(false);
        }
        self.begin(alloc, before.len() as u32)?;
        let (wanted, _) = first_of(rest, range.most);
        self.add_rows(alloc, wanted, chain)?;
        Ok(true)
    }

    /// The chart that a drawing is. Its rows go into the chart, and its machine stays as it is.
    ///
    /// # Errors
    /// `Memory` where there is no room.
    fn finish(&mut self, alloc: Global, frame: Frame) -> Result<Chart, Memory>
        requires { IsFinishable self.old }
        ensures chart { IfOk result (λ chart. chart ≡ chart_by frame self.old.rows (leaving_in self.old) (waiting_in frame.range frame.events self.old) self.old.line) }
        ensures machine { OnOk result (self.new.machine ≡ self.old.machine) }
    {
        // for the proof alone: the machine is well formed, and few mails are in flight
        a_machine_is_kept(&self.machine);
        let leaving = leaving_mails(alloc, self.sent.as_slice(), self.machine.pool(), self.line)?;
        let behind = self.line + leaving.len() as u32;
        let is_end = reaches_end(frame.range, frame.events);
        let waiting = waiting_at(alloc, is_end, &self.machine, behind)?;
        let rows = mem::replace(&mut self.rows, Sequence::new(alloc));
        chart_with(alloc, frame, rows, leaving, waiting, self.line)
    }

    /// The chart of a range of events on the drawing's machine.
    ///
    /// # Errors
    /// `Memory` where there is no room.
    fn chart(
        &mut self,
        alloc: Global,
        frame: Frame,
        events: &[Event],
        chain: &[u32],
    ) -> Result<Chart, Memory>
        requires made { self.old.machine.made ≡ 0 }
        requires line { self.old.line ≡ 0 }
        requires rows { self.old.rows ≡ [] }
        requires few { length events.now ≤ MOST_EVENTS }
        requires most { frame.range.most ≤ 4096 }
        ensures chart { IfOk result (λ chart. chart ≡ chart_in frame (drawn self.old.machine frame.range chain.now events.now)) }
        ensures setting { OnOk result (self.new.machine.state.setting ≡ self.old.machine.state.setting) }
    {
        if self.draw(alloc, events, frame.range, chain)? {
            self.finish(alloc, frame)
        } else {
            empty_chart(alloc, frame)
        }
    }
}

/// The message chart of a range of a run's events, with marks for the events whose numbers are in the chain.
///
/// A row tells which actor makes the event, what it is and what it is about, where the message that it handles comes from, how a
/// task ends with it, and each data word for which the actor holds something else after the event. After the rows come the
/// messages that an event of the range sent and none of them handles and, if no event follows the range, the tasks that wait for
/// a lock. The chart goes as far as the events are enabled one after the other, from the machine on; all events of a run may.
///
/// No event may have come on the machine, which is handed back: its program, plans and decoded code can be used again. It is as the
/// events left it, up to the end of the range or to the first event that is not enabled; `Machine::reset` sets it back. There must
/// be at most 25,169,664 events, and the range has at most 4,096.
///
/// An event before the range is only made, and one after it isn't looked at. The cost of an event of the range grows with what it
/// sends and takes, not with the messages in flight. It looks at the words that it may change: at one, or at a Grant or a Go at
/// each of the core's entries. The chain is gone through once, and needn't be in order.
///
/// # Errors
/// `Memory` if there is no room for the messages or the rows.
pub fn chart(
    alloc: Global,
    machine: Machine,
    events: &[Event],
    range: Range,
    chain: &[u32],
    columns: Columns,
) -> Result<Charted, Memory>
    requires initial { machine.state ≡ initial_state machine.state.setting }
    requires made { machine.made ≡ 0 }
    requires few { length events.now ≤ MOST_EVENTS }
    requires most { range.most ≤ 4096 }
    ensures chart { IfOk result (λ charted. charted.chart ≡ chart_of machine.state.setting events.now range chain.now columns) }
    ensures setting { IfOk result (λ charted. charted.machine.state.setting ≡ machine.state.setting) }
{
    let frame = Frame {
        shape: machine.shape(),
        fuel: machine.fuel(),
        range,
        events: events.len() as u32,
        columns,
    };
    let mut drawing = Drawing::new(alloc, machine);
    let chart = drawing.chart(alloc, frame, events, chain)?;
    let Drawing { machine, .. } = drawing;
    Ok(Charted { chart, machine })
}
