ghost use Rattle.std.specs.Prelude.{◌≡◌, ◌+◌, ◌*◌, ◌<◌, ◌≤◌, [], ◌∷◌, ◌++◌, length, slice_get, Some, None, OnOk, IfOk};
ghost use Rattle.std.specs.List.{filter_map};
ghost use Rattle.grant_log.specs.Counts.{kind_count};
ghost use Rattle.dn_machine.specs.Ends.{no_ends, with_end, end_in, end_index, noted_ends};
ghost use Rattle.run_agreement.specs.Agreed.{listed};
ghost use Rattle.dn_machine.specs.Log.{no_log, with_told, with_event};

use crate::record::RunRecord;
use dn_base::{Grant, MOST_CORES, Memory, Sequence};
use grant_log::Counts;
use machine_rules::Stepped;
use message_net::{Event, EventKind};
use region_table::{Phase, TaskDecl};
use rv_core::{Ending, TaskEnd};
use std::alloc::Global;

/// For how many events a log has room at first. The operating system gives memory only when it is written. So a short run takes
/// no more memory, and a long one moves its events less often.
const FIRST_EVENTS: usize = 65536;

/// An event that came: what was observed of it, and how the task of the core that it changed stands, if that has ended or waits
/// for a lock.
#[derive(Clone, Copy)]
pub struct Happened {
    pub event: Event,
    pub observed: Stepped,
    pub end: Option<TaskEnd>,
}

/// What a run notes of its events: the events, the grants, how many events of each kind there were, and how each task stood
/// when its node last had it, in a table with a place for each phase and each of 16 cores.
#[derive(Drop)]
pub struct Log {
    pub events: Sequence<Event>,
    pub grants: Sequence<Grant>,
    pub counts: Counts,
    pub ends: Sequence<Option<TaskEnd>>,
}

/// No events, with room for the first ones.
fn no_events(alloc: Global) -> Result<Sequence<Event>, Memory>
    ensures { IfOk result (λ events. events ≡ []) }
{
    Ok(Sequence::from_vec(Vec::with_capacity(alloc, FIRST_EVENTS)?))
}

/// A table without ends, for this many phases.
fn no_ends(alloc: Global, phases: usize) -> Result<Sequence<Option<TaskEnd>>, Memory>
    requires { phases ≤ 64 }
    ensures { IfOk result (λ table. table ≡ no_ends phases) }
{
    Ok(Sequence::from_vec(vec![in alloc; None; MOST_CORES * phases]?))
}

/// Notes an end in its place.
#[inline(always)]
fn note_end(table: &mut Sequence<Option<TaskEnd>>, end: Option<TaskEnd>)
    ensures { table.new ≡ with_end end table.old }
{
    if let Some(end) = end {
        let place = MOST_CORES * end.phase.0 as usize + end.core.0 as usize;
        // the end of a task of the run always has a place; the definition ignores any other end
        if place < table.len() {
            table.set(place, Some(end));
        }
    }
}

impl Log {
    /// The log without events, for a program with this number of phases. Reserves room for 65,536 events at once.
    ///
    /// # Errors
    /// `Memory` if there is no room.
    pub(crate) fn new(alloc: Global, phases: usize) -> Result<Log, Memory>
        requires { phases ≤ 64 }
        ensures { IfOk result (λ log. log ≡ no_log phases) }
    {
        let events = no_events(alloc)?;
        let ends = no_ends(alloc, phases)?;
        Ok(Log {
            events,
            grants: Sequence::new(alloc),
            counts: Counts::none(),
            ends,
        })
    }

    /// Notes an event of a kind, without the grant that it may tell. The kind's count is below the greatest of its type.
    ///
    /// # Errors
    /// `Memory` if there is no room; the log can't be used any more then.
    #[inline(always)]
    pub(crate) fn note_event(&mut self, event: Event, kind: EventKind) -> Result<(), Memory>
        requires { kind_count kind self.old.counts < 18446744073709551615 }
        ensures { OnOk result (self.new ≡ with_told event kind None None self.old) }
    {
        self.events.push(event)?;
        self.counts.add(kind);
        Ok(())
    }

    /// Notes the grant that an event tells, if it tells one.
    ///
    /// # Errors
    /// `Memory` where there is no room; the log is then of no more use.
    #[inline(always)]
    pub(crate) fn note_grant(&mut self, granted: Option<Grant>) -> Result<(), Memory>
        ensures { OnOk result (self.new ≡ record self.old { grants = self.old.grants ++ listed granted }) }
    {
        match granted {
            Some(grant) => self.grants.push(grant),
            None => Ok(()),
        }
    }

    /// Notes an event. Its kind's count is below the greatest of its type.
    ///
    /// # Errors
    /// `Memory` if there is no room; the log can't be used any more then.
    #[inline(always)]
    pub fn note(&mut self, happened: Happened) -> Result<(), Memory>
        requires { kind_count happened.observed.kind self.old.counts < 18446744073709551615 }
        ensures { OnOk result (self.new ≡ with_event happened self.old) }
    {
        let told = happened.observed;
        self.note_event(happened.event, told.kind)?;
        self.note_grant(told.granted)?;
        note_end(&mut self.ends, happened.end);
        Ok(())
    }

    /// Notes how a task stands, in its place.
    pub fn note_end(&mut self, end: TaskEnd)
        ensures { self.new ≡ record self.old { ends = with_end (Some end) self.old.ends } }
    {
        note_end(&mut self.ends, Some(end));
    }

    /// The record of the run, with its ending.
    pub fn record(self, ending: Ending) -> RunRecord
        ensures { result ≡ record { events = self.events; grants = self.grants; counts = self.counts; ending = ending } }
    {
        RunRecord {
            events: self.events,
            grants: self.grants,
            counts: self.counts,
            ending,
        }
    }
}

/// The end that is noted in a place, if there is one.
fn noted_at(table: &[Option<TaskEnd>], place: usize) -> Option<TaskEnd>
    ensures { result ≡ end_in (slice_get table.now place) }
{
    match table.get(place) {
        Some(end) => *end,
        None => None,
    }
}

/// Adds an end, if there is one.
fn push_end(out: &mut Sequence<TaskEnd>, end: Option<TaskEnd>) -> Result<(), Memory>
    ensures { OnOk result (out.new ≡ out.old ++ listed end) }
{
    match end {
        Some(end) => out.push(end),
        None => Ok(()),
    }
}

/// Adds the noted ends of the tasks of a phase, in the order of cores.
fn push_ends(
    out: &mut Sequence<TaskEnd>,
    table: &[Option<TaskEnd>],
    phase: usize,
    tasks: &[TaskDecl],
) -> Result<(), Memory>
    requires { phase ≤ 64 }
    ensures { OnOk result (out.new ≡ out.old ++ filter_map (λ d. end_in (slice_get table.now (end_index phase d.core.0))) tasks.now) }
{
    for task in tasks {
        let place = MOST_CORES * phase + task.core.0 as usize;
        push_end(out, noted_at(table, place))?;
    }
    Ok(())
}

/// Adds the noted ends of the tasks of the first phases to no ends, in the order of phases and cores.
fn push_all_ends(
    out: &mut Sequence<TaskEnd>,
    table: &[Option<TaskEnd>],
    phases: &[Phase],
) -> Result<(), Memory>
    requires none { out.old ≡ [] }
    requires most { length phases.now ≤ 64 }
    ensures { OnOk result (out.new ≡ noted_ends table.now 0 phases.now) }
{
    let mut number = 0;
    for phase in phases {
        push_ends(out, table, number, phase.tasks.as_slice())?;
        number += 1;
    }
    Ok(())
}

/// The noted ends of the tasks of the first phases, in the order of phases and cores.
pub(crate) fn listed_ends(
    alloc: Global,
    table: &[Option<TaskEnd>],
    phases: &[Phase],
) -> Result<Sequence<TaskEnd>, Memory>
    requires { length phases.now ≤ 64 }
    ensures { IfOk result (λ ends. ends ≡ noted_ends table.now 0 phases.now) }
{
    let mut ends = Sequence::new(alloc);
    push_all_ends(&mut ends, table, phases)?;
    Ok(ends)
}
