ghost use Rattle.std.specs.Prelude.{◌≡◌, ◌↔◌, ◌<◌, ◌≤◌, length, None, IfOk};

use crate::Trouble;
use crate::event_machine::EventMachine;
use dn_base::Memory;
use message_net::{Actor, Event, EventKind};
use std::alloc::Global;
use std::str;

/// The greatest number of events of which all chains are tried: they have 65,536 subsets.
const MOST_TIMED_EVENTS: usize = 16;

/// An event that came: its actor, its ticks, for how many ticks its message was under way, and which of the run's events handle a
/// message that was in flight before it and after it.
#[derive(Drop)]
struct Came {
    actor: Actor,
    ticks: u64,
    delay: u64,
    before: Vec<bool>,
    behind: Vec<bool>,
}

impl Came {
    /// Whether it sent the message that the event with this number handles.
    fn has_sent(&self, number: usize) -> bool {
        self.before.get(number) == Some(&false) && self.behind.get(number) == Some(&true)
    }
}

/// The ticks that the events of each place take: a core's own, those that a bank handles, and all others. And the ticks of a message for
/// each hop: one hop, or those of a mesh in which this many banks are spread.
#[derive(Clone, Copy)]
pub struct PlaceTicks {
    pub core: u32,
    pub bank: u32,
    pub mail: u32,
    pub hop: u32,
    pub is_mesh: bool,
    pub banks: u32,
}

impl PlaceTicks {
    /// The ticks that an event of a kind takes.
    fn of(self, kind: EventKind) -> u32 {
        match kind {
            EventKind::Instr | EventKind::Evict | EventKind::Arrive => self.core,
            EventKind::ReadReq
            | EventKind::RegReq
            | EventKind::WriteBack
            | EventKind::Acquire
            | EventKind::Release => self.bank,
            _ => self.mail,
        }
    }

    /// The tile of an actor on the mesh of 4 × 4 tiles.
    fn tile(self, actor: Actor) -> u64 {
        match actor {
            Actor::Core(core) => u64::from(core.0),
            Actor::Bank(bank) => (16 * u64::from(bank.0))
                .checked_div(u64::from(self.banks))
                .unwrap_or(0),
            Actor::Keeper => 5,
        }
    }

    /// For how many ticks a message is under way.
    fn delay(self, from: Actor, to: Actor) -> u64 {
        let (here, there) = (self.tile(from), self.tile(to));
        let columns = (here % 4).abs_diff(there % 4);
        let rows = (here / 4).abs_diff(there / 4);
        let hops = if self.is_mesh {
            columns.saturating_add(rows)
        } else {
            1
        };
        u64::from(self.hop).saturating_mul(hops)
    }

    /// For how many ticks the message that an event handles is under way; 0 if it handles none.
    fn handled_delay(self, event: Event, to: Actor) -> u64 {
        match event {
            Event::Handle(id) => self.delay(id.sender, to),
            _ => 0,
        }
    }
}

/// Which of the events handle a message that is in flight.
fn in_flight<M: EventMachine>(
    alloc: Global,
    machine: &M,
    events: &[Event],
) -> Result<Vec<bool>, Memory> {
    let mut found = Vec::new(alloc);
    for event in events {
        found.push(matches!(event, Event::Handle(_)) && machine.may_come(event))?;
    }
    Ok(found)
}

/// Makes one of the events, and tells of it.
///
/// # Errors
/// `NotNow` where it is not enabled.
fn come<M: EventMachine>(
    alloc: Global,
    machine: &mut M,
    event: Event,
    events: &[Event],
    ticks: PlaceTicks,
) -> Result<Came, Trouble> {
    let actor = machine.actor(&event)?;
    let before = in_flight(alloc, machine, events)?;
    let stepped = machine.make(event)?;
    Ok(Came {
        actor,
        ticks: u64::from(ticks.of(stepped.kind)),
        delay: ticks.handled_delay(event, actor),
        before,
        behind: in_flight(alloc, machine, events)?,
    })
}

/// Makes all events, and tells of each.
fn all_came<M: EventMachine>(
    alloc: Global,
    machine: &mut M,
    events: &[Event],
    ticks: PlaceTicks,
) -> Result<Vec<Came>, Trouble>
    ensures { IfOk result (λ all. length all.items ≡ length events.now) }
{
    let mut all = Vec::new(alloc);
    for event in events {
        all.push(come(alloc, machine, *event, events, ticks)?)?;
    }
    Ok(all)
}

/// Whether no event between an earlier one and one with this number is the actor's.
fn is_next(all: &[Came], earlier: usize, number: usize, actor: Actor) -> bool {
    !all.iter().enumerate().any(|(place, other)| earlier < place
        && place < number
        && other.actor == actor)
}

/// Whether an event depends on an earlier one: both are the same actor's and no event between them is, or the earlier one sent
/// the message that it handles.
fn depends(all: &[Came], earlier: usize, number: usize) -> bool {
    let (Some(first), Some(event)) = (all.get(earlier), all.get(number)) else {
        return false;
    };
    let is_own = first.actor == event.actor && is_next(all, earlier, number, event.actor);
    is_own || first.has_sent(number)
}

/// What a step takes from an earlier event to one with this number: its message's delay, if the earlier one sent that.
fn step(all: &[Came], earlier: usize, number: usize) -> u64 {
    match (all.get(earlier), all.get(number)) {
        (Some(first), Some(event)) if first.has_sent(number) => event.delay,
        _ => 0,
    }
}

/// What an event with this number adds to a chain, after another event or as its first; None where it doesn't depend on that event.
fn added(all: &[Came], before: Option<usize>, number: usize, event: &Came) -> Option<u64> {
    match before {
        None => Some(event.ticks),
        Some(before) if depends(all, before, number) => {
            Some(event.ticks.saturating_add(step(all, before, number)))
        }
        Some(_) => None,
    }
}

/// What a set of the events takes, where each of them depends on the one before it in the set; None where one doesn't. The set
/// has the event with a number where it has that bit.
fn cost(all: &[Came], set: u32) -> Option<u64> {
    let mut left = set;
    let mut cost = 0_u64;
    let mut before = None;
    for (number, event) in all.iter().enumerate() {
        if left % 2 == 1 {
            cost = cost.saturating_add(added(all, before, number, event)?);
            before = Some(number);
        }
        left /= 2;
    }
    Some(cost)
}

/// The greatest that a chain of the events takes, by a search of all their sets.
fn greatest(all: &[Came]) -> u64
    requires { length all.now ≤ 16 }
{
    let sets = 1_u32 << all.len();
    (0..sets)
        .filter_map(|set| cost(all, set))
        .max()
        .unwrap_or(0)
}

/// What a line tells as the time.
fn time_in(line: &[u8]) -> Option<&str> {
    match str::from_utf8(line) {
        Ok(line) => line.strip_prefix("time "),
        Err(_) => None,
    }
}

/// The time that is told in an output.
fn told_time(output: &[u8]) -> Option<u64> {
    output
        .split(|byte| *byte == b'\n')
        .find_map(time_in)?
        .parse::<u64>()
        .ok()
}

/// Whether an output tells how long a run takes, found by a search of all chains of its events, which the initial machine makes
/// again; None if there are more than 16 events, which have too many chains.
///
/// # Errors
/// `NotNow` where an event is not enabled.
pub fn is_slowest<M: EventMachine>(
    alloc: Global,
    machine: &mut M,
    output: &[u8],
    events: &[Event],
    ticks: PlaceTicks,
) -> Result<Option<bool>, Trouble>
    ensures { IfOk result (λ told. told ≡ None ↔ 16 < length events.now) }
{
    if MOST_TIMED_EVENTS < events.len() {
        return Ok(None);
    }
    let all = all_came(alloc, machine, events, ticks)?;
    Ok(Some(told_time(output) == Some(greatest(all.as_slice()))))
}
