ghost use Rattle.std.specs.Prelude.{◌≡◌, ◌++◌, ◌+◌, ◌<◌, ◌≤◌, length, take, drop, IfOk, OnOk};
ghost use Rattle.machine_rules.specs.Runs.{IsRun};
ghost use Rattle.machine_rules.specs.State.{initial_state};
ghost use Rattle.page_data.specs.Page.{head_part, start_part, events_part, page_text};

use crate::events::{pass, push_events, push_start};
use crate::head::{push_run, push_timing, push_title};
use crate::program::{push_program, push_sizes};
use dn_base::{MOST_EVENTS, Memory, Sequence};
use dn_machine::Machine;
use grant_log::Counts;
use message_net::Event;
use run_timing::Timing;
use rv_core::Ending;
use std::alloc::Global;

/// The greatest number of events on a page.
pub const MOST_ROWS: u32 = 20_000;

/// What a page tells of its run, besides the program and the events: a title, the program's text, how the run ended, how many
/// events of each kind it has, its longest chain by these ticks, and which events the page has: the number of the first, from
/// 0, and the greatest number of them.
#[derive(Clone, Copy)]
pub struct Page<'a> {
    pub name: &'a [u8],
    pub source: &'a [u8],
    pub ending: &'a Ending,
    pub counts: Counts,
    pub tick_core: u32,
    pub tick_bank: u32,
    pub tick_mail: u32,
    pub timing: &'a Timing,
    pub first: u32,
    pub most: u32,
}

/// The first `wanted` events, and those after them.
#[tactic(auto, using(std::proofs::lemmas::List::take_all, std::proofs::lemmas::List::drop_all))]
pub(crate) fn part(events: &[Event], wanted: u32) -> (&[Event], &[Event])
    ensures front { result.0.now ≡ take wanted events.now }
    ensures back { result.1.now ≡ drop wanted events.now }
{
    match events.split_at_checked(wanted as usize) {
        Some(parts) => parts,
        None => (events, &[]),
    }
}

/// Adds what doesn't change in the run.
fn push_head(
    alloc: Global,
    out: &mut Vec<u8>,
    machine: &Machine,
    page: &Page<'_>,
    events: usize,
) -> Result<(), Memory>
    ensures { OnOk result (out.new.items ≡ out.old.items ++ head_part machine.now.state.setting page.now events) }
{
    push_title(out, page.name)?;
    push_sizes(out, machine)?;
    push_program(alloc, out, machine, page.source)?;
    push_run(out, page, events)?;
    push_timing(out, page)
}

/// Adds the state before some events, and then the events.
pub(crate) fn push_states(
    alloc: Global,
    out: &mut Vec<u8>,
    machine: &mut Machine,
    events: &[Event],
) -> Result<(), Memory>
    requires run { IsRun machine.old.state events.now }
    requires few { machine.old.made + length events.now ≤ 4000000000 }
    ensures text { OnOk result (out.new.items ≡ out.old.items ++ (start_part machine.old.state ++ events_part machine.old.state events.now)) }
    ensures setting { OnOk result (machine.new.state.setting ≡ machine.old.state.setting) }
{
    push_start(alloc, out, machine)?;
    push_events(alloc, out, machine, events)
}

/// Adds the data of a machine's page.
#[tactic(auto, using(crate::proofs::Runs::run_front, crate::proofs::Runs::run_back), unfolding(crate::specs::Page::page_text))]
fn push_text(
    alloc: Global,
    out: &mut Vec<u8>,
    machine: &mut Machine,
    events: &[Event],
    page: &Page<'_>,
) -> Result<(), Memory>
    requires initial { machine.old.state ≡ initial_state machine.old.state.setting }
    requires made { machine.old.made ≡ 0 }
    requires run { IsRun machine.old.state events.now }
    requires few { length events.now ≤ MOST_EVENTS }
    ensures text { OnOk result (out.new.items ≡ out.old.items ++ page_text machine.old.state.setting events.now page.now) }
    ensures setting { OnOk result (machine.new.state.setting ≡ machine.old.state.setting) }
{
    push_head(alloc, out, machine, page, events.len())?;
    let (before, rest) = part(events, page.first);
    pass(machine, before)?;
    let (wanted, _) = part(rest, page.most);
    push_states(alloc, out, machine, wanted)
}

/// The data of the page of a run, as one JSON text in ASCII without `<`: the program and its text, how the run ended, the state
/// before the page's first event, and what each of its events changes in its actor's state and sends.
///
/// No event may have come on the machine, which is lent; the events must be a run of it, and at most 25,169,664. The page has at
/// most 20,000 of them. Afterwards the machine is as the page's last event leaves it; `Machine::reset` sets it back.
///
/// An event before the page is only made, and one after it isn't looked at. A Go or a Grant on the page looks at each place of
/// one cache, and any other event at a few words, at each lock, and at what it sends.
///
/// # Errors
/// `Memory` if there is no room for the messages or the text.
pub fn page_text(
    alloc: Global,
    machine: &mut Machine,
    events: &[Event],
    page: &Page<'_>,
) -> Result<Sequence<u8>, Memory>
    requires initial { machine.old.state ≡ initial_state machine.old.state.setting }
    requires made { machine.old.made ≡ 0 }
    requires run { IsRun machine.old.state events.now }
    requires few { length events.now ≤ MOST_EVENTS }
    requires most { page.now.most ≤ 20000 }
    ensures text { IfOk result (λ text. text ≡ page_text machine.old.state.setting events.now page.now) }
    ensures setting { OnOk result (machine.new.state.setting ≡ machine.old.state.setting) }
{
    let mut out = Vec::new(alloc);
    push_text(alloc, &mut out, machine, events, page)?;
    Ok(Sequence::from_vec(out))
}
