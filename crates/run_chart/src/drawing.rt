ghost use Rattle.std.specs.Prelude.{◌≡◌, ◌+◌, ◌*◌, ◌++◌, ◌∷◌, ◌<◌, ◌≤◌, ℕ, [], false, None, Some, Ok, drop, length, map, IfOk, OnOk};
ghost use Rattle.message_net.specs.Pool.{removed};
ghost use Rattle.machine_rules.specs.Next.{enabled, next};
ghost use Rattle.machine_rules.specs.Sound.{IsMachine};
ghost use Rattle.dn_machine.specs.Actors.{receiver_of};
ghost use Rattle.run_chart.specs.declared.parts.ChartRow.{ChartRow as ARow};
ghost use Rattle.run_chart.specs.Drawing.{event_maker, is_past, row_lines, the_actor, with_rows, HaveCome, HasRow, IsLookBefore, IsRowed};
ghost use Rattle.run_chart.specs.Picture.{end_lines};
ghost use Rattle.run_chart.specs.Mails.{AreNotedFor, mails_left, sent_on};
ghost use Rattle.run_chart.specs.Words.{changes_among, word_state};

use crate::about::{about, ends_by, needed_by};
use crate::gathering::affected_words;
use crate::mails::{SentMail, after_event, origin_of, place_handled};
use crate::marks::marks;
use crate::words::{HeldWord, changes, held_words};
use crate::{About, ChartRow, Origin, WordChange};
use dn_base::{MOST_EVENTS, Memory, PhaseId, Sequence};
use dn_machine::{Machine, a_machine_is_kept};
use message_net::{Actor, Event, MailId, Pool};
use rv_core::{End, Need};
use std::alloc::Global;
use std::mem;

/// Which events have rows: the number of the first, from 0, and the greatest number of rows, up to 4,096.
#[derive(Clone, Copy, PartialEq, Eq)]
pub struct Range {
    pub first: u32,
    pub most: u32,
}

/// What is drawn of the events so far: the machine to which they led, the messages in flight with the lines on which they were
/// sent, the number of the next event, the next line, and the rows.
#[derive(Drop)]
pub(crate) struct Drawing {
    pub(crate) machine: Machine,
    pub(crate) sent: Sequence<SentMail>,
    pub(crate) event: u32,
    pub(crate) line: u32,
    pub(crate) rows: Sequence<ChartRow>,
}

/// What is looked at before an event.
#[derive(Drop)]
pub(crate) struct Look {
    /// The place of the message that it handles.
    pub(crate) place: Option<u32>,
    pub(crate) actor: Actor,
    pub(crate) about: About,
    /// What its instruction needs.
    pub(crate) need: Option<Need>,
    /// The barrier controller's phase.
    pub(crate) phase: PhaseId,
    /// Where its message comes from.
    pub(crate) mail: Option<Origin>,
    /// How the actor's task ends with it.
    pub(crate) end: Option<End>,
    /// What the actor holds for each data word that the event may change.
    pub(crate) held: Sequence<HeldWord>,
}

/// Makes events one after the other, as long as each is enabled. Returns whether all of them came.
///
/// # Errors
/// `Memory` where there is no room for the messages.
pub(crate) fn pass(machine: &mut Machine, events: &[Event]) -> Result<bool, Memory>
    requires made { machine.old.made ≡ 0 }
    requires few { length events.now ≤ MOST_EVENTS }
    ensures led_to { IfOk result (HaveCome machine.old machine.new events.now) }
    ensures made { OnOk result (machine.new.made ≤ length events.now) }
    ensures setting { OnOk result (machine.new.state.setting ≡ machine.old.state.setting) }
{
    for event in events {
        let came = machine.try_step(*event)?;
        if came.is_none() {
            return Ok(false);
        }
    }
    Ok(true)
}

/// The receiver of the message with this id; the barrier controller if no message in flight has the id.
fn receiver(pool: &Pool, id: MailId) -> Actor
    ensures { result ≡ the_actor (receiver_of (removed id pool.now.mails).0) }
{
    match pool.place_of(id) {
        Some(place) => pool.at(place).to,
        None => Actor::Keeper,
    }
}

/// The actor that makes an event, if it is enabled.
#[tactic(auto, unfolding(dn_machine::specs::Actors::actor_in))]
fn event_maker(machine: &Machine, event: Event) -> Actor
    ensures { result ≡ event_maker machine.now.state event }
{
    match event {
        Event::Instr(core) => Actor::Core(core),
        Event::Evict(core, _) => Actor::Core(core),
        Event::Arrive(core) => Actor::Core(core),
        Event::Handle(id) => receiver(machine.pool(), id),
    }
}

/// Looks at what the row of an event tells of the state before it.
fn look_at(
    alloc: Global,
    machine: &Machine,
    sent: &[SentMail],
    event: Event,
) -> Result<Look, Memory>
    requires machine { IsMachine machine.now.state }
    requires sent { AreNotedFor sent.now machine.now.state.mails }
    ensures { IfOk result (IsLookBefore machine.now.state sent.now event) }
{
    let actor = event_maker(machine, event);
    let words = affected_words(alloc, machine, event)?;
    Ok(Look {
        place: place_handled(machine.pool(), event),
        actor,
        about: about(machine, event),
        need: needed_by(machine, event),
        phase: machine.keeper().phase(),
        mail: origin_of(machine.pool(), sent, event),
        end: ends_by(machine, event),
        held: held_words(alloc, machine, actor, words.as_slice())?,
    })
}

/// Whether the barrier controller is in another phase than this one.
fn is_past(machine: &Machine, phase: PhaseId) -> bool
    ensures { result ≡ is_past machine.now.state phase }
{
    machine.keeper().phase().0 != phase.0
}

/// How many lines a task's end takes.
fn end_lines(end: Option<End>) -> u32
    ensures value { result ≡ end_lines end }
    ensures most { result ≤ 1 }
{
    match end {
        Some(_) => 1,
        None => 0,
    }
}

/// How many lines a row has: one for its event, one if a task ends, and one for each change.
pub(crate) fn row_lines(end: Option<End>, changes: &[WordChange]) -> u32
    requires { length changes.now ≤ 65536 }
    ensures { result ≡ row_lines end changes.now }
{
    1 + end_lines(end) + changes.len() as u32
}

/// Makes an event if it is enabled, and gives its row, with this number and first line; None if it is not.
fn row_of(
    alloc: Global,
    machine: &mut Machine,
    before: &Look,
    event: Event,
    number: u32,
    line: u32,
    on_chain: bool,
) -> Result<Option<ChartRow>, Memory>
    requires made { machine.old.made < 4000000000 }
    requires few { length (changes_among (word_state (next machine.old.state event) before.now.actor) before.now.held) ≤ 65536 }
    ensures none { result ≡ Ok None → (enabled machine.old.state event ≡ false) × (machine.new ≡ machine.old) }
    ensures came { (row : ARow) → result ≡ Ok (Some row) → HasRow machine.old machine.new event before.now number line on_chain row }
{
    let came = machine.try_step(event)?;
    let Some((_, stepped)) = came else {
        return Ok(None);
    };
    // for the proof alone: the machine is well formed after the event too
    a_machine_is_kept(machine);
    let changes = changes(alloc, machine, before.actor, before.held.as_slice())?;
    Ok(Some(ChartRow {
        event: number,
        actor: before.actor,
        kind: stepped.kind,
        about: before.about,
        need: before.need,
        phase: before.phase,
        ends_phase: is_past(machine, before.phase),
        line,
        lines: row_lines(before.end, changes.as_slice()),
        mail: before.mail,
        changes,
        end: before.end,
        on_chain,
    }))
}

impl Drawing {
    /// Adds the row of an event that came and handled the message at a place, and notes the messages that it sent.
    fn note(&mut self, alloc: Global, row: ChartRow, place: Option<u32>) -> Result<(), Memory>
        requires place { (p : ℕ) → place ≡ Some p → p < length self.old.sent }
        requires fewer { length (mails_left place self.old.sent) ≤ length self.old.machine.state.mails }
        requires event { self.old.event < 4000000000 }
        requires line { self.old.line ≤ 65538 * length self.old.rows }
        requires rows { length self.old.rows < 4096 }
        requires most { row.lines ≤ 65538 }
        ensures { OnOk result (self.new ≡ record self.old {
          sent = mails_left place self.old.sent ++ map (sent_on (Some self.old.line)) (drop (length (mails_left place self.old.sent)) self.old.machine.state.mails);
          event = self.old.event + 1;
          line = self.old.line + row.lines;
          rows = self.old.rows ++ row ∷ [];
        }) }
    {
        let sent = mem::replace(&mut self.sent, Sequence::new(alloc));
        self.sent = after_event(sent, place, self.machine.pool(), self.line)?;
        self.line += row.lines;
        self.event += 1;
        self.rows.push(row)
    }

    /// Makes the next event if it is enabled, and adds its row. Returns whether it came.
    fn add_row(&mut self, alloc: Global, event: Event, on_chain: bool) -> Result<bool, Memory>
        requires made { self.old.machine.made < 4000000000 }
        requires event { self.old.event < 4000000000 }
        requires line { self.old.line ≤ 65538 * length self.old.rows }
        requires rows { length self.old.rows < 4096 }
        requires sent { AreNotedFor self.old.sent self.old.machine.state.mails }
        ensures { IfOk result (IsRowed on_chain self.old self.new event) }
    {
        // for the proof alone: the machine is well formed, so that what the event sends has ids of its own
        a_machine_is_kept(&self.machine);
        let before = look_at(alloc, &self.machine, self.sent.as_slice(), event)?;
        let came = row_of(
            alloc,
            &mut self.machine,
            &before,
            event,
            self.event,
            self.line,
            on_chain,
        )?;
        let Some(row) = came else {
            return Ok(false);
        };
        self.note(alloc, row, before.place)?;
        Ok(true)
    }

    /// Makes the events of the range, as long as each is enabled, and adds their rows.
    ///
    /// # Errors
    /// `Memory` where there is no room.
    pub(crate) fn add_rows(
        &mut self,
        alloc: Global,
        events: &[Event],
        chain: &[u32],
    ) -> Result<(), Memory>
        requires made { self.old.machine.made ≤ MOST_EVENTS }
        requires event { self.old.event ≤ MOST_EVENTS }
        requires line { self.old.line ≡ 0 }
        requires rows { self.old.rows ≡ [] }
        requires few { length events.now ≤ 4096 }
        requires sent { AreNotedFor self.old.sent self.old.machine.state.mails }
        ensures rows { OnOk result (self.new ≡ with_rows chain.now self.old events.now) }
        ensures sent { OnOk result (AreNotedFor self.new.sent self.new.machine.state.mails) }
        ensures made { OnOk result (self.new.machine.made ≤ 25173760) }
        ensures lines { OnOk result (self.new.line ≤ 268443648) }
    {
        let marks = marks(alloc, chain, self.event, events.len())?;
        let mut place = 0;
        for event in events {
            let came = self.add_row(alloc, *event, marks[place])?;
            if !came {
                return Ok(());
            }
            place += 1;
        }
        Ok(())
    }
}
