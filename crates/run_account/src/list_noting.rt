//! An event is noted.
ghost use Rattle.std.specs.Prelude.{◌≡◌, ◌+◌, ◌≤◌, ◌++◌, true, false, length, slice_get, Some, Ok, IfOk, OnOk, IfSome, IfNone};
ghost use Rattle.message_net.specs.declared.event.Event.TheVariants as event;
ghost use Rattle.message_net.specs.Pool.{removed};
ghost use Rattle.run_account.specs.Tallies.{with_items};
ghost use Rattle.run_account.specs.Lists.{share_of, lists_after};
ghost use Rattle.machine_rules.specs.Runs.{IsRun};
ghost use Rattle.run_account.specs.Runs.{served_mail_items, served_items, phase_in, carried_mail_items, value_items, items_of, nothing_listed, listing, listed_after, count_of_run};

use crate::access::CountedAccess;
use crate::listing::Listing;
use crate::retired::access_retired;
use crate::served::{core_carried, core_served, measure_of_kind};
use crate::{Grouping, Item, Measure};
use dn_base::{CoreId, Memory, PhaseId, WordId};
use dn_machine::{Machine, a_machine_is_kept};
use message_net::{Event, Mail, MailId};
use std::alloc::Global;

/// The phase of a core.
fn phase_of(machine: &Machine, core: CoreId) -> PhaseId
    ensures { result.0 ≡ phase_in (slice_get machine.now.state.nodes core.0) }
{
    // for the proof alone: there are as many nodes as cores
    a_machine_is_kept(machine);
    if core.0 < machine.shape().cores {
        machine.node(core).phase()
    } else {
        PhaseId(0)
    }
}

impl Listing {
    /// Counts a message about a word that serves a core.
    fn note_served(&mut self, machine: &Machine, core: CoreId, word: WordId)
        ensures { self.new ≡ listing self.old (served_items machine.now.state (Some (core, word))) }
    {
        // for the proof alone: there are as many nodes as cores
        a_machine_is_kept(machine);
        if core.0 < machine.shape().cores {
            self.table.add(Item {
                measure: Measure::Messages,
                phase: machine.node(core).phase(),
                core,
                word: Some(word),
            });
        }
    }

    fn note_mail(&mut self, machine: &Machine, mail: Mail)
        ensures { self.new ≡ listing self.old (served_mail_items machine.now.state (Some mail)) }
    {
        if let Some((core, word)) = core_served(mail.to, mail.message) {
            self.note_served(machine, core, word);
        }
    }

    /// Counts a message by its kind.
    fn note_kind(&mut self, machine: &Machine, mail: Mail)
        ensures { self.new ≡ listing self.old (carried_mail_items machine.now.state (Some mail)) }
    {
        if let Some((core, word)) = core_carried(mail.to, mail.message) {
            if let Some(measure) = measure_of_kind(mail.message.kind()) {
                self.table.add(Item {
                    measure,
                    phase: phase_of(machine, core),
                    core,
                    word,
                });
            }
        }
    }

    /// Counts a message: one about a word as a message, and each by its kind.
    fn note_both(&mut self, machine: &Machine, mail: Mail)
        ensures { self.new ≡ listing self.old (served_mail_items machine.now.state (Some mail) ++ carried_mail_items machine.now.state (Some mail)) }
    {
        self.note_mail(machine, mail);
        self.note_kind(machine, mail);
    }

    /// Notes the handling of the message with this id, if it is in flight.
    fn note_handle(&mut self, machine: &Machine, id: MailId)
        ensures { self.new ≡ listing self.old (served_mail_items machine.now.state (removed id machine.now.state.mails).0 ++ carried_mail_items machine.now.state (removed id machine.now.state.mails).0) }
    {
        let pool = machine.pool();
        if let Some(place) = pool.place_of(id) {
            self.note_both(machine, pool.at(place));
        }
    }

    /// Counts the reply that brings the value of a word of which the core has no copy.
    fn note_value(&mut self, access: &CountedAccess)
        ensures { self.new ≡ listing self.old (value_items access.now (share_of self.old.lists access.now.core.0 access.now.word.0)) }
    {
        if self.lists.share(access.core, access.word).is_none() {
            self.count(access, access.word, Measure::ListReplyValues);
        }
    }

    /// Notes an access that retires.
    fn note_retired(&mut self, access: &CountedAccess) -> Result<(), Memory>
        ensures { OnOk result (self.new ≡ record { tallies = with_items self.old.tallies (items_of self.old.lists (Some access.now)); lists = lists_after self.old.lists access.now }) }
    {
        self.note_value(access);
        self.note_access(access)
    }

    fn note_instr(&mut self, machine: &Machine, core: CoreId) -> Result<(), Memory>
        ensures { OnOk result (self.new ≡ listed_after machine.now.state (event.Instr core) self.old) }
    {
        // for the proof alone: there are as many nodes as cores
        a_machine_is_kept(machine);
        if core.0 < machine.shape().cores {
            if let Some(access) = access_retired(machine, core, machine.node(core)) {
                self.note_retired(&access)?;
            }
        }
        Ok(())
    }

    /// Notes an event that comes next on the machine. A hit looks at one set of the core, another access at one set of each core, and
    /// a message at nothing.
    ///
    /// # Errors
    /// `Memory` where there is no room for a word that a core gets.
    pub fn note(&mut self, machine: &Machine, event: Event) -> Result<(), Memory>
        ensures { OnOk result (self.new ≡ listed_after machine.now.state event self.old) }
    {
        match event {
            Event::Instr(core) => self.note_instr(machine, core),
            Event::Handle(id) => {
                self.note_handle(machine, id);
                Ok(())
            }
            Event::Evict(..) | Event::Arrive(_) => Ok(()),
        }
    }

    /// Notes the events that come on a machine, up to the first that is not enabled. Returns whether all of them came.
    ///
    /// # Errors
    /// `Memory` where there is no room for the messages, or for the words of the caches.
    fn note_all(&mut self, machine: &mut Machine, events: &[Event]) -> Result<bool, Memory>
        requires few { machine.old.made + length events.now ≤ 4000000000 }
        ensures leads { result ≡ Ok true → self.new ≡ count_of_run machine.old.state self.old events.now }
        ensures comes { result ≡ Ok true → IsRun machine.old.state events.now }
        ensures none { result ≡ Ok false → IsRun machine.old.state events.now → ⊥ }
        ensures setting { OnOk result (machine.new.state.setting ≡ machine.old.state.setting) }
    {
        for event in events {
            // it is noted before it comes, with the state before it
            self.note(machine, *event)?;
            let came = machine.try_step(*event)?;
            match came {
                Some(_) => {}
                None => return Ok(false),
            }
        }
        Ok(true)
    }
}

/// The events that come on a machine that is lent, beside lists of sharers, in these groups; None if one of them is not enabled.
/// Fewer than 4,000,000,000 events must have come on the machine after them. Afterwards it is as the events leave it, up to the
/// first that is not enabled; `Machine::reset` sets it back.
///
/// # Errors
/// `Memory` where there is no room.
pub fn listing_of(
    alloc: Global,
    machine: &mut Machine,
    events: &[Event],
    by: Grouping,
) -> Result<Option<Listing>, Memory>
    requires few { machine.old.made + length events.now ≤ 4000000000 }
    ensures some { IfOk result (λ came. IfSome came (λ listing. listing ≡ count_of_run machine.old.state (nothing_listed machine.old.state.setting by) events.now)) }
    ensures comes { IfOk result (λ came. IfSome came (λ listing. IsRun machine.old.state events.now)) }
    ensures none { IfOk result (λ came. IfNone came (IsRun machine.old.state events.now → ⊥)) }
    ensures setting { OnOk result (machine.new.state.setting ≡ machine.old.state.setting) }
{
    let mut listing = Listing::new(alloc, machine, by)?;
    if listing.note_all(machine, events)? {
        Ok(Some(listing))
    } else {
        Ok(None)
    }
}
