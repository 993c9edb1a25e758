//! An event is noted.
ghost use Rattle.std.specs.Prelude.{◌≡◌, ◌+◌, ◌<◌, ◌≤◌, true, false, length, Some, None, Ok, IfOk, OnOk, IfSome, IfNone};
ghost use Rattle.message_net.specs.declared.actor.Actor.TheVariants as actor;
ghost use Rattle.message_net.specs.declared.event.Event.TheVariants as event;
ghost use Rattle.message_net.specs.Pool.{removed};
ghost use Rattle.machine_rules.specs.Runs.{IsRun};
ghost use Rattle.run_account.specs.Account.{no_account, account_after, account_of_run};

use crate::Grouping;
use crate::account::Account;
use dn_base::{BankId, CoreId, Memory, WordId};
use dn_machine::{Machine, a_machine_is_kept};
use message_net::{Actor, Event, Mail, MailId};
use std::alloc::Global;

impl Account {
    #[tactic(auto, using(crate::proofs::After::after_instr, crate::proofs::After::after_no_instr))]
    fn note_instr_of(&mut self, machine: &Machine, core: CoreId)
        ensures { self.new ≡ account_after machine.now.state (event.Instr core) self.old }
    {
        // for the proof alone: there are as many nodes as cores
        a_machine_is_kept(machine);
        if core.0 < machine.shape().cores {
            self.note_instr(machine, machine.node(core));
        }
    }

    #[tactic(auto, using(crate::proofs::After::after_evict, crate::proofs::After::after_no_evict))]
    fn note_evict_of(&mut self, machine: &Machine, core: CoreId, word: WordId)
        ensures { self.new ≡ account_after machine.now.state (event.Evict core word) self.old }
    {
        // for the proof alone: there are as many nodes as cores, each in its place
        a_machine_is_kept(machine);
        if core.0 < machine.shape().cores {
            self.note_evict(machine.node(core), word);
        }
    }

    /// Notes the handling of a message to a core.
    #[tactic(auto, using(crate::proofs::After::after_core_mail, crate::proofs::After::after_no_core))]
    fn note_core_mail(&mut self, machine: &Machine, id: MailId, core: CoreId, mail: Mail)
        requires mail { (removed id machine.now.state.mails).0 ≡ Some mail }
        requires to { mail.to ≡ actor.Core core }
        ensures { self.new ≡ account_after machine.now.state (event.Handle id) self.old }
    {
        // for the proof alone: there are as many nodes as cores, each in its place and with a cache of the machine's size
        a_machine_is_kept(machine);
        if core.0 < machine.shape().cores {
            self.note_message(machine, machine.node(core), mail.id.sender, mail.message);
        }
    }

    /// Notes the handling of a message to a bank.
    #[tactic(auto, using(crate::proofs::After::after_bank_mail, crate::proofs::After::after_no_bank))]
    fn note_bank_mail(&mut self, machine: &Machine, id: MailId, bank: BankId, mail: Mail)
        requires mail { (removed id machine.now.state.mails).0 ≡ Some mail }
        requires to { mail.to ≡ actor.Bank bank }
        ensures { self.new ≡ account_after machine.now.state (event.Handle id) self.old }
    {
        // for the proof alone: there are as many banks as the shape says, each in its place
        a_machine_is_kept(machine);
        let shape = machine.shape();
        if bank.0 < shape.banks {
            self.note_bank(machine.bank(bank), shape.cores, mail.message);
        }
    }

    /// Notes the handling of a message.
    #[tactic(auto, using(crate::proofs::After::after_keeper_mail))]
    fn note_mail(&mut self, machine: &Machine, id: MailId, mail: Mail)
        requires { (removed id machine.now.state.mails).0 ≡ Some mail }
        ensures { self.new ≡ account_after machine.now.state (event.Handle id) self.old }
    {
        match mail.to {
            Actor::Core(core) => self.note_core_mail(machine, id, core, mail),
            Actor::Bank(bank) => self.note_bank_mail(machine, id, bank, mail),
            Actor::Keeper => {}
        }
    }

    /// Notes the handling of the message with this id, if it is in flight.
    #[tactic(auto, using(crate::proofs::After::after_no_mail))]
    fn note_handle(&mut self, machine: &Machine, id: MailId)
        ensures { self.new ≡ account_after machine.now.state (event.Handle id) self.old }
    {
        let pool = machine.pool();
        if let Some(place) = pool.place_of(id) {
            self.note_mail(machine, id, pool.at(place));
        }
    }

    /// Notes an event that comes next on the machine. Takes no memory. A Go or a Grant looks once at each place of one cache, a
    /// store that registers its word at one entry of each core, and any other event at a few entries.
    #[tactic(auto, using(crate::proofs::After::after_arrive))]
    pub fn note(&mut self, machine: &Machine, event: Event)
        ensures { self.new ≡ account_after machine.now.state event self.old }
    {
        match event {
            Event::Instr(core) => self.note_instr_of(machine, core),
            Event::Evict(core, word) => self.note_evict_of(machine, core, word),
            Event::Arrive(_) => {}
            Event::Handle(id) => self.note_handle(machine, id),
        }
    }

    /// Notes the events that come on a machine, up to the first that is not enabled. Returns whether all of them came.
    ///
    /// # Errors
    /// `Memory` where there is no room for the messages.
    fn note_all(&mut self, machine: &mut Machine, events: &[Event]) -> Result<bool, Memory>
        requires few { machine.old.made + length events.now ≤ 4000000000 }
        ensures leads { result ≡ Ok true → self.new ≡ account_of_run machine.old.state self.old events.now }
        ensures comes { result ≡ Ok true → IsRun machine.old.state events.now }
        ensures none { result ≡ Ok false → IsRun machine.old.state events.now → ⊥ }
        ensures setting { OnOk result (machine.new.state.setting ≡ machine.old.state.setting) }
    {
        for event in events {
            // it is noted before it comes, with the state before it
            self.note(machine, *event);
            let came = machine.try_step(*event)?;
            match came {
                Some(_) => {}
                None => return Ok(false),
            }
        }
        Ok(true)
    }
}

/// The account of the events that come on a machine that is lent, in these groups; None if one of them is not enabled. Fewer than
/// 4,000,000,000 events must have come on the machine after them. Afterwards it is as the events leave it, up to the first that
/// is not enabled; `Machine::reset` sets it back.
///
/// # Errors
/// `Memory` where there is no room.
pub fn account_of(
    alloc: Global,
    machine: &mut Machine,
    events: &[Event],
    by: Grouping,
) -> Result<Option<Account>, Memory>
    requires few { machine.old.made + length events.now ≤ 4000000000 }
    ensures some { IfOk result (λ came. IfSome came (λ account. account ≡ account_of_run machine.old.state (no_account machine.old.state.setting by) events.now)) }
    ensures comes { IfOk result (λ came. IfSome came (λ account. IsRun machine.old.state events.now)) }
    ensures none { IfOk result (λ came. IfNone came (IsRun machine.old.state events.now → ⊥)) }
    ensures setting { OnOk result (machine.new.state.setting ≡ machine.old.state.setting) }
{
    let mut account = Account::new(alloc, machine, by)?;
    if account.note_all(machine, events)? {
        Ok(Some(account))
    } else {
        Ok(None)
    }
}
