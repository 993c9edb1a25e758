//! What is counted of a message that a core or a bank handles.
ghost use Rattle.std.specs.Prelude.{◌≡◌, ◌<◌, [], ◌∷◌, Some, None, option_copied, slice_get};
ghost use Rattle.std.specs.Option.{unwrap_or};
ghost use Rattle.run_account.specs.declared.measure.Measure.TheVariants as measure;
ghost use Rattle.run_account.specs.Tallies.{with_items};
ghost use Rattle.message_net.specs.declared.message.Message.TheVariants as message;
ghost use Rattle.registry_bank.specs.Bank.{bank_lock};
ghost use Rattle.registration_protocol.specs.Node.{entry_of};
ghost use Rattle.registration_protocol.specs.Messages.{node_gets, read_fwd_row, reg_fwd_row, written_in, guarded_by};
ghost use Rattle.run_account.specs.Departures.{goes};
ghost use Rattle.run_account.specs.Events.{item_at, item_of, item_if, reply_measure, is_bounced, grant_measure, phase_items, lock_items, message_items, evict_items};
ghost use Rattle.run_account.specs.Handings.{handing_of};
ghost use Rattle.run_account.specs.Account.{adding};
ghost use Rattle.run_account.specs.Moves.{evict_departs, taken_departs, given_departs, phase_departs, lock_departs, message_departs, free_hands, holder_hands, acquire_hands, release_hands, message_hands, begins_now, waits_now};

use crate::Measure;
use crate::account::Account;
use crate::departure::{Departure, Handing, Occasion};
use dn_base::{CoreId, LockId, PhaseId, WordId};
use dn_machine::Machine;
use message_net::{Actor, Message};
use queue_lock::LockHome;
use region_table::WordSet;
use registration_protocol::{Node, NodeWait};
use registry_bank::Bank;
use word_cache::Entry;
use write_signature::Signature;

/// Whether a phase begins for a node at a Go.
fn begins(machine: &Machine, node: &Node, phase: PhaseId) -> bool
    ensures { result ≡ begins_now machine.now.state.setting node.now phase.0 }
{
    let is_next = u64::from(phase.0) == u64::from(node.phase().0) + 1;
    let has_phase = (phase.0 as usize) < machine.program().phases.len();
    node.has_arrived() && !node.has_halted() && is_next && has_phase
}

/// Whether a node waits for a lock, and has a task.
fn waits(node: &Node, lock: LockId) -> bool
    ensures { result ≡ waits_now lock node.now.waiting node.now.task }
{
    match node.wait() {
        NodeWait::Locking(wanted) => wanted.0 == lock.0 && node.task().is_some(),
        NodeWait::None | NodeWait::Reading(_) | NodeWait::Filled(_) => false,
    }
}

/// The words that a node's phase may have written, if it has a plan.
fn words_written<'a>(machine: &'a Machine, node: &Node) -> Option<&'a WordSet>
    ensures { unwrap_or (option_copied result) [] ≡ written_in (slice_get machine.now.state.setting.plans node.now.phase) }
{
    match machine.plans().get(node.phase().0 as usize) {
        Some(plan) => Some(&plan.written),
        None => None,
    }
}

/// The words that a lock guards in a node's phase, if it has a plan and the plan the lock.
fn words_guarded<'a>(machine: &'a Machine, node: &Node, lock: LockId) -> Option<&'a WordSet>
    ensures { unwrap_or (option_copied result) [] ≡ guarded_by (slice_get machine.now.state.setting.plans node.now.phase) lock.0 }
{
    match machine.plans().get(node.phase().0 as usize) {
        Some(plan) => plan.guarded.as_slice().get(lock.0 as usize),
        None => None,
    }
}

impl Account {
    /// Counts an eviction.
    pub(crate) fn note_evict(&mut self, node: &Node, word: WordId)
        ensures { self.new ≡ record self.old {
          tallies = with_items self.old.tallies (evict_items node.now word (entry_of node.now word.0));
          departures = evict_departs self.old.departures node.now word (entry_of node.now word.0);
        } }
    {
        match node.entry(word) {
            None | Some(Entry::Leaving(_)) => {}
            Some(Entry::Valid { .. }) => {
                self.count(node, Measure::EvictedCopies, Some(word));
                self.gone(node.core(), word, Departure::Evicted);
            }
            Some(Entry::Registered { .. }) => {
                self.count(node, Measure::EvictedRegistered, Some(word));
            }
        }
    }

    fn note_reply(&mut self, node: &Node, sender: Actor, word: WordId)
        ensures { self.new ≡ adding self.old (item_at (reply_measure sender) node.now word ∷ []) }
    {
        let measure = match sender {
            Actor::Core(_) => Measure::RepliesCore,
            Actor::Bank(_) | Actor::Keeper => Measure::RepliesHome,
        };
        self.count(node, measure, Some(word));
    }

    fn note_bounce(&mut self, machine: &Machine, node: &Node, word: WordId, reader: CoreId)
        ensures { self.new ≡ adding self.old (item_if (is_bounced (read_fwd_row machine.now.state.setting node.now word reader (entry_of node.now word.0)).1.sent)
            (item_at measure.Bounces node.now word)) }
    {
        // for the clause alone: the machine has the setting
        let _fuel = machine.fuel();
        match node.entry(word) {
            Some(Entry::Registered { .. } | Entry::Leaving(_)) => {}
            None | Some(Entry::Valid { .. }) => {
                self.count(node, Measure::Bounces, Some(word));
            }
        }
    }

    #[tactic(auto, using(crate::proofs::Moved::lack_goes, crate::proofs::Moved::keep_goes))]
    fn note_taken(&mut self, node: &Node, word: WordId, core: CoreId)
        ensures { self.new ≡ record self.old {
          tallies = with_items self.old.tallies (item_if (goes node.now (reg_fwd_row node.now word core (entry_of node.now word.0)).0 word.0) (item_at measure.Taken node.now word));
          departures = taken_departs self.old.departures node.now word (entry_of node.now word.0);
        } }
    {
        match node.entry(word) {
            Some(Entry::Registered { pending: false, .. }) => {
                self.count(node, Measure::Taken, Some(word));
                self.gone(node.core(), word, Departure::Taken);
            }
            _ => {}
        }
    }

    fn note_given(&mut self, node: &Node, word: WordId)
        ensures { self.new ≡ record self.old { departures = given_departs self.old.departures node.now word (entry_of node.now word.0) } }
    {
        match node.entry(word) {
            Some(Entry::Leaving(_)) => self.gone(node.core(), word, Departure::Evicted),
            None | Some(Entry::Valid { .. } | Entry::Registered { .. }) => {}
        }
    }

    /// Counts the copies at a Go, if a phase begins by it.
    fn note_phase(&mut self, machine: &Machine, node: &Node, phase: PhaseId)
        requires { 0 < node.now.cache.sets }
        ensures { self.new ≡ record self.old {
          tallies = with_items self.old.tallies (phase_items machine.now.state node.now (node_gets machine.now.state.setting node.now (message.Go phase)).0);
          departures = phase_departs machine.now.state.setting self.old.departures node.now (node_gets machine.now.state.setting node.now (message.Go phase)).0;
        } }
    {
        if begins(machine, node, phase) {
            if let Some(words) = words_written(machine, node) {
                self.note_copies(machine, node, Occasion::Go, words);
            }
        }
    }

    /// Counts the copies at the Grant of a lock, if the core waits for it.
    fn note_lock(&mut self, machine: &Machine, node: &Node, lock: LockId, signature: Signature)
        requires { 0 < node.now.cache.sets }
        ensures { self.new ≡ record self.old {
          tallies = with_items self.old.tallies (lock_items machine.now.state node.now signature (node_gets machine.now.state.setting node.now (message.Grant lock signature)).1.granted);
          departures = lock_departs machine.now.state.setting self.old.departures node.now signature (node_gets machine.now.state.setting node.now (message.Grant lock signature)).1.granted;
        } }
    {
        if waits(node, lock) {
            if let Some(words) = words_guarded(machine, node, lock) {
                self.note_copies(machine, node, Occasion::Grant(signature), words);
            }
        }
    }

    fn note_grant(&mut self, machine: &Machine, node: &Node, lock: LockId, signature: Signature)
        requires { 0 < node.now.cache.sets }
        ensures { self.new ≡ record self.old {
          tallies = with_items self.old.tallies (item_of (grant_measure (handing_of self.old.handings lock.0)) node.now None
              ∷ lock_items machine.now.state node.now signature (node_gets machine.now.state.setting node.now (message.Grant lock signature)).1.granted);
          departures = lock_departs machine.now.state.setting self.old.departures node.now signature (node_gets machine.now.state.setting node.now (message.Grant lock signature)).1.granted;
        } }
    {
        let measure = match self.last_handing(lock) {
            Handing::AtOnce => Measure::GrantsAtOnce,
            Handing::Queued => Measure::GrantsQueued,
        };
        self.count(node, measure, None);
        self.note_lock(machine, node, lock, signature);
    }

    /// Counts a message that a core handles.
    #[tactic(auto, unfolding(registration_protocol::specs::Messages::node_gets))]
    pub(crate) fn note_message(
        &mut self,
        machine: &Machine,
        node: &Node,
        sender: Actor,
        message: Message,
    )
        requires { 0 < node.now.cache.sets }
        ensures { self.new ≡ record self.old {
          tallies = with_items self.old.tallies (message_items machine.now.state self.old.handings sender node.now message);
          departures = message_departs machine.now.state.setting self.old.departures node.now message;
        } }
    {
        match message {
            Message::DataReply { word, .. } => self.note_reply(node, sender, word),
            Message::ReadFwd { word, reader } => self.note_bounce(machine, node, word, reader),
            Message::RegFwd { word, core } => self.note_taken(node, word, core),
            Message::WbAck { word } => self.note_given(node, word),
            Message::Grant { lock, signature } => self.note_grant(machine, node, lock, signature),
            Message::Go { phase } => self.note_phase(machine, node, phase),
            _ => {}
        }
    }
}

/// How a lock is granted at once to a core that asks for it, if it is.
fn acquire(home: &LockHome) -> Option<Handing>
    ensures { result ≡ free_hands home.now.holder }
{
    match home.holder() {
        None => Some(Handing::AtOnce),
        Some(_) => None,
    }
}

/// How a lock is handed on that a core gives up, if it is.
fn release(home: &LockHome, core: CoreId) -> Option<Handing>
    ensures { result ≡ holder_hands core home.now.holder home.now.queue }
{
    match home.holder() {
        Some(holder) if holder.0 == core.0 && home.queue_len() > 0 => Some(Handing::Queued),
        _ => None,
    }
}

/// How a bank grants a lock to a core that asks for it, if it does.
fn ask(bank: &Bank, lock: LockId) -> Option<Handing>
    ensures { result ≡ acquire_hands (bank_lock bank.now lock.0) }
{
    acquire(bank.lock(lock)?)
}

/// How a bank hands a lock on that a core gives up, if it does.
fn given_up(bank: &Bank, lock: LockId, core: CoreId) -> Option<Handing>
    ensures { result ≡ release_hands core (bank_lock bank.now lock.0) }
{
    release(bank.lock(lock)?, core)
}

impl Account {
    /// Notes how a bank grants a lock at a message, if it does. The machine has `cores` cores.
    pub(crate) fn note_bank(&mut self, bank: &Bank, cores: u32, message: Message)
        requires { bank.now.cores ≡ cores }
        ensures { self.new ≡ record self.old { handings = message_hands bank.now self.old.handings message } }
    {
        match message {
            Message::Acquire { lock, core } if core.0 < cores => {
                self.hand(lock, ask(bank, lock));
            }
            Message::Release { lock, core, .. } if core.0 < cores => {
                self.hand(lock, given_up(bank, lock, core));
            }
            _ => {}
        }
    }
}
