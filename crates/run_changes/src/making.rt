//! Makes an event, and tells what it changes and sends.
ghost use Rattle.std.specs.Prelude.{◌≡◌, ◌-◌, ◌+◌, ◌<◌, ◌≤◌, ◌++◌, true, false, length, drop, map, slice_get, IfOk, IfSome, IfNone, OnOk};
ghost use Rattle.machine_rules.specs.Next.{next, enabled};
ghost use Rattle.machine_rules.specs.Sound.{IsMachine};
ghost use Rattle.machine_rules.specs.State.{word_in, lock_in};
ghost use Rattle.run_changes.specs.Changes.{core_changes, home_change, queue_change, changes_by};
ghost use Rattle.run_changes.specs.Looks.{look_at};
ghost use Rattle.run_changes.specs.Events.{count_left_by, outgoing_of, event_told, event_made};

use crate::banks::{note_barrier, note_home, note_queue};
use crate::change::{Change, EventMade};
use crate::look::{LockLook, Look, NodeLook};
use crate::looking::look_at;
use crate::nodes::note_core;
use dn_base::{BankId, CoreId, LoadSeen, LockId, Memory, Sequence, WordId};
use dn_machine::{Machine, a_machine_is_kept};
use machine_rules::Stepped;
use message_net::{Actor, Event, Outgoing, Pool};
use registry_bank::BankWord;
use std::alloc::Global;

/// Notes what an event changed at a core.
fn note_core_at(
    out: &mut Vec<Change>,
    machine: &Machine,
    core: CoreId,
    look: &NodeLook,
    seen: Option<LoadSeen>,
) -> Result<(), Memory>
    requires { IsMachine machine.now.state }
    ensures { OnOk result (out.new.items ≡ out.old.items ++ core_changes look.now seen (slice_get machine.now.state.nodes core.0)) }
{
    // for the proof alone: a machine's program has few locks
    a_machine_is_kept(machine);
    if core.0 < machine.shape().cores {
        note_core(out, look, seen, machine.node(core))
    } else {
        Ok(())
    }
}

/// Notes what an event changed of a word at its home.
fn note_home_at(
    out: &mut Vec<Change>,
    machine: &Machine,
    bank: BankId,
    word: WordId,
    before: Option<BankWord>,
) -> Result<(), Memory>
    requires { IsMachine machine.now.state }
    ensures { OnOk result (out.new.items ≡ out.old.items ++ home_change word before (word_in word.0 (slice_get machine.now.state.banks bank.0))) }
{
    if bank.0 < machine.shape().banks {
        note_home(out, word, before, machine.bank(bank).word(word))
    } else {
        note_home(out, word, before, None)
    }
}

/// Notes what an event changed of a lock at its home.
fn note_queue_at(
    alloc: Global,
    out: &mut Vec<Change>,
    machine: &Machine,
    bank: BankId,
    lock: LockId,
    look: &LockLook,
) -> Result<(), Memory>
    requires { IsMachine machine.now.state }
    ensures { OnOk result (out.new.items ≡ out.old.items ++ queue_change lock look.now (lock_in lock.0 (slice_get machine.now.state.banks bank.0))) }
{
    if bank.0 < machine.shape().banks {
        note_queue(alloc, out, lock, look, machine.bank(bank).lock(lock))
    } else {
        Ok(())
    }
}

/// Notes what an event changed, by what was looked at before it and the load that it completed.
#[tactic(auto, unfolding(crate::specs::Changes::changes_by))]
fn note_changes(
    alloc: Global,
    out: &mut Vec<Change>,
    machine: &Machine,
    look: &Look,
    seen: Option<LoadSeen>,
) -> Result<(), Memory>
    requires { IsMachine machine.now.state }
    ensures { OnOk result (out.new.items ≡ out.old.items ++ changes_by look.now seen machine.now.state) }
{
    match look {
        Look::Nothing => Ok(()),
        Look::Node(core, look) => note_core_at(out, machine, *core, look, seen),
        Look::Word(bank, word, before) => note_home_at(out, machine, *bank, *word, *before),
        Look::Lock(bank, lock, look) => note_queue_at(alloc, out, machine, *bank, *lock, look),
        Look::Keeper => note_barrier(alloc, out, machine.keeper()),
    }
}

/// How many messages are left in flight before an event sends any.
fn count_left_by(pool: &Pool, event: Event) -> u32
    ensures { result ≡ count_left_by pool.now.mails event }
{
    match event {
        Event::Handle(_) => pool.count().saturating_sub(1),
        Event::Instr(_) | Event::Evict(_, _) | Event::Arrive(_) => pool.count(),
    }
}

/// The messages of the messages from an index on, with their receivers.
fn sent_from(alloc: Global, pool: &Pool, left: u32) -> Result<Sequence<Outgoing>, Memory>
    ensures { IfOk result (λ sent. sent ≡ map outgoing_of (drop left pool.now.mails)) }
{
    let mut sent = Sequence::new(alloc);
    for place in left..pool.count() {
        let mail = pool.at(place);
        sent.push(Outgoing {
            to: mail.to,
            message: mail.message,
        })?;
    }
    Ok(sent)
}

/// Tells what an event did: what it changed, by what was looked at before it, and which messages stand after those that were
/// left.
fn change_of(
    alloc: Global,
    machine: &Machine,
    look: &Look,
    left: u32,
    came: (Actor, Stepped),
) -> Result<EventMade, Memory>
    ensures { IfOk result (λ made. made ≡ event_told machine.now.state look.now left came) }
{
    // for the proof alone: the machine is well formed after the event
    a_machine_is_kept(machine);
    let (actor, stepped) = came;
    let mut changes = Vec::new(alloc);
    note_changes(alloc, &mut changes, machine, look, stepped.seen)?;
    Ok(EventMade {
        actor,
        kind: stepped.kind,
        changes: Sequence::from_vec(changes),
        sent: sent_from(alloc, machine.pool(), left)?,
    })
}

/// Makes an event if it is enabled, and tells what it did by what was looked at before it.
fn make_looked_at(
    alloc: Global,
    machine: &mut Machine,
    event: Event,
    look: &Look,
) -> Result<Option<EventMade>, Memory>
    requires made { machine.old.made < 4000000000 }
    requires look { look.now ≡ look_at machine.old.state event }
    ensures none { IfOk result (λ came. IfNone came ((enabled machine.old.state event ≡ false) × (machine.new ≡ machine.old))) }
    ensures may { IfOk result (λ came. IfSome came (λ made. enabled machine.old.state event ≡ true)) }
    ensures made { IfOk result (λ came. IfSome came (λ made. made ≡ event_made machine.old.state event)) }
    ensures state { IfOk result (λ came. IfSome came (λ made. machine.new.state ≡ next machine.old.state event)) }
    ensures count { IfOk result (λ came. IfSome came (λ made. machine.new.made ≡ machine.old.made + 1)) }
{
    let left = count_left_by(machine.pool(), event);
    match machine.try_step(event)? {
        None => Ok(None),
        Some(came) => Ok(Some(change_of(alloc, machine, look, left, came)?)),
    }
}

/// Makes an event if it is enabled. Gives its actor, its kind, what it changed and what it sent. None exactly if it is not
/// enabled; the machine is as before then. Fewer than 4,000,000,000 events must have come before.
///
/// A Go or a Grant looks at each place of one cache. An event that handles a lock's message looks at the cores that wait. Any
/// other event looks at one word, at each lock, and at what is sent.
///
/// # Errors
/// `Memory` if there is no room. The event may or may not have come then.
pub fn make(alloc: Global, machine: &mut Machine, event: Event) -> Result<Option<EventMade>, Memory>
    requires { machine.old.made < 4000000000 }
    ensures none { IfOk result (λ came. IfNone came ((enabled machine.old.state event ≡ false) × (machine.new ≡ machine.old))) }
    ensures may { IfOk result (λ came. IfSome came (λ made. enabled machine.old.state event ≡ true)) }
    ensures made { IfOk result (λ came. IfSome came (λ made. made ≡ event_made machine.old.state event)) }
    ensures state { IfOk result (λ came. IfSome came (λ made. machine.new.state ≡ next machine.old.state event)) }
    ensures count { IfOk result (λ came. IfSome came (λ made. machine.new.made ≡ machine.old.made + 1)) }
{
    let look = look_at(alloc, machine, event)?;
    make_looked_at(alloc, machine, event, &look)
}
