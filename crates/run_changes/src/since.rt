//! How a machine's state differs from the beginning of its run.
ghost use Rattle.std.specs.Prelude.{◌≡◌, ◌++◌, ◌<◌, ◌≤◌, ◌∷◌, [], flat_map, length, replicate, slice_get, None, Some, IfOk, OnOk};
ghost use Rattle.message_net.specs.declared.actor.Actor.TheVariants.{Core as OfCore, Bank as OfBank, Keeper as OfKeeper};
ghost use Rattle.write_signature.specs.Signature.{empty};
ghost use Rattle.registry_bank.specs.declared.bank.BankWord.TheVariants.{Home as AtHome};
ghost use Rattle.machine_rules.specs.Sound.{IsMachine};
ghost use Rattle.machine_rules.specs.State.{home_at, lock_at};
ghost use Rattle.run_changes.specs.Changes.{barrier_change, entry_change, home_change, queue_change, lock_changes, locks_held};
ghost use Rattle.run_changes.specs.Since.{changes_of, held_from, end_since, task_since, node_since, core_since, cores_since, home_of, word_since, words_since, free_look, lock_since, locks_since, changes_since};

use crate::banks::{note_barrier, note_home, note_queue};
use crate::change::{ActorChanges, Change};
use crate::look::{EntryBefore, LockLook};
use crate::looking::cached_words;
use crate::parts::{locks_held, note, note_entry, note_flag, note_locks, note_wait};
use dn_base::{BankId, CoreId, LockId, MOST_WORDS, Memory, PhaseId, Sequence, WordId, remainder};
use dn_machine::{Machine, a_machine_is_kept};
use message_net::Actor;
use phase_barrier::Keeper;
use region_table::a_program_is_well_formed;
use registration_protocol::{Node, NodeWait};
use registry_bank::BankWord;
use rv_core::{End, TaskState};
use std::alloc::Global;
use word_cache::WordCache;
use write_signature::Signature;

/// Adds the entries of words.
fn add_entries(out: &mut Vec<Change>, entries: &[EntryBefore]) -> Result<(), Memory>
    ensures { OnOk result (out.new.items ≡ out.old.items ++ flat_map (λ e. entry_change e.word None e.entry) entries.now) }
{
    for entry in entries {
        note_entry(out, entry.word, None, entry.entry)?;
    }
    Ok(())
}

/// Adds every entry that a cache has.
#[tactic(auto, using(crate::proofs::Listed::cached_held))]
fn note_cache(alloc: Global, out: &mut Vec<Change>, cache: &WordCache) -> Result<(), Memory>
    ensures { OnOk result (out.new.items ≡ out.old.items ++ held_from cache.now 0 cache.now.sets) }
{
    let entries = cached_words(alloc, cache)?;
    add_entries(out, entries.as_slice())
}

/// How a task has ended.
fn note_end(out: &mut Vec<Change>, end: Option<End>) -> Result<(), Memory>
    ensures { OnOk result (out.new.items ≡ out.old.items ++ end_since end) }
{
    match end {
        None => Ok(()),
        Some(by) => note(out, Change::Ended(by)),
    }
}

/// How a task has ended, and where it is.
fn note_task(out: &mut Vec<Change>, task: Option<TaskState>) -> Result<(), Memory>
    ensures { OnOk result (out.new.items ≡ out.old.items ++ task_since task) }
{
    match task {
        None => Ok(()),
        Some(task) => {
            note_end(out, task.end)?;
            let at = Change::At {
                pc: task.pc,
                retired: task.retired,
            };
            note(out, at)
        }
    }
}

/// This many empty signatures of a phase.
fn empty_signatures(alloc: Global, phase: PhaseId, locks: usize) -> Result<Vec<Signature>, Memory>
    ensures { IfOk result (λ signatures. signatures.items ≡ replicate locks (empty phase.0)) }
{
    Ok(vec![in alloc; Signature::empty(phase); locks]?)
}

/// How the locks of a node differ from those of a node that holds none and has empty signatures.
fn note_own_locks(alloc: Global, out: &mut Vec<Change>, node: &Node) -> Result<(), Memory>
    requires { length node.now.signatures ≤ 32 }
    ensures { OnOk result (out.new.items ≡ out.old.items ++ lock_changes 0 (locks_held node.now.task) (replicate (length node.now.signatures) (empty node.now.phase)) 0 node.now.signatures) }
{
    let signatures = node.signatures();
    let before = empty_signatures(alloc, node.phase(), signatures.len())?;
    let held = locks_held(node.task().copied());
    note_locks(out, 0, held, before.as_slice(), signatures)
}

/// How a node differs from one in which its phase begins without entries.
fn node_since(alloc: Global, node: &Node) -> Result<Vec<Change>, Memory>
    requires { length node.now.signatures ≤ 32 }
    ensures { IfOk result (λ changes. changes.items ≡ node_since node.now) }
{
    let mut out = Vec::new(alloc);
    note(&mut out, Change::Begins(node.phase()))?;
    note_cache(alloc, &mut out, node.cache())?;
    note_task(&mut out, node.task().copied())?;
    note_wait(&mut out, NodeWait::None, node.wait())?;
    note_own_locks(alloc, &mut out, node)?;
    note_flag(&mut out, false, node.has_arrived(), Change::Arrived)?;
    note_flag(&mut out, false, node.has_halted(), Change::Halted)?;
    Ok(out)
}

/// Adds the changes of an actor, if there are any.
fn add_changes(
    out: &mut Sequence<ActorChanges>,
    actor: Actor,
    changes: Vec<Change>,
) -> Result<(), Memory>
    ensures { OnOk result (out.new ≡ out.old ++ changes_of actor changes.items) }
{
    if changes.is_empty() {
        return Ok(());
    }
    out.push(ActorChanges {
        actor,
        changes: Sequence::from_vec(changes),
    })
}

/// How a core differs; the core exists.
fn add_core(
    alloc: Global,
    out: &mut Sequence<ActorChanges>,
    machine: &Machine,
    core: u32,
) -> Result<(), Memory>
    requires machine { IsMachine machine.now.state }
    requires core { core < machine.now.state.setting.shape.cores }
    ensures { OnOk result (out.new ≡ out.old ++ core_since core (slice_get machine.now.state.nodes core)) }
{
    // for the proof alone: a machine's program has few locks
    a_machine_is_kept(machine);
    let changes = node_since(alloc, machine.node(CoreId(core)))?;
    add_changes(out, Actor::Core(CoreId(core)), changes)
}

/// How the first `count` cores differ; they exist.
fn add_cores(
    alloc: Global,
    out: &mut Sequence<ActorChanges>,
    machine: &Machine,
    cores: u32,
) -> Result<(), Memory>
    requires machine { IsMachine machine.now.state }
    requires cores { cores ≤ machine.now.state.setting.shape.cores }
    ensures { OnOk result (out.new ≡ out.old ++ cores_since machine.now.state 0 cores) }
{
    for core in 0..cores {
        add_core(alloc, out, machine, core)?;
    }
    Ok(())
}

/// The bank of a word or a lock.
fn home_of(machine: &Machine, number: u32) -> BankId
    requires { IsMachine machine.now.state }
    ensures bank { OfBank result ≡ home_of machine.now.state number }
    ensures there { result.0 < machine.now.state.setting.shape.banks }
{
    BankId(remainder(number, machine.shape().banks))
}

/// How a word at its home differs from its initial value.
fn add_word(
    alloc: Global,
    out: &mut Sequence<ActorChanges>,
    machine: &Machine,
    word: u32,
    first: u32,
) -> Result<(), Memory>
    requires { IsMachine machine.now.state }
    ensures { OnOk result (out.new ≡ out.old ++ word_since machine.now.state word first) }
{
    let bank = home_of(machine, word);
    let now = machine.bank(bank).word(WordId(word));
    let mut changes = Vec::new(alloc);
    note_home(&mut changes, WordId(word), Some(BankWord::Home(first)), now)?;
    add_changes(out, Actor::Bank(bank), changes)
}

/// How each word at its home differs, by the initial values of the words.
fn add_words(
    alloc: Global,
    out: &mut Sequence<ActorChanges>,
    machine: &Machine,
    memory: &[u32],
) -> Result<(), Memory>
    requires machine { IsMachine machine.now.state }
    requires memory { length memory.now ≤ MOST_WORDS }
    ensures { OnOk result (out.new ≡ out.old ++ words_since machine.now.state 0 memory.now) }
{
    let mut word = 0;
    for first in memory {
        add_word(alloc, out, machine, word, *first)?;
        word += 1;
    }
    Ok(())
}

/// A lock that is free, with the empty signature of phase 0.
fn free_look() -> LockLook
    ensures { result ≡ free_look }
{
    LockLook {
        holder: None,
        waiting: 0,
        kept: Signature::empty(PhaseId(0)),
    }
}

/// How a lock at its home differs from a free one.
fn add_lock(
    alloc: Global,
    out: &mut Sequence<ActorChanges>,
    machine: &Machine,
    lock: u32,
) -> Result<(), Memory>
    requires { IsMachine machine.now.state }
    ensures { OnOk result (out.new ≡ out.old ++ lock_since machine.now.state lock) }
{
    let bank = home_of(machine, lock);
    let now = machine.bank(bank).lock(LockId(lock));
    let mut changes = Vec::new(alloc);
    note_queue(alloc, &mut changes, LockId(lock), &free_look(), now)?;
    add_changes(out, Actor::Bank(bank), changes)
}

/// How the first `count` locks at their homes differ.
fn add_locks(
    alloc: Global,
    out: &mut Sequence<ActorChanges>,
    machine: &Machine,
    locks: u32,
) -> Result<(), Memory>
    requires { IsMachine machine.now.state }
    ensures { OnOk result (out.new ≡ out.old ++ locks_since machine.now.state 0 locks) }
{
    for lock in 0..locks {
        add_lock(alloc, out, machine, lock)?;
    }
    Ok(())
}

/// Adds what the barrier controller is.
fn add_keeper(
    alloc: Global,
    out: &mut Sequence<ActorChanges>,
    keeper: &Keeper,
) -> Result<(), Memory>
    ensures { OnOk result (out.new ≡ out.old ++ changes_of OfKeeper (barrier_change keeper.now ∷ [])) }
{
    let mut changes = Vec::new(alloc);
    note_barrier(alloc, &mut changes, keeper)?;
    add_changes(out, Actor::Keeper, changes)
}

/// How a machine's state differs from the beginning of its run: the changes that lead there from a machine whose homes hold the
/// initial values, whose locks are free, and in which each core is in phase 0 without entries. Each core's changes begin with the
/// beginning of its phase, and the barrier controller's whole state is told.
///
/// It looks once at each place of the caches, at each data word and at each lock.
///
/// # Errors
/// `Memory` where there is no room.
#[tactic(auto, unfolding(crate::specs::Since::changes_since))]
pub fn changes_since(alloc: Global, machine: &Machine) -> Result<Sequence<ActorChanges>, Memory>
    ensures { IfOk result (λ changes. changes ≡ changes_since machine.now.state) }
{
    // for the proof alone: the machine is well formed, so it has the nodes and banks that its size says
    a_machine_is_kept(machine);
    let mut out = Sequence::new(alloc);
    add_cores(alloc, &mut out, machine, machine.shape().cores)?;
    let program = machine.program();
    a_program_is_well_formed(program);
    add_words(alloc, &mut out, machine, program.memory.as_slice())?;
    add_locks(alloc, &mut out, machine, program.locks.len() as u32)?;
    add_keeper(alloc, &mut out, machine.keeper())?;
    Ok(out)
}
