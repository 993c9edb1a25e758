//! What is looked at before an event.
ghost use Rattle.std.specs.Prelude.{◌≡◌, ◌++◌, ◌<◌, ◌≤◌, length, map, slice_get, option_copied, Some, [], ◌∷◌, IfOk, OnOk};
ghost use Rattle.std.specs.List.{filter};
ghost use Rattle.message_net.specs.Pool.{removed};
ghost use Rattle.word_cache.specs.Cache.{in_set};
ghost use Rattle.machine_rules.specs.Sound.{IsMachine};
ghost use Rattle.run_changes.specs.declared.look.Look.TheVariants.{Node as OfNode};
ghost use Rattle.run_changes.specs.Looks.{entry_before, pair_before, cached, words_needed, words_of_message, node_look, instr_look, evict_look, arrive_look, message_look, core_look, lock_look, bank_look, receiver_look, mail_look, look_at};

use crate::look::{EntryBefore, LockLook, Look, NodeLook};
use dn_base::{BankId, CoreId, LockId, Memory, Sequence, WordId};
use dn_machine::{Machine, a_machine_is_kept};
use message_net::{Actor, Event, Mail, MailId, Message};
use queue_lock::LockHome;
use registration_protocol::Node;
use registry_bank::Bank;
use rv_core::Need;
use std::alloc::Global;
use word_cache::{Entry, WordCache};
use write_signature::Signature;

/// A word with the entry that a node has of it.
fn entry_before(node: &Node, word: WordId) -> EntryBefore
    ensures { result ≡ entry_before node.now word }
{
    EntryBefore {
        word,
        entry: node.entry(word),
    }
}

/// One word.
fn one_word(alloc: Global, node: &Node, word: WordId) -> Result<Sequence<EntryBefore>, Memory>
    ensures { IfOk result (λ entries. entries ≡ entry_before node.now word ∷ []) }
{
    let mut entries = Sequence::new(alloc);
    entries.push(entry_before(node, word))?;
    Ok(entries)
}

/// Adds the pairs of a set.
fn add_pairs(out: &mut Sequence<EntryBefore>, pairs: &[(WordId, Entry)]) -> Result<(), Memory>
    ensures { OnOk result (out.new ≡ out.old ++ map pair_before pairs.now) }
{
    for pair in pairs {
        out.push(EntryBefore {
            word: pair.0,
            entry: Some(pair.1),
        })?;
    }
    Ok(())
}

/// Adds the words of a set of a cache.
fn add_set(
    alloc: Global,
    out: &mut Sequence<EntryBefore>,
    cache: &WordCache,
    set: u32,
) -> Result<(), Memory>
    requires { set < cache.now.sets }
    ensures { OnOk result (out.new ≡ out.old ++ map pair_before (filter (in_set cache.now.sets set) cache.now.pairs)) }
{
    let pairs = cache.pairs(alloc, set)?;
    add_pairs(out, pairs.as_slice())
}

/// Every word that a cache has.
pub(crate) fn cached_words(
    alloc: Global,
    cache: &WordCache,
) -> Result<Sequence<EntryBefore>, Memory>
    ensures { IfOk result (λ entries. entries ≡ cached cache.now) }
{
    let mut entries = Sequence::new(alloc);
    for set in 0..cache.sets() {
        add_set(alloc, &mut entries, cache, set)?;
    }
    Ok(entries)
}

/// The word that an instruction accesses.
fn words_needed(
    alloc: Global,
    node: &Node,
    needs: Option<Need>,
) -> Result<Sequence<EntryBefore>, Memory>
    ensures { IfOk result (λ entries. entries ≡ words_needed node.now needs) }
{
    match needs {
        Some(Need::Load { word }) => one_word(alloc, node, word),
        Some(Need::Store { word, .. }) => one_word(alloc, node, word),
        _ => Ok(Sequence::new(alloc)),
    }
}

/// The words whose entries a message may change.
fn words_of_message(
    alloc: Global,
    node: &Node,
    message: Message,
) -> Result<Sequence<EntryBefore>, Memory>
    ensures { IfOk result (λ entries. entries ≡ words_of_message node.now message) }
{
    match message {
        Message::DataReply { word, .. } => one_word(alloc, node, word),
        Message::RegAck { word } => one_word(alloc, node, word),
        Message::RegFwd { word, .. } => one_word(alloc, node, word),
        Message::WbAck { word } => one_word(alloc, node, word),
        Message::Grant { .. } => cached_words(alloc, node.cache()),
        Message::Go { .. } => cached_words(alloc, node.cache()),
        _ => Ok(Sequence::new(alloc)),
    }
}

/// A copy of signatures.
fn copy_signatures(alloc: Global, signatures: &[Signature]) -> Result<Sequence<Signature>, Memory>
    ensures { IfOk result (λ copies. copies ≡ signatures.now) }
{
    Ok(Sequence::from_vec(Vec::from_slice(alloc, signatures)?))
}

/// A node of which these words are looked at.
fn look_at_node(
    alloc: Global,
    core: CoreId,
    node: &Node,
    needs: Option<Need>,
    entries: Sequence<EntryBefore>,
) -> Result<Look, Memory>
    ensures { IfOk result (λ look. look ≡ OfNode core (node_look node.now needs entries)) }
{
    let look = NodeLook {
        phase: node.phase(),
        task: node.task().copied(),
        needs,
        wait: node.wait(),
        signatures: copy_signatures(alloc, node.signatures())?,
        arrived: node.has_arrived(),
        halted: node.has_halted(),
        entries,
    };
    Ok(Look::Node(core, look))
}

/// The node of a core, if there is such a core.
fn node_of(machine: &Machine, core: CoreId) -> Option<&Node>
    requires { IsMachine machine.now.state }
    ensures { option_copied result ≡ slice_get machine.now.state.nodes core.0 }
{
    if core.0 < machine.shape().cores {
        Some(machine.node(core))
    } else {
        None
    }
}

/// Looks at a core before its next instruction.
fn look_at_instr(alloc: Global, machine: &Machine, core: CoreId) -> Result<Look, Memory>
    requires { IsMachine machine.now.state }
    ensures { IfOk result (λ look. look ≡ core_look core (instr_look machine.now.state.setting) (slice_get machine.now.state.nodes core.0)) }
{
    let Some(node) = node_of(machine, core) else {
        return Ok(Look::Nothing);
    };
    let needs = node.needs(machine.program(), machine.fuel());
    look_at_node(alloc, core, node, needs, words_needed(alloc, node, needs)?)
}

/// Looks at a core before it evicts a word.
fn look_at_evict(
    alloc: Global,
    machine: &Machine,
    core: CoreId,
    word: WordId,
) -> Result<Look, Memory>
    requires { IsMachine machine.now.state }
    ensures { IfOk result (λ look. look ≡ core_look core (evict_look word) (slice_get machine.now.state.nodes core.0)) }
{
    let Some(node) = node_of(machine, core) else {
        return Ok(Look::Nothing);
    };
    look_at_node(alloc, core, node, None, one_word(alloc, node, word)?)
}

/// Looks at a core before it arrives at the barrier.
fn look_at_arrive(alloc: Global, machine: &Machine, core: CoreId) -> Result<Look, Memory>
    requires { IsMachine machine.now.state }
    ensures { IfOk result (λ look. look ≡ core_look core arrive_look (slice_get machine.now.state.nodes core.0)) }
{
    let Some(node) = node_of(machine, core) else {
        return Ok(Look::Nothing);
    };
    look_at_node(alloc, core, node, None, Sequence::new(alloc))
}

/// Looks at a core before it handles a message.
fn look_at_core(
    alloc: Global,
    machine: &Machine,
    core: CoreId,
    message: Message,
) -> Result<Look, Memory>
    requires { IsMachine machine.now.state }
    ensures { IfOk result (λ look. look ≡ core_look core (message_look message) (slice_get machine.now.state.nodes core.0)) }
{
    let Some(node) = node_of(machine, core) else {
        return Ok(Look::Nothing);
    };
    let entries = words_of_message(alloc, node, message)?;
    look_at_node(alloc, core, node, None, entries)
}

/// Looks at a lock at its home.
fn lock_look(bank: BankId, lock: LockId, home: Option<&LockHome>) -> Look
    ensures { result ≡ lock_look bank lock (option_copied home.entry) }
{
    match home {
        None => Look::Nothing,
        Some(home) => {
            let look = LockLook {
                holder: home.holder(),
                waiting: home.queue_len(),
                kept: home.signature(),
            };
            Look::Lock(bank, lock, look)
        }
    }
}

/// Looks at what a message may change at a bank that is there.
fn bank_look(bank: BankId, message: Message, there: &Bank) -> Look
    ensures { result ≡ bank_look bank message (Some there.now) }
{
    match message {
        Message::RegReq { word, .. } => Look::Word(bank, word, there.word(word)),
        Message::WriteBack { word, .. } => Look::Word(bank, word, there.word(word)),
        Message::Acquire { lock, .. } => lock_look(bank, lock, there.lock(lock)),
        Message::Release { lock, .. } => lock_look(bank, lock, there.lock(lock)),
        _ => Look::Nothing,
    }
}

/// Looks at a bank before it handles a message.
fn look_at_bank(machine: &Machine, bank: BankId, message: Message) -> Look
    requires { IsMachine machine.now.state }
    ensures { result ≡ bank_look bank message (slice_get machine.now.state.banks bank.0) }
{
    if bank.0 < machine.shape().banks {
        bank_look(bank, message, machine.bank(bank))
    } else {
        Look::Nothing
    }
}

/// Looks at the actor that a message goes to.
fn look_at_mail(alloc: Global, machine: &Machine, mail: Mail) -> Result<Look, Memory>
    requires { IsMachine machine.now.state }
    ensures { IfOk result (λ look. look ≡ mail_look machine.now.state (Some mail)) }
{
    match mail.to {
        Actor::Core(core) => look_at_core(alloc, machine, core, mail.message),
        Actor::Bank(bank) => Ok(look_at_bank(machine, bank, mail.message)),
        Actor::Keeper => Ok(Look::Keeper),
    }
}

/// Looks at the actor that handles the message with this id.
fn look_at_handle(alloc: Global, machine: &Machine, id: MailId) -> Result<Look, Memory>
    requires { IsMachine machine.now.state }
    ensures { IfOk result (λ look. look ≡ mail_look machine.now.state (removed id machine.now.state.mails).0) }
{
    let pool = machine.pool();
    match pool.place_of(id) {
        None => Ok(Look::Nothing),
        Some(place) => look_at_mail(alloc, machine, pool.at(place)),
    }
}

/// What is looked at before an event.
#[tactic(auto, unfolding(crate::specs::Looks::look_at))]
pub(crate) fn look_at(alloc: Global, machine: &Machine, event: Event) -> Result<Look, Memory>
    ensures { IfOk result (λ look. look ≡ look_at machine.now.state event) }
{
    // for the proof alone: the machine is well formed before the event
    a_machine_is_kept(machine);
    match event {
        Event::Instr(core) => look_at_instr(alloc, machine, core),
        Event::Evict(core, word) => look_at_evict(alloc, machine, core, word),
        Event::Arrive(core) => look_at_arrive(alloc, machine, core),
        Event::Handle(id) => look_at_handle(alloc, machine, id),
    }
}
