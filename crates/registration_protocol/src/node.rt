ghost use Rattle.std.specs.Prelude.{◌≡◌, ◌<◌, true, Some, None, IfOk, if◌then◌else◌, ◌&&◌};
ghost use Rattle.message_net.specs.Mail.{to_home};
ghost use Rattle.registration_protocol.specs.Node.{NodeParts, Setting, initial_node, need_now, entry_of, is_settled, is_running, is_active, is_ready};
ghost use Rattle.registration_protocol.specs.Fit.{IsContext, Fits};
ghost use Rattle.registration_protocol.specs.Setting.{setting};
ghost use Rattle.registration_protocol.specs.OwnEvents.{may_access, lets, may_instr, may_arrive, arrives, evicted};
ghost use Rattle.registration_protocol.specs.Messages.{fills, read_fwd_row, data_reply_row, reg_ack_row, reg_fwd_row, wb_ack_row, halt_row};

use crate::setting::{Context, start};
use crate::signatures::empty_signatures;
use dn_base::{CoreId, Grant, LoadSeen, LockId, Memory, PhaseId, Sequence, WordId};
use message_net::{Message, Outgoing};
use rv_core::{End, Need, TaskState};
use std::alloc::Global;
use std::marker::Model;
use word_cache::{Entry, Probe, WordCache};
use write_signature::Signature;

/// What a node waits for.
#[derive(Clone, Copy, PartialEq, Eq)]
pub enum NodeWait {
    /// Nothing.
    None,
    /// The value of a word.
    Reading(WordId),
    /// Nothing: the value of the word has come, and the instruction that asked for it still has to be completed.
    Filled(WordId),
    /// The grant of a lock.
    Locking(LockId),
}

/// What an instruction sends, and the load that it completed.
#[derive(Clone, Copy, PartialEq, Eq)]
pub struct Step {
    pub sent: Option<Outgoing>,
    pub seen: Option<LoadSeen>,
}

/// What a node sends on a message, and the lock that it is granted by it.
#[derive(Clone, Copy, PartialEq, Eq)]
pub struct Received {
    pub sent: Option<Outgoing>,
    pub granted: Option<Grant>,
}

/// A core with its task, its cache, its wait, a signature for each lock, and its flags: arrived and halted.
#[derive(Drop)]
pub struct Node {
    pub(crate) core: CoreId,
    pub(crate) phase: PhaseId,
    pub(crate) task: Option<TaskState>,
    pub(crate) cache: WordCache,
    pub(crate) wait: NodeWait,
    pub(crate) signatures: Sequence<Signature>,
    pub(crate) arrived: bool,
    pub(crate) halted: bool,
}

impl Model for Node {
    ghost use Rattle.registration_protocol.specs.Node.{NodeParts};

    ghost Value = { NodeParts };

    ghost view = { λ n. record { core = n.core.0; phase = n.phase.0; task = n.task; cache = n.cache; waiting = n.wait; signatures = n.signatures; arrived = n.arrived; halted = n.halted } };
}

/// A message to the home of the word or lock of this number.
#[inline(always)]
pub(crate) fn send_home(context: &Context<'_>, number: u32, message: Message) -> Outgoing
    requires { 0 < (setting context.now).shape.banks }
    ensures { Some result ≡ to_home (setting context.now).shape.banks number message }
{
    Outgoing::to_home(context.shape.banks, number, message)
}

impl Node {
    /// The node of a core when a run begins: in phase 0 with its task, or halted if the program has no phases. The core must be
    /// below the number of cores of the context's shape.
    ///
    /// # Errors
    /// `Memory` where there is no room.
    pub fn new(alloc: Global, core: CoreId, context: &Context<'_>) -> Result<Node, Memory>
        requires context { IsContext (setting context.now) }
        requires core { core.0 < (setting context.now).shape.cores }
        ensures node { IfOk result (λ n. n ≡ initial_node (setting context.now) core.0) }
        ensures fits { IfOk result (Fits (setting context.now)) }
    {
        let program = context.decoded.program();
        Ok(Node {
            core,
            phase: PhaseId(0),
            task: start(program, PhaseId(0), core),
            cache: WordCache::new(alloc, context.shape.sets, context.shape.ways)?,
            wait: NodeWait::None,
            signatures: empty_signatures(alloc, program.locks.len())?,
            arrived: false,
            halted: program.phases.len() == 0,
        })
    }

    /// The entry of a word in the node's cache; None exactly if it has none. Takes no memory.
    pub fn entry(&self, word: WordId) -> Option<Entry>
        ensures { result ≡ entry_of self.now word.0 }
    {
        self.cache.get(word)
    }

    /// Whether no entry is pending.
    #[inline(always)]
    pub(crate) fn is_settled(&self) -> bool
        ensures { result ≡ is_settled self.now }
    {
        self.cache.pending() == 0
    }

    /// Whether the node has a task that hasn't ended.
    #[inline(always)]
    pub(crate) fn is_running(&self) -> bool
        ensures { result ≡ is_running self.now.task }
    {
        match &self.task {
            Some(task) => task.end.is_none(),
            None => false,
        }
    }

    /// Whether the node may arrive at the barrier: it is neither halted nor has it arrived, no task of it goes on, and no
    /// entry is pending. Takes no memory.
    #[inline(always)]
    pub fn may_arrive(&self) -> bool
        ensures { result ≡ may_arrive self.now }
    {
        !(self.halted || self.arrived) && !self.is_running() && self.is_settled()
    }

    /// What the next instruction of the node's task needs; None where the node has no running task.
    #[inline(always)]
    pub(crate) fn need(&self, context: &Context<'_>) -> Option<Need>
        ensures { result ≡ need_now (setting context.now) self.now }
    {
        let task = self.task.as_ref()?;
        if task.end.is_some() {
            return None;
        }
        let declared = context.decoded.program().task(self.phase, self.core)?;
        Some(context.decoded.need(task, declared, context.fuel))
    }

    /// Whether the node's flags and its wait let an instruction go on.
    #[inline(always)]
    pub(crate) fn is_ready(&self) -> bool
        ensures { result ≡ (is_active self.now && is_ready self.now.waiting) }
    {
        let ready = matches!(self.wait, NodeWait::None | NodeWait::Filled(_));
        !(self.halted || self.arrived) && ready
    }

    /// Whether the node's next instruction is enabled. Takes no memory.
    pub fn may_instr(&self, context: &Context<'_>) -> bool
        ensures { result ≡ may_instr (setting context.now) self.now }
    {
        self.is_ready() && self.outlook(self.need(context)).is_clear()
    }

    /// The node, which must be allowed to (`may_arrive`), arrives at the barrier, and tells the barrier controller whether its
    /// task was bad. Takes no memory.
    pub fn arrive(&mut self) -> Outgoing
        requires { may_arrive self.old ≡ true }
        ensures node { self.new ≡ (arrives self.old).0 }
        ensures sent { Some result ≡ (arrives self.old).1 }
        ensures fits { (C : Setting) → Fits C self.old → Fits C self.new }
    {
        let bad = match &self.task {
            Some(task) => matches!(task.end, Some(End::Fuel | End::Trap { .. })),
            None => false,
        };
        self.arrived = true;
        let core = self.core;
        Outgoing::to_keeper(Message::Arrived { core, bad })
    }

    /// The value of a word that the node waits for comes: it becomes a copy, where the word has no entry and its set has room.
    #[inline(always)]
    fn fill(&mut self, word: WordId, value: u32)
        ensures { self.new ≡ (fills self.old word value (entry_of self.old word.0)).0 }
    {
        match self.cache.probe(word) {
            Probe::Room { place } => {
                let entry = Entry::Valid {
                    value,
                    marked: false,
                };
                self.cache.add_at(Some(place), word, entry);
                self.wait = NodeWait::Filled(word);
            }
            Probe::Hit { .. } => {}
            Probe::Full => {}
        }
    }

    /// The value of a word comes.
    #[inline(always)]
    pub(crate) fn data(&mut self, word: WordId, value: u32)
        ensures node { self.new ≡ (data_reply_row self.old word value self.old.waiting).0 }
        ensures received { record { sent = None; granted = None } ≡ (data_reply_row self.old word value self.old.waiting).1 }
    {
        if self.wait == NodeWait::Reading(word) {
            self.fill(word, value);
        }
    }

    /// A read is forwarded to the node: the value goes to the reader where the node has it for sure, and else the read goes
    /// back to the word's home.
    #[inline(always)]
    pub(crate) fn read(&self, context: &Context<'_>, word: WordId, reader: CoreId) -> Outgoing
        requires { 0 < (setting context.now).shape.banks }
        ensures { record { sent = Some result; granted = None } ≡ (read_fwd_row (setting context.now) self.now word reader (entry_of self.now word.0)).1 }
    {
        match self.cache.get(word) {
            Some(Entry::Registered { value, .. } | Entry::Leaving(value)) => Outgoing::to_core(
                reader,
                Message::DataReply { word, value },
            ),
            _ => send_home(context, word.0, Message::ReadReq { word, reader }),
        }
    }

    /// Evicts a word: a copy is removed, and a registered word is written back to its home. What is sent is put into the caller's place,
    /// which has nothing.
    pub(crate) fn give_up(
        &mut self,
        context: &Context<'_>,
        word: WordId,
        sent: &mut Option<Outgoing>,
    )
        requires none { sent.old ≡ None }
        requires banks { 0 < (setting context.now).shape.banks }
        ensures node { self.new ≡ (evicted (setting context.now) self.old word).0 }
        ensures sent { sent.new ≡ (evicted (setting context.now) self.old word).1 }
    {
        match self.cache.probe(word) {
            Probe::Hit { place, entry } => match entry {
                Entry::Valid { .. } => self.cache.remove_at(Some(place), word),
                Entry::Registered {
                    value,
                    pending: false,
                } => {
                    self.cache
                        .change_at(Some(place), word, Entry::Leaving(value));
                    let core = self.core;
                    *sent = Some(send_home(
                        context,
                        word.0,
                        Message::WriteBack { word, value, core },
                    ));
                }
                _ => {}
            },
            Probe::Room { .. } | Probe::Full => {}
        }
    }

    /// The run is over.
    #[inline(always)]
    pub(crate) fn halt(&mut self)
        ensures node { self.new ≡ (halt_row self.old).0 }
        ensures received { record { sent = None; granted = None } ≡ (halt_row self.old).1 }
    {
        if self.arrived {
            self.halted = true;
        }
    }

    /// The home of a word says that the core is its owner.
    #[inline(always)]
    pub(crate) fn acknowledge(&mut self, word: WordId)
        ensures node { self.new ≡ (reg_ack_row self.old word (entry_of self.old word.0)).0 }
        ensures received { record { sent = None; granted = None } ≡ (reg_ack_row self.old word (entry_of self.old word.0)).1 }
    {
        if let Probe::Hit { place, entry } = self.cache.probe(word)
            && let Entry::Registered {
                value,
                pending: true,
            } = entry
        {
            let entry = Entry::Registered {
                value,
                pending: false,
            };
            self.cache.change_at(Some(place), word, entry);
        }
    }

    /// Another core is the owner of a word now.
    #[inline(always)]
    pub(crate) fn forward(&mut self, word: WordId, core: CoreId) -> Outgoing
        ensures node { self.new ≡ (reg_fwd_row self.old word core (entry_of self.old word.0)).0 }
        ensures received { record { sent = Some result; granted = None } ≡ (reg_fwd_row self.old word core (entry_of self.old word.0)).1 }
    {
        if let Probe::Hit { place, entry } = self.cache.probe(word)
            && let Entry::Registered { pending: false, .. } = entry
        {
            self.cache.remove_at(Some(place), word);
        }
        Outgoing::to_core(core, Message::RegAck { word })
    }

    /// The home of a word has had it back.
    #[inline(always)]
    pub(crate) fn given_back(&mut self, word: WordId)
        ensures node { self.new ≡ (wb_ack_row self.old word (entry_of self.old word.0)).0 }
        ensures received { record { sent = None; granted = None } ≡ (wb_ack_row self.old word (entry_of self.old word.0)).1 }
    {
        if let Probe::Hit { place, entry } = self.cache.probe(word)
            && let Entry::Leaving(_) = entry
        {
            self.cache.remove_at(Some(place), word);
        }
    }
}

/// Compiles only if the type may be sent to another thread.
fn crosses<T: Send>(_value: &T) {}

/// A node may be sent to another thread. Nobody calls this; the check of its body proves it.
fn node_crosses(node: &Node) {
    crosses(node);
}
