ghost use Rattle.std.specs.Prelude.{◌≡◌, ◌≤◌, ℕ, slice_get, Some, OnOk};
ghost use Rattle.registration_protocol.specs.Fit.{IsContext, Fits};
ghost use Rattle.registration_protocol.specs.Node.{NodeParts, Setting};
ghost use Rattle.registration_protocol.specs.OwnEvents.{may_instr, may_evict, may_arrive};
ghost use Rattle.registration_protocol.specs.Setting.{setting};
ghost use Rattle.machine_rules.specs.Next.{enabled, when_there};
ghost use Rattle.dn_machine.specs.Content.{state_of};

use crate::content::Content;
use dn_base::{CoreId, Memory, WordId};
use message_net::Event;
use registration_protocol::{Context, Node};

/// Whether the next instruction of the core may go on.
fn may_instruct(nodes: &[Node], core: CoreId, context: &Context<'_>) -> bool
    ensures { result ≡ when_there (may_instr (setting context.now)) (slice_get nodes.now core.0) }
{
    match nodes.get(core.0 as usize) {
        Some(node) => node.may_instr(context),
        None => false,
    }
}

/// Whether the core may evict the word.
fn may_give_up(nodes: &[Node], core: CoreId, word: WordId, context: &Context<'_>) -> bool
    requires context { IsContext (setting context.now) }
    requires fits { (core : ℕ) (n : NodeParts) → slice_get nodes.now core ≡ Some n → Fits (setting context.now) n }
    ensures { result ≡ when_there (λ n. may_evict (setting context.now) n word.0) (slice_get nodes.now core.0) }
{
    let place = core.0 as usize;
    if place >= nodes.len() {
        return false;
    }
    let node = &nodes[place];
    node.may_evict(context, word)
}

/// Whether the core may arrive at the barrier.
fn may_end(nodes: &[Node], core: CoreId) -> bool
    ensures { result ≡ when_there may_arrive (slice_get nodes.now core.0) }
{
    match nodes.get(core.0 as usize) {
        Some(node) => node.may_arrive(),
        None => false,
    }
}

impl Content {
    /// Makes room for this many more messages.
    pub(crate) fn reserve(&mut self, more: u32) -> Result<(), Memory>
        ensures state { (C : Setting) → state_of C self.new ≡ state_of C self.old }
        ensures own { self.new.own ≡ self.old.own }
        ensures spare { OnOk result (more ≤ self.new.pool.spare) }
    {
        self.pool.reserve(more)
    }

    /// Makes room for this many more messages, and has each message found by its id in constant time from now on.
    pub(crate) fn reserve_by_id(&mut self, more: u32) -> Result<(), Memory>
        ensures state { (C : Setting) → state_of C self.new ≡ state_of C self.old }
        ensures own { self.new.own ≡ self.old.own }
        ensures spare { OnOk result (more ≤ self.new.pool.spare) }
    {
        self.pool.reserve(more)?;
        self.pool.keep_places()
    }

    /// Whether an event is enabled.
    #[tactic(auto, unfolding(machine_rules::specs::Next::enabled))]
    pub(crate) fn is_enabled(&self, context: &Context<'_>, event: &Event) -> bool
        requires context { IsContext (setting context.now) }
        requires fits { (core : ℕ) (n : NodeParts) → slice_get self.now.nodes.items core ≡ Some n → Fits (setting context.now) n }
        ensures { result ≡ enabled (state_of (setting context.now) self.now) event.now }
    {
        match event {
            Event::Instr(core) => may_instruct(self.nodes.as_slice(), *core, context),
            Event::Evict(core, word) => may_give_up(self.nodes.as_slice(), *core, *word, context),
            Event::Arrive(core) => may_end(self.nodes.as_slice(), *core),
            Event::Handle(id) => self.pool.has(*id),
        }
    }
}
