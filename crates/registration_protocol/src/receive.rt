ghost use Rattle.std.specs.Prelude.{◌≡◌, ◌<◌, ◌+◌, length, slice_get, Some, None};
ghost use Rattle.std.specs.Prelude.{[], slice_set, slice_index_or};
ghost use Rattle.region_table.specs.Plan.{ArePlans};
ghost use Rattle.rv_core.specs.declared.need.Need.TheVariants.{Acquire as NeedsAcquire};
ghost use Rattle.write_signature.specs.Signature.{in_phase};
ghost use Rattle.word_cache.specs.Cache.{dropped_signed, dropped_written};
ghost use Rattle.registration_protocol.specs.Fit.{IsContext, Fits};
ghost use Rattle.registration_protocol.specs.Node.{keeping, need_now};
ghost use Rattle.registration_protocol.specs.Messages.{guarded_by, written_in, granted_to, grant_row, begins, go_row, node_gets};
ghost use Rattle.registration_protocol.specs.Setting.{setting};

use crate::node::{Node, NodeWait, Received};
use crate::setting::{Context, declaration, start};
use crate::signatures::empty_all;
use dn_base::{Grant, LockId, PhaseId};
use message_net::{Message, Outgoing};
use region_table::PhasePlan;
use write_signature::Signature;

/// The signature, or the empty one of the phase if it is of another phase.
fn own_phase(signature: Signature, phase: PhaseId) -> Signature
    ensures { result ≡ in_phase phase.0 signature }
{
    if signature.phase() == phase {
        signature
    } else {
        Signature::empty(phase)
    }
}

impl Node {
    /// Drops the copies of the words that the lock guards in the phase of this plan and that the signature may hold.
    fn drop_guarded(&mut self, plan: &PhasePlan, lock: LockId, signature: &Signature)
        ensures { self.new ≡ keeping self.old (dropped_signed signature.now self.old.phase (slice_index_or plan.now.guarded lock.0 []) self.old.cache.pairs) }
    {
        match plan.guarded.get(lock.0 as usize) {
            Some(words) => self.cache.drop_signed(signature, self.phase, words),
            None => {}
        }
    }

    /// Drops the copies of the lock's words that the signature may hold.
    fn drop_signed(&mut self, context: &Context<'_>, lock: LockId, signature: &Signature)
        ensures { self.new ≡ keeping self.old (dropped_signed signature.now self.old.phase (guarded_by (slice_get (setting context.now).plans self.old.phase) lock.0) self.old.cache.pairs) }
    {
        match context.plans.get(self.phase.0 as usize) {
            Some(plan) => self.drop_guarded(plan, lock, signature),
            None => {}
        }
    }

    /// The node's task gets the lock that the node waits for.
    fn hold(&mut self, context: &Context<'_>, lock: LockId, signature: Signature) -> Option<Grant>
        requires fits { Fits (setting context.now) self.old }
        requires lock { need_now (setting context.now) self.old ≡ Some (NeedsAcquire lock) }
        ensures node { self.new ≡ (granted_to (setting context.now) self.old lock signature self.old.task).0 }
        ensures received { record { sent = None; granted = result } ≡ (granted_to (setting context.now) self.old lock signature self.old.task).1 }
    {
        let Some(task) = &mut self.task else {
            return None;
        };
        let declared = declaration(context.decoded.program(), self.phase, self.core)?;
        task.advance(context.decoded.program(), declared, context.fuel);
        self.signatures
            .set(lock.0 as usize, own_phase(signature, self.phase));
        self.drop_signed(context, lock, &signature);
        self.wait = NodeWait::None;
        Some(Grant {
            phase: self.phase,
            core: self.core,
            lock,
        })
    }

    /// A lock is granted.
    fn grant(&mut self, context: &Context<'_>, lock: LockId, signature: Signature) -> Option<Grant>
        requires fits { Fits (setting context.now) self.old }
        ensures node { self.new ≡ (grant_row (setting context.now) self.old lock signature self.old.waiting).0 }
        ensures received { record { sent = None; granted = result } ≡ (grant_row (setting context.now) self.old lock signature self.old.waiting).1 }
    {
        match self.wait {
            NodeWait::Locking(wanted) if wanted.0 == lock.0 => self.hold(context, lock, signature),
            _ => None,
        }
    }

    /// Drops the copies that may be stale after the node's phase, and removes the marks.
    fn drop_written(&mut self, context: &Context<'_>)
        requires { self.old.phase < length (setting context.now).plans }
        ensures { self.new ≡ keeping self.old (dropped_written (written_in (slice_get (setting context.now).plans self.old.phase)) self.old.cache.pairs) }
    {
        if let Some(plan) = context.plans.get(self.phase.0 as usize) {
            self.cache.drop_written(&plan.written);
        }
    }

    /// The phase begins.
    fn begin(&mut self, context: &Context<'_>, phase: PhaseId)
        requires phase { self.old.phase < length (setting context.now).plans }
        requires locks { length self.old.signatures ≡ length (setting context.now).program.locks }
        ensures { self.new ≡ begins (setting context.now) self.old phase.0 }
    {
        self.drop_written(context);
        empty_all(&mut self.signatures, phase);
        self.task = start(context.decoded.program(), phase, self.core);
        self.phase = phase;
        self.wait = NodeWait::None;
        self.arrived = false;
    }

    /// The barrier controller says that the phase begins.
    fn go(&mut self, context: &Context<'_>, phase: PhaseId)
        requires context { IsContext (setting context.now) }
        requires fits { Fits (setting context.now) self.old }
        ensures node { self.new ≡ (go_row (setting context.now) self.old phase.0).0 }
        ensures received { record { sent = None; granted = None } ≡ (go_row (setting context.now) self.old phase.0).1 }
    {
        let program = context.decoded.program();
        let is_next = self.phase.0.checked_add(1) == Some(phase.0);
        let is_there = (phase.0 as usize) < program.phases.len();
        if self.arrived && !self.halted && is_next && is_there {
            self.begin(context, phase);
        }
    }

    /// What a message makes the node do, by its kind. What is sent is put into the caller's place, which has nothing: so the many that
    /// send nothing move no message.
    #[tactic(auto, unfolding(crate::specs::Messages::node_gets))]
    #[inline(always)]
    fn handle(
        &mut self,
        context: &Context<'_>,
        message: &Message,
        sent: &mut Option<Outgoing>,
    ) -> Option<Grant>
        requires none { sent.old ≡ None }
        requires context { IsContext (setting context.now) }
        requires fits { Fits (setting context.now) self.old }
        ensures node { self.new ≡ (node_gets (setting context.now) self.old message.now).0 }
        ensures received { record { sent = sent.new; granted = result } ≡ (node_gets (setting context.now) self.old message.now).1 }
    {
        match *message {
            Message::DataReply { word, value } => {
                self.data(word, value);
                None
            }
            Message::RegAck { word } => {
                self.acknowledge(word);
                None
            }
            Message::RegFwd { word, core } => {
                *sent = Some(self.forward(word, core));
                None
            }
            Message::ReadFwd { word, reader } => {
                *sent = Some(self.read(context, word, reader));
                None
            }
            Message::WbAck { word } => {
                self.given_back(word);
                None
            }
            Message::Grant { lock, signature } => self.grant(context, lock, signature),
            Message::Go { phase } => {
                self.go(context, phase);
                None
            }
            Message::Halt => {
                self.halt();
                None
            }
            _ => None,
        }
    }

    /// What a node does on a message, as `receive` does it. What it sends is put into the caller's place, and the lock that it is
    /// granted is given back. Takes no memory.
    #[inline(always)]
    pub fn receive_into(
        &mut self,
        context: &Context<'_>,
        message: &Message,
        sent: &mut Option<Outgoing>,
    ) -> Option<Grant>
        requires context { IsContext (setting context.now) }
        requires fits { Fits (setting context.now) self.old }
        ensures node { self.new ≡ (node_gets (setting context.now) self.old message.now).0 }
        ensures received { record { sent = sent.new; granted = result } ≡ (node_gets (setting context.now) self.old message.now).1 }
        ensures fits { Fits (setting context.now) self.new }
    {
        *sent = None;
        self.handle(context, message, sent)
    }

    /// What a node does on a message: the value of a word, an acknowledgement, a forwarded registration or read, the grant of a
    /// lock, or the barrier controller's Go and Halt.
    ///
    /// A message that comes where none of these says anything changes nothing and sends nothing. Takes no memory.
    #[inline(always)]
    pub fn receive(&mut self, context: &Context<'_>, message: Message) -> Received
        requires context { IsContext (setting context.now) }
        requires fits { Fits (setting context.now) self.old }
        ensures node { self.new ≡ (node_gets (setting context.now) self.old message).0 }
        ensures received { result ≡ (node_gets (setting context.now) self.old message).1 }
        ensures fits { Fits (setting context.now) self.new }
    {
        let mut sent = None;
        let granted = self.receive_into(context, &message, &mut sent);
        Received { sent, granted }
    }
}
