ghost use Rattle.std.specs.Prelude.{◌≡◌, Some, None, true};
ghost use Rattle.registration_protocol.specs.Fit.{IsContext, Fits};
ghost use Rattle.registration_protocol.specs.OwnEvents.{own_event, may_arrive, arrives, end_of};
ghost use Rattle.registration_protocol.specs.Node.{Setting};
ghost use Rattle.registration_protocol.specs.Setting.{setting};
ghost use Rattle.host_workers.specs.Members.{Handles, Makes, NodeIs, comes_of};
ghost use Rattle.host_workers.specs.Deeds.{came_with};

use dn_base::{Grant, WordId};
use grant_log::Posted;
use message_net::{Event, Outgoing};
use registration_protocol::{Context, Node, an_own_event_may_come};
use rv_core::TaskEnd;

/// The result of a node's event: the lock that was granted, the message that is sent, and how the task of a node that arrived
/// had ended.
#[derive(Clone, Copy)]
pub(crate) struct NodeCame {
    pub(crate) granted: Option<Grant>,
    pub(crate) sent: Option<Outgoing>,
    pub(crate) end: Option<TaskEnd>,
}

/// The result of an event that may only send a message.
fn sends(sent: Option<Outgoing>) -> NodeCame
    ensures { result ≡ record { granted = None; sent = sent; end = None } }
{
    NodeCame {
        granted: None,
        sent,
        end: None,
    }
}

/// The node handles a message.
#[tactic(auto, unfolding(crate::specs::Members::comes_of))]
pub(crate) fn receive(node: &mut Node, context: &Context<'_>, posted: &Posted) -> NodeCame
    requires context { IsContext (setting context.now) }
    requires fits { Fits (setting context.now) node.old }
    ensures came { comes_of (setting context.now) (NodeIs node.old) (Handles posted.now) ≡ came_with node.new result }
    ensures fits { Fits (setting context.now) node.new }
{
    let received = node.receive(context, posted.mail.message);
    NodeCame {
        granted: received.granted,
        sent: received.sent,
        end: None,
    }
}

/// The node arrives at the barrier.
fn arrive(node: &mut Node) -> NodeCame
    requires { may_arrive node.old ≡ true }
    ensures node { node.new ≡ (arrives node.old).0 }
    ensures came { (result.sent ≡ (arrives node.old).1) × (result.granted ≡ None) × (result.end ≡ end_of node.old node.old.task) }
    ensures fits { (C : Setting) → Fits C node.old → Fits C node.new }
{
    let end = node.task_end();
    let sent = node.arrive();
    NodeCame {
        granted: None,
        sent: Some(sent),
        end,
    }
}

/// The node makes its own event.
#[tactic(auto, unfolding(crate::specs::Members::comes_of))]
pub(crate) fn act(node: &mut Node, context: &Context<'_>, event: Event) -> NodeCame
    requires context { IsContext (setting context.now) }
    requires fits { Fits (setting context.now) node.old }
    requires own { own_event (setting context.now) node.old ≡ Some event }
    ensures came { comes_of (setting context.now) (NodeIs node.old) (Makes event) ≡ came_with node.new result }
    ensures fits { Fits (setting context.now) node.new }
{
    // for the proof alone: the law says that the own event may come, as the call of it requires
    an_own_event_may_come();
    match event {
        Event::Instr(_) => sends(node.instr(context).sent),
        Event::Evict(_, word) => sends(node.evict(context, word)),
        Event::Arrive(_) => arrive(node),
        Event::Handle(_) => unreachable!(),
    }
}
