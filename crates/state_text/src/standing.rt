//! Why an event is not enabled.
ghost use Rattle.std.specs.Prelude.{◌≡◌, ◌↔◌, ◌<◌, true, IfSome, None, option_copied, slice_get};
ghost use Rattle.message_net.specs.declared.event.Event.TheVariants as event;
ghost use Rattle.registration_protocol.specs.Fit.{Fits};
ghost use Rattle.registration_protocol.specs.Node.{need_now};
ghost use Rattle.machine_rules.specs.Next.{enabled};
ghost use Rattle.state_text.specs.Holding.{HoldsIn};
ghost use Rattle.state_text.specs.Reasons.{instr_reason, evict_reason, arrive_reason, reason_against};

use crate::conditions::{
    filled_reason, inactive, need_reason, pending, wait_reason, with_task, without_room,
    without_task, word_wanting_room,
};
use crate::reason::Reason;
use dn_base::{CoreId, WordId};
use dn_machine::{Machine, a_machine_is_kept};
use message_net::Event;
use registration_protocol::Node;
use rv_core::Need;

/// The node of a core, if the machine has it.
pub(crate) fn node_of(machine: &Machine, core: CoreId) -> Option<&Node>
    ensures node { option_copied result ≡ slice_get machine.now.state.nodes core.0 }
    ensures sets { IfSome result (λ node. 0 < node.now.cache.sets) }
{
    // for the proof alone: there are as many nodes as cores, and the shape has a set
    a_machine_is_kept(machine);
    if core.0 < machine.shape().cores {
        Some(machine.node(core))
    } else {
        None
    }
}

/// What a node's next instruction needs; None where the node has no running task.
fn need(machine: &Machine, node: &Node) -> Option<Need>
    ensures { result ≡ need_now machine.now.state.setting node.now }
{
    node.needs(machine.program(), machine.fuel())
}

/// Why a node's instruction is not enabled.
fn instr(machine: &Machine, node: &Node) -> Option<Reason>
    ensures { result ≡ instr_reason machine.now.state.setting node.now }
{
    inactive(node)
        .or(without_task(node))
        .or(wait_reason(node.wait()))
        .or(need_reason(node, need(machine, node)))
}

/// Why a node may not evict a word.
fn evict(machine: &Machine, node: &Node, word: WordId) -> Option<Reason>
    requires { 0 < node.now.cache.sets }
    ensures { result ≡ evict_reason machine.now.state.setting word node.now }
{
    let wanted = word_wanting_room(node, need(machine, node));
    inactive(node)
        .or(without_task(node))
        .or(wait_reason(node.wait()))
        .or(filled_reason(node.wait()))
        .or(without_room(node, word, wanted))
}

/// Why a node may not arrive.
fn arrive(node: &Node) -> Option<Reason>
    ensures { result ≡ arrive_reason node.now }
{
    inactive(node).or(with_task(node)).or(pending(node))
}

/// The first reason against an event.
#[tactic(auto, unfolding(crate::specs::Reasons::reason_against))]
fn first_reason(machine: &Machine, event: &Event) -> Option<Reason>
    ensures { result ≡ reason_against machine.now.state event.now }
{
    match event {
        Event::Instr(core) => match node_of(machine, *core) {
            Some(node) => instr(machine, node),
            None => Some(Reason::NoCore),
        },
        Event::Evict(core, word) => match node_of(machine, *core) {
            Some(node) => evict(machine, node, *word),
            None => Some(Reason::NoCore),
        },
        Event::Arrive(core) => match node_of(machine, *core) {
            Some(node) => arrive(node),
            None => Some(Reason::NoCore),
        },
        Event::Handle(id) => {
            if machine.pool().has(*id) {
                None
            } else {
                Some(Reason::NoMail)
            }
        }
    }
}

/// Why an event is not enabled: the first of its conditions, in the order of the tables, that isn't met. None exactly if the
/// event is enabled. Takes no memory.
pub fn reason_against(machine: &Machine, event: &Event) -> Option<Reason>
    ensures first { result ≡ reason_against machine.now.state event.now }
    ensures holds { IfSome result (HoldsIn machine.now.state event.now) }
    ensures none { (result ≡ None) ↔ (enabled machine.now.state event.now ≡ true) }
{
    // for the proof alone: a node has a task exactly where its program declares one
    a_machine_is_kept(machine);
    first_reason(machine, event)
}
