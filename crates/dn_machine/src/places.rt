ghost use Rattle.std.specs.Prelude.{◌≡◌, ◌<◌, true, false, length, slice_get, slice_set, Some, None};
ghost use Rattle.message_net.specs.declared.event.Event.TheVariants.{Instr as AnInstr};
ghost use Rattle.registration_protocol.specs.Fit.{IsContext, Fits};
ghost use Rattle.registration_protocol.specs.Node.{NodeParts};
ghost use Rattle.registration_protocol.specs.OwnEvents.{may_instr, may_evict, may_arrive, instructed, evicted, arrives, me, own_event};
ghost use Rattle.registration_protocol.specs.Messages.{node_gets};
ghost use Rattle.registration_protocol.specs.Setting.{setting};
ghost use Rattle.registry_bank.specs.Bank.{BankParts, bank_gets};

use dn_base::{LoadSeen, WordId};
use message_net::{Event, Message, Outgoing};
use registration_protocol::{Context, Node, Received};
use registry_bank::Bank;

/// Completes the next instruction of the node at this place, if it needs nothing besides the task's own registers. Otherwise it does
/// nothing. Returns whether it completed one.
#[inline(always)]
pub(crate) fn compute_at(nodes: &mut Vec<Node>, place: usize, context: &Context<'_>) -> bool
    requires context { IsContext (setting context.now) }
    requires place { place < length nodes.old.items }
    requires fits { (n : NodeParts) → slice_get nodes.old.items place ≡ Some n → Fits (setting context.now) n }
    requires may { (n : NodeParts) → slice_get nodes.old.items place ≡ Some n → may_instr (setting context.now) n ≡ true }
    ensures done { result ≡ true → (n : NodeParts) → slice_get nodes.old.items place ≡ Some n
        → (nodes.new.items ≡ slice_set nodes.old.items place (instructed (setting context.now) n).0)
        × (record { sent = None; seen = None } ≡ (instructed (setting context.now) n).1)
        × Fits (setting context.now) (instructed (setting context.now) n).0 }
    ensures left { result ≡ false → nodes.new.items ≡ nodes.old.items }
{
    let node = &mut nodes[place];
    node.compute(context)
}

/// The next instruction of the node at this place, where `compute_at` made none. What it sends is put into the caller's place.
#[inline(always)]
pub(crate) fn instruct_at(
    nodes: &mut Vec<Node>,
    place: usize,
    context: &Context<'_>,
    sent: &mut Option<Outgoing>,
) -> Option<LoadSeen>
    requires context { IsContext (setting context.now) }
    requires place { place < length nodes.old.items }
    requires fits { (n : NodeParts) → slice_get nodes.old.items place ≡ Some n → Fits (setting context.now) n }
    requires may { (n : NodeParts) → slice_get nodes.old.items place ≡ Some n → may_instr (setting context.now) n ≡ true }
    ensures { (n : NodeParts) → slice_get nodes.old.items place ≡ Some n
        → (nodes.new.items ≡ slice_set nodes.old.items place (instructed (setting context.now) n).0)
        × (record { sent = sent.new; seen = result } ≡ (instructed (setting context.now) n).1)
        × Fits (setting context.now) (instructed (setting context.now) n).0 }
{
    let node = &mut nodes[place];
    node.other_instr_into(context, sent)
}

/// The node at this place evicts a word.
#[inline(always)]
pub(crate) fn evict_at(
    nodes: &mut Vec<Node>,
    place: usize,
    context: &Context<'_>,
    word: WordId,
) -> Option<Outgoing>
    requires context { IsContext (setting context.now) }
    requires place { place < length nodes.old.items }
    requires fits { (n : NodeParts) → slice_get nodes.old.items place ≡ Some n → Fits (setting context.now) n }
    requires may { (n : NodeParts) → slice_get nodes.old.items place ≡ Some n → may_evict (setting context.now) n word.0 ≡ true }
    ensures { (n : NodeParts) → slice_get nodes.old.items place ≡ Some n
        → (nodes.new.items ≡ slice_set nodes.old.items place (evicted (setting context.now) n word).0) × (result ≡ (evicted (setting context.now) n word).1)
        × Fits (setting context.now) (evicted (setting context.now) n word).0 }
{
    let node = &mut nodes[place];
    node.evict(context, word)
}

/// The node at this place arrives at the barrier.
#[inline(always)]
pub(crate) fn arrive_at(nodes: &mut Vec<Node>, place: usize, context: &Context<'_>) -> Outgoing
    requires place { place < length nodes.old.items }
    requires fits { (n : NodeParts) → slice_get nodes.old.items place ≡ Some n → Fits (setting context.now) n }
    requires may { (n : NodeParts) → slice_get nodes.old.items place ≡ Some n → may_arrive n ≡ true }
    ensures { (n : NodeParts) → slice_get nodes.old.items place ≡ Some n
        → (nodes.new.items ≡ slice_set nodes.old.items place (arrives n).0) × (Some result ≡ (arrives n).1)
        × Fits (setting context.now) (arrives n).0 }
{
    let node = &mut nodes[place];
    node.arrive()
}

/// The node at this place gets a message.
#[inline(always)]
pub(crate) fn receive_at(
    nodes: &mut Vec<Node>,
    place: usize,
    context: &Context<'_>,
    message: Message,
) -> Received
    requires context { IsContext (setting context.now) }
    requires place { place < length nodes.old.items }
    requires fits { (n : NodeParts) → slice_get nodes.old.items place ≡ Some n → Fits (setting context.now) n }
    ensures { (n : NodeParts) → slice_get nodes.old.items place ≡ Some n
        → (nodes.new.items ≡ slice_set nodes.old.items place (node_gets (setting context.now) n message).0) × (result ≡ (node_gets (setting context.now) n message).1)
        × Fits (setting context.now) (node_gets (setting context.now) n message).0 }
{
    let node = &mut nodes[place];
    node.receive(context, message)
}

/// What the node at this place does next by itself.
#[inline(always)]
pub(crate) fn own_at(nodes: &[Node], place: usize, context: &Context<'_>) -> Option<Event>
    requires context { IsContext (setting context.now) }
    requires place { place < length nodes.now }
    requires fits { (n : NodeParts) → slice_get nodes.now place ≡ Some n → Fits (setting context.now) n }
    ensures { (n : NodeParts) → slice_get nodes.now place ≡ Some n → result ≡ own_event (setting context.now) n }
{
    let node = &nodes[place];
    node.own(context)
}

/// The instruction of the node at this place, as an event.
#[inline(always)]
pub(crate) fn instr_at(nodes: &[Node], place: usize) -> Event
    requires place { place < length nodes.now }
    ensures { (n : NodeParts) → slice_get nodes.now place ≡ Some n → result ≡ AnInstr (me n) }
{
    let node = &nodes[place];
    Event::Instr(node.core())
}

/// The bank at this place gets a message.
#[inline(always)]
pub(crate) fn handle_at(banks: &mut Vec<Bank>, place: usize, message: Message) -> Option<Outgoing>
    requires place { place < length banks.old.items }
    ensures { (b : BankParts) → slice_get banks.old.items place ≡ Some b
        → (banks.new.items ≡ slice_set banks.old.items place (bank_gets b message).0) × (result ≡ (bank_gets b message).1) }
{
    let bank = &mut banks[place];
    bank.handle(message)
}
