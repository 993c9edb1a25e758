//! Which events are enabled.
ghost use Rattle.std.specs.Prelude.{◌≡◌, ◌↔◌, ◌++◌, ◌<◌, true, flat_map, IfOk, OnOk, slice_get, Some};
ghost use Rattle.std.specs.List.{IsAmong};
ghost use Rattle.message_net.specs.declared.event.Event.{Event as AnEvent};
ghost use Rattle.machine_rules.specs.Next.{enabled};
ghost use Rattle.dn_machine.specs.Pick.{handlings};
ghost use Rattle.state_text.specs.Coming.{if_enabled, enabled_eviction, enabled_own, enabled_events};

use crate::order::pairs_by_set;
use dn_base::{CoreId, Memory, Sequence, WordId};
use dn_machine::{Machine, a_machine_is_kept};
use message_net::{Event, Pool};
use registration_protocol::Node;
use std::alloc::Global;
use word_cache::Entry;

/// Adds an event, if it is enabled.
fn push_if(events: &mut Sequence<Event>, machine: &Machine, event: Event) -> Result<(), Memory>
    ensures { OnOk result (events.new ≡ events.old ++ if_enabled machine.now.state event) }
{
    if machine.enabled(&event) {
        events.push(event)?;
    }
    Ok(())
}

/// Adds the enabled evictions of these words.
fn push_evictions(
    events: &mut Sequence<Event>,
    machine: &Machine,
    node: &Node,
    pairs: &[(WordId, Entry)],
) -> Result<(), Memory>
    ensures { OnOk result (events.new ≡ events.old ++ flat_map (enabled_eviction machine.now.state node.now) pairs.now) }
{
    for pair in pairs {
        push_if(events, machine, Event::Evict(node.core(), pair.0))?;
    }
    Ok(())
}

/// Adds the enabled own events of a node.
fn push_own(
    alloc: Global,
    events: &mut Sequence<Event>,
    machine: &Machine,
    node: &Node,
) -> Result<(), Memory>
    ensures { OnOk result (events.new ≡ events.old ++ enabled_own machine.now.state node.now) }
{
    let pairs = pairs_by_set(alloc, node.cache())?;
    push_if(events, machine, Event::Instr(node.core()))?;
    push_evictions(events, machine, node, pairs.as_slice())?;
    push_if(events, machine, Event::Arrive(node.core()))
}

/// Adds the enabled own events of all cores.
fn push_cores(alloc: Global, events: &mut Sequence<Event>, machine: &Machine) -> Result<(), Memory>
    ensures { OnOk result (events.new ≡ events.old ++ flat_map (enabled_own machine.now.state) machine.now.state.nodes) }
{
    // for the proof alone: there are as many nodes as cores
    a_machine_is_kept(machine);
    for core in 0..machine.shape().cores {
        push_own(alloc, events, machine, machine.node(CoreId(core)))?;
    }
    Ok(())
}

/// Adds the handling of each message in flight.
fn push_handlings(events: &mut Sequence<Event>, pool: &Pool) -> Result<(), Memory>
    ensures { OnOk result (events.new ≡ events.old ++ handlings pool.now.mails) }
{
    for place in 0..pool.count() {
        events.push(Event::Handle(pool.at(place).id))?;
    }
    Ok(())
}

/// The events in their order.
#[tactic(auto, unfolding(crate::specs::Coming::enabled_events))]
fn list_events(alloc: Global, machine: &Machine) -> Result<Sequence<Event>, Memory>
    ensures { IfOk result (λ events. events ≡ enabled_events machine.now.state) }
{
    let mut events = Sequence::new(alloc);
    push_cores(alloc, &mut events, machine)?;
    push_handlings(&mut events, machine.pool())?;
    Ok(events)
}

/// Exactly the enabled events: for each core, in the order of cores, its instruction, its evictions and its arrival; then the
/// handling of each message, in the order of the pool. It looks at each place of the caches once.
///
/// # Errors
/// `Memory` where there is no room.
pub fn enabled_events(alloc: Global, machine: &Machine) -> Result<Sequence<Event>, Memory>
    ensures order { IfOk result (λ events. events ≡ enabled_events machine.now.state) }
    ensures exactly { IfOk result (λ events. (e : AnEvent) → IsAmong events e ↔ (enabled machine.now.state e ≡ true)) }
{
    // for the proof alone: each node is in its place, and has a well-formed cache
    a_machine_is_kept(machine);
    let events = list_events(alloc, machine)?;
    Ok(events)
}
