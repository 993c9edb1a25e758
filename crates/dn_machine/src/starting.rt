ghost use Rattle.std.specs.Prelude.{◌≡◌, ◌+◌, ◌<◌, ◌≤◌, ℕ, [], ◌∷◌, ◌++◌, map, replicate, length, slice_get, Some, IfOk, OnOk};
ghost use Rattle.std.specs.List.{range_with_len};
ghost use Rattle.region_table.specs.Program.{IsProgram};
ghost use Rattle.registry_bank.specs.Bank.{initial_bank};
ghost use Rattle.effect_checker.specs.Checked.{IsChecked};
ghost use Rattle.registration_protocol.specs.Fit.{IsContext, Fits};
ghost use Rattle.registration_protocol.specs.Node.{NodeParts, initial_node};
ghost use Rattle.registration_protocol.specs.OwnEvents.{own_event};
ghost use Rattle.registration_protocol.specs.Setting.{setting};
ghost use Rattle.machine_rules.specs.State.{initial_state};
ghost use Rattle.dn_machine.specs.Content.{state_of, in_row, KnowsOwn};

use crate::content::Content;
use crate::own_row::OwnRow;
use crate::places::own_at;
use dn_base::{BankId, CoreId, MOST_CORES, MOST_WORDS, Memory, Sequence, Shape};
use message_net::Pool;
use phase_barrier::Keeper;
use region_table::Program;
use registration_protocol::{Context, Node};
use registry_bank::Bank;
use std::alloc::Global;

/// Adds the node of a core, as it is when a run begins.
fn push_node(
    nodes: &mut Vec<Node>,
    alloc: Global,
    core: CoreId,
    context: &Context<'_>,
) -> Result<(), Memory>
    requires context { IsContext (setting context.now) }
    requires core { core.0 < (setting context.now).shape.cores }
    ensures { OnOk result (nodes.new.items ≡ nodes.old.items ++ initial_node (setting context.now) core.0 ∷ []) }
{
    nodes.push(Node::new(alloc, core, context)?)?;
    Ok(())
}

/// Adds the node of each core to no nodes.
fn push_nodes(nodes: &mut Vec<Node>, alloc: Global, context: &Context<'_>) -> Result<(), Memory>
    requires context { IsContext (setting context.now) }
    requires none { nodes.old.items ≡ [] }
    ensures { OnOk result (nodes.new.items ≡ map (initial_node (setting context.now)) (range_with_len 0 (setting context.now).shape.cores)) }
{
    for core in 0..context.shape.cores {
        push_node(nodes, alloc, CoreId(core), context)?;
    }
    Ok(())
}

/// The nodes when a run begins, in the order of their cores.
pub(crate) fn new_nodes(alloc: Global, context: &Context<'_>) -> Result<Vec<Node>, Memory>
    requires { IsContext (setting context.now) }
    ensures { IfOk result (λ nodes. nodes.items ≡ map (initial_node (setting context.now)) (range_with_len 0 (setting context.now).shape.cores)) }
{
    let mut nodes = Vec::new(alloc);
    push_nodes(&mut nodes, alloc, context)?;
    Ok(nodes)
}

/// Adds the bank of this number, as it is when a run begins.
fn push_bank(
    banks: &mut Vec<Bank>,
    alloc: Global,
    bank: BankId,
    shape: Shape,
    memory: &[u32],
    locks: u32,
) -> Result<(), Memory>
    requires bank { bank.0 < shape.banks }
    requires banks { shape.banks ≤ 16 }
    requires some { 1 ≤ shape.cores }
    requires cores { shape.cores ≤ 16 }
    requires memory { length memory.now ≤ MOST_WORDS }
    requires locks { locks ≤ 32 }
    ensures { OnOk result (banks.new.items ≡ banks.old.items ++ initial_bank bank.0 shape.banks shape.cores memory.now locks ∷ []) }
{
    banks.push(Bank::new(alloc, bank, shape.banks, shape.cores, memory, locks)?)?;
    Ok(())
}

/// Adds each bank to no banks.
fn push_banks(
    banks: &mut Vec<Bank>,
    alloc: Global,
    shape: Shape,
    memory: &[u32],
    locks: u32,
) -> Result<(), Memory>
    requires none { banks.old.items ≡ [] }
    requires banks { shape.banks ≤ 16 }
    requires some { 1 ≤ shape.cores }
    requires cores { shape.cores ≤ 16 }
    requires memory { length memory.now ≤ MOST_WORDS }
    requires locks { locks ≤ 32 }
    ensures { OnOk result (banks.new.items ≡ map (λ (bank : ℕ). initial_bank bank shape.banks shape.cores memory.now locks) (range_with_len 0 shape.banks)) }
{
    for bank in 0..shape.banks {
        push_bank(banks, alloc, BankId(bank), shape, memory, locks)?;
    }
    Ok(())
}

/// The banks when a run begins, in the order of their numbers, with this initial memory and this many locks in all.
pub(crate) fn new_banks(
    alloc: Global,
    shape: Shape,
    memory: &[u32],
    locks: u32,
) -> Result<Vec<Bank>, Memory>
    requires banks { shape.banks ≤ 16 }
    requires some { 1 ≤ shape.cores }
    requires cores { shape.cores ≤ 16 }
    requires memory { length memory.now ≤ MOST_WORDS }
    requires locks { locks ≤ 32 }
    ensures { IfOk result (λ banks. banks.items ≡ map (λ (bank : ℕ). initial_bank bank shape.banks shape.cores memory.now locks) (range_with_len 0 shape.banks)) }
{
    let mut banks = Vec::new(alloc);
    push_banks(&mut banks, alloc, shape, memory, locks)?;
    Ok(banks)
}

/// The initial memory of a program.
fn memory_of(program: &Program) -> &[u32]
    ensures is { result.now ≡ program.now.memory }
    ensures most { length result.now ≤ MOST_WORDS }
{
    program.memory.as_slice()
}

/// How many locks a program has.
fn locks_of(program: &Program) -> u32
    ensures is { result ≡ length program.now.locks }
    ensures most { result ≤ 32 }
{
    program.locks.len() as u32
}

/// How many phases a program has.
fn phases_of(program: &Program) -> u32
    ensures is { result ≡ length program.now.phases }
    ensures most { result ≤ 64 }
{
    program.phases.len() as u32
}

/// As many zeros.
pub(crate) fn zeros(alloc: Global, count: u32) -> Result<Sequence<u32>, Memory>
    ensures { IfOk result (λ numbers. numbers ≡ replicate count 0) }
{
    let mut numbers = Sequence::new(alloc);
    for _done in 0..count {
        numbers.push(0)?;
    }
    Ok(numbers)
}

/// What each node does next by itself. Takes no memory.
pub(crate) fn own_events(nodes: &[Node], context: &Context<'_>) -> OwnRow
    requires most { length nodes.now ≤ 16 }
    requires context { IsContext (setting context.now) }
    requires fits { (core : ℕ) (n : NodeParts) → slice_get nodes.now core ≡ Some n → Fits (setting context.now) n }
    ensures { result ≡ in_row (map (own_event (setting context.now)) nodes.now) }
{
    let mut own = [None; MOST_CORES];
    for place in 0..nodes.len() {
        own[place] = own_at(nodes, place, context);
    }
    OwnRow::new(own)
}

/// What changes in a machine with these nodes and banks, when a run begins.
fn content_with_banks(
    alloc: Global,
    context: &Context<'_>,
    nodes: Vec<Node>,
    banks: Vec<Bank>,
) -> Result<Content, Memory>
    requires context { IsContext (setting context.now) }
    requires program { IsProgram (setting context.now).program }
    requires checked { IsChecked (setting context.now).program }
    requires some { 1 ≤ (setting context.now).shape.cores }
    requires most { (setting context.now).shape.cores ≤ 16 }
    requires nodes { nodes.items ≡ map (initial_node (setting context.now)) (range_with_len 0 (setting context.now).shape.cores) }
    requires banks { banks.items ≡ map (λ (bank : ℕ). initial_bank bank (setting context.now).shape.banks (setting context.now).shape.cores (setting context.now).program.memory (length (setting context.now).program.locks)) (range_with_len 0 (setting context.now).shape.banks) }
    ensures state { IfOk result (λ content. state_of (setting context.now) content ≡ initial_state (setting context.now)) }
    ensures known { IfOk result (KnowsOwn (setting context.now)) }
{
    let shape = context.shape;
    let keeper = Keeper::new(shape.cores, phases_of(context.decoded.program()));
    let own = own_events(nodes.as_slice(), context);
    let numbers = zeros(alloc, shape.cores + shape.banks + 1)?;
    Ok(Content {
        nodes,
        banks,
        keeper,
        pool: Pool::new(alloc),
        numbers,
        own,
    })
}

/// What changes in a machine with these nodes, when a run begins.
fn content_with_nodes(
    alloc: Global,
    context: &Context<'_>,
    nodes: Vec<Node>,
) -> Result<Content, Memory>
    requires context { IsContext (setting context.now) }
    requires program { IsProgram (setting context.now).program }
    requires checked { IsChecked (setting context.now).program }
    requires some { 1 ≤ (setting context.now).shape.cores }
    requires most { (setting context.now).shape.cores ≤ 16 }
    requires nodes { nodes.items ≡ map (initial_node (setting context.now)) (range_with_len 0 (setting context.now).shape.cores) }
    ensures state { IfOk result (λ content. state_of (setting context.now) content ≡ initial_state (setting context.now)) }
    ensures known { IfOk result (KnowsOwn (setting context.now)) }
{
    let program = context.decoded.program();
    let banks = new_banks(alloc, context.shape, memory_of(program), locks_of(program))?;
    content_with_banks(alloc, context, nodes, banks)
}

/// What changes in a machine, when a run begins.
pub(crate) fn initial_content(alloc: Global, context: &Context<'_>) -> Result<Content, Memory>
    requires context { IsContext (setting context.now) }
    requires program { IsProgram (setting context.now).program }
    requires checked { IsChecked (setting context.now).program }
    requires some { 1 ≤ (setting context.now).shape.cores }
    requires most { (setting context.now).shape.cores ≤ 16 }
    ensures state { IfOk result (λ content. state_of (setting context.now) content ≡ initial_state (setting context.now)) }
    ensures known { IfOk result (KnowsOwn (setting context.now)) }
{
    let nodes = new_nodes(alloc, context)?;
    content_with_nodes(alloc, context, nodes)
}
