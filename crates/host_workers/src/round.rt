//! One round of host workers.
ghost use Rattle.std.specs.Prelude.{◌≡◌, ◌+◌, ◌++◌, ◌≤◌, ◌<◌, ℕ, List, length, map, filter_map, IfOk};
ghost use Rattle.message_net.specs.Pool.{AreDistinct};
ghost use Rattle.grant_log.specs.Log.{AreLogs, IsMerge};
ghost use Rattle.grant_log.specs.declared.log.Stamped.{Stamped as OneStamped};
ghost use Rattle.host_workers.specs.Rounds.{end_of_done, mail_in};
ghost use Rattle.host_workers.specs.Steps.{Done};
ghost use Rattle.host_workers.specs.Inboxes.{inboxes_of, all_posted};
ghost use Rattle.registration_protocol.specs.Setting.{setting};
ghost use Rattle.machine_rules.specs.State.{State};
ghost use Rattle.dn_machine.specs.Kept.{IsKept, IsLeftByRun};
ghost use Rattle.host_workers.specs.Opening.{StandsFor};
ghost use Rattle.host_workers.specs.Ends.{AreEndsOf};
ghost use Rattle.host_workers.specs.Finishing.{IsRoundLeft, MayBeTold};
ghost use Rattle.host_workers.specs.MadeRounds.{fixed_setting, made_from_parts, AreFixedPartsOf, IsMadeRound};

use crate::ends::ends_in;
use crate::finishing::{Finished, finish};
use crate::inboxes::Objects;
use crate::opening::{Moving, Opened, open};
use crate::roster::Parted;
use crate::working::work_all;
use crate::{
    a_round_is_a_run, no_object_is_spent, steps_are_of_owners, whoever_has_something_to_do_acts,
};
use bank_hall::{BankActor, KeeperActor, Port};
use dn_base::{Gate, Memory, Shape};
use dn_machine::{Machine, MachineParts};
use effect_checker::Checked;
use grant_log::{Stamped, merge};
use region_table::PhasePlan;
use registration_protocol::{Context, Node};
use rv_core::{DecodedProgram, TaskEnd};
use std::alloc::Global;
use std::sync::Wait;
use std::thread::Threads;
use turn_lock::Entry;

/// What a round leaves: the machine; the merged notes of all events; the ends of the tasks whose cores arrived at the barrier, in
/// the same order; and for each bank, each core's port and the barrier controller all calls in one order.
#[derive(Drop)]
pub struct Round {
    pub machine: Machine,
    pub merged: Vec<Stamped>,
    pub ends: Vec<TaskEnd>,
    pub banks: Vec<Vec<Entry<BankActor>>>,
    pub ports: Vec<Vec<Entry<Port>>>,
    pub keeper: Vec<Entry<KeeperActor>>,
}

impl Round {
    /// The machine that the round left.
    pub(crate) fn into_machine(self) -> Machine
        ensures { result ≡ self.machine }
    {
        self.machine
    }
}

/// What a round doesn't change of a machine: the program with its decoded code and its plans, the size, and the fuel. It also
/// has the number of events before the round.
#[derive(Drop)]
struct FixedParts {
    decoded: DecodedProgram,
    plans: Vec<PhasePlan>,
    shape: Shape,
    fuel: u32,
    made: u64,
}

/// Takes a machine apart into what a round changes and what it doesn't. Takes no memory.
fn parts_of(machine: Machine) -> (FixedParts, Moving)
    ensures parts { made_from_parts result.0 result.1 ≡ machine }
    ensures kept { IsKept (made_from_parts result.0 result.1).state result.0.made }
{
    let parts = machine.split();
    let fixed = FixedParts {
        decoded: DecodedProgram::of_parts(parts.checked.into_program(), parts.code),
        plans: parts.plans,
        shape: parts.shape,
        fuel: parts.fuel,
        made: parts.made,
    };
    let moving = Moving {
        nodes: parts.nodes,
        banks: parts.banks,
        keeper: parts.keeper,
        pool: parts.pool,
        next: parts.next,
    };
    (fixed, moving)
}

impl FixedParts {
    /// The context that the nodes of the machine are given.
    fn context(&self) -> Context<'_>
        ensures { setting result ≡ fixed_setting self.now }
    {
        Context {
            decoded: &self.decoded,
            plans: self.plans.as_slice(),
            shape: self.shape,
            fuel: self.fuel,
        }
    }

    /// The machine made of these parts and of those that the round changed, after `more` events. Takes no memory.
    fn machine(self, moving: Moving, more: u64) -> Machine
        requires most { self.made + more < 18446744073709551616 }
        requires left { IsLeftByRun (made_from_parts self moving).state (self.made + more) }
        ensures state { result.state ≡ (made_from_parts self moving).state }
        ensures made { result.made ≡ self.made + more }
    {
        let (program, code) = self.decoded.into_parts();
        Machine::join(MachineParts {
            checked: Checked::of_program(program),
            plans: self.plans,
            shape: self.shape,
            fuel: self.fuel,
            nodes: moving.nodes,
            banks: moving.banks,
            keeper: moving.keeper,
            pool: moving.pool,
            next: moving.next,
            made: self.made + more,
            code,
        })
    }
}

/// What a round leaves of what it changes in a machine: the nodes with the numbers of the cores' next messages, and the objects.
///
/// # Errors
/// `Memory` where there is no room.
fn moving_of(
    alloc: Global,
    nodes: Vec<Node>,
    mut next: Vec<u32>,
    objects: Objects,
) -> Result<Moving, Memory>
    requires distinct { AreDistinct (map mail_in (all_posted (inboxes_of objects.inboxes))) }
    requires few { length (all_posted (inboxes_of objects.inboxes)) < 4294967295 }
    ensures nodes { IfOk result (λ moving. moving.nodes.items ≡ nodes.items) }
    ensures banks { IfOk result (λ moving. moving.banks.items ≡ objects.banks.items) }
    ensures keeper { IfOk result (λ moving. moving.keeper ≡ objects.keeper) }
    ensures mails { IfOk result (λ moving. moving.pool.mails ≡ map mail_in (all_posted (inboxes_of objects.inboxes))) }
    ensures numbers { IfOk result (λ moving. moving.next.items ≡ next.items ++ objects.next.items) }
{
    let pool = objects.inboxes.pool(alloc)?;
    next.extend_from_slice(objects.next.as_slice())?;
    Ok(Moving {
        nodes,
        banks: objects.banks,
        keeper: objects.keeper,
        pool,
        next,
    })
}

/// What the notes of a round tell, and what it leaves of what it changes in a machine.
#[derive(Drop)]
struct Told {
    merged: Vec<Stamped>,
    ends: Vec<TaskEnd>,
    moving: Moving,
}

/// Merges the notes of a round, brings the ends of the tasks into their order, and gathers what the round changed in a machine.
///
/// # Errors
/// `Memory` where there is no room.
fn told_of(alloc: Global, parted: Parted, objects: Objects) -> Result<Told, Memory>
    requires logs { AreLogs (map (λ l. l.items) parted.logs.items) }
    requires told { (merged : List OneStamped) → IsMerge (map (λ l. l.items) parted.logs.items) merged → MayBeTold parted objects merged }
    ensures merge { IfOk result (λ told. IsMerge (map (λ l. l.items) parted.logs.items) told.merged.items) }
    ensures ends { IfOk result (λ told. (dones : List Done) → AreEndsOf told.merged.items (map (λ e. e.items) parted.ends.items) dones
        → told.ends.items ≡ filter_map end_of_done dones) }
    ensures nodes { IfOk result (λ told. told.moving.nodes.items ≡ parted.nodes.items) }
    ensures banks { IfOk result (λ told. told.moving.banks.items ≡ objects.banks.items) }
    ensures keeper { IfOk result (λ told. told.moving.keeper ≡ objects.keeper) }
    ensures mails { IfOk result (λ told. told.moving.pool.mails ≡ map mail_in (all_posted (inboxes_of objects.inboxes))) }
    ensures numbers { IfOk result (λ told. told.moving.next.items ≡ parted.next.items ++ objects.next.items) }
{
    let merged = merge(alloc, parted.logs)?;
    let ends = ends_in(alloc, merged.as_slice(), parted.ends.as_slice())?;
    let moving = moving_of(alloc, parted.nodes, parted.next, objects)?;
    Ok(Told {
        merged,
        ends,
        moving,
    })
}

/// Puts a round together from what is left of it: the notes are merged, and the machine is joined again.
///
/// # Errors
/// `Memory` where there is no room.
fn put_together(alloc: Global, fixed: FixedParts, finished: Finished) -> Result<Round, Memory>
    requires { (S M : State) × (workers : ℕ) × IsRoundLeft S M fixed.made workers finished × AreFixedPartsOf M fixed }
    ensures { IfOk result (λ round. (S M : State) (workers : ℕ) → IsRoundLeft S M fixed.made workers finished → AreFixedPartsOf M fixed → IsMadeRound S M fixed.made workers round) }
{
    let Finished {
        parted,
        objects,
        banks,
        ports,
        keeper,
    } = finished;
    let Told {
        merged,
        ends,
        moving,
    } = told_of(alloc, parted, objects)?;
    Ok(Round {
        machine: fixed.machine(moving, merged.len() as u64),
        merged,
        ends,
        banks,
        ports,
        keeper,
    })
}

/// Opens a round on what it changes in a machine, lets the workers make their passes, and closes it.
///
/// # Errors
/// `Memory` if there is no room. All workers have ended by then.
fn finished_round<R: Threads + Wait + Sync, G: Gate + Sync>(
    rt: &R,
    alloc: Global,
    fixed: &FixedParts,
    moving: Moving,
    workers: u32,
    seed: u32,
    gate: &G,
) -> Result<Finished, Memory>
    requires some { 1 ≤ workers }
    requires few { workers ≤ 16 }
    requires far { fixed.now.made < 3000000000 }
    requires kept { IsKept (made_from_parts fixed.now moving).state fixed.now.made }
    ensures { IfOk result (λ finished. (S : State) → StandsFor S (made_from_parts fixed.now moving).state
        → IsRoundLeft S (made_from_parts fixed.now moving).state fixed.now.made workers finished) }
{
    let Opened { hall, jobs } = open(alloc, moving, fixed.shape, workers, seed)?;
    let dones = work_all(rt, alloc, &hall, &fixed.context(), jobs, gate)?;
    finish(alloc, hall, dones, fixed.shape)
}

/// One round. There are `workers` workers, each on a thread of its own if one can be made. Worker w owns the cores and banks
/// whose number modulo the number of workers is w, and worker 0 the barrier controller. They make passes over a hall of the
/// machine's objects until no more events come, at most 4,096. Then the notes of all events are merged into one list, and the
/// machine is the one to which these events lead.
///
/// There must be 1 to 16 workers, and the machine must have made fewer than 3,000,000,000 events. The promises hold from each
/// state S for which the machine stands: a run leads to S, and the machine's state is S except for the order of its messages.
/// Every machine stands for some state (`a_machine_is_kept`).
///
/// # Errors
/// `Memory` if there is no room. All workers have ended by then, and the machine is dropped.
pub fn run_round<R: Threads + Wait + Sync, G: Gate + Sync>(
    rt: &R,
    alloc: Global,
    machine: Machine,
    workers: u32,
    seed: u32,
    gate: &G,
) -> Result<Round, Memory>
    requires some { 1 ≤ workers }
    requires few { workers ≤ 16 }
    requires made { machine.made < 3000000000 }
    ensures { IfOk result (λ round. (S : State) → StandsFor S machine.state → IsMadeRound S machine.state machine.made workers round) }
{
    let (fixed, moving) = parts_of(machine);
    let finished = finished_round(rt, alloc, &fixed, moving, workers, seed, gate)?;
    put_together(alloc, fixed, finished)
}
