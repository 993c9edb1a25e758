//! How a round of workers begins.
ghost use Rattle.std.specs.Prelude.{◌≡◌, ◌+◌, ◌*◌, ◌^◌, ◌≤◌, length, map, IfOk};
ghost use Rattle.bank_hall.specs.Halls.{AreHallParts};
ghost use Rattle.dn_machine.specs.Schedule.{generator_of};
ghost use Rattle.machine_rules.specs.State.{State};
ghost use Rattle.host_workers.specs.Opening.{IsMovingOf, AreFirstObjects, IsOpenedOf, IsInitialRound, crew_of, pass_of};
ghost use Rattle.host_workers.specs.Rosters.{RosterParts, IsFreshRoster, AreCrewsOf};

use crate::crew::Crew;
use crate::inboxes::Inboxes;
use crate::roster::Roster;
use crate::working::Job;
use bank_hall::{Hall, HallParts, Pass};
use dn_base::{Memory, Shape};
use message_net::Pool;
use phase_barrier::Keeper;
use rand_core::SeedableRng;
use rand_pcg::Pcg32;
use registration_protocol::Node;
use registry_bank::Bank;
use std::alloc::Global;

/// What events change in a machine, as it is dealt to the workers of a round; `next` has the numbers of all actors' next
/// messages.
#[derive(Drop)]
pub(crate) struct Moving {
    pub(crate) nodes: Vec<Node>,
    pub(crate) banks: Vec<Bank>,
    pub(crate) keeper: Keeper,
    pub(crate) pool: Pool,
    pub(crate) next: Vec<u32>,
}

/// A hall with the workers' jobs.
#[derive(Drop)]
pub(crate) struct Opened {
    pub(crate) hall: Hall,
    pub(crate) jobs: Vec<Job>,
}

/// The draws of a worker: the generator of its number times 2^32 plus the round's seed.
#[tactic(auto, unfolding(dn_machine::specs::Schedule::generator_of))]
fn draws_of(worker: u32, seed: u32) -> Pcg32
    ensures { result ≡ generator_of (worker * 2 ^ 32 + seed) }
{
    Pcg32::seed_from_u64(((worker as u64) << 32) + seed as u64)
}

/// The jobs of all workers: each has the pass and the crew with its number.
///
/// # Errors
/// `Memory` where there is no room.
fn jobs_of(
    alloc: Global,
    mut passes: Vec<Pass>,
    mut crews: Vec<Crew>,
    seed: u32,
) -> Result<Vec<Job>, Memory>
    requires { length passes.items ≡ length crews.items }
    ensures passes { IfOk result (λ jobs. map pass_of jobs.items ≡ passes.items) }
    ensures crews { IfOk result (λ jobs. map crew_of jobs.items ≡ crews.items) }
{
    let mut jobs = Vec::new(alloc);
    while let Some(pass) = passes.pop() {
        let Some(crew) = crews.pop() else {
            unreachable!()
        };
        let draws = draws_of(crew.worker, seed);
        jobs.insert(0, Job { pass, crew, draws })?;
    }
    Ok(jobs)
}

/// The objects of a hall: the banks and the barrier controller, with the messages in flight in their inboxes, and the cores'
/// ports. `next` has the numbers of the banks' next messages, and then the barrier controller's.
///
/// # Errors
/// `Memory` where there is no room.
fn objects_of(
    alloc: Global,
    pool: &Pool,
    banks: Vec<Bank>,
    keeper: Keeper,
    next: &[u32],
    shape: Shape,
) -> Result<HallParts, Memory>
    requires banks { length banks.items ≡ shape.banks }
    requires numbers { length next.now ≡ length banks.items + 1 }
    ensures { IfOk result (AreFirstObjects shape pool.now.mails banks.items keeper next.now) }
{
    let inboxes = Inboxes::new(alloc, pool, shape)?;
    inboxes.objects(alloc, banks, keeper, next)
}

/// The crews of the workers, which own these nodes and the banks; `next` has the numbers of all actors' next messages.
///
/// # Errors
/// `Memory` where there is no room.
fn crews_of_round(
    alloc: Global,
    nodes: Vec<Node>,
    next: &[u32],
    banks: u32,
    workers: u32,
) -> Result<Vec<Crew>, Memory>
    requires some { 1 ≤ workers }
    requires few { workers ≤ 16 }
    requires cores { length nodes.items ≤ 16 }
    requires banks { banks ≤ 16 }
    requires numbers { length nodes.items ≤ length next.now }
    ensures { IfOk result (λ crews. (roster : RosterParts) × IsFreshRoster nodes.items banks next.now roster × AreCrewsOf workers roster crews.items) }
{
    let roster = Roster::new(alloc, nodes, banks, next)?;
    roster.deal(alloc, workers)
}

/// Shares the objects in a hall, and gives each worker a pass of it with its crew.
///
/// # Errors
/// `Memory` where there is no room.
fn opened_of(
    alloc: Global,
    objects: HallParts,
    crews: Vec<Crew>,
    workers: u32,
    seed: u32,
) -> Result<Opened, Memory>
    requires some { 1 ≤ workers }
    requires few { workers ≤ 16 }
    requires count { length crews.items ≡ workers }
    requires parts { AreHallParts objects.banks.items objects.ports.items objects.keeper }
    ensures { IfOk result (IsOpenedOf objects workers crews.items) }
{
    let (hall, passes) = Hall::start(alloc, objects, workers)?;
    let jobs = jobs_of(alloc, passes, crews, seed)?;
    Ok(Opened { hall, jobs })
}

/// Opens a round: shares the banks, the barrier controller and the inboxes in a hall, and deals the cores and banks out to the
/// workers.
///
/// # Errors
/// `Memory` if there is no room; what was handed in is dropped.
pub(crate) fn open(
    alloc: Global,
    moving: Moving,
    shape: Shape,
    workers: u32,
    seed: u32,
) -> Result<Opened, Memory>
    requires some { 1 ≤ workers }
    requires few { workers ≤ 16 }
    requires machine { (S : State) × IsMovingOf shape S moving }
    ensures { IfOk result (λ o. (S : State) → IsMovingOf shape S moving → IsInitialRound S.setting S workers o.hall o.jobs.items) }
{
    let Moving {
        nodes,
        banks,
        keeper,
        pool,
        next,
    } = moving;
    let cores = shape.cores as usize;
    let objects = objects_of(alloc, &pool, banks, keeper, &next[cores..], shape)?;
    let crews = crews_of_round(alloc, nodes, next.as_slice(), shape.banks, workers)?;
    opened_of(alloc, objects, crews, workers, seed)
}
