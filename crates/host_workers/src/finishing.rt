//! How a round of workers ends.
ghost use Rattle.std.specs.Prelude.{◌≡◌, ◌≤◌, map, length, IfOk};
ghost use Rattle.bank_hall.specs.Closing.{AreAllHallPasses};
ghost use Rattle.host_workers.specs.Rosters.{RosterParts, IsRoster, AreCrewsOf, AreDealt, IsTakenApart};
ghost use Rattle.host_workers.specs.Opening.{crew_of, pass_of};
ghost use Rattle.host_workers.specs.Finishing.{IsLeftBy, IsFinished};

use crate::crew::Crew;
use crate::inboxes::{Objects, take_apart};
use crate::roster::{Parted, Roster};
use crate::working::Job;
use bank_hall::{BankActor, Hall, HallEnd, KeeperActor, Pass, Port};
use dn_base::{Memory, Shape};
use std::alloc::Global;
use turn_lock::Entry;

/// What a round leaves: the cores, all logs, the objects of the hall, and all calls of each object.
#[derive(Drop)]
pub(crate) struct Finished {
    pub(crate) parted: Parted,
    pub(crate) objects: Objects,
    pub(crate) banks: Vec<Vec<Entry<BankActor>>>,
    pub(crate) ports: Vec<Vec<Entry<Port>>>,
    pub(crate) keeper: Vec<Entry<KeeperActor>>,
}

/// The passes and the crews of all workers.
///
/// # Errors
/// `Memory` where there is no room.
fn passes_and_crews(alloc: Global, mut jobs: Vec<Job>) -> Result<(Vec<Pass>, Vec<Crew>), Memory>
    ensures passes { IfOk result (λ r. r.0.items ≡ map pass_of jobs.items) }
    ensures crews { IfOk result (λ r. r.1.items ≡ map crew_of jobs.items) }
{
    let mut passes = Vec::new(alloc);
    let mut crews = Vec::new(alloc);
    while let Some(job) = jobs.pop() {
        passes.insert(0, job.pass)?;
        crews.insert(0, job.crew)?;
    }
    Ok((passes, crews))
}

/// The roster of the crews of all workers, taken apart.
///
/// # Errors
/// `Memory` where there is no room.
fn gather(alloc: Global, crews: Vec<Crew>, shape: Shape) -> Result<Parted, Memory>
    requires some { 1 ≤ length crews.items }
    requires dealt { AreDealt shape.cores shape.banks crews.items }
    ensures { IfOk result (λ p. (roster : RosterParts) → IsRoster shape.cores shape.banks roster → AreCrewsOf (length crews.items) roster crews.items → IsTakenApart roster p) }
{
    let roster = Roster::gather(alloc, crews, shape.cores, shape.banks)?;
    roster.part(alloc)
}

/// What a round leaves, of a closed hall and of a roster taken apart.
///
/// # Errors
/// `Memory` where there is no room.
fn finished_of(alloc: Global, end: HallEnd, roster: Parted) -> Result<Finished, Memory>
    ensures { IfOk result (IsLeftBy end roster) }
{
    let objects = take_apart(alloc, end.parts)?;
    Ok(Finished {
        parted: roster,
        objects,
        banks: end.banks,
        ports: end.ports,
        keeper: end.keeper,
    })
}

/// Finishes a round: closes the hall with all its passes, and gathers what the workers own.
///
/// # Errors
/// `Memory` if there is no room; what was handed in is dropped.
pub(crate) fn finish(
    alloc: Global,
    hall: Hall,
    jobs: Vec<Job>,
    shape: Shape,
) -> Result<Finished, Memory>
    requires some { 1 ≤ length jobs.items }
    requires passes { AreAllHallPasses hall (map pass_of jobs.items) }
    requires crews { (roster : RosterParts) × IsRoster shape.cores shape.banks roster × AreCrewsOf (length jobs.items) roster (map crew_of jobs.items) }
    ensures { IfOk result (IsFinished shape.cores shape.banks hall jobs.items) }
{
    let (passes, crews) = passes_and_crews(alloc, jobs)?;
    let end = hall.close(alloc, passes)?;
    let roster = gather(alloc, crews, shape)?;
    finished_of(alloc, end, roster)
}
