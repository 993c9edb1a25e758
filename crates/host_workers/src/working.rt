ghost use Rattle.std.specs.Prelude.{◌≡◌, ◌∷◌, ◌++◌, map, All, IfOk, OnOk, Ok};
ghost use Rattle.registration_protocol.specs.Setting.{setting};
ghost use Rattle.host_workers.specs.Crews.{IsCrew};
ghost use Rattle.host_workers.specs.Pass.{HasWorkedOn};
ghost use Rattle.host_workers.specs.Work.{MayAct, KeepsNumber};
ghost use Rattle.host_workers.specs.Finishing.{IsReadyJob, HasDoneJob, HaveDoneJobs};

use crate::crew::Crew;
use crate::pass::worker_pass;
use bank_hall::{Hall, Pass};
use dn_base::{Gate, Memory};
use rand_pcg::Pcg32;
use registration_protocol::Context;
use std::alloc::Global;
use std::sync::Wait;
use std::thread::{self, Threads};

/// The greatest number of passes of a worker in a round.
const MOST_PASSES: u32 = 4_096;

/// After this many passes in a row without an event a worker ends its round.
const IDLE_PASSES: u32 = 64;

/// A worker's job: its pass of the hall, its crew and its generator.
#[derive(Drop)]
pub(crate) struct Job {
    pub(crate) pass: Pass,
    pub(crate) crew: Crew,
    pub(crate) draws: Pcg32,
}

/// The passes of a worker in a round: 4,096, or fewer if 64 in a row had no event. After a pass without an event the processor
/// is given to another thread.
///
/// # Errors
/// `Memory` if there is no room; the worker ends its round.
fn make_passes<R: Wait, G: Gate>(
    rt: &R,
    hall: &Hall,
    context: &Context<'_>,
    job: &mut Job,
    gate: &G,
) -> Result<(), Memory>
    requires may { MayAct (setting context.now) hall.now job.old.pass }
    requires crew { IsCrew (setting context.now) job.old.crew }
    ensures pass { OnOk result (KeepsNumber hall.now job.old.pass job.new.pass) }
    ensures crew { OnOk result (IsCrew (setting context.now) job.new.crew) }
    ensures worked { OnOk result (HasWorkedOn (setting context.now) job.old.pass job.new.pass job.old.crew job.new.crew) }
{
    let mut idle = 0;
    for passes in 0..MOST_PASSES {
        let made = worker_pass(
            rt,
            hall,
            &mut job.pass,
            context,
            &mut job.crew,
            &mut job.draws,
            gate,
        )?;
        idle = if made > 0 { 0 } else { idle + 1 };
        if idle >= IDLE_PASSES {
            return Ok(());
        }
        if idle > 0 {
            thread::yield_now();
        }
    }
    Ok(())
}

/// The passes of a worker in a round, on a thread of its own.
///
/// # Errors
/// `Memory` if there is no room; the worker ends its round, and what it holds is dropped.
pub(crate) fn work<R: Wait, G: Gate>(
    rt: &R,
    hall: &Hall,
    context: &Context<'_>,
    mut job: Job,
    gate: &G,
) -> Result<Job, Memory>
    requires may { MayAct (setting context.now) hall.now job.pass }
    requires crew { IsCrew (setting context.now) job.crew }
    ensures pass { IfOk result (λ done. KeepsNumber hall.now job.pass done.pass) }
    ensures crew { IfOk result (λ done. IsCrew (setting context.now) done.crew) }
    ensures worked { IfOk result (λ done. HasWorkedOn (setting context.now) job.pass done.pass job.crew done.crew) }
{
    make_passes(rt, hall, context, &mut job, gate)?;
    Ok(job)
}

/// Puts the job of a worker before the others.
///
/// # Errors
/// `Memory` if the worker ran out of memory, or there is no room.
fn put_first(jobs: &mut Vec<Job>, done: Result<Job, Memory>) -> Result<(), Memory>
    ensures { OnOk result (map Ok jobs.new.items ≡ done ∷ map Ok jobs.old.items) }
{
    jobs.insert(0, done?)?;
    Ok(())
}

/// Moves the jobs of all workers, in their order.
///
/// # Errors
/// `Memory` if a worker ran out of memory, or there is no room.
fn move_jobs(dones: &mut Vec<Result<Job, Memory>>, jobs: &mut Vec<Job>) -> Result<(), Memory>
    ensures { OnOk result (map Ok jobs.new.items ≡ dones.old.items ++ map Ok jobs.old.items) }
{
    while let Some(done) = dones.pop() {
        put_first(jobs, done)?;
    }
    Ok(())
}

/// The jobs of all workers after their work, if none ran out of memory.
///
/// # Errors
/// `Memory` if a worker ran out of memory, or there is no room for the list.
fn all_done(alloc: Global, mut dones: Vec<Result<Job, Memory>>) -> Result<Vec<Job>, Memory>
    ensures { IfOk result (λ jobs. dones.items ≡ map Ok jobs.items) }
{
    let mut jobs = Vec::new(alloc);
    move_jobs(&mut dones, &mut jobs)?;
    Ok(jobs)
}

/// The passes of all workers in a round, each on a thread of its own if one can be made.
///
/// # Errors
/// `Memory` if there is no room for what a worker notes or sends; all workers have ended their round by then.
pub(crate) fn work_all<R: Threads + Wait + Sync, G: Gate + Sync>(
    rt: &R,
    alloc: Global,
    hall: &Hall,
    context: &Context<'_>,
    jobs: Vec<Job>,
    gate: &G,
) -> Result<Vec<Job>, Memory>
    requires { All (IsReadyJob (setting context.now) hall.now) jobs.items }
    ensures { IfOk result (λ dones. HaveDoneJobs (setting context.now) hall.now jobs.items dones.items) }
{
    let dones = thread::map_vec(
        rt,
        jobs,
        &|job: Job| -> Result<Job, Memory>
            requires { IsReadyJob (setting context.now) hall.now job }
            ensures { IfOk result (HasDoneJob (setting context.entry.now) hall.entry.now job) }
        { work(rt, hall, context, job, gate) },
    )?;
    all_done(alloc, dones)
}
