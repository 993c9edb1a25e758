//! Passes of a worker that owns all of a machine of one core and four banks.
ghost use Rattle.std.specs.Prelude.{◌≡◌, ◌<◌, [], length, IfOk, OnOk};
ghost use Rattle.registration_protocol.specs.Fit.{IsContext};
ghost use Rattle.registration_protocol.specs.Setting.{setting};
ghost use Rattle.bank_hall.specs.Halls.{AreHallParts, IsHallPass};
ghost use Rattle.host_workers.specs.Crews.{IsCrew};
ghost use Rattle.host_workers.specs.Work.{MayAct};

use crate::call_texts::{STORE_FIVE, checked_of, events_of_store_five};
use bank_hall::{BankActor, Hall, HallParts, KeeperActor, Pass, Port};
use dn_base::{BankId, CoreId, Memory, OpenGate, Shape};
use grant_log::Stamped;
use host_workers::{BankLog, Crew, Owned, worker_pass};
use phase_barrier::Keeper;
use rand_core::SeedableRng;
use rand_pcg::Pcg32;
use region_table::plans;
use registration_protocol::{Context, Node};
use registry_bank::Bank;
use rv_core::DecodedProgram;
use std::alloc::Global;
use std::sync::Wait;

/// A bank of four, of a machine with one core, one word that is 0, and no locks.
fn bank(alloc: Global, number: u32) -> Result<BankActor, Memory>
    requires { number < 4 }
    ensures { IfOk result (λ b. (b.state.bank.bank ≡ number) × (b.state.inbox ≡ [])) }
{
    let bank = Bank::new(alloc, BankId(number), 4, 1, &[0], 0)?;
    Ok(BankActor::new(bank, Vec::new(alloc), 0, 0))
}

/// The barrier controller of one core and one phase.
fn keeper(alloc: Global) -> KeeperActor
    ensures { (length result.state.keeper.arrived ≡ 1) × (result.state.inbox ≡ []) }
{
    KeeperActor::new(Keeper::new(1, 1), Vec::new(alloc), 0, 0)
}

/// The parts of the machine's hall when a run begins.
fn parts(alloc: Global) -> Result<HallParts, Memory>
    ensures parts { IfOk result (λ p. AreHallParts p.banks.items p.ports.items p.keeper) }
    ensures places { IfOk result (λ p. (length p.banks.items ≡ 4) × (length p.ports.items ≡ 1)) }
{
    Ok(HallParts {
        banks: vec![in alloc;
            bank(alloc, 0)?,
            bank(alloc, 1)?,
            bank(alloc, 2)?,
            bank(alloc, 3)?,
        ]?,
        ports: vec![in alloc; Port::new(Vec::new(alloc))]?,
        keeper: keeper(alloc),
    })
}

/// The hall of the machine when a run begins, and its only pass.
fn hall(alloc: Global) -> Result<(Hall, Pass), Memory>
    ensures pass { IfOk result (λ r. IsHallPass r.0 r.1) }
    ensures places { IfOk result (λ r. (length r.0.banks ≡ 4) × (length r.0.ports ≡ 1)) }
{
    let (hall, mut passes) = Hall::start(alloc, parts(alloc)?, 1)?;
    match passes.pop() {
        Some(pass) => Ok((hall, pass)),
        None => unreachable!(),
    }
}

/// Nothing is noted of a bank yet.
fn unnoted(alloc: Global, bank: u32) -> BankLog
    ensures { result.bank.0 ≡ bank }
{
    BankLog {
        bank: BankId(bank),
        log: Vec::new(alloc),
    }
}

/// A worker that owns the core, the banks and the barrier controller, when a run begins.
fn crew(alloc: Global, context: &Context<'_>) -> Result<Crew, Memory>
    requires context { IsContext (setting context.now) }
    requires cores { (setting context.now).shape.cores ≡ 1 }
    requires banks { (setting context.now).shape.banks ≡ 4 }
    ensures { IfOk result (IsCrew (setting context.now)) }
{
    let owned = Owned {
        core: CoreId(0),
        node: Node::new(alloc, CoreId(0), context)?,
        clock: 0,
        next: 0,
        log: Vec::new(alloc),
        ends: Vec::new(alloc),
    };
    let banks = [
        unnoted(alloc, 0),
        unnoted(alloc, 1),
        unnoted(alloc, 2),
        unnoted(alloc, 3),
    ];
    Ok(Crew {
        worker: 0,
        cores: vec![in alloc; owned]?,
        banks: Vec::from_array(alloc, banks)?,
        keeper: Some(Vec::new(alloc)),
    })
}

/// How many events each of some passes made, and what the worker noted.
#[derive(Drop)]
struct Passes {
    made: [u32; 8],
    noted: Vec<Stamped>,
}

/// One pass. The tests see what it did by its answer and by what the worker owns then.
fn one_pass<R: Wait>(
    rt: &R,
    hall: &Hall,
    context: &Context<'_>,
    pass: &mut Pass,
    crew: &mut Crew,
    draws: &mut Pcg32,
) -> Result<u32, Memory>
    requires may { MayAct (setting context.now) hall.now pass.old }
    requires crew { IsCrew (setting context.now) crew.old }
    ensures may { MayAct (setting context.now) hall.now pass.new }
    ensures crew { OnOk result (IsCrew (setting context.now) crew.new) }
{
    worker_pass(rt, hall, pass, context, crew, draws, &OpenGate)
}

/// Eight passes of a worker: how many events each made.
fn eight_passes<R: Wait>(
    rt: &R,
    hall: &Hall,
    context: &Context<'_>,
    pass: &mut Pass,
    crew: &mut Crew,
) -> Result<[u32; 8], Memory>
    requires may { MayAct (setting context.now) hall.now pass.old }
    requires crew { IsCrew (setting context.now) crew.old }
{
    let mut draws = Pcg32::seed_from_u64(1);
    let mut made = [0; 8];
    for answer in made.iter_mut() {
        *answer = one_pass(rt, hall, context, pass, crew, &mut draws)?;
    }
    Ok(made)
}

/// What a worker noted: of its cores, of its banks, and of the barrier controller.
fn noted(alloc: Global, crew: &Crew) -> Result<Vec<Stamped>, Memory> {
    let mut all = Vec::new(alloc);
    for owned in crew.cores.iter() {
        all.extend_from_slice(owned.log.as_slice())?;
    }
    for owned in crew.banks.iter() {
        all.extend_from_slice(owned.log.as_slice())?;
    }
    if let Some(log) = &crew.keeper {
        all.extend_from_slice(log.as_slice())?;
    }
    Ok(all)
}

/// Eight passes of a worker, and what it noted.
fn passes_of<R: Wait>(
    rt: &R,
    alloc: Global,
    hall: &Hall,
    context: &Context<'_>,
    pass: &mut Pass,
    crew: &mut Crew,
) -> Result<Passes, Memory>
    requires may { MayAct (setting context.now) hall.now pass.old }
    requires crew { IsCrew (setting context.now) crew.old }
{
    let made = eight_passes(rt, hall, context, pass, crew)?;
    let noted = noted(alloc, crew)?;
    Ok(Passes { made, noted })
}

/// The first eight passes in a new hall.
fn passes_in<R: Wait>(rt: &R, alloc: Global, context: &Context<'_>) -> Result<Passes, Memory>
    requires context { IsContext (setting context.now) }
    requires cores { (setting context.now).shape.cores ≡ 1 }
    requires banks { (setting context.now).shape.banks ≡ 4 }
{
    let (hall, mut pass) = hall(alloc)?;
    let mut crew = crew(alloc, context)?;
    passes_of(rt, alloc, &hall, context, &mut pass, &mut crew)
}

/// The first eight passes over a program of one core, or the error where it has more.
fn first_passes<R: Wait>(
    rt: &R,
    alloc: Global,
    decoded: &DecodedProgram,
) -> Result<Passes, Memory> {
    let program = decoded.program();
    let cores = program.cores();
    if cores != 1 {
        return Err(Memory);
    }
    let plans = plans(alloc, program)?;
    let context = Context {
        decoded,
        plans: plans.as_slice(),
        shape: Shape {
            cores,
            banks: 4,
            sets: 64,
            ways: 4,
        },
        fuel: 32_768,
    };
    passes_in(rt, alloc, &context)
}

/// The events of `STORE_FIVE` as its only worker notes them: those of core 0, then that of bank 0, then that of the barrier
/// controller.
fn wanted() -> [Stamped; 10] {
    let [a, b, c, asked, d, e, f, g, arrived, h] = events_of_store_five();
    [a, b, c, d, e, f, g, h, asked, arrived]
}

/// The first eight passes over `STORE_FIVE`.
fn passes_of_store_five<R: Wait>(rt: &R, alloc: Global) -> Result<Passes, Memory> {
    let checked = checked_of(alloc, STORE_FIVE)?;
    let decoded = DecodedProgram::new(alloc, checked.into_program())?;
    first_passes(rt, alloc, &decoded)
}

#[test]
fn one_worker_makes_the_run_in_seven_passes(rt: HostRuntime) -> Result<(), Memory> {
    let Passes { made, noted } = passes_of_store_five(&rt, rt.alloc())?;
    assert_eq!(rt; made, [1, 1, 2, 2, 1, 2, 1, 0]);
    assert_eq!(rt; noted.as_slice(), wanted().as_slice());
    Ok(())
}
