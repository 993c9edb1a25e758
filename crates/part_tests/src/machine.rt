//! A machine runs a task that stores 5, to its end, and is split and joined on the way. Which events there are follows from the
//! rules by hand: one for each of the five instructions, the request of the registration and its acknowledgement, the arrival, its
//! message, and the halt.
//!
//! The tests use none of the machine's promises, so these functions hand none of them on.
ghost use Rattle.std.specs.Prelude.{◌≡◌, length, IfOk};
ghost use Rattle.region_table.specs.Program.{IsPhase};

use dn_base::{BankId, CoreId, Memory, Name, PhaseId, Sequence, Shape, WordId};
use dn_machine::{Machine, a_machine_is_kept};
use effect_checker::{Checked, check};
use message_net::{Actor, Event, MailId};
use region_table::{Effects, Phase, Program, Region, TaskDecl, WordSet};
use rv_core::{EndShown, TaskEnd};
use std::alloc::Global;
use std::test::Fail;

/// A machine that has made this many events makes no more here: far more than the run has.
const MOST_EVENTS: u64 = 1000;

/// `lui t0, 0x10000`, `addi t1, x0, 5`, `sw t1, 0(t0)`, `addi a7, x0, 0`, `ecall`, by the GNU assembler 2.40 for rv32i.
const STORES: [u32; 5] = [
    0x1000_02b7,
    0x0050_0313,
    0x0062_a023,
    0x0000_0893,
    0x0000_0073,
];

/// A phase of one task, on core 0, that may write word 0.
fn phase(alloc: Global) -> Result<Phase, Memory>
    ensures well { IfOk result (IsPhase 1 0) }
    ensures one { IfOk result (λ p. length p.tasks ≡ 1) }
{
    let effects = Effects {
        reads: WordSet::new(alloc),
        writes: WordSet::range(alloc, 0, 1)?,
        guarded_reads: Sequence::new(alloc),
        guarded_writes: Sequence::new(alloc),
    };
    let mut tasks = Sequence::new(alloc);
    tasks.push(TaskDecl {
        core: CoreId(0),
        entry: 4096,
        arg: 0,
        effects,
    })?;
    Ok(Phase { tasks })
}

/// The program, of one word that is 0, in the region `m`.
fn program(alloc: Global) -> Result<Checked, Memory> {
    let mut regions = Sequence::new(alloc);
    regions.push(Region {
        name: Name::new(alloc, b"m")?,
        start: 0,
        len: 1,
    })?;
    let only = phase(alloc)?;
    let mut phases = Sequence::new(alloc);
    phases.push(only)?;
    let built = Program {
        code: Sequence::from_vec(Vec::from_slice(alloc, &STORES)?),
        memory: Sequence::from_vec(Vec::from_slice(alloc, &[0])?),
        regions,
        locks: Sequence::new(alloc),
        phases,
    };
    match check(built) {
        Ok(checked) => Ok(checked),
        Err(_) => Err(Memory),
    }
}

/// The machine of the program, with one bank, whose caches have one place.
fn machine(alloc: Global) -> Result<Machine, Memory> {
    let checked = program(alloc)?;
    let shape = Shape {
        cores: checked.program().cores(),
        banks: 1,
        sets: 1,
        ways: 1,
    };
    Machine::start(alloc, checked, shape, 100)
}

/// Makes the event that a draw picks, where one is enabled.
fn step(machine: &mut Machine, draw: u32) -> Result<(), Memory> {
    if machine.made() >= MOST_EVENTS {
        return Ok(());
    }
    let Some(event) = machine.pick(draw) else {
        return Ok(());
    };
    machine.step(event).map(|_told| ())
}

/// Makes this many events, or as many as there are.
fn go_on(machine: &mut Machine, events: u32) -> Result<(), Memory> {
    for draw in 0..events {
        step(machine, draw)?;
    }
    Ok(())
}

/// The machine, split and joined again.
fn joined(machine: Machine) -> Machine {
    Machine::join(machine.split())
}

/// What is seen of a machine.
#[derive(Clone, Copy, Debug, PartialEq, Eq)]
struct Seen {
    /// How many events were made.
    made: u64,
    /// An event that is enabled.
    pick: Option<Event>,
    /// The value of the word.
    word: u32,
    /// How core 0's task ended.
    end: Option<TaskEnd>,
    /// The number of core 0's next message.
    next_mail: u32,
    /// The actor that may handle core 0's first message, which asks for the word.
    asked: Option<Actor>,
}

fn next_mail(machine: &Machine) -> u32 {
    // for the proof alone: the machine has at least one core, so core 0 is one of its actors
    a_machine_is_kept(machine);
    machine.next_mail(Actor::Core(CoreId(0)))
}

fn asked(machine: &Machine) -> Option<Actor> {
    let sender = Actor::Core(CoreId(0));
    let request = Event::Handle(MailId { sender, number: 0 });
    if machine.enabled(&request) {
        Some(machine.actor(&request))
    } else {
        None
    }
}

fn looked_at(machine: &Machine) -> Seen {
    Seen {
        made: machine.made(),
        pick: machine.pick(0),
        word: machine.word(WordId(0)),
        end: machine.task_end(CoreId(0)),
        next_mail: next_mail(machine),
        asked: asked(machine),
    }
}

/// What is seen as the run begins, once the machine is joined after three events, and at the end.
fn seen_on_the_way(alloc: Global) -> Result<[Seen; 3], Memory> {
    let mut fresh = machine(alloc)?;
    let first = looked_at(&fresh);
    go_on(&mut fresh, 3)?;
    let mut machine = joined(fresh);
    let middle = looked_at(&machine);
    go_on(&mut machine, 40)?;
    Ok([first, middle, looked_at(&machine)])
}

#[test]
fn a_machine_goes_on_once_it_is_joined(rt: HostRuntime) -> Result<(), Fail> {
    let own = Event::Instr(CoreId(0));
    let first = Seen {
        made: 0,
        pick: Some(own),
        word: 0,
        end: None,
        next_mail: 0,
        asked: None,
    };
    // the store waits for its registration, and the core goes on
    let middle = Seen {
        made: 3,
        pick: Some(own),
        word: 5,
        end: None,
        next_mail: 1,
        asked: Some(Actor::Bank(BankId(0))),
    };
    let last = Seen {
        made: 10,
        pick: None,
        word: 5,
        end: Some(TaskEnd {
            phase: PhaseId(0),
            core: CoreId(0),
            end: EndShown::Finished,
            retired: 5,
        }),
        next_mail: 2,
        asked: None,
    };
    assert_eq!(rt; seen_on_the_way(rt.alloc())?, [first, middle, last]);
    Ok(())
}
