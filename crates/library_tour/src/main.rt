//! The crates used from another crate: a text is assembled and checked, its program runs on one memory and on the multicore machine,
//! and a machine is stepped event by event while its state is read. docs/LIBRARY.md goes through this file.
#![tactic(auto)]

ghost use Rattle.std.specs.Prelude.{◌≡◌, IfOk};

use dn_base::{CoreId, Memory, Shape, WordId};
use dn_machine::{Machine, RunRecord};
use effect_checker::{CheckFault, Checked, check};
use flat_machine::least_run;
use message_net::EventKind;
use run_report::{answer_text, event_name};
use rv_assembler::{SourceFault, assemble};
use std::alloc::Global;
use std::io;

/// Core 0 stores its argument, 7, in the one data word.
const TEXT: &[u8] = b"
.region m, 1
.phase
.task 0, go, 7
.writes m
go: la t0, m
 sw a0, 0(t0)
 li a7, 0
 ecall
";

/// How many instructions a task may retire.
const FUEL: u32 = 100;

/// The most events that are stepped here: the program has far fewer.
const MOST_STEPS: u32 = 1000;

/// Why there is no machine.
#[derive(Clone, Copy)]
enum Stop {
    /// The text isn't of the language: the fault names its line.
    Source(SourceFault),
    /// Two tasks of a phase may use a word at once.
    Conflict(CheckFault),
    /// There was no memory.
    Memory,
}

impl From<Memory> for Stop {
    fn from(_memory: Memory) -> Stop {
        Stop::Memory
    }
}

/// The checked program of the text.
fn program(alloc: Global) -> Result<Checked, Stop> {
    let program = match assemble(alloc, TEXT) {
        Ok(program) => program,
        Err(fault) => return Err(Stop::Source(fault)),
    };
    match check(program) {
        Ok(checked) => Ok(checked),
        Err(fault) => Err(Stop::Conflict(fault)),
    }
}

/// The machine of a program before its first event, with as many cores as the program names, one bank, and caches of one word.
fn machine_of(alloc: Global, checked: Checked) -> Result<Machine, Memory>
    ensures { IfOk result (λ machine. machine.made ≡ 0) }
{
    let shape = Shape {
        cores: checked.program().cores(),
        banks: 1,
        sets: 1,
        ways: 1,
    };
    Machine::start(alloc, checked, shape, FUEL)
}

/// The answer of one thread on one memory, as the mode flat prints it.
fn flat_answer(alloc: Global) -> Result<Vec<u8>, Stop> {
    let checked = program(alloc)?;
    let run = least_run(alloc, &checked, FUEL)?;
    Ok(answer_text(alloc, &run.end.ending)?)
}

/// The multicore machine's whole run by a seed.
fn whole_run(alloc: Global, seed: u32) -> Result<RunRecord, Stop> {
    let machine = machine_of(alloc, program(alloc)?)?;
    Ok(machine.run(alloc, seed)?)
}

/// Makes the first event that is enabled, and tells its kind; None where none is enabled.
fn step(machine: &mut Machine) -> Result<Option<EventKind>, Memory> {
    if u64::from(MOST_STEPS) < machine.made() {
        return Ok(None);
    }
    let Some(event) = machine.pick(0) else {
        return Ok(None);
    };
    Ok(Some(machine.step(event)?.kind))
}

/// Says that there is no machine, and why. No text of this program comes to it, and a caller of one's own should say more.
fn refuse<R: Print>(rt: &R, stop: Stop) -> io::Result<()> {
    match stop {
        Stop::Source(_) => println!(rt; "the text is refused"),
        Stop::Conflict(_) => println!(rt; "two tasks of a phase conflict"),
        Stop::Memory => println!(rt; "there was no memory"),
    }
}

/// Prints the answer of one thread on one memory.
fn show_flat<R: Print>(rt: &R, alloc: Global) -> io::Result<()> {
    match flat_answer(alloc) {
        Ok(answer) => print!(rt; "{}", String::from_utf8_lossy(alloc, answer.as_slice())?),
        Err(stop) => refuse(rt, stop),
    }
}

/// Prints how many events the run by a seed has.
fn show_run<R: Print>(rt: &R, alloc: Global, seed: u32) -> io::Result<()> {
    match whole_run(alloc, seed) {
        Ok(run) => {
            let events = run.events.len();
            let grants = run.grants.len();
            println!(rt; "seed {seed}: {events} events, {grants} grants")
        }
        Err(stop) => refuse(rt, stop),
    }
}

/// Steps a machine until no event is enabled, and prints each event with the value of the data word after it.
fn show_steps<R: Print>(rt: &R, alloc: Global, machine: &mut Machine) -> io::Result<()> {
    for number in 0..MOST_STEPS {
        let Ok(came) = step(machine) else {
            return refuse(rt, Stop::Memory);
        };
        let Some(kind) = came else {
            break;
        };
        let name = String::from_utf8_lossy(alloc, event_name(kind))?;
        let value = machine.word(WordId(0));
        println!(rt; "event {number}: {name}, word 0 is {value}")?;
    }
    show_end(rt, machine)
}

/// Prints how many instructions the task of core 0 retired.
fn show_end<R: Print>(rt: &R, machine: &Machine) -> io::Result<()> {
    match machine.task_end(CoreId(0)) {
        Some(end) => {
            let retired = end.retired;
            println!(rt; "core 0 retired {retired} instructions")
        }
        None => println!(rt; "core 0 goes on"),
    }
}

/// Opens a machine, and steps it.
fn show_machine<R: Print>(rt: &R, alloc: Global) -> io::Result<()> {
    let checked = match program(alloc) {
        Ok(checked) => checked,
        Err(stop) => return refuse(rt, stop),
    };
    match machine_of(alloc, checked) {
        Ok(mut machine) => show_steps(rt, alloc, &mut machine),
        Err(memory) => refuse(rt, memory.into()),
    }
}

fn main(rt: HostRuntime) -> io::Result<()> {
    let alloc = rt.alloc();
    show_flat(&rt, alloc)?;
    show_run(&rt, alloc, 1)?;
    show_machine(&rt, alloc)
}
