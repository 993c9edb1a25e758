//! Two workers stand in the turns of two banks at the same time.
ghost use Rattle.std.specs.Prelude.{◌≡◌, IfOk};

use crate::calls::{Came, asked, seen_of};
use crate::meeting::Meeting;
use dn_base::{CoreId, Memory, PhaseId, Shape};
use dn_machine::Machine;
use dn_top::RunRecord;
use effect_checker::Checked;
use host_workers::run_workers;
use run_report::checked_of;
use rv_core::{EndShown, TaskEnd};
use std::alloc::Global;
use std::sync::Wait;
use std::test::Fail;
use std::thread::Threads;

/// Two tasks read the same word and store its value, each into a word of its own. Of two banks the first is the home of what both
/// read and of what the second stores, and the second of what the first stores.
const SHARED_READS: &[u8] = b"\
.region s, 1
.region o, 2
.word s, 0, 7
.phase
.task 0, go, 0
.reads s
.writes o, 0, 1
.task 1, go, 4
.reads s
.writes o, 1, 2
go: la t0, s
 lw t1, 0(t0)
 la t2, o
 add t2, t2, a0
 sw t1, 0(t2)
 li a7, 0
 ecall
";

fn checked(alloc: Global) -> Result<Checked, Memory> {
    checked_of(alloc, SHARED_READS).map_err(|_stop| Memory)
}

fn machine(alloc: Global) -> Result<Machine, Memory>
    ensures { IfOk result (λ m. m.made ≡ 0) }
{
    let checked = checked(alloc)?;
    let shape = Shape {
        cores: checked.program().cores(),
        banks: 2,
        sets: 64,
        ways: 4,
    };
    Machine::start(alloc, checked, shape, 32_768)
}

fn run<R: Threads + Wait + Sync>(
    rt: &R,
    alloc: Global,
    gate: &Meeting,
) -> Result<RunRecord, Memory> {
    let machine = machine(alloc)?;
    run_workers(rt, alloc, machine, 2, 1, gate)
}

/// What comes of the run by `run_workers`.
fn by_workers<R: Threads + Wait + Sync>(
    rt: &R,
    alloc: Global,
    gate: &Meeting,
) -> Result<Came, Memory> {
    seen_of(alloc, &run(rt, alloc, gate)?)
}

/// What comes of the run by the whole program, where it ends with the exit code 0.
fn by_program<R: Threads + Wait + Sync>(
    rt: &R,
    alloc: Global,
    gate: &Meeting,
) -> Result<Came, Memory> {
    let words = ["--workers", "2", "--banks", "2"];
    let written = asked(rt, alloc, &words, SHARED_READS, gate)?;
    if written.code != 0 {
        return Err(Memory);
    }
    written.run.ok_or(Memory)
}

/// How the task of a core ends.
fn end(core: u32) -> TaskEnd {
    TaskEnd {
        phase: PhaseId(0),
        core: CoreId(core),
        end: EndShown::Finished,
        retired: 10,
    }
}

#[test]
fn two_workers_stand_in_turns_at_the_same_time(rt: HostRuntime) -> Result<(), Fail> {
    let alloc = rt.alloc();
    for is_program in [false, true] {
        let gate = Meeting::new();
        let run = if is_program {
            by_program(&rt, alloc, &gate)?
        } else {
            by_workers(&rt, alloc, &gate)?
        };
        assert!(rt; gate.have_met());
        assert_eq!(rt; run.events, 36);
        assert_eq!(rt; run.tasks.as_slice(), [end(0), end(1)].as_slice());
        assert_eq!(rt; run.memory.as_slice(), [7, 7, 7].as_slice());
    }
    Ok(())
}
