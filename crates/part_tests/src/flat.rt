//! Runs on one memory by lists of grants. What a list comes to follows from the instructions by hand.
use crate::texts::checked;
use dn_base::{CoreId, Grant, LockId, Memory, Outcome, PhaseId};
use flat_machine::{flat, least_grants};
use std::alloc::Global;
use std::test::Fail;

/// A task that takes no lock stores 5.
const STORE_FIVE: &[u8] = b".region m, 1
.phase
.task 0, go, 0
.writes m
go: lui t0, 0x10000
 addi t1, x0, 5
 sw t1, 0(t0)
 addi a7, x0, 0
 ecall
";

/// Two tasks take two locks, each in its own order.
const CROSSED_LOCKS: &[u8] = b".lock a
.lock b
.phase
.task 0, go, 0
.task 1, go, 1
go: mv s0, a0
 xori s1, a0, 1
 li a7, 1
 mv a0, s0
 ecall
 mv a0, s1
 ecall
 li a7, 2
 ecall
 mv a0, s0
 ecall
 li a7, 0
 ecall
";

/// Four tasks add 1 to a word under a lock, a hundred times each.
const LOCKED_COUNTER: &[u8] = b".version 2
.region c, 1
.lock k
.phase
.forall 0, 4, go, 100, 0
.gwrites k, c
go: mv s0, a0
 la t0, c
l: li a0, 0
 li a7, 1
 ecall
 lw t1, 0(t0)
 addi t1, t1, 1
 sw t1, 0(t0)
 li a7, 2
 ecall
 addi s0, s0, -1
 bnez s0, l
 li a7, 0
 ecall
";

/// A grant of the first phase, of the lock to the core.
fn grant(core: u32, lock: u32) -> Grant {
    Grant {
        phase: PhaseId(0),
        core: CoreId(core),
        lock: LockId(lock),
    }
}

/// The outcome of a run and its first word then; None where the list has no run.
type End = Option<(Outcome, Option<u32>)>;

/// How the run of a text by these grants ends.
fn end(alloc: Global, text: &[u8], grants: &[Grant]) -> Result<End, Memory> {
    let checked = checked(alloc, text)?;
    match flat(alloc, &checked, 32_768, grants)? {
        Some(end) => {
            let first = end.ending.memory.as_slice().first().copied();
            Ok(Some((end.ending.outcome, first)))
        }
        None => Ok(None),
    }
}

/// The place of the first list that ends in another way.
fn first_wrong(alloc: Global) -> Result<Option<usize>, Memory> {
    let (one, crossed) = ([grant(0, 0)], [grant(0, 0), grant(1, 1)]);
    let rows = [
        (STORE_FIVE, [].as_slice(), Some((Outcome::Done, Some(5)))),
        (STORE_FIVE, one.as_slice(), None),
        (CROSSED_LOCKS, one.as_slice(), None),
        (
            CROSSED_LOCKS,
            crossed.as_slice(),
            Some((Outcome::Stuck, None)),
        ),
    ];
    for (place, (text, grants, wanted)) in rows.iter().enumerate() {
        if end(alloc, text, grants)? != *wanted {
            return Ok(Some(place));
        }
    }
    Ok(None)
}

/// How the counter's run ends by this many grants to the four cores in turn.
fn counted(alloc: Global, count: u32) -> Result<End, Memory> {
    let mut grants = Vec::new(alloc);
    for number in 0..count {
        grants.push(grant(number % 4, 0))?;
    }
    end(alloc, LOCKED_COUNTER, grants.as_slice())
}

/// Whether the canonical list of the crossed locks has both locks go to core 0 and then to core 1.
fn is_least(alloc: Global) -> Result<bool, Memory> {
    let checked = checked(alloc, CROSSED_LOCKS)?;
    let list = [grant(0, 0), grant(0, 1), grant(1, 1), grant(1, 0)];
    Ok(least_grants(alloc, &checked, 32_768)?.as_slice() == list.as_slice())
}

#[test]
fn whole_legal_lists_have_a_run(rt: HostRuntime) -> Result<(), Fail> {
    let alloc = rt.alloc();
    assert_eq!(rt; first_wrong(alloc)?, None);
    assert!(rt; is_least(alloc)?);
    assert_eq!(rt; counted(alloc, 399)?, None);
    assert_eq!(rt; counted(alloc, 400)?, Some((Outcome::Done, Some(400))));
    Ok(())
}
