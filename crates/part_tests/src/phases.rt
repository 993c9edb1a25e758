use crate::texts::program;
use dn_base::{CoreId, LockId, PhaseId, WordId};
use effect_checker::CheckFault;
use region_table::{PhasePlan, plans};
use std::alloc::Global;
use std::test::Fail;

/// The second phase writes what the first and the third read.
const PHASES: &[u8] = b".region m, 4
.region o, 1
.phase
.task 1, go, 0
.reads m
.writes o
.phase
.task 0, go, 9
.writes m
.task 1, go, 0
.phase
.task 1, go, 0
.reads m
.writes o
go: li a7, 0
 ecall
";

/// Whether the phase writes these words alone, and no lock guards any.
fn writes_just(plan: &PhasePlan, lo: u32, hi: u32) -> bool {
    match plan.written.intervals() {
        [only] => only.lo == lo && only.hi == hi && plan.guarded.len() == 0,
        _ => false,
    }
}

#[test]
fn a_plan_has_the_regions_that_its_phase_writes(rt: HostRuntime) -> Result<(), Fail> {
    let program = program(rt.alloc(), PHASES)?;
    let plans = plans(rt.alloc(), &program)?;
    assert_eq!(rt; plans.len(), 3);
    for (plan, (lo, hi)) in plans.iter().zip([(4, 5), (0, 4), (4, 5)]) {
        assert!(rt; writes_just(plan, lo, hi));
    }
    Ok(())
}

/// A conflict of each kind, as it is shown.
fn faults() -> [(CheckFault, &'static str); 3] {
    let phase = PhaseId(12);
    let plain = CheckFault::PlainConflict {
        phase,
        core_a: CoreId(0),
        core_b: CoreId(1),
        word: WordId(7),
    };
    let guarded = CheckFault::GuardedPlain {
        phase,
        lock: LockId(2),
        core: CoreId(1),
        word: WordId(0),
    };
    let locks = CheckFault::TwoLocks {
        phase,
        lock_a: LockId(3),
        lock_b: LockId(31),
        word: WordId(65535),
    };
    [
        (plain, "phase 12 plain-conflict cores 0 1 word 7"),
        (guarded, "phase 12 guarded-plain lock 2 core 1 word 0"),
        (locks, "phase 12 two-locks locks 3 31 word 65535"),
    ]
}

/// Whether the fault is shown by this text.
fn is_shown(alloc: Global, fault: &CheckFault, text: &str) -> Result<bool, Fail> {
    Ok(format!(in alloc; "{fault}")?.as_str() == text)
}

#[test]
fn a_fault_says_where_it_is(rt: HostRuntime) -> Result<(), Fail> {
    for (fault, text) in faults() {
        assert!(rt; is_shown(rt.alloc(), &fault, text)?);
    }
    Ok(())
}
