ghost use Rattle.std.specs.Prelude.{◌≡◌};

use dn_base::{BankId, CoreId, Grant, LockId, Memory, PhaseId};
use grant_log::{Counts, Stamped, grants, merge};
use message_net::{Actor, Event, EventKind};
use std::alloc::Global;
use std::test::Fail;

const FIRST: Actor = Actor::Core(CoreId(0));

const SECOND: Actor = Actor::Core(CoreId(1));

const BANK: Actor = Actor::Bank(BankId(0));

const GRANT: Grant = Grant {
    phase: PhaseId(0),
    core: CoreId(1),
    lock: LockId(2),
};

fn entry(stamp: u64, actor: Actor, granted: Option<Grant>) -> Stamped
    ensures stamp { result.stamp ≡ stamp }
    ensures actor { result.actor ≡ actor }
{
    Stamped {
        stamp,
        actor,
        event: Event::Instr(CoreId(0)),
        kind: EventKind::Instr,
        granted,
    }
}

/// The logs of a bank and of two cores, in one list.
fn merged(alloc: Global) -> Result<Vec<Stamped>, Memory> {
    let first = Actor::Core(CoreId(0));
    let second = Actor::Core(CoreId(1));
    let bank = Actor::Bank(BankId(0));
    let logs = vec![in alloc;
        vec![in alloc; entry(2, bank, None)]?,
        vec![in alloc; entry(1, first, None), entry(4, first, None)]?,
        vec![in alloc; entry(2, second, Some(GRANT)), entry(4, second, None)]?,
    ]?;
    merge(alloc, logs)
}

/// Whether the entries are by these actors with these stamps.
fn are_by(entries: &[Stamped], wanted: &[(u64, Actor)]) -> bool {
    let mut pairs = entries.iter().zip(wanted);
    entries.len() == wanted.len()
        && pairs.all(|(entry, (stamp, actor))| entry.stamp == *stamp && entry.actor == *actor)
}

/// The grants of the entries, and how many the first of them has.
fn granted(alloc: Global, entries: &[Stamped]) -> Result<(Vec<Grant>, usize), Memory> {
    let first = entries.get(..1).unwrap_or(entries);
    Ok((grants(alloc, entries)?, grants(alloc, first)?.len()))
}

#[test]
fn entries_stand_by_stamp_and_then_by_actor(rt: HostRuntime) -> Result<(), Fail> {
    let alloc = rt.alloc();
    let merged = merged(alloc)?;
    let order = [(1, FIRST), (2, SECOND), (2, BANK), (4, FIRST), (4, SECOND)];
    assert!(rt; are_by(merged.as_slice(), &order));
    let (all, of_first) = granted(alloc, merged.as_slice())?;
    assert!(rt; all.as_slice() == [GRANT].as_slice() && of_first == 0);
    assert_eq!(rt; Counts::of(merged.as_slice()).kinds[0], 5);
    Ok(())
}
