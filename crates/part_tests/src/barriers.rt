use dn_base::{CoreId, PhaseId};
use message_net::Message;
use phase_barrier::{Keeper, Verdict};
use std::test::Fail;

const GO: Verdict = Verdict::Go { phase: PhaseId(1) };

/// An arrival: the core, whether its task was bad, and the barrier controller's verdict.
type Arrival = (u32, bool, Verdict);

/// In the first phase core 0 arrives twice, and core 2 is unknown.
const FIRST_PHASE: [Arrival; 3] = [
    (0, false, Verdict::Wait),
    (0, false, Verdict::Wait),
    (2, true, Verdict::Wait),
];

/// In the last phase core 0 arrives once more after the end.
const LAST_PHASE: [Arrival; 3] = [
    (1, true, Verdict::Wait),
    (0, false, Verdict::Halt),
    (0, false, Verdict::Wait),
];

/// The place of the first arrival to which the barrier controller says something else.
fn first_wrong(keeper: &mut Keeper, arrivals: &[Arrival]) -> Option<usize> {
    for (place, (core, bad, wanted)) in arrivals.iter().enumerate() {
        if keeper.arrived(CoreId(*core), *bad) != *wanted {
            return Some(place);
        }
    }
    None
}

/// What the barrier controller says to a message that isn't for it, and to the arrival of core 1.
fn handled(keeper: &mut Keeper) -> [Verdict; 2] {
    let last = Message::Arrived {
        core: CoreId(1),
        bad: false,
    };
    [keeper.handle(Message::Halt), keeper.handle(last)]
}

#[test]
fn a_keeper_counts_each_core_once(rt: HostRuntime) -> Result<(), Fail> {
    let mut keeper = Keeper::new(2, 2);
    assert_eq!(rt; first_wrong(&mut keeper, &FIRST_PHASE), None);
    assert_eq!(rt; handled(&mut keeper), [Verdict::Wait, GO]);
    assert_eq!(rt; (keeper.phase(), keeper.cores()), (PhaseId(1), 2));
    assert_eq!(rt; GO.letter(), Some(Message::Go { phase: PhaseId(1) }));
    assert_eq!(rt; first_wrong(&mut keeper, &LAST_PHASE), None);
    Ok(())
}
