use dn_base::{CoreId, Outcome, PhaseId, Sequence};
use run_report::{answer_text, summary};
use rv_core::{EndShown, Ending, TaskEnd};
use std::alloc::{AllocError, Global};
use std::test::Fail;

/// Two tasks that finish after as many instructions as a count may have, and two words.
fn ending(alloc: Global) -> Result<Ending, AllocError> {
    let task = TaskEnd {
        phase: PhaseId(0),
        core: CoreId(0),
        end: EndShown::Finished,
        retired: 0xffff_ffff,
    };
    Ok(Ending {
        outcome: Outcome::Done,
        tasks: Sequence::from_vec(vec![in alloc; task, task]?),
        memory: Sequence::from_vec(vec![in alloc; 0xffff_ffff, 0x11]?),
    })
}

#[test]
fn sums_go_past_32_bits_or_wrap(rt: HostRuntime) -> Result<(), Fail> {
    let ending = ending(rt.alloc())?;
    assert!(rt; ending.memory.len() <= 65536 && ending.tasks.len() <= 64);
    assert_eq!(rt;
        summary(rt.alloc(), &ending)?.as_slice(),
        b"outcome done\ntasks 2\nretired 8589934590\nwords 2\nsum 0x00000010\n".as_slice()
    );
    assert!(rt; answer_text(rt.alloc(), &ending)?.starts_with(b"outcome done\n"));
    Ok(())
}
