use dn_base::{CoreId, Memory, PhaseId, WordId};
use queue_lock::LockHome;
use std::alloc::Global;
use std::test::Fail;
use write_signature::Signature;

const FIRST: CoreId = CoreId(0);

const SECOND: CoreId = CoreId(1);

/// What cores are answered: three that acquire, three that release, and one that acquires then.
type Answers = (
    [Option<Signature>; 3],
    [Option<(CoreId, Signature)>; 3],
    Option<Signature>,
);

/// The second core acquires a new lock. The first one acquires it twice, and releases it before the second one does and after.
/// Each release has this signature.
fn asked(alloc: Global, written: Signature) -> Result<Answers, Memory> {
    let mut home = LockHome::new(alloc, 2)?;
    let acquired = [
        home.acquire(SECOND),
        home.acquire(FIRST),
        home.acquire(FIRST),
    ];
    let released = [
        home.release(FIRST, written),
        home.release(SECOND, written),
        home.release(FIRST, written),
    ];
    Ok((acquired, released, home.acquire(SECOND)))
}

#[test]
fn a_lock_goes_from_core_to_core_in_the_order_of_asking(rt: HostRuntime) -> Result<(), Fail> {
    let empty = Signature::empty(PhaseId(0));
    let mut written = empty;
    written.insert(WordId(3), PhaseId(0));
    let acquired = [Some(empty), None, None];
    let released = [None, Some((FIRST, written)), None];
    let wanted = (acquired, released, Some(written));
    assert!(rt; asked(rt.alloc(), written)? == wanted);
    Ok(())
}
