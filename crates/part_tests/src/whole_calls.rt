//! A text's answers, and replays of traces.
use crate::calls::{Written, asked, asked_alone};
use dn_base::{Memory, OpenGate};
use std::alloc::Global;
use std::sync::Wait;
use std::test::Fail;
use std::thread::Threads;

/// One data word, in which a task stores 5.
const STORE_FIVE: &str =
    ".region m, 1\n.phase\n.task 0, go, 0\n.writes m\ngo: lui t0, 0x10000\n addi t1, x0, 5\n sw t1, 0(t0)\n addi a7, x0, 0\n ecall\n";

/// Its answer and its run: an event each for the five instructions, the request of a registration and its acknowledgement, the
/// arrival, its message, and the halt.
const STORED_FIVE: &str =
    "outcome done\ntask 0 0 finished retired 5\nwords 1\nword 0x10000000 0x00000005\ncount events 10\ncount instr 5\ncount evict 0\ncount arrive 1\ncount read-req 0\ncount read-fwd 0\ncount data-reply 0\ncount reg-req 1\ncount reg-fwd 0\ncount reg-ack 1\ncount write-back 0\ncount wb-ack 0\ncount acquire 0\ncount release 0\ncount grant 0\ncount arrived 1\ncount go 0\ncount halt 1\n";

/// Four tasks each add 1 to a word under a lock, a hundred times.
const COUNTER: &str =
    ".region c, 1\n.lock k\n.phase\n.task 0, go, 100\n.gwrites k, c\n.task 1, go, 100\n.gwrites k, c\n.task 2, go, 100\n.gwrites k, c\n.task 3, go, 100\n.gwrites k, c\ngo: mv s0, a0\n la t0, c\nl: li a0, 0\n li a7, 1\n ecall\n lw t1, 0(t0)\n addi t1, t1, 1\n sw t1, 0(t0)\n li a7, 2\n ecall\n addi s0, s0, -1\n bnez s0, l\n li a7, 0\n ecall\n";

/// What the program does with a text where no gate holds anybody.
fn open<R: Threads + Wait + Sync>(
    rt: &R,
    alloc: Global,
    words: &[&str],
    text: &[u8],
) -> Result<Written, Memory> {
    asked(rt, alloc, words, text, &OpenGate)
}

/// Traces the run of `COUNTER` that these words ask for, and replays the trace.
fn replayed<R: Threads + Wait + Sync>(
    rt: &R,
    alloc: Global,
    words: &[&str],
) -> Result<Written, Memory> {
    let trace = open(rt, alloc, words, COUNTER.as_bytes())?;
    open(rt, alloc, &["--mode", "replay"], trace.bytes.as_slice())
}

/// Whether the program ended with the exit code 0 and with a run of 400 grants that leaves 400 in the only word.
fn has_counted(written: &Written) -> bool {
    match &written.run {
        Some(run) => {
            let memory = run.memory.as_slice();
            written.code == 0 && run.grants == 400 && memory.len() == 1 && memory[0] == 400
        }
        None => false,
    }
}

/// Whether the trace of the run of `COUNTER` by this seed replays as that run.
fn replays<R: Threads + Wait + Sync>(rt: &R, alloc: Global, seed: u32) -> Result<bool, Memory> {
    let seed = seed.to_string(alloc)?;
    let run = open(rt, alloc, &["--seed", seed.as_str()], COUNTER.as_bytes())?;
    let replay = replayed(rt, alloc, &["--mode", "trace", "--seed", seed.as_str()])?;
    Ok(has_counted(&run) && has_counted(&replay) && replay.bytes == run.bytes)
}

#[test]
fn texts_are_answered_and_traces_replay_as_their_runs(rt: HostRuntime) -> Result<(), Fail> {
    let alloc = rt.alloc();
    let ran = open(&rt, alloc, &[], STORE_FIVE.as_bytes())?;
    assert_eq!(rt;
        (ran.code, ran.bytes.as_slice()),
        (0, STORED_FIVE.as_bytes())
    );
    assert!(rt; matches!(&ran.run, Some(run) if run.events == 10));
    let checked = asked_alone(alloc, &["--mode", "check"], STORE_FIVE.as_bytes())?;
    assert_eq!(rt;
        (checked.code, checked.bytes.as_slice()),
        (0, b"checked 1 1 1\n".as_slice())
    );
    for seed in 1..21 {
        assert!(rt; replays(&rt, alloc, seed)?, "at seed {seed}");
    }
    let replay = replayed(&rt, alloc, &["--mode", "trace", "--workers", "4"])?;
    assert!(rt; has_counted(&replay));
    Ok(())
}
