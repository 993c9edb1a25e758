use case_files::{Case, Got, Written};
use dn_base::{Memory, OpenGate, TextSource, VecSink};
use dn_top::{Answer, denovo_main};
use std::alloc::Global;
use std::sync::Wait;
use std::thread::Threads;

/// What the program answers to these words.
fn answer<R: Threads + Wait + Sync>(
    rt: &R,
    alloc: Global,
    words: &[String],
    source: &mut TextSource,
    sink: &mut VecSink,
) -> Answer {
    denovo_main(rt, alloc, words, source, sink, &OpenGate)
}

/// Runs the program on a case.
pub fn run<R: Threads + Wait + Sync>(rt: &R, alloc: Global, case: &Case) -> Result<Got, Memory> {
    let mut source = case.source(alloc)?;
    let mut sink = case.sink(alloc)?;
    let answer = answer(rt, alloc, case.words.as_slice(), &mut source, &mut sink);
    let written = Written {
        exit: answer.status.code(),
        bytes: Vec::from_slice(alloc, sink.bytes())?,
    };
    Ok(Got {
        written,
        run: answer.run,
    })
}
