//! Calls of the program. The tests use none of its promises, so these functions hand none of them on; nor do the tests keep a
//! run's record or a sink.
use dn_base::{Gate, Memory, TextSource, VecSink};
use dn_top::{Answer, RunRecord, answer_words, denovo_main};
use rv_core::TaskEnd;
use std::alloc::Global;
use std::sync::Wait;
use std::thread::Threads;

/// What the tests see of a run: how many events and grants it has, how its tasks ended, and the words at its end.
#[derive(Drop)]
pub(crate) struct Came {
    pub(crate) events: usize,
    pub(crate) grants: usize,
    pub(crate) tasks: Vec<TaskEnd>,
    pub(crate) memory: Vec<u32>,
}

/// What the program answered and wrote.
#[derive(Drop)]
pub(crate) struct Written {
    pub(crate) code: u8,
    pub(crate) bytes: Vec<u8>,
    pub(crate) run: Option<Came>,
}

/// What is seen of a run.
pub(crate) fn seen_of(alloc: Global, run: &RunRecord) -> Result<Came, Memory> {
    Ok(Came {
        events: run.events.len(),
        grants: run.grants.len(),
        tasks: Vec::from_slice(alloc, run.ending.tasks.as_slice())?,
        memory: Vec::from_slice(alloc, run.ending.memory.as_slice())?,
    })
}

/// What is seen of an answer and its sink.
fn seen(alloc: Global, answer: &Answer, sink: &VecSink) -> Result<Written, Memory> {
    let run = match &answer.run {
        Some(run) => Some(seen_of(alloc, run)?),
        None => None,
    };
    Ok(Written {
        code: answer.status.code(),
        bytes: Vec::from_slice(alloc, sink.bytes())?,
        run,
    })
}

fn words_of(alloc: Global, words: &[&str]) -> Result<Vec<String>, Memory> {
    let mut owned = Vec::new(alloc);
    for word in words {
        owned.push(word.to_string(alloc)?)?;
    }
    Ok(owned)
}

fn source_of(alloc: Global, text: &[u8]) -> Result<TextSource, Memory> {
    TextSource::new(alloc, text, 4096, &[])
}

fn large_sink(alloc: Global) -> Result<VecSink, Memory> {
    VecSink::new(alloc, 1_048_576, 4096, &[])
}

fn call<R: Threads + Wait + Sync, G: Gate + Sync>(
    rt: &R,
    alloc: Global,
    words: &[String],
    source: &mut TextSource,
    sink: &mut VecSink,
    gate: &G,
) -> Answer {
    denovo_main(rt, alloc, words, source, sink, gate)
}

fn call_alone(
    alloc: Global,
    words: &[String],
    source: &mut TextSource,
    sink: &mut VecSink,
) -> Answer {
    answer_words(alloc, words, source, sink)
}

/// What `denovo_main` does with these words and this text.
pub(crate) fn asked<R: Threads + Wait + Sync, G: Gate + Sync>(
    rt: &R,
    alloc: Global,
    words: &[&str],
    text: &[u8],
    gate: &G,
) -> Result<Written, Memory> {
    let words = words_of(alloc, words)?;
    let mut source = source_of(alloc, text)?;
    let mut sink = large_sink(alloc)?;
    let answer = call(rt, alloc, words.as_slice(), &mut source, &mut sink, gate);
    seen(alloc, &answer, &sink)
}

/// What `answer_words` does with these words and this text.
pub(crate) fn asked_alone(alloc: Global, words: &[&str], text: &[u8]) -> Result<Written, Memory> {
    let words = words_of(alloc, words)?;
    let mut source = source_of(alloc, text)?;
    let mut sink = large_sink(alloc)?;
    let answer = call_alone(alloc, words.as_slice(), &mut source, &mut sink);
    seen(alloc, &answer, &sink)
}
