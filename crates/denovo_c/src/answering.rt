ghost use Rattle.program_outside.specs.Serving.{Serves};
ghost use Rattle.denovo_c.specs.Calls.{IsHandedOut, memory_at, before_call};
ghost use Rattle.denovo_c.specs.Words.{block_words};

use crate::buffer::show;
use crate::held_sink::HeldSink;
use crate::slice_source::SliceSource;
use crate::words::words_in;
use program_outside::{EndStatus, Failure, Program, serve_words};
use std::alloc::Global;

/// Answers the words of this block.
fn answer_block<P: Program>(
    alloc: Global,
    block: &[u8],
    source: &mut SliceSource<'_>,
    sink: &mut HeldSink,
) -> P::Status
    ensures { Serves P.Status.told P.IsAnswer (P.asked_by (block_words block.now))
        (memory_at source.old sink.old.bytes sink.old.flushed sink.old.faults) (memory_at source.new sink.new.bytes sink.new.flushed sink.new.faults) result }
{
    match words_in(alloc, block) {
        Ok(words) => serve_words::<P, _, _>(alloc, words.as_slice(), source, sink),
        Err(_) => P::Status::of(Failure::Memory),
    }
}

/// Answers arguments and a source by a program, in memory.
///
/// `words` holds the arguments without the program's name, each ended by a zero byte. `source` is what the program reads. The
/// result is the program's exit code. `written` becomes the length of the answer in bytes, and `out` its first bytes, as many as
/// fit. An `out` that is too small changes neither the result nor `written`.
pub fn answer_in_memory<P: Program>(
    alloc: Global,
    words: &[u8],
    source: &[u8],
    out: &mut [u8],
    written: &mut usize,
) -> i32
    ensures { IsHandedOut P.Status.code_of (Serves P.Status.told P.IsAnswer (P.asked_by (block_words words.now)) (before_call source.now))
        out.old out.new written.new result }
{
    let mut text = SliceSource::new(source);
    let mut sink = HeldSink::new(alloc);
    let status = answer_block::<P>(alloc, words, &mut text, &mut sink);
    *written = show(sink.bytes(), out);
    i32::from(status.exit_code())
}
