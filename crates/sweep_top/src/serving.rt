ghost use Rattle.std.specs.Prelude.{map, string_bytes};
ghost use Rattle.program_outside.specs.Outside.{devices_of};
ghost use Rattle.program_outside.specs.Serving.{ServesWithin};
ghost use Rattle.sweep_top.specs.Answers.{IsSweepAnswer};
ghost use Rattle.sweep_top.specs.Command.{sweep_of, IsSweepInRange};
ghost use Rattle.sweep_top.specs.Status.{sweep_told};

use crate::answering::{Reply, answer};
use crate::laws::the_bytes_that_are_read_are_enough;
use crate::options::SweepOptions;
use crate::status::SweepStatus;
use crate::words::read_words;
use dn_base::{MOST_OF_TEXT, Memory, Sink, Source};
use program_outside::{Answers, Program, WordsFault, serve_words};
use std::alloc::Global;

/// The program sweep: from seeds and a text to the runs of the text by these seeds.
pub struct Sweep;

impl Answers for Sweep {
    type Asked = SweepOptions;

    type Status = SweepStatus;

    ghost can_answer = { IsSweepInRange };

    ghost IsAnswer = { IsSweepAnswer };

    ghost most_read = { 1048577 };

    fn reads_at_most() -> usize {
        the_bytes_that_are_read_are_enough();
        MOST_OF_TEXT + 1
    }

    fn answer(alloc: Global, asked: &SweepOptions, text: &[u8]) -> Result<Reply, Memory> {
        answer(alloc, asked, text)
    }
}

impl Program for Sweep {
    ghost asked_by = { sweep_of };

    fn read_words(alloc: Global, words: &[String]) -> Result<SweepOptions, WordsFault> {
        read_words(alloc, words)
    }
}

/// The whole program except its `main`: answers these arguments and this source, and returns how it ended.
///
/// The status is `Usage` if the command doesn't take the words; the source is left alone then. Otherwise the source is read to
/// its end, or to one byte more than a text may have, and `answer` gives the answer and its status. The whole answer is made
/// before anything is written; then it is written and flushed. The status is `ReadFault` or `WriteFault` if the source or the
/// sink failed, and `Memory` if there wasn't enough memory. Then the sink has taken at most a prefix of the answer, and nothing
/// if it didn't fail itself.
pub fn sweep_main<S: Source, K: Sink>(
    alloc: Global,
    words: &[String],
    source: &mut S,
    sink: &mut K,
) -> SweepStatus
    ensures serves { ServesWithin sweep_told 1048577 IsSweepAnswer (sweep_of (map string_bytes words.now)) (devices_of S.Source K.Sink source.old sink.old) (devices_of S.Source K.Sink source.new sink.new) result }
{
    serve_words::<Sweep, S, K>(alloc, words, source, sink)
}
