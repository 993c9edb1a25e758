ghost use Rattle.std.specs.Prelude.{map, string_bytes};
ghost use Rattle.program_outside.specs.Outside.{devices_of};
ghost use Rattle.program_outside.specs.Serving.{ServesWithin};
ghost use Rattle.referee_top.specs.Batch.{IsAnswerTo};
ghost use Rattle.referee_top.specs.Command.{referee_options_of};
ghost use Rattle.referee_top.specs.Status.{referee_told};

use crate::answering::Reply;
use crate::batching::answer_to;
use crate::laws::the_bytes_that_are_read_are_enough;
use crate::mode::RefereeOptions;
use crate::status::RefereeStatus;
use crate::words::read_words;
use dn_base::{MOST_OF_DOCUMENT, Memory, Sink, Source};
use program_outside::{Answers, Program, WordsFault, serve_words};
use std::alloc::Global;

/// The program referee: from what is asked for and a run log to verdicts, or to a claim.
pub struct Referee;

impl Answers for Referee {
    type Asked = RefereeOptions;

    type Status = RefereeStatus;

    ghost can_answer = { λ _. Unit {0} };

    ghost IsAnswer = { IsAnswerTo };

    ghost most_read = { 536870913 };

    fn reads_at_most() -> usize {
        the_bytes_that_are_read_are_enough();
        MOST_OF_DOCUMENT + 1
    }

    fn answer(alloc: Global, asked: &RefereeOptions, document: &[u8]) -> Result<Reply, Memory> {
        answer_to(alloc, *asked, document)
    }
}

impl Program for Referee {
    ghost asked_by = { referee_options_of };

    fn read_words(alloc: Global, words: &[String]) -> Result<RefereeOptions, WordsFault> {
        read_words(alloc, words)
    }
}

/// The whole program except its `main`: answers these arguments and this source, and returns how it ended.
///
/// The status is `Usage` if the command doesn't take the words; the source is left alone then. Otherwise the source is read to
/// its end, or to one byte more than a run log may have, and `answer_to` gives the answer and its status. The whole answer is made
/// before anything is written; then it is written and flushed. The status is `ReadFault` or `WriteFault` if the source or the
/// sink failed, and `Memory` if there wasn't enough memory. Then the sink has taken at most a prefix of the answer, and nothing
/// if it didn't fail itself.
pub fn referee_main<S: Source, K: Sink>(
    alloc: Global,
    words: &[String],
    source: &mut S,
    sink: &mut K,
) -> RefereeStatus
    ensures serves { ServesWithin referee_told 536870913 IsAnswerTo (referee_options_of (map string_bytes words.now)) (devices_of S.Source K.Sink source.old sink.old) (devices_of S.Source K.Sink source.new sink.new) result }
{
    serve_words::<Referee, S, K>(alloc, words, source, sink)
}
