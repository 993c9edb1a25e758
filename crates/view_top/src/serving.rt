ghost use Rattle.std.specs.Prelude.{map, string_bytes};
ghost use Rattle.program_outside.specs.Outside.{devices_of};
ghost use Rattle.program_outside.specs.Serving.{ServesWithin};
ghost use Rattle.view_top.specs.Answers.{IsAnswer as IsOutputFor};
ghost use Rattle.view_top.specs.Status.{view_told};
ghost use Rattle.view_top.specs.Command.{view_of, IsViewInRange};

use crate::answering::{Output, answer};
use crate::laws::the_bytes_that_are_read_are_enough;
use crate::status::ViewStatus;
use crate::{View, read_words};
use dn_base::{MOST_OF_DOCUMENT, Memory, Sink, Source};
use program_outside::{Answers, Program, WordsFault, serve_words};
use std::alloc::Global;

/// The program view: from a view and the trace to what is to be seen of the run.
pub struct Viewer;

impl Answers for Viewer {
    type Asked = View;

    type Status = ViewStatus;

    ghost can_answer = { IsViewInRange };

    ghost IsAnswer = { IsOutputFor };

    ghost most_read = { 536870913 };

    fn reads_at_most() -> usize {
        the_bytes_that_are_read_are_enough();
        MOST_OF_DOCUMENT + 1
    }

    fn answer(alloc: Global, asked: &View, document: &[u8]) -> Result<Output, Memory> {
        answer(alloc, asked, document)
    }
}

impl Program for Viewer {
    ghost asked_by = { view_of };

    fn read_words(alloc: Global, words: &[String]) -> Result<View, WordsFault> {
        read_words(alloc, words)
    }
}

/// The whole program except its `main`: answers these arguments and this source, and returns how it ended.
///
/// The status is `Usage` if the command doesn't take the words; the source is left alone then. Otherwise the source is read to
/// its end, or to one byte more than the trace may have, and `answer` gives the answer and its status. The whole answer is made
/// before anything is written; then it is written and flushed. The status is `ReadFault` or `WriteFault` if the source or the
/// sink failed, and `Memory` if there wasn't enough memory. Then the sink has taken at most a prefix of the answer, and nothing
/// if it didn't fail itself.
pub fn view_main<S: Source, K: Sink>(
    alloc: Global,
    words: &[String],
    source: &mut S,
    sink: &mut K,
) -> ViewStatus
    ensures serves { ServesWithin view_told 536870913 IsOutputFor (view_of (map string_bytes words.now)) (devices_of S.Source K.Sink source.old sink.old) (devices_of S.Source K.Sink source.new sink.new) result }
{
    serve_words::<Viewer, S, K>(alloc, words, source, sink)
}
