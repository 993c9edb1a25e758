ghost use Rattle.std.specs.Prelude.{◌≡◌, map, string_bytes};
ghost use Rattle.program_outside.specs.Outside.{devices_of};
ghost use Rattle.explain_top.specs.Answers.{IsOutput};
ghost use Rattle.explain_top.specs.Command.{name_in};
ghost use Rattle.explain_top.specs.Serving.{IsNamedServed, Serves, texts_of};

use crate::answering::{Explanation, answer};
use crate::command::text_name;
use crate::laws::the_bytes_that_are_read_are_enough;
use crate::texts::Texts;
use dn_base::{MOST_OF_DOCUMENT, MOST_OF_TEXT, Memory, Sequence, Sink, Source, Status};
use program_outside::{Answers, ReadError, WordsFault, refuse_words, serve};
use std::alloc::Global;

/// The program explain: from a text and the answer that denovo or the referee printed for it to the answer explained.
pub struct Explain;

impl Answers for Explain {
    type Asked = Sequence<u8>;

    type Status = Status;

    ghost can_answer = { λ _. Unit {0} };

    ghost IsAnswer = { IsOutput };

    ghost most_read = { 536870913 };

    fn reads_at_most() -> usize {
        the_bytes_that_are_read_are_enough();
        MOST_OF_DOCUMENT + 1
    }

    fn answer(alloc: Global, text: &Sequence<u8>, told: &[u8]) -> Result<Explanation, Memory> {
        answer(alloc, text.as_slice(), told)
    }
}

/// Explains the answer to the text of this name.
fn serve_named<T: Texts, S: Source, K: Sink>(
    alloc: Global,
    name: &str,
    texts: &mut T,
    source: &mut S,
    sink: &mut K,
) -> Status
    ensures { IsNamedServed name.now (texts_of T.Texts texts.old) (texts_of T.Texts texts.new)
        (devices_of S.Source K.Sink source.old sink.old) (devices_of S.Source K.Sink source.new sink.new) result }
{
    match texts.read(alloc, name, MOST_OF_TEXT + 1) {
        Ok(text) => serve::<Explain, S, K>(alloc, &Sequence::from_vec(text), source, sink),
        Err(ReadError::Failed) => Status::ReadFault,
        Err(ReadError::NoMemory) => Status::Memory,
    }
}

/// The whole program except its `main`: answers these arguments, these texts and this source, and returns how it ended.
///
/// The status is `Usage` if the command doesn't take the words; texts and source are left alone then. Otherwise the text with
/// the given name is read, to its end or to one byte more than a text may have. Then the source is read, to its end or to one
/// byte more than is looked at. `answer` gives the output and its status. The whole output is made before anything is written;
/// then it is written and flushed. The status is `ReadFault` if the text can't be read, and the source is left alone then, or
/// if the source failed; `WriteFault` if the sink failed; and `Memory` if there wasn't enough memory. Then the sink has taken
/// at most a prefix of the output, and nothing if it didn't fail itself.
pub fn explain_main<T: Texts, S: Source, K: Sink>(
    alloc: Global,
    words: &[String],
    texts: &mut T,
    source: &mut S,
    sink: &mut K,
) -> Status
    ensures serves { Serves (name_in (map string_bytes words.now)) (texts_of T.Texts texts.old) (texts_of T.Texts texts.new)
        (devices_of S.Source K.Sink source.old sink.old) (devices_of S.Source K.Sink source.new sink.new) result }
{
    match text_name(alloc, words) {
        Ok(name) => serve_named(alloc, name, texts, source, sink),
        Err(WordsFault::Usage) => refuse_words(sink),
        Err(WordsFault::Memory) => Status::Memory,
    }
}
