ghost use Rattle.std.specs.Option.{option_map};
ghost use Rattle.dn_top.specs.Command.{options_of};
ghost use Rattle.denovo_c.specs.Calls.{memory_at};
ghost use Rattle.denovo_c.specs.Words.{block_words};
ghost use Rattle.dn_top.specs.Serving.{Serves};
ghost use Rattle.dn_top.specs.Runs.{with_one_worker};
ghost use Rattle.explain_top.specs.Command.{name_in};
ghost use Rattle.denovo_c.specs.Texts.{IsExplainServed};

use crate::held_text::HeldText;
use crate::{HeldSink, SliceSource, words_in};
use dn_base::Status;
use dn_top::{Answer, answer_words};
use explain_top::explain_main;
use std::alloc::Global;

/// Answers the words of this block by `denovo`.
pub(crate) fn answer_denovo(
    alloc: Global,
    block: &[u8],
    source: &mut SliceSource<'_>,
    sink: &mut HeldSink,
) -> Answer
    ensures { Serves (option_map with_one_worker (options_of (block_words block.now)))
        (memory_at source.old sink.old.bytes sink.old.flushed sink.old.faults) (memory_at source.new sink.new.bytes sink.new.flushed sink.new.faults) result }
{
    match words_in(alloc, block) {
        Ok(words) => answer_words(alloc, words.as_slice(), source, sink),
        Err(_) => Answer {
            status: Status::Memory,
            run: None,
        },
    }
}

/// Answers the words of this block by `explain`, with this text under every name.
pub(crate) fn answer_explain(
    alloc: Global,
    block: &[u8],
    text: &[u8],
    source: &mut SliceSource<'_>,
    sink: &mut HeldSink,
) -> Status
    ensures { IsExplainServed (name_in (block_words block.now)) text.now
        (memory_at source.old sink.old.bytes sink.old.flushed sink.old.faults) (memory_at source.new sink.new.bytes sink.new.flushed sink.new.faults) result }
{
    match words_in(alloc, block) {
        Ok(words) => {
            let mut texts = HeldText::new(text);
            explain_main(alloc, words.as_slice(), &mut texts, source, sink)
        }
        Err(_) => Status::Memory,
    }
}
