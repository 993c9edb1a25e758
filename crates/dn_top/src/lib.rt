//! The program denovo, except its `main`: it takes arguments and a text, and writes its answer or why it refuses.
#![tactic(auto)]

ghost use Rattle.std.specs.Prelude.{◌≡◌, map, string_bytes, None, IfSome};
ghost use Rattle.std.specs.Option.{option_map};
ghost use Rattle.dn_top.specs.Command.{OptionsInRange, options_of};
ghost use Rattle.dn_top.specs.Answers.{most_read};
ghost use Rattle.program_outside.specs.Outside.{GaveAtMost, IsUntouched, devices_of, source_of};
ghost use Rattle.dn_top.specs.Runs.{with_one_worker};
ghost use Rattle.dn_top.specs.Serving.{IsDoneBy, Serves};

use dn_base::{Gate, Sink, Source};
use program_outside::{EndStatus, Failure, refuse_words};
use std::alloc::Global;
use std::sync::Wait;
use std::thread::Threads;

mod answers;
mod command;
mod documents;
mod laws;
mod options;
mod output;
mod parsing;
mod program;
mod reading;
mod runs;
mod serving;
mod timings;
mod workers;

pub use dn_machine::RunRecord;
pub use laws::{
    a_proven_text_runs_inside, a_trace_replays_as_its_run,
    the_output_is_a_function_of_source_and_options,
};
pub use options::{Mode, Options, Order};
pub use parsing::read_words;
pub use program::{denovo_given, denovo_program};
pub use program_outside::WordsFault;
pub use serving::Answer;
use serving::{answer_alone, answer_by_workers};

/// Answers these arguments and this source on one thread, whatever number of workers is asked for.
///
/// The status is `Usage` if the command doesn't take the words. In the mode work the text is generated, with the size that is
/// asked for. In all other modes the source is read to its end, or to one byte more than a text, or in the mode replay a trace,
/// may have. The text is taken as a program, which is checked in all modes but list.
///
/// In the modes run, work, trace and time the program is run on the multicore machine of the shape that is asked for, by the
/// events that the seed picks, and the run is handed back. In the mode flat it is run on one flat memory by the canonical list of
/// grants. In the mode prove its effects are proved from the text alone. In the mode replay the source is the trace, as the mode
/// trace writes it: its text is taken as the program, its events are made on the machine of its size, and that run is handed back
/// if it is complete.
///
/// The whole answer is made before anything is written; then it is written and flushed. The first reason to refuse decides.
///
/// The call waits for no other thread.
pub fn answer_words<S: Source, K: Sink>(
    alloc: Global,
    words: &[String],
    source: &mut S,
    sink: &mut K,
) -> Answer
    ensures serves { Serves (option_map with_one_worker (options_of (map string_bytes words.now)))
        (devices_of S.Source K.Sink source.old sink.old) (devices_of S.Source K.Sink source.new sink.new) result }
{
    match read_words(alloc, words) {
        Ok(options) => answer_alone(alloc, &options, source, sink),
        Err(WordsFault::Usage) => refuse_words(sink),
        Err(WordsFault::Memory) => Answer::of(Failure::Memory),
    }
}

/// Answers words that ask for these options: with one worker on this thread alone, with more on a thread for each.
fn answer_options<R: Threads + Wait + Sync, S: Source, K: Sink, G: Gate + Sync>(
    rt: &R,
    alloc: Global,
    options: &Options,
    source: &mut S,
    sink: &mut K,
    gate: &G,
) -> Answer
    requires { OptionsInRange options.now }
    ensures served { IsDoneBy options.now
        (devices_of S.Source K.Sink source.old sink.old) (devices_of S.Source K.Sink source.new sink.new) result }
    ensures few { IfSome (most_read options.now.mode) (GaveAtMost (source_of S.Source source.old) (source_of S.Source source.new)) }
    ensures unread { most_read options.now.mode ≡ None
        → IsUntouched (source_of S.Source source.old) (source_of S.Source source.new) }
{
    if options.workers == 1 {
        answer_alone(alloc, options, source, sink)
    } else {
        answer_by_workers(rt, alloc, options, source, sink, gate)
    }
}

/// The whole program except its `main`: answers these arguments and this source.
///
/// It does the same as `answer_words`, except for the workers. With one worker this thread alone makes the run, by the events
/// that the seed picks, and the call waits for no other thread. With 2 to 16 workers as many host threads make the run, in
/// rounds, and the host decides which event comes first. What holds of a run by one worker holds of each such run, but two
/// calls may make two different runs. The threads wait for turns, inside which the gate is called, so the promises are about
/// calls that return.
pub fn denovo_main<R: Threads + Wait + Sync, S: Source, K: Sink, G: Gate + Sync>(
    rt: &R,
    alloc: Global,
    words: &[String],
    source: &mut S,
    sink: &mut K,
    gate: &G,
) -> Answer
    ensures serves { Serves (options_of (map string_bytes words.now))
        (devices_of S.Source K.Sink source.old sink.old) (devices_of S.Source K.Sink source.new sink.new) result }
{
    match read_words(alloc, words) {
        Ok(options) => answer_options(rt, alloc, &options, source, sink, gate),
        Err(WordsFault::Usage) => refuse_words(sink),
        Err(WordsFault::Memory) => Answer::of(Failure::Memory),
    }
}
