ghost use Rattle.std.specs.Prelude.{◌≡◌, ◌≢◌, ℕ, List, None, IfOk, IfSome};
ghost use Rattle.dn_top.specs.declared.options.Options.{Options as OptionsOf};
ghost use Rattle.dn_top.specs.Command.{OptionsInRange};
ghost use Rattle.dn_top.specs.Answers.{IsAnswer, most_read};
ghost use Rattle.program_outside.specs.Outside.{GaveAtMost, IsUntouched, devices_of, sink_of, source_of};
ghost use Rattle.program_outside.specs.Serving.{IsReplied};
ghost use Rattle.dn_top.specs.Runs.{with_one_worker};
ghost use Rattle.dn_top.specs.Serving.{answer_code, answer_told, written_of, IsDoneBy, IsWrittenAnswer};

use crate::answers::{output_alone, output_by_workers};
use crate::options::Options;
use crate::output::Output;
use crate::reading::take_text;
use dn_base::{Gate, Memory, Sink, Source, Status};
use dn_machine::RunRecord;
use program_outside::{EndStatus, Failure, end_without_text};
use std::alloc::Global;
use std::sync::Wait;
use std::thread::Threads;

/// The answer of the program, besides what it writes.
#[derive(Drop)]
pub struct Answer {
    /// How it ended.
    pub status: Status,
    /// The run of the multicore machine: there is one exactly in the modes run, work, trace, replay and time, if the status is
    /// an outcome.
    pub run: Option<RunRecord>,
}

impl EndStatus for Answer {
    ghost told = { answer_told };

    ghost code_of = { answer_code };

    fn of(failure: Failure) -> Answer {
        Answer {
            status: Status::of(failure),
            run: None,
        }
    }

    fn exit_code(&self) -> u8 {
        self.status.code()
    }
}

/// An output as what the shell of programs writes.
fn written_output(output: Output) -> program_outside::Output<Answer>
    ensures { result ≡ written_of output }
{
    let Output { status, bytes, run } = output;
    let status = Answer { status, run };
    program_outside::Output { status, bytes }
}

/// Writes the answer to a text, if there was memory for it.
fn reply<K: Sink>(sink: &mut K, output: Result<Output, Memory>) -> Answer
    ensures { (o : OptionsOf) (text : List ℕ) → IfOk output (IsAnswer o text)
        → IsReplied answer_told (IsWrittenAnswer o text) (sink_of K.Sink sink.old) (sink_of K.Sink sink.new) result }
{
    match output {
        Ok(output) => program_outside::reply(sink, Ok(written_output(output))),
        Err(error) => program_outside::reply(sink, Err(error)),
    }
}

/// Does what options ask for with one worker: on this thread alone.
pub(crate) fn answer_alone<S: Source, K: Sink>(
    alloc: Global,
    options: &Options,
    source: &mut S,
    sink: &mut K,
) -> Answer
    requires { OptionsInRange options.now }
    ensures served { IsDoneBy (with_one_worker options.now)
        (devices_of S.Source K.Sink source.old sink.old) (devices_of S.Source K.Sink source.new sink.new) result }
    ensures few { IfSome (most_read options.now.mode) (GaveAtMost (source_of S.Source source.old) (source_of S.Source source.new)) }
    ensures unread { most_read options.now.mode ≡ None
        → IsUntouched (source_of S.Source source.old) (source_of S.Source source.new) }
{
    match take_text(alloc, options, source) {
        Ok(text) => reply(sink, output_alone(alloc, options, text.as_slice())),
        Err(error) => end_without_text(error),
    }
}

/// Does what options ask for; several workers make the run.
pub(crate) fn answer_by_workers<R: Threads + Wait + Sync, S: Source, K: Sink, G: Gate + Sync>(
    rt: &R,
    alloc: Global,
    options: &Options,
    source: &mut S,
    sink: &mut K,
    gate: &G,
) -> Answer
    requires limits { OptionsInRange options.now }
    requires several { options.now.workers ≢ 1 }
    ensures served { IsDoneBy options.now
        (devices_of S.Source K.Sink source.old sink.old) (devices_of S.Source K.Sink source.new sink.new) result }
    ensures few { IfSome (most_read options.now.mode) (GaveAtMost (source_of S.Source source.old) (source_of S.Source source.new)) }
    ensures unread { most_read options.now.mode ≡ None
        → IsUntouched (source_of S.Source source.old) (source_of S.Source source.new) }
{
    match take_text(alloc, options, source) {
        Ok(text) => {
            let output = output_by_workers(rt, alloc, options, text.as_slice(), gate);
            reply(sink, output)
        }
        Err(error) => end_without_text(error),
    }
}
