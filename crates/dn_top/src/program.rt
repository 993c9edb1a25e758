ghost use Rattle.std.specs.Prelude.{IsErr, IfOk, map, string_bytes};
ghost use Rattle.dn_top.specs.Command.{options_of};
ghost use Rattle.dn_base.specs.Status.{exit_code_of};
ghost use Rattle.dn_top.specs.Serving.{Serves, answer_code};
ghost use Rattle.program_outside.specs.ExitCodes.{HasEnded, IsExitCode, IsWithoutWords};
ghost use Rattle.program_outside.specs.Outside.{devices_of};

use crate::denovo_main;
use dn_base::{OpenGate, Sink, Source, StdSink, StdSource};
use program_outside::{exit_code, given_words, no_words};
use std::alloc::Global;
use std::io;
use std::process::ExitCode;
use std::rt::Env;
use std::sync::Wait;
use std::thread::Threads;

/// Does what the given words ask for, and gives the exit code: that of the answer's status, or 9 where no words were given.
pub fn denovo_given<R: Threads + Wait + Sync, S: Source, K: Sink>(
    rt: &R,
    alloc: Global,
    given: io::Result<Vec<String>>,
    source: &mut S,
    sink: &mut K,
) -> ExitCode
    ensures no_words { IsErr given → IsWithoutWords (devices_of S.Source K.Sink source.old sink.old) (devices_of S.Source K.Sink source.new sink.new) result }
    ensures words { IfOk given (λ words. HasEnded answer_code
        (Serves (options_of (map string_bytes words.items)) (devices_of S.Source K.Sink source.old sink.old) (devices_of S.Source K.Sink source.new sink.new)) result) }
    ensures code { IsExitCode exit_code_of result }
{
    match given {
        Ok(words) => exit_code(&denovo_main(rt, alloc, words.as_slice(), source, sink, &OpenGate)),
        Err(_) => no_words(),
    }
}

/// The program denovo: what `denovo_given` does with the words that the runtime gives, with standard input and standard output.
///
/// The exit code is that of the answer's status, or 9 if the runtime can't give the words. No contract can say which words the
/// runtime gives, what standard input had, and what standard output took.
pub fn denovo_program<R: Env + Input + Print + AllocGlobal + Threads + Wait + Sync>(
    rt: &R,
) -> ExitCode
    ensures { IsExitCode exit_code_of result }
{
    let mut source = StdSource::new(rt.reader());
    let mut sink = StdSink::new(io::writer(rt));
    denovo_given(rt, rt.alloc(), given_words(rt), &mut source, &mut sink)
}
