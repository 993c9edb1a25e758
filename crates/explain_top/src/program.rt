ghost use Rattle.std.specs.Prelude.{IsErr, IfOk, map, string_bytes};
ghost use Rattle.dn_base.specs.Status.{exit_code_of};
ghost use Rattle.program_outside.specs.ExitCodes.{HasEnded, IsExitCode, IsWithoutWords};
ghost use Rattle.program_outside.specs.Outside.{IsUntouched, devices_of};
ghost use Rattle.explain_top.specs.Command.{name_in};
ghost use Rattle.explain_top.specs.Serving.{Serves, texts_of};

use crate::serving::explain_main;
use crate::texts::{HostFiles, Texts};
use dn_base::{Sink, Source, StdSink, StdSource};
use program_outside::{exit_code, given_words, no_words};
use std::alloc::Global;
use std::io;
use std::process::ExitCode;
use std::rt::{Env, Files};

/// Does what the given words ask for, and gives the exit code: that of the status, or 9 where no words were given.
pub fn explain_given<T: Texts, S: Source, K: Sink>(
    alloc: Global,
    given: io::Result<Vec<String>>,
    texts: &mut T,
    source: &mut S,
    sink: &mut K,
) -> ExitCode
    ensures no_words { IsErr given → IsUntouched (texts_of T.Texts texts.old) (texts_of T.Texts texts.new)
        × IsWithoutWords (devices_of S.Source K.Sink source.old sink.old) (devices_of S.Source K.Sink source.new sink.new) result }
    ensures words { IfOk given (λ words. HasEnded exit_code_of
        (Serves (name_in (map string_bytes words.items)) (texts_of T.Texts texts.old) (texts_of T.Texts texts.new)
        (devices_of S.Source K.Sink source.old sink.old) (devices_of S.Source K.Sink source.new sink.new)) result) }
    ensures code { IsExitCode exit_code_of result }
{
    match given {
        Ok(words) => exit_code(&explain_main(alloc, words.as_slice(), texts, source, sink)),
        Err(_) => no_words(),
    }
}

/// The program explain: what `explain_given` does with the words that the runtime gives, with the host's files, standard input
/// and standard output.
///
/// The exit code is that of the status, or 9 if the runtime can't give the words. No contract can say which words the runtime
/// gives, which bytes files and standard input have, and what standard output took.
pub fn explain_program<R: Env + Files + Input + Print + AllocGlobal>(rt: &R) -> ExitCode
    ensures { IsExitCode exit_code_of result }
{
    let mut files = HostFiles::new(rt);
    let mut source = StdSource::new(rt.reader());
    let mut sink = StdSink::new(io::writer(rt));
    explain_given(
        rt.alloc(),
        given_words(rt),
        &mut files,
        &mut source,
        &mut sink,
    )
}
