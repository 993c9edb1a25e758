ghost use Rattle.std.specs.Prelude.{◌≡◌, IsErr, IfOk, drop, map, string_bytes};
ghost use Rattle.std.specs.Process.{exit_status};
ghost use Rattle.program_outside.specs.ExitCodes.{HasEnded, IsCodeOf, IsExitCode, IsWithoutWords};
ghost use Rattle.program_outside.specs.Outside.{devices_of};
ghost use Rattle.program_outside.specs.Serving.{ServesWithin};

use crate::ends::EndStatus;
use crate::programs::Program;
use crate::serving::serve_words;
use dn_base::{Sink, Source, StdSink, StdSource};
use std::alloc::Global;
use std::process::ExitCode;
use std::rt::Env;
use std::{env, io};

/// The exit code of a program whose runtime can't give it the arguments. No status has this code.
const NO_WORDS: u8 = 9;

/// All texts but the first.
fn all_but_first(texts: Vec<String>) -> Vec<String>
    ensures { result.items ≡ drop 1 texts.items }
{
    let mut rest = texts;
    if !rest.is_empty() {
        drop(rest.remove(0));
    }
    rest
}

/// The arguments that the runtime gives, without the program's name. No contract can say which these are.
///
/// # Errors
/// An error if the runtime can't give them: one of them isn't valid text, or there is no room for them.
pub fn given_words(rt: &(impl Env + AllocGlobal)) -> io::Result<Vec<String>> {
    let mut texts = Vec::new(rt.alloc());
    for text in env::args(rt)? {
        texts.push(text)?;
    }
    Ok(all_but_first(texts))
}

/// The exit code of a status.
pub fn exit_code<E: EndStatus>(status: &E) -> ExitCode
    ensures { IsCodeOf E.code_of status.now result }
{
    ExitCode::from(status.exit_code())
}

/// The exit code of a program that got no arguments: 9.
pub fn no_words() -> ExitCode
    ensures { exit_status result ≡ 9 }
{
    ExitCode::from(NO_WORDS)
}

/// Does what the given words ask for, and gives the exit code: that of the status, or 9 where no words were given.
pub fn answer_given<P: Program, S: Source, K: Sink>(
    alloc: Global,
    given: io::Result<Vec<String>>,
    source: &mut S,
    sink: &mut K,
) -> ExitCode
    ensures no_words { IsErr given → IsWithoutWords (devices_of S.Source K.Sink source.old sink.old) (devices_of S.Source K.Sink source.new sink.new) result }
    ensures words { IfOk given (λ words. HasEnded P.Status.code_of
        (ServesWithin P.Status.told P.most_read P.IsAnswer (P.asked_by (map string_bytes words.items)) (devices_of S.Source K.Sink source.old sink.old) (devices_of S.Source K.Sink source.new sink.new)) result) }
    ensures code { IsExitCode P.Status.code_of result }
{
    match given {
        Ok(words) => exit_code(&serve_words::<P, S, K>(alloc, words.as_slice(), source, sink)),
        Err(_) => no_words(),
    }
}

/// A whole program except its `main`: what `answer_given` does with the words that the runtime gives, with standard input and
/// standard output.
///
/// No contract can say which words the runtime gives, what standard input had, and what standard output took.
pub fn run_program<P: Program, R: Env + Input + Print + AllocGlobal>(rt: &R) -> ExitCode
    ensures { IsExitCode P.Status.code_of result }
{
    let mut source = StdSource::new(rt.reader());
    let mut sink = StdSink::new(io::writer(rt));
    answer_given::<P, _, _>(rt.alloc(), given_words(rt), &mut source, &mut sink)
}
