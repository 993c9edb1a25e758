ghost use Rattle.program_outside.specs.ExitCodes.{IsExitCode};
ghost use Rattle.view_top.specs.Status.{view_code};

use crate::serving::Viewer;
use program_outside::run_program;
use std::process::ExitCode;
use std::rt::Env;

/// The program view: what `view_main` answers to the words that the runtime gives, to standard input and standard output.
///
/// The exit code is that of the status that is told, or 9 where the runtime can't give the words. No contract can say which
/// words the runtime gives, and what standard input gave and standard output took.
pub fn view_program<R: Env + Input + Print + AllocGlobal>(rt: &R) -> ExitCode
    ensures { IsExitCode view_code result }
{
    run_program::<Viewer, R>(rt)
}
