ghost use Rattle.program_outside.specs.ExitCodes.{IsExitCode};
ghost use Rattle.sweep_top.specs.Status.{sweep_code};

use crate::serving::Sweep;
use program_outside::run_program;
use std::process::ExitCode;
use std::rt::Env;

/// The program sweep: what `sweep_main` answers to the words that the runtime gives, with standard input and standard output.
///
/// The exit code is that of the status, or 9 if the runtime can't give the words; nothing is read or written then. No contract
/// can say which words the runtime gives, what standard input had, and what standard output took.
pub fn sweep_program<R: Env + Input + Print + AllocGlobal>(rt: &R) -> ExitCode
    ensures { IsExitCode sweep_code result }
{
    run_program::<Sweep, R>(rt)
}
