//! The program sweep: the whole of it, with the runtime of its host.
#![tactic(auto)]

use std::process::ExitCode;
use sweep_top::sweep_program;

fn main(rt: HostRuntime) -> ExitCode {
    sweep_program(&rt)
}
