//! The program referee: the whole of it, with the runtime of its host.
#![tactic(auto)]

use referee_top::referee_program;
use std::process::ExitCode;

fn main(rt: HostRuntime) -> ExitCode {
    referee_program(&rt)
}
