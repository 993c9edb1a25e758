//! The program outcomes: the whole of it, with the runtime of its host.
#![tactic(auto)]

use outcomes_top::outcomes_program;
use std::process::ExitCode;

fn main(rt: HostRuntime) -> ExitCode {
    outcomes_program(&rt)
}
