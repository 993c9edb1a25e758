//! The program explain: the whole of it, with the runtime of its host.
#![tactic(auto)]

use explain_top::explain_program;
use std::process::ExitCode;

fn main(rt: HostRuntime) -> ExitCode {
    explain_program(&rt)
}
