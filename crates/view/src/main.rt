//! The program view: the whole of it, with the runtime of its host.
#![tactic(auto)]

use std::process::ExitCode;
use view_top::view_program;

fn main(rt: HostRuntime) -> ExitCode {
    view_program(&rt)
}
