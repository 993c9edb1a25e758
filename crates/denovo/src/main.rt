//! The program denovo: the whole of it, with the runtime of its host.
#![tactic(auto)]

use dn_top::denovo_program;
use std::process::ExitCode;

fn main(rt: HostRuntime) -> ExitCode {
    denovo_program(&rt)
}
