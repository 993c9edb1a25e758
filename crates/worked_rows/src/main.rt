//! Runs the program on each case of the files here, and says which answers aren't those that the case wants, which runs aren't
//! the reference machine's by their grants, which times aren't those of the slowest of all chains, and in how many cases events
//! of each kind came.
#![tactic(auto)]

mod checking;
mod running;

use case_files::{files, run_all};
use checking::Checking;
use std::process::ExitCode;
use std::rt::Env;
use std::{env, io};

/// The folder of the cases: the first word of the command, or else where the program runs.
fn folder(rt: &(impl Env + AllocGlobal)) -> io::Result<String> {
    for word in env::args(rt)?.skip(1) {
        return Ok(word);
    }
    Ok(String::from_str(rt.alloc(), ".")?)
}

fn main(rt: HostRuntime) -> io::Result<ExitCode> {
    let alloc = rt.alloc();
    let folder = folder(&rt)?;
    let files = files(&rt, folder.as_str())?;
    let mut checking = Checking::new(&rt, alloc);
    let done = run_all(alloc, files.as_slice(), &mut checking);
    let report = checking.report;
    let (Ok(()), Ok(totals)) = (done, report.totals(alloc)) else {
        println!(rt; "there was no memory")?;
        return Ok(ExitCode::FAILURE);
    };
    print!(rt; "{}{}", report.lines.as_str(), totals.as_str())?;
    Ok(if report.is_good() {
        ExitCode::SUCCESS
    } else {
        ExitCode::FAILURE
    })
}
