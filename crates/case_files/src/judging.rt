use crate::comparing::compare;
use crate::opening::is_made_alone;
use crate::playing::Got;
use crate::timing::is_time_right;
use crate::{Case, Report, Trouble};
use dn_base::Memory;
use dn_machine::RunRecord;
use message_net::Event;
use std::alloc::Global;

/// Adds what the program answered in a case: whether it is what the case wants, how its run stands to the reference machine's,
/// and whether its time is that of the slowest chain.
pub fn judge(
    alloc: Global,
    label: &str,
    case: &Case,
    got: &Got,
    report: &mut Report,
) -> Result<(), Memory> {
    let output = got.written.bytes.as_slice();
    if is_made_alone(alloc, case)? {
        report.add_kinds(output);
    }
    report.add(alloc, label, case, &got.written)?;
    if let Some(run) = &got.run {
        judge_run(alloc, label, case, run, report)?;
        judge_time(alloc, label, case, output, run.events.as_slice(), report)?;
    }
    Ok(())
}

/// Compares the run of a case with the reference machine's by its grants.
fn judge_run(
    alloc: Global,
    label: &str,
    case: &Case,
    run: &RunRecord,
    report: &mut Report,
) -> Result<(), Memory> {
    match compare(alloc, case, run) {
        Ok(Some(comparison)) => report.add_run(alloc, label, comparison)?,
        Ok(None) => {}
        Err(Trouble::Form(why)) => report.add_bad(alloc, label, 0, why)?,
        Err(Trouble::Memory) => return Err(Memory),
    }
    Ok(())
}

/// Compares the time that a case wrote of its run with the slowest of all chains, where the run has few events.
fn judge_time(
    alloc: Global,
    label: &str,
    case: &Case,
    output: &[u8],
    events: &[Event],
    report: &mut Report,
) -> Result<(), Memory> {
    match is_time_right(alloc, case, output, events) {
        Ok(Some(is_right)) => report.add_time(alloc, label, is_right)?,
        Ok(None) => {}
        Err(Trouble::Form(why)) => report.add_bad(alloc, label, 0, why)?,
        Err(Trouble::Memory) => return Err(Memory),
    }
    Ok(())
}
