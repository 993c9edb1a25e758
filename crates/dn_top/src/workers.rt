//! Runs that host threads make.
ghost use Rattle.std.specs.Prelude.{◌≢◌, All, IfOk, IfErr};
ghost use Rattle.dn_top.specs.Command.{OptionsInRange};
ghost use Rattle.run_replay.specs.Document.{FitsDocument, IsTrace};
ghost use Rattle.dn_top.specs.Answers.{IsRunOfText};
ghost use Rattle.run_report.specs.Texts.{IsStop, IsUnfit};
ghost use Rattle.dn_top.specs.Documents.{trace_of};
ghost use Rattle.checked_runs.specs.Runs.{IsPrintable};
ghost use Rattle.dn_machine.specs.Settings.{IsSettingOf};
ghost use Rattle.dn_top.specs.Runs.{shape_for, IsRunFor};

use crate::options::Options;
use crate::runs::{has_each_kind, shape_of};
use dn_base::{Gate, Memory};
use dn_machine::{Machine, RunRecord, a_machine_is_kept};
use effect_checker::Checked;
use host_workers::{WorkersRun, run_keeping_machine};
use run_report::{Stop, checked_of};
use std::alloc::Global;
use std::sync::Wait;
use std::thread::Threads;

/// Runs a checked program on the machine that the options ask for, by several workers, each on a host thread of its own. The
/// machine is handed back beside the run.
pub(crate) fn workers_run<R: Threads + Wait + Sync, G: Gate + Sync>(
    rt: &R,
    alloc: Global,
    options: &Options,
    checked: Checked,
    gate: &G,
) -> Result<WorkersRun, Memory>
    requires limits { OptionsInRange options.now }
    requires several { options.now.workers ≢ 1 }
    ensures run { IfOk result (λ made. IsRunFor checked options.now made.run) }
    ensures told { IfOk result (λ made. All FitsDocument made.run.events) }
    ensures printable { IfOk result (λ made. IsPrintable made.run) }
    ensures setting { IfOk result (λ made. IsSettingOf checked (shape_for checked options.now) options.now.fuel made.machine.state.setting) }
{
    let shape = shape_of(options, checked.program());
    let machine = Machine::start(alloc, checked, shape, options.fuel)?;
    // for the proof alone: the machine is the opened one, sound and coherent, so that its run has all that is promised of runs
    a_machine_is_kept(&machine);
    let made = run_keeping_machine(rt, alloc, machine, options.workers, options.seed, gate)?;
    // for the proof alone: the events are fewer than 2^64, and there is a count of each kind, so that the record can be printed
    let _events = made.run.events.len();
    has_each_kind(&made.run.counts);
    Ok(made)
}

/// That run alone.
fn machine_run_by_workers<R: Threads + Wait + Sync, G: Gate + Sync>(
    rt: &R,
    alloc: Global,
    options: &Options,
    checked: Checked,
    gate: &G,
) -> Result<RunRecord, Memory>
    requires limits { OptionsInRange options.now }
    requires several { options.now.workers ≢ 1 }
    ensures run { IfOk result (IsRunFor checked options.now) }
    ensures told { IfOk result (λ run. All FitsDocument run.events) }
    ensures printable { IfOk result IsPrintable }
{
    let WorkersRun { run, machine } = workers_run(rt, alloc, options, checked, gate)?;
    // for the prover alone: one call drops the machine, in place of the drops of all its parts
    drop(machine);
    Ok(run)
}

/// The run of a text's program by several workers.
pub(crate) fn run_by_workers<R: Threads + Wait + Sync, G: Gate + Sync>(
    rt: &R,
    alloc: Global,
    options: &Options,
    text: &[u8],
    gate: &G,
) -> Result<RunRecord, Stop>
    requires limits { OptionsInRange options.now }
    requires several { options.now.workers ≢ 1 }
    ensures run { IfOk result (IsRunOfText options.now text.now) }
    ensures told { IfOk result (λ run. IsTrace (trace_of options.now text.now run)) }
    ensures printable { IfOk result IsPrintable }
    ensures stop { IfErr result (IsStop (IsUnfit text.now)) }
{
    let checked = checked_of(alloc, text)?;
    Ok(machine_run_by_workers(rt, alloc, options, checked, gate)?)
}
