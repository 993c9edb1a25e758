//! Runs that are timed on the machine that they are of: its program is made once.
ghost use Rattle.std.specs.Prelude.{◌≡◌, ◌≢◌, IfOk, IfErr, OnOk};
ghost use Rattle.dn_top.specs.Command.{OptionsInRange};
ghost use Rattle.machine_rules.specs.State.{initial_state};
ghost use Rattle.dn_machine.specs.Kept.{IsInitialMachine};
ghost use Rattle.dn_machine.specs.Settings.{IsSettingOf};
ghost use Rattle.run_report.specs.Texts.{HasChecked, IsStop, IsUnfit};
ghost use Rattle.checked_runs.specs.Runs.{IsPrintable};
ghost use Rattle.dn_top.specs.Runs.{IsAnyRunFor, IsPickedRun, IsRunFor, IsTimedFor, IsTimedRun, shape_for, with_one_worker};

use crate::options::{Options, Order};
use crate::output::Output;
use crate::runs::{handed_back, has_each_kind, run_in_order, shape_of, ticks_of, timed_text};
use crate::workers::workers_run;
use dn_base::{Gate, Memory};
use dn_machine::{Machine, RunRecord, a_machine_is_kept};
use effect_checker::Checked;
use host_workers::WorkersRun;
use run_report::{Stop, checked_of};
use run_timing::time_events;
use std::alloc::Global;
use std::sync::Wait;
use std::thread::Threads;

/// The run of a machine at its start, with its events picked as the options ask, on this thread alone. The machine has its setting
/// afterwards, and may have run.
fn picked_run(alloc: Global, options: &Options, machine: &mut Machine) -> Result<RunRecord, Memory>
    requires limits { OptionsInRange options.now }
    requires initial { machine.old.state ≡ initial_state machine.old.state.setting }
    requires made { machine.old.made ≡ 0 }
    ensures run { IfOk result (IsPickedRun options.now machine.old.state) }
    ensures setting { OnOk result (machine.new.state.setting ≡ machine.old.state.setting) }
{
    match options.order {
        Order::Seed => machine.run_copy(alloc, options.seed),
        Order::Time => run_in_order(alloc, options, machine),
    }
}

/// The same run, of the machine that the options ask for.
fn run_of(alloc: Global, options: &Options, machine: &mut Machine) -> Result<RunRecord, Memory>
    requires limits { OptionsInRange options.now }
    requires initial { IsInitialMachine machine.old.state.setting.program (shape_for machine.old.state.setting.program options.now) options.now.fuel machine.old }
    ensures run { IfOk result (IsRunFor machine.old.state.setting.program (with_one_worker options.now)) }
    ensures setting { OnOk result (machine.new.state.setting ≡ machine.old.state.setting) }
    ensures printable { IfOk result IsPrintable }
{
    // for the proof alone: the machine is the opened one, sound and coherent, so that its run has all that is promised of runs
    a_machine_is_kept(machine);
    let run = picked_run(alloc, options, machine)?;
    // for the proof alone: the events are fewer than 2^64, and there is a count of each kind, so that the record can be printed
    let _events = run.events.len();
    has_each_kind(&run.counts);
    Ok(run)
}

/// Sums up how a run of a machine at its start ended, tells the longest chain of its events, and hands it back.
fn sum_up(
    alloc: Global,
    options: &Options,
    machine: &mut Machine,
    run: RunRecord,
) -> Result<Output, Memory>
    requires limits { OptionsInRange options.now }
    requires initial { IsInitialMachine machine.old.state.setting.program (shape_for machine.old.state.setting.program options.now) options.now.fuel machine.old }
    requires run { IsAnyRunFor machine.old.state.setting.program options.now run }
    requires printable { IsPrintable run }
    ensures { IfOk result (IsTimedFor machine.old.state.setting.program options.now run) }
{
    // for the proof alone: the machine's setting is that of its program, of which the run is one
    a_machine_is_kept(machine);
    let events = run.events.as_slice();
    let timing = time_events(alloc, machine, events, &ticks_of(options))?;
    let text = timed_text(alloc, &run.ending, &timing)?;
    Ok(handed_back(text, run))
}

/// Runs a machine at its start as the options ask, and times the run on the same machine, which is set back to its start for that.
fn time_on(alloc: Global, options: &Options, machine: &mut Machine) -> Result<Output, Memory>
    requires limits { OptionsInRange options.now }
    requires initial { IsInitialMachine machine.old.state.setting.program (shape_for machine.old.state.setting.program options.now) options.now.fuel machine.old }
    ensures { IfOk result (IsTimedRun machine.old.state.setting.program (with_one_worker options.now)) }
{
    // for the proof alone: the machine's setting is that of its program
    a_machine_is_kept(machine);
    let run = run_of(alloc, options, machine)?;
    time_again(alloc, options, machine, run)
}

/// Runs a checked program on the machine that the options ask for, as they ask, on this thread alone, and times the run.
fn time_checked(alloc: Global, options: &Options, checked: Checked) -> Result<Output, Memory>
    requires { OptionsInRange options.now }
    ensures { IfOk result (IsTimedRun checked (with_one_worker options.now)) }
{
    let shape = shape_of(options, checked.program());
    let mut machine = Machine::start(alloc, checked, shape, options.fuel)?;
    let timed = time_on(alloc, options, &mut machine);
    // for the prover alone: one call drops the machine, in place of the drops of all its parts at each exit
    drop(machine);
    timed
}

/// Runs the program of a text on this thread alone, and times the run.
pub(crate) fn time_alone(alloc: Global, options: &Options, text: &[u8]) -> Result<Output, Stop>
    requires { OptionsInRange options.now }
    ensures done { IfOk result (λ out. HasChecked text.now (λ P. IsTimedRun P (with_one_worker options.now) out)) }
    ensures stop { IfErr result (IsStop (IsUnfit text.now)) }
{
    Ok(time_checked(alloc, options, checked_of(alloc, text)?)?)
}

/// Times a run on the machine on which workers made it: the machine is set back to its start for that.
fn time_again(
    alloc: Global,
    options: &Options,
    machine: &mut Machine,
    run: RunRecord,
) -> Result<Output, Memory>
    requires limits { OptionsInRange options.now }
    requires setting { IsSettingOf machine.old.state.setting.program (shape_for machine.old.state.setting.program options.now) options.now.fuel machine.old.state.setting }
    requires run { IsAnyRunFor machine.old.state.setting.program options.now run }
    requires printable { IsPrintable run }
    ensures { IfOk result (IsTimedFor machine.old.state.setting.program options.now run) }
{
    machine.reset(alloc)?;
    sum_up(alloc, options, machine, run)
}

/// Times a run that workers made, on their machine.
fn time_made(alloc: Global, options: &Options, made: WorkersRun) -> Result<Output, Memory>
    requires limits { OptionsInRange options.now }
    requires setting { IsSettingOf made.machine.state.setting.program (shape_for made.machine.state.setting.program options.now) options.now.fuel made.machine.state.setting }
    requires run { IsAnyRunFor made.machine.state.setting.program options.now made.run }
    requires printable { IsPrintable made.run }
    ensures { IfOk result (IsTimedFor made.machine.state.setting.program options.now made.run) }
{
    let WorkersRun { run, machine } = made;
    let mut machine = machine;
    let timed = time_again(alloc, options, &mut machine, run);
    // for the prover alone: one call drops the machine, in place of the drops of all its parts at each exit
    drop(machine);
    timed
}

/// Runs a checked program on the machine that the options ask for, by several workers, and times the run on the same machine.
fn time_checked_by_workers<R: Threads + Wait + Sync, G: Gate + Sync>(
    rt: &R,
    alloc: Global,
    options: &Options,
    checked: Checked,
    gate: &G,
) -> Result<Output, Memory>
    requires limits { OptionsInRange options.now }
    requires several { options.now.workers ≢ 1 }
    ensures { IfOk result (IsTimedRun checked options.now) }
{
    let made = workers_run(rt, alloc, options, checked, gate)?;
    time_made(alloc, options, made)
}

/// Runs the program of a text by several workers, and times the run.
pub(crate) fn time_by_workers<R: Threads + Wait + Sync, G: Gate + Sync>(
    rt: &R,
    alloc: Global,
    options: &Options,
    text: &[u8],
    gate: &G,
) -> Result<Output, Stop>
    requires limits { OptionsInRange options.now }
    requires several { options.now.workers ≢ 1 }
    ensures done { IfOk result (λ out. HasChecked text.now (λ P. IsTimedRun P options.now out)) }
    ensures stop { IfErr result (IsStop (IsUnfit text.now)) }
{
    let checked = checked_of(alloc, text)?;
    Ok(time_checked_by_workers(rt, alloc, options, checked, gate)?)
}
