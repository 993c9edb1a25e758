//! The run of a seed, on a machine that stays at its start, so that a text's program is made and decoded once.
ghost use Rattle.std.specs.Prelude.{◌≡◌, length, IfOk};
ghost use Rattle.dn_machine.specs.Kept.{IsInitialMachine};
ghost use Rattle.checked_runs.specs.Runs.{IsPrintable};
ghost use Rattle.dn_top.specs.Runs.{IsRunFor, shape_for};
ghost use Rattle.sweep_top.specs.Runs.{options_at};

use crate::options::SweepOptions;
use dn_base::{Memory, Shape};
use dn_machine::{Machine, RunRecord, a_machine_is_kept};
use grant_log::Counts;
use region_table::Program;
use std::alloc::Global;

/// The shape that the options ask for: as many cores as the program needs, and their banks, sets and ways.
pub(crate) fn shape_of(options: &SweepOptions, program: &Program) -> Shape
    ensures { result ≡ shape_for program.now (options_at options.now 0) }
{
    Shape {
        cores: program.cores(),
        banks: options.banks,
        sets: options.sets,
        ways: options.ways,
    }
}

/// There is a count of each of the seventeen kinds.
fn has_each_kind(counts: &Counts)
    ensures { length counts.now.kinds ≡ 17 }
{
    // for the proof alone: a read of a field brings the invariant of the counts, which is the law
    let _kinds = &counts.kinds;
}

/// The run of a seed, which denovo makes in the mode run. The machine stays at its start.
pub(crate) fn run_of(
    alloc: Global,
    options: &SweepOptions,
    machine: &Machine,
    seed: u32,
) -> Result<RunRecord, Memory>
    requires { IsInitialMachine machine.now.state.setting.program (shape_for machine.now.state.setting.program (options_at options.now seed)) options.now.fuel machine.now }
    ensures run { IfOk result (IsRunFor machine.now.state.setting.program (options_at options.now seed)) }
    ensures printable { IfOk result IsPrintable }
{
    // for the proof alone: the machine is the opened one, sound and coherent, so that its run has all that is promised of runs
    a_machine_is_kept(machine);
    let run = machine.run_copy(alloc, seed)?;
    // for the proof alone: the events are fewer than 2^64, and there is a count of each kind, so that the record can be printed
    let _events = run.events.len();
    has_each_kind(&run.counts);
    Ok(run)
}
