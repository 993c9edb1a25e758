//! The timing of a trace's run.
ghost use Rattle.std.specs.Prelude.{IfOk, OnOk};
ghost use Rattle.run_timing.specs.Ticks.{AreWithinLimits};
ghost use Rattle.run_report.specs.Texts.{HasProgram};
ghost use Rattle.view_top.specs.Kept.{IsKeptTiming, IsMachineOf, IsViewable};

use crate::documents::{KeptRun, begin_again};
use dn_base::Memory;
use dn_machine::Machine;
use run_timing::{Ticks, Timing, time_events};
use std::alloc::Global;

/// The timing of a run on its machine, by these ticks.
pub(crate) fn timing_on(
    alloc: Global,
    kept: &KeptRun,
    machine: &mut Machine,
    ticks: &Ticks,
) -> Result<Timing, Memory>
    requires kept { IsViewable kept.now }
    requires machine { IsMachineOf kept.now machine.old }
    requires ticks { AreWithinLimits ticks.now }
    ensures timing { IfOk result (λ timing. HasProgram kept.now.text (IsKeptTiming kept.now ticks.now timing)) }
    ensures machine { OnOk result (IsMachineOf kept.now machine.new) }
{
    begin_again(alloc, kept, machine)?;
    time_events(alloc, machine, kept.run.events.as_slice(), ticks)
}
