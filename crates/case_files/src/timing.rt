ghost use Rattle.dn_top.specs.Command.{OptionsInRange};

use crate::opening::{open, options_of, program};
use crate::stepping::Stepping;
use crate::{Case, PlaceTicks, Trouble, is_slowest};
use dn_top::{Mode, Options};
use effect_checker::Checked;
use message_net::Event;
use run_timing::Net;
use std::alloc::Global;

/// The ticks of each place and of messages that options ask for.
fn ticks_of(options: &Options) -> PlaceTicks {
    PlaceTicks {
        core: options.tick_core,
        bank: options.tick_bank,
        mail: options.tick_mail,
        hop: options.latency,
        is_mesh: matches!(options.net, Net::Mesh),
        banks: options.banks,
    }
}

/// Whether an output tells how long a run of a program on the machine of these options takes; None where there are too many events.
fn is_told(
    alloc: Global,
    checked: Checked,
    options: &Options,
    output: &[u8],
    events: &[Event],
) -> Result<Option<bool>, Trouble>
    requires { OptionsInRange options.now }
{
    let mut machine = Stepping {
        machine: open(alloc, checked, options)?,
    };
    is_slowest(alloc, &mut machine, output, events, ticks_of(options))
}

/// Whether a case told how long its run takes, by a search of all chains of its events; None where the words ask for no time, or
/// there are too many events.
pub fn is_time_right(
    alloc: Global,
    case: &Case,
    output: &[u8],
    events: &[Event],
) -> Result<Option<bool>, Trouble> {
    let options = options_of(alloc, case)?;
    if options.mode != Mode::Time {
        return Ok(None);
    }
    let checked = program(alloc, case.text.as_slice())?;
    is_told(alloc, checked, &options, output, events)
}
