ghost use Rattle.dn_top.specs.Command.{OptionsInRange};

use crate::opening::{open, options_of, program};
use crate::stepping::Stepping;
use crate::{Case, Comparison, Trouble, are_loads, is_same, replay_loads};
use dn_machine::RunRecord;
use dn_top::{Mode, Options};
use effect_checker::Checked;
use flat_machine::{TaskLoads, flat};
use message_net::Event;
use std::alloc::Global;

/// Whether the events of a run, which the machine of these options makes once more, load what these tasks load, and nothing else.
fn loads_alike(
    alloc: Global,
    checked: Checked,
    options: &Options,
    events: &[Event],
    tasks: &[TaskLoads],
) -> Result<bool, Trouble>
    requires { OptionsInRange options.now }
{
    let machine = open(alloc, checked, options)?;
    let loads = replay_loads(alloc, &mut Stepping { machine }, events)?;
    Ok(are_loads(alloc, loads.as_slice(), tasks)?)
}

/// Compares a run of a program on the machine of these options with the reference machine's run by its grants.
fn compare_run(
    alloc: Global,
    checked: Checked,
    options: &Options,
    run: &RunRecord,
) -> Result<Comparison, Trouble>
    requires { OptionsInRange options.now }
{
    let Some(end) = flat(alloc, &checked, options.fuel, run.grants.as_slice())? else {
        return Ok(Comparison::NoFlatRun);
    };
    if !is_same(&end.ending, &run.ending) {
        return Ok(Comparison::OtherEnding);
    }
    let (events, tasks) = (run.events.as_slice(), end.loads.as_slice());
    if !loads_alike(alloc, checked, options, events, tasks)? {
        return Ok(Comparison::OtherLoads);
    }
    Ok(Comparison::Agrees)
}

/// Compares the run of a case with the reference machine's run by its grants; None where the case has no text of its own to run.
pub fn compare(alloc: Global, case: &Case, run: &RunRecord) -> Result<Option<Comparison>, Trouble> {
    let options = options_of(alloc, case)?;
    if options.mode != Mode::Run {
        return Ok(None);
    }
    let checked = program(alloc, case.text.as_slice())?;
    Ok(Some(compare_run(alloc, checked, &options, run)?))
}
