//! The mode state: a state of a trace's run, and what is enabled there.
ghost use Rattle.std.specs.Prelude.{◌≡◌, ◌≤◌, length, Ok, IfOk, IfErr};
ghost use Rattle.rv_assembler.specs.Source.{source};
ghost use Rattle.run_replay.specs.Document.{IsTrace};
ghost use Rattle.text_places.specs.Places as definition;
ghost use Rattle.run_report.specs.Texts.{IsStop};
ghost use Rattle.view_top.specs.declared.options.View.TheVariants as view;
ghost use Rattle.view_top.specs.Answers.{status_at, view_made, IsStateShown, IsWithoutProgram};

use crate::StateOptions;
use crate::answering::{Output, output, refused_words};
use crate::documents::shape_of;
use crate::status::ViewStatus;
use checked_runs::trace_in;
use dn_base::{Memory, Sequence};
use effect_checker::Checked;
use run_replay::Trace;
use run_report::{Stop, checked_of};
use state_text::state_at;
use std::alloc::Global;
use text_places::{Places, text_places};

/// The status of a state before the event at `place`, if the event `asked` was asked for.
fn status_at(asked: u32, place: u32) -> ViewStatus
    ensures { result ≡ status_at asked place }
{
    if place == asked {
        ViewStatus::Done
    } else {
        ViewStatus::Unreached
    }
}

/// The state before the event that the options ask for, or before the first that is not enabled.
fn state_before(
    alloc: Global,
    options: &StateOptions,
    trace: &Trace,
    places: &Places,
    checked: Checked,
) -> Result<Output, Memory>
    requires told { IsTrace trace.now }
    requires places { places.now ≡ definition.text_places trace.now.text }
    requires within { options.now.event ≤ length trace.now.events }
    ensures { IfOk result (IsStateShown checked trace.now options.now) }
{
    let shape = shape_of(trace.shape, &checked);
    let fuel = trace.shape.fuel;
    let events = trace.events.as_slice();
    let shown = state_at(alloc, places, checked, shape, fuel, events, options.event)?;
    Ok(output(
        status_at(options.event, shown.event),
        Sequence::from_vec(shown.text),
    ))
}

/// That state, or the refusal of a number that is above the number of the trace's events.
fn state_in(
    alloc: Global,
    options: &StateOptions,
    trace: &Trace,
    checked: Checked,
) -> Result<Output, Memory>
    requires told { IsTrace trace.now }
    requires program { source trace.now.text ≡ Ok checked }
    ensures { IfOk result (IsStateShown checked trace.now options.now) }
{
    if options.event as usize > trace.events.len() {
        return refused_words(alloc);
    }
    let places = text_places(alloc, trace.text.as_slice(), checked.program())?;
    let shown = state_before(alloc, options, trace, &places, checked);
    // for the prover alone: one call drops the places, in place of the drops of all their parts at each exit
    drop(places);
    shown
}

/// The state before an event of a trace. Only those before it need be events of a run.
pub(crate) fn show_state(
    alloc: Global,
    options: &StateOptions,
    document: &[u8],
) -> Result<Output, Stop>
    ensures made { IfOk result (view_made (view.State options.now) document.now) }
    ensures stop { IfErr result (IsStop (IsWithoutProgram document.now)) }
{
    let trace = trace_in(alloc, document)?;
    let checked = checked_of(alloc, trace.text.as_slice())?;
    Ok(state_in(alloc, options, &trace, checked)?)
}
