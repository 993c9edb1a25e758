//! The mode data: the data of a run for other programs.
ghost use Rattle.std.specs.Prelude.{◌≡◌, ◌≤◌, IfOk, IfErr, OnOk};
ghost use Rattle.run_timing.specs.Ticks.{AreWithinLimits};
ghost use Rattle.page_data.specs.Data.{IsDataOf};
ghost use Rattle.run_report.specs.Texts.{HasProgram, IsStop};
ghost use Rattle.checked_runs.specs.Documents.{IsRefusedDocument, shape_told};
ghost use Rattle.view_top.specs.declared.options.View.TheVariants as view;
ghost use Rattle.view_top.specs.Answers.{last_number, page_ticks, view_made, AreDataFor, AreDataTold, IsPageFor, IsToldAsData};
ghost use Rattle.view_top.specs.Command.{IsDataInRange};
ghost use Rattle.view_top.specs.Kept.{AreKeptFinishes, IsMachineOf, IsViewable};

use crate::PageOptions;
use crate::answering::{Output, output, refused_words};
use crate::charts::last_number;
use crate::documents::{DocumentRun, KeptRun, begin_again, document_run};
use crate::pages::page_for;
use crate::status::ViewStatus;
use crate::timings::timing_on;
use dn_base::{Memory, Sequence};
use dn_machine::Machine;
use page_data::{RunData, run_data_text};
use run_report::Stop;
use run_timing::{Ticks, Timing, finish_events};
use std::alloc::Global;
use text_places::{Places, text_places};

/// The ticks that the options give to each kind of event.
fn data_ticks(options: &PageOptions) -> Ticks
    requires { IsDataInRange options.now }
    ensures value { result ≡ page_ticks options.now }
    ensures limits { AreWithinLimits result }
{
    Ticks::by_place(options.tick_core, options.tick_bank, options.tick_mail)
}

/// When each event of a run finishes, by these ticks, on the run's machine.
fn finishes_of(
    alloc: Global,
    kept: &KeptRun,
    machine: &mut Machine,
    ticks: &Ticks,
) -> Result<Sequence<u64>, Memory>
    requires kept { IsViewable kept.now }
    requires machine { IsMachineOf kept.now machine.old }
    requires ticks { AreWithinLimits ticks.now }
    ensures finishes { IfOk result (λ finishes. HasProgram kept.now.text (AreKeptFinishes kept.now ticks.now finishes)) }
    ensures machine { OnOk result (IsMachineOf kept.now machine.new) }
{
    begin_again(alloc, kept, machine)?;
    finish_events(alloc, machine, kept.run.events.as_slice(), ticks)
}

/// What the data of a run tell, as the options ask for it.
fn data_for<'a>(
    options: &PageOptions,
    kept: &'a KeptRun,
    timing: &'a Timing,
    places: &'a Places,
    finishes: &'a Sequence<u64>,
) -> RunData<'a>
    ensures page { IsPageFor options.now kept.now.text kept.now.run timing.now result.page }
    ensures places { result.places.now ≡ places.now.code }
    ensures finishes { result.finishes.now ≡ finishes.now }
{
    RunData {
        page: page_for(options, &kept.text, &kept.run, timing),
        places: places.code.as_slice(),
        finishes: finishes.as_slice(),
    }
}

/// The data of a run, made on its machine.
fn bytes_of(
    alloc: Global,
    kept: &KeptRun,
    machine: &mut Machine,
    told: &RunData<'_>,
) -> Result<Sequence<u8>, Memory>
    requires kept { IsViewable kept.now }
    requires machine { IsMachineOf kept.now machine.old }
    ensures { IfOk result (λ bytes. HasProgram kept.now.text (λ P. IsDataOf P (shape_told P kept.now.sizes) kept.now.sizes.fuel kept.now.run.events told.now bytes)) }
{
    begin_again(alloc, kept, machine)?;
    run_data_text(alloc, machine, kept.run.events.as_slice(), told)
}

/// The data of a run, as the options ask for them.
fn told_output(
    alloc: Global,
    options: &PageOptions,
    kept: &KeptRun,
    machine: &mut Machine,
) -> Result<Output, Memory>
    requires limits { IsDataInRange options.now }
    requires within { options.now.first ≤ last_number kept.now.run.events }
    requires kept { IsViewable kept.now }
    requires machine { IsMachineOf kept.now machine.old }
    ensures { IfOk result (λ out. HasProgram kept.now.text (λ P. AreDataTold P kept.now.sizes kept.now.text options.now kept.now.run out)) }
{
    let ticks = data_ticks(options);
    let timing = timing_on(alloc, kept, machine, &ticks)?;
    let finishes = finishes_of(alloc, kept, machine, &ticks)?;
    let places = text_places(alloc, kept.text.as_slice(), machine.program())?;
    let told = data_for(options, kept, &timing, &places, &finishes);
    let bytes = bytes_of(alloc, kept, machine, &told);
    // for the prover alone: one call drops the places, in place of the drops of all their parts at each exit
    drop(places);
    Ok(output(ViewStatus::Done, bytes?))
}

/// The data of a run, or the refusal of data that would begin after the run's last event.
fn asked_data(
    alloc: Global,
    options: &PageOptions,
    kept: &KeptRun,
    machine: &mut Machine,
) -> Result<Output, Memory>
    requires limits { IsDataInRange options.now }
    requires kept { IsViewable kept.now }
    requires machine { IsMachineOf kept.now machine.old }
    ensures { IfOk result (λ out. HasProgram kept.now.text (λ P. IsToldAsData P kept.now.sizes kept.now.text options.now kept.now.run out)) }
{
    if options.first as usize > last_number(kept.run.events.as_slice()) {
        return refused_words(alloc);
    }
    told_output(alloc, options, kept, machine)
}

/// The data of a trace's run.
pub(crate) fn data_document(
    alloc: Global,
    options: &PageOptions,
    document: &[u8],
) -> Result<Output, Stop>
    requires { IsDataInRange options.now }
    ensures made { IfOk result (view_made (view.Data options.now) document.now) }
    ensures stop { IfErr result (IsStop (IsRefusedDocument document.now)) }
{
    let told = document_run(alloc, document)?;
    let DocumentRun { kept, mut machine } = told;
    let written = asked_data(alloc, options, &kept, &mut machine);
    // for the prover alone: two calls drop the run and its machine, in place of the drops of all their parts at each exit
    drop(machine);
    drop(kept);
    Ok(written?)
}
