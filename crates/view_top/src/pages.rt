//! The mode page: the data of the page that shows a run in a browser.
ghost use Rattle.std.specs.Prelude.{◌≡◌, ◌≤◌, IfOk, IfErr};
ghost use Rattle.run_timing.specs.Ticks.{AreWithinLimits};
ghost use Rattle.page_data.specs.Page.{IsPageOf};
ghost use Rattle.run_report.specs.Texts.{HasProgram, IsStop};
ghost use Rattle.checked_runs.specs.Documents.{IsRefusedDocument, shape_told};
ghost use Rattle.view_top.specs.declared.options.View.TheVariants as view;
ghost use Rattle.view_top.specs.Answers.{last_number, page_ticks, view_made, IsPageData, IsPageFor, IsPaged};
ghost use Rattle.view_top.specs.Command.{IsPageInRange};
ghost use Rattle.view_top.specs.Kept.{IsMachineOf, IsViewable};

use crate::PageOptions;
use crate::answering::{Output, output, refused_words};
use crate::charts::last_number;
use crate::documents::{DocumentRun, KeptRun, begin_again, document_run};
use crate::status::ViewStatus;
use crate::timings::timing_on;
use dn_base::{Memory, Sequence};
use dn_machine::{Machine, RunRecord};
use page_data::{Page, page_text};
use run_report::Stop;
use run_timing::{Ticks, Timing};
use std::alloc::Global;

/// The ticks that the options give to each kind of event.
fn page_ticks(options: &PageOptions) -> Ticks
    requires { IsPageInRange options.now }
    ensures value { result ≡ page_ticks options.now }
    ensures limits { AreWithinLimits result }
{
    Ticks::by_place(options.tick_core, options.tick_bank, options.tick_mail)
}

/// The page of a run of a text, as the options ask for it.
pub(crate) fn page_for<'a>(
    options: &PageOptions,
    text: &'a Sequence<u8>,
    run: &'a RunRecord,
    timing: &'a Timing,
) -> Page<'a>
    ensures { IsPageFor options.now text.now run.now timing.now result }
{
    Page {
        name: b"",
        source: text.as_slice(),
        ending: &run.ending,
        counts: run.counts,
        tick_core: options.tick_core,
        tick_bank: options.tick_bank,
        tick_mail: options.tick_mail,
        timing,
        first: options.first,
        most: options.rows,
    }
}

/// The data of a page of a run, made on its machine.
fn bytes_of(
    alloc: Global,
    kept: &KeptRun,
    machine: &mut Machine,
    page: &Page<'_>,
) -> Result<Sequence<u8>, Memory>
    requires kept { IsViewable kept.now }
    requires machine { IsMachineOf kept.now machine.old }
    requires most { page.now.most ≤ 20000 }
    ensures { IfOk result (λ bytes. HasProgram kept.now.text (λ P. IsPageOf P (shape_told P kept.now.sizes) kept.now.sizes.fuel kept.now.run.events page.now bytes)) }
{
    begin_again(alloc, kept, machine)?;
    page_text(alloc, machine, kept.run.events.as_slice(), page)
}

/// The data of a run's page, as the options ask for it.
fn data(
    alloc: Global,
    options: &PageOptions,
    kept: &KeptRun,
    machine: &mut Machine,
) -> Result<Output, Memory>
    requires limits { IsPageInRange options.now }
    requires within { options.now.first ≤ last_number kept.now.run.events }
    requires kept { IsViewable kept.now }
    requires machine { IsMachineOf kept.now machine.old }
    ensures { IfOk result (λ out. HasProgram kept.now.text (λ P. IsPageData P kept.now.sizes kept.now.text options.now kept.now.run out)) }
{
    let timing = timing_on(alloc, kept, machine, &page_ticks(options))?;
    let page = page_for(options, &kept.text, &kept.run, &timing);
    let bytes = bytes_of(alloc, kept, machine, &page)?;
    Ok(output(ViewStatus::Done, bytes))
}

/// The data of a run's page, or the refusal of a page that would begin after the run's last event.
fn page(
    alloc: Global,
    options: &PageOptions,
    kept: &KeptRun,
    machine: &mut Machine,
) -> Result<Output, Memory>
    requires limits { IsPageInRange options.now }
    requires kept { IsViewable kept.now }
    requires machine { IsMachineOf kept.now machine.old }
    ensures { IfOk result (λ out. HasProgram kept.now.text (λ P. IsPaged P kept.now.sizes kept.now.text options.now kept.now.run out)) }
{
    if options.first as usize > last_number(kept.run.events.as_slice()) {
        return refused_words(alloc);
    }
    data(alloc, options, kept, machine)
}

/// The page of a trace's run.
pub(crate) fn page_document(
    alloc: Global,
    options: &PageOptions,
    document: &[u8],
) -> Result<Output, Stop>
    requires { IsPageInRange options.now }
    ensures made { IfOk result (view_made (view.Page options.now) document.now) }
    ensures stop { IfErr result (IsStop (IsRefusedDocument document.now)) }
{
    let told = document_run(alloc, document)?;
    let DocumentRun { kept, mut machine } = told;
    let paged = page(alloc, options, &kept, &mut machine);
    // for the prover alone: two calls drop the run and its machine, in place of the drops of all their parts at each exit
    drop(machine);
    drop(kept);
    Ok(paged?)
}
