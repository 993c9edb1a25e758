//! The mode chart: the message chart of a run.
ghost use Rattle.std.specs.Prelude.{◌≡◌, ◌≤◌, IfOk, IfErr, OnOk};
ghost use Rattle.run_timing.specs.Longest.{numbers_in};
ghost use Rattle.run_timing.specs.Ticks.{AreWithinLimits};
ghost use Rattle.run_chart.specs.Picture.{svg_of};
ghost use Rattle.run_chart.specs.Charts.{IsChartOf};
ghost use Rattle.run_report.specs.Texts.{HasProgram, IsStop};
ghost use Rattle.checked_runs.specs.Documents.{IsRefusedDocument, shape_told};
ghost use Rattle.view_top.specs.declared.options.View.TheVariants as view;
ghost use Rattle.view_top.specs.Answers.{chart_ticks, kept_by, last_number, located, made, range_for, view_made, IsDrawn, IsPicture};
ghost use Rattle.view_top.specs.Command.{IsChartInRange};
ghost use Rattle.view_top.specs.Kept.{IsKeptChain, IsMachineOf, IsViewable};

use crate::ChartOptions;
use crate::answering::{Output, done_with, refused_words};
use crate::documents::{DocumentRun, KeptRun, begin_again, document_run, located_on};
use crate::timings::timing_on;
use dn_base::{Memory, Sequence};
use dn_machine::Machine;
use message_net::Event;
use run_chart::{
    Chart, Charted, Columns, Range, chart, chart_text, columns_on, fitted, keeping_of, kept_chart,
};
use run_report::Stop;
use run_timing::{Link, Ticks};
use std::alloc::Global;
use text_places::Located;

/// The range of events that the options ask for.
fn range_for(options: &ChartOptions) -> Range
    ensures { result ≡ range_for options.now }
{
    Range {
        first: options.first,
        most: options.rows,
    }
}

/// The ticks that the options give to each kind of event.
fn chart_ticks(options: &ChartOptions) -> Ticks
    requires { IsChartInRange options.now }
    ensures value { result ≡ chart_ticks options.now }
    ensures limits { AreWithinLimits result }
{
    Ticks::by_place(options.tick_core, options.tick_bank, options.tick_mail)
}

/// The number of the last event; 0 where there is none.
pub(crate) fn last_number(events: &[Event]) -> usize
    ensures { result ≡ last_number events.now }
{
    events.len().saturating_sub(1)
}

/// The numbers of the links' events.
fn numbers_in(alloc: Global, links: &[Link]) -> Result<Sequence<u32>, Memory>
    ensures { IfOk result (λ numbers. numbers ≡ numbers_in links.now) }
{
    let mut numbers = Sequence::new(alloc);
    for link in links {
        numbers.push(link.event)?;
    }
    Ok(numbers)
}

/// The numbers of the events of a run's longest chain, by the options' ticks, on the run's machine.
fn chain_of(
    alloc: Global,
    options: &ChartOptions,
    kept: &KeptRun,
    machine: &mut Machine,
) -> Result<Sequence<u32>, Memory>
    requires limits { IsChartInRange options.now }
    requires kept { IsViewable kept.now }
    requires machine { IsMachineOf kept.now machine.old }
    ensures chain { IfOk result (λ chain. HasProgram kept.now.text (IsKeptChain kept.now (chart_ticks options.now) chain)) }
    ensures machine { OnOk result (IsMachineOf kept.now machine.new) }
{
    let timing = timing_on(alloc, kept, machine, &chart_ticks(options))?;
    numbers_in(alloc, timing.links.as_slice())
}

/// The chart of a run, made on its machine, with this range of events and this chain.
fn chart_of(
    alloc: Global,
    kept: &KeptRun,
    machine: Machine,
    range: Range,
    chain: &[u32],
    columns: Columns,
) -> Result<Charted, Memory>
    requires kept { IsViewable kept.now }
    requires machine { IsMachineOf kept.now machine }
    requires most { range.most ≤ 4096 }
    ensures chart { IfOk result (λ charted. HasProgram kept.now.text (λ P. IsChartOf P (shape_told P kept.now.sizes) kept.now.sizes.fuel kept.now.run.events range chain.now columns charted.chart)) }
    ensures machine { IfOk result (λ charted. IsMachineOf kept.now charted.machine) }
{
    let mut machine = machine;
    begin_again(alloc, kept, &mut machine)?;
    chart(
        alloc,
        machine,
        kept.run.events.as_slice(),
        range,
        chain,
        columns,
    )
}

/// The picture of what the options keep of a chart, with the names of a text.
fn picture_of(
    alloc: Global,
    options: &ChartOptions,
    chart: &Chart,
    text: &Located,
) -> Result<Vec<u8>, Memory>
    ensures { IfOk result (λ picture. picture.items ≡ svg_of (kept_by options.now text.now chart.now) text.now) }
{
    let picture = options.picture;
    let words = options.words.as_slice();
    let actors = options.actors.as_slice();
    let named = keeping_of(alloc, picture.plain, words, actors, text, chart.shape)?;
    let keeping = fitted(alloc, chart, &named, picture.fit)?;
    let columns = columns_on(picture.fit, picture.columns);
    let kept = kept_chart(alloc, chart, &keeping, columns, picture.fit, text)?;
    chart_text(alloc, &kept, text)
}

/// What the options keep of a chart drawn, with the names that its machine's program has in the text.
fn draw_named(
    alloc: Global,
    options: &ChartOptions,
    kept: &KeptRun,
    charted: Charted,
) -> Result<Output, Memory>
    requires { IsMachineOf kept.now charted.machine }
    ensures { IfOk result (λ out. HasProgram kept.now.text (λ P. out ≡ made (svg_of (kept_by options.now (located P kept.now.text) charted.chart) (located P kept.now.text)))) }
{
    let Charted { chart, machine } = charted;
    let located = located_on(alloc, kept, machine)?;
    let picture = picture_of(alloc, options, &chart, &located);
    // for the prover alone: one call drops the names and the program, in place of the drops of all their parts at each exit
    drop(located);
    Ok(done_with(picture?))
}

/// The picture of a run's chart, made on the run's machine.
fn picture(
    alloc: Global,
    options: &ChartOptions,
    kept: &KeptRun,
    machine: Machine,
) -> Result<Output, Memory>
    requires limits { IsChartInRange options.now }
    requires within { options.now.first ≤ last_number kept.now.run.events }
    requires kept { IsViewable kept.now }
    requires machine { IsMachineOf kept.now machine }
    ensures { IfOk result (λ out. HasProgram kept.now.text (λ P. IsPicture (located P kept.now.text) kept.now.sizes options.now kept.now.run.events out)) }
{
    let mut machine = machine;
    let chain = chain_of(alloc, options, kept, &mut machine)?;
    let charted = chart_of(
        alloc,
        kept,
        machine,
        range_for(options),
        chain.as_slice(),
        options.picture.columns,
    )?;
    draw_named(alloc, options, kept, charted)
}

/// The picture of a run's chart, or the refusal of a picture that would begin after the run's last event.
fn draw(
    alloc: Global,
    options: &ChartOptions,
    kept: &KeptRun,
    machine: Machine,
) -> Result<Output, Memory>
    requires limits { IsChartInRange options.now }
    requires kept { IsViewable kept.now }
    requires machine { IsMachineOf kept.now machine }
    ensures { IfOk result (λ out. HasProgram kept.now.text (λ P. IsDrawn (located P kept.now.text) kept.now.sizes options.now kept.now.run out)) }
{
    if options.first as usize > last_number(kept.run.events.as_slice()) {
        // for the prover alone: one call drops the machine, in place of the drops of all its parts
        drop(machine);
        return refused_words(alloc);
    }
    picture(alloc, options, kept, machine)
}

/// The chart of a trace's run.
pub(crate) fn draw_document(
    alloc: Global,
    options: &ChartOptions,
    document: &[u8],
) -> Result<Output, Stop>
    requires { IsChartInRange options.now }
    ensures made { IfOk result (view_made (view.Chart options.now) document.now) }
    ensures stop { IfErr result (IsStop (IsRefusedDocument document.now)) }
{
    let told = document_run(alloc, document)?;
    let DocumentRun { kept, machine } = told;
    let drawn = draw(alloc, options, &kept, machine);
    // for the prover alone, as in `draw_named`
    drop(kept);
    Ok(drawn?)
}
