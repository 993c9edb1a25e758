ghost use Rattle.std.specs.Prelude.{◌≡◌, ◌++◌, flat_map, None, IfOk, OnOk};
ghost use Rattle.run_chart.specs.Picture.{arrow, bands, chain_begin, chain_path, lanes, leaving_arrow, leaving_words, opening, row_words, svg_of, waiting_words};

use crate::head::{push_bands, push_lanes, push_opening};
use crate::parts::Chart;
use crate::rows::{
    push_arrows, push_leaving_arrows, push_leaving_mails, push_points, push_rows,
    push_waiting_tasks,
};
use dn_base::Memory;
use std::alloc::Global;
use text_pieces::push;
use text_places::Located;

#[tactic(auto, unfolding(crate::specs::Picture::chain_begin))]
fn push_chain_begin(out: &mut Vec<u8>) -> Result<(), Memory>
    ensures { OnOk result (out.new.items ≡ out.old.items ++ chain_begin) }
{
    push(out, b"<polyline class='denovo-path' points='")
}

/// Adds the line through the chain's events.
#[tactic(auto, unfolding(crate::specs::Picture::chain_path))]
fn push_chain_line(out: &mut Vec<u8>, chart: &Chart) -> Result<(), Memory>
    ensures { OnOk result (out.new.items ≡ out.old.items ++ chain_path chart.now) }
{
    push_chain_begin(out)?;
    push_points(out, chart, chart.rows.as_slice())?;
    push(out, b"'/>\n")
}

/// Adds the line through the chain's events and the arrows.
fn push_lines(out: &mut Vec<u8>, chart: &Chart) -> Result<(), Memory>
    ensures { OnOk result (out.new.items ≡ out.old.items ++ (chain_path chart.now ++ flat_map (arrow chart.now) chart.now.rows ++ flat_map (leaving_arrow chart.now) chart.now.leaving)) }
{
    push_chain_line(out, chart)?;
    push_arrows(out, chart, chart.rows.as_slice())?;
    push_leaving_arrows(out, chart, chart.leaving.as_slice())
}

/// Adds the ground, the bands and the columns.
fn push_below(out: &mut Vec<u8>, chart: &Chart) -> Result<(), Memory>
    ensures { OnOk result (out.new.items ≡ out.old.items ++ (opening chart.now ++ bands chart.now None chart.now.rows ++ lanes chart.now)) }
{
    push_opening(out, chart)?;
    push_bands(out, chart, chart.rows.as_slice())?;
    push_lanes(out, chart)
}

/// Adds the words.
fn push_words(out: &mut Vec<u8>, chart: &Chart, text: &Located) -> Result<(), Memory>
    ensures { OnOk result (out.new.items ≡ out.old.items ++ (flat_map (row_words chart.now text.now) chart.now.rows ++ flat_map (leaving_words chart.now text.now) chart.now.leaving ++ flat_map (waiting_words chart.now text.now) chart.now.waiting)) }
{
    push_rows(out, chart, text, chart.rows.as_slice())?;
    push_leaving_mails(out, chart, text, chart.leaving.as_slice())?;
    push_waiting_tasks(out, chart, text, chart.waiting.as_slice())
}

/// Adds the picture.
#[tactic(auto, unfolding(crate::specs::Picture::svg_of))]
fn push_picture(out: &mut Vec<u8>, chart: &Chart, text: &Located) -> Result<(), Memory>
    ensures { OnOk result (out.new.items ≡ out.old.items ++ svg_of chart.now text.now) }
{
    push_below(out, chart)?;
    push_lines(out, chart)?;
    push_words(out, chart, text)?;
    push(out, b"</svg>\n")
}

/// The chart as a picture, the text of an SVG document. It has a title with the machine's size, a legend, bands for the phases,
/// the actors' columns, a line through the chain's events with a ring around each, and an arrow for each message. Each event has
/// its number, its actor and what it is, how its task ends, and how it changes words. After the rows come the messages that no
/// event of the chart handles, and the tasks that wait for a lock.
///
/// The names of words and locks, and the instructions with their lines, are those of the given text; it must be the text of the
/// chart's run.
///
/// # Errors
/// `Memory` where there is no room for the picture.
pub fn chart_text(alloc: Global, chart: &Chart, text: &Located) -> Result<Vec<u8>, Memory>
    ensures { IfOk result (λ picture. picture.items ≡ svg_of chart.now text.now) }
{
    let mut out = Vec::new(alloc);
    push_picture(&mut out, chart, text)?;
    Ok(out)
}
