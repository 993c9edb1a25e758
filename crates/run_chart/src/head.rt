//! What stands before the rows: the trace's head, the bands of the phases and the columns.
ghost use Rattle.std.specs.Prelude.{◌≡◌, ◌≤◌, ◌++◌, codes, flat_map, None, OnOk};
ghost use Rattle.std.specs.List.{range_with_len};
ghost use Rattle.run_chart.specs.Elements.{words_at};
ghost use Rattle.run_chart.specs.Labels.{actor_name, machine_text, named, title_text};
ghost use Rattle.run_chart.specs.Picture.{band, bands, description, ground, heading, is_of_phase, lane, lane_at, lanes, legend, meaning, opening, phase_begin, phase_if_new, sizes, style, svg_begin, title_element, view_box, view_box_begin, height, width};

use crate::elements::{
    Point, TOP, push_attribute, push_level, push_rectangle, push_upright, push_words_begin,
    push_words_end, y_of,
};
use crate::labels::{push_actor, push_machine, push_title};
use crate::parts::{Chart, ChartRow};
use crate::places::{MOST_ACTORS, actor_with};
use dn_base::{Memory, PhaseId};
use message_net::Actor;
use text_pieces::Piece::{Bytes, Long, Number};
use text_pieces::{push, push_long, push_pieces};

/// Adds how the classes of elements look.
#[tactic(auto, unfolding(crate::specs::Picture::style))]
fn push_style(out: &mut Vec<u8>) -> Result<(), Memory>
    ensures { OnOk result (out.new.items ≡ out.old.items ++ style) }
{
    push(
        out,
        b"<style>.denovo-chart{color-scheme:light dark}.denovo-ground{fill:#fff}.denovo-odd{fill:#edf2f7}.denovo-rule{stroke:#7d8b99}.denovo-lane{stroke:#b4bac0}\n.denovo-mail,.denovo-cut{stroke:#26598c;fill:none}.denovo-cut{stroke-dasharray:7 4}.denovo-event,.denovo-head{fill:#26598c}\n.denovo-path{stroke:#f93;stroke-width:7;stroke-opacity:.45;stroke-linejoin:round;fill:none}.denovo-ring{stroke:#b34700;stroke-width:2;fill:none}\n.denovo-text{fill:#1c2126;paint-order:stroke;stroke:#fff;stroke-width:4;stroke-linejoin:round}.denovo-left{text-anchor:end}\n.denovo-title{font-size:15px}.denovo-actor{font-weight:bold;text-anchor:middle}.denovo-number{fill:#4d565f}.denovo-change{fill:#832a00}\n.denovo-end{fill:#8c0d0d;font-weight:bold}\n@media screen and (prefers-color-scheme:dark){.denovo-ground{fill:#14181d}.denovo-odd{fill:#1e2731}.denovo-rule{stroke:#7d8b99}.denovo-lane{stroke:#545d66}\n.denovo-mail,.denovo-cut{stroke:#86b9ec}.denovo-event,.denovo-head{fill:#86b9ec}.denovo-path{stroke-opacity:.4}.denovo-ring{stroke:#ffb454}\n.denovo-text{fill:#e6e9ec;stroke:#14181d}.denovo-number{fill:#aab4be}.denovo-change{fill:#ffb489}.denovo-end{fill:#ff9d9d}}</style>\n",
    )
}

/// Adds what the marks mean.
#[tactic(auto, unfolding(crate::specs::Picture::legend))]
fn push_legend(out: &mut Vec<u8>) -> Result<(), Memory>
    ensures { OnOk result (out.new.items ≡ out.old.items ++ legend) }
{
    push(
        out,
        b"<circle class='denovo-event' cx='14' cy='60' r='4'/><text class='denovo-text' x='26' y='64'>event</text>\n<circle class='denovo-ring' cx='84' cy='60' r='8'/><text class='denovo-text' x='98' y='64'>on the longest chain</text>\n<path class='denovo-mail' d='M254 60H282'/><path class='denovo-head' d='M290 60l-8 -4v8z'/><text class='denovo-text' x='296' y='64'>mail</text>\n<path class='denovo-cut' d='M342 60H370'/><path class='denovo-head' d='M378 60l-8 -4v8z'/><text class='denovo-text' x='384' y='64'>mail from before or to behind the range</text>\n<text class='denovo-text denovo-change' x='682' y='64'>word: before &#8594; after</text>\n",
    )
}

/// Adds what columns, rows and arrows are.
#[tactic(auto, unfolding(crate::specs::Picture::meaning))]
fn push_meaning(out: &mut Vec<u8>) -> Result<(), Memory>
    ensures { OnOk result (out.new.items ≡ out.old.items ++ meaning) }
{
    push(
        out,
        b". Each column is a core, a bank, or the keeper of the phases. Each row is an event of the run, in their order. An arrow leads from the event that sent a mail to the event that handles it.",
    )
}

/// Begins the trace.
#[tactic(auto, unfolding(crate::specs::Picture::svg_begin))]
fn push_svg_begin(out: &mut Vec<u8>) -> Result<(), Memory>
    ensures { OnOk result (out.new.items ≡ out.old.items ++ svg_begin) }
{
    push(
        out,
        b"<svg xmlns='http://www.w3.org/2000/svg' class='denovo-chart' role='img' font-family='monospace' font-size='12'",
    )
}

#[tactic(auto, unfolding(crate::specs::Picture::view_box_begin))]
fn push_view_box_begin(out: &mut Vec<u8>) -> Result<(), Memory>
    ensures { OnOk result (out.new.items ≡ out.old.items ++ view_box_begin) }
{
    push(out, b" viewBox='0 0 ")
}

#[tactic(auto, unfolding(crate::specs::Picture::view_box))]
fn push_view_box(out: &mut Vec<u8>, width: u64, height: u64) -> Result<(), Memory>
    ensures { OnOk result (out.new.items ≡ out.old.items ++ view_box width height) }
{
    push_view_box_begin(out)?;
    push_long(out, width)?;
    push(out, b" ")?;
    push_long(out, height)?;
    push(out, b"'>\n")
}

/// Adds the picture's size, and ends the first element's attributes.
#[tactic(auto, unfolding(crate::specs::Picture::sizes))]
fn push_sizes(out: &mut Vec<u8>, chart: &Chart) -> Result<(), Memory>
    ensures { OnOk result (out.new.items ≡ out.old.items ++ sizes chart.now) }
{
    push_attribute(out, b"width", chart.shown_width())?;
    push_attribute(out, b"height", chart.shown_height())?;
    push_view_box(out, chart.width(), chart.height())
}

/// Adds the title that a reader of the screen reads out.
#[tactic(auto, unfolding(crate::specs::Picture::title_element))]
fn push_title_element(out: &mut Vec<u8>, chart: &Chart) -> Result<(), Memory>
    ensures { OnOk result (out.new.items ≡ out.old.items ++ title_element chart.now) }
{
    push(out, b"<title>")?;
    push_title(out, chart)?;
    push(out, b"</title>\n")
}

/// Adds what it reads out of the picture.
#[tactic(auto, unfolding(crate::specs::Picture::description))]
fn push_description(out: &mut Vec<u8>, chart: &Chart) -> Result<(), Memory>
    ensures { OnOk result (out.new.items ≡ out.old.items ++ description chart.now) }
{
    push(out, b"<desc>")?;
    push_machine(out, chart.shape, chart.fuel)?;
    push_meaning(out)?;
    push(out, b"</desc>\n")
}

/// Adds the ground.
#[tactic(auto, unfolding(crate::specs::Picture::ground))]
fn push_ground(out: &mut Vec<u8>, width: u64, height: u64) -> Result<(), Memory>
    ensures { OnOk result (out.new.items ≡ out.old.items ++ ground width height) }
{
    push(out, b"<rect class='denovo-ground'")?;
    push_attribute(out, b"width", width)?;
    push_attribute(out, b"height", height)?;
    push(out, b"/>\n")
}

/// Adds the title.
fn push_title_words(out: &mut Vec<u8>, chart: &Chart) -> Result<(), Memory>
    ensures { OnOk result (out.new.items ≡ out.old.items ++ words_at (codes "title") 8 22 (title_text chart.now)) }
{
    push_words_begin(out, b"title", Point { x: 8, y: 22 })?;
    push_title(out, chart)?;
    push_words_end(out)
}

/// Adds the machine's size.
fn push_size_words(out: &mut Vec<u8>, chart: &Chart) -> Result<(), Memory>
    ensures { OnOk result (out.new.items ≡ out.old.items ++ words_at (codes "size") 8 40 (machine_text chart.now.shape chart.now.fuel)) }
{
    push_words_begin(out, b"size", Point { x: 8, y: 40 })?;
    push_machine(out, chart.shape, chart.fuel)?;
    push_words_end(out)
}

/// Adds the title and the machine's size.
#[tactic(auto, unfolding(crate::specs::Picture::heading))]
fn push_heading(out: &mut Vec<u8>, chart: &Chart) -> Result<(), Memory>
    ensures { OnOk result (out.new.items ≡ out.old.items ++ heading chart.now) }
{
    push_title_words(out, chart)?;
    push_size_words(out, chart)
}

/// Adds what the trace begins with, and its descriptions.
fn push_document(out: &mut Vec<u8>, chart: &Chart) -> Result<(), Memory>
    ensures { OnOk result (out.new.items ≡ out.old.items ++ (svg_begin ++ sizes chart.now ++ title_element chart.now ++ description chart.now)) }
{
    push_svg_begin(out)?;
    push_sizes(out, chart)?;
    push_title_element(out, chart)?;
    push_description(out, chart)
}

/// Adds the style, and what stands in the picture above the columns.
fn push_above(out: &mut Vec<u8>, chart: &Chart) -> Result<(), Memory>
    ensures { OnOk result (out.new.items ≡ out.old.items ++ (style ++ ground (width chart.now) (height chart.now) ++ heading chart.now ++ legend)) }
{
    push_style(out)?;
    push_ground(out, chart.width(), chart.height())?;
    push_heading(out, chart)?;
    push_legend(out)
}

/// Adds what stands before the bands.
#[tactic(auto, unfolding(crate::specs::Picture::opening))]
pub(crate) fn push_opening(out: &mut Vec<u8>, chart: &Chart) -> Result<(), Memory>
    ensures { OnOk result (out.new.items ≡ out.old.items ++ opening chart.now) }
{
    push_document(out, chart)?;
    push_above(out, chart)
}

/// Adds a row's part of the band of its phase, if that phase has one.
fn push_band(out: &mut Vec<u8>, chart: &Chart, row: &ChartRow) -> Result<(), Memory>
    ensures { OnOk result (out.new.items ≡ out.old.items ++ band chart.now row.now) }
{
    if row.phase.0 % 2 == 1 {
        push_rectangle(
            out,
            b"odd",
            y_of(row.line) - 9,
            chart.width(),
            18 * row.lines as u64,
        )
    } else {
        Ok(())
    }
}

/// Adds the number of a phase at a point.
#[tactic(auto, unfolding(crate::specs::Elements::attribute, crate::specs::Elements::words_begin, crate::specs::Elements::words_end, crate::specs::Labels::named))]
fn push_phase_number(out: &mut Vec<u8>, at: Point, phase: PhaseId) -> Result<(), Memory>
    ensures { OnOk result (out.new.items ≡ out.old.items ++ words_at (codes "left denovo-number") at.x at.y (named (codes "phase") phase.0)) }
{
    push_pieces(
        out,
        &[
            Bytes(b"<text class='denovo-text denovo-left denovo-number' x='"),
            Long(at.x),
            Bytes(b"' y='"),
            Long(at.y),
            Bytes(b"'>phase "),
            Number(phase.0),
            Bytes(b"</text>\n"),
        ],
    )
}

/// Adds the line and the number of a phase above a row.
#[tactic(auto, unfolding(crate::specs::Picture::phase_begin))]
fn push_phase_begin(out: &mut Vec<u8>, chart: &Chart, row: &ChartRow) -> Result<(), Memory>
    ensures { OnOk result (out.new.items ≡ out.old.items ++ phase_begin chart.now row.now) }
{
    let at = Point {
        x: chart.width() - 8,
        y: y_of(row.line) + 4,
    };
    push_level(out, b"rule", y_of(row.line) - 9, chart.width())?;
    push_phase_number(out, at, row.phase)
}

/// Whether the row before is of this phase.
fn is_of_phase(before: Option<PhaseId>, phase: PhaseId) -> bool
    ensures { result ≡ is_of_phase before phase }
{
    match before {
        Some(before) => before.0 == phase.0,
        None => false,
    }
}

/// The same where the row before isn't of this phase.
fn push_phase_if_new(
    out: &mut Vec<u8>,
    chart: &Chart,
    before: Option<PhaseId>,
    row: &ChartRow,
) -> Result<(), Memory>
    ensures { OnOk result (out.new.items ≡ out.old.items ++ phase_if_new chart.now before row.now) }
{
    if is_of_phase(before, row.phase) {
        Ok(())
    } else {
        push_phase_begin(out, chart, row)
    }
}

/// Adds what follows a row.
fn push_band_row(
    out: &mut Vec<u8>,
    chart: &Chart,
    before: Option<PhaseId>,
    row: &ChartRow,
) -> Result<(), Memory>
    ensures { OnOk result (out.new.items ≡ out.old.items ++ (band chart.now row.now ++ phase_if_new chart.now before row.now)) }
{
    push_band(out, chart, row)?;
    push_phase_if_new(out, chart, before, row)
}

/// Adds the bands of the phases.
pub(crate) fn push_bands(out: &mut Vec<u8>, chart: &Chart, rows: &[ChartRow]) -> Result<(), Memory>
    ensures { OnOk result (out.new.items ≡ out.old.items ++ bands chart.now None rows.now) }
{
    let mut before = None;
    for row in rows {
        push_band_row(out, chart, before, row)?;
        before = Some(row.phase);
    }
    Ok(())
}

/// Adds the name of an actor above its column.
fn push_actor_words(out: &mut Vec<u8>, x: u64, actor: Actor) -> Result<(), Memory>
    ensures { OnOk result (out.new.items ≡ out.old.items ++ words_at (codes "actor") x 96 (actor_name actor)) }
{
    push_words_begin(out, b"actor", Point { x, y: 96 })?;
    push_actor(out, actor)?;
    push_words_end(out)
}

/// Adds the column of an actor, under its name.
#[tactic(auto, unfolding(crate::specs::Picture::lane))]
fn push_lane(out: &mut Vec<u8>, chart: &Chart, actor: Actor) -> Result<(), Memory>
    ensures { OnOk result (out.new.items ≡ out.old.items ++ lane chart.now actor) }
{
    let x = chart.column(actor);
    push_actor_words(out, x, actor)?;
    push_upright(out, b"lane", Point { x, y: TOP }, chart.bottom())
}

/// Adds the column of the core or bank with an index, if it has one.
fn push_lane_at(out: &mut Vec<u8>, chart: &Chart, index: usize) -> Result<(), Memory>
    ensures { OnOk result (out.new.items ≡ out.old.items ++ lane_at chart.now index) }
{
    if chart.is_shown(index) {
        push_lane(out, chart, actor_with(chart.shape, index as u64))
    } else {
        Ok(())
    }
}

/// Adds the columns of the cores and banks that have one.
fn push_shown_lanes(out: &mut Vec<u8>, chart: &Chart) -> Result<(), Memory>
    ensures { OnOk result (out.new.items ≡ out.old.items ++ flat_map (lane_at chart.now) (range_with_len 0 32)) }
{
    for index in 0..MOST_ACTORS {
        push_lane_at(out, chart, index)?;
    }
    Ok(())
}

/// Adds the columns of all actors.
#[tactic(auto, unfolding(crate::specs::Picture::lanes))]
pub(crate) fn push_lanes(out: &mut Vec<u8>, chart: &Chart) -> Result<(), Memory>
    ensures { OnOk result (out.new.items ≡ out.old.items ++ lanes chart.now) }
{
    push_shown_lanes(out, chart)?;
    push_lane(out, chart, Actor::Keeper)
}
