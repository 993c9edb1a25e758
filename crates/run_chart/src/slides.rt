//! What a slide shows of a chart: as many events as have room, from the first one on that is no plain instruction.
ghost use Rattle.std.specs.Prelude.{◌≡◌, ◌≤◌, slice_get, IfOk};
ghost use Rattle.run_chart.specs.Keeping.{kept_rows};
ghost use Rattle.run_chart.specs.Slides.{columns_on, event_or, first_place, from_first, slide_fits, fitted, fits_on_slide, is_shown_first, most_rows, on_slide, slide_of, window_of, within_rows};

use crate::finishing::Columns;
use crate::keeping::{Keeping, Window, chart_with, is_plain};
use crate::parts::{Chart, ChartRow, Fit};
use dn_base::{Memory, Sequence};
use message_net::Actor;
use std::alloc::Global;

/// How many lines have room on a slide.
const SLIDE_LINES: u32 = 31;

/// How many cores and banks have room on it.
const SLIDE_COLUMNS: u64 = 5;

/// The columns of a picture: on a slide only those that are used.
pub fn columns_on(fit: Fit, columns: Columns) -> Columns
    ensures { result ≡ columns_on fit columns }
{
    match fit {
        Fit::Rows => columns,
        Fit::Slide => Columns::Used,
    }
}

/// Whether a slide may begin with a row.
fn is_shown_first(row: &ChartRow) -> bool
    ensures { result ≡ is_shown_first row.now }
{
    !is_plain(row)
}

/// The place of the first row with which a slide may begin, if there is one.
fn first_place(rows: &[ChartRow]) -> Option<usize>
    ensures { result ≡ first_place rows.now }
{
    rows.iter().position(|row| is_shown_first(row))
}

/// The rows from there on; all rows where there is none.
#[tactic(auto, using(crate::proofs::Fitting::place_within))]
fn from_first(rows: &[ChartRow]) -> &[ChartRow]
    ensures { result.now ≡ from_first rows.now }
{
    match first_place(rows) {
        Some(place) => &rows[place..],
        None => rows,
    }
}

/// The event of the row at a place; the number of events where there is no row.
fn event_at(rows: &[ChartRow], place: usize, events: u32) -> u32
    ensures { result ≡ event_or events (slice_get rows.now place) }
{
    match rows.get(place) {
        Some(row) => row.event,
        None => events,
    }
}

/// The window of so many rows.
fn window_of(rows: &[ChartRow], events: u32, count: usize) -> Window
    ensures { result ≡ window_of rows.now events count }
{
    Window {
        first: event_at(rows, 0, events),
        behind: event_at(rows, count, events),
    }
}

/// The same flags once more.
fn copy_of(alloc: Global, flags: &Sequence<bool>) -> Result<Sequence<bool>, Memory>
    ensures { IfOk result (λ copy. copy ≡ flags.now) }
{
    Ok(Sequence::from_vec(Vec::from_slice(alloc, flags.as_slice())?))
}

/// What is kept, in another window.
fn with_window(alloc: Global, keeping: &Keeping, window: Option<Window>) -> Result<Keeping, Memory>
    ensures { IfOk result (λ kept. kept ≡ record keeping.now { window = window }) }
{
    Ok(Keeping {
        plain: keeping.plain,
        later_words: copy_of(alloc, &keeping.later_words)?,
        words: copy_of(alloc, &keeping.words)?,
        actors: copy_of(alloc, &keeping.actors)?,
        window,
    })
}

/// What is kept in the window of so many of these rows, which are those that are kept, from the first one on.
fn within_rows(
    alloc: Global,
    chart: &Chart,
    keeping: &Keeping,
    rows: &[ChartRow],
    count: usize,
) -> Result<Keeping, Memory>
    requires { rows.now ≡ from_first (kept_rows keeping.now chart.now) }
    ensures { IfOk result (λ kept. kept ≡ within_rows keeping.now chart.now count) }
{
    with_window(alloc, keeping, Some(window_of(rows, chart.events, count)))
}

/// The slide of what is kept.
fn slide_of(alloc: Global, chart: &Chart, keeping: &Keeping) -> Result<Chart, Memory>
    ensures { IfOk result (λ slide. slide ≡ slide_of keeping.now chart.now) }
{
    let (placed, line) = keeping.rows(alloc, chart.shape, chart.rows.as_slice())?;
    chart_with(
        alloc,
        chart,
        keeping,
        Columns::Used,
        Fit::Slide,
        Sequence::new(alloc),
        placed.as_slice(),
        line,
    )
}

/// Whether a slide has room for a chart.
fn fits_on_slide(chart: &Chart) -> bool
    ensures { result ≡ fits_on_slide chart.now }
{
    chart.lines <= SLIDE_LINES && chart.place_of(Actor::Keeper) <= SLIDE_COLUMNS
}

/// Whether a slide has room for what is kept.
fn slide_fits(alloc: Global, chart: &Chart, keeping: &Keeping) -> Result<bool, Memory>
    ensures { IfOk result (λ fit. fit ≡ slide_fits keeping.now chart.now) }
{
    let slide = slide_of(alloc, chart, keeping)?;
    Ok(fits_on_slide(&slide))
}

/// Whether a slide has room for so many of these rows.
fn fits_rows(
    alloc: Global,
    chart: &Chart,
    keeping: &Keeping,
    rows: &[ChartRow],
    count: usize,
) -> Result<bool, Memory>
    requires { rows.now ≡ from_first (kept_rows keeping.now chart.now) }
    ensures { IfOk result (λ fit. fit ≡ slide_fits (within_rows keeping.now chart.now count) chart.now) }
{
    let kept = within_rows(alloc, chart, keeping, rows, count)?;
    slide_fits(alloc, chart, &kept)
}

/// The most of these rows that have room.
fn most_rows(
    alloc: Global,
    chart: &Chart,
    keeping: &Keeping,
    rows: &[ChartRow],
) -> Result<usize, Memory>
    requires { rows.now ≡ from_first (kept_rows keeping.now chart.now) }
    ensures { IfOk result (λ count. count ≡ most_rows keeping.now chart.now 31) }
{
    for fewer in 0..31 {
        let count = 31 - fewer;
        let fit = fits_rows(alloc, chart, keeping, rows, count)?;
        if fit {
            return Ok(count);
        }
    }
    Ok(1)
}

/// What is kept in the window of the most of these rows that have room.
fn most_on_slide(
    alloc: Global,
    chart: &Chart,
    keeping: &Keeping,
    rows: &[ChartRow],
) -> Result<Keeping, Memory>
    requires { rows.now ≡ from_first (kept_rows keeping.now chart.now) }
    ensures { IfOk result (λ kept. kept ≡ within_rows keeping.now chart.now (most_rows keeping.now chart.now 31)) }
{
    let count = most_rows(alloc, chart, keeping, rows)?;
    within_rows(alloc, chart, keeping, rows, count)
}

/// What is kept of a chart on a slide.
fn on_slide(alloc: Global, chart: &Chart, keeping: &Keeping) -> Result<Keeping, Memory>
    ensures { IfOk result (λ kept. kept ≡ on_slide keeping.now chart.now) }
{
    let fit = slide_fits(alloc, chart, keeping)?;
    if fit {
        return with_window(alloc, keeping, keeping.window);
    }
    let (kept, _line) = keeping.rows(alloc, chart.shape, chart.rows.as_slice())?;
    most_on_slide(alloc, chart, keeping, from_first(kept.as_slice()))
}

/// What is kept of a chart on a picture of a size.
///
/// On a slide it is no more than has room: 31 lines with the messages that leave it and the tasks that wait, and columns of five cores
/// and banks. Where more is asked for, a slide shows as many of the events as have room, from the first one on that is no plain instruction; a single event is shown even
/// where it has no room.
///
/// # Errors
/// `Memory` where there is no room.
pub fn fitted(alloc: Global, chart: &Chart, keeping: &Keeping, fit: Fit) -> Result<Keeping, Memory>
    ensures { IfOk result (λ kept. kept ≡ fitted fit keeping.now chart.now) }
{
    match fit {
        Fit::Rows => with_window(alloc, keeping, keeping.window),
        Fit::Slide => on_slide(alloc, chart, keeping),
    }
}
