//! Where the columns and rows stand.
ghost use Rattle.std.specs.Prelude.{◌≡◌, ◌*◌, ◌≤◌, ◌&&◌, nat_lt, if◌then◌else◌};
ghost use Rattle.run_chart.specs.Elements.{x_of, y_of};
ghost use Rattle.run_chart.specs.Picture.{bottom, height, ninth, room, shown_height, shown_width, width};
ghost use Rattle.run_chart.specs.Places.{actor_with, column, is_shown, place_of, shown_below};

use crate::elements::{Point, x_of, y_of};
use crate::parts::{Chart, ChartRow, Fit};
use dn_base::{BankId, CoreId, Shape};
use message_net::Actor;

/// How many cores and banks there may be.
pub(crate) const MOST_ACTORS: usize = 32;

/// The actor with an index: cores come first, then banks, then the barrier controller.
pub(crate) fn actor_with(shape: Shape, index: u64) -> Actor
    ensures { result ≡ actor_with shape index }
{
    let cores = shape.cores as u64;
    if index < cores {
        Actor::Core(CoreId(index as u32))
    } else if index < cores + shape.banks as u64 {
        Actor::Bank(BankId((index - cores) as u32))
    } else {
        Actor::Keeper
    }
}

fn one_if(counts: bool) -> u64
    ensures value { result ≡ (if counts then 1 else 0) }
    ensures most { result ≤ 1 }
{
    if counts { 1 } else { 0 }
}

/// The least number of which 16 times is as wide and 9 times as high.
fn ninth(wide: u64, high: u64) -> u64
    requires wide { wide ≤ 1000000000000 }
    requires high { high ≤ 1000000000000 }
    ensures value { result ≡ ninth wide high }
    ensures least { wide ≤ 16 * result }
    ensures most { result ≤ 200000000000 }
{
    let columns = (wide + 15) / 16;
    let rows = (high + 8) / 9;
    if columns < rows { rows } else { columns }
}

impl Chart {
    /// Whether the core or bank with an index has a column.
    pub(crate) fn is_shown(&self, index: usize) -> bool
        ensures { result ≡ is_shown self.now.shown index }
    {
        match self.shown.get(index) {
            Some(shown) => *shown,
            None => false,
        }
    }

    /// Whether it has one and a lower index than another one.
    fn is_below(&self, index: usize, other: usize) -> bool
        ensures { result ≡ (nat_lt index other && is_shown self.now.shown index) }
    {
        index < other && self.is_shown(index)
    }

    /// How many with a lower index have one.
    fn shown_below(&self, index: usize) -> u64
        ensures value { result ≡ shown_below self.now.shown index }
        ensures most { result ≤ 32 }
    {
        let mut count = 0;
        for other in 0..MOST_ACTORS {
            count += one_if(self.is_below(other, index));
        }
        count
    }

    /// The place of an actor's column.
    pub(crate) fn place_of(&self, actor: Actor) -> u64
        ensures value { result ≡ place_of self.now actor }
        ensures most { result ≤ 32 }
    {
        self.shown_below(actor.index(self.shape.cores, self.shape.banks))
    }

    /// The middle of an actor's column.
    pub(crate) fn column(&self, actor: Actor) -> u64
        ensures value { result ≡ column self.now actor }
        ensures least { 300 ≤ result }
        ensures most { result ≤ 4524 }
    {
        x_of(self.place_of(actor))
    }

    /// The dot of a row.
    pub(crate) fn dot(&self, row: &ChartRow) -> Point
        ensures x { result.x ≡ column self.now row.now.actor }
        ensures y { result.y ≡ y_of row.now.line }
        ensures least_x { 300 ≤ result.x }
        ensures most_x { result.x ≤ 4524 }
        ensures least_y { 130 ≤ result.y }
        ensures most_y { result.y ≤ 77309411440 }
    {
        Point {
            x: self.column(row.actor),
            y: y_of(row.line),
        }
    }

    /// How wide the columns are, with room for words after the last of them.
    fn room(&self) -> u64
        ensures value { result ≡ room self.now }
        ensures least { 600 ≤ result }
        ensures most { result ≤ 4824 }
    {
        self.column(Actor::Keeper) + 300
    }

    /// Where the columns end.
    pub(crate) fn bottom(&self) -> u64
        ensures value { result ≡ bottom self.now }
        ensures most { result ≤ 77309411440 }
    {
        y_of(self.lines)
    }

    /// The picture's width.
    pub(crate) fn width(&self) -> u64
        ensures value { result ≡ width self.now }
        ensures least { 600 ≤ result }
    {
        match self.fit {
            Fit::Rows => self.room(),
            Fit::Slide => 16 * ninth(self.room(), self.bottom() + 18),
        }
    }

    /// The picture's height.
    pub(crate) fn height(&self) -> u64
        ensures { result ≡ height self.now }
    {
        match self.fit {
            Fit::Rows => self.bottom() + 18,
            Fit::Slide => 9 * ninth(self.room(), self.bottom() + 18),
        }
    }

    /// How wide the picture is shown where nothing else is said.
    pub(crate) fn shown_width(&self) -> u64
        ensures { result ≡ shown_width self.now self.now.fit }
    {
        match self.fit {
            Fit::Rows => self.width(),
            Fit::Slide => 1280,
        }
    }

    /// How high.
    pub(crate) fn shown_height(&self) -> u64
        ensures { result ≡ shown_height self.now self.now.fit }
    {
        match self.fit {
            Fit::Rows => self.height(),
            Fit::Slide => 720,
        }
    }
}
