//! What a task alone has made of the data words.
ghost use Rattle.std.specs.Prelude.{◌≡◌, ◌<◌, ℕ, map, length, slice_index_or};
ghost use Rattle.std.specs.List.{All};
ghost use Rattle.common_outcomes.specs.Values.{known, effect_of, joined_effect, applied, plus};
ghost use Rattle.common_outcomes.specs.Alone.{cell_at, is_shared, seen, value_at_start, closed, closed_by, placed_from};
ghost use Rattle.outcomes_top.specs.Tracks.{IsTracked};

use crate::kinds::guards;
use common_outcomes::{Cell, Effect, Kind, Value};
use dn_base::WordId;
use region_table::{Phase, Program, TaskDecl};
use rv_core::DecodedCode;
use std::marker::Model;

/// What a task alone is run by: its declaration, its phase, and the memory at the beginning of the phase.
#[derive(Drop)]
pub(crate) struct Place<'a> {
    pub(crate) program: &'a Program,
    pub(crate) code: &'a DecodedCode,
    pub(crate) fuel: u32,
    pub(crate) phase: &'a Phase,
    pub(crate) decl: &'a TaskDecl,
    pub(crate) first: &'a [Value],
    /// The mark of each word, which tells whether it is shared.
    pub(crate) marks: &'a [u8],
}

impl<'a> Model for Place<'a> {
    ghost use Rattle.common_outcomes.specs.Alone.{Setup};
    ghost use Rattle.outcomes_top.specs.Place.{IsPlace};

    ghost Value = { Setup };

    ghost view = { λ s. record { program = s.program.now; fuel = s.fuel; phase = s.phase.now; decl = s.decl.now; first = s.first.now } };

    ghost invariant = { λ s. IsPlace (record { program = s.program.now; fuel = s.fuel; phase = s.phase.now; decl = s.decl.now; first = s.first.now }) s.code.now s.marks.now };
}

impl Place<'_> {
    /// Whether another task of the phase may write the word.
    #[inline(always)]
    pub(crate) fn is_shared(&self, word: WordId) -> bool
        ensures { result ≡ is_shared self.now.phase self.now.decl word.0 }
    {
        match self.marks.get(word.0 as usize) {
            Some(mark) => *mark != 0 && u32::from(*mark) != self.decl.core.0 + 1,
            None => false,
        }
    }

    /// What is known of the word at the beginning of the phase.
    #[inline(always)]
    fn at_start(&self, word: WordId) -> Value
        ensures { result ≡ value_at_start self.now word.0 }
    {
        match self.first.get(word.0 as usize) {
            Some(value) => *value,
            None => Value {
                kind: Kind::Known,
                number: 0,
            },
        }
    }

    /// What the task reads in the word.
    #[inline(always)]
    pub(crate) fn value_seen(&self, cells: &[Cell], word: WordId) -> Value
        ensures { result ≡ seen self.now cells.now word.0 }
    {
        match cell(cells, word).stored {
            Some(value) => value,
            None if self.is_shared(word) => Value {
                kind: Kind::Offset { word },
                number: 0,
            },
            None => self.at_start(word),
        }
    }
}

/// The cell of a word; an untouched one where there is no such word.
#[inline(always)]
pub(crate) fn cell(cells: &[Cell], word: WordId) -> Cell
    ensures { result ≡ cell_at cells.now word.0 }
{
    match cells.get(word.0 as usize) {
        Some(cell) => *cell,
        None => Cell {
            stored: None,
            effect: Effect::Kept,
        },
    }
}

/// What two sections did, in either order.
pub(crate) fn join(a: Effect, b: Effect) -> Effect
    ensures { result ≡ joined_effect a b }
{
    match (a, b) {
        (Effect::Kept, effect) => effect,
        (effect, Effect::Kept) => effect,
        (Effect::Added { sum: a }, Effect::Added { sum: b }) => Effect::Added {
            sum: a.wrapping_add(b),
        },
        (Effect::Set { number: a }, Effect::Set { number: b }) if a == b => {
            Effect::Set { number: a }
        }
        _ => Effect::Other,
    }
}

/// What a section did to a word, by what it stored in it last.
fn effect_of(stored: Option<Value>) -> Effect
    ensures { result ≡ effect_of stored }
{
    match stored {
        None => Effect::Kept,
        Some(value) => match value.kind {
            Kind::Known => Effect::Set {
                number: value.number,
            },
            Kind::Offset { .. } => Effect::Added { sum: value.number },
            Kind::Varying => Effect::Other,
        },
    }
}

/// The word once its section has ended.
fn close(cell: Cell) -> Cell
    ensures { result ≡ closed cell }
{
    Cell {
        stored: None,
        effect: join(cell.effect, effect_of(cell.stored)),
    }
}

/// What is known of a word after sections that did this to it.
pub(crate) fn apply(effect: Effect, value: Value) -> Value
    ensures { result ≡ applied effect value }
{
    let varying = Value {
        kind: Kind::Varying,
        number: 0,
    };
    match effect {
        Effect::Kept => value,
        Effect::Set { number } => Value {
            kind: Kind::Known,
            number,
        },
        Effect::Added { sum } => match value.kind {
            Kind::Known => Value {
                kind: Kind::Known,
                number: value.number.wrapping_add(sum),
            },
            _ => varying,
        },
        Effect::Other => varying,
    }
}

/// Ends the section of each word.
pub(crate) fn close_all(cells: &mut [Cell])
    ensures { cells.new ≡ map closed cells.old }
{
    for place in 0..cells.len() {
        cells[place] = close(cells[place]);
    }
}

/// Ends the section of each shared word that the lock guards; the words that have stored values are listed.
pub(crate) fn close_listed(cells: &mut [Cell], place: &Place<'_>, lock: u32, listed: &[u32])
    requires { IsTracked place.now cells.old listed.now }
    ensures { cells.new ≡ placed_from 0 (closed_by place.now lock) cells.old }
{
    for word in listed {
        let word = WordId(*word);
        if place.is_shared(word) && guards(place.decl, lock, word) {
            let index = word.0 as usize;
            cells[index] = close(cells[index]);
        }
    }
}
