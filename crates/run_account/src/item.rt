use crate::measure::Measure;
use dn_base::{CoreId, PhaseId, WordId};

/// One item of an account: the measure that it counts for, its core, the phase of that core, and the word that it is about, if
/// any.
#[derive(Clone, Copy)]
pub struct Item {
    pub measure: Measure,
    pub phase: PhaseId,
    pub core: CoreId,
    pub word: Option<WordId>,
}

/// The groups of an account. They are numbered from 0.
#[derive(Clone, Copy)]
pub enum Grouping {
    /// One group: the whole run.
    Run,
    /// The phases of the program, in their order.
    Phase,
    /// The cores, in their order.
    Core,
    /// The regions of the program, in their order. An item without a word is in none.
    Region,
}
