use dn_base::{CoreId, WordId};

/// What an actor holds for a data word.
#[derive(Clone, Copy, PartialEq, Eq)]
pub enum WordState {
    /// Nothing.
    Absent,
    /// A core has a copy with this value.
    Valid(u32),
    /// A core has a copy with this value, and has read it in this phase.
    Touched(u32),
    /// A core is the word's owner, and has this value.
    Registered(u32),
    /// A core is about to be the word's owner, and has this value.
    Pending(u32),
    /// A core gives the word back, with this value.
    Leaving(u32),
    /// The word's home has this value.
    Home(u32),
    /// The word's home knows that this core is its owner.
    At(CoreId),
}

/// A word for which an actor holds something else after an event than before it.
#[derive(Clone, Copy)]
pub struct WordChange {
    pub word: WordId,
    pub before: WordState,
    pub after: WordState,
}
