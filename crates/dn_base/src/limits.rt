//! Limits that several crates share (this project's profile).

/// The greatest length of a program's text, in bytes.
pub const MOST_OF_TEXT: usize = 1_048_576;

/// The greatest length of a trace, in bytes. The mode trace writes documents, and the mode replay reads them.
pub const MOST_OF_DOCUMENT: usize = 536_870_912;

/// The greatest number of data words of a program, of all its regions together.
pub const MOST_WORDS: usize = 65_536;

/// The greatest number of cores of a machine.
pub const MOST_CORES: usize = 16;

/// The greatest number of events of a run. It follows from the limits of programs and fuel: 12 for each instruction and each
/// task, and 3 for each core in each phase.
pub const MOST_EVENTS: usize = 25_169_664;
