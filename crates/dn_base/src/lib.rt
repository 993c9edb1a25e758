//! What all crates of denovo use: the ids of a machine's parts, the statuses of the program, lists that contracts can compare,
//! and the traits of its input and output: where text comes from, where it goes, and what is called inside a bank's turn.
#![tactic(auto)]

mod calls;
mod division;
mod failure;
mod ids;
mod limits;
mod name;
mod outside;
mod sequence;
mod standard;
mod status;
mod text_source;
mod vec_sink;

pub use division::{quotient, remainder};
pub use failure::{Failed, Memory};
pub use ids::{BankId, CoreId, Grant, LoadSeen, LockId, PhaseId, Shape, WordId};
pub use limits::{MOST_CORES, MOST_EVENTS, MOST_OF_DOCUMENT, MOST_OF_TEXT, MOST_WORDS};
pub use name::Name;
pub use outside::{Gate, OpenGate, Sink, Source};
pub use sequence::Sequence;
pub use standard::{StdSink, StdSource};
pub use status::{Outcome, Status};
pub use text_source::TextSource;
pub use vec_sink::VecSink;
