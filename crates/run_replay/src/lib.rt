//! A run of the machine as a document that anybody can check: it is written, read back, and its events are replayed one by one.
//!
//! A document has the machine's size, the source text of the program, and the events of the run. It is the document of at most
//! one run. A replay makes the events on the machine of the program, each in its turn, and gives what a run with these events
//! tells.
#![tactic(auto)]

mod events;
mod head;
mod laws;
mod parsing;
mod refusal;
mod replaying;
mod trace;
mod writing;

pub use head::{behind_title, read_shape};
pub use laws::{
    a_document_is_not_too_large, a_document_is_of_one_trace, events_have_one_replay,
    what_a_run_tells_fits_a_document,
};
pub use parsing::read_trace;
pub use refusal::{TraceRefusal, trace_line};
pub use replaying::{Replayed, advance, replay, replay_on};
pub use trace::{Trace, TraceFault, TraceShape};
pub use writing::trace_text;
