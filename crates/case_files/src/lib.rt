//! The cases of the case files: what the program is given in each, what it has to answer, what may be wrong with a line, the walk over
//! all cases, and the report of those that agree.
#![tactic(auto)]

mod agreement;
mod block;
mod case;
mod chain;
mod comparing;
mod comparison;
mod differing;
mod event_kinds;
mod event_machine;
mod folder;
mod judging;
mod numeral;
mod opening;
mod playing;
mod reach;
mod replay;
mod report;
mod row;
mod script;
mod scripted;
mod section;
mod stepping;
mod texts;
mod timing;
mod trouble;
mod walking;
mod written;

pub use case::Case;
pub use chain::{PlaceTicks, is_slowest};
pub use comparison::Comparison;
pub use event_kinds::{KINDS, counted_kind, push_counts};
pub use event_machine::EventMachine;
pub use folder::files;
pub use judging::judge;
pub use playing::{Got, play};
pub use replay::{TaskLoad, are_loads, is_same, replay_loads};
pub use report::Report;
pub use script::{Said, ScriptLine};
pub use scripted::{Notes, Played, ScriptedRun};
pub use texts::Named;
pub use trouble::{BadForm, Stop, Trouble};
pub use walking::{CaseRunner, run_all};
pub use written::Written;
