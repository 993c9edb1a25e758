//! A state of the machine as text: what each part holds, one fact a line, which events are enabled, and why one is not. The state
//! is that before an event of a trace.
//!
//! And the answer of a run for readers: how it ended, its tasks, its data words region by region, and its grants.
//!
//! Words, code words, tasks and locks have the names of the program's text. Every line ends with a newline.
#![tactic(auto)]

mod answer;
mod answer_tasks;
mod base;
mod because;
mod called;
mod coming;
mod conditions;
mod cores;
mod entries;
mod homes;
mod keeper;
mod laws;
mod locks;
mod mails;
mod order;
mod reaching;
mod readers_answer;
mod reason;
mod region_words;
mod showing;
mod signed;
mod signing;
mod standing;
mod stepping;
mod tasks;

pub use answer::StateAnswer;
pub use base::Base;
pub use coming::enabled_events;
pub use laws::each_data_word_stands_under_its_region;
pub use order::pairs_by_set;
pub use reaching::state_at;
pub use readers_answer::answer_for_readers;
pub use reason::Reason;
pub use showing::shown_text;
pub use standing::reason_against;
pub use stepping::{
    a_machine_is_ready, a_stepped_machine_is_in_a_run, none_is_listed_where_none_is_enabled,
};
