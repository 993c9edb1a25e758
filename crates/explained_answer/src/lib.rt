//! An answer explained: each of its lines, followed by sentences on the place in the text that the line concerns.
#![tactic(auto)]

mod acquires;
mod cause_laws;
mod causes;
mod ended;
mod explaining;
mod fronts;
mod holders;
mod line;
mod line_laws;
mod line_parsing;
mod lines;
mod listing;
mod long;
mod numbers;
mod parsing;
mod programs;
mod reasons;
mod refusals;
mod run_again;
mod several;
mod taken;
mod tasks;
mod timing;
mod trace;
mod trace_laws;
mod verdict_forms;
mod verdict_laws;
mod verdict_phrases;
mod verdict_rows;
mod verdicts;
mod wholes;
mod words;

pub use acquires::a_named_acquire_is_the_last_of_its_lock;
pub use cause_laws::{a_cause_has_a_line_that_says_so, an_ended_holder_has_a_line_that_says_so};
pub use explaining::{Explained, explain};
pub use line::{AnswerLine, Count, FixedLine, Link};
pub use line_laws::{
    a_line_is_read_in_one_way, answers_are_explained_one_after_the_other, printed_answers_are_lines,
};
pub use line_parsing::read_line;
pub use listing::take_listing;
pub use run_again::{
    a_named_instruction_is_the_next_of_its_task, what_a_run_tells_of_unfinished_tasks_is_said,
};
pub use taken::Taken;
pub use trace::take_trace;
pub use trace_laws::a_trace_of_the_text_is_taken;
pub use verdict_laws::a_verdict_quotes_its_text;
pub use verdict_rows::VerdictRow;
pub use verdicts::explain_verdict;
