//! The program explain, except its `main`: from a text and the answer that denovo or the referee printed for it to the answer explained.
#![tactic(auto)]

mod answering;
mod command;
mod laws;
mod program;
mod serving;
mod texts;

pub use answering::{Explanation, answer};
pub use command::text_name;
pub use laws::the_bytes_that_are_read_are_enough;
pub use program::{explain_given, explain_program};
pub use program_outside::{ReadError, WordsFault};
pub use serving::{Explain, explain_main};
pub use texts::Texts;
