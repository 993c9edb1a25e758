//! One task: its registers, its program counter and the locks that it holds, what its next instruction needs, and what
//! that instruction does.
//!
//! The instructions are those of RV32I. A task may load and store the words that it declares, and those that the locks which it
//! holds guard for it. A task is plain data: a caller looks at what it needs, provides that, and completes the instruction.
#![tactic(auto)]

mod access;
mod address;
mod decoded;
mod ending;
mod laws;
mod need;
mod registers;
mod step;
mod task;

pub use decoded::{DecodedCode, DecodedProgram};
pub use ending::{EndShown, Ending, TaskEnd, outcome};
pub use laws::{
    a_call_changes_one_lock, a_task_that_finishes_holds_no_lock,
    a_whole_store_leaves_the_same_over_any_word,
};
pub use need::{Need, Next};
pub use task::{End, TaskState, TrapKind};
