//! The static prover of effects: from the text alone, whether some run of a program can access a data word that its task didn't
//! declare.
//!
//! For each task the prover finds the least table. It has, for each code word, a range for each register, and the locks that
//! are held for certain. If every load and store of the table only accesses words that the task declares, no run of the program
//! ends a task by the trap `outside`. The tables are this project's profile. The instructions are RV32I, of the RISC-V
//! unprivileged manual.
#![tactic(auto)]

mod blocks;
mod inside;
mod join;
mod laws;
mod proved;
mod prover;
mod range;
mod row;
mod successors;
mod sweep;
mod task_table;
mod usable;

pub use laws::{a_proven_program_runs_inside, a_task_has_one_least_table};
pub use proved::{Proved, prove_text};
pub use prover::prove;
