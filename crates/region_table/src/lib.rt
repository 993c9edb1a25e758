//! The tables of an assembled program: sets of data words, regions, what each task declares that it reads and writes,
//! the phases, and for each phase the words that it may have written and the words that each lock guards.
#![tactic(auto)]

mod declared;
mod interval;
mod laws;
mod merging;
mod numbers;
mod plan;
mod program;
mod regions;
mod searching;
mod words;

pub use declared::{Effects, Phase, Region, TaskDecl};
pub use interval::Interval;
pub use laws::{
    a_core_has_one_task_in_a_phase, a_plan_has_the_words_of_its_tasks, a_program_has_words,
    a_program_is_well_formed,
};
pub use plan::{PhasePlan, plans};
pub use program::{FIRST_CODE_ADDRESS, FIRST_DATA_ADDRESS, Program};
pub use words::WordSet;
