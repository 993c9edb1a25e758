//! Why the companion programs agree with denovo: the claim of any run agrees, the program explain takes every answer, and every
//! run has what all runs of its text have in common. And why more fuel leaves a run as it is, if it is done.
#![tactic(auto)]

mod claim_laws;
mod explain_laws;
mod fuel_laws;
mod outcome_laws;

pub use claim_laws::{the_claim_of_any_run_agrees, the_claim_of_any_run_of_denovo_agrees};
pub use explain_laws::{
    every_answer_of_denovo_is_taken, every_answer_of_outcomes_is_taken,
    the_core_that_was_granted_a_lock_last_holds_it,
};
pub use fuel_laws::more_fuel_changes_no_event_of_a_run_that_is_done;
pub use outcome_laws::every_run_of_denovo_has_what_is_common;
