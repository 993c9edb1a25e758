//! The claim of a run by another simulator: its run log, the judge who compares it with the run of one thread on one memory, and
//! the judge's verdict.
#![tactic(auto)]

mod alike;
mod alone;
mod claim;
mod claim_writing;
mod diagnosing;
mod diagnosis;
mod diagnosis_laws;
mod diagnosis_writing;
mod document_laws;
mod front;
mod head;
mod judge_laws;
mod judging;
mod limits;
mod lines;
mod parsing;
mod refusal;
mod right;
mod rows;
mod verdict;
mod verdict_writing;

pub use alone::{read_order, read_question};
pub use claim::{Claim, ClaimFault, ClaimTextError, GrantOrder, Question};
pub use claim_writing::claim_text;
pub use diagnosing::diagnose;
pub use diagnosis::{Diagnosis, TaskName, WrongLoad};
pub use diagnosis_laws::{
    a_grant_is_at_fault_where_it_is_not_legal, a_load_is_made_by_the_load_of_its_line,
    no_store_comes_between, the_earliest_wrong_load_is_the_first,
    the_named_load_is_the_first_that_differs, the_reason_against_a_grant_is_true,
};
pub use diagnosis_writing::push_diagnosis;
pub use document_laws::{a_document_is_of_one_claim, bytes_have_one_fault};
pub use judge_laws::{
    a_claim_agrees_where_its_run_does, a_claim_has_one_verdict,
    a_claim_of_a_document_can_be_judged, a_right_claim_agrees,
};
pub use judging::{judge, judge_answer};
pub use parsing::read_claim;
pub use refusal::claim_line;
pub use right::{RightClaim, least_claim, right_claim};
pub use verdict::{LoadPlace, Verdict};
pub use verdict_writing::push_verdict;
