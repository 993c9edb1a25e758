//! What every run of a text has in common.
#![tactic(auto)]

mod answer;
mod laws;
mod value;

pub use answer::{Common, Open, Outcomes};
pub use laws::{
    a_lock_is_stuck_where_a_circle_leads_back_to_it, a_section_leaves_what_its_effects_say,
    a_settled_answer_that_is_done_has_a_lock_order, a_step_fits,
    a_word_after_a_phase_is_as_all_sections_say, every_complete_run_has_what_is_common,
    every_order_of_grants_has_what_is_common, the_answer_settles_where_control_depends_on_no_load,
    without_locks_nothing_varies,
};
pub use value::{Cell, Effect, Kind, Value};
