//! The multicore machine as a definition: its states, which events are enabled in a state, the state after each, runs, what is
//! read off a run, and when a state is coherent. The protocol is that of DeNovo (PACT 2011) and DeNovoND (ASPLOS 2013).
#![tactic(auto)]

mod laws;
mod litmus;
mod stepped;

pub use laws::{
    a_complete_run_is_at_rest, a_core_waits_for_those_before_it, a_lock_has_one_holder_at_a_time,
    a_ready_setting_is_well_formed, a_run_has_few_events, a_state_shows_the_stores_of_its_run,
    a_state_stays_sound, accesses_that_conflict_are_guarded, each_load_reads_the_stores_before_it,
    every_run_is_sequentially_consistent, every_run_leads_to_a_coherent_state,
    few_mails_are_between_two_actors, few_mails_are_in_flight, locks_are_first_come_first_served,
    mails_may_stand_in_any_order, no_run_goes_on_for_ever, no_run_has_a_data_race,
    phases_do_not_overlap, the_opened_machine_is_sound,
};
pub use litmus::{
    early_grants_and_early_starts_are_refused, forbidden_outcomes_have_no_sequential_order,
    ordered_accesses_are_no_data_race, unordered_accesses_are_a_data_race,
};
pub use stepped::Stepped;
