//! Why every run of the machine agrees with the reference machine's run by the same grants, and why any tasks that run side by
//! side do.
//!
//! Each event keeps an invariant. The world of a state is made of its tasks, as their nodes have them, and of the memory to which
//! the stores were applied. This world leads to the state to which the grants so far lead the reference machine.
#![tactic(auto)]

mod core_laws;
mod interleaving_laws;
mod laws;
mod reached_laws;

pub use core_laws::{
    a_grant_is_the_next_of_the_run, a_phase_that_stops_has_the_end_of_the_run,
    a_step_keeps_the_run, a_word_comes_to_its_value_in_the_run_by_its_task_alone,
    a_world_at_rest_is_the_state_of_the_run, a_world_leads_to_the_run_at_first,
    a_world_that_stops_has_the_end_of_the_run, no_phase_begins,
    the_beginning_of_a_phase_keeps_the_run, the_first_phase_is_agreed,
    the_loads_of_a_task_are_a_front_of_its_loads_in_the_run, the_next_phase_is_agreed,
    what_a_core_acquires_is_the_next_grant, what_a_core_does_keeps_the_run,
    what_changes_no_task_keeps_the_run,
};
pub use interleaving_laws::{
    the_flat_machine_does_exactly_what_interleavings_do,
    the_machine_does_exactly_what_interleavings_do,
};
pub use laws::{
    every_complete_run_has_the_end_of_the_flat_run,
    every_run_agrees_with_the_flat_run_of_its_grants, more_fuel_changes_no_ending_that_is_done,
    no_run_is_stuck_if_locks_are_taken_in_order,
};
pub use reached_laws::{
    every_legal_and_whole_list_has_a_complete_run, every_run_goes_on_to_a_complete_one,
    every_shape_has_the_same_ends, handling_messages_empties_the_network,
    only_locks_and_the_barrier_hold_a_core_up, the_machine_does_exactly_what_the_flat_machine_does,
};
