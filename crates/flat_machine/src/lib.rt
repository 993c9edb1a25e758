//! The flat machine: a program on one memory, run by a single thread. It takes the phases in order, and in each phase the
//! critical sections in the order of a list of grants.
//!
//! It has no caches and no messages. It is the reference with which runs of the multicore machine are compared.
#![tactic(auto)]

mod accesses;
mod acquires;
mod ending;
mod faults;
mod laws;
mod machine;
mod refused;
mod running;
mod runs;
mod traced;

pub use accesses::{AccessKind, FlatAccess, FlatAction};
pub use acquires::{Acquire, a_lock_is_acquired_where_its_task_waits, flat_acquires};
pub use ending::{FlatEnd, TaskLoads};
pub use faults::{GrantFault, fault_of_grants};
pub use laws::{
    a_front_of_a_list_has_a_value, a_grant_is_legal_where_its_task_waits_for_a_free_lock,
    a_segment_adds_loads_and_gives_locks_up, a_segment_comes_to_rest, a_segment_keeps_other_words,
    a_segment_reads_its_words, a_task_can_take_the_free_lock_that_it_wants,
    a_task_out_of_fuel_has_used_it_up, a_task_that_waits_wants_a_held_lock,
    first_segments_start_from_one_memory, more_fuel_changes_no_run_that_is_done,
    no_task_waits_if_locks_are_taken_in_order, one_more_grant_is_one_step,
    segments_run_in_either_order, settling_again_changes_nothing,
    the_end_of_a_run_shows_its_last_state, the_least_list_has_a_run,
    the_tasks_of_a_run_are_its_phases, without_locks_there_is_one_run,
};
pub use refused::{FlatRun, a_list_of_grants_comes_to_one_thing, flat_run};
pub use runs::{LeastRun, flat, least_grants, least_run};
pub use traced::flat_actions;
