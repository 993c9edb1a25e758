//! The barrier between the phases of a run. Its keeper counts the cores that arrive, each once, and says when the next
//! phase begins and when the run is over. The barrier is this project's own.
#![tactic(auto)]

mod keeper;
mod laws;

pub use keeper::{Keeper, Verdict};
pub use laws::{
    a_core_is_counted_once, a_core_waits_until_all_are_told, a_count_marks_one_core,
    a_full_barrier_stays, a_keeper_stays_the_machines, a_new_core_waits_for_the_others,
    an_arrival_goes_on_at_go_alone, each_core_is_told_once, nobody_has_arrived_after_go,
    only_arrivals_count, the_last_core_releases_all,
};
