//! The changes that an event makes in its actor's state, what the actor sends, and how a state differs from the beginning of
//! its run.
#![tactic(auto)]

mod banks;
mod change;
mod laws;
mod look;
mod looking;
mod making;
mod nodes;
mod parts;
mod since;

pub use change::{ActorChanges, Change, EventMade};
pub use laws::{
    a_banks_locks_follow_its_changes, a_banks_words_follow_its_changes,
    a_cores_entries_follow_its_changes, a_cores_locks_follow_its_changes,
    a_cores_status_follows_its_changes, a_cores_task_follows_its_changes,
    an_event_changes_its_actor_alone, an_events_changes_lead_on, the_changes_of_a_core_lead_on,
    the_changes_of_a_run_lead_on, the_keeper_follows_its_changes, what_is_different_leads_there,
    what_is_sent_joins_the_mails,
};
pub use making::make;
pub use since::changes_since;
