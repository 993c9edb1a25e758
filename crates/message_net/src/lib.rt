//! What passes between the cores, the banks and the barrier controller of a simulated machine: messages, messages, the events of
//! a run, and the pool of the messages in flight.
//!
//! The kinds of message are those of DeNovo (PACT 2011) and DeNovoND (ASPLOS 2013) for single words and queue locks. Those of the
//! barrier between phases are this project's own. The network loses and duplicates no message, and keeps no order.
#![tactic(auto)]

mod actor;
mod event;
mod laws;
mod message;
mod places;
mod pool;

pub use actor::{Actor, MailId};
pub use event::{Event, EventKind};
pub use laws::{
    a_counted_id_is_found, a_counted_mail_stands_somewhere, a_mail_is_found_by_its_id,
    a_post_adds_its_mail, a_take_frees_one_mail, actors_are_in_order,
    actors_have_indices_of_their_own, all_mails_are_added, equal_ids_are_the_same,
    ids_stay_distinct, kinds_have_indices_of_their_own, the_order_of_mails_does_not_matter,
};
pub use message::{Mail, Message, Outgoing};
pub use pool::Pool;
