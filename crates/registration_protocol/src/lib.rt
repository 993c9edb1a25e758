//! A node: a core with its task, its private cache, its wait, its signatures and its flags. This crate says what it does by
//! itself and with each message. The states of words, registration, and the drop of copies at a phase's end are DeNovo's (PACT
//! 2011). Queue locks and signatures are DeNovoND's (ASPLOS 2013). Finer details are this project's own.
#![tactic(auto)]

mod instr;
mod laws;
mod node;
mod outlook;
mod own;
mod reading;
mod receive;
mod setting;
mod signatures;

pub use laws::{
    a_grant_part_by_part, a_node_keeps_its_phase, a_node_stays_fit, a_permission_tells_of_its_node,
    a_phase_begins_part_by_part, a_still_node_waits, a_store_writes_one_entry,
    a_store_writes_one_word, a_value_is_a_copy, an_instruction_part_by_part, an_own_event_may_come,
    mails_are_of_the_machine, one_entry_changes, signatures_are_of_the_phase, the_task_stays,
};
pub use node::{Node, NodeWait, Received, Step};
pub use setting::Context;
