//! The data of the page of a run: one JSON text, which the page reads in a browser. It has the program and its text, how the
//! run ended, the state before the page's first event, and what each of its events changes and sends.
#![tactic(auto)]

mod changes;
mod effects;
mod events;
mod head;
mod json;
mod laws;
mod lists;
mod mails;
mod page;
mod program;
mod run_data;

pub use laws::each_task_declares_one_item;
pub use page::{MOST_ROWS, Page, page_text};
pub use run_data::{RunData, run_data_text};
