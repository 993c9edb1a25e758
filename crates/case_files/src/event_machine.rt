use crate::Trouble;
use dn_base::{CoreId, WordId};
use machine_rules::Stepped;
use message_net::{Actor, Event};
use rv_core::TaskEnd;

/// A machine that makes one event at a time, each as it is asked.
pub trait EventMachine {
    /// Whether an event is enabled.
    fn may_come(&self, event: &Event) -> bool;

    /// The actor that makes an event.
    ///
    /// # Errors
    /// `NotNow` where it is not enabled.
    fn actor(&self, event: &Event) -> Result<Actor, Trouble>;

    /// Makes an event.
    ///
    /// # Errors
    /// `NotNow` where it is not enabled.
    fn make(&mut self, event: Event) -> Result<Stepped, Trouble>;

    /// How the task of a core stands, where there is one.
    fn task_end(&self, core: CoreId) -> Option<TaskEnd>;

    /// The value of a data word.
    fn word(&self, word: WordId) -> u32;

    /// Whether no event is enabled any more.
    fn is_over(&self) -> bool;
}
