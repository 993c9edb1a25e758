//! What the host workers of one round share: the banks of the memory, the cores' inboxes and the barrier controller of the
//! barrier. Each is an object whose calls stand in one history that a single thread could have made.
//!
//! The output of a call is a function of the object's content and the call's input. Messages have stamps: the stamp of handling a
//! message is one more than the greater of the actor's clock and the message's own stamp, and becomes the actor's clock.
#![tactic(auto)]

mod bank;
mod hall;
mod keeper;
mod laws;
mod port;
mod row;

pub use bank::{BankActor, BankIn, BankOut, Handled};
pub use grant_log::Posted;
pub use hall::{Hall, HallEnd, HallParts, Pass};
pub use keeper::{KeeperActor, KeeperHandled, KeeperIn, KeeperOut};
pub use laws::{
    a_bank_handles_its_mails, a_banks_stamps_rise, a_keeper_handles_its_mails,
    a_port_loses_no_mail, the_keepers_stamps_rise,
};
pub use port::{Port, PortIn, PortOut};
