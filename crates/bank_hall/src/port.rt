ghost use Rattle.std.specs.Prelude.{◌≡◌};
ghost use Rattle.bank_hall.specs.Ports.{port_call};

use crate::row::crosses;
use dn_base::Memory;
use grant_log::{Posted, take_picked};
use std::marker::Model;
use turn_lock::Object;

/// The input of a call of a port: a message to put in, or the pick of the message to take.
#[derive(Clone, Copy)]
pub enum PortIn {
    Post(Posted),
    Take { pick: u32 },
}

/// The output of a call of a port: the message is in the inbox, or the message that was taken.
#[derive(Clone, Copy)]
pub enum PortOut {
    Kept,
    /// None exactly if the inbox was empty, or the picked message's stamp was 2^63 or more.
    Taken(Option<Posted>),
}

/// A core's inbox. A message is put in at its end. A take gives the message at the pick, modulo the number of messages, and the
/// last message moves to its index.
#[derive(Drop)]
pub struct Port {
    inbox: Vec<Posted>,
}

impl Model for Port {
    ghost use Rattle.std.specs.Prelude.{◌-◌, vec_len};
    ghost use Rattle.std.specs.Vec.{vec_capacity};
    ghost use Rattle.bank_hall.specs.Ports.{PortParts};

    ghost Value = { PortParts };

    ghost view = { λ p. record { inbox = p.inbox.items; spare = vec_capacity p.inbox - vec_len p.inbox } };
}

impl Port {
    /// The port with this inbox.
    pub fn new(inbox: Vec<Posted>) -> Port
        ensures { result.inbox ≡ inbox.items }
    {
        Port { inbox }
    }

    /// Gives the inbox back.
    pub fn parts(self) -> Vec<Posted>
        ensures { result.items ≡ self.inbox }
    {
        self.inbox
    }
}

impl Object for Port {
    type In = PortIn;

    type Out = PortOut;

    ghost use Rattle.std.specs.Prelude.{ℕ, List};
    ghost use Rattle.grant_log.specs.declared.posted.Posted.{Posted as Mailed};
    ghost use Rattle.bank_hall.specs.Ports.{port_call};

    ghost Content = { List Mailed };

    ghost content = { λ p. p.inbox };

    ghost spare = { λ p. p.spare };

    ghost answer = { λ inbox input. (port_call inbox input).1 };

    ghost next = { λ inbox input. (port_call inbox input).0 };

    fn reserve(&mut self) -> Result<(), Memory> {
        self.inbox.reserve(1)?;
        Ok(())
    }

    #[tactic(auto, unfolding(crate::specs::Ports::port_call))]
    fn step(&mut self, input: PortIn) -> PortOut {
        match input {
            PortIn::Post(posted) => {
                self.inbox.push_reserved(posted);
                PortOut::Kept
            }
            PortIn::Take { pick } => PortOut::Taken(take_picked(&mut self.inbox, pick, true)),
        }
    }
}

/// A core's inbox may be sent to another thread, and shared with it. Nobody calls this; the check of its body proves it.
fn port_crosses(port: &Port) {
    crosses(port);
}
