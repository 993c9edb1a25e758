ghost use Rattle.std.specs.Prelude.{◌≡◌};
ghost use Rattle.bank_hall.specs.Banks.{bank_steps, bank_call, bank_actor, reply_of};

use crate::row::crosses;
use dn_base::Memory;
use grant_log::{Posted, Stamped, has_numbers_left, note, stamp_of, take_picked};
use message_net::{Actor, Outgoing};
use registry_bank::Bank;
use std::marker::Model;
use turn_lock::Object;

/// What a bank's step returns to its caller: its note, and the message that the bank sends, which the caller has to post.
#[derive(Clone, Copy, PartialEq, Eq)]
pub struct Handled {
    pub stamped: Stamped,
    pub reply: Option<Posted>,
}

/// The input of a call of a bank: a message to put in, or the pick of the message to handle.
#[derive(Clone, Copy)]
pub enum BankIn {
    Post(Posted),
    Step { pick: u32 },
}

/// The output of a call of a bank: the message is in the inbox, or what the step did.
#[derive(Clone, Copy)]
pub enum BankOut {
    Kept,
    /// None exactly if the inbox was empty or the bank was spent; nothing changed then.
    Stepped(Option<Handled>),
}

/// A bank of the memory with its inbox, the number of its next message, and its clock.
///
/// It is spent once its clock or the stamp of the picked message has reached 2^63, or the number of its next message
/// 4,294,967,000 (this project's profile).
#[derive(Drop)]
pub struct BankActor {
    bank: Bank,
    inbox: Vec<Posted>,
    next: u32,
    clock: u64,
}

impl Model for BankActor {
    ghost use Rattle.std.specs.Prelude.{◌-◌, vec_len};
    ghost use Rattle.std.specs.Vec.{vec_capacity};
    ghost use Rattle.bank_hall.specs.Banks.{BankActorParts};

    ghost Value = { BankActorParts };

    ghost view = { λ b. record { state = record { bank = b.bank; inbox = b.inbox.items; next = b.next; clock = b.clock }; spare = vec_capacity b.inbox - vec_len b.inbox } };
}

/// The message that an actor sends with its next number, if it sends one.
fn reply(actor: Actor, next: u32, stamp: u64, sent: Option<Outgoing>) -> Option<Posted>
    ensures { result ≡ reply_of actor next stamp sent }
{
    Some(Posted {
        mail: sent?.mail(actor, next),
        stamp,
    })
}

impl BankActor {
    /// The bank with this inbox, this number for its next message, and this clock.
    pub fn new(bank: Bank, inbox: Vec<Posted>, next: u32, clock: u64) -> BankActor
        ensures { result.state ≡ record { bank = bank; inbox = inbox.items; next = next; clock = clock } }
    {
        BankActor {
            bank,
            inbox,
            next,
            clock,
        }
    }

    /// Gives the bank, the inbox, the number of the next message and the clock back.
    pub fn parts(self) -> (Bank, Vec<Posted>, u32, u64)
        ensures { self.state ≡ record { bank = result.0; inbox = result.1.items; next = result.2; clock = result.3 } }
    {
        let BankActor {
            bank,
            inbox,
            next,
            clock,
        } = self;
        (bank, inbox, next, clock)
    }

    /// Handles the message that the pick names, if there is one and the bank isn't spent.
    fn handle(&mut self, pick: u32) -> Option<Handled>
        ensures state { self.new.state ≡ (bank_steps self.old.state pick).0 }
        ensures handled { result ≡ (bank_steps self.old.state pick).1 }
    {
        let has_numbers = has_numbers_left(self.clock, self.next);
        let posted = take_picked(&mut self.inbox, pick, has_numbers)?;
        let stamp = stamp_of(self.clock, &posted);
        let actor = Actor::Bank(self.bank.number());
        let reply = reply(
            actor,
            self.next,
            stamp,
            self.bank.handle(posted.mail.message),
        );
        self.clock = stamp;
        if reply.is_some() {
            self.next += 1;
        }
        Some(Handled {
            stamped: note(actor, stamp, &posted.mail),
            reply,
        })
    }
}

impl Object for BankActor {
    type In = BankIn;

    type Out = BankOut;

    ghost use Rattle.bank_hall.specs.Banks.{BankState, bank_call};

    ghost Content = { BankState };

    ghost content = { λ b. b.state };

    ghost spare = { λ b. b.spare };

    ghost answer = { λ state input. (bank_call state input).1 };

    ghost next = { λ state input. (bank_call state input).0 };

    fn reserve(&mut self) -> Result<(), Memory> {
        self.inbox.reserve(1)?;
        Ok(())
    }

    #[tactic(auto, unfolding(crate::specs::Banks::bank_call))]
    fn step(&mut self, input: BankIn) -> BankOut {
        match input {
            BankIn::Post(posted) => {
                self.inbox.push_reserved(posted);
                BankOut::Kept
            }
            BankIn::Step { pick } => BankOut::Stepped(self.handle(pick)),
        }
    }
}

/// A bank may be sent to another thread, and shared with it. Nobody calls this; the check of its body proves it.
fn bank_crosses(bank: &BankActor) {
    crosses(bank);
}
