ghost use Rattle.std.specs.Prelude.{◌≡◌, ◌<◌, ◌≤◌, ◌+◌, ◌*◌, length};
ghost use Rattle.bank_hall.specs.Note.{letter_to};
ghost use Rattle.bank_hall.specs.Keepers.{keeper_steps, keeper_call};
ghost use Rattle.phase_barrier.specs.Letters.{letter_count};

use crate::row::crosses;
use dn_base::{CoreId, Memory};
use grant_log::{Posted, Stamped, has_numbers_left, note, stamp_of, take_picked};
use message_net::{Actor, Outgoing};
use phase_barrier::{Keeper, Verdict};
use std::marker::Model;
use turn_lock::Object;

/// What the barrier controller's step returns to its caller: its note, the verdict, and the number of the letter to core 0. The
/// letters to the cores, which the caller has to post, are numbered from there on.
#[derive(Clone, Copy)]
pub struct KeeperHandled {
    pub stamped: Stamped,
    pub verdict: Verdict,
    /// Below 4,294,967,000.
    pub first: u32,
}

impl Model for KeeperHandled {
    ghost use Rattle.std.specs.Prelude.{◌<◌};
    ghost use Rattle.bank_hall.specs.Note.{KeeperNote};

    ghost Value = { KeeperNote };

    ghost view = { λ h. record { stamped = h.stamped; verdict = h.verdict; first = h.first } };

    ghost invariant = { λ h. h.first < 4294967000 };

    ghost inverse = { λ n. record { stamped = n.stamped; verdict = n.verdict; first = n.first } };
}

impl KeeperHandled {
    /// The letter that tells a core the verdict; None exactly for Wait.
    pub fn letter(&self, core: CoreId) -> Option<Posted>
        requires { core.0 < 16 }
        ensures { result ≡ letter_to self.now core.0 }
    {
        let message = self.verdict.letter()?;
        let letter = Outgoing::to_core(core, message);
        Some(Posted {
            mail: letter.mail(Actor::Keeper, self.first + core.0),
            stamp: self.stamped.stamp,
        })
    }
}

/// The input of a call of the barrier controller: a message to put in, or the pick of the message to handle.
#[derive(Clone, Copy)]
pub enum KeeperIn {
    Post(Posted),
    Step { pick: u32 },
}

/// The output of a call of the barrier controller: the message is in the inbox, or what the step did.
#[derive(Clone, Copy)]
pub enum KeeperOut {
    Kept,
    /// None exactly if the inbox was empty or the barrier controller was spent; nothing changed then.
    Stepped(Option<KeeperHandled>),
}

/// The barrier controller of the barrier with its inbox, the number of its next message, and its clock.
///
/// It is spent once its clock or the stamp of the picked message has reached 2^63, or the number of its next message
/// 4,294,967,000 (this project's profile).
#[derive(Drop)]
pub struct KeeperActor {
    keeper: Keeper,
    inbox: Vec<Posted>,
    next: u32,
    clock: u64,
}

impl Model for KeeperActor {
    ghost use Rattle.std.specs.Prelude.{◌-◌, vec_len};
    ghost use Rattle.std.specs.Vec.{vec_capacity};
    ghost use Rattle.bank_hall.specs.Keepers.{KeeperActorParts};

    ghost Value = { KeeperActorParts };

    ghost view = { λ k. record { state = record { keeper = k.keeper; inbox = k.inbox.items; next = k.next; clock = k.clock }; spare = vec_capacity k.inbox - vec_len k.inbox } };
}

/// How many letters a verdict has, for this number of cores.
fn letters(verdict: Verdict, cores: u32) -> u32
    ensures { result ≡ letter_count verdict * cores }
{
    match verdict {
        Verdict::Wait => 0,
        _ => cores,
    }
}

impl KeeperActor {
    /// The barrier controller with this inbox, this number for its next message, and this clock.
    pub fn new(keeper: Keeper, inbox: Vec<Posted>, next: u32, clock: u64) -> KeeperActor
        ensures { result.state ≡ record { keeper = keeper; inbox = inbox.items; next = next; clock = clock } }
    {
        KeeperActor {
            keeper,
            inbox,
            next,
            clock,
        }
    }

    /// Gives the barrier controller, the inbox, the number of the next message and the clock back.
    pub fn parts(self) -> (Keeper, Vec<Posted>, u32, u64)
        ensures { self.state ≡ record { keeper = result.0; inbox = result.1.items; next = result.2; clock = result.3 } }
    {
        let KeeperActor {
            keeper,
            inbox,
            next,
            clock,
        } = self;
        (keeper, inbox, next, clock)
    }

    /// Handles the message that the pick names, if there is one and the barrier controller isn't spent.
    fn handle(&mut self, pick: u32) -> Option<KeeperHandled>
        ensures state { self.new.state ≡ (keeper_steps self.old.state pick).0 }
        ensures handled { result ≡ (keeper_steps self.old.state pick).1 }
    {
        let has_numbers = has_numbers_left(self.clock, self.next);
        let posted = take_picked(&mut self.inbox, pick, has_numbers)?;
        let stamp = stamp_of(self.clock, &posted);
        let first = self.next;
        let cores = self.keeper.cores();
        let verdict = self.keeper.handle(posted.mail.message);
        self.clock = stamp;
        self.next += letters(verdict, cores);
        Some(KeeperHandled {
            stamped: note(Actor::Keeper, stamp, &posted.mail),
            verdict,
            first,
        })
    }
}

impl Object for KeeperActor {
    type In = KeeperIn;

    type Out = KeeperOut;

    ghost use Rattle.bank_hall.specs.Keepers.{KeeperState, keeper_call};

    ghost Content = { KeeperState };

    ghost content = { λ k. k.state };

    ghost spare = { λ k. k.spare };

    ghost answer = { λ state input. (keeper_call state input).1 };

    ghost next = { λ state input. (keeper_call state input).0 };

    fn reserve(&mut self) -> Result<(), Memory> {
        self.inbox.reserve(1)?;
        Ok(())
    }

    #[tactic(auto, unfolding(crate::specs::Keepers::keeper_call))]
    fn step(&mut self, input: KeeperIn) -> KeeperOut {
        match input {
            KeeperIn::Post(posted) => {
                self.inbox.push_reserved(posted);
                KeeperOut::Kept
            }
            KeeperIn::Step { pick } => KeeperOut::Stepped(self.handle(pick)),
        }
    }
}

/// The barrier controller may be sent to another thread, and shared with it. Nobody calls this; the check of its body proves it.
fn keeper_crosses(keeper: &KeeperActor) {
    crosses(keeper);
}
