//! A hall with one bank and one port, what one caller asks it, and what it tells. A call that finds no memory is made once more.
ghost use Rattle.std.specs.Prelude.{◌≡◌, ◌≤◌, ◌^◌, [], length, IfOk};
ghost use Rattle.bank_hall.specs.Halls.{HasActor};

use bank_hall::{BankActor, Hall, HallEnd, HallParts, Handled, KeeperActor, Pass, Port};
use dn_base::{BankId, CoreId, Gate, Memory};
use grant_log::Posted;
use message_net::Actor;
use phase_barrier::{Keeper, Verdict};
use registry_bank::Bank;
use std::alloc::Global;
use std::marker::Model;
use std::sync::Wait;
use std::sync::atomic::{AtomicU32, Ordering};

/// From this stamp on no message is handled.
pub(crate) const LAST_STAMP: u64 = 1 << 63;

/// The worker that makes the bank's steps.
const WORKER: u32 = 7;

/// Counts its calls, and keeps what the last was called with.
#[derive(Drop)]
pub(crate) struct Visits {
    calls: AtomicU32,
    worker: AtomicU32,
    bank: AtomicU32,
}

impl Visits {
    pub(crate) fn none() -> Visits {
        Visits {
            calls: AtomicU32::new(0),
            worker: AtomicU32::new(99),
            bank: AtomicU32::new(99),
        }
    }

    /// How many calls there were, and the last one's worker and bank.
    pub(crate) fn seen(&self) -> (u32, u32, u32) {
        (
            self.calls.load(Ordering::SeqCst),
            self.worker.load(Ordering::SeqCst),
            self.bank.load(Ordering::SeqCst),
        )
    }
}

impl Gate for Visits {
    fn at(&self, worker: u32, bank: BankId) {
        self.calls.fetch_add(1, Ordering::SeqCst);
        self.worker.store(worker, Ordering::SeqCst);
        self.bank.store(bank.0, Ordering::SeqCst);
    }
}

/// What is asked of a hall; a number is a pick.
#[derive(Clone, Copy)]
pub(crate) enum Ask {
    Post(Posted),
    Take(u32),
    BankStep(u32),
    KeeperStep(u32),
}

/// What the hall tells.
#[derive(Clone, Copy)]
pub(crate) enum Told {
    Posted,
    Taken(Option<Posted>),
    Handled(Option<Handled>),
    /// The stamp, the verdict, the number of the first letter, and the letter that would go to core 1.
    Verdict(Option<(u64, Verdict, u32, Option<Posted>)>),
}

impl Told {
    /// Whether the two tell the same.
    pub(crate) fn is(&self, other: &Told) -> bool {
        match (self, other) {
            (Told::Posted, Told::Posted) => true,
            (Told::Taken(mail), Told::Taken(wanted)) => mail == wanted,
            (Told::Handled(handled), Told::Handled(wanted)) => handled == wanted,
            (Told::Verdict(verdict), Told::Verdict(wanted)) => verdict == wanted,
            _ => false,
        }
    }
}

/// The bank, of a memory of one word that is 0 and no locks, with an empty inbox.
fn bank(alloc: Global, next: u32, clock: u64) -> Result<BankActor, Memory>
    ensures { IfOk result (λ b. (b.state.bank.bank ≡ 0) × (b.state.inbox ≡ [])) }
{
    let bank = Bank::new(alloc, BankId(0), 1, 1, &[0], 0)?;
    Ok(BankActor::new(bank, Vec::new(alloc), next, clock))
}

/// The barrier controller of one core and one phase, with an empty inbox.
fn keeper(alloc: Global, next: u32, clock: u64) -> KeeperActor
    ensures { (length result.state.keeper.arrived ≡ 1) × (result.state.inbox ≡ []) }
{
    KeeperActor::new(Keeper::new(1, 1), Vec::new(alloc), next, clock)
}

/// A hall with one bank and one port, and its one pass.
#[derive(Drop)]
pub(crate) struct OneHall {
    hall: Hall,
    pass: Pass,
}

impl Model for OneHall {
    ghost use Rattle.std.specs.Prelude.{◌≡◌, length, All};
    ghost use Rattle.bank_hall.specs.Halls.{HallView, PassView, IsHallPass};

    ghost Value = { HallView × PassView };

    ghost view = { λ h. (h.hall, h.pass) };

    ghost invariant = { λ h. IsHallPass h.hall h.pass × All (λ t. t.passes ≡ 1) h.hall.banks × All (λ t. t.passes ≡ 1) h.hall.ports
        × All (λ t. t.passes ≡ 1) h.hall.keeper × (length h.hall.banks ≡ 1) × (length h.hall.ports ≡ 1) };
}

impl OneHall {
    /// The hall whose bank and barrier controller have this number for their next message and this clock.
    pub(crate) fn start(alloc: Global, next: u32, clock: u64) -> Result<OneHall, Memory> {
        let parts = HallParts {
            banks: vec![in alloc; bank(alloc, next, clock)?]?,
            ports: vec![in alloc; Port::new(Vec::new(alloc))]?,
            keeper: keeper(alloc, next, clock),
        };
        let (hall, mut passes) = Hall::start(alloc, parts, 1)?;
        match passes.pop() {
            Some(pass) => Ok(OneHall { hall, pass }),
            None => Err(Memory),
        }
    }

    fn post<R: Wait>(&mut self, rt: &R, mail: Posted) -> Result<Told, Memory>
        requires actor { HasActor self.old.0 mail.mail.to }
        requires stamp { mail.stamp ≤ 2 ^ 63 }
    {
        match self.hall.post(rt, &mut self.pass, mail) {
            Ok(()) => Ok(Told::Posted),
            Err((memory, _back)) => Err(memory),
        }
    }

    /// Posts a message to the bank, the core or the barrier controller.
    fn post_here<R: Wait>(&mut self, rt: &R, mail: Posted) -> Result<Told, Memory> {
        // for the proof alone: the read brings the invariant, by which the hall has one bank and one port
        let _hall = &self.hall;
        if mail.stamp > LAST_STAMP {
            return Err(Memory);
        }
        match mail.mail.to {
            Actor::Core(core) if core.0 == 0 => self.post(rt, mail),
            Actor::Bank(bank) if bank.0 == 0 => self.post(rt, mail),
            Actor::Keeper => self.post(rt, mail),
            _ => Err(Memory),
        }
    }

    fn take<R: Wait>(&mut self, rt: &R, pick: u32) -> Result<Told, Memory> {
        let taken = self.hall.take(rt, &mut self.pass, CoreId(0), pick)?;
        Ok(Told::Taken(taken))
    }

    fn bank_step<R: Wait>(&mut self, rt: &R, pick: u32, visits: &Visits) -> Result<Told, Memory> {
        let bank = BankId(0);
        let pass = &mut self.pass;
        let handled = self.hall.bank_step(rt, pass, WORKER, bank, pick, visits)?;
        Ok(Told::Handled(handled))
    }

    fn keeper_step<R: Wait>(&mut self, rt: &R, pick: u32) -> Result<Told, Memory> {
        let Some(handled) = self.hall.keeper_step(rt, &mut self.pass, pick)? else {
            return Ok(Told::Verdict(None));
        };
        let letter = handled.letter(CoreId(1));
        Ok(Told::Verdict(Some((
            handled.stamped.stamp,
            handled.verdict,
            handled.first,
            letter,
        ))))
    }

    fn once<R: Wait>(&mut self, rt: &R, ask: Ask, visits: &Visits) -> Result<Told, Memory> {
        match ask {
            Ask::Post(mail) => self.post_here(rt, mail),
            Ask::Take(pick) => self.take(rt, pick),
            Ask::BankStep(pick) => self.bank_step(rt, pick, visits),
            Ask::KeeperStep(pick) => self.keeper_step(rt, pick),
        }
    }

    /// What the hall tells of this.
    fn told<R: Wait>(&mut self, rt: &R, ask: Ask, visits: &Visits) -> Result<Told, Memory> {
        match self.once(rt, ask, visits) {
            Err(Memory) => self.once(rt, ask, visits),
            told => told,
        }
    }

    /// The place of the first line of this talk in which the hall tells something else.
    pub(crate) fn first_wrong<R: Wait>(
        &mut self,
        rt: &R,
        talk: &[(Ask, Told)],
        visits: &Visits,
    ) -> Result<Option<usize>, Memory> {
        for (place, (ask, wanted)) in talk.iter().enumerate() {
            if !self.told(rt, *ask, visits)?.is(wanted) {
                return Ok(Some(place));
            }
        }
        Ok(None)
    }

    fn close(self, alloc: Global) -> Result<HallEnd, Memory> {
        let OneHall { hall, pass } = self;
        let passes = vec![in alloc; pass]?;
        hall.close(alloc, passes)
    }

    /// Closes the hall. How many calls there were of the bank, of the port and of the barrier controller.
    pub(crate) fn calls(self, alloc: Global) -> Result<(usize, usize, usize), Memory> {
        let end = self.close(alloc)?;
        Ok(calls_in(&end))
    }
}

/// How many calls there were of the bank, of the port and of the barrier controller.
fn calls_in(end: &HallEnd) -> (usize, usize, usize) {
    let banks = end.banks.first().map_or(0, |history| history.len());
    let ports = end.ports.first().map_or(0, |history| history.len());
    (banks, ports, end.keeper.len())
}
