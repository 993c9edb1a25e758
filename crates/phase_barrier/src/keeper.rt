ghost use Rattle.std.specs.Prelude.{◌≡◌, ◌+◌, ◌<◌, ◌≤◌, ◌||◌, Some, None, false, length, slice_get, IsTrue};
ghost use Rattle.phase_barrier.specs.Barrier.{has_arrived, initial_barrier, all_arrived, is_over, in_next_phase, answer_to_all, decided, with_arrival, keeper_arrives, keeper_gets};
ghost use Rattle.phase_barrier.specs.Letters.{letter_of};

use dn_base::{CoreId, MOST_CORES, PhaseId};
use message_net::Message;
use std::marker::Model;

/// What the keeper answers to an arrival.
#[derive(Clone, Copy, Debug, PartialEq, Eq)]
pub enum Verdict {
    /// The core waits: another core is missing, or the arrival changed nothing.
    Wait,
    /// All have arrived, and the next phase begins.
    Go { phase: PhaseId },
    /// All have arrived, and the run is over.
    Halt,
}

impl Verdict {
    /// The message that tells each core the verdict; None for Wait.
    pub fn letter(&self) -> Option<Message>
        ensures { result ≡ letter_of self.now }
    {
        match self {
            Verdict::Wait => None,
            Verdict::Go { phase } => Some(Message::Go { phase: *phase }),
            Verdict::Halt => Some(Message::Halt),
        }
    }
}

/// The keeper of the barrier: the current phase, which cores have arrived in it, and whether one was bad: its task trapped or
/// ran out of fuel.
///
/// Contracts see these, and the number of phases.
#[derive(Drop)]
pub struct Keeper {
    cores: u32,
    phases: u32,
    phase: u32,
    arrived: [bool; MOST_CORES],
    bad: bool,
}

impl Model for Keeper {
    ghost use Rattle.std.specs.Prelude.{◌≤◌, take};
    ghost use Rattle.phase_barrier.specs.Barrier.{Barrier};

    ghost Value = { Barrier };

    ghost view = { λ k. record { phases = k.phases; phase = k.phase; arrived = take k.cores k.arrived; bad = k.bad } };

    ghost invariant = { λ k. (k.cores ≤ 16) × (k.phases ≤ 64) × (k.phase ≤ 64) };
}

impl Keeper {
    /// The keeper of a machine of `cores` cores, 1 to 16, and a program of `phases` phases, at most 64: the first phase is
    /// current, and nobody has arrived. Takes no memory.
    pub fn new(cores: u32, phases: u32) -> Keeper
        requires some { 1 ≤ cores }
        requires cores { cores ≤ 16 }
        requires phases { phases ≤ 64 }
        ensures { result ≡ initial_barrier cores phases }
    {
        Keeper {
            cores,
            phases,
            phase: 0,
            arrived: [false; MOST_CORES],
            bad: false,
        }
    }

    /// How many cores there are, from 1 to 16. Takes no memory.
    pub fn cores(&self) -> u32
        ensures count { result ≡ length self.now.arrived }
        ensures few { result ≤ 16 }
    {
        self.cores
    }

    /// The current phase. Takes no memory.
    pub fn phase(&self) -> PhaseId
        ensures { result.0 ≡ self.now.phase }
    {
        PhaseId(self.phase)
    }

    /// How many phases there are, at most 64. Takes no memory.
    pub fn phases(&self) -> u32
        ensures { result ≡ self.now.phases }
    {
        self.phases
    }

    /// Whether a core has arrived in the current phase; false if the machine has no such core. Takes no memory.
    pub fn has_arrived(&self, core: CoreId) -> bool
        ensures { result ≡ has_arrived core.0 self.now }
    {
        match self.flags().get(core.0 as usize) {
            Some(arrived) => *arrived,
            None => false,
        }
    }

    /// Whether a core that has arrived, in the current phase or an earlier one, was bad. Takes no memory.
    pub fn is_bad(&self) -> bool
        ensures { result ≡ self.now.bad }
    {
        self.bad
    }

    /// For each core whether it has arrived.
    fn flags(&self) -> &[bool]
        ensures { result.now ≡ self.now.arrived }
    {
        &self.arrived[..self.cores as usize]
    }

    /// Notes that the core has arrived.
    fn count(&mut self, core: CoreId, bad: bool)
        requires { core.0 < length self.old.arrived }
        ensures { self.new ≡ with_arrival core.0 bad self.old }
    {
        self.arrived[core.0 as usize] = true;
        self.bad |= bad;
    }

    /// Whether every core has arrived.
    fn is_full(&self) -> bool
        ensures { result ≡ all_arrived self.now }
    {
        self.flags().iter().all(|arrived| *arrived)
    }

    /// The answer once every core has arrived.
    fn release(&mut self) -> Verdict
        ensures keeper { self.new ≡ (answer_to_all self.old).0 }
        ensures verdict { result ≡ (answer_to_all self.old).1 }
    {
        if self.bad || self.phases <= self.phase + 1 {
            return Verdict::Halt;
        }
        self.phase += 1;
        self.arrived = [false; MOST_CORES];
        Verdict::Go {
            phase: PhaseId(self.phase),
        }
    }

    /// A core arrives in the current phase. `bad` says that its task ended by a trap or because it ran out of fuel.
    ///
    /// The verdict is Wait while a core is missing. When all have arrived, it is Halt if one was bad or there is no next phase,
    /// otherwise Go: then the next phase is the current one, and nobody has arrived in it. An arrival of a core that has
    /// arrived already or doesn't exist, and every arrival after Halt, gets Wait and changes nothing. Takes no memory.
    pub fn arrived(&mut self, core: CoreId, bad: bool) -> Verdict
        ensures keeper { self.new ≡ (keeper_arrives self.old core.0 bad).0 }
        ensures verdict { result ≡ (keeper_arrives self.old core.0 bad).1 }
    {
        match self.flags().get(core.0 as usize) {
            Some(false) => {}
            _ => return Verdict::Wait,
        }
        self.count(core, bad);
        if self.is_full() {
            self.release()
        } else {
            Verdict::Wait
        }
    }

    /// The keeper's answer to a message: to an arrival as above; any other kind gets Wait and changes nothing. Takes no memory.
    #[tactic(auto, unfolding(crate::specs::Barrier::keeper_gets))]
    pub fn handle(&mut self, message: Message) -> Verdict
        ensures keeper { self.new ≡ (keeper_gets self.old message).0 }
        ensures verdict { result ≡ (keeper_gets self.old message).1 }
    {
        match message {
            Message::Arrived { core, bad } => self.arrived(core, bad),
            _ => Verdict::Wait,
        }
    }
}

/// Compiles only if the type may be sent to another thread and shared with it.
fn crosses<T: Send + Sync>(_value: &T) {}

/// A keeper may be sent to another thread, and shared with it. Nobody calls this; the check of its body proves it.
fn keeper_crosses(keeper: &Keeper) {
    crosses(keeper);
}
