//! A gate at which two workers meet.
use dn_base::{BankId, Gate};
use std::sync::atomic::{AtomicBool, Ordering};
use std::thread;

/// How often a worker in its turn looks for the other one, at most.
const LOOKS: u32 = 100_000_000;

/// This many looks after each other; then the worker lets others run.
const BATCH: u32 = 1024;

/// Lets a worker go on once two of them stand in the turns of two banks at the same time, or once one has looked for the other
/// often enough.
#[derive(Drop)]
pub(crate) struct Meeting {
    first: AtomicBool,
    second: AtomicBool,
    missed: AtomicBool,
}

impl Meeting {
    /// Nobody is in yet.
    pub(crate) fn new() -> Meeting {
        Meeting {
            first: AtomicBool::new(false),
            second: AtomicBool::new(false),
            missed: AtomicBool::new(false),
        }
    }

    /// The first time, says that one is in, and looks for the other.
    fn meet(&self, own: &AtomicBool, other: &AtomicBool) {
        if own.swap(true, Ordering::SeqCst) {
            return;
        }
        for look in 0..LOOKS {
            if other.load(Ordering::SeqCst) {
                return;
            }
            if look % BATCH == 0 {
                thread::yield_now();
            }
        }
        self.missed.store(true, Ordering::SeqCst);
    }

    /// Whether both were in, and neither missed the other.
    pub(crate) fn have_met(&self) -> bool {
        self.first.load(Ordering::SeqCst)
            && self.second.load(Ordering::SeqCst)
            && !self.missed.load(Ordering::SeqCst)
    }
}

impl Gate for Meeting {
    fn at(&self, worker: u32, bank: BankId) {
        match (worker, bank) {
            (0, BankId(0)) => self.meet(&self.first, &self.second),
            (1, BankId(1)) => self.meet(&self.second, &self.first),
            _ => {}
        }
    }
}
