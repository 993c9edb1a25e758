ghost use Rattle.std.specs.Prelude.{ℕ, ◌+◌, ◌%◌, ◌^◌};

use dn_base::Memory;
use std::alloc::Global;
use turn_lock::{Entry, Object};

// The history under the lock has room for as many calls from the start as a turn's history.
const FIRST_CALLS: usize = 4_096;

/// Adds its input to a total, and answers the total, modulo 2^64.
#[derive(Drop)]
pub struct Total {
    pub sum: u64,
}

impl Object for Total {
    type In = u32;

    type Out = u64;

    ghost Content = { ℕ };

    ghost content = { λ t. t.sum };

    ghost spare = { λ t. 1 };

    ghost answer = { λ sum n. (sum + n) % 2 ^ 64 };

    ghost next = { λ sum n. (sum + n) % 2 ^ 64 };

    fn reserve(&mut self) -> Result<(), Memory> {
        Ok(())
    }

    fn step(&mut self, input: u32) -> u64 {
        self.sum = self.sum.wrapping_add(u64::from(input));
        self.sum
    }
}

/// The same with the history of its calls, for callers that keep both under one lock.
#[derive(Drop)]
pub struct Noted {
    pub total: Total,
    pub history: Vec<Entry<Total>>,
}

impl Noted {
    /// A total of 0 with no calls.
    ///
    /// # Errors
    /// `Memory` where there is none for the history's first room.
    pub fn new(alloc: Global) -> Result<Noted, Memory> {
        Ok(Noted {
            total: Total { sum: 0 },
            history: Vec::with_capacity(alloc, FIRST_CALLS)?,
        })
    }

    /// One call, as a turn makes it; it answers how many calls there are then.
    ///
    /// # Errors
    /// `Memory` where the history finds no room; then no call was made.
    pub fn call(&mut self, pass: u32, input: u32) -> Result<u64, Memory> {
        self.total.reserve()?;
        self.history.reserve(1)?;
        let output = self.total.step(input);
        self.history.push_reserved(Entry {
            pass,
            input,
            output,
        });
        Ok(self.history.len() as u64)
    }
}
