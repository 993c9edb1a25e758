ghost use Rattle.std.specs.Prelude.{◌≡◌};

use dn_base::{Memory as NoRoom, Sequence};
use message_net::Event;
use std::alloc::{AllocError, AllocFailed};

/// What a document tells of the machine's size and the fuel: 1 to 16 banks, 1 to 256 sets, 1 to 16 ways, and 1 to 32,768
/// instructions for each task. The number of cores follows from the program.
#[derive(Clone, Copy, PartialEq, Eq)]
pub struct TraceShape {
    pub banks: u32,
    pub sets: u32,
    pub ways: u32,
    pub fuel: u32,
}

/// What a document tells of a run: the machine's size and the fuel; the source text of the program, at most 1,048,576 bytes;
/// and the events in their order, at most 25,169,664.
#[derive(Drop)]
pub struct Trace {
    pub shape: TraceShape,
    pub text: Sequence<u8>,
    pub events: Sequence<Event>,
}

/// Why some bytes are no document. The first of these that is true of the bytes is given.
#[derive(Clone, Copy, PartialEq, Eq)]
pub enum TraceFault {
    /// There are more than 536,870,912 bytes.
    TooLarge,
    /// The bytes don't begin with a head: the first lines and the source text, up to the line that says how many events follow.
    Head,
    /// The event line of this number, from 0, isn't complete and of its form; all lines before it are.
    Line { number: u32 },
    /// Bytes follow the last event line.
    Rest,
    /// There wasn't enough memory.
    Memory,
}

impl From<NoRoom> for TraceFault {
    ghost use Rattle.run_replay.specs.declared.trace.TraceFault.TheVariants.{Memory as WantsMemory};

    ghost from_gives = { λ _ fault. fault ≡ WantsMemory };

    fn from(_error: NoRoom) -> TraceFault {
        TraceFault::Memory
    }
}

impl From<AllocError> for TraceFault {
    ghost use Rattle.run_replay.specs.declared.trace.TraceFault.TheVariants.{Memory as WantsMemory};

    ghost from_gives = { λ _ fault. fault ≡ WantsMemory };

    fn from(_error: AllocError) -> TraceFault {
        TraceFault::Memory
    }
}

impl<T: Drop> From<AllocFailed<T>> for TraceFault {
    ghost use Rattle.run_replay.specs.declared.trace.TraceFault.TheVariants.{Memory as WantsMemory};

    ghost from_gives = { λ _ fault. fault ≡ WantsMemory };

    fn from(_error: AllocFailed<T>) -> TraceFault {
        TraceFault::Memory
    }
}
