/// The number of a core, from 0 to 15.
#[derive(Clone, Copy, Debug, PartialEq, Eq, PartialOrd, Ord)]
pub struct CoreId(pub u32);

/// The number of a bank of the shared memory, from 0 to 15.
#[derive(Clone, Copy, Debug, PartialEq, Eq, PartialOrd, Ord)]
pub struct BankId(pub u32);

/// The number of a data word of 32 bits. Word `w` has the byte address `0x10000000 + 4w`.
#[derive(Clone, Copy, Debug, PartialEq, Eq, PartialOrd, Ord)]
pub struct WordId(pub u32);

/// The number of a lock, in the order in which the program declares them.
#[derive(Clone, Copy, Debug, PartialEq, Eq, PartialOrd, Ord)]
pub struct LockId(pub u32);

/// The number of a phase of the program, from 0.
#[derive(Clone, Copy, Debug, PartialEq, Eq, PartialOrd, Ord)]
pub struct PhaseId(pub u32);

/// A grant of a lock: the phase, the core that got it, and the lock.
#[derive(Clone, Copy, Debug, PartialEq, Eq)]
pub struct Grant {
    pub phase: PhaseId,
    pub core: CoreId,
    pub lock: LockId,
}

/// A load that retired: the data word that it read, and the value of that whole word.
#[derive(Clone, Copy, Debug, PartialEq, Eq)]
pub struct LoadSeen {
    pub word: WordId,
    pub value: u32,
}

/// The size of a simulated machine: how many cores and banks it has, and how many sets and ways each core's cache has.
///
/// A plain value. The calls that take a shape require 1 to 16 cores, 1 to 16 banks, 1 to 256 sets and 1 to 16 ways.
#[derive(Clone, Copy, PartialEq, Eq)]
pub struct Shape {
    pub cores: u32,
    pub banks: u32,
    pub sets: u32,
    pub ways: u32,
}
