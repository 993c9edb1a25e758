use crate::words::WordSet;
use dn_base::{CoreId, Name, Sequence};

/// A named part of the memory: `len` data words from word `start` on.
#[derive(Drop)]
pub struct Region {
    pub name: Name,
    pub start: u32,
    pub len: u32,
}

/// The words that a task declares to use.
#[derive(Drop)]
pub struct Effects {
    /// The words that it may load, with or without locks.
    pub reads: WordSet,
    /// The words that it may load and store, with or without locks.
    pub writes: WordSet,
    /// By the number of a lock, the words that it may load while it holds that lock.
    pub guarded_reads: Sequence<WordSet>,
    /// By the number of a lock, the words that it may load and store while it holds that lock.
    pub guarded_writes: Sequence<WordSet>,
}

/// A task of a phase, as the program declares it.
#[derive(Drop)]
pub struct TaskDecl {
    /// The core that runs the task.
    pub core: CoreId,
    /// The address of the task's first instruction in bytes, a multiple of 4.
    pub entry: u32,
    /// The value of register `x10` when the task starts.
    pub arg: u32,
    pub effects: Effects,
}

/// A phase: its tasks in rising order of their cores, of which each has at most one.
#[derive(Drop)]
pub struct Phase {
    pub tasks: Sequence<TaskDecl>,
}
