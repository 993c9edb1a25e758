//! Why an answer is open.
use common_outcomes::Open;
use dn_base::{CoreId, LockId, WordId};

/// A load of a word whose value the order of grants may decide.
#[derive(Clone, Copy)]
pub struct Read {
    /// The address of the load.
    pub pc: u32,
    pub word: WordId,
    /// The number of the least lock that the task held then and that guards the word for it.
    pub lock: Option<u32>,
}

/// A register on which it depends what a task does next, and the load that its value comes from.
#[derive(Clone, Copy)]
pub struct Dependence {
    /// The number of the register.
    pub register: u32,
    pub read: Read,
}

/// An acquire of a task alone.
#[derive(Clone, Copy)]
pub(crate) struct Taking {
    pub(crate) core: CoreId,
    /// The address of its ECALL.
    pub(crate) pc: u32,
    pub(crate) lock: LockId,
    /// The locks that the task held then, as bits.
    pub(crate) held: u32,
}

/// An acquire for which an answer is open.
#[derive(Clone, Copy)]
pub struct Taken {
    /// The core of the task that acquires the lock.
    pub core: CoreId,
    /// The address of its ECALL.
    pub pc: u32,
    pub lock: LockId,
    /// The number of a lock of the circle that the task holds then.
    pub holding: Option<u32>,
}

/// Which acquire is sought.
#[derive(Clone, Copy)]
pub(crate) enum Sought {
    /// One of the lock by the core's task,
    Own { core: CoreId, lock: LockId },
    /// or by the task of another core;
    Other { core: CoreId, lock: LockId },
    /// or one from which a way leads to the lock, while this lock is held,
    Onward { lock: LockId },
    /// or one of the lock while another one is held to which a way leads from it.
    Back { lock: LockId },
}

/// Why an answer is open.
#[derive(Clone, Copy)]
pub struct Reason {
    pub why: Open,
    /// Where control is open: what it depends on.
    pub dependence: Option<Dependence>,
    /// Where a task ends with a lock: where it acquired it. Where a lock is on a circle: where another lock of the circle is
    /// acquired while this one is held.
    pub first: Option<Taken>,
    /// Where a task ends with a lock: where another task acquires it. Where a lock is on a circle: where it is acquired while another
    /// lock of the circle is held.
    pub second: Option<Taken>,
}
