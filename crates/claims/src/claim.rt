ghost use Rattle.std.specs.Prelude.{◌≡◌};

use dn_base::{Grant, Memory as NoRoom, Sequence};
use flat_machine::TaskLoads;
use std::alloc::{AllocError, AllocFailed};

/// What a claim is about: the program of a source text of at most 1,048,576 bytes, each of whose tasks may retire `fuel`
/// instructions, from 1 to 32,768.
#[derive(Drop)]
pub struct Question {
    pub fuel: u32,
    pub text: Sequence<u8>,
}

/// What determines a run: a question, and the order in which locks are granted.
#[derive(Drop)]
pub struct GrantOrder {
    pub question: Question,
    pub grants: Sequence<Grant>,
}

/// What a simulator says of a run: the order of its lock grants; the loads of each task that started, in the order of the
/// phases and cores, or None if nothing is said of loads; and the answer, as the mode run prints it.
#[derive(Drop)]
pub struct Claim {
    pub question: Question,
    pub grants: Sequence<Grant>,
    pub loads: Option<Sequence<TaskLoads>>,
    pub answer: Sequence<u8>,
}

/// Why some bytes are no claim, or no prefix of a claim that stands alone. The first of these that is true of the bytes is
/// given.
#[derive(Clone, Copy)]
pub enum ClaimFault {
    /// There are more than 536,870,912 bytes.
    TooLarge,
    /// The bytes don't begin with a head: the first lines and the source text, up to the line with the number of grants. If a
    /// question is read, the head is the question.
    Head,
    /// The grant line of this number, from 0, isn't complete and of its form; all lines before it are.
    Grant { number: u32 },
    /// After the grants there is no line with the number of tasks whose loads are claimed.
    Loads,
    /// The line of this task, from 0, isn't complete and of its form.
    Task { number: u32 },
    /// The line of this load, from 0, of this task, from 0, isn't complete and of its form.
    Load { task: u32, number: u32 },
    /// Something follows the question, or the grants, that should stand alone. A claim can't have this fault.
    Behind,
    /// There wasn't enough memory.
    Memory,
}

impl From<NoRoom> for ClaimFault {
    ghost use Rattle.claims.specs.declared.claim.ClaimFault.TheVariants.{Memory as WantsMemory};

    ghost from_gives = { λ _ fault. fault ≡ WantsMemory };

    fn from(_error: NoRoom) -> ClaimFault {
        ClaimFault::Memory
    }
}

impl From<AllocError> for ClaimFault {
    ghost use Rattle.claims.specs.declared.claim.ClaimFault.TheVariants.{Memory as WantsMemory};

    ghost from_gives = { λ _ fault. fault ≡ WantsMemory };

    fn from(_error: AllocError) -> ClaimFault {
        ClaimFault::Memory
    }
}

impl<T: Drop> From<AllocFailed<T>> for ClaimFault {
    ghost use Rattle.claims.specs.declared.claim.ClaimFault.TheVariants.{Memory as WantsMemory};

    ghost from_gives = { λ _ fault. fault ≡ WantsMemory };

    fn from(_error: AllocFailed<T>) -> ClaimFault {
        ClaimFault::Memory
    }
}

/// Why the run log of a claim isn't written.
#[derive(Clone, Copy)]
pub enum ClaimTextError {
    /// It would have more than 536,870,912 bytes.
    TooLarge,
    /// There wasn't enough memory.
    Memory,
}

impl From<NoRoom> for ClaimTextError {
    ghost use Rattle.claims.specs.declared.claim.ClaimTextError.TheVariants.{Memory as WantsMemory};

    ghost from_gives = { λ _ error. error ≡ WantsMemory };

    fn from(_error: NoRoom) -> ClaimTextError {
        ClaimTextError::Memory
    }
}
