ghost use Rattle.std.specs.Prelude.{◌≡◌, [], ◌∷◌, OnOk};
ghost use Rattle.flat_machine.specs.Accesses.{with_actions};

use dn_base::{CoreId, Grant, Memory, PhaseId, Sequence, WordId};

/// Whether an instruction loads or stores.
#[derive(Clone, Copy, Debug, PartialEq, Eq)]
pub enum AccessKind {
    Load,
    Store,
}

/// A load or store of a data word by a task of the flat machine.
#[derive(Clone, Copy, Debug)]
pub struct FlatAccess {
    pub phase: PhaseId,
    pub core: CoreId,
    /// The address of the instruction.
    pub pc: u32,
    /// The locks that the task holds, as the bits of a number.
    pub held: u32,
    /// How many loads the task had done before.
    pub number: usize,
    pub kind: AccessKind,
    pub word: WordId,
    /// The value of the whole word: the one that a load finds, or the one that a store leaves.
    pub value: u32,
}

/// What the one thread of the flat machine does that other tasks can notice.
#[derive(Clone, Copy, Debug)]
pub enum FlatAction {
    /// A task loads or stores a data word.
    Accesses(FlatAccess),
    /// A task acquires the lock that it is granted.
    Takes(Grant),
}

/// Adds an action to a log, if actions are logged.
///
/// # Errors
/// `Memory` where there is no room for it.
pub(crate) fn note(log: &mut Option<Sequence<FlatAction>>, action: FlatAction) -> Result<(), Memory>
    ensures { OnOk result (log.new ≡ with_actions log.old (action ∷ [])) }
{
    match log {
        None => Ok(()),
        Some(actions) => actions.push(action),
    }
}
