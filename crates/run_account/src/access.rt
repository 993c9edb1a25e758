ghost use Rattle.std.specs.Prelude.{◌≡◌};
ghost use Rattle.run_account.specs.Lists.{is_hit, gained};

use crate::cache::Share;
use dn_base::{CoreId, PhaseId, WordId};

/// How an access uses its word.
#[derive(Clone, Copy)]
pub enum AccessKind {
    /// It reads the word.
    Load,
    /// It writes the word, or a part of it.
    Store,
}

/// A load or a store that a core's task retires.
#[derive(Clone, Copy)]
pub struct CountedAccess {
    pub core: CoreId,
    pub phase: PhaseId,
    pub word: WordId,
    pub kind: AccessKind,
    /// Whether the core has waited for the word in the run.
    pub waited: bool,
}

impl AccessKind {
    /// Whether an access is a hit with lists, by what its core has of the word.
    pub(crate) fn is_hit(self, had: Option<Share>) -> bool
        ensures { result ≡ is_hit self had }
    {
        match (self, had) {
            (AccessKind::Load, Some(_)) | (AccessKind::Store, Some(Share::Owned)) => true,
            (AccessKind::Load, None) | (AccessKind::Store, None | Some(Share::Shared)) => false,
        }
    }

    /// What the core has of the word after the access.
    pub(crate) fn gain(self, had: Option<Share>) -> Share
        ensures { result ≡ gained self had }
    {
        match (self, had) {
            (AccessKind::Load, None) => Share::Shared,
            (AccessKind::Load, Some(share)) => share,
            (AccessKind::Store, _) => Share::Owned,
        }
    }
}
