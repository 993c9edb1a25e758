ghost use Rattle.std.specs.Prelude.{◌≡◌};
ghost use Rattle.registration_protocol.specs.Node.{entry_of};
ghost use Rattle.registration_protocol.specs.OwnEvents.{may_access, lets, crowded, wanted_by};
ghost use Rattle.registration_protocol.specs.Outlook.{is_clear, lacked};

use crate::node::Node;
use dn_base::WordId;
use rv_core::Need;
use word_cache::{Entry, Probe};

/// What a node's cache says of the next instruction.
#[derive(Clone, Copy)]
pub(crate) enum Outlook {
    /// It is enabled.
    Goes,
    /// It may not, and no eviction would help: there is no instruction, or its word is leaving, or an entry is pending.
    Stalls,
    /// It may not: its word has no entry, and the word's set has no room.
    Lacks(WordId),
}

impl Outlook {
    /// Whether the instruction may go on.
    #[inline(always)]
    pub(crate) fn is_clear(&self) -> bool
        ensures { result ≡ is_clear self.now }
    {
        matches!(self, Outlook::Goes)
    }

    /// The word that lacks a place, if one does.
    #[inline(always)]
    pub(crate) fn missing_word(&self) -> Option<WordId>
        ensures { result ≡ lacked self.now }
    {
        match self {
            Outlook::Lacks(word) => Some(*word),
            Outlook::Goes | Outlook::Stalls => None,
        }
    }
}

impl Node {
    /// The outlook for an access of the word, by one look at its set.
    #[inline(always)]
    fn access(&self, word: WordId) -> Outlook
        ensures goes { is_clear result ≡ may_access self.now word.0 (entry_of self.now word.0) }
        ensures lacked { lacked result ≡ crowded self.now word }
    {
        match self.cache.probe(word) {
            Probe::Hit { entry, .. } => match entry {
                Entry::Valid { .. } | Entry::Registered { .. } => Outlook::Goes,
                Entry::Leaving(_) => Outlook::Stalls,
            },
            Probe::Room { .. } => Outlook::Goes,
            Probe::Full => Outlook::Lacks(word),
        }
    }

    /// The outlook for an instruction with this need.
    #[inline(always)]
    pub(crate) fn outlook(&self, need: Option<Need>) -> Outlook
        ensures goes { is_clear result ≡ lets self.now need }
        ensures lacked { lacked result ≡ wanted_by self.now need }
    {
        match need {
            Some(Need::Local | Need::End { .. } | Need::Acquire { .. }) => Outlook::Goes,
            Some(Need::Release { .. }) if self.is_settled() => Outlook::Goes,
            Some(Need::Load { word }) => self.access(word),
            Some(Need::Store { word, .. }) => self.access(word),
            Some(Need::Release { .. }) | None => Outlook::Stalls,
        }
    }
}
