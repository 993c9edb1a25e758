ghost use Rattle.std.specs.Prelude.{◌≡◌, ◌<◌, map};
ghost use Rattle.grant_log.specs.Counts.{kind_count, no_counts, added, AreCounts};

use crate::log::Stamped;
use message_net::EventKind;

/// How many events of each kind there were, in the order in which `EventKind` names the kinds.
#[derive(Clone, Copy, PartialEq, Eq)]
pub struct Counts {
    pub kinds: [u64; 17],
}

impl Counts {
    /// No event of any kind.
    pub fn none() -> Counts
        ensures { result ≡ no_counts }
    {
        Counts { kinds: [0; 17] }
    }

    /// How many events of this kind there were.
    pub fn count(&self, kind: EventKind) -> u64
        ensures { result ≡ kind_count kind self.now }
    {
        self.kinds[kind.index()]
    }

    /// Counts one more event of this kind. Its count is below 2^64 - 1.
    pub fn add(&mut self, kind: EventKind)
        requires { kind_count kind self.old < 18446744073709551615 }
        ensures { self.new ≡ added kind self.old }
    {
        self.kinds[kind.index()] += 1;
    }

    /// The counts of these entries.
    pub fn of(merged: &[Stamped]) -> Counts
        ensures { AreCounts (map (λ e. e.kind) merged.now) result }
    {
        let mut counts = Counts::none();
        for entry in merged {
            counts.add(entry.kind);
        }
        counts
    }
}
