ghost use Rattle.std.specs.Prelude.{◌≡◌, ◌≤◌};
ghost use Rattle.std.specs.Int.{IsInRange};
ghost use Rattle.run_timing.specs.Network.{IsWithinLatency};
ghost use Rattle.run_timing.specs.Ticks.{AreWithinLimits, through, ticks_by, ticks_of};

use crate::network::Network;
use message_net::EventKind;

/// How many ticks an event of each kind takes, in the order in which `EventKind` names the kinds: 1 to 1,000,000. And the network, by
/// which a message takes some ticks on its way.
#[derive(Clone, Copy, PartialEq, Eq)]
pub struct Ticks {
    pub kinds: [u32; 17],
    pub network: Network,
}

impl Ticks {
    /// The ticks of each kind: `core` for a core's own events, `bank` for those that a bank handles, and `mail` for all others.
    /// Each must be 1 to 1,000,000. Messages take no time on their way.
    #[tactic(auto, unfolding(run_report::specs::Run::all_kinds))]
    pub fn by_place(core: u32, bank: u32, mail: u32) -> Ticks
        requires core { IsInRange 1 1000000 core }
        requires bank { IsInRange 1 1000000 bank }
        requires mail { IsInRange 1 1000000 mail }
        ensures value { result ≡ ticks_by core bank mail }
        ensures limits { AreWithinLimits result }
    {
        Ticks {
            kinds: [
                core, core, core, bank, mail, mail, bank, mail, mail, bank, mail, bank, bank, mail,
                mail, mail, mail,
            ],
            network: Network::no_latency(),
        }
    }

    /// The same ticks of events, with messages that take this network.
    pub fn with_network(self, network: Network) -> Ticks
        requires limits { AreWithinLimits self }
        requires latency { IsWithinLatency network }
        ensures value { result ≡ through network self }
        ensures limits { AreWithinLimits result }
    {
        let kinds = self.kinds;
        Ticks { kinds, network }
    }

    /// The ticks at the index of this kind.
    fn kind_ticks(&self, kind: EventKind) -> u32
        ensures { result ≡ ticks_of self.now kind }
    {
        self.kinds[kind as usize]
    }

    /// The ticks of an event of this kind, if they are within their limits.
    pub fn of(&self, kind: EventKind) -> u32
        requires { AreWithinLimits self.now }
        ensures value { result ≡ ticks_of self.now kind }
        ensures most { result ≤ 1000000 }
    {
        self.kind_ticks(kind)
    }
}
