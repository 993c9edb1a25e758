ghost use Rattle.std.specs.Prelude.{◌≡◌};
ghost use Rattle.message_net.specs.Id.{same_id};
ghost use Rattle.message_net.specs.Mail.{actor_index};

use dn_base::{BankId, CoreId};

/// A sender or receiver of messages. In the order of actors the cores come first, then the banks, each by number, then the
/// barrier controller of the barrier.
#[derive(Clone, Copy, Debug, PartialEq, Eq, PartialOrd, Ord)]
pub enum Actor {
    Core(CoreId),
    Bank(BankId),
    Keeper,
}

/// The id of a message: its sender, and how many messages that sender had sent before it.
#[derive(Clone, Copy, Debug, PartialEq, Eq)]
pub struct MailId {
    pub sender: Actor,
    pub number: u32,
}

/// Whether two ids are the same.
pub(crate) fn is_same(a: MailId, b: MailId) -> bool
    ensures { result ≡ same_id a b }
{
    a == b
}

impl Actor {
    /// The index of the actor among all of a machine with this many cores and banks: cores come first, then banks, then the
    /// barrier controller.
    #[inline(always)]
    pub fn index(&self, cores: u32, banks: u32) -> usize
        ensures { result ≡ actor_index cores banks self.now }
    {
        match self {
            Actor::Core(core) => core.0 as usize,
            Actor::Bank(bank) => cores as usize + bank.0 as usize,
            Actor::Keeper => cores as usize + banks as usize,
        }
    }
}
