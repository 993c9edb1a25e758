ghost use Rattle.std.specs.Prelude.{◌≡◌, ◌≤◌, true};
ghost use Rattle.std.specs.Int.{IsInRange};
ghost use Rattle.message_net.specs.Mail.{has_actor};
ghost use Rattle.run_timing.specs.Network.{IsWithinLatency, delay, difference, hops, no_latency, tile_of};

use dn_base::Shape;
use message_net::Actor;

/// How many hops a message takes from its sender to its receiver: this project's profile.
#[derive(Clone, Copy, PartialEq, Eq)]
pub enum Net {
    /// One hop between any two actors.
    Uniform,
    /// A mesh of 4 × 4 tiles: the columns and rows between the tiles of the two actors.
    Mesh,
}

/// The network of a machine: how many ticks a message takes for each hop, 0 to 1,000,000, and how many hops there are.
#[derive(Clone, Copy, PartialEq, Eq)]
pub struct Network {
    pub net: Net,
    pub latency: u32,
}

/// The tile of an actor, below 16.
fn tile(shape: Shape, actor: Actor) -> u32
    requires there { has_actor shape.cores shape.banks actor ≡ true }
    requires cores { shape.cores ≤ 16 }
    requires banks { IsInRange 1 16 shape.banks }
    ensures value { result ≡ tile_of shape actor }
    ensures most { result ≤ 15 }
{
    match actor {
        Actor::Core(core) => core.0,
        Actor::Bank(bank) => 16 * bank.0 / shape.banks,
        Actor::Keeper => 5,
    }
}

/// How far two numbers are apart.
fn apart(a: u32, b: u32) -> u32
    ensures value { result ≡ difference a b }
    ensures most_first { b ≤ a → result ≤ a }
    ensures most_second { a ≤ b → result ≤ b }
{
    if a < b { b - a } else { a - b }
}

impl Network {
    /// A network in which messages take no time on their way.
    pub fn no_latency() -> Network
        ensures { result ≡ no_latency }
    {
        Network {
            net: Net::Uniform,
            latency: 0,
        }
    }

    /// How many hops a message takes, at most 6.
    fn hops(&self, shape: Shape, from: Actor, to: Actor) -> u32
        requires from { has_actor shape.cores shape.banks from ≡ true }
        requires to { has_actor shape.cores shape.banks to ≡ true }
        requires cores { shape.cores ≤ 16 }
        requires banks { IsInRange 1 16 shape.banks }
        ensures value { result ≡ hops self.now.net shape from to }
        ensures most { result ≤ 6 }
    {
        match self.net {
            Net::Uniform => 1,
            Net::Mesh => {
                let (here, there) = (tile(shape, from), tile(shape, to));
                apart(here % 4, there % 4) + apart(here / 4, there / 4)
            }
        }
    }

    /// How many ticks a message from one actor of a machine to another is under way: at most 6,000,000.
    pub fn delay(&self, shape: Shape, from: Actor, to: Actor) -> u64
        requires from { has_actor shape.cores shape.banks from ≡ true }
        requires to { has_actor shape.cores shape.banks to ≡ true }
        requires cores { shape.cores ≤ 16 }
        requires banks { IsInRange 1 16 shape.banks }
        requires latency { IsWithinLatency self.now }
        ensures value { result ≡ delay self.now shape from to }
        ensures most { result ≤ 6000000 }
    {
        self.latency as u64 * self.hops(shape, from, to) as u64
    }
}
