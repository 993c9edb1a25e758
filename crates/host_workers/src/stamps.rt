ghost use Rattle.std.specs.Prelude.{◌≡◌};
ghost use Rattle.message_net.specs.Mail.{has_actor};

use dn_base::Shape;
use message_net::Actor;

/// Whether a machine of this shape has the actor.
pub(crate) fn has_actor(shape: Shape, actor: Actor) -> bool
    ensures { result ≡ has_actor shape.cores shape.banks actor }
{
    match actor {
        Actor::Core(core) => core.0 < shape.cores,
        Actor::Bank(bank) => bank.0 < shape.banks,
        Actor::Keeper => true,
    }
}
