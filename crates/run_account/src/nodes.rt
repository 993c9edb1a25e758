ghost use Rattle.std.specs.Prelude.{◌≡◌};
ghost use Rattle.run_account.specs.Events.{item_of};

use crate::{Item, Measure};
use dn_base::WordId;
use registration_protocol::Node;

/// An item of a node's core in its phase.
pub(crate) fn item(node: &Node, measure: Measure, word: Option<WordId>) -> Item
    ensures { result ≡ item_of measure node.now word }
{
    Item {
        measure,
        phase: node.phase(),
        core: node.core(),
        word,
    }
}
