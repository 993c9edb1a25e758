use crate::object::Object;
use crate::rule::Board;
use std::marker::Model;

/// A shared object, with the line of the callers that wait for it. Any number of threads may make calls through a `&Turn`, each
/// with a pass of its own.
#[derive(Drop)]
pub struct Turn<O: Object> {
    pub(crate) table: Board<O>,
}

impl<O: Object> Model for Turn<O> {
    ghost use Rattle.std.specs.Prelude.{◌≡◌, ◌≤◌};
    ghost use Rattle.turn_lock.specs.Passes.{Sharing};

    ghost Value = { Sharing O };

    ghost view = { λ t. record { table = t.table.shared.table_id; opening = t.table.shared.key.object.value; passes = t.table.shared.key.passes } };

    ghost invariant = { λ t. (t.table.shared.table_id.words ≡ 2) × (t.table.shared.table_id.slots ≡ 1) × (1 ≤ t.table.shared.key.passes) };
}
