ghost use Rattle.std.specs.Prelude.{◌≡◌, ◌<◌, ◌≤◌, [], ◌∷◌, ◌++◌, OnOk, vec_len, vec_capacity};
ghost use Rattle.turn_lock.specs.History.{entry};

use crate::entry::Entry;
use crate::object::Object;
use dn_base::Memory;

/// What lies in a turn's slot: the object, and all calls that were made of it.
#[derive(Drop)]
pub struct Desk<O: Object> {
    pub object: O,
    pub history: Vec<Entry<O>>,
}

impl<O: Object> Desk<O> {
    /// Takes the memory for one more call and its entry.
    pub fn reserve(&mut self) -> Result<(), Memory>
        ensures content { O.content self.new.object ≡ O.content self.old.object }
        ensures history { self.new.history.items ≡ self.old.history.items }
        ensures room { OnOk result ((1 ≤ O.spare self.new.object) × (vec_len self.new.history < vec_capacity self.new.history)) }
    {
        self.object.reserve()?;
        self.history.reserve(1)?;
        Ok(())
    }

    /// Makes one call, and enters it in the history as this pass's.
    pub fn make(&mut self, pass: u32, input: O::In) -> O::Out
        requires spare { 1 ≤ O.spare self.old.object }
        requires room { vec_len self.old.history < vec_capacity self.old.history }
        ensures answer { result ≡ O.answer (O.content self.old.object) input }
        ensures content { O.content self.new.object ≡ O.next (O.content self.old.object) input }
        ensures history { self.new.history.items ≡ self.old.history.items ++ entry pass input result ∷ [] }
    {
        let output = self.object.step(input);
        self.history.push_reserved(Entry {
            pass,
            input,
            output,
        });
        output
    }
}
