use crate::object::Object;

/// One call of a history: which pass made it, what it was given, and what it answered.
pub struct Entry<O: Object> {
    /// The number of the pass that made the call, from 0.
    pub pass: u32,
    pub input: O::In,
    pub output: O::Out,
}

impl<O: Object> Drop for Entry<O> {
    fn drop(self) {
        let Self {
            pass: _,
            input: _,
            output: _,
        } = self;
    }
}
