use crate::measure::Measure;

/// A row of the table of a run beside lists of sharers.
#[derive(Clone, Copy)]
pub enum ListRow {
    /// A measure of the run, and the same with lists.
    Pair { here: Measure, lists: Measure },
    /// A measure without a partner.
    Single(Measure),
}
