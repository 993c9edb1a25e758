/// How a run compares with the reference machine's run by its grants.
#[derive(Clone, Copy)]
pub enum Comparison {
    /// Its loads and its ending are the same.
    Agrees,
    /// The reference machine has no run by the grants.
    NoFlatRun,
    /// The reference machine has another ending.
    OtherEnding,
    /// The reference machine's tasks have other loads.
    OtherLoads,
}
