/// What the referee does with a run log.
#[derive(Clone, Copy)]
pub enum RefereeMode {
    /// Takes a claim, and says whether it agrees, or where it first differs.
    Judge,
    /// Takes a claim, says what the mode judge says of it, and then what leads from there to the fault.
    Diagnose,
    /// Takes a claim without grants and loads, and says whether its answer has what all runs of its text have in common, or which of these
    /// lines isn't there first; or why it is open what they have in common.
    Settled,
    /// Takes a question and the order of the grants, the first four parts of a claim, and prints the claim of the run by these grants.
    Answer,
    /// Takes a question, the first three parts of a claim, and prints the claim of the run by the least grants.
    Least,
}

/// What the arguments ask for: a mode, and whether several documents follow each other.
#[derive(Clone, Copy)]
pub struct RefereeOptions {
    pub mode: RefereeMode,
    pub batch: bool,
}
