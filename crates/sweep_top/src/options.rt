/// The greatest number of seeds that a call takes.
pub const MOST_SEEDS: u32 = 1_000_000;

/// What is printed of the runs.
#[derive(Clone, Copy)]
pub enum Form {
    /// How many runs there are, how they ended, how many different answers they have, and the least and the most of their numbers.
    Summary,
    /// A table with a row for each different answer, whose columns have commas between them.
    Answers,
    /// A table with a row for each seed, whose columns have commas between them.
    Csv,
}

/// Seeds that follow each other, as `--seed` of denovo takes each: at least one, and at most 1,000,000.
#[derive(Clone, Copy)]
pub struct Seeds {
    pub first: u32,
    /// The last seed, which isn't below the first one.
    pub last: u32,
}

/// What the arguments ask for: which runs, and what is printed of them.
#[derive(Clone, Copy)]
pub struct SweepOptions {
    pub seeds: Seeds,
    pub form: Form,
    /// Whether answers that differ in nothing but counts of retired instructions are different.
    pub retired: bool,
    /// Banks of the shared memory, from 1 to 16.
    pub banks: u32,
    /// Sets of a core's cache, from 1 to 256.
    pub sets: u32,
    /// Ways of each set, from 1 to 16.
    pub ways: u32,
    /// How many instructions a task may retire, from 1 to 32,768.
    pub fuel: u32,
}
