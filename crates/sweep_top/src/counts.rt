//! How often each answer and each outcome came.
ghost use Rattle.std.specs.Prelude.{◌≡◌, ◌<◌, []};
ghost use Rattle.sweep_top.specs.Kept.{with_outcome, AreOutcomesWithin};
ghost use Rattle.sweep_top.specs.Tally.{came_again, outcomes_of};

use dn_base::Outcome;

/// How often an answer came, and what is told of it.
#[derive(Clone, Copy)]
pub struct AnswerCount {
    /// The least seed whose run has this answer.
    pub seed: u32,
    /// How many runs have this answer.
    pub runs: u32,
    /// The outcome of the run of that seed.
    pub outcome: Outcome,
    /// The instructions that all tasks of that run retired.
    pub retired: u64,
}

impl AnswerCount {
    /// The same answer came once more.
    pub(crate) fn again(self) -> AnswerCount
        requires { self.runs < 4294967295 }
        ensures { result ≡ came_again self }
    {
        AnswerCount {
            seed: self.seed,
            runs: self.runs + 1,
            outcome: self.outcome,
            retired: self.retired,
        }
    }
}

/// How many runs have each outcome.
#[derive(Clone, Copy)]
pub struct OutcomeCounts {
    pub done: u32,
    pub trapped: u32,
    pub fuel: u32,
    pub stuck: u32,
}

impl OutcomeCounts {
    /// No run has any outcome.
    pub(crate) fn none() -> OutcomeCounts
        ensures { result ≡ outcomes_of [] }
    {
        OutcomeCounts {
            done: 0,
            trapped: 0,
            fuel: 0,
            stuck: 0,
        }
    }

    /// Counts the outcome of one more run.
    pub(crate) fn add(&mut self, outcome: Outcome)
        requires { AreOutcomesWithin 4294967294 self.old }
        ensures { self.new ≡ with_outcome self.old outcome }
    {
        match outcome {
            Outcome::Done => self.done += 1,
            Outcome::Trapped => self.trapped += 1,
            Outcome::Fuel => self.fuel += 1,
            Outcome::Stuck => self.stuck += 1,
        }
    }
}
