//! What is kept of the runs of many seeds.
ghost use Rattle.std.specs.Prelude.{◌≡◌, ℕ, Bool, ◌<◌, ◌+◌, [], ◌++◌, bytes_eq, IfOk, OnOk};
ghost use Rattle.indexmap.specs.IndexMap.{get_by};
ghost use Rattle.dn_machine.specs.Kept.{IsInitialMachine};
ghost use Rattle.checked_runs.specs.Runs.{IsPrintable};
ghost use Rattle.dn_top.specs.Runs.{shape_for};
ghost use Rattle.sweep_top.specs.Command.{AreSeeds};
ghost use Rattle.sweep_top.specs.Kept.{counted_answers, raised_count, AreAnswersWithin, HasRunAdded, HasTallied, IsTallyOf, IsTallyWith, IsSeedWithin};
ghost use Rattle.sweep_top.specs.Runs.{options_at};
ghost use Rattle.sweep_top.specs.Tally.{compared_answer, tallied};

use crate::counts::{AnswerCount, OutcomeCounts};
use crate::hashing::checksum;
use crate::options::{Seeds, SweepOptions};
use crate::running::run_of;
use crate::spread::{Spread, Summed, widen_each};
use dn_base::Memory;
use dn_machine::{Machine, RunRecord};
use indexmap::IndexMap;
use run_report::{
    answer_text, answer_text_without_retired, event_count, grant_text, retired_by_all,
};
use std::alloc::Global;

/// What is kept of the runs that were made. The text of an answer is kept once, however often it came.
#[derive(Drop)]
pub struct Tally {
    /// How many runs there were.
    pub runs: u32,
    pub outcomes: OutcomeCounts,
    /// Retired instructions.
    pub retired: Summed,
    /// Events of all kinds.
    pub events: Summed,
    /// Events of each kind.
    pub kinds: [Spread; 17],
    /// The different answers, in the order of their least seeds.
    pub answers: IndexMap<Vec<u8>, AnswerCount>,
    /// The checksum of each run's grants.
    pub grants: Vec<u64>,
}

/// The answer of a run as it is compared: with its counts of instructions, or without them.
fn compared_answer(alloc: Global, retired: bool, run: &RunRecord) -> Result<Vec<u8>, Memory>
    requires { IsPrintable run.now }
    ensures { IfOk result (λ text. text.items ≡ compared_answer retired run.now) }
{
    if retired {
        answer_text(alloc, &run.ending)
    } else {
        answer_text_without_retired(alloc, &run.ending)
    }
}

/// The count of an answer after one more run has it.
fn raised_count(
    answers: &IndexMap<Vec<u8>, AnswerCount>,
    text: &[u8],
    once: AnswerCount,
) -> AnswerCount
    requires { AreAnswersWithin 4294967294 (counted_answers answers.now.entries) }
    ensures { result ≡ raised_count once (get_by (λ key. bytes_eq text.now key.items) answers.now) }
{
    match answers.get(text) {
        Some(count) => count.again(),
        None => once,
    }
}

/// Counts the answer of one more run.
fn count_answer(
    answers: &mut IndexMap<Vec<u8>, AnswerCount>,
    text: Vec<u8>,
    once: AnswerCount,
) -> Result<(), Memory>
    requires { AreAnswersWithin 4294967294 (counted_answers answers.old.entries) }
    ensures { OnOk result (counted_answers answers.new.entries ≡ tallied text.items once (counted_answers answers.old.entries)) }
{
    let count = raised_count(answers, text.as_slice(), once);
    answers.insert(text, count)?;
    Ok(())
}

impl Tally {
    /// The tally of no run.
    pub(crate) fn new(alloc: Global) -> Tally
        ensures tally { (retired : Bool) (first : ℕ) → IsTallyOf retired first [] result }
        ensures within { IsSeedWithin result }
    {
        Tally {
            runs: 0,
            outcomes: OutcomeCounts::none(),
            retired: Summed::none(),
            events: Summed::none(),
            kinds: [Spread::none(); 17],
            answers: IndexMap::new(alloc),
            grants: Vec::new(alloc),
        }
    }

    /// Takes in the run of a seed. Its answer is compared with its counts of instructions, or without them.
    pub(crate) fn add(
        &mut self,
        alloc: Global,
        retired: bool,
        seed: u32,
        run: &RunRecord,
    ) -> Result<(), Memory>
        requires printable { IsPrintable run.now }
        requires runs { self.old.runs < 4294967295 }
        requires within { IsSeedWithin self.old }
        ensures { OnOk result (IsTallyWith retired seed run.now self.old self.new) }
    {
        let instructions = retired_by_all(run.ending.tasks.as_slice());
        let once = AnswerCount {
            seed,
            runs: 1,
            outcome: run.ending.outcome,
            retired: instructions,
        };
        count_answer(
            &mut self.answers,
            compared_answer(alloc, retired, run)?,
            once,
        )?;
        let grants = grant_text(alloc, run.grants.as_slice())?;
        self.grants.push(checksum(grants.as_slice()))?;
        self.outcomes.add(run.ending.outcome);
        self.retired = self.retired.with(self.runs, instructions);
        self.events = self.events.with(self.runs, event_count(&run.counts.kinds));
        widen_each(&mut self.kinds, self.runs, &run.counts.kinds);
        self.runs += 1;
        Ok(())
    }
}

/// Makes the run of a seed, and takes it in.
fn add_run(
    tally: &mut Tally,
    alloc: Global,
    options: &SweepOptions,
    machine: &Machine,
    seed: u32,
) -> Result<(), Memory>
    requires machine { IsInitialMachine machine.now.state.setting.program (shape_for machine.now.state.setting.program (options_at options.now 0)) options.now.fuel machine.now }
    requires runs { tally.old.runs < 4294967295 }
    requires within { IsSeedWithin tally.old }
    ensures { OnOk result (HasRunAdded machine.now.state.setting.program options.now seed tally.old tally.new) }
{
    let run = run_of(alloc, options, machine, seed)?;
    tally.add(alloc, options.retired, seed, &run)
}

/// Makes the runs of all these seeds, and takes them in.
fn add_runs(
    tally: &mut Tally,
    alloc: Global,
    options: &SweepOptions,
    machine: &Machine,
    seeds: Seeds,
) -> Result<(), Memory>
    requires seeds { AreSeeds seeds }
    requires machine { IsInitialMachine machine.now.state.setting.program (shape_for machine.now.state.setting.program (options_at options.now 0)) options.now.fuel machine.now }
    requires new { IsTallyOf options.now.retired seeds.first [] tally.old }
    requires within { IsSeedWithin tally.old }
    ensures { OnOk result (HasTallied machine.now.state.setting.program options.now seeds.first (seeds.last + 1) tally.new) }
{
    // the last seed stands behind the loop, since it may be the greatest number
    for seed in seeds.first..seeds.last {
        add_run(tally, alloc, options, machine, seed)?;
    }
    add_run(tally, alloc, options, machine, seeds.last)
}

/// What is kept of the runs of all seeds that are asked for.
///
/// # Errors
/// `Memory` where there is no room for a run or the tally.
pub(crate) fn tally_of_seeds(
    alloc: Global,
    options: &SweepOptions,
    machine: &Machine,
) -> Result<Tally, Memory>
    requires seeds { AreSeeds options.now.seeds }
    requires machine { IsInitialMachine machine.now.state.setting.program (shape_for machine.now.state.setting.program (options_at options.now 0)) options.now.fuel machine.now }
    ensures { IfOk result (HasTallied machine.now.state.setting.program options.now options.now.seeds.first (options.now.seeds.last + 1)) }
{
    let mut tally = Tally::new(alloc);
    add_runs(&mut tally, alloc, options, machine, options.seeds)?;
    Ok(tally)
}
