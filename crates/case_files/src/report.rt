use crate::comparison::Comparison;
use crate::differing::{differences, is_as_wanted};
use crate::reach::Reach;
use crate::written::Written;
use crate::{BadForm, Case};
use std::alloc::{AllocError, Global};

/// How many cases agree, and what is said of those that don't.
#[derive(Drop)]
pub struct Report {
    pub agree: u64,
    /// How many runs agree with the reference machine.
    pub runs: u64,
    /// How many times of runs are those of the slowest chain.
    pub times: u64,
    pub differ: u64,
    pub lines: String,
    reach: Reach,
}

impl Report {
    ghost use Rattle.std.specs.Prelude.{◌≡◌, ◌≢◌, ◌↔◌, ◌<◌, OnOk, IsTrue};
    ghost use Rattle.std.specs.List.{All};
    ghost use Rattle.case_files.specs.Verdict.{IsAsWanted, Agrees, Differs, RunAgrees, TimeAgrees};
    ghost use Rattle.case_files.specs.declared.comparison.Comparison.TheVariants.{Agrees as AgreesWithFlat};

    /// The report on no case.
    pub fn new(alloc: Global) -> Report {
        Report {
            agree: 0,
            runs: 0,
            times: 0,
            differ: 0,
            lines: String::new(alloc),
            reach: Reach::new(),
        }
    }

    /// Adds which kinds of event came in a case that wrote this.
    pub fn add_kinds(&mut self, output: &[u8]) {
        self.reach.add(output);
    }

    /// Adds something that differs, by the lines that say how.
    fn add_difference(&mut self, lines: &str) -> Result<(), AllocError>
        ensures { OnOk result (Differs self.old self.new) }
    {
        self.lines.push_str(lines)?;
        self.differ = self.differ.saturating_add(1);
        Ok(())
    }

    /// Adds a case that isn't of the form of a case.
    pub fn add_bad(
        &mut self,
        alloc: Global,
        file: &str,
        line: usize,
        why: BadForm,
    ) -> Result<(), AllocError>
        ensures { OnOk result (Differs self.old self.new) }
    {
        let why = why.message();
        let text = format!(in alloc; "{file}:{line}: {why}\n")?;
        self.add_difference(text.as_str())
    }

    /// Adds a case that was run.
    pub fn add(
        &mut self,
        alloc: Global,
        name: &str,
        case: &Case,
        got: &Written,
    ) -> Result<(), AllocError>
        ensures agrees { OnOk result (IsAsWanted case.now got.now → Agrees self.old self.new) }
        ensures differs { OnOk result (¬ IsAsWanted case.now got.now → Differs self.old self.new) }
    {
        if is_as_wanted(case, got) {
            self.agree = self.agree.saturating_add(1);
            return Ok(());
        }
        let lines = differences(alloc, name, case, got)?;
        self.add_difference(lines.as_str())
    }

    /// Adds how the run of a case stands to the reference machine's.
    pub fn add_run(
        &mut self,
        alloc: Global,
        name: &str,
        comparison: Comparison,
    ) -> Result<(), AllocError>
        ensures agrees { OnOk result (comparison ≡ AgreesWithFlat → RunAgrees self.old self.new) }
        ensures differs { OnOk result (comparison ≢ AgreesWithFlat → Differs self.old self.new) }
    {
        let why = match comparison {
            Comparison::Agrees => {
                self.runs = self.runs.saturating_add(1);
                return Ok(());
            }
            Comparison::NoFlatRun => "the flat machine has no run by the grants of this one",
            Comparison::OtherEnding => "the flat machine ends otherwise by the grants",
            Comparison::OtherLoads => "the flat machine's tasks load something else by the grants",
        };
        let line = format!(in alloc; "{name}: {why}\n")?;
        self.add_difference(line.as_str())
    }

    /// Adds whether the time of a case's run is that of the slowest chain.
    pub fn add_time(
        &mut self,
        alloc: Global,
        name: &str,
        is_slowest: bool,
    ) -> Result<(), AllocError>
        ensures agrees { OnOk result (IsTrue is_slowest → TimeAgrees self.old self.new) }
        ensures differs { OnOk result (¬ IsTrue is_slowest → Differs self.old self.new) }
    {
        if is_slowest {
            self.times = self.times.saturating_add(1);
            return Ok(());
        }
        let line = format!(in alloc; "{name}: of all chains the slowest takes another time\n")?;
        self.add_difference(line.as_str())
    }

    /// Whether each case agrees, and so do each run and each time, and events of each kind came in some case.
    pub fn is_good(&self) -> bool
        ensures { IsTrue result ↔ (self.now.differ ≡ 0) × All (λ number. 0 < number) self.now.reach.cases }
    {
        self.differ == 0 && self.reach.is_whole()
    }

    /// How many cases, runs and times agree, a line each, and in how many cases events of each kind came.
    pub fn totals(&self, alloc: Global) -> Result<String, AllocError> {
        let (agree, runs, times) = (self.agree, self.runs, self.times);
        let reach = self.reach.lines(alloc)?;
        format!(in alloc;
            "{agree} cases agree\n{runs} runs agree with the flat machine\n\
             {times} times are those of the slowest of all chains\n{reach}"
        )
    }
}
