ghost use Rattle.std.specs.Thread.{IsSync};

use crate::running::run;
use case_files::{BadForm, Case, CaseRunner, Got, Report, Stop, Trouble, judge, play};
use dn_base::Memory;
use std::alloc::Global;
use std::sync::Wait;
use std::thread::Threads;

/// The check of the cases: what the program's threads are made by, and the report so far.
#[derive(Drop)]
pub struct Checking<'a, R: Threads + Wait + Sync> {
    rt: &'a R,
    pub report: Report,
}

/// Where a case stops because there is no memory.
const NO_MEMORY: Stop = Stop {
    place: 0,
    why: Trouble::Memory,
};

impl<'a, R: Threads + Wait + Sync> Checking<'a, R> {
    /// The check before the first case.
    pub fn new(rt: &'a R, alloc: Global) -> Checking<'a, R> {
        Checking {
            rt,
            report: Report::new(alloc),
        }
    }

    /// Runs the program on a case, or makes the events of its script.
    fn answer(&self, alloc: Global, case: &Case) -> Result<Got, Stop> {
        match &case.script {
            Some(script) => play(alloc, case, script.as_slice()),
            None => match run(self.rt, alloc, case) {
                Ok(got) => Ok(got),
                Err(Memory) => Err(NO_MEMORY),
            },
        }
    }
}

impl<R: Threads + Wait + Sync> CaseRunner for Checking<'_, R> {
    ghost can_run = { IsSync R.row };

    fn run(&mut self, alloc: Global, label: &str, case: &Case) -> Result<(), Stop> {
        let got = self.answer(alloc, case)?;
        match judge(alloc, label, case, &got, &mut self.report) {
            Ok(()) => Ok(()),
            Err(Memory) => Err(NO_MEMORY),
        }
    }

    fn refuse(
        &mut self,
        alloc: Global,
        file: &str,
        line: usize,
        why: BadForm,
    ) -> Result<(), Memory> {
        self.report.add_bad(alloc, file, line, why)?;
        Ok(())
    }
}
