//! The lines that the parts of a program come from.
ghost use Rattle.std.specs.Prelude.{◌≡◌, ◌≢◌, ◌<◌, ◌≤◌, ◌++◌, length, map, Ok, Err, IfOk, IfErr, OnOk, slice_get, find};
ghost use Rattle.rv_assembler.specs.declared.fault.SourceFault.TheVariants.{TooLarge, Memory as NoMemory};
ghost use Rattle.rv_assembler.specs.Gathering.{more};
ghost use Rattle.rv_assembler.specs.Reading.{reading_of};
ghost use Rattle.rv_assembler.specs.Source.{source, readings};
ghost use Rattle.text_places.specs.Places as definition;
ghost use Rattle.text_places.specs.Words.{is_task_of};
ghost use Rattle.text_places.specs.Walk.{no_places, code_parts, task_parts, with_statement, with_reading, with_readings};

use dn_base::{MOST_OF_TEXT, Memory, Sequence};
use region_table::Program;
use rv_assembler::{
    Cores, Reading, Saying, SourceFault, Statement, assemble, code_size, family_cores, read_line,
    version_line,
};
use src_text::{Line, tokens};
use std::alloc::Global;

/// Where a code word comes from.
#[derive(Clone, Copy)]
pub struct CodePlace {
    /// The number of the line, from 1.
    pub line: u32,
    /// Which of the line's code words it is, from 0: `li` and `la` give two.
    pub part: u32,
}

/// Where a task comes from.
#[derive(Clone, Copy)]
pub struct TaskPlace {
    /// The number of its phase, from 0.
    pub phase: usize,
    pub core: u32,
    /// The number of the line that declares it, from 1.
    pub line: u32,
    /// Which of the line's tasks it is, from 0: `.forall` declares up to 16.
    pub part: u32,
}

/// From which lines the parts of a program come, in the program's order; tasks stand in the order of their lines. Lines are
/// numbered from 1, everything else from 0.
#[derive(Drop)]
pub struct Places {
    /// The line and part of each code word.
    pub code: Sequence<CodePlace>,
    /// The line of each region.
    pub regions: Sequence<u32>,
    /// The line of each lock.
    pub locks: Sequence<u32>,
    /// The line of each phase.
    pub phases: Sequence<u32>,
    /// The line and part of each task.
    pub tasks: Sequence<TaskPlace>,
}

/// The program of a text, and the lines that its parts come from.
#[derive(Drop)]
pub struct Located {
    pub program: Program,
    pub places: Places,
}

impl Places {
    fn new(alloc: Global) -> Places
        ensures { result ≡ no_places }
    {
        Places {
            code: Sequence::new(alloc),
            regions: Sequence::new(alloc),
            locks: Sequence::new(alloc),
            phases: Sequence::new(alloc),
            tasks: Sequence::new(alloc),
        }
    }

    /// The line and part from which the code word of this number comes; None if the program has no such word.
    pub fn code_word(&self, number: usize) -> Option<CodePlace>
        ensures { result ≡ slice_get self.now.code number }
    {
        self.code.get(number).copied()
    }

    /// The line of the region of this number; None if there is no such region.
    pub fn region(&self, number: usize) -> Option<u32>
        ensures { result ≡ slice_get self.now.regions number }
    {
        self.regions.get(number).copied()
    }

    /// The line of the lock of this number; None if there is no such lock.
    pub fn lock(&self, number: usize) -> Option<u32>
        ensures { result ≡ slice_get self.now.locks number }
    {
        self.locks.get(number).copied()
    }

    /// The line of the phase of this number; None if there is no such phase.
    pub fn phase(&self, number: usize) -> Option<u32>
        ensures { result ≡ slice_get self.now.phases number }
    {
        self.phases.get(number).copied()
    }

    /// The line and part from which the task of this phase and core comes; None if there is no such task.
    pub fn task(&self, phase: usize, core: u32) -> Option<TaskPlace>
        ensures { result ≡ find (is_task_of phase core) self.now.tasks }
    {
        for task in self.tasks.as_slice() {
            if task.phase == phase && task.core == core {
                return Some(*task);
            }
        }
        None
    }

    /// Adds what a line of good form gives.
    fn add(&mut self, saying: &Saying) -> Result<(), Memory>
        ensures { OnOk result (self.new ≡ with_statement self.old saying.now.line saying.now.statement) }
    {
        let line = saying.line;
        match saying.statement {
            Statement::Instruction(_) => push_code(
                &mut self.code,
                line,
                code_size(&saying.statement),
            ),
            Statement::Region { .. } => self.regions.push(line),
            Statement::Lock { .. } => self.locks.push(line),
            Statement::Phase => self.phases.push(line),
            Statement::Tasks(family) => {
                let phase = self.phases.len().saturating_sub(1);
                push_tasks(&mut self.tasks, phase, line, family_cores(family))
            }
            _ => Ok(()),
        }
    }

    /// Adds what a line gives: nothing where it isn't of good form.
    fn add_line(&mut self, reading: &Reading) -> Result<(), Memory>
        ensures { OnOk result (self.new ≡ with_reading self.old reading.now) }
    {
        match reading {
            Reading::Bad(_) => Ok(()),
            Reading::Good(saying) => self.add(saying),
        }
    }
}

/// Adds the code words of a line.
fn push_code(code: &mut Sequence<CodePlace>, line: u32, count: u32) -> Result<(), Memory>
    ensures { OnOk result (code.new ≡ code.old ++ code_parts line 0 count) }
{
    for part in 0..count {
        code.push(CodePlace { line, part })?;
    }
    Ok(())
}

/// The core of a task of a line. It stays at the greatest number of 32 bits, which is far above every core.
fn core_at(first: u32, part: u32) -> u32
    ensures { result ≡ more first part }
{
    first.saturating_add(part)
}

/// Adds the tasks of a line, on one core after the other.
fn push_tasks(
    tasks: &mut Sequence<TaskPlace>,
    phase: usize,
    line: u32,
    cores: Cores,
) -> Result<(), Memory>
    ensures { OnOk result (tasks.new ≡ tasks.old ++ task_parts phase line cores.first 0 cores.count) }
{
    for part in 0..cores.count {
        tasks.push(TaskPlace {
            phase,
            core: core_at(cores.first, part),
            line,
            part,
        })?;
    }
    Ok(())
}

/// The places in these lines. The version line has the number `version`; 0 stands for version 1.
fn places_in(alloc: Global, version: u32, text: &[u8], lines: &[Line]) -> Result<Places, Memory>
    ensures { IfOk result (λ places. places ≡ with_readings no_places (map (reading_of version text.now) lines.now)) }
{
    let mut places = Places::new(alloc);
    for line in lines {
        let reading = read_line(version, text, line);
        places.add_line(&reading)?;
    }
    Ok(places)
}

/// The places in a text.
fn places_by_line(alloc: Global, text: &[u8]) -> Result<Places, Memory>
    requires { length text.now ≤ MOST_OF_TEXT }
    ensures { IfOk result (λ places. places ≡ with_readings no_places (readings text.now)) }
{
    let tokenized = tokens(alloc, text)?;
    let lines = tokenized.as_slice();
    places_in(alloc, version_line(text, lines), text, lines)
}

/// The lines that the parts of a text's program come from. The caller has the program, so the text isn't assembled again.
///
/// # Errors
/// `Memory` if there is no room.
pub fn text_places(alloc: Global, text: &[u8], program: &Program) -> Result<Places, Memory>
    requires { source text.now ≡ Ok program.now }
    ensures { IfOk result (λ places. places ≡ definition.text_places text.now) }
{
    // for the proof alone: a text that has a program is one of good lines
    let _program = program;
    places_by_line(alloc, text)
}

/// The program of a source text with the lines of its parts, or the text's first fault.
///
/// # Errors
/// The faults of `assemble`. `TooLarge` exactly if the text has more than 1,048,576 bytes. In any other text the first line
/// with a fault decides. `Memory` if there is no room.
pub fn located_program(alloc: Global, text: &[u8]) -> Result<Located, SourceFault>
    ensures program { IfOk result (λ located. source text.now ≡ Ok located.program) }
    ensures places { IfOk result (λ located. located.places ≡ definition.text_places text.now) }
    ensures err { IfErr result (λ fault. fault ≢ NoMemory → source text.now ≡ Err fault) }
    ensures large { MOST_OF_TEXT < length text.now → result ≡ Err TooLarge }
{
    let program = assemble(alloc, text)?;
    let places = text_places(alloc, text, &program)?;
    Ok(Located { program, places })
}
