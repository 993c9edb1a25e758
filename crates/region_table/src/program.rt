ghost use Rattle.std.specs.Prelude.{◌≡◌, ◌<◌, ◌≤◌, max};
ghost use Rattle.std.specs.List.{All, find};
ghost use Rattle.std.specs.Option.{option_copied};
ghost use Rattle.region_table.specs.declared.declared.TaskDecl.{TaskDecl};
ghost use Rattle.region_table.specs.Program.{cores_of, cores_in};
ghost use Rattle.region_table.specs.Tasks.{declared, is_for};

use crate::declared::{Phase, Region, TaskDecl};
use dn_base::{CoreId, Name, PhaseId, Sequence};
use std::marker::Model;

/// The address of code word 0, in bytes.
pub const FIRST_CODE_ADDRESS: u32 = 0x1000;

/// The address of data word 0, in bytes.
pub const FIRST_DATA_ADDRESS: u32 = 0x1000_0000;

/// An assembled program: its code words, its initial memory, its regions, locks and phases.
///
/// Every `Program` is well formed: `IsProgram` lists what that means.
#[derive(Drop)]
pub struct Program {
    /// The code words. Code word `i` has the byte address `0x00001000 + 4i`.
    pub code: Sequence<u32>,
    /// The data words before the first phase.
    pub memory: Sequence<u32>,
    /// The regions, one after the other from data word 0; together they are the memory.
    pub regions: Sequence<Region>,
    /// The names of the locks, by number.
    pub locks: Sequence<Name>,
    /// The phases in the order in which they run.
    pub phases: Sequence<Phase>,
}

impl Model for Program {
    ghost use Rattle.region_table.specs.Program.{ProgramParts, IsProgram};

    ghost Value = { ProgramParts };

    ghost view = { λ p. record { code = p.code; memory = p.memory; regions = p.regions; locks = p.locks; phases = p.phases } };

    ghost invariant = { λ p. IsProgram (record { code = p.code; memory = p.memory; regions = p.regions; locks = p.locks; phases = p.phases }) };
}

impl Program {
    /// How many cores the program needs, from 1 to 16: one more than the highest core number of its tasks, or 1 if it has no
    /// tasks.
    pub fn cores(&self) -> u32
        ensures value { result ≡ cores_of self.now }
        ensures some { 1 ≤ result }
        ensures within { result ≤ 16 }
    {
        let mut most = 1;
        for phase in self.phases.as_slice() {
            most = cores_with(phase.tasks.as_slice(), most);
        }
        most
    }

    /// The task that the program declares for the core in the phase, if it does. Where each core below it has a task, it stands
    /// at the place of the core's number.
    #[inline(always)]
    pub fn task(&self, phase: PhaseId, core: CoreId) -> Option<&TaskDecl>
        ensures { option_copied result ≡ declared self.now phase.0 core.0 }
    {
        let Some(phase) = self.phases.get(phase.0 as usize) else {
            return None;
        };
        let tasks = phase.tasks.as_slice();
        match tasks.get(core.0 as usize) {
            Some(task) if task.core.0 == core.0 => Some(task),
            _ => task_among(tasks, core),
        }
    }
}

/// The task of the core among these, if it has one.
fn task_among(tasks: &[TaskDecl], core: CoreId) -> Option<&TaskDecl>
    ensures { option_copied result ≡ find (is_for core.0) tasks.now }
{
    for task in tasks {
        if task.core.0 == core.0 {
            return Some(task);
        }
    }
    None
}

/// The greater of `most` and the number of cores that these tasks need.
fn cores_with(tasks: &[TaskDecl], most: u32) -> u32
    requires cores { All (λ (t : TaskDecl). t.core.0 < 16) tasks.now }
    requires some { 1 ≤ most }
    ensures { result ≡ max most (cores_in tasks.now) }
{
    let mut cores = most;
    for task in tasks {
        if cores <= task.core.0 {
            cores = task.core.0 + 1;
        }
    }
    cores
}

/// Compiles only if the type may be sent to another thread and shared with it.
pub(crate) fn crosses<T: Send + Sync>(_value: &T) {}

/// A program may be sent to another thread, and shared with it. Nobody calls this; the check of its body proves it.
pub(crate) fn program_crosses(program: &Program) {
    crosses(program);
}
