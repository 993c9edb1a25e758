ghost use Rattle.std.specs.Prelude.{◌≡◌, ◌≤◌, length};
ghost use Rattle.std.specs.Option.{option_copied, option_map};
ghost use Rattle.region_table.specs.Tasks.{declared};
ghost use Rattle.rv_core.specs.Task.{started};

use dn_base::{CoreId, PhaseId, Shape};
use region_table::{PhasePlan, Program, TaskDecl};
use rv_core::{DecodedProgram, TaskState};

/// What a node's calls are given: the program with its decoded code, the plans of its phases, the machine's size, and how many
/// instructions a task may retire.
///
/// The calls require that the plans are the program's, that there are as many cores as the program needs, 1 to 16 banks, 1 to
/// 256 sets and 1 to 16 ways, and that the fuel is 1 to 32,768.
#[derive(Clone, Copy)]
pub struct Context<'a> {
    pub decoded: &'a DecodedProgram,
    pub plans: &'a [PhasePlan],
    pub shape: Shape,
    pub fuel: u32,
}

/// The task that the program declares for the core in the phase, if it does, and the limits of the program.
#[inline(always)]
pub(crate) fn declaration(program: &Program, phase: PhaseId, core: CoreId) -> Option<&TaskDecl>
    ensures value { option_copied result ≡ declared program.now phase.0 core.0 }
    ensures locks { length program.now.locks ≤ 32 }
    ensures phases { length program.now.phases ≤ 64 }
{
    // for the proof alone: a read of a field brings the limits
    let _locks = &program.locks;
    program.task(phase, core)
}

/// The task of the core in the phase at its start, if it has one.
pub(crate) fn start(program: &Program, phase: PhaseId, core: CoreId) -> Option<TaskState>
    ensures { result ≡ option_map started (declared program.now phase.0 core.0) }
{
    match program.task(phase, core) {
        Some(task) => Some(TaskState::new(task)),
        None => None,
    }
}

/// Compiles only if the type may be sent to another thread and shared with it.
fn crosses<T: Send + Sync>(_value: &T) {}

/// A context may be sent to another thread, and shared with it. Nobody calls this; the check of its body proves it.
fn context_crosses(context: &Context<'_>) {
    crosses(context);
}
