ghost use Rattle.std.specs.Prelude.{◌≡◌};
ghost use Rattle.case_files.specs.Compared.{load_of_task};

use crate::Trouble;
use crate::event_machine::EventMachine;
use dn_base::{CoreId, LoadSeen, Memory, PhaseId};
use flat_machine::TaskLoads;
use machine_rules::Stepped;
use message_net::{Actor, Event, EventKind};
use rv_core::Ending;
use std::alloc::Global;

/// A load that the task of a core completed in a phase.
#[derive(Clone, Copy)]
pub struct TaskLoad {
    phase: PhaseId,
    core: CoreId,
    seen: LoadSeen,
}

/// The phase of each core of a run that is made once more, and the loads so far.
#[derive(Drop)]
struct Replay {
    phases: [u32; 16],
    loads: Vec<TaskLoad>,
}

impl Replay {
    /// Notes what an event of a core tells: that its next phase begins, or that its task loads a word.
    fn note(&mut self, core: CoreId, stepped: Stepped) -> Result<(), Memory> {
        let Some(phase) = self.phases.get_mut(core.0 as usize) else {
            return Ok(());
        };
        if stepped.kind == EventKind::Go {
            *phase = phase.saturating_add(1);
        }
        let phase = PhaseId(*phase);
        if let Some(seen) = stepped.seen {
            self.loads.push(TaskLoad { phase, core, seen })?;
        }
        Ok(())
    }
}

/// The loads of the events of a run, which the initial machine makes once more.
///
/// # Errors
/// `NotNow` where an event is not enabled.
pub fn replay_loads<M: EventMachine>(
    alloc: Global,
    machine: &mut M,
    events: &[Event],
) -> Result<Vec<TaskLoad>, Trouble> {
    let mut replay = Replay {
        phases: [0; 16],
        loads: Vec::new(alloc),
    };
    for event in events {
        let actor = machine.actor(event)?;
        let stepped = machine.make(*event)?;
        if let Actor::Core(core) = actor {
            replay.note(core, stepped)?;
        }
    }
    Ok(replay.loads)
}

/// Whether two endings are the same.
pub fn is_same(a: &Ending, b: &Ending) -> bool {
    a.outcome == b.outcome
        && a.tasks.as_slice() == b.tasks.as_slice()
        && a.memory.as_slice() == b.memory.as_slice()
}

/// The load, where it is of the task of this core in this phase.
fn load_of_task(load: &TaskLoad, phase: PhaseId, core: CoreId) -> Option<LoadSeen>
    ensures { result ≡ load_of_task phase core load.now }
{
    if load.phase == phase && load.core == core {
        Some(load.seen)
    } else {
        None
    }
}

/// The loads of the task of this core in this phase.
fn loads_of(
    alloc: Global,
    all: &[TaskLoad],
    phase: PhaseId,
    core: CoreId,
) -> Result<Vec<LoadSeen>, Memory> {
    Ok(
        all.iter()
            .filter_map(|load| load_of_task(load, phase, core))
            .collect(alloc)?,
    )
}

/// Whether the loads are those of these tasks, and no others.
pub fn are_loads(alloc: Global, all: &[TaskLoad], tasks: &[TaskLoads]) -> Result<bool, Memory> {
    let mut count = 0_usize;
    for task in tasks {
        let loads = loads_of(alloc, all, task.phase, task.core)?;
        if loads.as_slice() != task.loads.as_slice() {
            return Ok(false);
        }
        count = count.saturating_add(loads.len());
    }
    Ok(count == all.len())
}
