//! A task alone once more, with where the values of its registers come from, and where it acquires its locks.
ghost use Rattle.std.specs.Prelude.{◌≡◌, ◌++◌, suc, false, IfOk, OnOk};
ghost use Rattle.common_outcomes.specs.Alone.{alone, alone_step, alone_steps};
ghost use Rattle.outcomes_top.specs.Reasons.{makes_one, origins_step, origins_from, origins_alone, depends_on, dependence_by, taking_by, taken_at, takings_from, takings_of};
ghost use Rattle.outcomes_top.specs.Tracks.{IsTracked, IsWell};

use crate::alone::{TaskAlone, Tracked};
use crate::cells::Place;
use crate::origins::{first_open, note_origins, origin};
use crate::reasons::{Dependence, Read, Taking};
use dn_base::Memory;
use rv_core::Need;
use std::alloc::Global;

/// Notes the acquire that this need is.
fn note_taking(
    takings: &mut Vec<Taking>,
    place: &Place<'_>,
    task: &TaskAlone,
    need: Need,
) -> Result<(), Memory>
    ensures { OnOk result (takings.new.items ≡ takings.old.items ++ taking_by place.now task.now need) }
{
    if let Need::Acquire { lock } = need {
        takings.push(Taking {
            core: place.decl.core,
            pc: task.state.pc,
            lock,
            held: task.state.held,
        })?;
    }
    Ok(())
}

/// What a register's value comes from.
fn depends_on(origins: &[Option<Read>; 32], register: Option<u32>) -> Option<Dependence>
    ensures { result ≡ depends_on origins.now register }
{
    let register = register?;
    let read = origin(origins, register)?;
    Some(Dependence { register, read })
}

/// A task alone that is watched.
#[derive(Drop)]
pub(crate) struct Watched {
    tracked: Tracked,
    /// For each register the load that its value comes from, if not all is known of it.
    origins: [Option<Read>; 32],
    /// The acquires so far, behind those of other tasks.
    pub(crate) takings: Vec<Taking>,
}

impl Watched {
    /// Makes one instruction of the task; a task that has ended, or whose control is open, isn't changed. Returns whether an
    /// instruction was made.
    fn step(&mut self, place: &Place<'_>) -> Result<bool, Memory>
        requires well { IsWell place.now self.old.tracked.task }
        requires tracked { IsTracked place.now self.old.tracked.task.cells self.old.tracked.listed.items }
        ensures value { IfOk result (λ went. self.new.tracked.task ≡ alone_step place.now self.old.tracked.task) }
        ensures still { IfOk result (λ went. went ≡ false → makes_one place.now self.old.tracked.task ≡ false) }
        ensures well { IfOk result (λ went. IsWell place.now self.new.tracked.task) }
        ensures tracked { IfOk result (λ went. IsTracked place.now self.new.tracked.task.cells self.new.tracked.listed.items) }
        ensures origins { IfOk result (λ went. self.new.origins ≡ origins_step place.now self.old.tracked.task self.old.origins) }
        ensures takings { IfOk result (λ went. self.new.takings.items ≡ self.old.takings.items ++ taken_at place.now self.old.tracked.task) }
    {
        let Some(next) = self.tracked.task.look(place) else {
            return Ok(false);
        };
        note_origins(&mut self.origins, place, &self.tracked.task, &next);
        note_taking(&mut self.takings, place, &self.tracked.task, next.need)?;
        self.tracked.step(place)?;
        Ok(true)
    }

    /// Makes instructions of the task, until it ends or its control is open.
    fn run(&mut self, place: &Place<'_>) -> Result<(), Memory>
        requires well { IsWell place.now self.old.tracked.task }
        requires tracked { IsTracked place.now self.old.tracked.task.cells self.old.tracked.listed.items }
        ensures value { IfOk result (λ done. self.new.tracked.task ≡ alone_steps place.now (suc place.now.fuel) self.old.tracked.task) }
        ensures origins { IfOk result (λ done. self.new.origins ≡ origins_from place.now (suc place.now.fuel) self.old.tracked.task self.old.origins) }
        ensures takings { IfOk result (λ done. self.new.takings.items ≡ self.old.takings.items ++ takings_from place.now (suc place.now.fuel) self.old.tracked.task) }
    {
        for _done in 0..place.fuel + 1 {
            if !self.step(place)? {
                return Ok(());
            }
        }
        Ok(())
    }

    /// What the control of the task depends on, if it is open.
    pub(crate) fn dependence(&self, place: &Place<'_>) -> Option<Dependence>
        ensures { result ≡ dependence_by place.now self.now.tracked.task self.now.origins }
    {
        let state = &self.tracked.task.state;
        if state.end.is_some() {
            return None;
        }
        let next = state.next_in(place.program, place.decl, place.fuel, place.code);
        depends_on(
            &self.origins,
            first_open(&self.tracked.task.kinds, &next.instr),
        )
    }
}

/// The task alone, as far as it comes, watched. Its acquires are put behind these.
#[tactic(auto, unfolding(common_outcomes::specs::Alone::alone, crate::specs::Reasons::origins_alone, crate::specs::Reasons::takings_of))]
pub(crate) fn watch(
    alloc: Global,
    place: &Place<'_>,
    takings: Vec<Taking>,
) -> Result<Watched, Memory>
    ensures value { IfOk result (λ watched. watched.tracked.task ≡ alone place.now) }
    ensures origins { IfOk result (λ watched. watched.origins ≡ origins_alone place.now) }
    ensures takings { IfOk result (λ watched. watched.takings.items ≡ takings.items ++ takings_of place.now) }
{
    let mut watched = Watched {
        tracked: Tracked {
            task: TaskAlone::new(alloc, place)?,
            listed: Vec::new(alloc),
        },
        origins: [None; 32],
        takings,
    };
    watched.run(place)?;
    Ok(watched)
}
