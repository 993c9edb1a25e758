use crate::opening::{NO_MACHINE, open, options_of, program};
use crate::stepping::Stepping;
use crate::{Case, Played, ScriptLine, ScriptedRun, Stop, Trouble, Written};
use dn_base::Sequence;
use dn_machine::RunRecord;
use std::alloc::Global;

/// What the program answered.
#[derive(Drop)]
pub struct Got {
    pub written: Written,
    /// The run of the multicore machine, where there was one.
    pub run: Option<RunRecord>,
}

/// The run of a case's text, before its first event.
fn open_case(alloc: Global, case: &Case) -> Result<ScriptedRun<Stepping>, Trouble> {
    let options = options_of(alloc, case)?;
    let checked = program(alloc, case.text.as_slice())?;
    let cores = checked.program().cores();
    let Ok(words) = u32::try_from(checked.program().memory.len()) else {
        return Err(NO_MACHINE);
    };
    let machine = open(alloc, checked, &options)?;
    Ok(ScriptedRun::new(alloc, Stepping { machine }, cores, words))
}

/// The answer of a run that a script named.
fn answer(played: Played) -> Got {
    let Played {
        written,
        notes,
        ending,
    } = played;
    let run = RunRecord {
        events: Sequence::from_vec(notes.events),
        grants: Sequence::from_vec(notes.grants),
        counts: notes.counts,
        ending,
    };
    Got {
        written,
        run: Some(run),
    }
}

/// Makes the events of a script, and answers what the program writes of such a run.
pub fn play(alloc: Global, case: &Case, script: &[ScriptLine]) -> Result<Got, Stop> {
    let run = match open_case(alloc, case) {
        Ok(run) => run,
        Err(why) => return Err(Stop { place: 0, why }),
    };
    Ok(answer(crate::scripted::play(run, script)?))
}
