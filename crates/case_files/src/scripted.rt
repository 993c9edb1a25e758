use crate::event_machine::EventMachine;
use crate::{BadForm, Said, ScriptLine, Stop, Trouble, Written, push_counts};
use dn_base::{CoreId, Grant, LoadSeen, Memory, Sequence, Status, WordId};
use grant_log::Counts;
use machine_rules::Stepped;
use message_net::Event;
use run_report::{answer_text, grant_text};
use rv_core::{EndShown, Ending, TaskEnd, outcome};
use std::alloc::Global;
use std::cmp::Ordering;

/// What is told of the events that came.
#[derive(Drop)]
pub struct Notes {
    pub events: Vec<Event>,
    pub counts: Counts,
    pub grants: Vec<Grant>,
}

/// A run that a script named to its end: what the program writes of it, what was told of its events, and its ending.
#[derive(Drop)]
pub struct Played {
    pub written: Written,
    pub notes: Notes,
    pub ending: Ending,
}

/// A run whose events a script names.
#[derive(Drop)]
pub struct ScriptedRun<M> {
    machine: M,
    cores: u32,
    words: u32,
    notes: Notes,
    /// How the tasks stood whose cores arrived.
    ends: Vec<TaskEnd>,
    /// The load that the last event completed.
    seen: Option<LoadSeen>,
    alloc: Global,
}

impl Notes {
    /// Notes what an event tells.
    fn add(&mut self, event: Event, stepped: Stepped) -> Result<(), Memory> {
        self.events.push(event)?;
        if let Some(grant) = stepped.granted {
            self.grants.push(grant)?;
        }
        // for the proof alone: `add` requires that the count can rise, and no run has that many events
        if self.counts.count(stepped.kind) < u64::MAX {
            self.counts.add(stepped.kind);
        }
        Ok(())
    }
}

/// The order of tasks in an ending: by phase, and then by core.
fn order(a: &TaskEnd, b: &TaskEnd) -> Ordering {
    a.phase.cmp(&b.phase).then(a.core.cmp(&b.core))
}

/// The ending of a run whose tasks stand so, with these values of the data words.
fn ending(ends: Vec<TaskEnd>, memory: Vec<u32>) -> Result<Ending, Memory> {
    let mut ends = ends;
    ends.sort_by(|a, b| order(a, b))?;
    Ok(Ending {
        outcome: outcome(ends.as_slice()),
        tasks: Sequence::from_vec(ends),
        memory: Sequence::from_vec(memory),
    })
}

impl<M: EventMachine + Drop> ScriptedRun<M> {
    /// The run of the initial machine, of this many cores and data words, before its first event.
    pub fn new(alloc: Global, machine: M, cores: u32, words: u32) -> ScriptedRun<M> {
        ScriptedRun {
            machine,
            cores,
            words,
            notes: Notes {
                events: Vec::new(alloc),
                counts: Counts::none(),
                grants: Vec::new(alloc),
            },
            ends: Vec::new(alloc),
            seen: None,
            alloc,
        }
    }

    /// Does what a line says.
    fn take(&mut self, said: Said) -> Result<(), Trouble> {
        match said {
            Said::Comes(event, times) => {
                for _time in 0..times {
                    self.come(event)?;
                }
                Ok(())
            }
            Said::Loads(seen) if self.seen == Some(seen) => Ok(()),
            Said::Loads(_) => Err(Trouble::Form(BadForm::OtherLoad)),
            Said::Word(word, value) if self.machine.word(word) == value => Ok(()),
            Said::Word(..) => Err(Trouble::Form(BadForm::OtherWord)),
        }
    }

    /// Makes an event, where it is enabled, and notes what it tells.
    fn come(&mut self, event: Event) -> Result<(), Trouble> {
        if let Event::Arrive(core) = event {
            if let Some(end) = self.machine.task_end(core) {
                self.ends.push(end)?;
            }
        }
        let stepped = self.machine.make(event)?;
        self.seen = stepped.seen;
        self.notes.add(event, stepped)?;
        Ok(())
    }

    /// Notes the tasks that wait for a lock.
    fn note_waits(&mut self) -> Result<(), Memory> {
        for core in 0..self.cores {
            if let Some(end) = self.machine.task_end(CoreId(core)) {
                if let EndShown::Waits { .. } = end.end {
                    self.ends.push(end)?;
                }
            }
        }
        Ok(())
    }

    /// The values of the data words.
    fn memory(&self) -> Result<Vec<u32>, Memory> {
        let mut memory = Vec::new(self.alloc);
        for word in 0..self.words {
            memory.push(self.machine.word(WordId(word)))?;
        }
        Ok(memory)
    }

    /// The run in which no event is enabled any more.
    fn finish(mut self) -> Result<Played, Trouble> {
        if !self.machine.is_over() {
            return Err(Trouble::Form(BadForm::NotOver));
        }
        self.note_waits()?;
        let memory = self.memory()?;
        let ending = ending(self.ends, memory)?;
        let written = write_run(self.alloc, &self.notes, &ending)?;
        Ok(Played {
            written,
            notes: self.notes,
            ending,
        })
    }
}

/// What the program writes of a run.
fn write_run(alloc: Global, notes: &Notes, ending: &Ending) -> Result<Written, Trouble> {
    if 64 < ending.tasks.len() || 65_536 < ending.memory.len() {
        return Err(Trouble::Form(BadForm::NoMachine));
    }
    let mut bytes = answer_text(alloc, ending)?;
    bytes.extend_from_slice(grant_text(alloc, notes.grants.as_slice())?.as_slice())?;
    push_counts(alloc, &mut bytes, &notes.counts.kinds)?;
    Ok(Written {
        exit: Status::from(ending.outcome).code(),
        bytes,
    })
}

/// Makes the events of a script, after which no event is enabled.
///
/// # Errors
/// The line of the script at which the run stops, and why.
pub fn play<M: EventMachine + Drop>(
    run: ScriptedRun<M>,
    script: &[ScriptLine],
) -> Result<Played, Stop> {
    let mut run = run;
    let mut place = 0;
    for line in script {
        place = line.place;
        if let Err(why) = run.take(line.said) {
            return Err(Stop { place, why });
        }
    }
    match run.finish() {
        Ok(played) => Ok(played),
        Err(why) => Err(Stop { place, why }),
    }
}
