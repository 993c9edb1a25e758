ghost use Rattle.std.specs.Prelude.{◌≡◌, true, OnOk};
ghost use Rattle.machine_rules.specs.Next.{next, enabled};

use crate::{BadForm, EventMachine, Trouble};
use dn_base::{CoreId, WordId};
use dn_machine::Machine;
use machine_rules::Stepped;
use message_net::{Actor, Event};
use rv_core::TaskEnd;

/// The most events of a machine.
const MOST_EVENTS: u64 = 4_000_000_000;

/// An event is not enabled here.
const NOT_NOW: Trouble = Trouble::Form(BadForm::NotNow);

/// Makes an event, where it is enabled.
fn make(machine: &mut Machine, event: Event) -> Result<Stepped, Trouble>
    ensures may { OnOk result (enabled machine.old.state event ≡ true) }
    ensures comes { OnOk result (machine.new.state ≡ next machine.old.state event) }
{
    if MOST_EVENTS <= machine.made() || !machine.enabled(&event) {
        return Err(NOT_NOW);
    }
    Ok(machine.step(event)?)
}

/// The multicore machine, whose events come one at a time.
#[derive(Drop)]
pub struct Stepping {
    pub machine: Machine,
}

impl EventMachine for Stepping {
    fn may_come(&self, event: &Event) -> bool {
        self.machine.enabled(event)
    }

    fn actor(&self, event: &Event) -> Result<Actor, Trouble> {
        if !self.machine.enabled(event) {
            return Err(NOT_NOW);
        }
        Ok(self.machine.actor(event))
    }

    fn make(&mut self, event: Event) -> Result<Stepped, Trouble> {
        make(&mut self.machine, event)
    }

    fn task_end(&self, core: CoreId) -> Option<TaskEnd> {
        self.machine.task_end(core)
    }

    fn word(&self, word: WordId) -> u32 {
        self.machine.word(word)
    }

    fn is_over(&self) -> bool {
        self.machine.pick(0).is_none()
    }
}
