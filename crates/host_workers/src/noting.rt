//! How the log of a run notes a round, and how the tasks stand in the last state.
ghost use Rattle.std.specs.Prelude.{◌≡◌, ◌+◌, ◌≤◌, List, length, OnOk};
ghost use Rattle.message_net.specs.declared.event.EventKind.{EventKind};
ghost use Rattle.host_workers.specs.Ends.{with_ends, last_ends};
ghost use Rattle.host_workers.specs.RoundOf.{IsTallied, HasNoted, HasNotedRound};

use crate::round::Round;
use dn_base::{CoreId, MOST_CORES, MOST_EVENTS, Memory};
use dn_machine::{Happened, Log, Machine, Stepped};
use grant_log::Stamped;
use rv_core::TaskEnd;

/// Notes the events of a round.
///
/// # Errors
/// `Memory` if there is no room; the log can't be used any more then.
fn note_events(log: &mut Log, merged: &[Stamped]) -> Result<(), Memory>
    requires counted { (kinds : List EventKind) × IsTallied kinds log.old }
    requires few { length log.old.events + length merged.now ≤ MOST_EVENTS }
    ensures { OnOk result (HasNoted merged.now log.old log.new) }
{
    for entry in merged {
        let observed = Stepped {
            kind: entry.kind,
            seen: None,
            granted: entry.granted,
        };
        log.note(Happened {
            event: entry.event,
            observed,
            end: None,
        })?;
    }
    Ok(())
}

/// Notes the ends of the tasks that arrived in a round.
fn note_ends(log: &mut Log, ends: &[TaskEnd])
    ensures { log.new ≡ record log.old { ends = with_ends ends.now log.old.ends } }
{
    for end in ends {
        log.note_end(*end);
    }
}

/// Notes the events of a round, and then the ends of the tasks that arrived in it.
///
/// # Errors
/// `Memory` if there is no room; the log can't be used any more then.
pub(crate) fn note_round(log: &mut Log, round: &Round) -> Result<(), Memory>
    requires counted { (kinds : List EventKind) × IsTallied kinds log.old }
    requires few { length log.old.events + length round.now.merged.items ≤ MOST_EVENTS }
    ensures { OnOk result (HasNotedRound round.now log.old log.new) }
{
    note_events(log, round.merged.as_slice())?;
    note_ends(log, round.ends.as_slice());
    Ok(())
}

/// Notes how the tasks stand in a machine's state.
pub(crate) fn note_last(log: &mut Log, machine: &Machine)
    requires { length machine.now.state.nodes ≤ 16 }
    ensures { log.new ≡ record log.old { ends = with_ends (last_ends machine.now.state) log.old.ends } }
{
    for core in 0..MOST_CORES as u32 {
        if let Some(end) = machine.task_end(CoreId(core)) {
            log.note_end(end);
        }
    }
}
