//! Events as C writes them.
ghost use Rattle.std.specs.Prelude.{◌≡◌, map, length, IfOk};
ghost use Rattle.denovo_c.specs.Codes.{coded_event, event_code, codes_shown};

use dn_base::{BankId, CoreId, Memory, WordId};
use message_net::{Actor, Event, MailId};
use std::alloc::Global;

/// An event. Its kind is 0 for an instruction of the core `actor`, 1 for that core's eviction of the word `number`, 2 for its arrival; and
/// for the handling of the message `number` of its sender 3 if that is the core `actor`, 4 if it is the bank `actor`, and 5 if it is the barrier
/// controller.
#[repr(C)]
#[derive(Clone, Copy)]
pub struct EventCode {
    pub kind: u32,
    pub actor: u32,
    pub number: u32,
}

/// The code of an event.
pub(crate) fn event_code(event: Event) -> EventCode
    ensures { result ≡ event_code event }
{
    let (kind, actor, number) = match event {
        Event::Instr(core) => (0, core.0, 0),
        Event::Evict(core, word) => (1, core.0, word.0),
        Event::Arrive(core) => (2, core.0, 0),
        Event::Handle(id) => match id.sender {
            Actor::Core(core) => (3, core.0, id.number),
            Actor::Bank(bank) => (4, bank.0, id.number),
            Actor::Keeper => (5, 0, id.number),
        },
    };
    EventCode {
        kind,
        actor,
        number,
    }
}

/// The event of a code; None if there is no such kind.
pub(crate) fn coded_event(code: EventCode) -> Option<Event>
    ensures { result ≡ coded_event code }
{
    let core = CoreId(code.actor);
    let number = code.number;
    match code.kind {
        0 => Some(Event::Instr(core)),
        1 => Some(Event::Evict(core, WordId(number))),
        2 => Some(Event::Arrive(core)),
        3 => Some(Event::Handle(MailId {
            sender: Actor::Core(core),
            number,
        })),
        4 => Some(Event::Handle(MailId {
            sender: Actor::Bank(BankId(code.actor)),
            number,
        })),
        5 => Some(Event::Handle(MailId {
            sender: Actor::Keeper,
            number,
        })),
        _ => None,
    }
}

/// The codes of these events.
pub(crate) fn codes_of(alloc: Global, events: &[Event]) -> Result<Vec<EventCode>, Memory>
    ensures { IfOk result (λ codes. codes.items ≡ map event_code events.now) }
{
    let mut codes = Vec::new(alloc);
    for event in events {
        codes.push(event_code(*event))?;
    }
    Ok(codes)
}

/// Copies the codes to the start of the buffer, as far as it has room, and returns how many there are. The rest of the buffer stays.
pub(crate) fn show_codes(codes: &[EventCode], buffer: &mut [EventCode]) -> usize
    ensures shown { buffer.new ≡ codes_shown codes.now buffer.old }
    ensures count { result ≡ length codes.now }
{
    let count = codes.len().min(buffer.len());
    buffer[..count].copy_from_slice(&codes[..count]);
    codes.len()
}
