ghost use Rattle.std.specs.Prelude.{◌≡◌, ℕ, List, [], length, IfSome, IfNone, IfOk, IfErr};
ghost use Rattle.text_pieces.specs.Field.{Stands, NoneStands};
ghost use Rattle.run_replay.specs.Document.{event_line, IsMail, FitsDocument};
ghost use Rattle.run_replay.specs.Lines.{StandTwo, mail_text, AreLines, FailsLines};

use crate::trace::TraceFault;
use dn_base::{BankId, CoreId, Sequence, WordId};
use message_net::{Actor, Event, MailId};
use std::alloc::Global;
use text_pieces::field;

/// Reads a number below 16 after a name, and a number of at most `most`, which end a line, at the start of some bytes. Gives
/// them and the bytes after them.
fn two_numbers<'a>(bytes: &'a [u8], name: &[u8], most: u32) -> Option<(u32, u32, &'a [u8])>
    ensures some { IfSome result (λ f. StandTwo name.now most bytes.now f.0 f.1 f.2.now) }
    ensures none { IfNone result ((first second : ℕ) (rest : List ℕ) → StandTwo name.now most bytes.now first second rest → ⊥) }
{
    let (first, bytes) = field(bytes, name, 0, 15, b' ')?;
    let (second, rest) = field(bytes, b"", 0, most, b'\n')?;
    Some((first, second, rest))
}

/// Reads the line of the handling of a message at the start of some bytes. Gives the message and the bytes after it.
fn mail(bytes: &[u8]) -> Option<(MailId, &[u8])>
    ensures some { IfSome result (λ f. Stands IsMail mail_text bytes.now f.0 f.1.now) }
    ensures none { IfNone result (NoneStands IsMail mail_text bytes.now) }
{
    if let Some((core, number, rest)) = two_numbers(bytes, b"h c ", u32::MAX) {
        let sender = Actor::Core(CoreId(core));
        return Some((MailId { sender, number }, rest));
    }
    if let Some((bank, number, rest)) = two_numbers(bytes, b"h b ", u32::MAX) {
        let sender = Actor::Bank(BankId(bank));
        return Some((MailId { sender, number }, rest));
    }
    let (number, rest) = field(bytes, b"h k ", 0, u32::MAX, b'\n')?;
    let sender = Actor::Keeper;
    Some((MailId { sender, number }, rest))
}

/// Reads the line of an event at the start of some bytes. Gives the event and the bytes after it.
pub(crate) fn event(bytes: &[u8]) -> Option<(Event, &[u8])>
    ensures some { IfSome result (λ f. Stands FitsDocument event_line bytes.now f.0 f.1.now) }
    ensures none { IfNone result (NoneStands FitsDocument event_line bytes.now) }
{
    if let Some((core, rest)) = field(bytes, b"i ", 0, 15, b'\n') {
        return Some((Event::Instr(CoreId(core)), rest));
    }
    if let Some((core, word, rest)) = two_numbers(bytes, b"e ", 65_535) {
        return Some((Event::Evict(CoreId(core), WordId(word)), rest));
    }
    if let Some((core, rest)) = field(bytes, b"a ", 0, 15, b'\n') {
        return Some((Event::Arrive(CoreId(core)), rest));
    }
    let (id, rest) = mail(bytes)?;
    Some((Event::Handle(id), rest))
}

/// The events of these bytes, which should be `count` event lines.
///
/// # Errors
/// `Line` if a line isn't complete and of its form, `Rest` if bytes follow the lines, and `Memory`.
pub(crate) fn events(alloc: Global, count: u32, bytes: &[u8]) -> Result<Sequence<Event>, TraceFault>
    ensures count { IfOk result (λ events. length events ≡ count) }
    ensures lines { IfOk result (λ events. AreLines bytes.now events []) }
    ensures err { IfErr result (FailsLines bytes.now count) }
{
    let mut events = Sequence::new(alloc);
    let mut rest = bytes;
    for number in 0..count {
        let Some((found, behind)) = event(rest) else {
            return Err(TraceFault::Line { number });
        };
        events.push(found)?;
        rest = behind;
    }
    if !rest.is_empty() {
        return Err(TraceFault::Rest);
    }
    Ok(events)
}
