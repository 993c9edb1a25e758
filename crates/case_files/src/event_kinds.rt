use crate::block::push_line;
use crate::numeral::positive;
use crate::trouble::{BadForm, Trouble};
use message_net::EventKind;
use std::alloc::{AllocError, Global};

/// The kinds of event with their names, in the order in which their counts are written. The place of a kind's count is its index.
pub const KINDS: [(EventKind, &str); 17] = [
    (EventKind::Instr, "instr"),
    (EventKind::Evict, "evict"),
    (EventKind::Arrive, "arrive"),
    (EventKind::ReadReq, "read-req"),
    (EventKind::ReadFwd, "read-fwd"),
    (EventKind::DataReply, "data-reply"),
    (EventKind::RegReq, "reg-req"),
    (EventKind::RegFwd, "reg-fwd"),
    (EventKind::RegAck, "reg-ack"),
    (EventKind::WriteBack, "write-back"),
    (EventKind::WbAck, "wb-ack"),
    (EventKind::Acquire, "acquire"),
    (EventKind::Release, "release"),
    (EventKind::Grant, "grant"),
    (EventKind::Arrived, "arrived"),
    (EventKind::Go, "go"),
    (EventKind::Halt, "halt"),
];

/// The kind with a name.
fn kind_named(name: &str) -> Option<EventKind> {
    let named = KINDS.iter().find(|named| named.1 == name)?;
    Some(named.0)
}

/// The counts of the kinds that are named, each with its number after it; all other counts are 0.
pub fn counts(text: &str) -> Result<[u64; 17], Trouble> {
    let mut counts = [0; 17];
    let mut named = None;
    for word in text.split_whitespace() {
        named = match named {
            None => Some(word),
            Some(kind) => {
                set_count(&mut counts, kind, positive(word)?)?;
                None
            }
        };
    }
    match named {
        None => Ok(counts),
        Some(_) => Err(Trouble::Form(BadForm::NoNumber)),
    }
}

/// Sets the count of the kind with a name.
fn set_count(counts: &mut [u64; 17], name: &str, count: u32) -> Result<(), Trouble> {
    let Some(kind) = kind_named(name) else {
        return Err(Trouble::Form(BadForm::NoKind));
    };
    counts[kind.index()] = u64::from(count);
    Ok(())
}

/// Adds the lines of these counts, each at its kind's index: one for all events, and one for each kind.
pub fn push_counts(alloc: Global, out: &mut Vec<u8>, counts: &[u64; 17]) -> Result<(), AllocError> {
    let events = counts
        .iter()
        .fold(0_u64, |events, count| events.saturating_add(*count));
    push_count(alloc, out, "events", events)?;
    for named in KINDS.iter() {
        push_count(alloc, out, named.1, counts[named.0.index()])?;
    }
    Ok(())
}

/// Adds the line of a count.
fn push_count(alloc: Global, out: &mut Vec<u8>, name: &str, count: u64) -> Result<(), AllocError> {
    let line = format!(in alloc; "count {name} {count}")?;
    push_line(out, line.as_str())
}

/// The kind that a line counts, where it is of some events.
pub fn counted_kind(line: &str) -> Option<EventKind> {
    let (kind, count) = line.strip_prefix("count ")?.split_once(' ')?;
    match count.parse::<u64>() {
        Ok(0) | Err(_) => None,
        Ok(_) => kind_named(kind),
    }
}
