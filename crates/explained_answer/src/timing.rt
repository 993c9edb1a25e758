//! The lines of the time that a run takes, and of its longest chain.
ghost use Rattle.std.specs.Prelude.{◌≡◌, codes, IfSome, IfNone};
ghost use Rattle.message_net.specs.declared.event.EventKind.{EventKind as EventKindOf};
ghost use Rattle.run_report.specs.Run.{all_kinds};
ghost use Rattle.text_pieces.specs.Pieces.{newline};
ghost use Rattle.text_pieces.specs.Field.{field, Stands, NoneStands};
ghost use Rattle.explained_answer.specs.Parts.{IsTicks};
ghost use Rattle.explained_answer.specs.AnswerLines.{HasLinkNumbers, link_line, kind_front};

use crate::line::Link;
use crate::long::ticks;
use message_net::EventKind;
use run_report::all_kinds;
use text_pieces::field;

/// The ticks for which messages are under way, whose line stands at the start of some bytes, and what follows it.
pub(crate) fn network(bytes: &[u8]) -> Option<(u64, &[u8])>
    ensures some { IfSome result (λ f. Stands IsTicks (field (codes "network ") newline) bytes.now f.0 f.1.now) }
    ensures none { IfNone result (NoneStands IsTicks (field (codes "network ") newline) bytes.now) }
{
    ticks(bytes, b"network ")
}

/// What stands before the ticks in the line of an event of this kind.
fn kind_front(kind: EventKind) -> &'static [u8]
    ensures { result.now ≡ kind_front kind }
{
    match kind {
        EventKind::Instr => b"instr ",
        EventKind::Evict => b"evict ",
        EventKind::Arrive => b"arrive ",
        EventKind::ReadReq => b"read-req ",
        EventKind::ReadFwd => b"read-fwd ",
        EventKind::DataReply => b"data-reply ",
        EventKind::RegReq => b"reg-req ",
        EventKind::RegFwd => b"reg-fwd ",
        EventKind::RegAck => b"reg-ack ",
        EventKind::WriteBack => b"write-back ",
        EventKind::WbAck => b"wb-ack ",
        EventKind::Acquire => b"acquire ",
        EventKind::Release => b"release ",
        EventKind::Grant => b"grant ",
        EventKind::Arrived => b"arrived ",
        EventKind::Go => b"go ",
        EventKind::Halt => b"halt ",
    }
}

/// The kind of event that stands at the start of some bytes, the ticks after it, and what follows them.
fn finish(bytes: &[u8]) -> Option<(EventKind, u64, &[u8])>
    ensures some { IfSome result (λ f. Stands IsTicks (field (kind_front f.0) newline) bytes.now f.1 f.2.now) }
    ensures none { IfNone result ((k : EventKindOf) → NoneStands IsTicks (field (kind_front k) newline) bytes.now) }
{
    let kinds = all_kinds();
    for kind in &kinds {
        if let Some((finish, rest)) = ticks(bytes, kind_front(*kind)) {
            return Some((*kind, finish, rest));
        }
    }
    None
}

/// The event of the longest chain whose line stands at the start of some bytes, and what follows it.
pub(crate) fn link(bytes: &[u8]) -> Option<(Link, &[u8])>
    ensures some { IfSome result (λ f. Stands HasLinkNumbers link_line bytes.now f.0 f.1.now) }
    ensures none { IfNone result (NoneStands HasLinkNumbers link_line bytes.now) }
{
    let (event, behind) = field(bytes, b"link ", 0, u32::MAX, b' ')?;
    let (kind, finish, rest) = finish(behind)?;
    Some((
        Link {
            event,
            kind,
            finish,
        },
        rest,
    ))
}
