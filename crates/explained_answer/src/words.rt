//! The lines of outcomes, data words and counts.
ghost use Rattle.std.specs.Prelude.{◌≡◌, ◌≢◌, ℕ, ◌+◌, ◌*◌, ◌<◌, List, ◌++◌, IfSome, IfNone};
ghost use Rattle.dn_base.specs.declared.status.Outcome.{Outcome as OutcomeOf};
ghost use Rattle.run_report.specs.Answer.{outcome_line, word_line};
ghost use Rattle.text_pieces.specs.Pieces.{newline};
ghost use Rattle.text_pieces.specs.Field.{Stands, field};
ghost use Rattle.explained_answer.specs.Parts.{IsNumber};
ghost use Rattle.explained_answer.specs.AnswerLines.{IsShownWord, StandWord, NoCount, count_front, all_counts};

use crate::line::Count;
use dn_base::Outcome;
use message_net::EventKind;
use region_table::FIRST_DATA_ADDRESS;
use text_pieces::{behind, field, hexadecimal};

/// How many data words a program has at most.
const MOST_WORDS: u32 = 65536;

/// The outcome whose line stands at the start of some bytes, and what follows it.
#[tactic(auto, unfolding(run_report::specs::Answer::outcome_line))]
pub(crate) fn outcome(bytes: &[u8]) -> Option<(Outcome, &[u8])>
    ensures some { IfSome result (λ f. bytes.now ≡ outcome_line f.0 ++ f.1.now) }
    ensures none { IfNone result ((o : OutcomeOf) (rest : List ℕ) → bytes.now ≢ outcome_line o ++ rest) }
{
    if let Some(rest) = behind(bytes, b"outcome done\n") {
        return Some((Outcome::Done, rest));
    }
    if let Some(rest) = behind(bytes, b"outcome trapped\n") {
        return Some((Outcome::Trapped, rest));
    }
    if let Some(rest) = behind(bytes, b"outcome fuel\n") {
        return Some((Outcome::Fuel, rest));
    }
    let rest = behind(bytes, b"outcome stuck\n")?;
    Some((Outcome::Stuck, rest))
}

/// The address and the value whose line stands at the start of some bytes, and what follows it.
fn address(bytes: &[u8]) -> Option<(u32, u32, &[u8])>
    ensures some { IfSome result (λ f. StandWord bytes.now f.0 f.1 f.2.now) }
    ensures none { IfNone result ((a v : ℕ) (rest : List ℕ) → StandWord bytes.now a v rest → ⊥) }
{
    let at_address = behind(bytes, b"word ")?;
    let (address, behind_address) = hexadecimal(at_address)?;
    let at_value = behind(behind_address, b" ")?;
    let (value, behind_value) = hexadecimal(at_value)?;
    let rest = behind(behind_value, b"\n")?;
    Some((address, value, rest))
}

/// The data word at an address, where a line may show it with this value.
pub(crate) fn shown_word(address: u32, value: u32) -> Option<u32>
    ensures some { IfSome result (λ w. (address ≡ 268435456 + 4 * w) × (w < MOST_WORDS) × (0 < value)) }
    ensures none { IfNone result ((w : ℕ) → w < MOST_WORDS → address ≡ 268435456 + 4 * w → 0 < value → ⊥) }
{
    if address < FIRST_DATA_ADDRESS || address % 4 != 0 || value == 0 {
        return None;
    }
    let word = (address - FIRST_DATA_ADDRESS) / 4;
    if word < MOST_WORDS { Some(word) } else { None }
}

/// The data word and its value whose line stands at the start of some bytes, and what follows it.
pub(crate) fn word(bytes: &[u8]) -> Option<(u32, u32, &[u8])>
    ensures some { IfSome result (λ f. IsShownWord f.0 f.1 × (bytes.now ≡ word_line f.0 f.1 ++ f.2.now)) }
    ensures none { IfNone result ((w v : ℕ) (rest : List ℕ) → IsShownWord w v → bytes.now ≢ word_line w v ++ rest) }
{
    let (address, value, rest) = address(bytes)?;
    let word = shown_word(address, value)?;
    Some((word, value, rest))
}

/// What stands before the number in the line of a count.
fn count_front(count: Count) -> &'static [u8]
    ensures { result.now ≡ count_front count }
{
    match count {
        Count::Words => b"words ",
        Count::Events => b"count events ",
        Count::Kind(EventKind::Instr) => b"count instr ",
        Count::Kind(EventKind::Evict) => b"count evict ",
        Count::Kind(EventKind::Arrive) => b"count arrive ",
        Count::Kind(EventKind::ReadReq) => b"count read-req ",
        Count::Kind(EventKind::ReadFwd) => b"count read-fwd ",
        Count::Kind(EventKind::DataReply) => b"count data-reply ",
        Count::Kind(EventKind::RegReq) => b"count reg-req ",
        Count::Kind(EventKind::RegFwd) => b"count reg-fwd ",
        Count::Kind(EventKind::RegAck) => b"count reg-ack ",
        Count::Kind(EventKind::WriteBack) => b"count write-back ",
        Count::Kind(EventKind::WbAck) => b"count wb-ack ",
        Count::Kind(EventKind::Acquire) => b"count acquire ",
        Count::Kind(EventKind::Release) => b"count release ",
        Count::Kind(EventKind::Grant) => b"count grant ",
        Count::Kind(EventKind::Arrived) => b"count arrived ",
        Count::Kind(EventKind::Go) => b"count go ",
        Count::Kind(EventKind::Halt) => b"count halt ",
        Count::Tasks => b"tasks ",
        Count::Retired => b"retired ",
        Count::Links => b"chain ",
        Count::WholeEvents => b"refused trace event ",
        Count::EnabledEvents => b"refused trace not-enabled ",
    }
}

#[tactic(auto, unfolding(crate::specs::AnswerLines::all_counts))]
fn all_counts() -> [Count; 24]
    ensures { result ≡ all_counts }
{
    [
        Count::Words,
        Count::Events,
        Count::Kind(EventKind::Instr),
        Count::Kind(EventKind::Evict),
        Count::Kind(EventKind::Arrive),
        Count::Kind(EventKind::ReadReq),
        Count::Kind(EventKind::ReadFwd),
        Count::Kind(EventKind::DataReply),
        Count::Kind(EventKind::RegReq),
        Count::Kind(EventKind::RegFwd),
        Count::Kind(EventKind::RegAck),
        Count::Kind(EventKind::WriteBack),
        Count::Kind(EventKind::WbAck),
        Count::Kind(EventKind::Acquire),
        Count::Kind(EventKind::Release),
        Count::Kind(EventKind::Grant),
        Count::Kind(EventKind::Arrived),
        Count::Kind(EventKind::Go),
        Count::Kind(EventKind::Halt),
        Count::Tasks,
        Count::Retired,
        Count::Links,
        Count::WholeEvents,
        Count::EnabledEvents,
    ]
}

/// The count whose line stands at the start of some bytes, its number, and what follows it.
pub(crate) fn count(bytes: &[u8]) -> Option<(Count, u32, &[u8])>
    ensures some { IfSome result (λ f. Stands IsNumber (field (count_front f.0) newline) bytes.now f.1 f.2.now) }
    ensures none { IfNone result (NoCount bytes.now) }
{
    let counts = all_counts();
    for of in &counts {
        if let Some((number, rest)) = field(bytes, count_front(*of), 0, u32::MAX, b'\n') {
            return Some((*of, number, rest));
        }
    }
    None
}
