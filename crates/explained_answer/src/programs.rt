//! The lines of checked programs and of the prover, sums, and lines without a number.
ghost use Rattle.std.specs.Prelude.{◌≡◌, ◌≢◌, ℕ, List, ◌++◌, IfSome, IfNone};
ghost use Rattle.text_pieces.specs.Field.{Stands, NoneStands};
ghost use Rattle.text_pieces.specs.Base16.{IsWord};
ghost use Rattle.explained_answer.specs.declared.line.FixedLine.{FixedLine as FixedLineOf};
ghost use Rattle.explained_answer.specs.Parts.{hexadecimal_line};
ghost use Rattle.explained_answer.specs.AnswerLines.{sum_line, StandPlace, fixed_line, varies_line, IsDataWord};

use crate::line::FixedLine;
use crate::numbers::two_numbers;
use crate::words::shown_word;
use text_pieces::{behind, hexadecimal};

/// The number of 32 bits in base 16 that stands at the start of some bytes before a newline, and what follows it.
fn hexadecimal_line(bytes: &[u8]) -> Option<(u32, &[u8])>
    ensures some { IfSome result (λ f. Stands IsWord hexadecimal_line bytes.now f.0 f.1.now) }
    ensures none { IfNone result (NoneStands IsWord hexadecimal_line bytes.now) }
{
    let (value, behind_value) = hexadecimal(bytes)?;
    let rest = behind(behind_value, b"\n")?;
    Some((value, rest))
}

/// The sum whose line stands at the start of some bytes, and what follows it.
pub(crate) fn sum(bytes: &[u8]) -> Option<(u32, &[u8])>
    ensures some { IfSome result (λ f. Stands IsWord sum_line bytes.now f.0 f.1.now) }
    ensures none { IfNone result (NoneStands IsWord sum_line bytes.now) }
{
    let at_value = behind(bytes, b"sum ")?;
    hexadecimal_line(at_value)
}

/// The phase, core and pc whose line with this name stands at the start of some bytes, and what follows it.
pub(crate) fn place_line<'a>(bytes: &'a [u8], name: &[u8]) -> Option<(u32, u32, u32, &'a [u8])>
    ensures some { IfSome result (λ f. StandPlace name.now bytes.now f.0 f.1 f.2 f.3.now) }
    ensures none { IfNone result ((p c a : ℕ) (rest : List ℕ) → StandPlace name.now bytes.now p c a rest → ⊥) }
{
    let (phase, core, at_pc) = two_numbers(bytes, name, b"", b' ')?;
    let (pc, rest) = hexadecimal_line(at_pc)?;
    Some((phase, core, pc, rest))
}

/// The data word that varies whose line stands at the start of some bytes, and what follows it.
pub(crate) fn varies(bytes: &[u8]) -> Option<(u32, &[u8])>
    ensures some { IfSome result (λ f. Stands IsDataWord varies_line bytes.now f.0 f.1.now) }
    ensures none { IfNone result (NoneStands IsDataWord varies_line bytes.now) }
{
    let at_address = behind(bytes, b"varies ")?;
    let (address, rest) = hexadecimal_line(at_address)?;
    let word = shown_word(address, 1)?;
    Some((word, rest))
}

/// The line without a number that stands at the start of some bytes, and what follows it.
#[tactic(auto, unfolding(run_report::specs::Refusal::refusal_of))]
pub(crate) fn fixed_line(bytes: &[u8]) -> Option<(FixedLine, &[u8])>
    ensures some { IfSome result (λ f. bytes.now ≡ fixed_line f.0 ++ f.1.now) }
    ensures none { IfNone result ((l : FixedLineOf) (rest : List ℕ) → bytes.now ≢ fixed_line l ++ rest) }
{
    if let Some(rest) = behind(bytes, b"proved inside\n") {
        return Some((FixedLine::Inside, rest));
    }
    if let Some(rest) = behind(bytes, b"refused usage\n") {
        return Some((FixedLine::Usage, rest));
    }
    if let Some(rest) = behind(bytes, b"refused trace too-large\n") {
        return Some((FixedLine::TooLarge, rest));
    }
    if let Some(rest) = behind(bytes, b"refused trace head\n") {
        return Some((FixedLine::Head, rest));
    }
    if let Some(rest) = behind(bytes, b"refused trace rest\n") {
        return Some((FixedLine::Rest, rest));
    }
    let rest = behind(bytes, b"refused trace incomplete\n")?;
    Some((FixedLine::Incomplete, rest))
}
