//! Numbers that follow one another in a line.
ghost use Rattle.std.specs.Prelude.{◌≡◌, ℕ, List, false, IfSome, IfNone};
ghost use Rattle.std.specs.Char.{is_ascii_digit};
ghost use Rattle.explained_answer.specs.Parts.{StandPair, StandThree};

use text_pieces::field;

/// Reads two numbers at the start of some bytes: one between a name and a blank, and one between another name and the byte
/// `stop`, which is no digit. Gives them and what follows.
pub(crate) fn two_numbers<'a>(
    bytes: &'a [u8],
    first: &[u8],
    second: &[u8],
    stop: u8,
) -> Option<(u32, u32, &'a [u8])>
    requires { is_ascii_digit stop ≡ false }
    ensures some { IfSome result (λ f. StandPair first.now second.now stop bytes.now f.0 f.1 f.2.now) }
    ensures none { IfNone result ((a b : ℕ) (rest : List ℕ) → StandPair first.now second.now stop bytes.now a b rest → ⊥) }
{
    let (one, behind) = field(bytes, first, 0, u32::MAX, b' ')?;
    let (other, rest) = field(behind, second, 0, u32::MAX, stop)?;
    Some((one, other, rest))
}

/// Reads a line of three numbers after a name at the start of some bytes. Gives them and what follows.
pub(crate) fn three_numbers<'a>(bytes: &'a [u8], name: &[u8]) -> Option<(u32, u32, u32, &'a [u8])>
    ensures some { IfSome result (λ f. StandThree name.now bytes.now f.0 f.1 f.2 f.3.now) }
    ensures none { IfNone result ((a b c : ℕ) (rest : List ℕ) → StandThree name.now bytes.now a b c rest → ⊥) }
{
    let (one, two, behind) = two_numbers(bytes, name, b"", b' ')?;
    let (three, rest) = field(behind, b"", 0, u32::MAX, b'\n')?;
    Some((one, two, three, rest))
}
