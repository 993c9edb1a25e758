ghost use Rattle.std.specs.Prelude.{◌≡◌, ◌≢◌, ℕ, List, ◌++◌, IfSome, IfNone};
ghost use Rattle.text_pieces.specs.Field.{Stands, NoneStands};
ghost use Rattle.claims.specs.Claim.{title, IsQuestion, question_text, IsHead, head_text};
ghost use Rattle.claims.specs.Rows.{asked_by, told_by};

use text_pieces::{behind, field, source};

/// What is claimed of, and the bytes after it.
#[derive(Clone, Copy)]
pub(crate) struct Opening<'a> {
    pub(crate) fuel: u32,
    pub(crate) text: &'a [u8],
    pub(crate) rest: &'a [u8],
}

/// What is claimed of, how many grants follow, and the bytes after that.
#[derive(Clone, Copy)]
pub(crate) struct Heading<'a> {
    pub(crate) fuel: u32,
    pub(crate) text: &'a [u8],
    pub(crate) count: u32,
    pub(crate) rest: &'a [u8],
}

/// What follows the first line of a claim, if that is there.
#[tactic(auto, unfolding(crate::specs::Claim::title))]
fn behind_title(bytes: &[u8]) -> Option<&[u8]>
    ensures some { IfSome result (λ rest. bytes.now ≡ title ++ rest.now) }
    ensures none { IfNone result ((rest : List ℕ) → bytes.now ≢ title ++ rest) }
{
    behind(bytes, b"denovo-claim 1\n")
}

/// What stands before the grants' number, and the bytes after it.
pub(crate) fn read_opening(bytes: &[u8]) -> Option<Opening<'_>>
    ensures some { IfSome result (λ o. Stands IsQuestion question_text bytes.now (asked_by o) o.rest.now) }
    ensures none { IfNone result (NoneStands IsQuestion question_text bytes.now) }
{
    let bytes = behind_title(bytes)?;
    let (fuel, bytes) = field(bytes, b"fuel ", 1, 32_768, b'\n')?;
    let (text, rest) = source(bytes)?;
    Some(Opening { fuel, text, rest })
}

/// What stands before the grants, and the bytes after it.
pub(crate) fn read_heading(bytes: &[u8]) -> Option<Heading<'_>>
    ensures some { IfSome result (λ h. Stands IsHead head_text bytes.now (told_by h) h.rest.now) }
    ensures none { IfNone result (NoneStands IsHead head_text bytes.now) }
{
    let opening = read_opening(bytes)?;
    let (count, rest) = field(opening.rest, b"grants ", 0, u32::MAX, b'\n')?;
    Some(Heading {
        fuel: opening.fuel,
        text: opening.text,
        count,
        rest,
    })
}
