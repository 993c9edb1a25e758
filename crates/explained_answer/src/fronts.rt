//! The first line of an answer that isn't as it should be.
ghost use Rattle.std.specs.Prelude.{◌≡◌, ◌<◌, ◌≤◌, ◌+◌, length, take};
ghost use Rattle.explained_answer.specs.Fronts.{alike, line_behind};

/// The length of the longest common prefix of two texts, in bytes.
pub(crate) fn alike(left: &[u8], right: &[u8]) -> usize
    ensures front { take result left.now ≡ alike left.now right.now }
    ensures within { result ≤ length left.now }
{
    let both = left.len().min(right.len());
    for place in 0..both {
        if left[place] != right[place] {
            return place;
        }
    }
    both
}

/// The number, from 1, of the line that follows these bytes, which are a prefix of an answer.
#[tactic(auto, unfolding(crate::specs::Fronts::line_behind))]
pub(crate) fn line_behind(front: &[u8]) -> usize
    ensures line { result ≡ line_behind front.now }
    ensures some { 0 < result }
    ensures few { result ≤ length front.now + 1 }
{
    let mut line = 1;
    for byte in front {
        if *byte == b'\n' {
            line += 1;
        }
    }
    line
}
