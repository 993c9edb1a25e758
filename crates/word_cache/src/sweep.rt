ghost use Rattle.std.specs.Prelude.{◌≡◌, true, false, None, map};
ghost use Rattle.word_cache.specs.Row.{pair_after_phase, pair_after_grant, after_phase, after_grant};

use crate::row::{Entry, Place, Row};
use dn_base::{PhaseId, WordId};
use region_table::WordSet;
use write_signature::Signature;

/// The pair after a phase's end.
fn pair_kept(pair: Option<(WordId, Entry)>, words: &WordSet) -> Option<(WordId, Entry)>
    ensures { result ≡ pair_after_phase words.now pair }
{
    match pair? {
        (word, Entry::Valid { value, marked }) => {
            if marked || !words.contains(word) {
                Some((
                    word,
                    Entry::Valid {
                        value,
                        marked: false,
                    },
                ))
            } else {
                None
            }
        }
        other => Some(other),
    }
}

/// Drops what may be stale after a phase, place by place.
pub(crate) fn sweep_phase(places: &mut Row, words: &WordSet)
    ensures { places.new ≡ map (after_phase words.now) places.old }
{
    for index in 0..places.len() {
        let Place { pair, used } = places.at(index);
        places.set(
            index,
            Place {
                pair: pair_kept(pair, words),
                used,
            },
        );
    }
}

/// Whether the pair may be stale at a grant.
fn is_stale(
    pair: Option<(WordId, Entry)>,
    signature: &Signature,
    phase: PhaseId,
    words: &WordSet,
) -> bool
    ensures stale { result ≡ true → pair_after_grant signature.now phase.0 words.now pair ≡ None }
    ensures kept { result ≡ false → pair_after_grant signature.now phase.0 words.now pair ≡ pair }
{
    match pair {
        Some((word, Entry::Valid { .. })) => signature.may_hold(word, phase)
            && words.contains(word),
        _ => false,
    }
}

/// Drops what may be stale at a grant, place by place.
pub(crate) fn sweep_grant(places: &mut Row, signature: &Signature, phase: PhaseId, words: &WordSet)
    ensures { places.new ≡ map (after_grant signature.now phase.0 words.now) places.old }
{
    for index in 0..places.len() {
        let Place { pair, used } = places.at(index);
        if is_stale(pair, signature, phase, words) {
            places.set(index, Place { pair: None, used });
        }
    }
}
