//! Of a word's two bits only the first can be chosen freely: it is the word's number modulo 256. So words with chosen first bits show
//! where another word's second bit is.
use dn_base::{PhaseId, WordId};
use std::test::Fail;
use write_signature::Signature;

/// A word, another word with the same first bit, and its second bit, counted by hand.
const WORDS: [(u32, u32, u32); 4] = [(1, 257, 158), (2, 258, 60), (256, 0, 55), (257, 1, 213)];

/// The signature of these writes in phase 3.
fn written(words: &[u32]) -> Signature {
    let mut signature = Signature::empty(PhaseId(0));
    for word in words {
        signature.insert(WordId(*word), PhaseId(3));
    }
    signature
}

/// Whether the word may have been written in phase 3, if these were.
fn is_held(word: u32, words: &[u32]) -> bool {
    written(words).may_hold(WordId(word), PhaseId(3))
}

/// The first word that isn't held where its two bits are set, or is held where one of them is missing.
fn first_wrong() -> Option<u32> {
    for (word, same_first, second) in WORDS {
        let whole = is_held(word, &[same_first, second]);
        if !whole || is_held(word, &[same_first]) || is_held(word, &[second]) {
            return Some(word);
        }
    }
    None
}

/// Whether the join of two signatures of one phase has the writes of both, and that of two phases is the later one.
fn joins() -> bool {
    let (one, two) = (written(&[1]), written(&[2]));
    one.join(&two) == written(&[1, 2]) && Signature::empty(PhaseId(2)).join(&one) == one
}

/// Whether the signature of writes in phase 3 holds none of them in phase 4, and is empty there.
fn is_new_in_the_next_phase() -> bool {
    let (signature, next) = (written(&[1]), PhaseId(4));
    signature.phase() == PhaseId(3)
        && !signature.may_hold(WordId(1), next)
        && signature.in_phase(next) == Signature::empty(next)
}

#[test]
fn a_word_has_two_bits_in_its_phase(rt: HostRuntime) -> Result<(), Fail> {
    assert_eq!(rt; first_wrong(), None);
    assert!(rt; is_held(1, &[1]) && !is_held(257, &[1]));
    assert!(rt; is_new_in_the_next_phase());
    assert!(rt; joins());
    Ok(())
}
