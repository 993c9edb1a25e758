ghost use Rattle.std.specs.Prelude.{◌≡◌, ◌<◌};
ghost use Rattle.write_signature.specs.Signature.{h1, h2, has_bit, same_signature, with_bit, in_phase, empty, may_hold, inserted, joined};

use dn_base::{PhaseId, WordId};

/// The words that were written in one phase, as 256 bits. Each word has two bits; both are set when it is written.
///
/// The signature has the number of its phase as a tag. Two signatures are equal if their bits and tags are.
#[derive(Clone, Copy, Debug, PartialEq, Eq)]
pub struct Signature {
    low: u128,
    high: u128,
    phase: PhaseId,
}

/// The first bit of a word: its number modulo 256.
pub(crate) fn first_bit(word: WordId) -> u32
    ensures value { result ≡ h1 word.0 }
    ensures within { result < 256 }
{
    word.0 % 256
}

/// The second bit of a word: the high byte of its number times 2654435769, modulo 2^32.
pub(crate) fn second_bit(word: WordId) -> u32
    ensures value { result ≡ h2 word.0 }
    ensures within { result < 256 }
{
    word.0.wrapping_mul(2_654_435_769) >> 24
}

impl Signature {
    /// The signature of a phase in which nothing was written yet.
    #[tactic(auto, unfolding(crate::specs::Signature::empty))]
    pub fn empty(phase: PhaseId) -> Signature
        ensures { result ≡ empty phase.0 }
    {
        Signature {
            low: 0,
            high: 0,
            phase,
        }
    }

    /// The phase whose writes the signature has.
    pub fn phase(&self) -> PhaseId
        ensures { result ≡ self.now.phase }
    {
        self.phase
    }

    /// Whether both signatures have the same bits and are of the same phase.
    pub fn is_same(&self, other: &Signature) -> bool
        ensures { result ≡ same_signature self.now other.now }
    {
        self.low == other.low && self.high == other.high && self.phase.0 == other.phase.0
    }

    /// Whether this bit is set, one of 0 to 255.
    pub fn has(&self, bit: u32) -> bool
        requires { bit < 256 }
        ensures { result ≡ has_bit self.now bit }
    {
        if bit < 128 {
            self.low >> bit & 1 == 1
        } else {
            self.high >> (bit - 128) & 1 == 1
        }
    }

    /// The signature with this bit set.
    fn with(self, bit: u32) -> Signature
        requires { bit < 256 }
        ensures { result ≡ with_bit bit self }
    {
        let Signature { low, high, phase } = self;
        if bit < 128 {
            Signature {
                low: low | 1 << bit,
                high,
                phase,
            }
        } else {
            Signature {
                low,
                high: high | 1 << (bit - 128),
                phase,
            }
        }
    }

    /// The signature before a write in this phase: itself if it is of this phase, else the empty one.
    pub fn in_phase(self, phase: PhaseId) -> Signature
        ensures { result ≡ in_phase phase.0 self }
    {
        if self.phase == phase {
            self
        } else {
            Signature::empty(phase)
        }
    }

    /// Notes a write of the word in this phase. A signature of another phase is first replaced by the empty one of this phase.
    #[tactic(auto, unfolding(crate::specs::Signature::inserted))]
    pub fn insert(&mut self, word: WordId, phase: PhaseId)
        ensures { self.new ≡ inserted self.old word.0 phase.0 }
    {
        *self = self
            .in_phase(phase)
            .with(first_bit(word))
            .with(second_bit(word));
    }

    /// Whether the word may have been written in this phase. It is true of each word that was written.
    #[tactic(auto, unfolding(crate::specs::Signature::may_hold))]
    pub fn may_hold(&self, word: WordId, phase: PhaseId) -> bool
        ensures { result ≡ may_hold self.now word.0 phase.0 }
    {
        self.phase == phase && self.has(first_bit(word)) && self.has(second_bit(word))
    }

    /// The union of both if they are of the same phase, otherwise the one of the later phase.
    #[tactic(auto, unfolding(crate::specs::Signature::joined))]
    pub fn join(&self, other: &Signature) -> Signature
        ensures { result ≡ joined self.now other.now }
    {
        if self.phase == other.phase {
            Signature {
                low: self.low | other.low,
                high: self.high | other.high,
                phase: self.phase,
            }
        } else if self.phase < other.phase {
            *other
        } else {
            *self
        }
    }
}
