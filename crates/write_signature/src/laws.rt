//! Theorems of the definitions of insertion and join, for proofs about signatures. A theorem is a function without effect; its
//! contract states the theorem.
ghost use Rattle.std.specs.Prelude.{◌≡◌, ◌≢◌, ℕ, ◌<◌, ◌≤◌, ◌||◌, max, false, IsTrue};
ghost use Rattle.write_signature.specs.declared.signature.Signature.{Signature};
ghost use Rattle.write_signature.specs.Signature.{tag, has_bit, in_phase, empty, may_hold, inserted, joined};

/// An empty signature holds no word, and a signature holds no word in a phase that isn't its own.
pub fn nothing_is_held_at_first()
    ensures empty { (w p q : ℕ) → may_hold (empty p) w q ≡ false }
    ensures other_phase { (s : Signature) (w p : ℕ) → tag s ≢ p → may_hold s w p ≡ false }
    ensures own_phase { (s : Signature) (w p : ℕ) → IsTrue (may_hold s w p) → tag s ≡ p }
{}

/// After an insertion in a phase the signature holds the word, and all words that it held in that phase before.
pub fn insert_covers()
    ensures inserted { (s : Signature) (w p : ℕ) → IsTrue (may_hold (inserted s w p) w p) }
    ensures kept { (s : Signature) (v w p : ℕ) → IsTrue (may_hold s v p) → IsTrue (may_hold (inserted s w p) v p) }
{}

/// An insertion in another phase starts from the empty signature.
pub fn insert_empties()
    ensures { (s : Signature) (w p : ℕ) → tag s ≢ p → inserted s w p ≡ inserted (empty p) w p }
{}

/// A signature that is taken into a phase is of that phase, and holds in it exactly what it held in it before.
pub fn a_phase_takes_over_its_own_writes()
    ensures tag { (p : ℕ) (s : Signature) → tag (in_phase p s) ≡ p }
    ensures held { (p : ℕ) (s : Signature) (w : ℕ) → may_hold (in_phase p s) w p ≡ may_hold s w p }
{}

/// The join of signatures of a phase or of earlier ones is of no later phase, and holds in the phase what either one holds in
/// it.
pub fn join_covers()
    ensures tag { (a b : Signature) (p : ℕ) → tag a ≤ p → tag b ≤ p → tag (joined a b) ≤ p }
    ensures first { (a b : Signature) (w p : ℕ) → tag b ≤ p → IsTrue (may_hold a w p) → IsTrue (may_hold (joined a b) w p) }
    ensures second { (a b : Signature) (w p : ℕ) → tag a ≤ p → IsTrue (may_hold b w p) → IsTrue (may_hold (joined a b) w p) }
{}

/// A join of two signatures of a phase has the bits of either.
pub fn join_has_the_bits_of_either()
    ensures { (a b : Signature) (i : ℕ) → tag a ≡ tag b → has_bit (joined a b) i ≡ (has_bit a i || has_bit b i) }
{}

/// A join of signatures of two phases is the one of the later phase.
pub fn join_is_of_the_later_phase()
    ensures first { (a b : Signature) → tag b < tag a → joined a b ≡ a }
    ensures second { (a b : Signature) → tag a < tag b → joined a b ≡ b }
{}

/// How each call changes the phase of a signature.
pub fn tags_are_kept()
    ensures empty { (p : ℕ) → tag (empty p) ≡ p }
    ensures inserted { (s : Signature) (w p : ℕ) → tag (inserted s w p) ≡ p }
    ensures joined { (a b : Signature) → tag (joined a b) ≡ max (tag a) (tag b) }
{}
