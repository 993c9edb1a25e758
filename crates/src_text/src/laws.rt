//! Theorems: what holds of the lines and tokens of every text. A theorem is a function without effect; its contract states the
//! theorem.

ghost use Rattle.std.specs.Prelude.{◌≡◌, ◌≢◌, ℕ, List, [], ◌∷◌, None, All};
ghost use Rattle.src_text.specs.Laws.{AreInOrder, AreLexemesOf, AreLinesOf, AreNumbered, AreTokensOf, IsLongestToken, HasNameBytes, IsPlaced, IsSliceOf, LeavesBlanks};
ghost use Rattle.src_text.specs.Lexeme.{front, lexemes_of};
ghost use Rattle.src_text.specs.Line.{cut, fault_of, line_of, lines_of};

/// The lines of a text, each followed by its newline, make up the text, except that a last newline may be missing.
pub fn lines_make_up_the_text()
    ensures { (text : List ℕ) → AreLinesOf text (cut text) }
{}

/// Lines are numbered from 1, and stand in the text one after the other.
pub fn lines_are_numbered()
    ensures { (text : List ℕ) → AreNumbered text }
{}

/// Each token is as long as it can be.
pub fn tokens_are_longest()
    ensures { (b : ℕ) (bs : List ℕ) → IsLongestToken (b ∷ bs) (front (b ∷ bs)) }
{}

/// The lexemes of a line stand one after the other, each where a token begins. Every byte of a token is in one of them.
pub fn tokens_make_up_the_code()
    ensures { (place : ℕ) (line : List ℕ) → AreLexemesOf place line (lexemes_of place line) }
{}

/// A line without a fault has one token for each of its lexemes, in order. Only blanks and the comment are in none of them. A
/// line with a fault has no tokens.
pub fn lines_have_their_tokens()
    ensures tokens { (number place : ℕ) (line : List ℕ) → fault_of number line ≡ None
        → AreTokensOf (lexemes_of place line) (line_of number place line).tokens }
    ensures order { (number place : ℕ) (line : List ℕ) → AreInOrder place (line_of number place line).tokens }
    ensures whole { (number place : ℕ) (line : List ℕ) → fault_of number line ≡ None
        → LeavesBlanks place line (line_of number place line).tokens }
    ensures faulty { (number place : ℕ) (line : List ℕ) → fault_of number line ≢ None
        → (line_of number place line).tokens ≡ [] }
{}

/// The tokens of a text are slices of it: the bytes from a token's start to its end are a token of its kind, and those of a
/// name token are a name.
pub fn tokens_are_slices_of_the_text()
    ensures places { (text : List ℕ) → All (λ line. All (IsPlaced text) line.tokens) (lines_of text) }
    ensures kinds { (text : List ℕ) → All (λ line. All (IsSliceOf text) line.tokens) (lines_of text) }
    ensures names { (text : List ℕ) → All (λ line. All (HasNameBytes text) line.tokens) (lines_of text) }
{}
