//! Theorems of explained verdicts. A theorem is a function without effect; its contract states the theorem.
ghost use Rattle.std.specs.Prelude.{◌≡◌, ◌++◌, ◌+◌, ℕ, Bool, List, [], Some, slice_index_or};
ghost use Rattle.src_text.specs.Laws.{ended};
ghost use Rattle.text_places.specs.declared.places.Located.{Located as LocatedOf};
ghost use Rattle.text_places.specs.Lines.{numbered_line};
ghost use Rattle.explained_answer.specs.declared.verdict_rows.VerdictRow.{VerdictRow as RowOf};
ghost use Rattle.explained_answer.specs.Verdicts.{form_of, verdict_row, pieces, quoted_piece, piece_number, said_line};

/// What is said of a line of a verdict begins with the line as it is (`repeated`). If the line quotes a line of the text, the text
/// has this line at the number that is named (`quoted`).
pub fn a_verdict_quotes_its_text()
    ensures repeated { (text : List ℕ) (l : LocatedOf) (on_answer : Bool) (line said : List ℕ) → said_line text l on_answer line ≡ Some said
        → (more : List ℕ) × (said ≡ ended line ++ more) }
    ensures quoted { (text : List ℕ) (l : LocatedOf) (on_answer : Bool) (line said : List ℕ) (r : RowOf) (k : ℕ) → said_line text l on_answer line ≡ Some said
        → verdict_row on_answer line ≡ Some r → quoted_piece r ≡ Some k
        → (n : ℕ) × (piece_number (slice_index_or (pieces (form_of r) line) k []) ≡ Some n)
        × (numbered_line text n ≡ Some (slice_index_or (pieces (form_of r) line) (k + 1) [])) }
{}
