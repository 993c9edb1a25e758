//! Theorems: what holds of the origins in every text. A theorem is a function without effect; its contract states the theorem.
ghost use Rattle.std.specs.Prelude.{◌≡◌, ◌<◌, ℕ, List, length, Ok, Some, slice_get};
ghost use Rattle.region_table.specs.declared.declared.Region.{Region};
ghost use Rattle.region_table.specs.Program.{ProgramParts, AreTiled};
ghost use Rattle.rv_assembler.specs.Source.{source};
ghost use Rattle.text_places.specs.declared.places.CodePlace.{CodePlace};
ghost use Rattle.text_places.specs.declared.words.WordPlace.{WordPlace};
ghost use Rattle.text_places.specs.Places.{text_places};
ghost use Rattle.text_places.specs.Words.{word_place, IsWordPlace};
ghost use Rattle.text_places.specs.Lines.{IsLineOfCode};

/// Each code word, region, lock and phase of a text's program has an origin, and there are no other origins.
pub fn each_part_of_a_program_has_a_place()
    ensures code { (text : List ℕ) (program : ProgramParts) → source text ≡ Ok program → length (text_places text).code ≡ length program.code }
    ensures regions { (text : List ℕ) (program : ProgramParts) → source text ≡ Ok program → length (text_places text).regions ≡ length program.regions }
    ensures locks { (text : List ℕ) (program : ProgramParts) → source text ≡ Ok program → length (text_places text).locks ≡ length program.locks }
    ensures phases { (text : List ℕ) (program : ProgramParts) → source text ≡ Ok program → length (text_places text).phases ≡ length program.phases }
{}

/// The origin of a code word is a line of good form that gives this word: the lines before give the words before the line's
/// first one.
pub fn a_code_word_is_one_of_its_line()
    ensures { (text : List ℕ) (number : ℕ) (place : CodePlace) → slice_get (text_places text).code number ≡ Some place → IsLineOfCode text number place }
{}

/// If the regions are adjacent, each word is in exactly one region.
pub fn each_word_has_its_region()
    ensures { (regions : List Region) (words word : ℕ) → AreTiled 0 regions words → word < words → (place : WordPlace) × (word_place regions word ≡ Some place) × IsWordPlace regions word place }
{}
