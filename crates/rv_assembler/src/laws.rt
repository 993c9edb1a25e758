//! Theorems: what holds of the meaning of every text. A theorem is a function without effect; its contract states the theorem.
ghost use Rattle.std.specs.Prelude.{◌≡◌, ◌<◌, ◌≤◌, ℕ, List, length, Ok, Err};
ghost use Rattle.std.specs.List.{All};
ghost use Rattle.rv_assembler.specs.declared.fault.SourceFault.TheVariants.{TooLarge};
ghost use Rattle.region_table.specs.Words.{has, IsCanonical};
ghost use Rattle.region_table.specs.declared.interval.Interval.{Interval};
ghost use Rattle.region_table.specs.Program.{ProgramParts, IsProgram, names_of};
ghost use Rattle.rv_assembler.specs.Names.{AreDeclaredNames};
ghost use Rattle.rv_assembler.specs.Source.{readings, sayings, source};
ghost use Rattle.rv_assembler.specs.Counts.{code_words, data_words, HasFewBefore};
ghost use Rattle.rv_assembler.specs.Placed.{placed};
ghost use Rattle.rv_assembler.specs.Union.{united};

use dn_base::MOST_OF_TEXT;

/// `TooLarge` is only a fault of texts of more than 1,048,576 bytes: no line has it.
pub fn only_long_texts_are_too_large()
    ensures { (text : List ℕ) → source text ≡ Err TooLarge → MOST_OF_TEXT < length text }
{}

/// The names of a text's program are names that a text may declare.
pub fn names_may_be_declared()
    ensures { (text : List ℕ) (program : ProgramParts) → source text ≡ Ok program → AreDeclaredNames (names_of program) }
{}

/// A text has at most 65,536 lines of good form. So it has at most 131,072 code words and at most 2^32 data words. 2^32 can
/// only be the count after the last line, and no line's number.
pub fn lines_of_good_form_are_few()
    ensures lines { (text : List ℕ) → length (sayings (readings text)) ≤ 65536 }
    ensures code { (text : List ℕ) → code_words (sayings (readings text)) ≤ 131072 }
    ensures data { (text : List ℕ) → data_words (sayings (readings text)) ≤ 4294967296 }
{}

/// What stands before a line of good form fits 32 bits, in every text, with faults or without: the code word to which its label
/// points, the first word of its region, and the numbers of its region, its lock and its phase.
pub fn what_stands_before_a_line_has_32_bits()
    ensures { (text : List ℕ) → All HasFewBefore (placed (sayings (readings text))) }
{}

/// The program of a text is well formed: it is within the limits, and its regions, cores, entries and effects are as a program
/// requires.
pub fn programs_are_well_formed()
    ensures { (text : List ℕ) (program : ProgramParts) → source text ≡ Ok program → IsProgram program }
{}

/// A union of intervals has exactly the words of all of them. If none of them is empty, the intervals of the union rise and
/// don't touch.
pub fn a_union_has_all_words()
    ensures words { (intervals : List Interval) (word : ℕ) → has (united intervals) word ≡ has intervals word }
    ensures canonical { (intervals : List Interval) → All (λ (i : Interval). i.lo < i.hi) intervals → IsCanonical (united intervals) }
{}
