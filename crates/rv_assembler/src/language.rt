//! Theorems that compare statements of the source language with one another. A theorem is a function without effect; its contract
//! states the theorem.
ghost use Rattle.std.specs.Prelude.{◌≡◌, ◌%◌, ◌^◌, ◌<◌, ℕ, ℤ, pos, List, Option, Some};
ghost use Rattle.std.specs.List.{All};
ghost use Rattle.src_text.specs.declared.token.Token.{Token};
ghost use Rattle.rv_assembler.specs.declared.kind.Mnemonic.TheVariants.{Li, La};
ghost use Rattle.rv_assembler.specs.declared.names.Meaning.{Meaning};
ghost use Rattle.rv_assembler.specs.declared.names.Meaning.TheVariants.{Label, Region};
ghost use Rattle.rv_assembler.specs.declared.statement.Effect.{Effect};
ghost use Rattle.rv_assembler.specs.declared.draft.Cores.{Cores};
ghost use Rattle.rv_assembler.specs.Number.{natural_of, wrapped};
ghost use Rattle.rv_assembler.specs.Operand.{bytes_of, token_at, number_at, register_at};
ghost use Rattle.rv_assembler.specs.Reading.{code_for};
ghost use Rattle.rv_assembler.specs.Emission.{label_address, region_address, emission};
ghost use Rattle.rv_assembler.specs.TwoWords.{MakesValue};
ghost use Rattle.rv_assembler.specs.BaseLine.{pseudo_rows, HasBaseLine};
ghost use Rattle.rv_assembler.specs.FamilyLines.{IsTaskLine, HasTaskLines, HasUseLines};

/// The two words of `li` load its number modulo 2^32 into its register, by the meaning of LUI and ADDI. Those of `la` load the
/// address of its label, or of the first word of its region.
pub fn two_words_make_their_value()
    ensures number { (text : List ℕ) (names : List ℕ → Option Meaning) (here : ℕ) (ts : List Token) → MakesValue (register_at text ts 0) (wrapped (number_at ts 2)) (emission text names here (code_for text ts Li)) }
    ensures label { (text : List ℕ) (names : List ℕ → Option Meaning) (here line place : ℕ) (ts : List Token) → names (bytes_of text (token_at ts 2)) ≡ Some (Label line place)
        → MakesValue (register_at text ts 0) (label_address place % 2 ^ 32) (emission text names here (code_for text ts La)) }
    ensures region { (text : List ℕ) (names : List ℕ → Option Meaning) (here number start : ℕ) (len : ℤ) (ts : List Token) → names (bytes_of text (token_at ts 2)) ≡ Some (Region number start len)
        → MakesValue (register_at text ts 0) (region_address start % 2 ^ 32) (emission text names here (code_for text ts La)) }
{}

/// A line of a pseudo-instruction has the same word as its base line, or the same fault, for all operands.
pub fn a_pseudo_instruction_has_its_base_line()
    ensures { All HasBaseLine pseudo_rows }
{}

/// The tasks of a line of `.forall` are those of its lines of `.task`, in their order, on consecutive cores from the first one
/// on. An effect gives a family of tasks the words that it gives to each task by the task's own interval.
pub fn a_family_has_the_rows_of_its_lines()
    ensures tasks { (text : List ℕ) (ts : List Token) (core : ℕ) (lines : ℕ → List Token) → number_at ts 0 ≡ pos core → ((i : ℕ) → i < natural_of (number_at ts 2) → IsTaskLine text ts i (lines i)) → HasTaskLines text ts lines }
    ensures uses { (text : List ℕ) (phase : ℕ) (family : Cores) (e : Effect) → HasUseLines text phase family e }
{}
