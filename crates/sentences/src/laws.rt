//! Theorems: what holds of effects and claims. A theorem is a function without effect; its contract states the theorem.
ghost use Rattle.std.specs.Prelude.{◌≡◌, ◌≢◌, ◌+◌, ◌<◌, ◌≤◌, ◌&&◌, nat_le, nat_lt, ◌+ℤ◌, ℕ, ℤ, Option, None, not, find, drop, slice_get, pos, int_le, int_lt, true, false, List, Some, Ok};
ghost use Rattle.std.specs.List.{IsAmong};
ghost use Rattle.region_table.specs.Program.{ProgramParts};
ghost use Rattle.effect_checker.specs.declared.fault.CheckFault.{CheckFault};
ghost use Rattle.text_places.specs.declared.places.Located.{Located};
ghost use Rattle.text_places.specs.Places.{text_places};
ghost use Rattle.text_places.specs.Words.{IsWordPlace};
ghost use Rattle.sentences.specs.declared.claims.Contender.{Contender as ContenderOf};
ghost use Rattle.rv_assembler.specs.declared.draft.Usage.{Usage};
ghost use Rattle.rv_assembler.specs.declared.draft.Cores.{Cores};
ghost use Rattle.rv_assembler.specs.declared.draft.Span.{Span};
ghost use Rattle.rv_assembler.specs.declared.statement.Extent.{Extent};
ghost use Rattle.rv_assembler.specs.Rows.{use_at};
ghost use Rattle.rv_assembler.specs.Fault.{extent_far, word_far};
ghost use Rattle.rv_assembler.specs.Named.{region_span};
ghost use Rattle.rv_assembler.specs.Operand.{bytes_of};
ghost use Rattle.rv_assembler.specs.declared.statement.Effect.{Effect};
ghost use Rattle.rv_assembler.specs.declared.statement.Statement.TheVariants.{Word, Uses};
ghost use Rattle.rv_assembler.specs.Source.{source, sayings, readings};
ghost use Rattle.region_table.specs.declared.declared.TaskDecl.{TaskDecl};
ghost use Rattle.region_table.specs.Plan.{uses_plainly, task_guards};
ghost use Rattle.region_table.specs.Words.{has};
ghost use Rattle.rv_core.specs.Access.{is_held, may_load, may_store};
ghost use Rattle.sentences.specs.declared.uses.Access.{Access as AccessOf};
ghost use Rattle.sentences.specs.declared.uses.OwnUse.TheVariants.{Free, Guarded, ReadUnder, ReadOnly, Undeclared};
ghost use Rattle.sentences.specs.declared.others_use.Others.TheVariants.{Guarding, Contending, Reading, Nobody};
ghost use Rattle.sentences.specs.declared.others_use.Guardian.{Guardian as GuardianOf};
ghost use Rattle.sentences.specs.Uses.{may_use, own_use, others_among};
ghost use Rattle.src_text.specs.declared.token.Token.{Token};
ghost use Rattle.rv_assembler.specs.declared.statement.Code.{Code};
ghost use Rattle.rv_assembler.specs.declared.names.Meaning.{Meaning};
ghost use Rattle.rv_assembler.specs.Declarations.{meaning_of};
ghost use Rattle.rv_assembler.specs.Emission.{emission};
ghost use Rattle.rv_assembler.specs.Fault.{is_far};
ghost use Rattle.rv_assembler.specs.Number.{is_within};
ghost use Rattle.rv_assembler.specs.Tables.{region_at, lock_name_at, tasks_at};
ghost use Rattle.text_places.specs.declared.places.TaskPlace.{TaskPlace as TaskPlaceOf};
ghost use Rattle.text_places.specs.Places.{own_line, task_place, phase_row};
ghost use Rattle.sentences.specs.declared.findings.Cause.TheVariants.{Range, Index, Interval, Operand};
ghost use Rattle.sentences.specs.declared.findings.Finding.{Finding as FindingOf};
ghost use Rattle.sentences.specs.declared.known.Known.{Known as KnownOf};
ghost use Rattle.sentences.specs.Findings.{code_out_of_range, out_of_range_at, behind_label, operand_at, finding_of};
ghost use Rattle.sentences.specs.Marks.{IsPartOf};
ghost use Rattle.sentences.specs.Loops.{loop_around, IsLoopAround};
ghost use Rattle.sentences.specs.declared.loops.Loop.{Loop as LoopOf};
ghost use Rattle.rv_assembler.specs.declared.fault.SourceFault.{SourceFault};
ghost use Rattle.sentences.specs.Operands.{IsWrongOperand};
ghost use Rattle.sentences.specs.declared.examples.Form.{Form as FormOf};
ghost use Rattle.sentences.specs.declared.wrong_operands.WrongOperand.{WrongOperand as WrongOperandOf};
ghost use Rattle.src_text.specs.declared.token.Span.{Span as PartOf};
ghost use Rattle.sentences.specs.Known.{known_in};
ghost use Rattle.sentences.specs.Origins.{IsRowOfLine};
ghost use Rattle.sentences.specs.Ranges.{tested_number, has_row, IsMeantAs};
ghost use Rattle.sentences.specs.Causes.{IsUndeclaredBy, HasTask, UsesPlainlySo, IsPlainlyFree, DeclaresPlainly, DeclaresUnder, MayAllLoad};
ghost use Rattle.sentences.specs.Families.{family_of};
ghost use Rattle.sentences.specs.declared.uses.Access.TheVariants.{Load};
ghost use Rattle.text_places.specs.declared.places.Places.{Places as PlacesOf};
ghost use Rattle.text_places.specs.Words.{is_task_of};
ghost use Rattle.sentences.specs.Claims.{extent_has, claim_has, claims_in, uses_so};
ghost use Rattle.sentences.specs.declared.effects.EffectLine.{EffectLine as EffectLineOf};
ghost use Rattle.sentences.specs.Effects.{bounds_of, told_of_region};
ghost use Rattle.sentences.specs.TableClaims.{IsTaskOf, IsClaimedOn, conflict_word};
ghost use Rattle.sentences.specs.Conflicts.{first_contender, second_contender};

use dn_base::MOST_WORDS;

/// An effect gives a task of its family exactly the words of its region that it claims for that task by the definition of the
/// language. The premises are that the effect isn't out of range, and that the region has at most 65,536 words.
pub fn an_effect_gives_the_words_that_it_claims()
    ensures { (phase : ℕ) (family : Cores) (u : Usage) (p : Span) (e : Extent) (part index : ℕ) → part < family.count → int_lt (pos index) p.len ≡ true → int_le p.len (pos MOST_WORDS) ≡ true → extent_far (Some p) e family.count ≡ false → extent_has e part index ≡ claim_has (use_at phase family u p e part) (p.start + index) }
{}

/// Each line that is quoted for a task of a conflict is an effect of the task's family, names the word's region, has the word for
/// this task, and is of the way of the conflict. So it gives the tables of the language's definition a claim of the word for that
/// task: for plain stores by the first task of a plain conflict, a plain one for each task that uses the word without a lock, and
/// one under the lock that is named for each task for which a lock guards the word.
///
/// The clauses `first` and `second` say this of the lines of a conflict, in a text with its program and the lines of its parts.
/// The clause `effect` says it of the lines that claim a word for any task of the text, in any of these ways.
pub fn a_quoted_effect_claims_the_word_for_its_task()
    ensures effect { (text : List ℕ) (program : ProgramParts) (c : ContenderOf) (word line : ℕ) → source text ≡ Ok program → IsWordPlace program.regions word c.place
        → IsTaskOf text c → IsAmong (claims_in text program c) line → IsClaimedOn text program.locks c word line }
    ensures first { (text : List ℕ) (l : Located) (f : CheckFault) (c : ContenderOf) (line : ℕ) → source text ≡ Ok l.program → l.places ≡ text_places text
        → first_contender l f ≡ Some c → IsAmong (claims_in text l.program c) line → IsClaimedOn text l.program.locks c (conflict_word f) line }
    ensures second { (text : List ℕ) (l : Located) (f : CheckFault) (c : ContenderOf) (line : ℕ) → source text ≡ Ok l.program → l.places ≡ text_places text
        → second_contender l f ≡ Some c → IsAmong (claims_in text l.program c) line → IsClaimedOn text l.program.locks c (conflict_word f) line }
{}

/// The lines of which it is said what they declare for a task are those of the task's effects on the region, and they declare what
/// is said.
///
/// The indices from the first to the last that are said are those that the effect gives the task (`words`). For each word that it
/// gives the task, a line that is told gives the tables of the language's definition a claim of the word for the task, in each
/// way in which its effect is (`told`). Each line that claims a word of the region for the task is one of these lines: it is told,
/// or counted as one more (`all`).
pub fn the_told_lines_are_those_of_the_task()
    ensures words { (e : Extent) (part len index : ℕ) → index < len → len ≤ MOST_WORDS
        → extent_has e part index ≡ (nat_le (bounds_of e part len).low index && nat_lt index (bounds_of e part len).high) }
    ensures told { (text : List ℕ) (program : ProgramParts) (t : TaskPlaceOf) (c : ContenderOf) (word : ℕ) (x : EffectLineOf) → source text ≡ Ok program → IsAmong (text_places text).tasks t
        → c.task ≡ Some t → IsWordPlace program.regions word c.place → IsAmong (told_of_region text program t c.place.region) x
        → extent_has x.effect.extent t.part c.place.index ≡ true → uses_so text program.locks c.way x.effect.writes x.effect.lock ≡ true
        → IsClaimedOn text program.locks c word x.line }
    ensures all { (text : List ℕ) (program : ProgramParts) (t : TaskPlaceOf) (c : ContenderOf) (line : ℕ) → c.task ≡ Some t → IsAmong (claims_in text program c) line
        → (x : EffectLineOf) × IsAmong (told_of_region text program t c.place.region) x × (x.line ≡ line) × (extent_has x.effect.extent t.part c.place.index ≡ true) }
{}

/// What is said of a task's own effects, where it may not access a word, holds by the rules of access.
///
/// It is told that it doesn't hold a lock only where it doesn't, and would have the right if it did (`not_held`, `held`). It is
/// told that the word is declared by `.greads` alone only where no lock gives it the right to store, and the lock that is named
/// gives it the right to load (`read_under`). It is told that the word is in `.reads` only where it may load it and not store
/// to it, whatever it holds (`read_only`), and that no effect has the word only where none has (`undeclared`). It is told that
/// its effects let it do so only where they do (`free`).
pub fn what_is_said_of_own_effects_holds()
    ensures held { (a : AccessOf) (d : TaskDecl) (held w lock : ℕ) → own_use a d.effects w ≡ Guarded lock → is_held held lock ≡ true → may_use a d held w ≡ true }
    ensures not_held { (a : AccessOf) (d : TaskDecl) (held w lock : ℕ) → own_use a d.effects w ≡ Guarded lock → may_use a d held w ≡ false → is_held held lock ≡ false }
    ensures read_under { (a : AccessOf) (d : TaskDecl) (held w lock : ℕ) → own_use a d.effects w ≡ ReadUnder lock
        → (may_store d held w ≡ false) × (is_held held lock ≡ true → may_load d held w ≡ true) }
    ensures read_only { (a : AccessOf) (d : TaskDecl) (held w : ℕ) → own_use a d.effects w ≡ ReadOnly → (may_store d held w ≡ false) × (may_load d held w ≡ true) }
    ensures undeclared { (a : AccessOf) (d : TaskDecl) (w : ℕ) → own_use a d.effects w ≡ Undeclared → IsUndeclaredBy d w }
    ensures free { (a : AccessOf) (d : TaskDecl) (held w : ℕ) → own_use a d.effects w ≡ Free → may_use a d held w ≡ true }
{}

/// What is said of the other tasks of the phase holds of their effects.
///
/// A lock that is said to guard the word for a core's task does so (`guarding`). A task that is said to use the word without a
/// lock is of another core, and uses it in conflict with a plain access (`contending`). A task that is said to load it is of
/// another core, and does (`reading`). That no other task declares the word is said only where none does (`nobody`).
pub fn what_is_said_of_other_tasks_holds()
    ensures guarding { (a : AccessOf) (core : ℕ) (tasks : List TaskDecl) (w : ℕ) (g : GuardianOf) → others_among a core tasks w ≡ Guarding g
        → HasTask tasks g.core (λ t. task_guards t g.lock w ≡ true) }
    ensures contending { (a : AccessOf) (core : ℕ) (tasks : List TaskDecl) (w c : ℕ) → others_among a core tasks w ≡ Contending c
        → HasTask tasks c (λ t. UsesPlainlySo a t w) × (c ≢ core) }
    ensures reading { (a : AccessOf) (core : ℕ) (tasks : List TaskDecl) (w c : ℕ) → others_among a core tasks w ≡ Reading c
        → HasTask tasks c (λ t. has t.effects.reads w ≡ true) × (c ≢ core) }
    ensures nobody { (a : AccessOf) (core : ℕ) (tasks : List TaskDecl) (w : ℕ) → others_among a core tasks w ≡ Nobody → (t : TaskDecl) → IsAmong tasks t
        → t.core.0 ≢ core → IsUndeclaredBy t w }
{}

/// An effect that is named as the remedy gives the task the right. A plain one does so whatever the task holds (`plain`), and is
/// named only where no lock guards the word for any task of the phase, and no other task uses it in conflict with the access
/// (`apart_from_readers`, `apart_from_all`): so the check finds no new conflict on the word. One under a lock does so while
/// the task holds the lock (`guarded`).
pub fn an_effect_named_as_remedy_gives_the_right()
    ensures plain { (a : AccessOf) (d : TaskDecl) (held w : ℕ) → DeclaresPlainly a d w → may_use a d held w ≡ true }
    ensures apart_from_readers { (a : AccessOf) (core : ℕ) (tasks : List TaskDecl) (w c : ℕ) → others_among a core tasks w ≡ Reading c → IsPlainlyFree a core tasks w }
    ensures apart_from_all { (a : AccessOf) (core : ℕ) (tasks : List TaskDecl) (w : ℕ) → others_among a core tasks w ≡ Nobody → IsPlainlyFree a core tasks w }
    ensures guarded { (a : AccessOf) (d : TaskDecl) (held lock w : ℕ) → DeclaresUnder a lock d w → is_held held lock ≡ true → may_use a d held w ≡ true }
{}

/// An effect behind a line is one of each task that the line declares. A plain effect for stores is named only for a task that is
/// alone on its line (`alone`). One for loads is named for each: no lock guards the word, and no task stores to it plainly, where
/// the task itself doesn't (`loads`); so the check finds no conflict on the word, whichever tasks may load it.
pub fn an_effect_named_as_remedy_suits_all_tasks_of_its_line()
    ensures alone { (places : PlacesOf) (phase core : ℕ) (t u : TaskPlaceOf) → find (is_task_of phase core) places.tasks ≡ Some t → family_of places phase core ≡ None
        → IsAmong places.tasks u → u.line ≡ t.line → u ≡ t }
    ensures loads { (core : ℕ) (tasks : List TaskDecl) (w : ℕ) → IsPlainlyFree Load core tasks w
        → ((t : TaskDecl) → IsAmong tasks t → t.core.0 ≡ core → has t.effects.writes w ≡ false) → MayAllLoad tasks w }
{}

/// The range that is named for a number of an instruction is the one that the language's definition tests: the line has the
/// fault out-of-range exactly if the number isn't in it. The premise is that the instructions have such an instruction.
pub fn a_named_range_is_the_tested_one()
    ensures { (text : List ℕ) (names : List ℕ → Option Meaning) (here : ℕ) (k : Code) (ts : List Token) (x : FindingOf) (low high n : ℤ) → code_out_of_range ts k ≡ Some x
        → x.cause ≡ Range low high → tested_number k ≡ Some n → has_row k ≡ true → is_far (emission text names here k) ≡ not (is_within low (high +ℤ pos 1) n) }
{}

/// The number of words that is named of a region is the one by which the language's definition tests an index or an interval. An index
/// has the fault out-of-range exactly if it isn't from 0 to below that number (`index`), and an interval exactly if it has it in a region
/// of so many words (`interval`). The premises are that the region's name means a region, and that it hasn't a negative length.
pub fn the_named_words_are_those_of_the_region()
    ensures index { (text bytes : List ℕ) (ts : List Token) (region : Token) (index : ℤ) (value : ℕ) (x : FindingOf) (words : ℕ) (p : Span)
        → out_of_range_at text bytes ts (Word region index value) ≡ Some x → x.cause ≡ Index words
        → region_span (meaning_of text (sayings (readings text)) (bytes_of bytes region)) ≡ Some p → int_le (pos 0) p.len ≡ true
        → word_far (Some p) index ≡ not (is_within (pos 0) (pos words) index) }
    ensures interval { (text bytes : List ℕ) (ts : List Token) (u : Effect) (count : ℕ) (x : FindingOf) (words : ℕ) (p : Span)
        → out_of_range_at text bytes ts (Uses u) ≡ Some x → x.cause ≡ Interval words
        → region_span (meaning_of text (sayings (readings text)) (bytes_of bytes u.region)) ≡ Some p → int_le (pos 0) p.len ≡ true
        → extent_far (Some p) u.extent count ≡ extent_far (Some (record { start = p.start; len = pos words })) u.extent count }
{}

/// A name of which it is said that no line declares it means nothing in the text (`undeclared`). One of which it is said what a
/// line declares it as means that (`declared`): a label of that line, a region of so many words, or a lock.
pub fn a_name_means_what_it_is_said_to_be_declared_as()
    ensures undeclared { (text name : List ℕ) → known_in text name ≡ None → meaning_of text (sayings (readings text)) name ≡ None }
    ensures declared { (text name : List ℕ) (k : KnownOf) → known_in text name ≡ Some k
        → (m : Meaning) × (meaning_of text (sayings (readings text)) name ≡ Some m) × IsMeantAs k.sort k.line m }
{}

/// The origin of a region, a lock, a phase or a task is a line of good form that gives the part with this number: the lines
/// before give the parts before the line's first one. A task is moreover the line's task of its own number, in its phase and on
/// its core.
pub fn each_part_comes_from_its_line()
    ensures regions { (text : List ℕ) (number line : ℕ) → slice_get (text_places text).regions number ≡ Some line
        → IsRowOfLine (region_at text) own_line (sayings (readings text)) number line }
    ensures locks { (text : List ℕ) (number line : ℕ) → slice_get (text_places text).locks number ≡ Some line
        → IsRowOfLine (lock_name_at text) own_line (sayings (readings text)) number line }
    ensures phases { (text : List ℕ) (number line : ℕ) → slice_get (text_places text).phases number ≡ Some line
        → IsRowOfLine phase_row own_line (sayings (readings text)) number line }
    ensures tasks { (text : List ℕ) (number : ℕ) (t : TaskPlaceOf) → slice_get (text_places text).tasks number ≡ Some t
        → IsRowOfLine (tasks_at text (meaning_of text (sayings (readings text)))) task_place (sayings (readings text)) number t }
{}

/// An operand that is named as wrong is the one with that number behind the statement's word, and it is the marked part of the
/// line. The line is well formed where an example of what is wanted stands in its place.
pub fn the_marked_operand_is_the_one_that_is_named()
    ensures { (version : ℕ) (bytes : List ℕ) (ts : List Token) (x : FindingOf) (word : PartOf) (w : WrongOperandOf) (form : FormOf) → operand_at version bytes ts ≡ Some x
        → x.cause ≡ Operand word w form → (x.part ≡ w.part) × IsWrongOperand version bytes (drop 1 (behind_label ts)) w }
{}

/// The part that is marked of a line with a fault lies in the line: it has a byte at least, and ends where the line does or
/// before. So the marks stand under bytes of the line, and the part that the sentence names isn't empty.
pub fn the_marked_part_lies_in_its_line()
    ensures { (text bytes : List ℕ) (fault : SourceFault) (x : FindingOf) → finding_of text bytes fault ≡ Some x → IsPartOf bytes x.part }
{}

/// The loop that is named of an instruction has it: the instruction is not before the loop's head, and not behind the branch or
/// jump that goes back to the head, which is one of the program's code words.
pub fn a_named_loop_is_around_the_instruction()
    ensures { (code : List ℕ) (pc : ℕ) (l : LoopOf) → loop_around code pc ≡ Some l → IsLoopAround code pc 4096 l }
{}
