//! Theorems: what explain does with the answers of denovo and of outcomes, and whom it names as the holder of a lock. Their contracts state the
//! theorems.
ghost use Rattle.std.specs.Prelude.{◌≡◌, ◌≤◌, ℕ, List, Some, length};
ghost use Rattle.std.specs.Int.{IsInRange};
ghost use Rattle.std.specs.List.{IsAmong};
ghost use Rattle.dn_base.specs.declared.ids.Grant.{Grant};
ghost use Rattle.dn_base.specs.declared.ids.LockId.{LockId};
ghost use Rattle.dn_base.specs.declared.ids.Shape.{Shape};
ghost use Rattle.region_table.specs.Program.{ProgramParts, IsProgram};
ghost use Rattle.rv_core.specs.declared.ending.EndShown.TheVariants.{Waits};
ghost use Rattle.rv_core.specs.declared.ending.TaskEnd.{TaskEnd};
ghost use Rattle.flat_machine.specs.declared.ending.FlatEnd.{FlatEnd};
ghost use Rattle.flat_machine.specs.Ending.{flat_end};
ghost use Rattle.dn_machine.specs.declared.record.RunRecord.{RunRecord};
ghost use Rattle.clap.specs.Walk.{Text};
ghost use Rattle.dn_base.specs.declared.status.Status.TheVariants.{Done};
ghost use Rattle.dn_top.specs.Command.{OptionsInRange, options_of};
ghost use Rattle.dn_top.specs.declared.options.Options.{Options};
ghost use Rattle.program_outside.specs.Serving.{usage_line};
ghost use Rattle.dn_top.specs.declared.output.Output.{Output};
ghost use Rattle.dn_top.specs.Answers.{IsAnswer};
ghost use Rattle.dn_top.specs.Laws.{Call, IsTextAnswered};
ghost use Rattle.checked_runs.specs.Runs.{IsRunOf, reported};
ghost use Rattle.explained_answer.specs.declared.explaining.Explained.{Explained};
ghost use Rattle.explained_answer.specs.Explained.{IsLocated, HasNoConflict, IsExplained};
ghost use Rattle.explain_top.specs.Answers.{Explanation, IsOutput};
ghost use Rattle.text_places.specs.declared.places.Located.{Located};
ghost use Rattle.outcomes_top.specs.Answers.{OutcomesReply, IsOutcomesAnswer};
ghost use Rattle.companion_laws.specs.Holding.{HasHolder, IsReportExplained};
ghost use Rattle.companion_laws.specs.Taken.{IsTaken, is_beside, IsCallTaken};

use dn_base::MOST_OF_DOCUMENT;
use dn_top::the_output_is_a_function_of_source_and_options;

/// Explain takes every answer of denovo, if it is given the answer and its text: the answer is explained or repeated, and none of
/// its lines is refused. The text is the one that denovo was asked about, in the mode work the generated one, and in the mode
/// replay the text of the trace. With an answer that refuses the bytes as no document, any text will do.
///
/// The clause `answer` says this of each answer to options and a text, in all nine modes, whether the text is refused or not. The
/// clause `output` says it of what `explain_top::answer` gives, with the exit code 0, if the answer has no more bytes than are
/// looked at. The clause `call` says it of a call of `dn_top::denovo_main` with these words that ended with the exit code of an
/// outcome or of a refusal of its text: what the sink took is such an answer. The clause `usage` says it of the line that refuses
/// arguments.
pub fn every_answer_of_denovo_is_taken()
    ensures answer { (o : Options) (asked : List ℕ) (out : Output) (text : List ℕ) (e : Explained) → OptionsInRange o → IsAnswer o asked out
        → is_beside o.mode asked text → IsExplained text out.bytes e → IsTaken e }
    ensures output { (o : Options) (asked : List ℕ) (out : Output) (text : List ℕ) (explanation : Explanation) → OptionsInRange o → IsAnswer o asked out
        → is_beside o.mode asked text → length out.bytes ≤ MOST_OF_DOCUMENT → IsOutput text out.bytes explanation → explanation.status ≡ Done }
    ensures call { (words : List Text) (o : Options) (asked : List ℕ) (call : Call) → options_of words ≡ Some o → IsTextAnswered o asked call → IsCallTaken o asked call }
    ensures usage { (text : List ℕ) (e : Explained) → IsExplained text usage_line e → IsTaken e }
{
    // for the proof alone: a text is refused by one line, and not if its program is checked
    the_output_is_a_function_of_source_and_options();
}

/// Explain takes every answer of outcomes, if it is given the answer and its text: what all runs have in common, with the words that
/// may vary, why that is open, or the line that refuses the text. None of its lines is refused.
///
/// The clause `answer` says this of each answer to a fuel and a text. The clause `output` says of what `explain_top::answer` gives that
/// its exit code is 0, if the answer has no more bytes than are looked at.
pub fn every_answer_of_outcomes_is_taken()
    ensures answer { (fuel : ℕ) (text : List ℕ) (out : OutcomesReply) (e : Explained) → IsInRange 1 32768 fuel → IsOutcomesAnswer fuel text out → IsExplained text out.bytes e → IsTaken e }
    ensures output { (fuel : ℕ) (text : List ℕ) (out : OutcomesReply) (explanation : Explanation) → IsInRange 1 32768 fuel → IsOutcomesAnswer fuel text out
        → length out.bytes ≤ MOST_OF_DOCUMENT → IsOutput text out.bytes explanation → explanation.status ≡ Done }
{
    // for the proof alone: a text is refused by one line, and not if its program is checked
    the_output_is_a_function_of_source_and_options();
}

/// If a task waits for a lock at the end of a run, the core to which the lock was granted last holds it: that core has a task
/// in the same phase, and this task holds the lock. Explain names that core, so it names the holder.
///
/// The clause `flat` says this of each run of the reference machine by grants, and the clause `run` of each run of the multicore
/// machine of which dn_top's `IsRunOf` is true. The clause `named` says that explain's sentences after the lines of such a run's
/// report follow the grants of the run.
pub fn the_core_that_was_granted_a_lock_last_holds_it()
    ensures flat { (P : ProgramParts) (fuel : ℕ) (grants : List Grant) (e : FlatEnd) (t : TaskEnd) (lock : LockId) → IsProgram P → flat_end P fuel grants ≡ Some e
        → IsAmong e.ending.tasks t → t.end ≡ Waits lock → HasHolder P fuel grants t.phase.0 lock.0 }
    ensures run { (P : ProgramParts) (machine : Shape) (fuel : ℕ) (r : RunRecord) (t : TaskEnd) (lock : LockId) → IsProgram P → IsRunOf P machine fuel r
        → IsAmong r.ending.tasks t → t.end ≡ Waits lock → HasHolder P fuel r.grants t.phase.0 lock.0 }
    ensures named { (text : List ℕ) (l : Located) (machine : Shape) (fuel : ℕ) (r : RunRecord) (e : Explained) → IsLocated text l → HasNoConflict l.program → fuel ≤ 32768
        → IsRunOf l.program machine fuel r → IsExplained text (reported r) e → IsReportExplained text l r e }
{}
