//! Theorems of the lines of an answer. A theorem is a function without effect; its contract states the theorem.
ghost use Rattle.std.specs.Prelude.{◌≡◌, ◌≤◌, ◌++◌, ℕ, List, length, flat_map};
ghost use Rattle.std.specs.List.{All};
ghost use Rattle.dn_base.specs.declared.ids.Grant.{Grant as GrantOf};
ghost use Rattle.grant_log.specs.declared.counts.Counts.{Counts as CountsOf};
ghost use Rattle.region_table.specs.Program.{ProgramParts};
ghost use Rattle.rv_core.specs.declared.ending.Ending.{Ending as EndingOf};
ghost use Rattle.text_places.specs.declared.places.Located.{Located as LocatedOf};
ghost use Rattle.run_report.specs.Answer.{answer_of};
ghost use Rattle.run_report.specs.Run.{run_text};
ghost use Rattle.run_report.specs.Summary.{summary_of, checked_of};
ghost use Rattle.explained_answer.specs.declared.line.AnswerLine.{AnswerLine as LineOf};
ghost use Rattle.explained_answer.specs.Answers.{ending_lines, run_lines, summary_lines, size_line};
ghost use Rattle.explained_answer.specs.AnswerLines.{IsAnswerLine, answer_line};
ghost use Rattle.explained_answer.specs.Lines.{answers_run_again, answers_and_sentences, lines_and_sentences};
ghost use Rattle.explained_answer.specs.Several.{IsOneAnswer};

/// Bytes begin with at most one line, and what follows it is determined.
pub fn a_line_is_read_in_one_way()
    ensures { (x y : LineOf) (r s : List ℕ) → IsAnswerLine x → IsAnswerLine y → answer_line x ++ r ≡ answer_line y ++ s → (x ≡ y) × (r ≡ s) }
{}

/// Answers of runs that stand one after the other are explained one after the other, each by its own lines. Up to 16 answers, each is
/// explained as if it stood alone. Of those behind the first 16 all is said but where tasks stand.
pub fn answers_are_explained_one_after_the_other()
    ensures each { (text : List ℕ) (l : LocatedOf) (answers : List (List LineOf)) → All IsOneAnswer answers
        → lines_and_sentences text l (flat_map (λ (answer : List LineOf). answer) answers) ≡ answers_and_sentences text l answers }
    ensures alone { (text : List ℕ) (l : LocatedOf) (answers : List (List LineOf)) → All IsOneAnswer answers → length answers ≤ answers_run_again
        → lines_and_sentences text l (flat_map (λ (answer : List LineOf). answer) answers) ≡ flat_map (lines_and_sentences text l) answers }
{}

/// The printed ending of a run, its grants and counts, its summary, and the size of a checked program consist of these lines.
pub fn printed_answers_are_lines()
    ensures ending { (e : EndingOf) → answer_of e ≡ flat_map answer_line (ending_lines e) }
    ensures run { (grants : List GrantOf) (counts : CountsOf) → run_text grants counts ≡ flat_map answer_line (run_lines grants counts) }
    ensures summary { (e : EndingOf) → summary_of e ≡ flat_map answer_line (summary_lines e) }
    ensures size { (p : ProgramParts) → checked_of p ≡ answer_line (size_line p) }
{}
