//! Theorems of what is printed. A theorem is a function without effect; its contract states the theorem.
ghost use Rattle.std.specs.Prelude.{◌≡◌, ℕ, Bool, List, ◌∷◌};
ghost use Rattle.dn_machine.specs.declared.record.RunRecord.{RunRecord};
ghost use Rattle.program_outside.specs.Serving.{IsEnough};
ghost use Rattle.sweep_top.specs.declared.options.Form.TheVariants.{Csv};
ghost use Rattle.sweep_top.specs.declared.options.SweepOptions.{SweepOptions};
ghost use Rattle.sweep_top.specs.declared.status.SweepStatus.TheVariants.{Swept};
ghost use Rattle.sweep_top.specs.AnswerLaws.{AreTheAnswers};
ghost use Rattle.sweep_top.specs.Answers.{SweepReply, IsSweepAnswer};
ghost use Rattle.sweep_top.specs.Laws.{IsAsked, IsRowOfDenovo};
ghost use Rattle.sweep_top.specs.SpreadLaws.{IsSpreadOf};
ghost use Rattle.sweep_top.specs.Tally.{different_answers, spread_of};

/// Each row of the table is of what `denovo --mode run --seed s` prints, with the same banks, sets, ways and fuel: for each seed
/// that is asked for, denovo answers the text with the report of a run, and the table has the row of this seed and this run.
pub fn each_row_is_of_the_run_that_denovo_prints()
    ensures { (o : SweepOptions) (text : List ℕ) (out : SweepReply) (seed : ℕ) → IsSweepAnswer o text out → out.status ≡ Swept → o.form ≡ Csv → IsAsked o.seeds seed
        → IsRowOfDenovo o text seed out.bytes }
{}

/// In the form answers each different answer of the runs has one row. It tells the least seed whose run has this answer, and how
/// many of the runs have it; the rows stand in the order of their seeds, and the counts add up to the number of runs. Answers are
/// compared with their counts of retired instructions or without them, as it is asked for.
pub fn each_answer_is_counted_once()
    ensures { (retired : Bool) (first : ℕ) (runs : List RunRecord) → AreTheAnswers retired first runs (different_answers retired first runs) }
{}

/// The least and the most that the form summary prints of a number are the least and the most of this number in all runs.
pub fn the_least_and_the_most_are_of_the_runs()
    ensures { (x : ℕ) (xs : List ℕ) → IsSpreadOf (x ∷ xs) (spread_of (x ∷ xs)) }
{}

/// What answers as many bytes as are read at most answers every text that begins with them.
pub fn the_bytes_that_are_read_are_enough()
    ensures { (o : SweepOptions) → IsEnough (IsSweepAnswer o) 1048577 }
{}
