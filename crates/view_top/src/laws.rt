//! What holds of every answer. A theorem is a function without effect; its contract states the theorem.
ghost use Rattle.std.specs.Prelude.{◌≡◌, ℕ, List, length, flat_map, Ok, Some, slice_get};
ghost use Rattle.region_table.specs.Program.{ProgramParts};
ghost use Rattle.rv_assembler.specs.Source.{source};
ghost use Rattle.text_places.specs.declared.places.CodePlace.{CodePlace};
ghost use Rattle.text_places.specs.Lines.{IsLineOfCode};
ghost use Rattle.dn_machine.specs.declared.record.RunRecord.{RunRecord};
ghost use Rattle.run_replay.specs.declared.trace.Trace.{Trace};
ghost use Rattle.checked_runs.specs.Documents.{IsRunTold};
ghost use Rattle.run_timing.specs.declared.timing.Timing.{Timing};
ghost use Rattle.state_text.specs.declared.base.Base.{Base};
ghost use Rattle.state_text.specs.ForReaders.{words_under};
ghost use Rattle.state_text.specs.Words.{IsUnderItsRegion};
ghost use Rattle.page_data.specs.declared.run_data.RunData.{RunData};
ghost use Rattle.program_outside.specs.Serving.{IsEnough};
ghost use Rattle.view_top.specs.declared.options.View.{View};
ghost use Rattle.view_top.specs.declared.options.PageOptions.{PageOptions};
ghost use Rattle.view_top.specs.Answers.{AreDataFor, IsAnswer};
ghost use Rattle.view_top.specs.Tasks.{HasLineOfEachTask};

/// The data of a run have a line for each code word of the program, and the statement of this line gives the word.
pub fn each_line_gives_its_code_word()
    ensures count { (o : PageOptions) (text : List ℕ) (r : RunRecord) (timing : Timing) (finishes : List ℕ) (d : RunData) (P : ProgramParts) → AreDataFor o text r timing finishes d
        → source text ≡ Ok P → length d.places.now ≡ length P.code }
    ensures lines { (o : PageOptions) (text : List ℕ) (r : RunRecord) (timing : Timing) (finishes : List ℕ) (d : RunData) (number : ℕ) (place : CodePlace) → AreDataFor o text r timing finishes d
        → slice_get d.places.now number ≡ Some place → IsLineOfCode text number place }
{}

/// An answer for readers has each data word of the run's memory at the end. The words under its regions, one region after the other, are
/// that memory: each stands there exactly once, in order. And each stands under the region that has it, at its index there.
pub fn an_answer_has_each_data_word_once()
    ensures once { (t : Trace) (r : RunRecord) (P : ProgramParts) → source t.text ≡ Ok P → IsRunTold P t r → flat_map (words_under r.ending.memory) P.regions ≡ r.ending.memory }
    ensures place { (t : Trace) (r : RunRecord) (P : ProgramParts) (word value : ℕ) → source t.text ≡ Ok P → IsRunTold P t r → slice_get r.ending.memory word ≡ Some value
        → IsUnderItsRegion P.regions r.ending.memory word value }
{}

/// An answer for readers has one line for each task of the run. Behind the outcome stand the lines of the tasks of all phases that began,
/// in the order of phases and cores, and no others. If the run is done, these are all tasks of the program.
pub fn an_answer_has_a_line_for_each_task()
    ensures { (t : Trace) (r : RunRecord) (P : ProgramParts) (b : Base) → IsRunTold P t r → HasLineOfEachTask P t.text b r }
{}

/// What answers as many bytes as are read at most answers every text that begins with them.
pub fn the_bytes_that_are_read_are_enough()
    ensures { (v : View) → IsEnough (IsAnswer v) 536870913 }
{}
