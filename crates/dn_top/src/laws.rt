//! Theorems: what holds of every run. A theorem is a function without effect; its contract states the theorem.
ghost use Rattle.std.specs.Prelude.{◌≡◌, ℕ, List, Some, Ok};
ghost use Rattle.dn_base.specs.declared.ids.Shape.{Shape};
ghost use Rattle.region_table.specs.Program.{ProgramParts};
ghost use Rattle.rv_assembler.specs.Source.{source};
ghost use Rattle.dn_machine.specs.declared.record.RunRecord.{RunRecord};
ghost use Rattle.dn_top.specs.declared.options.Mode.TheVariants.{Replay, Run, Trace};
ghost use Rattle.dn_top.specs.declared.options.Options.{Options};
ghost use Rattle.dn_top.specs.declared.output.Output.{Output};
ghost use Rattle.dn_top.specs.Answers.{IsAnswer, IsRefusal, done_in};
ghost use Rattle.dn_top.specs.Laws.{Call, GaveOneOutput, IsTextAnswered, IsDecided, IsProvedInside, IsTameRun};
ghost use Rattle.checked_runs.specs.Runs.{IsRunOf, reported};
ghost use Rattle.dn_top.specs.Runs.{IsRunFor, output_of_run};

/// If the mode prove has answered `proved inside` to a text, no run of its program has a task that ended by the trap `outside`:
/// for all shapes of the machine and all fuels, and however the events were picked, by a seed, by workers or from a trace.
pub fn a_proven_text_runs_inside()
    ensures { (text : List ℕ) (P : ProgramParts) (machine : Shape) (fuel : ℕ) (r : RunRecord) → IsProvedInside text → source text ≡ Ok P → IsRunOf P machine fuel r → IsTameRun r }
{}

/// The mode replay answers the trace that the mode trace writes of a text's run with the report of that run, and its status. With
/// one worker that is the answer of the mode run to the text: the same bytes, status and run.
pub fn a_trace_replays_as_its_run()
    ensures report { (o p : Options) (text : List ℕ) (document : Output) (run : RunRecord) → done_in Trace o text document → document.run ≡ Some run
        → done_in Run o text (output_of_run (reported run) run) × done_in Replay p document.bytes (output_of_run (reported run) run) }
    ensures run { (o p : Options) (text : List ℕ) (document answer : Output) → o.workers ≡ 1 → done_in Trace o text document
        → done_in Run o text answer → done_in Replay p document.bytes answer }
{}

/// With one worker, and in a mode that picks no events, the output is a function of the source and the options. A program and
/// options have one run, with its events, grants, counts and ending. A text and options have one answer, with its bytes, status
/// and run. And two calls with the same options about the same text, each of which ends with the exit code of an outcome or of
/// a refusal, write and hand back the same. Whether a text is refused, and with which line, never depends on the host.
pub fn the_output_is_a_function_of_source_and_options()
    ensures run { (P : ProgramParts) (o : Options) (r s : RunRecord) → o.workers ≡ 1 → IsRunFor P o r → IsRunFor P o s → r ≡ s }
    ensures answer { (o : Options) (text : List ℕ) (out other : Output) → IsDecided o → IsAnswer o text out → IsAnswer o text other → out ≡ other }
    ensures refusal { (o : Options) (text : List ℕ) (out other : Output) → IsRefusal o text out → IsAnswer o text other → out ≡ other }
    ensures call { (o : Options) (text : List ℕ) (c d : Call) → IsDecided o → IsTextAnswered o text c → IsTextAnswered o text d → GaveOneOutput c d }
{}
