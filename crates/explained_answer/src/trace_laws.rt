//! A theorem of documents: a function without effect, whose contract states the theorem.
ghost use Rattle.std.specs.Prelude.{◌≡◌, ℕ, List};
ghost use Rattle.run_replay.specs.declared.trace.Trace.{Trace};
ghost use Rattle.explained_answer.specs.declared.taken.Taken.{Taken};
ghost use Rattle.explained_answer.specs.declared.taken.Taken.TheVariants.{Whole};
ghost use Rattle.explained_answer.specs.Trace.{IsTraceOf, IsTraceTaken};

/// An answer that is the trace of the text is taken as a whole.
pub fn a_trace_of_the_text_is_taken()
    ensures { (text answer : List ℕ) (t : Trace) (taken : Taken) → IsTraceOf text answer t → IsTraceTaken text answer taken → taken ≡ Whole }
{}
