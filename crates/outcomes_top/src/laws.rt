//! Theorems of what is printed. A theorem is a function without effect; its contract states the theorem.
ghost use Rattle.std.specs.Prelude.{◌≡◌, ◌≢◌, ℕ, List, [], length, Ok, Some};
ghost use Rattle.dn_base.specs.declared.ids.Grant.{Grant};
ghost use Rattle.region_table.specs.Program.{ProgramParts};
ghost use Rattle.rv_assembler.specs.Source.{source};
ghost use Rattle.flat_machine.specs.declared.ending.FlatEnd.{FlatEnd};
ghost use Rattle.flat_machine.specs.Ending.{flat_end};
ghost use Rattle.message_net.specs.declared.event.Event.{Event};
ghost use Rattle.registration_protocol.specs.Node.{Setting};
ghost use Rattle.machine_rules.specs.State.{initial_state};
ghost use Rattle.machine_rules.specs.Runs.{IsCompleteRun, ending_of_run};
ghost use Rattle.machine_rules.specs.Sound.{IsReady};
ghost use Rattle.run_report.specs.Answer.{answer_of};
ghost use Rattle.program_outside.specs.Serving.{IsEnough};
ghost use Rattle.outcomes_top.specs.declared.status.OutcomesStatus.TheVariants.{Settled, Refused};
ghost use Rattle.rv_core.specs.declared.ending.Ending.{Ending};
ghost use Rattle.region_table.specs.declared.declared.Phase.{Phase};
ghost use Rattle.common_outcomes.specs.declared.value.Value.{Value};
ghost use Rattle.common_outcomes.specs.declared.answer.Open.{Open};
ghost use Rattle.common_outcomes.specs.declared.answer.Outcomes.TheVariants.{Open as LeftOpen};
ghost use Rattle.common_outcomes.specs.Alone.{Setup};
ghost use Rattle.common_outcomes.specs.Phases.{Summary};
ghost use Rattle.common_outcomes.specs.Answer.{outcomes};
ghost use Rattle.outcomes_top.specs.declared.reasons.Dependence.{Dependence};
ghost use Rattle.outcomes_top.specs.declared.reasons.Reason.{Reason};
ghost use Rattle.outcomes_top.specs.declared.reasons.Sought.{Sought};
ghost use Rattle.outcomes_top.specs.declared.reasons.Taken.{Taken};
ghost use Rattle.outcomes_top.specs.Reasons.{dependence_of, takings_in, last_sought, reason_of};
ghost use Rattle.outcomes_top.specs.ReasonLaws.{IsDependence, IsMadeIn};
ghost use Rattle.outcomes_top.specs.Answers.{OutcomesReply, IsOutcomesAnswer, HasPrinted, settled_reply};
ghost use Rattle.outcomes_top.specs.Beside.{StandsInAnswer};

/// If the program prints of a text what its runs have in common, then for every order of grants, that is every legal and maximal
/// list, the reference machine's run has the outcome and the ends of tasks that are printed, and the value of each word that has
/// no line `varies`. No such run is stuck.
pub fn every_order_of_grants_has_what_is_printed()
    ensures { (fuel : ℕ) (text : List ℕ) (out : OutcomesReply) (P : ProgramParts) (gs : List Grant) (e : FlatEnd) → IsOutcomesAnswer fuel text out → out.status ≡ Settled
        → source text ≡ Ok P → flat_end P fuel gs ≡ Some e → HasPrinted out.bytes e.ending }
{}

/// The same of every complete run of the multicore machine, of any shape and in any order of events.
pub fn every_complete_run_has_what_is_printed()
    ensures { (text : List ℕ) (out : OutcomesReply) (C : Setting) (events : List Event) → IsOutcomesAnswer C.fuel text out → out.status ≡ Settled
        → source text ≡ Ok C.program → IsReady C → IsCompleteRun (initial_state C) events → HasPrinted out.bytes (ending_of_run (initial_state C) events) }
{}

/// Of a text without locks that isn't refused, what is printed is settled, and it is the answer of the reference machine's run
/// without grants.
pub fn without_locks_the_answer_of_the_flat_machine_is_printed()
    ensures { (fuel : ℕ) (text : List ℕ) (out : OutcomesReply) (P : ProgramParts) (e : FlatEnd) → IsOutcomesAnswer fuel text out → out.status ≢ Refused → source text ≡ Ok P
        → length P.locks ≡ 0 → flat_end P fuel [] ≡ Some e → out ≡ settled_reply (answer_of e.ending) }
{}

/// Byte by byte: what is printed, and the answer of a run that has it, begin with the same lines, of the outcome, the ends of tasks
/// and the number of words. Each printed line of a word is the answer's line of this word.
pub fn what_is_printed_stands_in_the_answer()
    ensures { (bytes : List ℕ) (e : Ending) → HasPrinted bytes e → StandsInAnswer bytes e }
{}

/// What answers as many bytes as are read at most answers every text that begins with them.
pub fn the_bytes_that_are_read_are_enough()
    ensures { (fuel : ℕ) → IsEnough (IsOutcomesAnswer fuel) 1048577 }
{}

/// Where an answer is open there is a reason for it (`some`), and the reason is the answer's (`why`).
pub fn an_open_answer_has_its_reason()
    ensures some { (P : ProgramParts) (fuel : ℕ) (why : Open) → outcomes P fuel ≡ LeftOpen why → (r : Reason) × (reason_of P fuel ≡ Some r) × (r.why ≡ why) }
    ensures why { (P : ProgramParts) (fuel : ℕ) (r : Reason) → reason_of P fuel ≡ Some r → outcomes P fuel ≡ LeftOpen r.why }
{}

/// The register that is named where control is open decides what the next instruction of the task alone needs, or where it leads, and
/// not all is known of it. The load that is named is one that the task alone makes: not all is known there of the word, and the lock
/// that is named is one that the task holds then and that guards the word for it, if there is such a one.
pub fn a_named_register_decides_and_a_named_load_is_made()
    ensures { (S : Setup) (d : Dependence) → dependence_of S ≡ Some d → IsDependence S d }
{}

/// An acquire that is named is one that the task of its core makes alone, at its address.
pub fn a_named_acquire_is_made()
    ensures { (P : ProgramParts) (fuel : ℕ) (p : Phase) (first : List Value) (rs : List Summary) (s : Sought) (t : Taken) → last_sought rs s (takings_in P fuel p first) ≡ Some t
        → IsMadeIn P fuel p first t }
{}
