//! Theorems: what every run of a program has in common. A theorem is a function without effect; its contract states the theorem.
ghost use Rattle.std.specs.Prelude.{◌≡◌, ◌↔◌, ◌≢◌, ◌<◌, ◌^◌, ℕ, Bool, List, length, map, slice_get, slice_index, slice_index_or, Some, None, true};
ghost use Rattle.std.specs.List.{IsAmong};
ghost use Rattle.dn_base.specs.declared.ids.CoreId.{CoreId};
ghost use Rattle.dn_base.specs.declared.ids.Grant.{Grant};
ghost use Rattle.dn_base.specs.declared.ids.PhaseId.{PhaseId};
ghost use Rattle.dn_base.specs.declared.status.Outcome.TheVariants.{Done, Stuck};
ghost use Rattle.region_table.specs.Program.{ProgramParts, IsProgram};
ghost use Rattle.region_table.specs.Numbers.{HasWords};
ghost use Rattle.region_table.specs.declared.declared.Phase.{Phase};
ghost use Rattle.rv_core.specs.Need.{need_of};
ghost use Rattle.effect_checker.specs.Checked.{IsChecked};
ghost use Rattle.flat_machine.specs.declared.ending.FlatEnd.{FlatEnd};
ghost use Rattle.flat_machine.specs.Ending.{flat_end};
ghost use Rattle.flat_machine.specs.LockOrder.{IsLockOrder};
ghost use Rattle.message_net.specs.declared.event.Event.{Event};
ghost use Rattle.registration_protocol.specs.Node.{Setting};
ghost use Rattle.machine_rules.specs.State.{initial_state};
ghost use Rattle.machine_rules.specs.Runs.{IsCompleteRun, ending_of_run};
ghost use Rattle.machine_rules.specs.Sound.{IsReady};
ghost use Rattle.flat_machine.specs.Step.{Started, flat_step};
ghost use Rattle.flat_machine.specs.Laws.{at_memory};
ghost use Rattle.common_outcomes.specs.declared.value.Value.{Value};
ghost use Rattle.common_outcomes.specs.declared.value.Effect.{Effect};
ghost use Rattle.common_outcomes.specs.declared.answer.Common.{Common};
ghost use Rattle.common_outcomes.specs.declared.answer.Open.TheVariants.{Control};
ghost use Rattle.common_outcomes.specs.declared.answer.Outcomes.TheVariants.{Settled, Open as LeftOpen};
ghost use Rattle.common_outcomes.specs.Apart.{IsControlApart, AreLocksInOrder};
ghost use Rattle.common_outcomes.specs.Phases.{Summary, summaries, effects_at, after_from, is_on_circle, IsOnCircle};
ghost use Rattle.common_outcomes.specs.Answer.{outcomes};
ghost use Rattle.common_outcomes.specs.Laws.{IsCommonTo, IsJoint, HasOneEnd};
ghost use Rattle.common_outcomes.specs.Values.{known, joined_effect, applied, effect_by};
ghost use Rattle.common_outcomes.specs.Alone.{Setup, Alone, cell_at, alone_step, is_settled_next};
ghost use Rattle.common_outcomes.specs.Agreeing.{Denotes, IsOfWord, IsBetween, IsPhaseTask, IsNoAcquire, FitsAlone};

/// Sections may end in any order, and a word is as the effects of those that have ended say.
pub fn a_section_leaves_what_its_effects_say()
    ensures comm { (a b : Effect) → joined_effect a b ≡ joined_effect b a }
    ensures assoc { (a b c : Effect) → joined_effect (joined_effect a b) c ≡ joined_effect a (joined_effect b c) }
    ensures leaves { (e : Effect) (f v : Value) (w b m : ℕ) (base ended : ℕ → ℕ) → IsBetween f.kind → base w ≡ b → Denotes (applied e f) ended b → IsOfWord w v.kind → Denotes v base m
        → Denotes (applied (joined_effect e (effect_by v.kind v.number)) f) ended m }
{}

/// What the sections of all tasks of a phase did to a word together is nothing, if none stored in it; a sum, if each that stored
/// added a number; a number, if each that stored set this one; and anything else otherwise. The word after the phase is as it
/// was, plus the sum, this number, or varies.
pub fn a_word_after_a_phase_is_as_all_sections_say()
    ensures joint { (rs : List Summary) (w : ℕ) → IsJoint (map (λ (r : Summary). (cell_at r.alone.cells w).effect) rs) (effects_at rs w) }
    ensures after { (rs : List Summary) (first : List Value) (w : ℕ) → w < length first
        → slice_index_or (after_from 0 rs first) w (known 0) ≡ applied (effects_at rs w) (slice_index_or first w (known 0)) }
{}

/// One instruction that is no acquire, in a run of the reference machine and of the task alone, keeps that the two fit.
pub fn a_step_fits()
    ensures { (S : Setup) (base : ℕ → ℕ) (a : Alone) (r : Started) (m : List ℕ) → IsPhaseTask S m → FitsAlone S base a r m → a.state.end ≡ None → is_settled_next S a ≡ true
        → IsNoAcquire (need_of S.program S.decl S.fuel a.state)
        → FitsAlone S base (alone_step S a) (flat_step S.program S.fuel (at_memory r m)).task (flat_step S.program S.fuel (at_memory r m)).memory }
{}

/// Of a lock, the test of the answer tells whether a circle of locks leads back to it, on which each next one is acquired by some
/// task of the phase while it holds the one before.
pub fn a_lock_is_stuck_where_a_circle_leads_back_to_it()
    ensures { (P : ProgramParts) (fuel : ℕ) (p : Phase) (first : List Value) (lock : ℕ)
        → (is_on_circle (summaries P fuel p first) lock ≡ true) ↔ IsOnCircle (summaries P fuel p first) lock }
{}

/// If the answer of a checked program is settled, then for every order of grants, that is every legal and whole list, the
/// reference machine's run has the outcome of the answer, its ends of tasks, and the value of each word that is known. No such
/// run is stuck.
pub fn every_order_of_grants_has_what_is_common()
    ensures common { (P : ProgramParts) (fuel : ℕ) (common : Common) (gs : List Grant) (e : FlatEnd) → IsProgram P → HasWords P → IsChecked P → outcomes P fuel ≡ Settled common
        → flat_end P fuel gs ≡ Some e → IsCommonTo common e.ending }
    ensures goes_on { (P : ProgramParts) (fuel : ℕ) (common : Common) (gs : List Grant) (e : FlatEnd) → IsProgram P → HasWords P → IsChecked P → outcomes P fuel ≡ Settled common
        → flat_end P fuel gs ≡ Some e → e.ending.outcome ≢ Stuck }
{}

/// If the answer of a checked program is settled, then every complete run of the multicore machine, of any shape and in any
/// order of events, has the outcome of the answer, its ends of tasks, and the value of each word that is known. No such run is
/// stuck.
pub fn every_complete_run_has_what_is_common()
    ensures common { (C : Setting) (events : List Event) (common : Common) → IsReady C → HasWords C.program → outcomes C.program C.fuel ≡ Settled common
        → IsCompleteRun (initial_state C) events → IsCommonTo common (ending_of_run (initial_state C) events) }
    ensures goes_on { (C : Setting) (events : List Event) (common : Common) → IsReady C → HasWords C.program → outcomes C.program C.fuel ≡ Settled common
        → IsCompleteRun (initial_state C) events → (ending_of_run (initial_state C) events).outcome ≢ Stuck }
{}

/// Without locks the answer of a checked program is settled, each word is known, and it is the end of the reference machine's run
/// without grants.
pub fn without_locks_nothing_varies()
    ensures { (P : ProgramParts) (fuel : ℕ) → IsProgram P → HasWords P → IsChecked P → length P.locks ≡ 0 → HasOneEnd P fuel }
{}

/// If the answer of a checked program is settled and done, its locks have an order in each phase. The tasks take their locks by rising
/// ranks, in every run, and none ends while it holds one.
pub fn a_settled_answer_that_is_done_has_a_lock_order()
    ensures { (P : ProgramParts) (fuel : ℕ) (common : Common) → IsProgram P → HasWords P → IsChecked P → outcomes P fuel ≡ Settled common → common.outcome ≡ Done
        → (rank : ℕ → ℕ → ℕ) × IsLockOrder P fuel rank }
{}

/// Where the code keeps control apart from memory, the answer is never open for its control (`control`). If, besides, each task alone gives
/// up its locks before it ends, and no lock is on a circle, the answer is settled (`settles`).
pub fn the_answer_settles_where_control_depends_on_no_load()
    ensures control { (P : ProgramParts) (fuel : ℕ) (control : ℕ → Bool) (phase : PhaseId) (core : CoreId) (pc : ℕ) → IsControlApart P control → outcomes P fuel ≡ LeftOpen (Control phase core pc) → ⊥ }
    ensures settles { (P : ProgramParts) (fuel : ℕ) (control : ℕ → Bool) → IsControlApart P control
        → ((p : Phase) (first : List Value) → IsAmong P.phases p → AreLocksInOrder (summaries P fuel p first)) → (common : Common) × (outcomes P fuel ≡ Settled common) }
{}
