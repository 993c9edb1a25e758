//! Theorems: how every run of the machine agrees with the reference machine's run by its grants. A theorem is a function without
//! effect; its contract states the theorem.
ghost use Rattle.std.specs.Prelude.{◌≡◌, ◌≢◌, ℕ, ◌≤◌, List, false};
ghost use Rattle.std.specs.List.{All};
ghost use Rattle.dn_base.specs.declared.status.Outcome.TheVariants.{Done, Stuck};
ghost use Rattle.rv_core.specs.declared.ending.TaskEnd.{TaskEnd};
ghost use Rattle.rv_core.specs.Ending.{is_waiting};
ghost use Rattle.flat_machine.specs.LockOrder.{IsLockOrder};
ghost use Rattle.flat_machine.specs.Phases.{Flat};
ghost use Rattle.message_net.specs.declared.event.Event.{Event};
ghost use Rattle.registration_protocol.specs.Node.{Setting};
ghost use Rattle.machine_rules.specs.State.{initial_state};
ghost use Rattle.machine_rules.specs.Runs.{IsRun, IsCompleteRun, grants_of, all_loads, ending_of_run};
ghost use Rattle.machine_rules.specs.Sound.{IsWellFormed};
ghost use Rattle.run_agreement.specs.Ends.{HasFlatEnd};
ghost use Rattle.run_agreement.specs.Fronts.{IsFrontOf};

/// In every run of the machine of a checked program, complete or not, the grants so far lead the reference machine to a state,
/// and the loads of each task so far are a prefix of its loads there.
pub fn every_run_agrees_with_the_flat_run_of_its_grants()
    ensures { (C : Setting) (events : List Event) → IsWellFormed C → IsRun (initial_state C) events → (F : Flat) × IsFrontOf C events F }
{}

/// The grants of a complete run are a maximal list. The reference machine's run by them has the same loads, task by task, and the
/// same ending: the outcome, the end of each task that started, and the memory of the last state.
pub fn every_complete_run_has_the_end_of_the_flat_run()
    ensures { (C : Setting) (events : List Event) → IsWellFormed C → IsCompleteRun (initial_state C) events → HasFlatEnd C events }
{}

/// If the locks have an order in which the tasks of each phase take them, and no task ends while it holds one, then at the end
/// of a complete run no task waits, and the run isn't stuck.
pub fn no_run_is_stuck_if_locks_are_taken_in_order()
    ensures waits { (C : Setting) (events : List Event) (rank : ℕ → ℕ → ℕ) → IsWellFormed C → IsCompleteRun (initial_state C) events → IsLockOrder C.program C.fuel rank
        → All (λ (t : TaskEnd). is_waiting t.end ≡ false) (ending_of_run (initial_state C) events).tasks }
    ensures stuck { (C : Setting) (events : List Event) (rank : ℕ → ℕ → ℕ) → IsWellFormed C → IsCompleteRun (initial_state C) events → IsLockOrder C.program C.fuel rank
        → (ending_of_run (initial_state C) events).outcome ≢ Stuck }
{}

/// If a complete run is done, then every complete run of the program by the same grants has the same ending and the same loads,
/// also with more fuel and on a machine of another shape.
pub fn more_fuel_changes_no_ending_that_is_done()
    ensures ending { (C D : Setting) (events others : List Event) → IsWellFormed C → IsWellFormed D → D.program ≡ C.program → C.fuel ≤ D.fuel
        → IsCompleteRun (initial_state C) events → IsCompleteRun (initial_state D) others → grants_of (initial_state D) others ≡ grants_of (initial_state C) events
        → (ending_of_run (initial_state C) events).outcome ≡ Done → ending_of_run (initial_state D) others ≡ ending_of_run (initial_state C) events }
    ensures loads { (C D : Setting) (events others : List Event) → IsWellFormed C → IsWellFormed D → D.program ≡ C.program → C.fuel ≤ D.fuel
        → IsCompleteRun (initial_state C) events → IsCompleteRun (initial_state D) others → grants_of (initial_state D) others ≡ grants_of (initial_state C) events
        → (ending_of_run (initial_state C) events).outcome ≡ Done → all_loads (initial_state D) others ≡ all_loads (initial_state C) events }
{}
