//! What holds of the machine's states and runs, for proofs about them. A theorem is a function without effect; its contract
//! states the theorem.
ghost use Rattle.std.specs.Prelude.{◌≡◌, ℕ, ◌+◌, ◌*◌, ◌≤◌, true, List, ◌∷◌, ◌++◌, length, Some, slice_index};
ghost use Rattle.dn_base.specs.declared.ids.LoadSeen.{LoadSeen};
ghost use Rattle.message_net.specs.declared.actor.Actor.{Actor};
ghost use Rattle.message_net.specs.declared.event.Event.{Event};
ghost use Rattle.registration_protocol.specs.Node.{Setting};
ghost use Rattle.machine_rules.specs.State.{State, initial_state};
ghost use Rattle.machine_rules.specs.Next.{next, enabled, seen_in};
ghost use Rattle.machine_rules.specs.Memory.{memory_of};
ghost use Rattle.machine_rules.specs.Runs.{after, IsRun, IsCompleteRun, memory_after};
ghost use Rattle.machine_rules.specs.Bound.{retired_in, started_in};
ghost use Rattle.machine_rules.specs.Coherent.{Coherent};
ghost use Rattle.machine_rules.specs.Rest.{IsAtRest};
ghost use Rattle.machine_rules.specs.Sound.{IsReady, IsWellFormed, IsSound};
ghost use Rattle.machine_rules.specs.Actions.{Action};
ghost use Rattle.machine_rules.specs.Accesses.{actions_of};
ghost use Rattle.machine_rules.specs.Consistent.{IsSequentialOrder};
ghost use Rattle.machine_rules.specs.Racing.{IsDataRaceFree, IsMutuallyExclusive, ArePhasesApart};
ghost use Rattle.machine_rules.specs.Guarded.{IsGuarded};
ghost use Rattle.machine_rules.specs.Fair.{asked_of, acquired_of, IsFirstComeFirstServed, WaitsFor};
ghost use Rattle.machine_rules.specs.Buffers.{mails_most, between, between_most};
ghost use Rattle.machine_rules.specs.Reordered.{IsReordered, GoOnAlike};

use dn_base::MOST_EVENTS;

/// A sound state stays sound by every event that is enabled, whatever the messages in flight are.
pub fn a_state_stays_sound()
    ensures { (S : State) (made : ℕ) (e : Event) → IsSound S made → enabled S e ≡ true → IsSound (next S e) (made + 1) }
{}

/// The machine of a checked program is sound when a run begins.
pub fn the_opened_machine_is_sound()
    ensures { (C : Setting) → IsWellFormed C → IsSound (initial_state C) 0 }
{}

/// A setting within the limits of the code is one of the settings of any size of which the theorems speak.
pub fn a_ready_setting_is_well_formed()
    ensures { (C : Setting) → IsReady C → IsWellFormed C }
{}

/// Every run of the machine of a checked program leads to a coherent state.
pub fn every_run_leads_to_a_coherent_state()
    ensures { (C : Setting) (events : List Event) → IsWellFormed C → IsRun (initial_state C) events → Coherent (after (initial_state C) events) }
{}

/// The words that a state shows are the memory to which the stores of its run were applied as they retired.
pub fn a_state_shows_the_stores_of_its_run()
    ensures { (C : Setting) (events : List Event) → IsWellFormed C → IsRun (initial_state C) events
        → memory_of (after (initial_state C) events) ≡ memory_after C.program.memory (initial_state C) events }
{}

/// A load that retires in a run reads the memory to which the stores before it were applied.
pub fn each_load_reads_the_stores_before_it()
    ensures { (C : Setting) (events : List Event) (e : Event) (seen : LoadSeen) → IsWellFormed C → IsRun (initial_state C) events
        → enabled (after (initial_state C) events) e ≡ true → seen_in (after (initial_state C) events) e ≡ Some seen
        → seen.value ≡ slice_index (memory_after C.program.memory (initial_state C) events) seen.word.0 }
{}

/// Every run is sequentially consistent, with its locks and barriers. The order in which its actions retire is one in which those
/// of each core stand in the order of its program, each load reads what the last store to its word before it has written, or the
/// program's memory, and each lock and the barrier allow what is done with them.
pub fn every_run_is_sequentially_consistent()
    ensures { (C : Setting) (events : List Event) → IsWellFormed C → IsRun (initial_state C) events
        → IsSequentialOrder C.shape.cores C.program.memory (actions_of (initial_state C) events) (actions_of (initial_state C) events) }
{}

/// No run has a data race: of any two accesses that conflict the earlier happens before the later.
pub fn no_run_has_a_data_race()
    ensures { (C : Setting) (events : List Event) → IsWellFormed C → IsRun (initial_state C) events → IsDataRaceFree (actions_of (initial_state C) events) }
{}

/// How accesses that conflict are ordered: the barrier of a phase is between them, or both tasks hold one lock, which the second
/// is granted in between.
pub fn accesses_that_conflict_are_guarded()
    ensures { (C : Setting) (events : List Event) → IsWellFormed C → IsRun (initial_state C) events → IsGuarded (actions_of (initial_state C) events) }
{}

/// In a sequential order no two cores hold a lock at once: between two acquires of it the first core releases it.
pub fn a_lock_has_one_holder_at_a_time()
    ensures { (cores : ℕ) (first : List ℕ) (actions order : List Action) → IsSequentialOrder cores first actions order → IsMutuallyExclusive order }
{}

/// In a sequential order phases don't overlap: an action of a phase comes after each arrival in each phase before it.
pub fn phases_do_not_overlap()
    ensures { (cores : ℕ) (first : List ℕ) (actions order : List Action) → IsSequentialOrder cores first actions order → ArePhasesApart order }
{}

/// Locks are first come, first served, whatever the schedule: the cores acquire a lock in the order in which its home handles
/// their requests.
pub fn locks_are_first_come_first_served()
    ensures { (C : Setting) (events : List Event) (lock : ℕ) → IsWellFormed C → IsRun (initial_state C) events
        → IsFirstComeFirstServed (asked_of lock (initial_state C) events) (acquired_of lock (actions_of (initial_state C) events)) }
{}

/// So a core whose request is handled waits for one acquire by each core that asked before it and hasn't acquired the lock yet:
/// if there are `ahead` of these, the next acquire after as many is its own.
pub fn a_core_waits_for_those_before_it()
    ensures { (C : Setting) (past later : List Event) (e : Event) (ahead : ℕ) → IsWellFormed C → IsRun (initial_state C) (past ++ e ∷ later)
        → WaitsFor (initial_state C) past e later ahead }
{}

/// If no event is enabled any more, all nodes are halted; or some task of the phase hasn't ended, and each such task waits for a
/// lock that the task of another core holds.
pub fn a_complete_run_is_at_rest()
    ensures { (C : Setting) (events : List Event) → IsWellFormed C → IsCompleteRun (initial_state C) events → IsAtRest (after (initial_state C) events) }
{}

/// A run, complete or not, has at most 12 events for each instruction that a task has retired and for each task that has
/// started, and 3 for each core in each phase of the program.
pub fn a_run_has_few_events()
    ensures { (C : Setting) (events : List Event) → IsWellFormed C → IsRun (initial_state C) events
        → length events ≤ 12 * (retired_in (initial_state C) events + started_in (initial_state C) events) + 3 * (C.shape.cores * length C.program.phases) }
{}

/// Every run terminates: within the limits of programs and fuel, none has more than 25,169,664 events.
pub fn no_run_goes_on_for_ever()
    ensures { (C : Setting) (events : List Event) → IsReady C → IsRun (initial_state C) events → length events ≤ MOST_EVENTS }
{}

/// At most as many messages are in flight at once: for each core one for each entry of its cache and one more, and one for each
/// lock.
pub fn few_mails_are_in_flight()
    ensures { (C : Setting) (events : List Event) → IsWellFormed C → IsRun (initial_state C) events → length (after (initial_state C) events).mails ≤ mails_most C }
{}

/// Between two actors at most so many messages are in flight at once.
pub fn few_mails_are_between_two_actors()
    ensures { (C : Setting) (events : List Event) (from to : Actor) → IsWellFormed C → IsRun (initial_state C) events → between (after (initial_state C) events) from to ≤ between_most C from to }
{}

/// The order of the messages in flight doesn't matter. In another order the same events are enabled. They tell the same, and lead
/// to states that differ only in that order. The state is coherent or not as before, and it has the same runs.
pub fn mails_may_stand_in_any_order()
    ensures sound { (S T : State) (made : ℕ) → IsSound S made → IsReordered S T → IsSound T made }
    ensures alike { (S T : State) (made : ℕ) → IsSound S made → IsReordered S T → GoOnAlike S T }
{}
