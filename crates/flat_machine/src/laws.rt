//! Theorems of segments and lists of grants, for proofs that compare other machines with the flat one. A theorem is a function
//! without effect; its contract states the theorem.
ghost use Rattle.std.specs.Prelude.{◌≡◌, ◌≢◌, ◌<◌, ◌≤◌, ◌↔◌, ℕ, List, [], ◌∷◌, ◌++◌, length, slice_get, slice_index, Some, None, true, false};
ghost use Rattle.std.specs.List.{All, AllPairs, Any, IsAmong};
ghost use Rattle.dn_base.specs.declared.ids.Grant.{Grant};
ghost use Rattle.dn_base.specs.declared.ids.LockId.{LockId};
ghost use Rattle.dn_base.specs.declared.status.Outcome.TheVariants.{Done, Fuel, Stuck};
ghost use Rattle.region_table.specs.Program.{ProgramParts};
ghost use Rattle.region_table.specs.declared.declared.Phase.{Phase};
ghost use Rattle.rv_core.specs.Access.{may_load, may_store};
ghost use Rattle.rv_core.specs.declared.ending.TaskEnd.{TaskEnd};
ghost use Rattle.rv_core.specs.declared.need.Need.TheVariants.{Acquire};
ghost use Rattle.effect_checker.specs.Checked.{IsChecked};
ghost use Rattle.flat_machine.specs.declared.ending.FlatEnd.{FlatEnd};
ghost use Rattle.flat_machine.specs.Step.{Started, At, wish, flat_step, segment, IsWithin};
ghost use Rattle.flat_machine.specs.Phases.{Flat, has_finished, settled, initial_flat};
ghost use Rattle.flat_machine.specs.Grants.{is_free, grant_of, go_on, with_task, so_far, grants_are_whole, granted, granted_if, IsLeast};
ghost use Rattle.rv_core.specs.Ending.{is_waiting, is_spent};
ghost use Rattle.flat_machine.specs.Ending.{flat_end_of, flat_end};
ghost use Rattle.flat_machine.specs.LockOrder.{IsLockOrder};
ghost use Rattle.flat_machine.specs.Laws.{AreCoresRising, at_memory, EndsSegment, AgreeOn, IsAlike, HoldsLess, IsLater, HoldApart, SameInEitherOrder, HasUsedUp, IsOutOfFuel, IsHeldUp, HasTasks, HasFront, StartAlone, IsEnded, IsLegal};

/// A segment changes only words that its task may store with the locks that it holds at the start. It acquires no lock.
pub fn a_segment_keeps_other_words()
    ensures { (P : ProgramParts) (fuel : ℕ) (s : At) (w : ℕ) → may_store s.task.decl s.task.state.held w ≡ false
        → slice_index (segment P fuel s).memory w ≡ slice_index s.memory w }
{}

/// A segment depends only on words that its task may load with the locks that it holds at the start. On two memories that agree
/// on these words it gives the same state and loads, and words that were the same stay the same.
pub fn a_segment_reads_its_words()
    ensures { (P : ProgramParts) (fuel : ℕ) (r : Started) (m n : List ℕ) → length m ≡ length P.memory → length n ≡ length P.memory
        → AgreeOn (may_load r.decl r.state.held) m n → IsAlike m n (segment P fuel (at_memory r m)) (segment P fuel (at_memory r n)) }
{}

/// At the end of a segment its task has ended or wants a lock. A step of the task before the segment changes nothing of its
/// result.
pub fn a_segment_comes_to_rest()
    ensures rest { (P : ProgramParts) (fuel : ℕ) (s : At) → IsWithin fuel s.task → EndsSegment (wish P fuel (segment P fuel s).task) }
    ensures step { (P : ProgramParts) (fuel : ℕ) (s : At) → IsWithin fuel s.task → segment P fuel (flat_step P fuel s) ≡ segment P fuel s }
{}

/// Take two tasks of one phase of a checked program, on two cores, with no lock in common. Their segments can run in either
/// order: the states, the loads and the memory are the same.
///
/// And one instruction of the first task doesn't change what the segment of the second gives.
pub fn segments_run_in_either_order()
    ensures either { (P : ProgramParts) (p : Phase) (fuel : ℕ) (a b : Started) (m : List ℕ) → IsChecked P → IsAmong P.phases p → IsAmong p.tasks a.decl → IsAmong p.tasks b.decl
        → a.decl.core.0 ≢ b.decl.core.0 → HoldApart a.state.held b.state.held → length m ≡ length P.memory → SameInEitherOrder P fuel a b m }
    ensures step { (P : ProgramParts) (p : Phase) (fuel : ℕ) (a b : Started) (m : List ℕ) → IsChecked P → IsAmong P.phases p → IsAmong p.tasks a.decl → IsAmong p.tasks b.decl
        → a.decl.core.0 ≢ b.decl.core.0 → HoldApart a.state.held b.state.held → length m ≡ length P.memory
        → let stepped = (flat_step P fuel (at_memory a m)).memory in
        IsAlike stepped m (segment P fuel (at_memory b stepped)) (segment P fuel (at_memory b m)) }
{}

/// A segment keeps its task's phase and declaration, appends loads to those that the task has done, and acquires no lock. For a
/// task that has ended or wants a lock, the segment changes nothing.
pub fn a_segment_adds_loads_and_gives_locks_up()
    ensures later { (P : ProgramParts) (fuel : ℕ) (s : At) → IsLater s.task (segment P fuel s).task }
    ensures held { (P : ProgramParts) (fuel : ℕ) (s : At) → HoldsLess (segment P fuel s).task.state.held s.task.state.held }
    ensures still { (P : ProgramParts) (fuel : ℕ) (s : At) → EndsSegment (wish P fuel s.task) → segment P fuel s ≡ s }
{}

/// No further phase can begin after all that may begin have begun, nor while a task of the current one hasn't ended.
pub fn settling_again_changes_nothing()
    ensures again { (P : ProgramParts) (fuel : ℕ) (F : Flat) → settled P fuel (settled P fuel F) ≡ settled P fuel F }
    ensures waits { (P : ProgramParts) (fuel : ℕ) (F : Flat) (i : ℕ) (r : Started) → slice_get F.tasks i ≡ Some r → r.state.end ≡ None → settled P fuel F ≡ F }
{}

/// The run by a list with one more grant is the run by the list, and then that grant.
pub fn one_more_grant_is_one_step()
    ensures { (P : ProgramParts) (fuel : ℕ) (gs : List Grant) (g : Grant) → so_far P fuel (gs ++ g ∷ []) ≡ granted_if P fuel (so_far P fuel gs) g }
{}

/// The tasks that have started after a list of grants are those of the phases that have begun, in their order. Those of the
/// current phase stand in rising order of their cores.
pub fn the_tasks_of_a_run_are_its_phases()
    ensures tasks { (P : ProgramParts) (fuel : ℕ) (gs : List Grant) (F : Flat) → so_far P fuel gs ≡ Some F → HasTasks P F }
    ensures rising { (P : ProgramParts) (fuel : ℕ) (gs : List Grant) (F : Flat) → AreCoresRising P → so_far P fuel gs ≡ Some F → AllPairs (λ (a b : Started). a.decl.core.0 < b.decl.core.0) F.tasks }
{}

/// After a list of grants, a further one is legal exactly if it names the current phase, a core whose task waits for the lock,
/// and a lock that nobody holds.
pub fn a_grant_is_legal_where_its_task_waits_for_a_free_lock()
    ensures { (P : ProgramParts) (fuel : ℕ) (gs : List Grant) (F : Flat) (g : Grant) → so_far P fuel gs ≡ Some F
        → (granted P fuel g F ≢ None) ↔ IsLegal P fuel F g }
{}

/// A grant of a free lock to a task that wants it is legal, and only that task runs on by it.
pub fn a_task_can_take_the_free_lock_that_it_wants()
    ensures { (P : ProgramParts) (fuel : ℕ) (gs : List Grant) (F : Flat) (i : ℕ) (r : Started) (lock : LockId) → AreCoresRising P → so_far P fuel gs ≡ Some F
        → slice_get F.tasks i ≡ Some r → wish P fuel r ≡ Some (Acquire lock) → is_free F.tasks lock.0 ≡ true
        → granted P fuel (grant_of r lock) F ≡ Some (settled P fuel (with_task F i (go_on P fuel r F.memory))) }
{}

/// If a list of grants has a value, so has every prefix of it. Each task that has started by the prefix stands at its index
/// later too, and its loads then are a prefix of its loads later.
pub fn a_front_of_a_list_has_a_value()
    ensures { (P : ProgramParts) (fuel : ℕ) (gs hs : List Grant) (F : Flat) → so_far P fuel (gs ++ hs) ≡ Some F → HasFront P fuel gs hs F }
{}

/// The first segments in a phase of a checked program can each start from the memory with which the phase begins. Each task
/// gets the state that it gets alone, and the words that it may store have the values that it leaves.
pub fn first_segments_start_from_one_memory()
    ensures { (P : ProgramParts) (fuel phase : ℕ) (p : Phase) (m : List ℕ) → AreCoresRising P → IsChecked P → IsAmong P.phases p → length m ≡ length P.memory
        → StartAlone P fuel phase p.tasks m }
{}

/// Each program has exactly one least list, and the run by it has a value.
pub fn the_least_list_has_a_run()
    ensures list { (P : ProgramParts) (fuel : ℕ) → (gs : List Grant) × IsLeast P fuel gs }
    ensures run { (P : ProgramParts) (fuel : ℕ) (gs : List Grant) → IsLeast P fuel gs → flat_end P fuel gs ≢ None }
    ensures one { (P : ProgramParts) (fuel : ℕ) (gs hs : List Grant) → IsLeast P fuel gs → IsLeast P fuel hs → gs ≡ hs }
{}

/// A program without locks has exactly one run. It takes no grants, and depends only on the program and the fuel.
pub fn without_locks_there_is_one_run()
    ensures run { (P : ProgramParts) (fuel : ℕ) → length P.locks ≡ 0 → flat_end P fuel [] ≡ Some (flat_end_of P fuel (initial_flat P fuel)) }
    ensures only { (P : ProgramParts) (fuel : ℕ) (g : Grant) (gs : List Grant) → length P.locks ≡ 0 → flat_end P fuel (g ∷ gs) ≡ None }
{}

/// The end of a run shows the state to which its grants lead: how its tasks stand, their loads, and its memory. A list that
/// leads to a state in which no task can take a grant has that end.
pub fn the_end_of_a_run_shows_its_last_state()
    ensures shows { (P : ProgramParts) (fuel : ℕ) (gs : List Grant) (e : FlatEnd) → flat_end P fuel gs ≡ Some e → IsEnded P fuel gs e }
    ensures whole { (P : ProgramParts) (fuel : ℕ) (gs : List Grant) (F : Flat) → so_far P fuel gs ≡ Some F → grants_are_whole P fuel F ≡ true → flat_end P fuel gs ≡ Some (flat_end_of P fuel F) }
{}

/// In the ending of a run, each task that is shown as out of fuel has retired exactly as many instructions as it may. A run
/// with the outcome fuel has such a task, and none that trapped or waits.
pub fn a_task_out_of_fuel_has_used_it_up()
    ensures task { (P : ProgramParts) (fuel : ℕ) (gs : List Grant) (e : FlatEnd) → flat_end P fuel gs ≡ Some e → All (HasUsedUp fuel) e.ending.tasks }
    ensures run { (P : ProgramParts) (fuel : ℕ) (gs : List Grant) (e : FlatEnd) → flat_end P fuel gs ≡ Some e → e.ending.outcome ≡ Fuel → IsOutOfFuel fuel e.ending.tasks }
{}

/// After a whole list of grants, each task of the current phase that hasn't ended wants a lock that another task of the phase
/// holds. The tasks of earlier phases have all finished. A run that is stuck shows a task that waits, and a task of its last
/// phase hasn't ended.
pub fn a_task_that_waits_wants_a_held_lock()
    ensures waits { (P : ProgramParts) (fuel : ℕ) (gs : List Grant) (F : Flat) → so_far P fuel gs ≡ Some F → grants_are_whole P fuel F ≡ true
        → (i : ℕ) (r : Started) → slice_get F.tasks i ≡ Some r → r.state.end ≡ None → IsHeldUp P fuel F.tasks i r }
    ensures past { (P : ProgramParts) (fuel : ℕ) (gs : List Grant) (F : Flat) → so_far P fuel gs ≡ Some F → All (λ (r : Started). has_finished r ≡ true) F.past }
    ensures stuck { (P : ProgramParts) (fuel : ℕ) (gs : List Grant) (e : FlatEnd) → flat_end P fuel gs ≡ Some e → e.ending.outcome ≡ Stuck
        → Any (λ (t : TaskEnd). is_waiting t.end ≡ true) e.ending.tasks }
    ensures waiter { (P : ProgramParts) (fuel : ℕ) (gs : List Grant) (F : Flat) → so_far P fuel gs ≡ Some F → (flat_end_of P fuel F).ending.outcome ≡ Stuck
        → Any (λ (r : Started). r.state.end ≡ None) F.tasks }
{}

/// If the locks have an order in which the tasks of each phase take them, and no task ends while it holds one, then no whole
/// list of grants leaves a task waiting, and no run is stuck.
pub fn no_task_waits_if_locks_are_taken_in_order()
    ensures waits { (P : ProgramParts) (fuel : ℕ) (rank : ℕ → ℕ → ℕ) (gs : List Grant) (e : FlatEnd) → IsLockOrder P fuel rank → flat_end P fuel gs ≡ Some e
        → All (λ (t : TaskEnd). is_waiting t.end ≡ false) e.ending.tasks }
    ensures stuck { (P : ProgramParts) (fuel : ℕ) (rank : ℕ → ℕ → ℕ) (gs : List Grant) (e : FlatEnd) → IsLockOrder P fuel rank → flat_end P fuel gs ≡ Some e
        → e.ending.outcome ≢ Stuck }
{}

/// A run that is done with some fuel is the same with more fuel: the same grants are whole, and lead to the same loads and the
/// same ending. So is a run at whose end no task is out of fuel.
pub fn more_fuel_changes_no_run_that_is_done()
    ensures done { (P : ProgramParts) (fuel more : ℕ) (gs : List Grant) (e : FlatEnd) → fuel ≤ more → flat_end P fuel gs ≡ Some e → e.ending.outcome ≡ Done
        → flat_end P more gs ≡ Some e }
    ensures unspent { (P : ProgramParts) (fuel more : ℕ) (gs : List Grant) (e : FlatEnd) → fuel ≤ more → flat_end P fuel gs ≡ Some e
        → All (λ (t : TaskEnd). is_spent t.end ≡ false) e.ending.tasks → flat_end P more gs ≡ Some e }
{}
