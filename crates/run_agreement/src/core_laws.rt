//! Theorems: which steps keep that a world leads to the reference machine's run by the grants so far, and what that run tells of
//! the world. A theorem is a function without effect; its contract states the theorem.
ghost use Rattle.std.specs.Prelude.{◌≡◌, ◌≤◌, ◌+◌, ℕ, List, [], ◌∷◌, ◌++◌, length, map, slice_get, slice_index, Some, None, true, false};
ghost use Rattle.std.specs.List.{IsAmong};
ghost use Rattle.dn_base.specs.declared.ids.Grant.{Grant};
ghost use Rattle.dn_base.specs.declared.ids.LockId.{LockId};
ghost use Rattle.region_table.specs.Program.{ProgramParts};
ghost use Rattle.region_table.specs.declared.declared.TaskDecl.{TaskDecl};
ghost use Rattle.region_table.specs.declared.declared.Phase.{Phase};
ghost use Rattle.rv_core.specs.declared.need.Need.{Need};
ghost use Rattle.rv_core.specs.declared.need.Need.TheVariants.{Acquire};
ghost use Rattle.effect_checker.specs.Checked.{IsChecked};
ghost use Rattle.flat_machine.specs.Step.{Started, fresh, wish};
ghost use Rattle.flat_machine.specs.Phases.{Flat, has_finished, next_phase, settled, initial};
ghost use Rattle.flat_machine.specs.Grants.{is_free, grant_of, so_far};
ghost use Rattle.flat_machine.specs.Ending.{flat_loads_of, flat_end_of, flat_end};
ghost use Rattle.flat_machine.specs.Laws.{AreCoresRising, AreLater};
ghost use Rattle.run_agreement.specs.Worlds.{AreFronts, loads, segment_alone, LeadsTo, LeadsToRun, stepped, past_acquire, world_after_grant, with_phase, IsResting, AreStopped};
ghost use Rattle.run_agreement.specs.Cores.{world_of, ChangesOne, step_of_task, IsFreeAmong, IsStoppedAmong, IsAgreed};

/// Before the first phase the world is the program's memory, and it leads to the run by no grants.
pub fn a_world_leads_to_the_run_at_first()
    ensures { (P : ProgramParts) (fuel : ℕ) → LeadsToRun P fuel [] (initial P) }
{}

/// One instruction of any task, in the memory of the world, keeps the run to which the world leads. So tasks of a phase may run
/// in any order, each as far as it likes.
pub fn a_step_keeps_the_run()
    ensures { (P : ProgramParts) (fuel : ℕ) (gs : List Grant) (W : Flat) (i : ℕ) (r : Started) → AreCoresRising P → IsChecked P → slice_get W.tasks i ≡ Some r
        → LeadsToRun P fuel gs W → LeadsToRun P fuel gs (stepped P fuel W i r) }
{}

/// If a task acquires the free lock that it wants, the world leads to the run by one more grant, which is legal.
pub fn a_grant_is_the_next_of_the_run()
    ensures { (P : ProgramParts) (fuel : ℕ) (gs : List Grant) (W : Flat) (i : ℕ) (r : Started) (lock : LockId) → AreCoresRising P → IsChecked P → slice_get W.tasks i ≡ Some r
        → wish P fuel r ≡ Some (Acquire lock) → is_free W.tasks lock.0 ≡ true → LeadsToRun P fuel gs W
        → LeadsToRun P fuel (gs ++ grant_of r lock ∷ []) (world_after_grant P W i r) }
{}

/// If all tasks have finished and there is a next phase, the world at the beginning of that phase leads to the same run.
pub fn the_beginning_of_a_phase_keeps_the_run()
    ensures { (P : ProgramParts) (fuel : ℕ) (gs : List Grant) (W : Flat) (p : Phase) → AreCoresRising P → IsChecked P → next_phase P W ≡ Some p
        → LeadsToRun P fuel gs W → LeadsToRun P fuel gs (with_phase W p) }
{}

/// The grants so far have a run. In it each task that has started stands at its index: the same task of the same phase. Its
/// loads so far are a prefix of those in the run.
pub fn the_loads_of_a_task_are_a_front_of_its_loads_in_the_run()
    ensures value { (P : ProgramParts) (fuel : ℕ) (gs : List Grant) (W : Flat) → (lead : LeadsToRun P fuel gs W) → so_far P fuel gs ≡ Some (settled P fuel lead.flat) }
    ensures later { (P : ProgramParts) (fuel : ℕ) (gs : List Grant) (W F : Flat) → LeadsToRun P fuel gs W → so_far P fuel gs ≡ Some F → AreLater W F }
    ensures fronts { (P : ProgramParts) (fuel : ℕ) (gs : List Grant) (W F : Flat) → LeadsToRun P fuel gs W → so_far P fuel gs ≡ Some F → AreFronts (flat_loads_of W) (flat_loads_of F) }
{}

/// A word that a task may load, with the locks that it holds, gets its value in the run by that task alone.
pub fn a_word_comes_to_its_value_in_the_run_by_its_task_alone()
    ensures { (P : ProgramParts) (fuel : ℕ) (gs : List Grant) (W : Flat) (i : ℕ) (r : Started) (w : ℕ) → AreCoresRising P → IsChecked P → (lead : LeadsToRun P fuel gs W)
        → slice_get W.tasks i ≡ Some r → loads r w ≡ true → slice_index (segment_alone P fuel W.memory r).memory w ≡ slice_index lead.flat.memory w }
{}

/// If all tasks are quiescent, the world is the state to which it leads. If no phase can begin either, it is the state of the
/// run.
pub fn a_world_at_rest_is_the_state_of_the_run()
    ensures same { (P : ProgramParts) (fuel : ℕ) (W F : Flat) → IsResting P fuel W → LeadsTo P fuel W F → W ≡ F }
    ensures run { (P : ProgramParts) (fuel : ℕ) (gs : List Grant) (W : Flat) → LeadsToRun P fuel gs W → IsResting P fuel W → next_phase P W ≡ None → so_far P fuel gs ≡ Some W }
{}

/// If each task has ended or wants a lock that some task holds, and no phase can begin, the grants are whole. The end of the
/// run by them is the world's: how its tasks stand, their loads, and its memory.
pub fn a_world_that_stops_has_the_end_of_the_run()
    ensures { (P : ProgramParts) (fuel : ℕ) (gs : List Grant) (W : Flat) → LeadsToRun P fuel gs W → AreStopped P fuel W → next_phase P W ≡ None
        → flat_end P fuel gs ≡ Some (flat_end_of P fuel W) }
{}

/// The first phase begins with each of its tasks at its start, on the program's initial memory.
pub fn the_first_phase_is_agreed()
    ensures { (P : ProgramParts) (fuel : ℕ) (p : Phase) → AreCoresRising P → IsChecked P → slice_get P.phases 0 ≡ Some p → IsAgreed P fuel [] 0 [] p (fresh 0) P.memory }
{}

/// If the task of a core does what it needs, and the tasks of the other cores stay as they are, the run stays the same.
pub fn what_a_core_does_keeps_the_run()
    ensures { (P : ProgramParts) (fuel : ℕ) (gs : List Grant) (phase : ℕ) (past : List Started) (p : Phase) (d : TaskDecl) (need : Need) (old new : TaskDecl → Started) (m : List ℕ)
        → AreCoresRising P → IsChecked P → IsAmong p.tasks d → wish P fuel (old d) ≡ Some need → ChangesOne d (step_of_task P old d m need).task old new
        → IsAgreed P fuel gs phase past p old m → IsAgreed P fuel gs phase past p new (step_of_task P old d m need).memory }
{}

/// If the tasks of a phase stay as they are, the run stays the same.
pub fn what_changes_no_task_keeps_the_run()
    ensures { (P : ProgramParts) (fuel : ℕ) (gs : List Grant) (phase : ℕ) (past : List Started) (p : Phase) (old new : TaskDecl → Started) (m : List ℕ)
        → ((d : TaskDecl) → IsAmong p.tasks d → new d ≡ old d) → IsAgreed P fuel gs phase past p old m → IsAgreed P fuel gs phase past p new m }
{}

/// If the task of a core acquires the lock that it wants, and no task of the phase holds that lock, this is the next grant of
/// the run.
pub fn what_a_core_acquires_is_the_next_grant()
    ensures { (P : ProgramParts) (fuel : ℕ) (gs : List Grant) (phase : ℕ) (past : List Started) (p : Phase) (d : TaskDecl) (lock : LockId) (old new : TaskDecl → Started) (m : List ℕ)
        → AreCoresRising P → IsChecked P → IsAmong p.tasks d → wish P fuel (old d) ≡ Some (Acquire lock) → IsFreeAmong p old lock.0 → ChangesOne d (past_acquire P (old d)) old new
        → IsAgreed P fuel gs phase past p old m → IsAgreed P fuel (gs ++ grant_of (old d) lock ∷ []) phase past p new m }
{}

/// If each task of a phase has finished, the next phase begins with each of its tasks at its start, on the same memory.
pub fn the_next_phase_is_agreed()
    ensures { (P : ProgramParts) (fuel : ℕ) (gs : List Grant) (phase : ℕ) (past : List Started) (p q : Phase) (task : TaskDecl → Started) (m : List ℕ) → AreCoresRising P → IsChecked P
        → ((d : TaskDecl) → IsAmong p.tasks d → has_finished (task d) ≡ true) → slice_get P.phases (phase + 1) ≡ Some q
        → IsAgreed P fuel gs phase past p task m → IsAgreed P fuel gs (phase + 1) (past ++ map task p.tasks) q (fresh (phase + 1)) m }
{}

/// No phase begins after the last one, nor after a phase of which a task hasn't finished.
pub fn no_phase_begins()
    ensures last { (P : ProgramParts) (phase : ℕ) (past : List Started) (p : Phase) (task : TaskDecl → Started) (m : List ℕ) → length P.phases ≤ phase + 1
        → next_phase P (world_of phase past p task m) ≡ None }
    ensures unfinished { (P : ProgramParts) (phase : ℕ) (past : List Started) (p : Phase) (task : TaskDecl → Started) (m : List ℕ) (d : TaskDecl) → IsAmong p.tasks d → has_finished (task d) ≡ false
        → next_phase P (world_of phase past p task m) ≡ None }
{}

/// If each task of a phase has ended or wants a lock that a task of the phase holds, and no phase begins, the grants are whole,
/// and the end of the reference machine's run by them shows these tasks and this memory. A program without phases ends at once.
pub fn a_phase_that_stops_has_the_end_of_the_run()
    ensures stops { (P : ProgramParts) (fuel : ℕ) (gs : List Grant) (phase : ℕ) (past : List Started) (p : Phase) (task : TaskDecl → Started) (m : List ℕ)
        → ((d : TaskDecl) → IsAmong p.tasks d → IsStoppedAmong p task (wish P fuel (task d))) → next_phase P (world_of phase past p task m) ≡ None
        → IsAgreed P fuel gs phase past p task m → flat_end P fuel gs ≡ Some (flat_end_of P fuel (world_of phase past p task m)) }
    ensures none { (P : ProgramParts) (fuel : ℕ) → length P.phases ≡ 0 → flat_end P fuel [] ≡ Some (flat_end_of P fuel (initial P)) }
{}
