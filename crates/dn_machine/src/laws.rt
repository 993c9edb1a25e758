//! Theorems of picks and of complete runs, for proofs about runs. A theorem is a function without effect; its contract states the
//! theorem.
ghost use Rattle.std.specs.Prelude.{◌≡◌, ◌↔◌, ℕ, List, Some, None, true};
ghost use Rattle.message_net.specs.declared.event.Event.{Event};
ghost use Rattle.registration_protocol.specs.Node.{Setting};
ghost use Rattle.machine_rules.specs.State.{State, initial_state};
ghost use Rattle.machine_rules.specs.Next.{enabled};
ghost use Rattle.machine_rules.specs.Runs.{IsOver, IsCompleteRun};
ghost use Rattle.machine_rules.specs.Sound.{IsMachine, IsReady, IsSound};
ghost use Rattle.dn_machine.specs.Pick.{pick};
ghost use Rattle.dn_machine.specs.Run.{IsRecord, IsCoherentRun};
ghost use Rattle.dn_machine.specs.Schedule.{IsScheduled};
ghost use Rattle.dn_machine.specs.declared.record.RunRecord.{RunRecord};

/// A picked event is enabled, and none is picked exactly if no event is enabled.
pub fn a_pick_is_an_event_that_may_come()
    ensures comes { (S : State) (draw : ℕ) (e : Event) → IsMachine S → pick S draw ≡ Some e → enabled S e ≡ true }
    ensures none { (S : State) (draw : ℕ) → IsMachine S → (pick S draw ≡ None) ↔ IsOver S }
{}

/// The events that a seed picks are a complete run, and a seed picks no other list of events.
pub fn a_seed_gives_one_complete_run()
    ensures complete { (S : State) (made seed : ℕ) (events : List Event) → IsSound S made → IsScheduled S seed events → IsCompleteRun S events }
    ensures one { (S : State) (seed : ℕ) (events others : List Event) → IsScheduled S seed events → IsScheduled S seed others → events ≡ others }
{}

/// However its events were picked, a complete run of the initial machine keeps the promises of runs, if its record tells what
/// is read off its events.
pub fn a_complete_run_keeps_the_promises_of_runs()
    ensures { (C : Setting) (r : RunRecord) → IsReady C → IsCompleteRun (initial_state C) r.events → IsRecord (initial_state C) r → IsCoherentRun (initial_state C) r }
{}
