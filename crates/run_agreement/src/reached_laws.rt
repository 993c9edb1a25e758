//! Theorems: which runs of the machine there are. A theorem is a function without effect; its contract states the theorem.
ghost use Rattle.std.specs.Prelude.{◌≡◌, ◌≢◌, ◌↔◌, List, [], Some, None};
ghost use Rattle.dn_base.specs.declared.ids.Grant.{Grant};
ghost use Rattle.rv_core.specs.declared.ending.Ending.{Ending};
ghost use Rattle.message_net.specs.declared.event.Event.{Event};
ghost use Rattle.flat_machine.specs.declared.ending.FlatEnd.{FlatEnd};
ghost use Rattle.flat_machine.specs.Grants.{so_far};
ghost use Rattle.flat_machine.specs.Ending.{flat_end};
ghost use Rattle.registration_protocol.specs.Node.{Setting};
ghost use Rattle.machine_rules.specs.State.{initial_state};
ghost use Rattle.machine_rules.specs.Runs.{after, IsRun};
ghost use Rattle.machine_rules.specs.Sound.{IsReady};
ghost use Rattle.run_agreement.specs.Reached.{IsEmptied, IsHandledOut, ComesToLocks, StandsAtLocks, IsOverButForLocks, IsCompleted, HasGrants, HasRunBy, CanEnd, FlatCanEnd};

/// From every state that a run reaches, handling messages alone leads to a state with no message in flight: in some way, and in
/// every way that goes on until no message can be handled any more.
pub fn handling_messages_empties_the_network()
    ensures some { (C : Setting) (events : List Event) → IsReady C → IsRun (initial_state C) events → IsEmptied (after (initial_state C) events) }
    ensures every { (C : Setting) (events handled : List Event) → IsReady C → IsRun (initial_state C) events → IsHandledOut (after (initial_state C) events) handled
        → (after (after (initial_state C) events) handled).mails ≡ [] }
{}

/// Nothing but a lock or the barrier holds a core up. Where only acquires are enabled, no message is in flight, and each core is
/// halted, is at the barrier, or wants a lock. And from every state that a run reaches, a run without acquires leads to such a
/// state.
pub fn only_locks_and_the_barrier_hold_a_core_up()
    ensures stops { (C : Setting) (events : List Event) → IsReady C → IsRun (initial_state C) events → IsOverButForLocks (after (initial_state C) events) → StandsAtLocks (after (initial_state C) events) }
    ensures goes_on { (C : Setting) (events : List Event) → IsReady C → IsRun (initial_state C) events → ComesToLocks (after (initial_state C) events) }
{}

/// Every run goes on to a complete run.
pub fn every_run_goes_on_to_a_complete_one()
    ensures { (C : Setting) (events : List Event) → IsReady C → IsRun (initial_state C) events → IsCompleted (initial_state C) events }
{}

/// Each legal and whole list of grants is that of a complete run, which has the loads and the ending of the reference machine's
/// run by the list.
pub fn every_legal_and_whole_list_has_a_complete_run()
    ensures { (C : Setting) (gs : List Grant) (e : FlatEnd) → IsReady C → flat_end C.program C.fuel gs ≡ Some e → HasRunBy C gs e }
{}

/// The machine does neither more nor less than the reference machine. The grants of its runs are the legal lists. By a list of
/// grants it has a complete run with an end exactly if the reference machine has a run by the list with that end. And it can end
/// exactly as the reference machine can.
pub fn the_machine_does_exactly_what_the_flat_machine_does()
    ensures grants { (C : Setting) (gs : List Grant) → IsReady C → (so_far C.program C.fuel gs ≢ None) ↔ HasGrants C gs }
    ensures runs { (C : Setting) (gs : List Grant) (e : FlatEnd) → IsReady C → (flat_end C.program C.fuel gs ≡ Some e) ↔ HasRunBy C gs e }
    ensures endings { (C : Setting) (ending : Ending) → IsReady C → FlatCanEnd C.program C.fuel ending ↔ CanEnd C ending }
{}

/// On a machine of another shape a program has the same ends: what a complete run does by a list of grants, some complete run
/// does by the same list on every other machine of the program, with the same fuel.
pub fn every_shape_has_the_same_ends()
    ensures { (C D : Setting) (gs : List Grant) (e : FlatEnd) → IsReady C → IsReady D → D.program ≡ C.program → D.fuel ≡ C.fuel → HasRunBy C gs e → HasRunBy D gs e }
{}
