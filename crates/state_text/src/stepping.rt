//! Theorems: what holds of a machine that its caller steps, one event after the other.
ghost use Rattle.std.specs.Prelude.{◌≡◌, List, [], ◌∷◌, ◌++◌};
ghost use Rattle.message_net.specs.declared.event.Event.{Event};
ghost use Rattle.registration_protocol.specs.Node.{Setting};
ghost use Rattle.machine_rules.specs.State.{initial_state};
ghost use Rattle.machine_rules.specs.Runs.{IsCompleteRun, IsOver};
ghost use Rattle.machine_rules.specs.Sound.{IsReady};
ghost use Rattle.dn_machine.specs.Kept.{Made};
ghost use Rattle.state_text.specs.Coming.{enabled_events};
ghost use Rattle.state_text.specs.Stepping.{HasMadeEvent, HasMadeEvents, IsInRun};

use dn_machine::{Machine, a_machine_is_kept};

/// A machine that is stepped is in the state of a run. So it is when a run begins (`opened`), after each event that it makes
/// (`step`), and after any events that it makes one after the other (`steps`). Where no event is listed the run is complete
/// (`over`).
pub fn a_stepped_machine_is_in_a_run()
    ensures opened { (C : Setting) (m : Made) → IsReady C → m.state ≡ initial_state C → m.made ≡ 0 → IsInRun C [] m }
    ensures step { (C : Setting) (events : List Event) (e : Event) (before after : Made) → IsReady C → IsInRun C events before → HasMadeEvent before after e → IsInRun C (events ++ e ∷ []) after }
    ensures steps { (C : Setting) (events : List Event) (first last : Made) → IsReady C → first.state ≡ initial_state C → first.made ≡ 0 → HasMadeEvents first events last → IsInRun C events last }
    ensures over { (C : Setting) (events : List Event) (m : Made) → IsReady C → IsInRun C events m → enabled_events m.state ≡ [] → IsCompleteRun (initial_state C) events }
{}

/// The setting of every machine is within the limits of the code.
pub fn a_machine_is_ready(machine: &Machine)
    ensures { IsReady machine.now.state.setting }
{
    a_machine_is_kept(machine);
}

/// Where no event is enabled, none is listed.
pub fn none_is_listed_where_none_is_enabled(machine: &Machine)
    ensures { IsOver machine.now.state → enabled_events machine.now.state ≡ [] }
{
    a_machine_is_kept(machine);
}
