//! What holds of the traffic of every run, for readers of its numbers. A theorem is a function without effect; its contract states
//! the theorem.
ghost use Rattle.std.specs.Prelude.{◌≡◌, ℕ, List, Some};
ghost use Rattle.message_net.specs.declared.event.Event.{Event};
ghost use Rattle.message_net.specs.declared.event.EventKind.{EventKind};
ghost use Rattle.registration_protocol.specs.Node.{Setting};
ghost use Rattle.machine_rules.specs.State.{initial_state};
ghost use Rattle.machine_rules.specs.Runs.{IsRun};
ghost use Rattle.machine_rules.specs.Sound.{IsReady};
ghost use Rattle.run_account.specs.declared.item.Grouping.TheVariants.{Run};
ghost use Rattle.run_account.specs.declared.measure.Measure.{Measure};
ghost use Rattle.run_account.specs.declared.traffic_row.TrafficRow.TheVariants.{WordBytes, LockBytes, BarrierBytes};
ghost use Rattle.run_account.specs.Kinds.{events_of_kind, is_kind};
ghost use Rattle.run_account.specs.Runs.{kind_measure, number_of_both, nothing_listed, count_of_run};
ghost use Rattle.run_account.specs.Tallies.{capped};
ghost use Rattle.run_account.specs.Traffic.{bytes_row, row_number, is_kind_from, bytes_handled};

/// In a run of the machine of a checked program the number of each kind of message is how many events handle one.
pub fn each_message_is_counted_for_its_kind()
    ensures { (C : Setting) (events : List Event) (k : EventKind) (m : Measure) → kind_measure k ≡ Some m → IsReady C → IsRun (initial_state C) events
        → number_of_both m (initial_state C) events ≡ events_of_kind k (initial_state C) events }
{}

/// In a run of the machine of a checked program the bytes of each row are the sum of the bytes of the messages that are handled: of those of
/// a kind, of those about words (the kinds with the numbers 3 to 10), about locks (11 to 13) and of the barrier (14 to 16).
pub fn bytes_are_those_of_the_messages()
    ensures kind { (C : Setting) (events : List Event) (k : EventKind) (m : Measure) → kind_measure k ≡ Some m → IsReady C → IsRun (initial_state C) events
        → row_number (count_of_run (initial_state C) (nothing_listed (initial_state C).setting Run) events).tallies 0 (bytes_row m) ≡ capped (bytes_handled (is_kind k) (initial_state C) events) }
    ensures words { (C : Setting) (events : List Event) → IsReady C → IsRun (initial_state C) events
        → row_number (count_of_run (initial_state C) (nothing_listed (initial_state C).setting Run) events).tallies 0 WordBytes ≡ capped (bytes_handled (is_kind_from 3 10) (initial_state C) events) }
    ensures locks { (C : Setting) (events : List Event) → IsReady C → IsRun (initial_state C) events
        → row_number (count_of_run (initial_state C) (nothing_listed (initial_state C).setting Run) events).tallies 0 LockBytes ≡ capped (bytes_handled (is_kind_from 11 13) (initial_state C) events) }
    ensures barrier { (C : Setting) (events : List Event) → IsReady C → IsRun (initial_state C) events
        → row_number (count_of_run (initial_state C) (nothing_listed (initial_state C).setting Run) events).tallies 0 BarrierBytes ≡ capped (bytes_handled (is_kind_from 14 16) (initial_state C) events) }
{}
