//! What holds of every run in time order, for proofs about them. A theorem is a function without effect; its contract states the
//! theorem.
ghost use Rattle.std.specs.Prelude.{◌≡◌, List};
ghost use Rattle.message_net.specs.declared.event.Event.{Event};
ghost use Rattle.registration_protocol.specs.Node.{Setting};
ghost use Rattle.machine_rules.specs.State.{initial_state};
ghost use Rattle.machine_rules.specs.Runs.{IsCompleteRun};
ghost use Rattle.machine_rules.specs.Sound.{IsReady};
ghost use Rattle.run_timing.specs.declared.network.Network.{Network};
ghost use Rattle.run_timing.specs.declared.ticks.Ticks.{Ticks};
ghost use Rattle.time_order.specs.Clock.{clock_at_start};
ghost use Rattle.time_order.specs.Laws.{AreHandledAsSent, NeverFall, NothingIsPassedOver, starts_of};
ghost use Rattle.time_order.specs.TimeOrder.{AreInTimeOrder};

/// A machine, ticks and a network have one complete run in time order.
pub fn there_is_one_run_in_time_order()
    ensures { (C : Setting) (ticks : Ticks) (network : Network) (events others : List Event) → IsReady C
        → IsCompleteRun (initial_state C) events → AreInTimeOrder ticks network (initial_state C) clock_at_start events
        → IsCompleteRun (initial_state C) others → AreInTimeOrder ticks network (initial_state C) clock_at_start others → events ≡ others }
{}

/// In time order no event starts before the one before it.
pub fn starts_never_fall()
    ensures { (C : Setting) (ticks : Ticks) (network : Network) (events : List Event) → IsReady C
        → AreInTimeOrder ticks network (initial_state C) clock_at_start events → NeverFall (starts_of ticks network (initial_state C) clock_at_start events) }
{}

/// In time order no candidate is passed over: none could have started before the event that comes. So no actor is idle while
/// something is ready for it.
pub fn nothing_is_passed_over()
    ensures { (C : Setting) (ticks : Ticks) (network : Network) (events : List Event)
        → AreInTimeOrder ticks network (initial_state C) clock_at_start events → NothingIsPassedOver ticks network (initial_state C) events }
{}

/// In time order an actor handles what any one actor sends it in the order of sending.
pub fn messages_are_handled_as_sent()
    ensures { (C : Setting) (ticks : Ticks) (network : Network) (events : List Event) → IsReady C
        → AreInTimeOrder ticks network (initial_state C) clock_at_start events → AreHandledAsSent (initial_state C) events }
{}
