//! What holds of every timing, for proofs about them. A theorem is a function without effect; its contract states the theorem.
ghost use Rattle.std.specs.Prelude.{◌≡◌, ◌+◌, ◌≤◌, ℕ, List, Some, length, slice_get};
ghost use Rattle.dn_base.specs.declared.ids.Shape.{Shape};
ghost use Rattle.message_net.specs.declared.event.Event.{Event};
ghost use Rattle.region_table.specs.Program.{ProgramParts};
ghost use Rattle.machine_rules.specs.State.{State};
ghost use Rattle.run_timing.specs.declared.ticks.Ticks.{Ticks};
ghost use Rattle.run_timing.specs.declared.timing.Link.{Link};
ghost use Rattle.run_timing.specs.declared.timing.Timing.{Timing};
ghost use Rattle.run_timing.specs.Longest.{FinishesAt, IsLongest, IsTimingOf};
ghost use Rattle.run_timing.specs.Ticks.{AreWithinLimits};

/// The events of a run, and the ticks of their kinds and of their messages, have at most one timing: two timings of them agree in the total, in
/// the delays and in each link.
pub fn a_run_has_one_timing()
    ensures { (P : ProgramParts) (machine : Shape) (most : ℕ) (events : List Event) (ticks : Ticks) (t u : Timing) → AreWithinLimits ticks
        → IsTimingOf P machine most events ticks t → IsTimingOf P machine most events ticks u
        → (t.total ≡ u.total) × (t.network ≡ u.network) × (t.links.items ≡ u.links.items) }
{}

/// The time of a run is the greatest finish of its events: no event finishes later, and the last link of its chain finishes then.
pub fn the_time_is_the_greatest_finish()
    ensures none_later { (ticks : Ticks) (S : State) (events : List Event) (t : Timing) (i finish : ℕ) → IsLongest ticks S events t → FinishesAt ticks S events i finish → finish ≤ t.total }
    ensures last { (ticks : Ticks) (S : State) (events : List Event) (t : Timing) (k : ℕ) (link : Link) → IsLongest ticks S events t → k + 1 ≡ length t.links.items
        → slice_get t.links.items k ≡ Some link → link.finish ≡ t.total }
{}
