//! Theorems of the definitions, for proofs about logs. A theorem is a function without effect; its contract states the theorem.
ghost use Rattle.std.specs.Prelude.{◌≡◌, ◌+◌, ◌<◌, if◌then◌else◌, List, length, filter, flat_map, sum};
ghost use Rattle.message_net.specs.declared.actor.Actor.{Actor};
ghost use Rattle.message_net.specs.declared.event.EventKind.{EventKind};
ghost use Rattle.grant_log.specs.declared.counts.Counts.{Counts};
ghost use Rattle.grant_log.specs.declared.log.Stamped.{Stamped};
ghost use Rattle.grant_log.specs.Order.{IsBefore};
ghost use Rattle.grant_log.specs.Log.{AreLogs, IsMerge, of_actor};
ghost use Rattle.grant_log.specs.Counts.{same_kind, kind_count, added, AreCounts};

/// One more event raises the count of its kind by one, and no other count.
pub fn an_event_raises_its_kind_alone()
    ensures kind { (j k : EventKind) (counts : Counts) → length counts.kinds ≡ 17
        → kind_count j (added k counts) ≡ kind_count j counts + (if same_kind j k then 1 else 0) }
    ensures sum { (k : EventKind) (counts : Counts) → length counts.kinds ≡ 17 → sum (added k counts).kinds ≡ sum counts.kinds + 1 }
{}

/// A list of events has at most one `Counts`, and its counts add up to the list's length.
pub fn counts_add_up()
    ensures sum { (kinds : List EventKind) (counts : Counts) → length counts.kinds ≡ 17 → AreCounts kinds counts → sum counts.kinds ≡ length kinds }
    ensures one { (kinds : List EventKind) (counts other : Counts) → length counts.kinds ≡ 17 → length other.kinds ≡ 17
        → AreCounts kinds counts → AreCounts kinds other → counts ≡ other }
{}

/// An entry with a smaller stamp comes before one with a greater stamp.
pub fn stamps_come_first()
    ensures { (a b : Stamped) → a.stamp < b.stamp → IsBefore a b }
{}

/// Logs have at most one merge.
pub fn a_merge_is_the_only_one()
    ensures { (logs : List (List Stamped)) (merged other : List Stamped) → IsMerge logs merged → IsMerge logs other → merged ≡ other }
{}

/// In the merge, an actor's entries stand in the order of its log.
pub fn a_merge_keeps_each_log()
    ensures { (logs : List (List Stamped)) (merged : List Stamped) (a : Actor) → AreLogs logs → IsMerge logs merged
        → filter (of_actor a) merged ≡ filter (of_actor a) (flat_map (λ log. log) logs) }
{}
