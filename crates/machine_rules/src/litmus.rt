//! What the definitions of sequential consistency and of data races refuse and accept, for readers who want to trust them.
ghost use Rattle.std.specs.Prelude.{List};
ghost use Rattle.machine_rules.specs.Actions.{Action};
ghost use Rattle.machine_rules.specs.Consistent.{AreLocksLegal, IsBarrierLegal, IsSequentialOrder};
ghost use Rattle.machine_rules.specs.Racing.{IsDataRaceFree, IsMutuallyExclusive, ArePhasesApart};
ghost use Rattle.machine_rules.specs.Litmus.{zeros, store_buffering, message_passing, read_read, independent_reads, unordered_stores, grant_without_release, early_start, chain_of_locks, across_a_barrier};

/// No sequential order explains the outcomes that the literature's litmus tests forbid.
pub fn forbidden_outcomes_have_no_sequential_order()
    ensures store_buffering { (order : List Action) → IsSequentialOrder 2 zeros store_buffering order → ⊥ }
    ensures message_passing { (order : List Action) → IsSequentialOrder 2 zeros message_passing order → ⊥ }
    ensures read_read { (order : List Action) → IsSequentialOrder 2 zeros read_read order → ⊥ }
    ensures independent_reads { (order : List Action) → IsSequentialOrder 4 zeros independent_reads order → ⊥ }
{}

/// Stores to one word are a race if nothing orders them: also if a lock was granted that hadn't been released, or a phase was
/// started before all cores had arrived.
pub fn unordered_accesses_are_a_data_race()
    ensures unordered_stores { IsDataRaceFree unordered_stores → ⊥ }
    ensures grant_without_release { IsDataRaceFree grant_without_release → ⊥ }
    ensures early_start { IsDataRaceFree early_start → ⊥ }
{}

/// A lock refuses to be granted before it has been released, and the barrier refuses a phase that begins before all have arrived.
pub fn early_grants_and_early_starts_are_refused()
    ensures lock { AreLocksLegal grant_without_release → ⊥ }
    ensures excluded { IsMutuallyExclusive grant_without_release → ⊥ }
    ensures barrier { IsBarrierLegal 2 early_start → ⊥ }
    ensures apart { ArePhasesApart early_start → ⊥ }
{}

/// Accesses that a chain of locks orders, or a barrier, are no race.
pub fn ordered_accesses_are_no_data_race()
    ensures locks { IsDataRaceFree chain_of_locks }
    ensures barrier { IsDataRaceFree across_a_barrier }
{}
