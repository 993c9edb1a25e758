//! Which numbers of an account add up, for readers of an account. A theorem is a function without effect; its contract states the
//! theorem.
ghost use Rattle.std.specs.Prelude.{◌≡◌, ℕ, ◌+◌, ◌<◌, ◌≤◌, true, List};
ghost use Rattle.message_net.specs.declared.event.Event.{Event};
ghost use Rattle.message_net.specs.declared.event.EventKind.TheVariants.{DataReply, Grant, Evict};
ghost use Rattle.registration_protocol.specs.Node.{Setting};
ghost use Rattle.machine_rules.specs.State.{State, initial_state};
ghost use Rattle.machine_rules.specs.Runs.{IsRun};
ghost use Rattle.machine_rules.specs.Sound.{IsReady};
ghost use Rattle.run_account.specs.declared.item.Grouping.{Grouping};
ghost use Rattle.run_account.specs.declared.item.Grouping.TheVariants.{Phase, Core, Region};
ghost use Rattle.run_account.specs.declared.measure.Measure.{Measure};
ghost use Rattle.run_account.specs.Items.{groups_in};
ghost use Rattle.run_account.specs.Tallies.{capped, tally_of};
ghost use Rattle.run_account.specs.declared.measure.Measure.TheVariants.{Loads, LoadsLocal, Misses, MissesFirst, MissesPhase, MissesLock, MissesEvicted, MissesTaken, RepliesHome, RepliesCore, GrantsAtOnce, GrantsQueued, EvictedCopies, EvictedRegistered};
ghost use Rattle.run_account.specs.Account.{no_account, account_of_run, number_in_run, number_of_run, sum_of_run, is_of_words};
ghost use Rattle.run_account.specs.Kinds.{events_of_kind, StaysCoherent};

/// The numbers of the account of a run are those of the run: how many of its items are of the measure and in the group.
pub fn a_run_has_the_numbers_of_its_account()
    ensures { (S : State) (events : List Event) (by : Grouping) (m : Measure) (group : ℕ) → group < groups_in S.setting.program S.setting.shape.cores by
        → tally_of m group (account_of_run S (no_account S.setting by) events).tallies ≡ capped (number_in_run by m group S events) }
{}

/// In each group every miss has exactly one of the five reasons.
pub fn each_miss_has_one_reason()
    ensures { (S : State) (events : List Event) (by : Grouping) (group : ℕ)
        → number_in_run by Misses group S events ≡ number_in_run by MissesFirst group S events + number_in_run by MissesPhase group S events
        + number_in_run by MissesLock group S events + number_in_run by MissesEvicted group S events + number_in_run by MissesTaken group S events }
{}

/// In each group there are at most as many local loads as loads.
pub fn local_loads_are_loads()
    ensures { (S : State) (events : List Event) (by : Grouping) (group : ℕ) → number_in_run by LoadsLocal group S events ≤ number_in_run by Loads group S events }
{}

/// Each DataReply that is handled was sent by a bank or by a core, if every run leads to a coherent state.
pub fn replies_add_up()
    ensures { (S : State) (events : List Event) → StaysCoherent S → IsRun S events
        → events_of_kind DataReply S events ≡ number_of_run RepliesHome S events + number_of_run RepliesCore S events }
{}

/// Each Grant that is handled is of a lock that was free or of one that was handed on, if every run leads to a coherent state.
pub fn grants_add_up()
    ensures { (S : State) (events : List Event) → StaysCoherent S → IsRun S events
        → events_of_kind Grant S events ≡ number_of_run GrantsAtOnce S events + number_of_run GrantsQueued S events }
{}

/// Each eviction is of a copy or of a registered word, if every run leads to a coherent state.
pub fn evictions_add_up()
    ensures { (S : State) (events : List Event) → StaysCoherent S → IsRun S events
        → events_of_kind Evict S events ≡ number_of_run EvictedCopies S events + number_of_run EvictedRegistered S events }
{}

/// In a run of the machine of a checked program the numbers of the phases add up to those of the run.
pub fn phases_add_up()
    ensures { (C : Setting) (events : List Event) (m : Measure) → IsReady C → IsRun (initial_state C) events
        → sum_of_run Phase m (initial_state C) events ≡ number_of_run m (initial_state C) events }
{}

/// In a run of the machine of a checked program the numbers of the cores add up to those of the run.
pub fn cores_add_up()
    ensures { (C : Setting) (events : List Event) (m : Measure) → IsReady C → IsRun (initial_state C) events
        → sum_of_run Core m (initial_state C) events ≡ number_of_run m (initial_state C) events }
{}

/// In a run of the machine of a checked program the numbers of the regions add up to those of the run, for every measure except
/// those of grants, which have no word.
pub fn regions_add_up()
    ensures { (C : Setting) (events : List Event) (m : Measure) → is_of_words m ≡ true → IsReady C → IsRun (initial_state C) events
        → sum_of_run Region m (initial_state C) events ≡ number_of_run m (initial_state C) events }
{}
