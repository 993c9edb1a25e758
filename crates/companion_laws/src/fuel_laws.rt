//! Theorems: what more fuel leaves of a run. A theorem is a function without effect; its contract states the theorem.
ghost use Rattle.std.specs.Prelude.{◌≡◌, ◌≤◌, ℕ, List};
ghost use Rattle.dn_base.specs.declared.status.Outcome.TheVariants.{Done};
ghost use Rattle.region_table.specs.Program.{ProgramParts, IsProgram};
ghost use Rattle.effect_checker.specs.Checked.{IsChecked};
ghost use Rattle.message_net.specs.declared.event.Event.{Event};
ghost use Rattle.registration_protocol.specs.Node.{Setting};
ghost use Rattle.machine_rules.specs.State.{initial_state};
ghost use Rattle.machine_rules.specs.Runs.{ending_of_run};
ghost use Rattle.machine_rules.specs.Sound.{IsWellFormed};
ghost use Rattle.dn_machine.specs.Schedule.{IsScheduled};
ghost use Rattle.dn_machine.specs.declared.record.RunRecord.{RunRecord};
ghost use Rattle.dn_top.specs.declared.options.Options.{Options};
ghost use Rattle.dn_top.specs.declared.options.Order.TheVariants.{Seed};
ghost use Rattle.dn_top.specs.Command.{OptionsInRange};
ghost use Rattle.dn_top.specs.Runs.{IsRunFor};
ghost use Rattle.companion_laws.specs.MoreFuel.{with_fuel, DoTheSame, TellTheSame};

/// If the run of a seed is done, then with more fuel the same seed gives the same run on the same machine, event by event: it picks
/// the same events, and after each of them the state is the same but for the fuel (`run`). So two runs of denovo by one worker, in
/// the order of the seed, tell the same events, grants and ending if their options differ in the fuel alone and the run with less
/// fuel is done (`denovo`).
pub fn more_fuel_changes_no_event_of_a_run_that_is_done()
    ensures run { (C : Setting) (more seed : ℕ) (events : List Event) → IsWellFormed C → C.fuel ≤ more → IsScheduled (initial_state C) seed events
        → (ending_of_run (initial_state C) events).outcome ≡ Done → IsScheduled (initial_state (with_fuel more C)) seed events × DoTheSame C more events }
    ensures denovo { (P : ProgramParts) (o : Options) (more : ℕ) (r s : RunRecord) → IsProgram P → IsChecked P → OptionsInRange o → o.workers ≡ 1 → o.order ≡ Seed → o.fuel ≤ more
        → IsRunFor P o r → IsRunFor P (record o { fuel = more }) s → r.ending.outcome ≡ Done → TellTheSame r s }
{}
