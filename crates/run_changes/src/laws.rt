//! What an event changes and leaves alone, for callers that compute the next state from the changes that they are told. These are
//! theorems: functions that do nothing, whose contracts say it.
ghost use Rattle.std.specs.Prelude.{◌≡◌, ◌≢◌, ◌+◌, ◌++◌, ◌∷◌, [], ℕ, true, length, List, Option, Some, slice_get, slice_set};
ghost use Rattle.std.specs.List.{fold};
ghost use Rattle.dn_base.specs.declared.ids.BankId.{BankId};
ghost use Rattle.dn_base.specs.declared.ids.CoreId.{CoreId};
ghost use Rattle.dn_base.specs.declared.ids.LoadSeen.{LoadSeen};
ghost use Rattle.rv_core.specs.Access.{is_held};
ghost use Rattle.rv_core.specs.declared.need.Need.{Need};
ghost use Rattle.rv_core.specs.declared.task.TaskState.{TaskState};
ghost use Rattle.message_net.specs.declared.actor.Actor.{Actor};
ghost use Rattle.message_net.specs.declared.actor.Actor.TheVariants.{Core, Bank, Keeper};
ghost use Rattle.message_net.specs.declared.event.Event.{Event};
ghost use Rattle.message_net.specs.Mail.{mails_of};
ghost use Rattle.registry_bank.specs.Bank.{BankParts, bank_word, bank_lock};
ghost use Rattle.registration_protocol.specs.Node.{NodeParts, entry_of, signature_of};
ghost use Rattle.run_changes.specs.declared.look.EntryBefore.{EntryBefore};
ghost use Rattle.run_changes.specs.Looks.{node_look};
ghost use Rattle.run_changes.specs.Changes.{locks_held, core_changes};
ghost use Rattle.run_changes.specs.Applied.{entry_step, hold_step, signature_step, home_step, lock_step, keeper_step, AreLookedAt, StatusFollows, TaskFollows};
ghost use Rattle.machine_rules.specs.State.{State, initial_state};
ghost use Rattle.machine_rules.specs.Next.{next, next_number, actor_index_in, enabled};
ghost use Rattle.machine_rules.specs.Runs.{after, IsRun};
ghost use Rattle.machine_rules.specs.Sound.{IsMachine, IsSound};
ghost use Rattle.dn_machine.specs.Actors.{actor_in};
ghost use Rattle.run_changes.specs.Events.{event_changes, left_in_flight, sent_in};
ghost use Rattle.run_changes.specs.Since.{changes_since};
ghost use Rattle.run_changes.specs.Leads.{Leads, changes_told, changes_along};

/// An event changes only the state of the actor that makes it.
pub fn an_event_changes_its_actor_alone()
    ensures cores { (S : State) (e : Event) (core : CoreId) → actor_in S e ≢ Some (Core core) → slice_get (next S e).nodes core.0 ≡ slice_get S.nodes core.0 }
    ensures banks { (S : State) (e : Event) (bank : BankId) → actor_in S e ≢ Some (Bank bank) → slice_get (next S e).banks bank.0 ≡ slice_get S.banks bank.0 }
    ensures keeper { (S : State) (e : Event) → actor_in S e ≢ Some Keeper → (next S e).keeper ≡ S.keeper }
{}

/// What an event sends joins the messages in flight, after those that are left: they are the messages of the actor that makes the
/// event, numbered on from its next number, which goes on by as many. A message that is handled leaves.
pub fn what_is_sent_joins_the_mails()
    ensures mails { (S : State) (e : Event) (actor : Actor) → actor_in S e ≡ Some actor
        → (next S e).mails ≡ left_in_flight S e ++ mails_of actor (next_number S actor) (sent_in S e) }
    ensures numbers { (S : State) (e : Event) (actor : Actor) → actor_in S e ≡ Some actor
        → (next S e).numbers ≡ slice_set S.numbers (actor_index_in S actor) (next_number S actor + length (sent_in S e)) }
{}

/// The changes of a core, applied one after the other to the entry that it had of a word, give the entry that it has after
/// them. They cover the words that were looked at; every other word's entry stays.
pub fn the_changes_of_a_core_lead_on()
    ensures { (n m : NodeParts) (needs : Option Need) (entries : List EntryBefore) (seen : Option LoadSeen) (w : ℕ) → AreLookedAt n m entries
        → fold (entry_step w) (entry_of n w) (core_changes (node_look n needs entries) seen (Some m)) ≡ entry_of m w }
{}

/// The changes of an event of a core, applied one after the other to the entry that it had of a word, give the entry that it
/// has after the event.
pub fn a_cores_entries_follow_its_changes()
    ensures { (S : State) (e : Event) (core : CoreId) (n m : NodeParts) (w : ℕ) → IsMachine S → enabled S e ≡ true → actor_in S e ≡ Some (Core core)
        → slice_get S.nodes core.0 ≡ Some n → slice_get (next S e).nodes core.0 ≡ Some m → fold (entry_step w) (entry_of n w) (event_changes S e) ≡ entry_of m w }
{}

/// The changes of an event of a core, applied one after the other, lead from its phase, wait and flags before the event to
/// those after it.
pub fn a_cores_status_follows_its_changes()
    ensures { (S : State) (e : Event) (core : CoreId) (n m : NodeParts) → IsMachine S → enabled S e ≡ true → actor_in S e ≡ Some (Core core)
        → slice_get S.nodes core.0 ≡ Some n → slice_get (next S e).nodes core.0 ≡ Some m → StatusFollows n (event_changes S e) m }
{}

/// The changes of an event of a core that stays in its phase, applied one after the other, lead from its task's pc, retired
/// instructions and end before the event to those after it. When a phase begins, the program tells the task.
pub fn a_cores_task_follows_its_changes()
    ensures { (S : State) (e : Event) (core : CoreId) (n m : NodeParts) (t u : TaskState) → IsMachine S → enabled S e ≡ true → actor_in S e ≡ Some (Core core)
        → slice_get S.nodes core.0 ≡ Some n → slice_get (next S e).nodes core.0 ≡ Some m → m.phase ≡ n.phase → n.task ≡ Some t → m.task ≡ Some u
        → TaskFollows t (event_changes S e) u }
{}

/// The changes of an event of a core, applied one after the other, lead for each lock from whether the core's task held it, and from the
/// core's signature for it, to whether the task holds it after the event, and to the signature then.
pub fn a_cores_locks_follow_its_changes()
    ensures held { (S : State) (e : Event) (core : CoreId) (n m : NodeParts) (l : ℕ) → IsMachine S → enabled S e ≡ true → actor_in S e ≡ Some (Core core)
        → slice_get S.nodes core.0 ≡ Some n → slice_get (next S e).nodes core.0 ≡ Some m
        → fold (hold_step l) (is_held (locks_held n.task) l) (event_changes S e) ≡ is_held (locks_held m.task) l }
    ensures signatures { (S : State) (e : Event) (core : CoreId) (n m : NodeParts) (l : ℕ) → IsMachine S → enabled S e ≡ true → actor_in S e ≡ Some (Core core)
        → slice_get S.nodes core.0 ≡ Some n → slice_get (next S e).nodes core.0 ≡ Some m
        → fold (signature_step l) (signature_of n l) (event_changes S e) ≡ signature_of m l }
{}

/// The changes of an event of a bank, applied one after the other to what the bank had for a word, give what it has after the event.
pub fn a_banks_words_follow_its_changes()
    ensures { (S : State) (e : Event) (bank : BankId) (b c : BankParts) (w : ℕ) → IsMachine S → enabled S e ≡ true → actor_in S e ≡ Some (Bank bank)
        → slice_get S.banks bank.0 ≡ Some b → slice_get (next S e).banks bank.0 ≡ Some c → fold (home_step w) (bank_word b w) (event_changes S e) ≡ bank_word c w }
{}

/// The changes of an event of a bank, applied one after the other to what a lock was there, give what it is after the event: its holder,
/// the cores that wait, the first first, and the signature that is kept.
pub fn a_banks_locks_follow_its_changes()
    ensures { (S : State) (e : Event) (bank : BankId) (b c : BankParts) (l : ℕ) → IsMachine S → enabled S e ≡ true → actor_in S e ≡ Some (Bank bank)
        → slice_get S.banks bank.0 ≡ Some b → slice_get (next S e).banks bank.0 ≡ Some c → fold (lock_step l) (bank_lock b l) (event_changes S e) ≡ bank_lock c l }
{}

/// The change of an event of the barrier controller, applied to what the barrier controller was, gives what it is after the
/// event.
pub fn the_keeper_follows_its_changes()
    ensures { (S : State) (e : Event) → enabled S e ≡ true → actor_in S e ≡ Some Keeper → fold keeper_step S.keeper (event_changes S e) ≡ (next S e).keeper }
{}

/// What is different of a state from the beginning of its machine leads there: applied one after the other, in the order in which
/// they stand, to what each core, each home of a word and each lock and the barrier controller are as the run begins, the changes
/// give what they are in the state.
pub fn what_is_different_leads_there()
    ensures { (S : State) → IsMachine S → Leads (initial_state S.setting) (changes_since S) S }
{}

/// What an event changes leads from the state before it to the state after it, at every actor: the changes of its actor, applied one after
/// the other to what the actor was, and no change of any other actor.
pub fn an_events_changes_lead_on()
    ensures { (S : State) (e : Event) → IsMachine S → enabled S e ≡ true → Leads S (changes_told S e ∷ []) (next S e) }
{}

/// From the beginning of a machine the changes that lead to one of its states, and after them those that each event of a run from there
/// tells, lead to the state after the run.
pub fn the_changes_of_a_run_lead_on()
    ensures { (S : State) (made : ℕ) (events : List Event) → IsSound S made → IsRun S events
        → Leads (initial_state S.setting) (changes_since S ++ changes_along S events) (after S events) }
{}
