//! What holds of every run beside lists of sharers, for readers of its numbers. A theorem is a function without effect; its
//! contract states the theorem.
ghost use Rattle.std.specs.Prelude.{◌≡◌, ◌≢◌, ℕ, ◌+◌, ◌<◌, ◌≤◌, [], List, length, count_by, slice_index_or, true, Some, None};
ghost use Rattle.message_net.specs.declared.event.Event.{Event};
ghost use Rattle.registration_protocol.specs.Node.{Setting};
ghost use Rattle.machine_rules.specs.State.{State, initial_state};
ghost use Rattle.machine_rules.specs.Runs.{IsRun, kinds_of};
ghost use Rattle.machine_rules.specs.Sound.{IsReady};
ghost use Rattle.run_account.specs.declared.item.Grouping.{Grouping};
ghost use Rattle.run_account.specs.declared.measure.Measure.{Measure};
ghost use Rattle.run_account.specs.declared.measure.Measure.TheVariants.{Messages, WaitsRead, WaitsWrite, ListMessages, ListReadRequests, ListWriteRequests, ListForwards, ListReplies, ListInvalidations, ListAcknowledgements, ListPutBacks, ListPutShares, ListPutAcks, ListWaitsRead, ListWaitsWrite, WaitsHereAlone, WaitsListAlone};
ghost use Rattle.run_account.specs.Items.{groups_in};
ghost use Rattle.run_account.specs.Tallies.{tally_of, capped};
ghost use Rattle.run_account.specs.declared.cache.Share.TheVariants.{Owned};
ghost use Rattle.run_account.specs.Lists.{share_of, cache_of};
ghost use Rattle.run_account.specs.Runs.{lists_in_run, number_with_lists, number_of_both, sum_beside, is_about_word, is_about_words, gone_in_run, is_shared_line, nothing_listed, count_of_run};

/// Where a core has a word Owned, no other core has the word.
pub fn an_owner_is_alone()
    ensures { (S : State) (events : List Event) (c d w : ℕ) → c ≢ d → share_of (lists_in_run S events) c w ≡ Some Owned → share_of (lists_in_run S events) d w ≡ None }
{}

/// No set has more words than ways.
pub fn a_set_has_no_more_words_than_ways()
    ensures { (S : State) (events : List Event) (c set : ℕ) → 0 < S.setting.shape.ways → length (slice_index_or (cache_of (lists_in_run S events) c) set []) ≤ S.setting.shape.ways }
{}

/// The numbers of the table are those of the run: how many of its items are of the measure and in the group.
pub fn a_run_beside_lists_has_the_numbers_of_its_table()
    ensures { (S : State) (events : List Event) (by : Grouping) (m : Measure) (group : ℕ) → group < groups_in S.setting.program S.setting.shape.cores by
        → tally_of m group (count_of_run S (nothing_listed S.setting by) events).tallies ≡ capped (number_with_lists by m group S events) }
{}

/// In each group the messages with lists are those of their nine kinds.
pub fn list_messages_are_of_nine_kinds()
    ensures { (S : State) (events : List Event) (by : Grouping) (group : ℕ)
        → number_with_lists by ListMessages group S events ≡ number_with_lists by ListReadRequests group S events + number_with_lists by ListWriteRequests group S events
        + number_with_lists by ListForwards group S events + number_with_lists by ListReplies group S events + number_with_lists by ListInvalidations group S events
        + number_with_lists by ListAcknowledgements group S events + number_with_lists by ListPutBacks group S events + number_with_lists by ListPutShares group S events
        + number_with_lists by ListPutAcks group S events }
{}

/// In each group there are as many acknowledgements as invalidations.
pub fn invalidations_are_acknowledged()
    ensures { (S : State) (events : List Event) (by : Grouping) (group : ℕ) → number_with_lists by ListInvalidations group S events ≡ number_with_lists by ListAcknowledgements group S events }
{}

/// In each group there are as many replies as requests.
pub fn requests_are_answered()
    ensures { (S : State) (events : List Event) (by : Grouping) (group : ℕ)
        → number_with_lists by ListReadRequests group S events + number_with_lists by ListWriteRequests group S events ≡ number_with_lists by ListReplies group S events }
{}

/// In each group the waits of the run less those with lists are the waits of the run alone less those of the lists alone.
pub fn waits_alone_are_the_difference()
    ensures { (S : State) (events : List Event) (by : Grouping) (group : ℕ)
        → number_with_lists by ListWaitsRead group S events + number_with_lists by ListWaitsWrite group S events + number_with_lists by WaitsHereAlone group S events
        ≡ number_with_lists by WaitsRead group S events + number_with_lists by WaitsWrite group S events + number_with_lists by WaitsListAlone group S events }
{}

/// In a run of the machine of a checked program the numbers of all groups add up to those of the run, for every measure except those of
/// the messages about locks and of the barrier, which have no word.
pub fn groups_beside_lists_add_up()
    ensures { (C : Setting) (events : List Event) (by : Grouping) (m : Measure) → is_about_words m ≡ true → IsReady C → IsRun (initial_state C) events
        → sum_beside by m (initial_state C) events ≡ number_of_both m (initial_state C) events }
{}

/// In a run of the machine of a checked program the messages are the events of the kinds ReadReq to WbAck.
pub fn messages_are_the_mails_about_words()
    ensures { (C : Setting) (events : List Event) → IsReady C → IsRun (initial_state C) events
        → number_of_both Messages (initial_state C) events ≡ count_by is_about_word (kinds_of (initial_state C) events) }
{}

/// There are as many put-acks as words that go to make room, and as many put-shares as Shared ones among these.
pub fn words_that_go_are_acknowledged()
    ensures acknowledged { (S : State) (events : List Event) → number_of_both ListPutAcks S events ≡ length (gone_in_run S events) }
    ensures shared { (S : State) (events : List Event) → number_of_both ListPutShares S events ≡ count_by is_shared_line (gone_in_run S events) }
{}
