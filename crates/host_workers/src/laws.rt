//! What holds of rounds, for callers that let workers make them. A theorem is a function without effect; its contract states the
//! theorem.
ghost use Rattle.std.specs.Prelude.{◌≡◌, ℕ, ◌≤◌, List, ◌++◌};
ghost use Rattle.dn_base.specs.declared.ids.CoreId.{CoreId};
ghost use Rattle.dn_base.specs.declared.ids.Shape.{Shape};
ghost use Rattle.message_net.specs.declared.actor.Actor.{Actor};
ghost use Rattle.registration_protocol.specs.Node.{Setting};
ghost use Rattle.machine_rules.specs.State.{State};
ghost use Rattle.bank_hall.specs.Halls.{PassView, HasMadeCalls};
ghost use Rattle.host_workers.specs.Acts.{Act, notes_by, calls_in};
ghost use Rattle.host_workers.specs.Passes.{Held, HasGone};
ghost use Rattle.host_workers.specs.Rounds.{Round, IsReached, IsJoined, IsRoundOf};
ghost use Rattle.host_workers.specs.Beginnings.{HaveBegun, AllHaveActed};
ghost use Rattle.host_workers.specs.Unspent.{AreUnspent};
ghost use Rattle.host_workers.specs.Owners.{AreOwners};
ghost use Rattle.host_workers.specs.Entries.{AreAnswers, AreGivenMails};
ghost use Rattle.host_workers.specs.NextNumbers.{AreNumbersLow};

/// The state that the workers of a round leave is that of one run of the machine: its events are those that they noted, in the
/// order of their stamps.
pub fn a_round_is_a_run()
    ensures { (C : Setting) (S T : State) (r : Round) → IsReached C S → IsJoined C S T r → IsRoundOf C S T r }
{}

/// The acts of two consecutive passes of a worker make the calls of both, change each core as both do, and note what both note.
pub fn passes_follow_one_another()
    ensures calls { (shape : Shape) (number : ℕ) (first more : List Act) (old between new : PassView) → HasMadeCalls old between (calls_in shape number first)
        → HasMadeCalls between new (calls_in shape number more) → HasMadeCalls old new (calls_in shape number (first ++ more)) }
    ensures cores { (C : Setting) (first more : List Act) (core : CoreId) (old between new : Held) → HasGone C first core old between
        → HasGone C more core between new → HasGone C (first ++ more) core old new }
    ensures notes { (shape : Shape) (a : Actor) (first more : List Act) → notes_by shape a (first ++ more) ≡ notes_by shape a first ++ notes_by shape a more }
{}

/// If every worker makes at least one pass, a round has an event of each actor to which a message was in flight at the start, and
/// of each core whose node had an own event.
pub fn whoever_has_something_to_do_acts()
    ensures { (C : Setting) (S T : State) (r : Round) → IsReached C S → C.shape.cores ≤ 16 → IsJoined C S T r → HaveBegun C S r → AllHaveActed C S r }
{}

/// In a round no object of the hall is spent: a step or a take gives nothing only if the inbox is empty.
pub fn no_object_is_spent()
    ensures { (C : Setting) (S T : State) (r : Round) → IsReached C S → C.shape.cores ≤ 16 → IsJoined C S T r → AreUnspent C S r }
{}

/// In the histories of a round, each step of a bank, each take from a core's port and each step of the barrier controller is a
/// call by the worker that owns it.
pub fn steps_are_of_owners()
    ensures { (C : Setting) (S T : State) (r : Round) → IsJoined C S T r → AreOwners r }
{}

/// In the merged list of a round, the entries of a bank, and of the barrier controller, are the answers of its history, and the
/// messages that a core handles are those that the history of its port gave, in the order of the histories.
pub fn the_one_list_tells_the_histories()
    ensures answers { (C : Setting) (S T : State) (r : Round) → IsJoined C S T r → AreAnswers C r }
    ensures mails { (C : Setting) (S T : State) (r : Round) → IsJoined C S T r → AreGivenMails C r }
{}

/// No actor's next message ever has a number above 25,169,664, the greatest number of events of a run: each message that was sent
/// has been handled or still can be, so it has an event of one run.
pub fn mail_numbers_stay_low()
    ensures { (C : Setting) (S T : State) (r : Round) → IsReached C S → IsJoined C S T r → AreNumbersLow C S T r }
{}
