//! Theorems of the definitions, for proofs about documents and replays. A theorem is a function without effect; its contract
//! states the theorem.
ghost use Rattle.std.specs.Prelude.{◌≡◌, ◌≤◌, List, length};
ghost use Rattle.std.specs.List.{All};
ghost use Rattle.message_net.specs.declared.event.Event.{Event};
ghost use Rattle.registration_protocol.specs.Node.{Setting};
ghost use Rattle.machine_rules.specs.Runs.{IsRun};
ghost use Rattle.machine_rules.specs.Sound.{IsReady};
ghost use Rattle.machine_rules.specs.State.{initial_state};
ghost use Rattle.run_replay.specs.declared.trace.Trace.{Trace};
ghost use Rattle.run_replay.specs.declared.replaying.Replayed.{Replayed};
ghost use Rattle.run_replay.specs.Document.{FitsDocument, IsTrace, document_of};
ghost use Rattle.run_replay.specs.Replay.{IsTrueOf};

use dn_base::MOST_OF_DOCUMENT;

/// A document is the document of at most one trace.
pub fn a_document_is_of_one_trace()
    ensures { (t u : Trace) → IsTrace t → IsTrace u → document_of t ≡ document_of u → t ≡ u }
{}

/// A document doesn't exceed the greatest size.
pub fn a_document_is_not_too_large()
    ensures { (t : Trace) → IsTrace t → length (document_of t) ≤ MOST_OF_DOCUMENT }
{}

/// Events have at most one replay on the machine of a setting. So a replay that says that they are a complete run, or that they
/// stop at an event that is not enabled, or that they are unfinished, is the only one.
pub fn events_have_one_replay()
    ensures { (C : Setting) (events : List Event) (r s : Replayed) → IsTrueOf C events r → IsTrueOf C events s → r ≡ s }
{}

/// The events of a run of the initial machine are within the limits of a document.
pub fn what_a_run_tells_fits_a_document()
    ensures { (C : Setting) (events : List Event) → IsReady C → C.shape.cores ≤ 16 → IsRun (initial_state C) events → All FitsDocument events }
{}
