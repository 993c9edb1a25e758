//! What a buffer that shows an answer tells its owner, and what holds of a machine over several calls.
ghost use Rattle.std.specs.Prelude.{◌≡◌, ◌≤◌, ℕ, pos, List, Option, length, take};
ghost use Rattle.message_net.specs.declared.event.Event.{Event};
ghost use Rattle.machine_rules.specs.State.{initial_state};
ghost use Rattle.machine_rules.specs.Runs.{IsCompleteRun};
ghost use Rattle.dn_machine.specs.Kept.{Made};
ghost use Rattle.denovo_c.specs.declared.codes.EventCode.{EventCode as Code};
ghost use Rattle.denovo_c.specs.declared.steps.Sizes.{Sizes};
ghost use Rattle.denovo_c.specs.Sessions.{StepCall, AreStepCalls, IsHandleInRun, events_made};
ghost use Rattle.denovo_c.specs.Shown.{shown_in};
ghost use Rattle.denovo_c.specs.StepCalls.{IsListCall, IsOpenCall};

/// If the answer fits, the buffer begins with the whole of it.
pub fn a_buffer_with_room_has_the_whole_answer()
    ensures { (bytes buffer : List ℕ) → length bytes ≤ length buffer → take (length bytes) (shown_in bytes buffer) ≡ bytes }
{}

/// If it doesn't, the buffer is full of its first bytes.
pub fn a_smaller_buffer_has_the_first_bytes()
    ensures { (bytes buffer : List ℕ) → length buffer ≤ length bytes → shown_in bytes buffer ≡ take (length buffer) bytes }
{}

/// A machine that C opens and steps is in the state of a run. After a `denovo_open` that answers 0 and any calls of `denovo_step`, whatever
/// they answer, the handle has a machine to which the events of the calls that answered 0 lead, and these are a run of the text's machine
/// (`run`). So it is coherent, as `IsInRun` says. If `denovo_enabled` then lists no event, the run is complete (`complete`).
pub fn a_handle_has_a_run()
    ensures run { (text : List ℕ) (sizes : Sizes) (calls : List StepCall) (opened last : Option Made) → IsOpenCall text sizes opened (pos 0) → AreStepCalls opened calls last
        → IsHandleInRun text sizes (events_made calls) last }
    ensures complete { (text : List ℕ) (sizes : Sizes) (events : List Event) (last : Option Made) (before after : List Code) (has : IsHandleInRun text sizes events last)
        → IsListCall last before after 0 (pos 0) → IsCompleteRun (initial_state has.first.state.setting) events }
{}
