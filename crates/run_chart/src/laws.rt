//! What holds of every chart, said of its rows, for readers of charts. A theorem is a function without effect; its contract
//! states the theorem.
ghost use Rattle.std.specs.Prelude.{◌≡◌, ℕ, ◌+◌, ◌<◌, ◌≤◌, List, Some, length, map, slice_get};
ghost use Rattle.std.specs.List.{range_with_len};
ghost use Rattle.message_net.specs.declared.actor.Actor.TheVariants.{Core};
ghost use Rattle.message_net.specs.declared.event.Event.{Event};
ghost use Rattle.registration_protocol.specs.Node.{Setting};
ghost use Rattle.machine_rules.specs.State.{initial_state};
ghost use Rattle.machine_rules.specs.Runs.{IsRun};
ghost use Rattle.machine_rules.specs.Sound.{IsReady};
ghost use Rattle.run_chart.specs.declared.parts.ChartRow.{ChartRow};
ghost use Rattle.run_chart.specs.declared.parts.LeavingMail.{LeavingMail};
ghost use Rattle.run_chart.specs.declared.parts.Origin.{Origin};
ghost use Rattle.run_chart.specs.declared.parts.WaitingTask.{WaitingTask};
ghost use Rattle.run_chart.specs.Places.{HasColumn};
ghost use Rattle.run_chart.specs.declared.drawing.Range.{Range};
ghost use Rattle.run_chart.specs.declared.finishing.Columns.{Columns};
ghost use Rattle.run_chart.specs.Arrows.{end_of_range, AllLeave, LeavesFromSender, TellsSender};
ghost use Rattle.run_chart.specs.Charts.{chart_of, inside};
ghost use Rattle.run_chart.specs.Marks.{is_on_chain};

/// In the chart of a run each event of the range has one row, in the order of the events.
pub fn each_event_of_the_range_has_one_row()
    ensures { (C : Setting) (events : List Event) (range : Range) (chain : List ℕ) (columns : Columns) → IsRun (initial_state C) events
        → map (λ (row : ChartRow). row.event) (chart_of C events range chain columns).rows ≡ range_with_len range.first (length (inside range events)) }
{}

/// A row begins after the last line of each row before it.
pub fn rows_do_not_overlap()
    ensures { (C : Setting) (events : List Event) (range : Range) (chain : List ℕ) (columns : Columns) (i j : ℕ) (a b : ChartRow) → i < j
        → slice_get (chart_of C events range chain columns).rows i ≡ Some a → slice_get (chart_of C events range chain columns).rows j ≡ Some b → a.line + a.lines ≤ b.line }
{}

/// Exactly the events of the range whose numbers are in the chain are marked.
pub fn the_events_of_the_chain_are_marked()
    ensures { (C : Setting) (events : List Event) (range : Range) (chain : List ℕ) (columns : Columns) (i : ℕ) (row : ChartRow)
        → slice_get (chart_of C events range chain columns).rows i ≡ Some row → row.on_chain ≡ is_on_chain chain row.event }
{}

/// The arrow of a message begins at the row of the event that sent it, which is the sender that the run's timing goes by, and in
/// the column of that event's actor. The arrow of a message that an event of the range handles ends at that event's row, and
/// begins at no row where the sender comes before the range; a row without an arrow handles no message. Each message that an
/// event of the range sent and none of them handles has an arrow too, which ends in the column of the actor that may handle it;
/// no other message has one.
pub fn arrows_lead_from_the_senders_of_mails()
    ensures rows { (C : Setting) (events : List Event) (range : Range) (chain : List ℕ) (columns : Columns) (i : ℕ) (row : ChartRow) → IsReady C → IsRun (initial_state C) events
        → slice_get (chart_of C events range chain columns).rows i ≡ Some row → TellsSender (initial_state C) events (chart_of C events range chain columns).rows row row.mail }
    ensures leaving { (C : Setting) (events : List Event) (range : Range) (chain : List ℕ) (columns : Columns) (i : ℕ) (mail : LeavingMail) → IsReady C → IsRun (initial_state C) events
        → slice_get (chart_of C events range chain columns).leaving i ≡ Some mail
        → LeavesFromSender (initial_state C) events (chart_of C events range chain columns).rows (end_of_range range events) mail }
    ensures all_leaving { (C : Setting) (events : List Event) (range : Range) (chain : List ℕ) (columns : Columns) → IsReady C → IsRun (initial_state C) events
        → AllLeave (initial_state C) events (chart_of C events range chain columns).rows range.first (end_of_range range events) (chart_of C events range chain columns).leaving }
{}

/// The actor of each row has a column, and so have the actors at both ends of each arrow and the cores of the tasks that wait, also where
/// cores and banks that do nothing in the range have none.
pub fn rows_and_arrows_have_columns()
    ensures rows { (C : Setting) (events : List Event) (range : Range) (chain : List ℕ) (columns : Columns) (i : ℕ) (row : ChartRow) → IsReady C → IsRun (initial_state C) events
        → slice_get (chart_of C events range chain columns).rows i ≡ Some row → HasColumn (chart_of C events range chain columns) row.actor }
    ensures mails { (C : Setting) (events : List Event) (range : Range) (chain : List ℕ) (columns : Columns) (i : ℕ) (row : ChartRow) (mail : Origin) → IsReady C → IsRun (initial_state C) events
        → slice_get (chart_of C events range chain columns).rows i ≡ Some row → row.mail ≡ Some mail → HasColumn (chart_of C events range chain columns) mail.sender }
    ensures leaving { (C : Setting) (events : List Event) (range : Range) (chain : List ℕ) (columns : Columns) (i : ℕ) (mail : LeavingMail) → IsReady C → IsRun (initial_state C) events
        → slice_get (chart_of C events range chain columns).leaving i ≡ Some mail
        → HasColumn (chart_of C events range chain columns) mail.sender × HasColumn (chart_of C events range chain columns) mail.to }
    ensures waiting { (C : Setting) (events : List Event) (range : Range) (chain : List ℕ) (columns : Columns) (i : ℕ) (task : WaitingTask) → IsReady C → IsRun (initial_state C) events
        → slice_get (chart_of C events range chain columns).waiting i ≡ Some task → HasColumn (chart_of C events range chain columns) (Core task.core) }
{}
