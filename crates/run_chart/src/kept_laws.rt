//! What holds of what is kept of every chart: the theorems on its rows and arrows, with "of the range" read as "of those kept". A
//! theorem is a function without effect; its contract states the theorem.
ghost use Rattle.std.specs.Prelude.{◌≡◌, ◌+◌, ◌<◌, ◌≤◌, ℕ, List, Some, filter, map, slice_get};
ghost use Rattle.message_net.specs.declared.actor.Actor.TheVariants.{Core};
ghost use Rattle.message_net.specs.declared.event.Event.{Event};
ghost use Rattle.registration_protocol.specs.Node.{Setting};
ghost use Rattle.machine_rules.specs.State.{initial_state};
ghost use Rattle.machine_rules.specs.Runs.{IsRun};
ghost use Rattle.machine_rules.specs.Sound.{IsReady};
ghost use Rattle.run_chart.specs.declared.parts.Chart.{Chart};
ghost use Rattle.run_chart.specs.declared.parts.ChartRow.{ChartRow};
ghost use Rattle.run_chart.specs.declared.parts.Fit.{Fit};
ghost use Rattle.run_chart.specs.declared.parts.LeavingMail.{LeavingMail};
ghost use Rattle.run_chart.specs.declared.parts.Origin.{Origin};
ghost use Rattle.run_chart.specs.declared.parts.WaitingTask.{WaitingTask};
ghost use Rattle.run_chart.specs.declared.drawing.Range.{Range};
ghost use Rattle.run_chart.specs.declared.finishing.Columns.{Columns};
ghost use Rattle.run_chart.specs.declared.keeping.Keeping.{Keeping};
ghost use Rattle.run_chart.specs.Arrows.{end_of_range, TellsSender};
ghost use Rattle.run_chart.specs.Charts.{chart_of};
ghost use Rattle.run_chart.specs.Keeping.{is_kept, kept_chart};
ghost use Rattle.run_chart.specs.Places.{HasColumn};
ghost use Rattle.run_chart.specs.Windows.{LeavesWindow};

/// Each event of a chart that is kept has one row, in the order of the events, and no other event has one.
pub fn each_event_that_is_kept_has_one_row()
    ensures { (K : Keeping) (columns : Columns) (fit : Fit) (note : List ℕ) (chart : Chart)
        → map (λ (row : ChartRow). row.event) (kept_chart K columns fit note chart).rows ≡ map (λ (row : ChartRow). row.event) (filter (is_kept K chart.shape) chart.rows) }
{}

/// A row that is kept begins after the last line of each one before it.
pub fn rows_that_are_kept_do_not_overlap()
    ensures { (K : Keeping) (columns : Columns) (fit : Fit) (note : List ℕ) (chart : Chart) (i j : ℕ) (a b : ChartRow) → i < j
        → slice_get (kept_chart K columns fit note chart).rows i ≡ Some a → slice_get (kept_chart K columns fit note chart).rows j ≡ Some b → a.line + a.lines ≤ b.line }
{}

/// An arrow to no row ends on a line of its own: below all rows, and below the arrows to no row before it.
pub fn arrows_without_a_receiver_end_on_lines_of_their_own()
    ensures below { (K : Keeping) (columns : Columns) (fit : Fit) (note : List ℕ) (chart : Chart) (i j : ℕ) (row : ChartRow) (mail : LeavingMail)
        → slice_get (kept_chart K columns fit note chart).rows i ≡ Some row → slice_get (kept_chart K columns fit note chart).leaving j ≡ Some mail → row.line + row.lines ≤ mail.line }
    ensures apart { (K : Keeping) (columns : Columns) (fit : Fit) (note : List ℕ) (chart : Chart) (i j : ℕ) (a b : LeavingMail) → i < j
        → slice_get (kept_chart K columns fit note chart).leaving i ≡ Some a → slice_get (kept_chart K columns fit note chart).leaving j ≡ Some b → a.line < b.line }
{}

/// The arrow of a message begins at the row of the event that sent it, where that event is kept, and in the column of that event's
/// actor; it ends at a row that is kept, or leaves the range or the window: then an event behind the window handles the message, and the
/// arrow ends in the column of that event's actor. Where the sender's event has no row, the arrow begins at no row.
pub fn arrows_between_rows_that_are_kept()
    ensures rows { (C : Setting) (events : List Event) (range : Range) (chain : List ℕ) (columns : Columns) (K : Keeping) (shown : Columns) (fit : Fit) (note : List ℕ) (i : ℕ) (row : ChartRow) → IsReady C → IsRun (initial_state C) events
        → slice_get (kept_chart K shown fit note (chart_of C events range chain columns)).rows i ≡ Some row
        → TellsSender (initial_state C) events (kept_chart K shown fit note (chart_of C events range chain columns)).rows row row.mail }
    ensures leaving { (C : Setting) (events : List Event) (range : Range) (chain : List ℕ) (columns : Columns) (K : Keeping) (shown : Columns) (fit : Fit) (note : List ℕ) (i : ℕ) (mail : LeavingMail) → IsReady C → IsRun (initial_state C) events
        → slice_get (kept_chart K shown fit note (chart_of C events range chain columns)).leaving i ≡ Some mail
        → LeavesWindow (initial_state C) events (kept_chart K shown fit note (chart_of C events range chain columns)).rows (end_of_range range events) K.window mail }
{}

/// The actor of each row that is kept has a column, and so have the actors at both ends of each arrow that is kept and the cores of the
/// tasks that wait, also where cores and banks that do nothing in what is kept have none.
pub fn rows_and_arrows_that_are_kept_have_columns()
    ensures rows { (C : Setting) (events : List Event) (range : Range) (chain : List ℕ) (columns : Columns) (K : Keeping) (shown : Columns) (fit : Fit) (note : List ℕ) (i : ℕ) (row : ChartRow) → IsReady C → IsRun (initial_state C) events
        → slice_get (kept_chart K shown fit note (chart_of C events range chain columns)).rows i ≡ Some row
        → HasColumn (kept_chart K shown fit note (chart_of C events range chain columns)) row.actor }
    ensures mails { (C : Setting) (events : List Event) (range : Range) (chain : List ℕ) (columns : Columns) (K : Keeping) (shown : Columns) (fit : Fit) (note : List ℕ) (i : ℕ) (row : ChartRow) (mail : Origin) → IsReady C → IsRun (initial_state C) events
        → slice_get (kept_chart K shown fit note (chart_of C events range chain columns)).rows i ≡ Some row → row.mail ≡ Some mail
        → HasColumn (kept_chart K shown fit note (chart_of C events range chain columns)) mail.sender }
    ensures leaving { (C : Setting) (events : List Event) (range : Range) (chain : List ℕ) (columns : Columns) (K : Keeping) (shown : Columns) (fit : Fit) (note : List ℕ) (i : ℕ) (mail : LeavingMail) → IsReady C → IsRun (initial_state C) events
        → slice_get (kept_chart K shown fit note (chart_of C events range chain columns)).leaving i ≡ Some mail
        → HasColumn (kept_chart K shown fit note (chart_of C events range chain columns)) mail.sender × HasColumn (kept_chart K shown fit note (chart_of C events range chain columns)) mail.to }
    ensures waiting { (C : Setting) (events : List Event) (range : Range) (chain : List ℕ) (columns : Columns) (K : Keeping) (shown : Columns) (fit : Fit) (note : List ℕ) (i : ℕ) (task : WaitingTask) → IsReady C → IsRun (initial_state C) events
        → slice_get (kept_chart K shown fit note (chart_of C events range chain columns)).waiting i ≡ Some task
        → HasColumn (kept_chart K shown fit note (chart_of C events range chain columns)) (Core task.core) }
{}
