//! What holds of every slide. A theorem is a function without effect; its contract states the theorem.
ghost use Rattle.std.specs.Prelude.{◌≡◌, ◌⊎◌, ℕ, ◌<◌, ◌≤◌, List, None, map, take};
ghost use Rattle.message_net.specs.declared.event.Event.{Event};
ghost use Rattle.registration_protocol.specs.Node.{Setting};
ghost use Rattle.machine_rules.specs.State.{initial_state};
ghost use Rattle.machine_rules.specs.Runs.{IsRun};
ghost use Rattle.run_chart.specs.declared.drawing.Range.{Range};
ghost use Rattle.run_chart.specs.declared.finishing.Columns.{Columns};
ghost use Rattle.run_chart.specs.declared.keeping.Keeping.{Keeping};
ghost use Rattle.run_chart.specs.declared.parts.Chart.{Chart};
ghost use Rattle.run_chart.specs.declared.parts.ChartRow.{ChartRow};
ghost use Rattle.run_chart.specs.declared.parts.Fit.{Fit};
ghost use Rattle.run_chart.specs.declared.parts.Fit.TheVariants.{Slide};
ghost use Rattle.run_chart.specs.Charts.{chart_of};
ghost use Rattle.run_chart.specs.Keeping.{kept_chart, kept_rows};
ghost use Rattle.run_chart.specs.Picture.{height, width};
ghost use Rattle.run_chart.specs.Slides.{columns_on, from_first, fitted, most_rows, slide_lines, within_rows, FitsOnSlide};

/// A slide has at most 31 lines and columns of at most five cores and banks, or it shows one of the rows that are kept.
pub fn a_slide_has_room_for_its_lines_and_columns()
    ensures { (K : Keeping) (columns : Columns) (note : List ℕ) (chart : Chart)
        → FitsOnSlide (kept_chart (fitted Slide K chart) (columns_on Slide columns) Slide note chart) ⊎ (fitted Slide K chart ≡ within_rows K chart 1) }
{}

/// A slide leaves out no row that has room: there is none for any greater number of the rows up to 31.
pub fn a_slide_has_as_many_rows_as_have_room()
    ensures { (K : Keeping) (columns : Columns) (note : List ℕ) (chart : Chart) (count : ℕ) → most_rows K chart slide_lines < count → count ≤ slide_lines
        → FitsOnSlide (kept_chart (within_rows K chart count) (columns_on Slide columns) Slide note chart) → ⊥ }
{}

/// A slide that has room for its lines and columns is no wider than 1,280 points and no higher than 720. It is shown in that size, so
/// nothing on it is made smaller: a line is at least 18 points high.
pub fn lines_of_a_slide_are_not_made_smaller()
    ensures { (chart : Chart) → chart.fit ≡ Slide → FitsOnSlide chart → (width chart ≤ 1280) × (height chart ≤ 720) }
{}

/// In a run the rows of a slide follow each other among all rows that are kept: they are so many of them, from the first one on that is
/// of no plain instruction.
pub fn rows_of_a_slide_follow_each_other()
    ensures { (C : Setting) (events : List Event) (range : Range) (chain : List ℕ) (columns : Columns) (K : Keeping) (shown : Columns) (fit : Fit) (note : List ℕ) (count : ℕ) → IsRun (initial_state C) events
        → K.window ≡ None
        → map (λ (row : ChartRow). row.event) (kept_chart (within_rows K (chart_of C events range chain columns) count) shown fit note (chart_of C events range chain columns)).rows
        ≡ take count (map (λ (row : ChartRow). row.event) (from_first (kept_rows K (chart_of C events range chain columns)))) }
{}
