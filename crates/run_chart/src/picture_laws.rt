//! What holds of every picture, for proofs about charts. A theorem is a function without effect; its contract states the theorem.
ghost use Rattle.std.specs.Prelude.{◌≡◌, ◌+◌, ◌*◌, ◌<◌, ◌≤◌, None};
ghost use Rattle.message_net.specs.declared.actor.Actor.{Actor};
ghost use Rattle.run_chart.specs.declared.parts.Chart.{Chart};
ghost use Rattle.run_chart.specs.declared.parts.ChartRow.{ChartRow};
ghost use Rattle.run_chart.specs.Elements.{y_of};
ghost use Rattle.run_chart.specs.Picture.{height_of};
ghost use Rattle.run_chart.specs.Places.{column, HasColumn};

/// Two actors that have a column have different columns.
pub fn different_actors_have_different_columns()
    ensures { (chart : Chart) (a b : Actor) → HasColumn chart a → HasColumn chart b → column chart a ≡ column chart b → a ≡ b }
{}

/// A row that begins after the last line of another row is drawn below all of it.
pub fn rows_on_other_lines_are_drawn_apart()
    ensures { (a b : ChartRow) → a.line + a.lines ≤ b.line → y_of a.line + 18 * a.lines ≤ y_of b.line }
{}

/// An arrow whose sender has no row begins at a mark that no other arrow has: those of two rows are at different heights. The mark is on
/// the upper edge of the row to which the arrow leads, below all of each row above it.
pub fn arrows_without_a_sender_begin_at_marks_of_their_own()
    ensures apart { (a b : ChartRow) → a.line < b.line → height_of a.line None < height_of b.line None }
    ensures edge { (b : ChartRow) → height_of b.line None + 9 ≡ y_of b.line }
    ensures below { (a b : ChartRow) → a.line + a.lines ≤ b.line → y_of a.line + 18 * a.lines ≤ height_of b.line None + 9 }
{}
