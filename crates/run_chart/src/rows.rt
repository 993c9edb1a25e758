//! The rows with their arrows, and what follows them.
ghost use Rattle.std.specs.Prelude.{◌≡◌, ◌≤◌, ◌++◌, ◌*◌, ◌+◌, ◌-◌, codes, flat_map, OnOk};
ghost use Rattle.std.specs.Fmt.{decimal};
ghost use Rattle.text_pieces.specs.Pieces.{space};
ghost use Rattle.run_chart.specs.Elements.{head_from_left, head_from_right, line_to, words_at, words_begin, y_of};
ghost use Rattle.run_chart.specs.Picture.{arrow, arrow_between, beside, change_words, changes_below, comes_from_right, dot, edge_mark, end_lines, ending_words, height_of, label, leaving_arrow, leaving_words, mail_class, number_words, point, ring, row_words, waiting_words};
ghost use Rattle.run_chart.specs.Places.{column};
ghost use Rattle.run_chart.specs.Labels.{label_text, task_end_text};

use crate::elements::{
    Point, push_circle, push_head_from_left, push_head_from_right, push_line, push_words_begin,
    push_words_end, y_of,
};
use crate::labels::{push_actor, push_change_text, push_ending, push_label, push_waiting};
use crate::parts::{About, Chart, ChartRow, LeavingMail, Origin, WaitingTask};
use crate::states::WordChange;
use dn_base::Memory;
use message_net::{Actor, EventKind};
use rv_core::End;
use text_pieces::Piece::{Bytes, Long, Number};
use text_pieces::{push, push_pieces};
use text_places::Located;

/// Adds the point of an event of the chain.
#[tactic(auto, unfolding(crate::specs::Picture::point))]
fn push_point(out: &mut Vec<u8>, chart: &Chart, row: &ChartRow) -> Result<(), Memory>
    ensures { OnOk result (out.new.items ≡ out.old.items ++ point chart.now row.now) }
{
    if !row.on_chain {
        return Ok(());
    }
    let dot = chart.dot(row);
    push_pieces(out, &[Long(dot.x), Bytes(b","), Long(dot.y), Bytes(b" ")])
}

/// Adds the points of the chain's events.
pub(crate) fn push_points(out: &mut Vec<u8>, chart: &Chart, rows: &[ChartRow]) -> Result<(), Memory>
    ensures { OnOk result (out.new.items ≡ out.old.items ++ flat_map (point chart.now) rows.now) }
{
    for row in rows {
        push_point(out, chart, row)?;
    }
    Ok(())
}

/// Adds an arrow of a class from one point to another to the left. Its line leaves room for its head.
fn push_arrow_to_left(out: &mut Vec<u8>, class: &[u8], from: Point, to: Point) -> Result<(), Memory>
    requires least { 300 ≤ to.x }
    requires most { to.x ≤ 4524 }
    ensures { OnOk result (out.new.items ≡ out.old.items ++ (line_to class.now from.x from.y (to.x + 13) to.y ++ head_from_right (to.x + 5) to.y)) }
{
    let Point { x, y } = to;
    push_line(out, class, from, Point { x: x + 13, y })?;
    push_head_from_right(out, Point { x: x + 5, y })
}

/// The same of one to the right, or straight up or down.
fn push_arrow_to_right(
    out: &mut Vec<u8>,
    class: &[u8],
    from: Point,
    to: Point,
) -> Result<(), Memory>
    requires least { 300 ≤ to.x }
    requires most { to.x ≤ 4524 }
    ensures { OnOk result (out.new.items ≡ out.old.items ++ (line_to class.now from.x from.y (to.x - 13) to.y ++ head_from_left (to.x - 5) to.y)) }
{
    let Point { x, y } = to;
    push_line(out, class, from, Point { x: x - 13, y })?;
    push_head_from_left(out, Point { x: x - 5, y })
}

/// Adds an arrow of a class from one point to another.
#[tactic(auto, unfolding(crate::specs::Picture::arrow_between))]
fn push_arrow_between(out: &mut Vec<u8>, class: &[u8], from: Point, to: Point) -> Result<(), Memory>
    requires least { 300 ≤ to.x }
    requires most { to.x ≤ 4524 }
    ensures { OnOk result (out.new.items ≡ out.old.items ++ arrow_between class.now from.x from.y to.x to.y) }
{
    if to.x < from.x {
        push_arrow_to_left(out, class, from, to)
    } else {
        push_arrow_to_right(out, class, from, to)
    }
}

/// The height at which the arrow to a row on a line begins.
fn height_of(line: u32, sent: Option<u32>) -> u64
    ensures { result ≡ height_of line sent }
{
    match sent {
        Some(sent) => y_of(sent),
        None => y_of(line) - 9,
    }
}

/// Adds the mark at which an arrow begins whose sender has no row.
fn push_edge_mark(out: &mut Vec<u8>, at: Point, sent: Option<u32>) -> Result<(), Memory>
    requires least { 300 ≤ at.x }
    requires most { at.x ≤ 4524 }
    ensures { OnOk result (out.new.items ≡ out.old.items ++ edge_mark at.x at.y sent) }
{
    let Point { x, y } = at;
    match sent {
        Some(_) => Ok(()),
        None => push_line(out, b"mail", Point { x: x - 6, y }, Point { x: x + 6, y }),
    }
}

/// The class of the arrow of a message that an event handles.
fn mail_class(line: Option<u32>) -> &'static [u8]
    ensures { result.now ≡ mail_class line }
{
    match line {
        Some(_) => b"mail",
        None => b"cut",
    }
}

/// Adds the arrow of the message that an event handles, if it handles one.
fn push_arrow(out: &mut Vec<u8>, chart: &Chart, row: &ChartRow) -> Result<(), Memory>
    ensures { OnOk result (out.new.items ≡ out.old.items ++ arrow chart.now row.now) }
{
    let Some(mail) = row.mail else {
        return Ok(());
    };
    let from = Point {
        x: chart.column(mail.sender),
        y: height_of(row.line, mail.line),
    };
    push_edge_mark(out, from, mail.line)?;
    push_arrow_between(out, mail_class(mail.line), from, chart.dot(row))
}

/// Adds the arrows of all messages that are handled.
pub(crate) fn push_arrows(out: &mut Vec<u8>, chart: &Chart, rows: &[ChartRow]) -> Result<(), Memory>
    ensures { OnOk result (out.new.items ≡ out.old.items ++ flat_map (arrow chart.now) rows.now) }
{
    for row in rows {
        push_arrow(out, chart, row)?;
    }
    Ok(())
}

/// Adds the arrow of a message that no event of the chart handles.
fn push_leaving_arrow(out: &mut Vec<u8>, chart: &Chart, mail: &LeavingMail) -> Result<(), Memory>
    ensures { OnOk result (out.new.items ≡ out.old.items ++ leaving_arrow chart.now mail.now) }
{
    let from = Point {
        x: chart.column(mail.sender),
        y: y_of(mail.sent),
    };
    let to = Point {
        x: chart.column(mail.to),
        y: y_of(mail.line),
    };
    push_arrow_between(out, b"cut", from, to)
}

/// Adds these arrows.
pub(crate) fn push_leaving_arrows(
    out: &mut Vec<u8>,
    chart: &Chart,
    mails: &[LeavingMail],
) -> Result<(), Memory>
    ensures { OnOk result (out.new.items ≡ out.old.items ++ flat_map (leaving_arrow chart.now) mails.now) }
{
    for mail in mails {
        push_leaving_arrow(out, chart, mail)?;
    }
    Ok(())
}

/// Adds the event's number, before its actor.
#[tactic(auto, unfolding(crate::specs::Elements::attribute, crate::specs::Elements::words_begin))]
fn push_number_begin(out: &mut Vec<u8>, row: &ChartRow) -> Result<(), Memory>
    ensures { OnOk result (out.new.items ≡ out.old.items ++ (words_begin (codes "number") 8 (y_of row.now.line + 4) ++ decimal row.now.event ++ space)) }
{
    push_pieces(
        out,
        &[
            Bytes(b"<text class='denovo-text denovo-number' x='"),
            Long(8),
            Bytes(b"' y='"),
            Long(y_of(row.line) + 4),
            Bytes(b"'>"),
            Number(row.event),
            Bytes(b" "),
        ],
    )
}

/// Adds the event's number and actor.
#[tactic(auto, unfolding(crate::specs::Picture::number_words))]
fn push_number(out: &mut Vec<u8>, row: &ChartRow) -> Result<(), Memory>
    ensures { OnOk result (out.new.items ≡ out.old.items ++ number_words row.now) }
{
    push_number_begin(out, row)?;
    push_actor(out, row.actor)?;
    push_words_end(out)
}

/// Adds the mark of an event of the chain.
#[tactic(auto, unfolding(crate::specs::Picture::ring))]
fn push_ring(out: &mut Vec<u8>, chart: &Chart, row: &ChartRow) -> Result<(), Memory>
    ensures { OnOk result (out.new.items ≡ out.old.items ++ ring chart.now row.now) }
{
    if row.on_chain {
        push_circle(out, b"ring", chart.dot(row), 8)
    } else {
        Ok(())
    }
}

/// Adds the dot of an event.
#[tactic(auto, unfolding(crate::specs::Picture::dot))]
fn push_dot(out: &mut Vec<u8>, chart: &Chart, row: &ChartRow) -> Result<(), Memory>
    ensures { OnOk result (out.new.items ≡ out.old.items ++ dot chart.now row.now) }
{
    push_circle(out, b"event", chart.dot(row), 4)
}

/// Adds what an event or a message is, as words of a class at a point.
fn push_label_words(
    out: &mut Vec<u8>,
    text: &Located,
    class: &[u8],
    at: Point,
    kind: EventKind,
    about: About,
) -> Result<(), Memory>
    ensures { OnOk result (out.new.items ≡ out.old.items ++ words_at class.now at.x at.y (label_text text.now kind about)) }
{
    push_words_begin(out, class, at)?;
    push_label(out, text, kind, about)?;
    push_words_end(out)
}

/// The same beside a point, on the side from which no arrow comes.
fn push_beside(
    out: &mut Vec<u8>,
    text: &Located,
    from_right: bool,
    at: Point,
    kind: EventKind,
    about: About,
) -> Result<(), Memory>
    requires least { 300 ≤ at.x }
    requires most_x { at.x ≤ 4524 }
    requires most_y { at.y ≤ 77309411440 }
    ensures { OnOk result (out.new.items ≡ out.old.items ++ beside from_right at.x at.y (label_text text.now kind about)) }
{
    let Point { x, y } = at;
    let y = y + 4;
    if from_right {
        push_label_words(out, text, b"left", Point { x: x - 14, y }, kind, about)
    } else {
        push_label_words(out, text, b"right", Point { x: x + 14, y }, kind, about)
    }
}

/// Whether the message that an event handles comes from a column to the right.
fn comes_from_right(chart: &Chart, actor: Actor, mail: Option<Origin>) -> bool
    ensures { result ≡ comes_from_right chart.now actor mail }
{
    match mail {
        Some(mail) => chart.column(actor) < chart.column(mail.sender),
        None => false,
    }
}

/// Adds what the event is.
#[tactic(auto, unfolding(crate::specs::Picture::label))]
fn push_row_label(
    out: &mut Vec<u8>,
    chart: &Chart,
    text: &Located,
    row: &ChartRow,
) -> Result<(), Memory>
    ensures { OnOk result (out.new.items ≡ out.old.items ++ label chart.now text.now row.now) }
{
    let from_right = comes_from_right(chart, row.actor, row.mail);
    push_beside(out, text, from_right, chart.dot(row), row.kind, row.about)
}

/// Adds how a task ends, at a point.
fn push_ending_words(out: &mut Vec<u8>, at: Point, end: End) -> Result<(), Memory>
    ensures { OnOk result (out.new.items ≡ out.old.items ++ words_at (codes "end") at.x at.y (task_end_text end)) }
{
    push_words_begin(out, b"end", at)?;
    push_ending(out, end)?;
    push_words_end(out)
}

/// Adds how the task ends with the event, if it does.
fn push_row_ending(out: &mut Vec<u8>, at: Point, end: Option<End>) -> Result<(), Memory>
    requires most_x { at.x ≤ 4524 }
    requires most_y { at.y ≤ 77309411440 }
    ensures { OnOk result (out.new.items ≡ out.old.items ++ ending_words at.x at.y end) }
{
    let Some(end) = end else {
        return Ok(());
    };
    let below = Point {
        x: at.x + 14,
        y: at.y + 22,
    };
    push_ending_words(out, below, end)
}

/// Adds a change.
#[tactic(auto, unfolding(crate::specs::Elements::attribute, crate::specs::Picture::change_words))]
fn push_change(out: &mut Vec<u8>, text: &Located, x: u64, change: WordChange) -> Result<(), Memory>
    ensures { OnOk result (out.new.items ≡ out.old.items ++ change_words text.now x change) }
{
    push_pieces(
        out,
        &[
            Bytes(b"<tspan x='"),
            Long(x),
            Bytes(b"' dy='"),
            Long(18),
            Bytes(b"'>"),
        ],
    )?;
    push_change_text(out, text, change)?;
    push(out, b"</tspan>")
}

fn push_each_change(
    out: &mut Vec<u8>,
    text: &Located,
    x: u64,
    changes: &[WordChange],
) -> Result<(), Memory>
    ensures { OnOk result (out.new.items ≡ out.old.items ++ flat_map (change_words text.now x) changes.now) }
{
    for change in changes {
        push_change(out, text, x, *change)?;
    }
    Ok(())
}

/// Adds the changes of an event, the first of them below a point.
fn push_changes(
    out: &mut Vec<u8>,
    text: &Located,
    above: Point,
    changes: &[WordChange],
) -> Result<(), Memory>
    requires { above.y ≤ 77309411458 }
    ensures { OnOk result (out.new.items ≡ out.old.items ++ changes_below text.now above.x above.y changes.now) }
{
    if changes.is_empty() {
        return Ok(());
    }
    let at = Point {
        x: above.x,
        y: above.y + 4,
    };
    push_words_begin(out, b"change", at)?;
    push_each_change(out, text, above.x, changes)?;
    push_words_end(out)
}

/// How many lines a task's end takes.
fn end_lines(end: Option<End>) -> u64
    ensures value { result ≡ end_lines end }
    ensures most { result ≤ 1 }
{
    match end {
        Some(_) => 1,
        None => 0,
    }
}

/// Adds all that is written for an event but its arrow.
#[tactic(auto, unfolding(crate::specs::Picture::row_words))]
fn push_row(out: &mut Vec<u8>, chart: &Chart, text: &Located, row: &ChartRow) -> Result<(), Memory>
    ensures { OnOk result (out.new.items ≡ out.old.items ++ row_words chart.now text.now row.now) }
{
    let at = chart.dot(row);
    let above = Point {
        x: at.x + 14,
        y: at.y + 18 * end_lines(row.end),
    };
    push_number(out, row)?;
    push_ring(out, chart, row)?;
    push_dot(out, chart, row)?;
    push_row_label(out, chart, text, row)?;
    push_row_ending(out, at, row.end)?;
    push_changes(out, text, above, row.changes.as_slice())
}

/// Adds the same for all events.
pub(crate) fn push_rows(
    out: &mut Vec<u8>,
    chart: &Chart,
    text: &Located,
    rows: &[ChartRow],
) -> Result<(), Memory>
    ensures { OnOk result (out.new.items ≡ out.old.items ++ flat_map (row_words chart.now text.now) rows.now) }
{
    for row in rows {
        push_row(out, chart, text, row)?;
    }
    Ok(())
}

/// Adds what a message is that no event of the chart handles.
fn push_leaving(
    out: &mut Vec<u8>,
    chart: &Chart,
    text: &Located,
    mail: &LeavingMail,
) -> Result<(), Memory>
    ensures { OnOk result (out.new.items ≡ out.old.items ++ leaving_words chart.now text.now mail.now) }
{
    let at = Point {
        x: chart.column(mail.to),
        y: y_of(mail.line),
    };
    let from_right = at.x < chart.column(mail.sender);
    push_beside(out, text, from_right, at, mail.kind, mail.about)
}

/// Adds the same for all of them.
pub(crate) fn push_leaving_mails(
    out: &mut Vec<u8>,
    chart: &Chart,
    text: &Located,
    mails: &[LeavingMail],
) -> Result<(), Memory>
    ensures { OnOk result (out.new.items ≡ out.old.items ++ flat_map (leaving_words chart.now text.now) mails.now) }
{
    for mail in mails {
        push_leaving(out, chart, text, mail)?;
    }
    Ok(())
}

/// Adds that a task waits for a lock.
#[tactic(auto, unfolding(crate::specs::Picture::waiting_words))]
fn push_waiting_task(
    out: &mut Vec<u8>,
    chart: &Chart,
    text: &Located,
    task: &WaitingTask,
) -> Result<(), Memory>
    ensures { OnOk result (out.new.items ≡ out.old.items ++ waiting_words chart.now text.now task.now) }
{
    let at = Point {
        x: chart.column(Actor::Core(task.core)) + 14,
        y: y_of(task.line) + 4,
    };
    push_words_begin(out, b"end", at)?;
    push_waiting(out, text, task.lock)?;
    push_words_end(out)
}

/// Adds the same for all that wait.
pub(crate) fn push_waiting_tasks(
    out: &mut Vec<u8>,
    chart: &Chart,
    text: &Located,
    tasks: &[WaitingTask],
) -> Result<(), Memory>
    ensures { OnOk result (out.new.items ≡ out.old.items ++ flat_map (waiting_words chart.now text.now) tasks.now) }
{
    for task in tasks {
        push_waiting_task(out, chart, text, task)?;
    }
    Ok(())
}
