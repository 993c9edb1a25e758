//! What a chart keeps of the events of its range.
ghost use Rattle.std.specs.Prelude.{◌≡◌, ◌+◌, ◌≤◌, ◌&&◌, ◌++◌, filter, length, map, IfOk, OnOk};
ghost use Rattle.std.specs.List.{list_any};
ghost use Rattle.run_chart.specs.Arrows.{line_of_event};
ghost use Rattle.run_chart.specs.Drawing.{row_lines};
ghost use Rattle.run_chart.specs.Keeping.{accesses, chart_by, ends_early, event_on_line, has_to_do, is_about, is_asked_for, comes_behind, is_in_window, is_kept, is_later, is_of_actors, is_of_marked, is_of_words, is_plain, kept_changes, kept_chart, left_from, left_below, line_after, line_of, mail_behind, handled_mail, mails_behind, moved_from, moved_line, moved_origin, row_from, rows_from, shows_plain, tasks_from, tasks_below, waits_below, with_origin, with_origins};
ghost use Rattle.run_chart.specs.Choosing.{is_all, note_by, note_of};
ghost use Rattle.run_chart.specs.Places.{is_shown};

use crate::choosing::note;
use crate::finishing::{Columns, shown_actors};
use crate::parts::{About, Chart, ChartRow, Fit, LeavingMail, Origin, WaitingTask};
use crate::states::WordChange;
use dn_base::{Memory, Sequence, Shape};
use rv_core::{End, Need};
use std::alloc::Global;
use text_places::Located;

/// Which plain instructions have rows: those that access no memory and no lock, send nothing and end nothing.
#[derive(Clone, Copy, PartialEq, Eq)]
pub enum PlainRows {
    /// All of them.
    All,
    /// Those of the first code word of their source line: the first row of an `la` or `li` stands for both words.
    Lines,
    /// None.
    Hidden,
}

/// Events that follow each other in a run, by their numbers.
#[derive(Clone, Copy, PartialEq, Eq)]
pub struct Window {
    /// The first of them.
    pub first: u32,
    /// The first event behind them.
    pub behind: u32,
}

/// Which events of its range a chart keeps. An event has a row if it is asked for as a plain instruction, if it is one, for its words,
/// for its actor, and for its number.
#[derive(Drop)]
pub struct Keeping {
    /// Which plain instructions are kept.
    pub plain: PlainRows,
    /// A mark for each code word, by its number: those that aren't the first of their source line.
    pub later_words: Sequence<bool>,
    /// A mark for each data word, by its number: events are kept that have to do with a marked one or end a phase. Without marks
    /// all events are. A last mark, which is of no word and isn't set, tells "none" from "all" where there are no data words.
    pub words: Sequence<bool>,
    /// A mark for each actor, by its index: the events of marked actors are kept. Without marks those of all are.
    pub actors: Sequence<bool>,
    /// The events of a slide. Without a window all events of the range are asked for.
    pub window: Option<Window>,
}

/// The greatest number of lines that a chart may have.
const MOST_LINES: usize = 4_294_967_295;

/// Whether there is a mark with an index, and it is set.
fn is_marked(marks: &[bool], index: u32) -> bool
    ensures { result ≡ is_shown marks.now index }
{
    match marks.get(index as usize) {
        Some(mark) => *mark,
        None => false,
    }
}

/// Whether the instruction of a row needs nothing but registers of its task.
pub(crate) fn is_plain(row: &ChartRow) -> bool
    ensures { result ≡ is_plain row.now }
{
    match row.need {
        Some(Need::Local) => true,
        _ => false,
    }
}

/// Whether an instruction's code word is marked as one that doesn't begin its source line.
fn is_later(marks: &[bool], about: About) -> bool
    ensures { result ≡ is_later marks.now about }
{
    match about {
        About::Code(number) => is_marked(marks, number),
        _ => false,
    }
}

/// Whether an event is one of a window, if there is one.
fn is_in_window(window: Option<Window>, event: u32) -> bool
    ensures { result ≡ is_in_window window event }
{
    match window {
        Some(window) => window.first <= event && event < window.behind,
        None => true,
    }
}

/// Whether an event comes behind the window.
fn comes_behind(window: Option<Window>, event: u32) -> bool
    ensures { result ≡ comes_behind window event }
{
    match window {
        Some(window) => window.behind <= event,
        None => false,
    }
}

/// Whether the window ends before a run of this many events does.
fn ends_early(window: Option<Window>, events: u32) -> bool
    ensures { result ≡ ends_early window events }
{
    match window {
        Some(window) => window.behind < events,
        None => false,
    }
}

impl PlainRows {
    /// Whether all plain instructions have rows.
    pub(crate) fn is_all(self) -> bool
        ensures { result ≡ is_all self }
    {
        match self {
            PlainRows::All => true,
            PlainRows::Lines => false,
            PlainRows::Hidden => false,
        }
    }

    /// Whether a plain instruction has a row, by its code word.
    fn shows(self, marks: &[bool], about: About) -> bool
        ensures { result ≡ shows_plain self marks.now about }
    {
        match self {
            PlainRows::All => true,
            PlainRows::Lines => !is_later(marks, about),
            PlainRows::Hidden => false,
        }
    }
}

/// Whether an instruction accesses a marked word, by its need.
fn accesses(marks: &[bool], need: Option<Need>) -> bool
    ensures { result ≡ accesses marks.now need }
{
    match need {
        Some(Need::Load { word }) => is_marked(marks, word.0),
        Some(Need::Store { word, whole: _ }) => is_marked(marks, word.0),
        _ => false,
    }
}

/// Whether an event or its message is about a marked word.
fn is_about(marks: &[bool], about: About) -> bool
    ensures { result ≡ is_about marks.now about }
{
    match about {
        About::Word(word) => is_marked(marks, word.0),
        _ => false,
    }
}

/// Whether a change is one of a marked word.
fn is_of_marked(marks: &[bool], change: &WordChange) -> bool
    ensures { result ≡ is_of_marked marks.now change.now }
{
    is_marked(marks, change.word.0)
}

/// Whether one of the changes is.
fn changes_one(marks: &[bool], changes: &[WordChange]) -> bool
    ensures { result ≡ list_any (is_of_marked marks.now) changes.now }
{
    changes.iter().any(|change| is_of_marked(marks, change))
}

/// Whether an event has to do with marked words.
fn has_to_do(marks: &[bool], row: &ChartRow) -> bool
    ensures { result ≡ has_to_do marks.now row.now }
{
    accesses(marks, row.need)
        || is_about(marks, row.about)
        || changes_one(marks, row.changes.as_slice())
}

/// Whether an event is kept for the words that are marked.
fn is_of_words(marks: &[bool], row: &ChartRow) -> bool
    ensures { result ≡ is_of_words marks.now row.now }
{
    marks.is_empty() || row.ends_phase || has_to_do(marks, row)
}

/// Whether an actor's events are kept, by its index.
fn is_of_actors(marks: &[bool], index: usize) -> bool
    ensures { result ≡ is_of_actors marks.now index }
{
    marks.is_empty()
        || match marks.get(index) {
            Some(mark) => *mark,
            None => false,
        }
}

/// The same changes once more.
fn copy_of(alloc: Global, changes: &[WordChange]) -> Result<Sequence<WordChange>, Memory>
    ensures { IfOk result (λ copy. copy ≡ changes.now) }
{
    Ok(Sequence::from_vec(Vec::from_slice(alloc, changes)?))
}

/// The changes of marked words.
fn marked_changes(
    alloc: Global,
    marks: &[bool],
    changes: &[WordChange],
) -> Result<Sequence<WordChange>, Memory>
    ensures { IfOk result (λ marked. marked ≡ filter (is_of_marked marks.now) changes.now) }
{
    let mut marked = Sequence::new(alloc);
    for change in changes {
        if is_of_marked(marks, change) {
            marked.push(*change)?;
        }
    }
    Ok(marked)
}

/// The changes of marked words; of all words where there are no marks.
fn kept_changes(
    alloc: Global,
    marks: &[bool],
    changes: &[WordChange],
) -> Result<Sequence<WordChange>, Memory>
    ensures { IfOk result (λ kept. kept ≡ kept_changes marks.now changes.now) }
{
    if marks.is_empty() {
        copy_of(alloc, changes)
    } else {
        marked_changes(alloc, marks, changes)
    }
}

/// How many lines a row has with these changes.
fn lines_with(end: Option<End>, changes: &[WordChange]) -> Result<u32, Memory>
    ensures { IfOk result (λ lines. lines ≡ row_lines end changes.now) }
{
    let others = match end {
        Some(_) => 2,
        None => 1,
    };
    if changes.len() < MOST_LINES - 2 {
        Ok(others + changes.len() as u32)
    } else {
        Err(Memory)
    }
}

/// The line that is so many lines after another.
fn line_behind(line: u32, lines: u32) -> Result<u32, Memory>
    ensures { IfOk result (λ behind. behind ≡ line + lines) }
{
    match line.checked_add(lines) {
        Some(behind) => Ok(behind),
        None => Err(Memory),
    }
}

/// A row from another line on, with the changes of marked words.
fn row_from(alloc: Global, marks: &[bool], line: u32, row: &ChartRow) -> Result<ChartRow, Memory>
    ensures { IfOk result (λ kept. kept ≡ row_from marks.now line row.now) }
{
    let changes = kept_changes(alloc, marks, row.changes.as_slice())?;
    Ok(ChartRow {
        event: row.event,
        actor: row.actor,
        kind: row.kind,
        about: row.about,
        need: row.need,
        phase: row.phase,
        ends_phase: row.ends_phase,
        line,
        lines: lines_with(row.end, changes.as_slice())?,
        mail: row.mail,
        changes,
        end: row.end,
        on_chain: row.on_chain,
    })
}

/// The line on which the row of an event begins.
fn line_of_event(event: u32, rows: &[ChartRow]) -> Option<u32>
    ensures { result ≡ line_of_event event rows.now }
{
    for row in rows {
        if row.event == event {
            return Some(row.line);
        }
    }
    None
}

/// The event whose row begins on a line.
fn event_on_line(line: u32, rows: &[ChartRow]) -> Option<u32>
    ensures { result ≡ event_on_line line rows.now }
{
    for row in rows {
        if row.line == line {
            return Some(row.event);
        }
    }
    None
}

/// The line that the row on a line has among those that are kept; None where its event is left out.
fn moved_line(whole: &[ChartRow], kept: &[ChartRow], line: u32) -> Option<u32>
    ensures { result ≡ moved_line whole.now kept.now line }
{
    match event_on_line(line, whole) {
        Some(event) => line_of_event(event, kept),
        None => None,
    }
}

/// The line on which an arrow begins now.
fn moved_from(whole: &[ChartRow], kept: &[ChartRow], line: Option<u32>) -> Option<u32>
    ensures { result ≡ moved_from whole.now kept.now line }
{
    match line {
        Some(line) => moved_line(whole, kept, line),
        None => None,
    }
}

/// Where a message comes from, among the rows that are kept.
fn moved_origin(whole: &[ChartRow], kept: &[ChartRow], mail: Option<Origin>) -> Option<Origin>
    ensures { result ≡ moved_origin whole.now kept.now mail }
{
    match mail {
        Some(mail) => Some(Origin {
            sender: mail.sender,
            line: moved_from(whole, kept, mail.line),
        }),
        None => None,
    }
}

/// A row whose message comes from there.
fn with_mail(alloc: Global, row: &ChartRow, mail: Option<Origin>) -> Result<ChartRow, Memory>
    ensures { IfOk result (λ made. made ≡ record row.now { mail = mail }) }
{
    Ok(ChartRow {
        event: row.event,
        actor: row.actor,
        kind: row.kind,
        about: row.about,
        need: row.need,
        phase: row.phase,
        ends_phase: row.ends_phase,
        line: row.line,
        lines: row.lines,
        mail,
        changes: copy_of(alloc, row.changes.as_slice())?,
        end: row.end,
        on_chain: row.on_chain,
    })
}

/// The rows that are kept, with the lines on which their arrows begin.
fn with_origins(
    alloc: Global,
    whole: &[ChartRow],
    kept: &[ChartRow],
) -> Result<Sequence<ChartRow>, Memory>
    ensures { IfOk result (λ rows. rows ≡ with_origins whole.now kept.now) }
{
    let mut rows = Sequence::new(alloc);
    for row in kept {
        let mail = moved_origin(whole, kept, row.mail);
        rows.push(with_mail(alloc, row, mail)?)?;
    }
    Ok(rows)
}

/// The messages in flight behind the range that events with a row sent, each on a line of its own from this one on; and the line
/// after them.
fn left_mails(
    alloc: Global,
    whole: &[ChartRow],
    kept: &[ChartRow],
    line: u32,
    mails: &[LeavingMail],
) -> Result<Sequence<LeavingMail>, Memory>
    ensures { IfOk result (λ left. left ≡ left_from whole.now kept.now line mails.now) }
{
    let mut left = Sequence::new(alloc);
    let mut line = line;
    for mail in mails {
        if let Some(sent) = moved_line(whole, kept, mail.sent) {
            left.push(LeavingMail {
                sender: mail.sender,
                sent,
                to: mail.to,
                kind: mail.kind,
                about: mail.about,
                line,
            })?;
            line = line_behind(line, 1)?;
        }
    }
    Ok(left)
}

/// The message that a row's event handles, if a row sent it.
fn handled_mail(row: &ChartRow) -> Option<LeavingMail>
    ensures { result ≡ handled_mail row.now row.now.mail }
{
    match row.mail {
        Some(
            Origin {
                sender,
                line: Some(sent),
            },
        ) => Some(LeavingMail {
            sender,
            sent,
            to: row.actor,
            kind: row.kind,
            about: row.about,
            line: 0,
        }),
        _ => None,
    }
}

/// The message that an event behind the window handles.
fn mail_behind(window: Option<Window>, row: &ChartRow) -> Option<LeavingMail>
    ensures { result ≡ mail_behind window row.now }
{
    if comes_behind(window, row.event) {
        handled_mail(row)
    } else {
        None
    }
}

/// The messages that events behind the window handle.
fn mails_behind(
    alloc: Global,
    window: Option<Window>,
    rows: &[ChartRow],
) -> Result<Sequence<LeavingMail>, Memory>
    ensures { IfOk result (λ mails. mails ≡ mails_behind window rows.now) }
{
    let mut mails = Sequence::new(alloc);
    for row in rows {
        if let Some(mail) = mail_behind(window, row) {
            mails.push(mail)?;
        }
    }
    Ok(mails)
}

/// Messages, and after them others.
fn with_others(
    mails: Sequence<LeavingMail>,
    others: &[LeavingMail],
) -> Result<Sequence<LeavingMail>, Memory>
    ensures { IfOk result (λ both. both ≡ mails ++ others.now) }
{
    let mut mails = mails;
    for other in others {
        mails.push(*other)?;
    }
    Ok(mails)
}

/// The tasks that wait for a lock, each on a line of its own; only those of marked cores where actors are marked.
fn waiting_tasks(
    alloc: Global,
    marks: &[bool],
    line: u32,
    tasks: &[WaitingTask],
) -> Result<Sequence<WaitingTask>, Memory>
    ensures { IfOk result (λ kept. kept ≡ tasks_from marks.now line tasks.now) }
{
    let mut kept = Sequence::new(alloc);
    let mut line = line;
    for task in tasks {
        if is_of_actors(marks, task.core.0 as usize) {
            kept.push(WaitingTask {
                core: task.core,
                lock: task.lock,
                line,
            })?;
            line = line_behind(line, 1)?;
        }
    }
    Ok(kept)
}

/// How many lines are before this one if so many things have a line each after another.
fn lines_behind(line: u32, count: usize) -> Result<u32, Memory>
    ensures { IfOk result (λ behind. behind ≡ line + count) }
{
    if count <= MOST_LINES {
        line_behind(line, count as u32)
    } else {
        Err(Memory)
    }
}

impl Keeping {
    /// Whether the event of a row is asked for, on a machine of this shape.
    fn is_asked_for(&self, shape: Shape, row: &ChartRow) -> bool
        ensures { result ≡ is_asked_for self.now shape row.now }
    {
        (!is_plain(row) || self.plain.shows(self.later_words.as_slice(), row.about))
            && is_of_words(self.words.as_slice(), row)
            && is_of_actors(
                self.actors.as_slice(),
                row.actor.index(shape.cores, shape.banks),
            )
    }

    /// Whether it is kept: it is asked for, and one of the window's.
    fn is_kept(&self, shape: Shape, row: &ChartRow) -> bool
        ensures { result ≡ is_kept self.now shape row.now }
    {
        is_in_window(self.window, row.event) && self.is_asked_for(shape, row)
    }

    /// The rows of the events that are kept, one below the other, and the line after them.
    pub(crate) fn rows(
        &self,
        alloc: Global,
        shape: Shape,
        rows: &[ChartRow],
    ) -> Result<(Sequence<ChartRow>, u32), Memory>
        ensures rows { IfOk result (λ kept. kept.0 ≡ rows_from self.now shape 0 rows.now) }
        ensures line { IfOk result (λ kept. kept.1 ≡ line_after self.now shape 0 rows.now) }
    {
        let mut kept = Sequence::new(alloc);
        let mut line = 0;
        for row in rows {
            if self.is_kept(shape, row) {
                let row = row_from(alloc, self.words.as_slice(), line, row)?;
                line = line_behind(line, row.lines)?;
                kept.push(row)?;
            }
        }
        Ok((kept, line))
    }
}

/// The messages that leave the window or the range, each on a line of its own from this one on.
fn leaving_below(
    alloc: Global,
    keeping: &Keeping,
    chart: &Chart,
    placed: &[ChartRow],
    line: u32,
) -> Result<Sequence<LeavingMail>, Memory>
    ensures { IfOk result (λ left. left ≡ left_below keeping.now chart.now placed.now line) }
{
    let whole = chart.rows.as_slice();
    let behind = mails_behind(alloc, keeping.window, whole)?;
    let mails = with_others(behind, chart.leaving.as_slice())?;
    left_mails(alloc, whole, placed, line, mails.as_slice())
}

/// The tasks that wait when the run ends, if the window reaches its end, each on a line of its own from this one on.
fn waiting_below(
    alloc: Global,
    keeping: &Keeping,
    chart: &Chart,
    line: u32,
) -> Result<Sequence<WaitingTask>, Memory>
    ensures { IfOk result (λ kept. kept ≡ waits_below keeping.now chart.now line) }
{
    if ends_early(keeping.window, chart.events) {
        Ok(Sequence::new(alloc))
    } else {
        waiting_tasks(
            alloc,
            keeping.actors.as_slice(),
            line,
            chart.waiting.as_slice(),
        )
    }
}

/// The chart of rows that are kept, which end before a line; their arrows begin where they did in the whole chart.
pub(crate) fn chart_with(
    alloc: Global,
    chart: &Chart,
    keeping: &Keeping,
    columns: Columns,
    fit: Fit,
    note: Sequence<u8>,
    placed: &[ChartRow],
    line: u32,
) -> Result<Chart, Memory>
    ensures { IfOk result (λ kept. kept ≡ chart_by keeping.now columns fit note chart.now placed.now line) }
{
    let rows = with_origins(alloc, chart.rows.as_slice(), placed)?;
    let leaving = leaving_below(alloc, keeping, chart, placed, line)?;
    let behind = lines_behind(line, leaving.len())?;
    let waiting = waiting_below(alloc, keeping, chart, behind)?;
    let lines = lines_behind(behind, waiting.len())?;
    let shown = shown_actors(
        alloc,
        columns,
        rows.as_slice(),
        leaving.as_slice(),
        waiting.as_slice(),
        chart.shape,
    )?;
    Ok(Chart {
        shape: chart.shape,
        fuel: chart.fuel,
        first: chart.first,
        last: chart.last,
        events: chart.events,
        shown,
        rows,
        leaving,
        waiting,
        lines,
        note,
        fit,
    })
}

/// What follows the title of a chart of which these rows are kept.
fn note_with(
    alloc: Global,
    keeping: &Keeping,
    text: &Located,
    chart: &Chart,
    placed: &[ChartRow],
) -> Result<Sequence<u8>, Memory>
    ensures { IfOk result (λ note. note ≡ note_by keeping.now text.now chart.now placed.now) }
{
    let kept = placed.len() as u64;
    let whole = chart.rows.len() as u64;
    note(alloc, keeping, text, chart.shape, kept, whole)
}

/// What is kept of a chart.
///
/// The rows of the events that are kept stand in their order, one below the other. Where words are marked, they have the changes of
/// these words alone. An arrow begins at its sender's row; where the sender's event is left out, it begins at the upper edge of its
/// receiver's row, as one from before the range. A message that no event of the range handles, or one behind the window, has an arrow
/// to a line of its own below the rows if its sender's event is kept. The tasks that wait for a lock at the end of the run are kept if
/// the window reaches that end; where actors are marked, those of marked cores. The title says what is left out, with the names of the
/// given text; it must be the text of the chart's run.
///
/// The cost is that of the rows, and for each message that of going through the rows.
///
/// # Errors
/// `Memory` where there is no room, or where there were more than 4,294,967,295 lines, which no chart of a run has.
pub fn kept_chart(
    alloc: Global,
    chart: &Chart,
    keeping: &Keeping,
    columns: Columns,
    fit: Fit,
    text: &Located,
) -> Result<Chart, Memory>
    ensures { IfOk result (λ kept. kept ≡ kept_chart keeping.now columns fit (note_of keeping.now text.now chart.now) chart.now) }
{
    let (placed, line) = keeping.rows(alloc, chart.shape, chart.rows.as_slice())?;
    let note = note_with(alloc, keeping, text, chart, placed.as_slice())?;
    chart_with(
        alloc,
        chart,
        keeping,
        columns,
        fit,
        note,
        placed.as_slice(),
        line,
    )
}
