use dn_base::Sequence;
use run_account::{Form, Grouping};
use run_chart::{Columns, Fit, PlainRows};
use state_text::Base;

/// What is made of the trace, and with which options. Each mode has its own options, and ignores those of the other modes.
#[derive(Drop)]
pub enum View {
    /// The message chart of the run, as an SVG text.
    Chart(ChartOptions),
    /// What the run cost and why, in numbers.
    Account(AccountOptions),
    /// The run beside lists of sharers, in numbers.
    Lists(AccountOptions),
    /// The messages of the run by their kinds and the bytes of these, beside those with lists of sharers.
    Traffic(AccountOptions),
    /// A state of the run, and what is enabled there.
    State(StateOptions),
    /// The answer of the run for readers: tasks, regions and locks by their names.
    Answer(AnswerOptions),
    /// The data of the page that shows the run in a browser, as one JSON text.
    Page(PageOptions),
    /// The data of the run for other programs, as one JSON text.
    Data(PageOptions),
}

/// What the words ask of how a chart is drawn.
#[derive(Clone, Copy)]
pub struct PictureOptions {
    /// Which cores and banks have a column.
    pub columns: Columns,
    /// Which plain instructions have rows.
    pub plain: PlainRows,
    /// How large the picture is.
    pub fit: Fit,
}

/// What the words ask of a chart.
#[derive(Drop)]
pub struct ChartOptions {
    /// The number of the first event that has a row, from 0.
    pub first: u32,
    /// The greatest number of rows, from 1 to 4,096.
    pub rows: u32,
    /// How it is drawn.
    pub picture: PictureOptions,
    /// The words to which events with a row have to do, by their names with commas between them; empty for all.
    pub words: Sequence<u8>,
    /// The actors of these events, by their names with commas between them; empty for all.
    pub actors: Sequence<u8>,
    /// Ticks of a core's own event, from 1 to 1,000,000.
    pub tick_core: u32,
    /// Ticks of a bank's event, from 1 to 1,000,000.
    pub tick_bank: u32,
    /// Ticks of each other event, from 1 to 1,000,000.
    pub tick_mail: u32,
}

/// What the words ask of an account, of a run beside lists of sharers, and of its traffic.
#[derive(Clone, Copy)]
pub struct AccountOptions {
    /// What the groups of its numbers are.
    pub by: Grouping,
    /// How it is printed.
    pub form: Form,
}

/// What the words ask of a state.
#[derive(Clone, Copy)]
pub struct StateOptions {
    /// The number of the event, from 0, before which the state is. The number of all events asks for the state after the last
    /// one.
    pub event: u32,
}

/// What the words ask of an answer for readers.
#[derive(Clone, Copy)]
pub struct AnswerOptions {
    /// In which base its data words are written.
    pub base: Base,
}

/// What the words ask of a page, and of the data of a run.
#[derive(Clone, Copy)]
pub struct PageOptions {
    /// The number of the page's first event, from 0.
    pub first: u32,
    /// How many events the page has at most, from 1 to 20,000; those of a run's data have no limit.
    pub rows: u32,
    /// Ticks of a core's own event, from 1 to 1,000,000.
    pub tick_core: u32,
    /// Ticks of a bank's event, from 1 to 1,000,000.
    pub tick_bank: u32,
    /// Ticks of each other event, from 1 to 1,000,000.
    pub tick_mail: u32,
}
