//! The message chart of a run: which row each event of a range has, where its message comes from, and how words change.
#![tactic(auto)]

mod about;
mod affected;
mod charting;
mod choosing;
mod drawing;
mod elements;
mod finishing;
mod gathering;
mod head;
mod keeping;
mod kept_laws;
mod labels;
mod laws;
mod mails;
mod marks;
mod parts;
mod picture;
mod picture_laws;
mod places;
mod rows;
mod slide_laws;
mod slides;
mod states;
mod words;

pub use charting::{Charted, chart};
pub use choosing::keeping_of;
pub use drawing::Range;
pub use finishing::Columns;
pub use keeping::{Keeping, PlainRows, Window, kept_chart};
pub use kept_laws::{
    arrows_between_rows_that_are_kept, arrows_without_a_receiver_end_on_lines_of_their_own,
    each_event_that_is_kept_has_one_row, rows_and_arrows_that_are_kept_have_columns,
    rows_that_are_kept_do_not_overlap,
};
pub use laws::{
    arrows_lead_from_the_senders_of_mails, each_event_of_the_range_has_one_row,
    rows_and_arrows_have_columns, rows_do_not_overlap, the_events_of_the_chain_are_marked,
};
pub use parts::{About, Chart, ChartRow, Fit, LeavingMail, Origin, WaitingTask};
pub use picture::chart_text;
pub use picture_laws::{
    arrows_without_a_sender_begin_at_marks_of_their_own, different_actors_have_different_columns,
    rows_on_other_lines_are_drawn_apart,
};
pub use slide_laws::{
    a_slide_has_as_many_rows_as_have_room, a_slide_has_room_for_its_lines_and_columns,
    lines_of_a_slide_are_not_made_smaller, rows_of_a_slide_follow_each_other,
};
pub use slides::{columns_on, fitted};
pub use states::{WordChange, WordState};
