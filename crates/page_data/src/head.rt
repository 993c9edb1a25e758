//! The run as a whole: its title, how it ended, how many events it has, and its longest chain.
ghost use Rattle.std.specs.Prelude.{true, ◌≡◌, ◌++◌, ◌∷◌, ◌-◌, ◌&&◌, nat_le, nat_lt, [], length, OnOk};
ghost use Rattle.page_data.specs.Page.{end_row, is_on_page, link_text, chain_texts, outcome_field, ends_field, counts_field, range_fields, run_part, ticks_field, time_fields, chain_field, timing_part, title_part};

use crate::changes::push_cause;
use crate::json::{push_gap, push_named_string};
use crate::lists::{Item, push_named_list};
use crate::page::Page;
use dn_base::Memory;
use run_report::outcome_name;
use run_timing::Link;
use rv_core::TaskEnd;
use text_pieces::Piece::{Bytes, Long, Number};
use text_pieces::{push, push_pieces};

/// Adds how the data begin.
#[tactic(auto, unfolding(crate::specs::Page::title_part))]
pub(crate) fn push_title(out: &mut Vec<u8>, name: &[u8]) -> Result<(), Memory>
    ensures { OnOk result (out.new.items ≡ out.old.items ++ title_part name.now) }
{
    push_named_string(out, b"{\"format\":\"denovo-page 2\",\"name\":", name)
}

/// How a task stands at the end.
impl Item for TaskEnd {
    ghost written = { end_row };

    #[tactic(auto, unfolding(crate::specs::Json::further_all, crate::specs::Page::end_row))]
    fn push_item(&self, out: &mut Vec<u8>) -> Result<(), Memory> {
        push_pieces(
            out,
            &[
                Bytes(b"["),
                Number(self.phase.0),
                Bytes(b","),
                Number(self.core.0),
                Bytes(b","),
                Number(self.retired),
            ],
        )?;
        push_cause(out, self.end)?;
        push(out, b"]")
    }
}

#[tactic(auto, unfolding(crate::specs::Page::outcome_field))]
fn push_outcome(out: &mut Vec<u8>, page: &Page<'_>) -> Result<(), Memory>
    ensures { OnOk result (out.new.items ≡ out.old.items ++ outcome_field page.now) }
{
    push_named_string(out, b",\"outcome\":", outcome_name(page.ending.outcome))
}

#[tactic(auto, unfolding(crate::specs::Page::ends_field))]
fn push_ends_field(out: &mut Vec<u8>, page: &Page<'_>) -> Result<(), Memory>
    ensures { OnOk result (out.new.items ≡ out.old.items ++ ends_field page.now) }
{
    push_named_list(out, b",\"ends\":", page.ending.tasks.as_slice())
}

#[tactic(auto, unfolding(crate::specs::Page::counts_field))]
fn push_counts_field(out: &mut Vec<u8>, page: &Page<'_>) -> Result<(), Memory>
    ensures { OnOk result (out.new.items ≡ out.old.items ++ counts_field page.now) }
{
    push_named_list(out, b",\"counts\":", &page.counts.kinds)
}

#[tactic(auto, unfolding(crate::specs::Page::range_fields))]
fn push_range(out: &mut Vec<u8>, page: &Page<'_>, events: usize) -> Result<(), Memory>
    ensures { OnOk result (out.new.items ≡ out.old.items ++ range_fields page.now events) }
{
    push_pieces(
        out,
        &[
            Bytes(b",\"total\":"),
            Long(events as u64),
            Bytes(b",\"first\":"),
            Number(page.first),
        ],
    )
}

/// Adds how the run ended, how many events of each kind it has, and which the page's first one is.
#[tactic(auto, unfolding(crate::specs::Page::run_part))]
pub(crate) fn push_run(out: &mut Vec<u8>, page: &Page<'_>, events: usize) -> Result<(), Memory>
    ensures { OnOk result (out.new.items ≡ out.old.items ++ run_part page.now events) }
{
    push_outcome(out, page)?;
    push_ends_field(out, page)?;
    push_counts_field(out, page)?;
    push_range(out, page, events)
}

/// Whether an event is one of the page's.
fn is_on_page(page: &Page<'_>, event: u32) -> bool
    ensures { result ≡ is_on_page page.now event }
{
    page.first <= event && event - page.first < page.most
}

#[tactic(auto, unfolding(crate::specs::Page::link_text))]
fn push_link(out: &mut Vec<u8>, link: &Link) -> Result<(), Memory>
    ensures { OnOk result (out.new.items ≡ out.old.items ++ link_text link.now) }
{
    push_pieces(
        out,
        &[
            Bytes(b"["),
            Number(link.event),
            Bytes(b","),
            Long(link.finish),
            Bytes(b"]"),
        ],
    )
}

/// Adds those events of the longest chain that are on the page.
fn push_chain(out: &mut Vec<u8>, page: &Page<'_>, links: &[Link]) -> Result<(), Memory>
    ensures { OnOk result (out.new.items ≡ out.old.items ++ chain_texts page.now true links.now) }
{
    let mut first = true;
    for link in links {
        if is_on_page(page, link.event) {
            push_gap(out, first)?;
            push_link(out, link)?;
            first = false;
        }
    }
    Ok(())
}

#[tactic(auto, unfolding(crate::specs::Json::further_all, crate::specs::Page::ticks_field))]
fn push_ticks(out: &mut Vec<u8>, page: &Page<'_>) -> Result<(), Memory>
    ensures { OnOk result (out.new.items ≡ out.old.items ++ ticks_field page.now) }
{
    push_pieces(
        out,
        &[
            Bytes(b",\"ticks\":["),
            Number(page.tick_core),
            Bytes(b","),
            Number(page.tick_bank),
            Bytes(b","),
            Number(page.tick_mail),
            Bytes(b"]"),
        ],
    )
}

#[tactic(auto, unfolding(crate::specs::Page::time_fields))]
fn push_time(out: &mut Vec<u8>, page: &Page<'_>) -> Result<(), Memory>
    ensures { OnOk result (out.new.items ≡ out.old.items ++ time_fields page.now) }
{
    push_pieces(
        out,
        &[
            Bytes(b",\"time\":"),
            Long(page.timing.total),
            Bytes(b",\"links\":"),
            Long(page.timing.links.len() as u64),
        ],
    )
}

#[tactic(auto, unfolding(crate::specs::Page::chain_field))]
fn push_chain_field(out: &mut Vec<u8>, page: &Page<'_>) -> Result<(), Memory>
    ensures { OnOk result (out.new.items ≡ out.old.items ++ chain_field page.now) }
{
    push(out, b",\"chain\":[")?;
    push_chain(out, page, page.timing.links.as_slice())?;
    push(out, b"]")
}

/// Adds how long the run takes, and its longest chain.
#[tactic(auto, unfolding(crate::specs::Page::timing_part))]
pub(crate) fn push_timing(out: &mut Vec<u8>, page: &Page<'_>) -> Result<(), Memory>
    ensures { OnOk result (out.new.items ≡ out.old.items ++ timing_part page.now) }
{
    push_ticks(out, page)?;
    push_time(out, page)?;
    push_chain_field(out, page)
}
