ghost use Rattle.std.specs.Prelude.{◌≡◌, ◌++◌, flat_map, IfOk, OnOk};
ghost use Rattle.run_timing.specs.Text.{chain_line, link_line, network_line, time_line, timing_of};

use crate::timing::{Link, Timing};
use dn_base::Memory;
use run_report::event_name;
use std::alloc::Global;
use text_pieces::{push, push_decimal, push_long};

#[tactic(auto, unfolding(crate::specs::Text::time_line))]
fn push_total(out: &mut Vec<u8>, total: u64) -> Result<(), Memory>
    ensures { OnOk result (out.new.items ≡ out.old.items ++ time_line total) }
{
    push(out, b"time ")?;
    push_long(out, total)?;
    push(out, b"\n")
}

#[tactic(auto, unfolding(crate::specs::Text::chain_line))]
fn push_count(out: &mut Vec<u8>, links: u64) -> Result<(), Memory>
    ensures { OnOk result (out.new.items ≡ out.old.items ++ chain_line links) }
{
    push(out, b"chain ")?;
    push_long(out, links)?;
    push(out, b"\n")
}

#[tactic(auto, unfolding(crate::specs::Text::network_line), using(crate::proofs::Shown::nothing_shown))]
fn push_network(out: &mut Vec<u8>, network: Option<u64>) -> Result<(), Memory>
    ensures { OnOk result (out.new.items ≡ out.old.items ++ network_line network) }
{
    match network {
        Some(ticks) => {
            push(out, b"network ")?;
            push_long(out, ticks)?;
            push(out, b"\n")
        }
        None => Ok(()),
    }
}

#[tactic(auto, unfolding(crate::specs::Text::link_line))]
fn push_link(out: &mut Vec<u8>, link: Link) -> Result<(), Memory>
    ensures { OnOk result (out.new.items ≡ out.old.items ++ link_line link) }
{
    push(out, b"link ")?;
    push_decimal(out, link.event)?;
    push(out, b" ")?;
    push(out, event_name(link.kind))?;
    push(out, b" ")?;
    push_long(out, link.finish)?;
    push(out, b"\n")
}

fn push_links(out: &mut Vec<u8>, links: &[Link]) -> Result<(), Memory>
    ensures { OnOk result (out.new.items ≡ out.old.items ++ flat_map link_line links.now) }
{
    for link in links {
        push_link(out, *link)?;
    }
    Ok(())
}

/// Appends the printed timing to a text: how many ticks the run takes, how many links the chain has, in a network with a latency how
/// many of the ticks messages are under way, and for each link, in order, a line with the number of its event, the event's kind and when it finishes.
///
/// # Errors
/// `Memory` if there is no room; the text may have part of the timing then.
#[tactic(auto, unfolding(crate::specs::Text::timing_of))]
pub fn push_timing(out: &mut Vec<u8>, timing: &Timing) -> Result<(), Memory>
    ensures { OnOk result (out.new.items ≡ out.old.items ++ timing_of timing.now) }
{
    push_total(out, timing.total)?;
    push_count(out, timing.links.len() as u64)?;
    push_network(out, timing.network)?;
    push_links(out, timing.links.as_slice())
}

/// The printed timing as a text of its own: what `push_timing` appends.
///
/// # Errors
/// `Memory` where there is no room for the text.
pub fn time_text(alloc: Global, timing: &Timing) -> Result<Vec<u8>, Memory>
    ensures { IfOk result (λ text. text.items ≡ timing_of timing.now) }
{
    let mut out = Vec::new(alloc);
    push_timing(&mut out, timing)?;
    Ok(out)
}
