//! The table of runs.
ghost use Rattle.std.specs.Prelude.{◌≡◌, ◌<◌, ◌≤◌, ◌+◌, ◌++◌, flat_map, IfOk, OnOk};
ghost use Rattle.dn_machine.specs.Kept.{IsInitialMachine};
ghost use Rattle.checked_runs.specs.Runs.{IsPrintable};
ghost use Rattle.dn_top.specs.Runs.{shape_for};
ghost use Rattle.sweep_top.specs.Runs.{options_at};
ghost use Rattle.sweep_top.specs.Table.{checksum_cell, count_cell, counts_part, table_head, table_row, HasRunRow, HasRunRows};

use crate::hashing::{checksum, push_long_hexadecimal};
use crate::options::{Seeds, SweepOptions};
use crate::running::run_of;
use dn_base::Memory;
use dn_machine::{Machine, RunRecord};
use run_report::{answer_text, event_count, grant_text, outcome_name, retired_by_all};
use std::alloc::Global;
use text_pieces::{push, push_decimal, push_long};

/// Appends a cell with a count.
pub(crate) fn push_count(out: &mut Vec<u8>, count: u64) -> Result<(), Memory>
    ensures { OnOk result (out.new.items ≡ out.old.items ++ count_cell count) }
{
    push(out, b",")?;
    push_long(out, count)
}

/// Appends a cell for each of these counts.
fn push_counts(out: &mut Vec<u8>, counts: &[u64]) -> Result<(), Memory>
    ensures { OnOk result (out.new.items ≡ out.old.items ++ flat_map count_cell counts.now) }
{
    for count in counts {
        push_count(out, *count)?;
    }
    Ok(())
}

/// Appends a cell with the checksum of a text.
#[tactic(auto, unfolding(crate::specs::Table::checksum_cell))]
pub(crate) fn push_checksum(out: &mut Vec<u8>, text: &[u8]) -> Result<(), Memory>
    ensures { OnOk result (out.new.items ≡ out.old.items ++ checksum_cell text.now) }
{
    push(out, b",")?;
    push_long_hexadecimal(out, checksum(text))
}

/// Appends the first cells of a row: the seed, the outcome, the retired instructions, and the counts of events.
#[tactic(auto, unfolding(crate::specs::Table::counts_part))]
fn push_counts_part(out: &mut Vec<u8>, seed: u32, run: &RunRecord) -> Result<(), Memory>
    requires { IsPrintable run.now }
    ensures { OnOk result (out.new.items ≡ out.old.items ++ counts_part seed run.now) }
{
    push_decimal(out, seed)?;
    push(out, b",")?;
    push(out, outcome_name(run.ending.outcome))?;
    push_count(out, retired_by_all(run.ending.tasks.as_slice()))?;
    push_count(out, event_count(&run.counts.kinds))?;
    push_counts(out, &run.counts.kinds)
}

/// Appends the row of a seed's run.
#[tactic(auto, unfolding(crate::specs::Table::table_row))]
fn push_row(out: &mut Vec<u8>, alloc: Global, seed: u32, run: &RunRecord) -> Result<(), Memory>
    requires { IsPrintable run.now }
    ensures { OnOk result (out.new.items ≡ out.old.items ++ table_row seed run.now) }
{
    push_counts_part(out, seed, run)?;
    push_checksum(out, answer_text(alloc, &run.ending)?.as_slice())?;
    push_checksum(out, grant_text(alloc, run.grants.as_slice())?.as_slice())?;
    push(out, b"\n")
}

/// Makes the run of a seed, and appends its row.
fn push_run(
    out: &mut Vec<u8>,
    alloc: Global,
    options: &SweepOptions,
    machine: &Machine,
    seed: u32,
) -> Result<(), Memory>
    requires { IsInitialMachine machine.now.state.setting.program (shape_for machine.now.state.setting.program (options_at options.now 0)) options.now.fuel machine.now }
    ensures { OnOk result (HasRunRow machine.now.state.setting.program options.now seed out.old.items out.new.items) }
{
    let run = run_of(alloc, options, machine, seed)?;
    push_row(out, alloc, seed, &run)
}

/// Makes the runs of all these seeds, and appends their rows.
fn push_runs(
    out: &mut Vec<u8>,
    alloc: Global,
    options: &SweepOptions,
    machine: &Machine,
    seeds: Seeds,
) -> Result<(), Memory>
    requires seeds { seeds.first ≤ seeds.last }
    requires machine { IsInitialMachine machine.now.state.setting.program (shape_for machine.now.state.setting.program (options_at options.now 0)) options.now.fuel machine.now }
    ensures { OnOk result (HasRunRows machine.now.state.setting.program options.now seeds.first (seeds.last + 1) out.old.items out.new.items) }
{
    // the last seed stands behind the loop, since it may be the greatest number
    for seed in seeds.first..seeds.last {
        push_run(out, alloc, options, machine, seed)?;
    }
    push_run(out, alloc, options, machine, seeds.last)
}

/// The head line.
#[tactic(auto, unfolding(crate::specs::Table::table_head, run_report::specs::Run::all_kinds))]
fn head() -> &'static [u8]
    ensures { result.now ≡ table_head }
{
    b"seed,outcome,retired,events,instr,evict,arrive,read-req,read-fwd,data-reply,reg-req,reg-fwd,reg-ack,write-back,wb-ack,acquire,release,grant,arrived,go,halt,answer,grants\n"
}

/// The table of the runs of all seeds that are asked for.
///
/// # Errors
/// `Memory` where there is no room for a run or the table.
pub(crate) fn table(
    alloc: Global,
    options: &SweepOptions,
    machine: &Machine,
) -> Result<Vec<u8>, Memory>
    requires seeds { options.now.seeds.first ≤ options.now.seeds.last }
    requires machine { IsInitialMachine machine.now.state.setting.program (shape_for machine.now.state.setting.program (options_at options.now 0)) options.now.fuel machine.now }
    ensures { IfOk result (λ text. HasRunRows machine.now.state.setting.program options.now options.now.seeds.first (options.now.seeds.last + 1) table_head text.items) }
{
    let mut out = Vec::new(alloc);
    push(&mut out, head())?;
    push_runs(&mut out, alloc, options, machine, options.seeds)?;
    Ok(out)
}
