//! The modes lists and traffic: a run beside lists of sharers, in numbers.
ghost use Rattle.std.specs.Prelude.{◌≡◌, ◌+◌, ◌≤◌, ◌++◌, length, IfOk, IfErr, OnOk};
ghost use Rattle.machine_rules.specs.Runs.{IsRun};
ghost use Rattle.run_account.specs.Runs.{count_of_run, nothing_listed};
ghost use Rattle.run_report.specs.Texts.{HasProgram, IsStop};
ghost use Rattle.checked_runs.specs.Documents.{IsRefusedDocument, shape_told};
ghost use Rattle.view_top.specs.Answers.{heading_of, made, text_of_numbers, HasKeptRun, IsBeside, IsListingOf};
ghost use Rattle.view_top.specs.Kept.{IsMachineOf, IsViewable};

use crate::AccountOptions;
use crate::accounts::heading;
use crate::answering::{Output, done_with};
use crate::documents::{DocumentRun, KeptRun, begin_again, document_run};
use dn_base::Memory;
use dn_machine::Machine;
use message_net::Event;
use region_table::Program;
use run_account::{AccountTable, Form, Grouping, Listing, listing_of, push_lists, push_traffic};
use run_report::Stop;
use std::alloc::Global;

/// A run's events beside lists on its machine, in these groups.
fn count(
    alloc: Global,
    machine: &mut Machine,
    events: &[Event],
    by: Grouping,
) -> Result<Listing, Memory>
    requires run { IsRun machine.old.state events.now }
    requires few { machine.old.made + length events.now ≤ 4000000000 }
    ensures listing { IfOk result (λ listing. listing ≡ count_of_run machine.old.state (nothing_listed machine.old.state.setting by) events.now) }
    ensures setting { OnOk result (machine.new.state.setting ≡ machine.old.state.setting) }
{
    match listing_of(alloc, machine, events, by)? {
        Some(listing) => Ok(listing),
        None => unreachable!(),
    }
}

/// A kept run's events beside lists, in these groups.
fn listing_of_kept(
    alloc: Global,
    by: Grouping,
    kept: &KeptRun,
    machine: &mut Machine,
) -> Result<Listing, Memory>
    requires kept { IsViewable kept.now }
    requires machine { IsMachineOf kept.now machine.old }
    ensures listing { IfOk result (λ listing. HasProgram kept.now.text (λ P. IsListingOf P (shape_told P kept.now.sizes) kept.now.sizes.fuel kept.now.run.events by listing.tallies)) }
    ensures machine { OnOk result (IsMachineOf kept.now machine.new) }
{
    begin_again(alloc, kept, machine)?;
    count(alloc, machine, kept.run.events.as_slice(), by)
}

/// Which numbers of a run beside lists are printed.
#[derive(Clone, Copy)]
pub(crate) enum Numbers {
    /// Those of the run beside lists.
    Lists,
    /// Those of its traffic.
    Traffic,
}

/// Appends these numbers.
fn push_numbers(
    out: &mut Vec<u8>,
    which: Numbers,
    form: Form,
    program: &Program,
    table: &AccountTable,
) -> Result<(), Memory>
    ensures { OnOk result (out.new.items ≡ out.old.items ++ text_of_numbers which form program.now table.now) }
{
    match which {
        Numbers::Lists => push_lists(out, form, program, table),
        Numbers::Traffic => push_traffic(out, form, program, table),
    }
}

/// A run beside lists, as it is printed.
fn print(
    alloc: Global,
    which: Numbers,
    form: Form,
    kept: &KeptRun,
    machine: &Machine,
    listing: &Listing,
) -> Result<Output, Memory>
    requires kept { IsViewable kept.now }
    requires machine { IsMachineOf kept.now machine.now }
    ensures { IfOk result (λ out. HasProgram kept.now.text (λ P. out ≡ made (heading_of form kept.now.run ++ text_of_numbers which form P listing.now.tallies))) }
{
    let mut text = heading(alloc, form, &kept.run)?;
    push_numbers(&mut text, which, form, machine.program(), listing.table())?;
    Ok(done_with(text))
}

/// A run beside lists, as the options ask for it.
fn beside(
    alloc: Global,
    which: Numbers,
    options: &AccountOptions,
    kept: &KeptRun,
    machine: &mut Machine,
) -> Result<Output, Memory>
    requires kept { IsViewable kept.now }
    requires machine { IsMachineOf kept.now machine.old }
    ensures { IfOk result (λ out. HasProgram kept.now.text (λ P. IsBeside which P kept.now.sizes options.now kept.now.run out)) }
{
    let listing = listing_of_kept(alloc, options.by, kept, machine)?;
    print(alloc, which, options.form, kept, machine, &listing)
}

/// A trace's run beside lists, or its traffic.
pub(crate) fn lists_document(
    alloc: Global,
    which: Numbers,
    options: &AccountOptions,
    document: &[u8],
) -> Result<Output, Stop>
    ensures made { IfOk result (λ out. HasKeptRun document.now (λ L t r. IsBeside which L.program t.shape options.now r out)) }
    ensures stop { IfErr result (IsStop (IsRefusedDocument document.now)) }
{
    let told = document_run(alloc, document)?;
    let DocumentRun { kept, mut machine } = told;
    let printed = beside(alloc, which, options, &kept, &mut machine);
    // for the prover alone: two calls drop the run and its machine, in place of the drops of all their parts at each exit
    drop(machine);
    drop(kept);
    Ok(printed?)
}
