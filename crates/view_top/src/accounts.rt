//! The mode account: what a run cost and why, in numbers.
ghost use Rattle.std.specs.Prelude.{◌≡◌, ◌+◌, ◌≤◌, ◌++◌, length, IfOk, IfErr, OnOk};
ghost use Rattle.machine_rules.specs.Runs.{IsRun};
ghost use Rattle.run_account.specs.Account.{account_of_run, no_account};
ghost use Rattle.run_account.specs.Forms.{account_text};
ghost use Rattle.run_report.specs.Texts.{HasProgram, IsStop};
ghost use Rattle.checked_runs.specs.Documents.{IsRefusedDocument, shape_told};
ghost use Rattle.checked_runs.specs.Runs.{IsPrintable};
ghost use Rattle.view_top.specs.declared.options.View.TheVariants as view;
ghost use Rattle.view_top.specs.Answers.{heading_of, made, view_made, IsAccount, IsAccountOf};
ghost use Rattle.view_top.specs.Kept.{IsMachineOf, IsViewable};

use crate::AccountOptions;
use crate::answering::{Output, done_with};
use crate::documents::{DocumentRun, KeptRun, begin_again, document_run};
use dn_base::Memory;
use dn_machine::{Machine, RunRecord};
use message_net::Event;
use run_account::{Account, Form, Grouping, account_of, push_account};
use run_report::{Stop, report};
use std::alloc::Global;

/// What stands above the numbers: for readers the report of the run, for other programs nothing.
pub(crate) fn heading(alloc: Global, form: Form, run: &RunRecord) -> Result<Vec<u8>, Memory>
    requires { IsPrintable run.now }
    ensures { IfOk result (λ text. text.items ≡ heading_of form run.now) }
{
    match form {
        Form::Text => report(alloc, &run.ending, run.grants.as_slice(), &run.counts),
        Form::Csv => Ok(Vec::new(alloc)),
    }
}

/// The account of a run's events on its machine, in these groups.
fn count(
    alloc: Global,
    machine: &mut Machine,
    events: &[Event],
    by: Grouping,
) -> Result<Account, Memory>
    requires run { IsRun machine.old.state events.now }
    requires few { machine.old.made + length events.now ≤ 4000000000 }
    ensures account { IfOk result (λ account. account ≡ account_of_run machine.old.state (no_account machine.old.state.setting by) events.now) }
    ensures setting { OnOk result (machine.new.state.setting ≡ machine.old.state.setting) }
{
    match account_of(alloc, machine, events, by)? {
        Some(account) => Ok(account),
        None => unreachable!(),
    }
}

/// The account of a kept run's events, in these groups.
fn account_of_kept(
    alloc: Global,
    by: Grouping,
    kept: &KeptRun,
    machine: &mut Machine,
) -> Result<Account, Memory>
    requires kept { IsViewable kept.now }
    requires machine { IsMachineOf kept.now machine.old }
    ensures account { IfOk result (λ account. HasProgram kept.now.text (λ P. IsAccountOf P (shape_told P kept.now.sizes) kept.now.sizes.fuel kept.now.run.events by account.tallies)) }
    ensures machine { OnOk result (IsMachineOf kept.now machine.new) }
{
    begin_again(alloc, kept, machine)?;
    count(alloc, machine, kept.run.events.as_slice(), by)
}

/// An account, as it is printed.
fn print(
    alloc: Global,
    form: Form,
    kept: &KeptRun,
    machine: &Machine,
    account: &Account,
) -> Result<Output, Memory>
    requires kept { IsViewable kept.now }
    requires machine { IsMachineOf kept.now machine.now }
    ensures { IfOk result (λ out. HasProgram kept.now.text (λ P. out ≡ made (heading_of form kept.now.run ++ account_text form P account.now.tallies))) }
{
    let mut text = heading(alloc, form, &kept.run)?;
    push_account(&mut text, form, machine.program(), account.table())?;
    Ok(done_with(text))
}

/// The account of a run, as the options ask for it.
fn account(
    alloc: Global,
    options: &AccountOptions,
    kept: &KeptRun,
    machine: &mut Machine,
) -> Result<Output, Memory>
    requires kept { IsViewable kept.now }
    requires machine { IsMachineOf kept.now machine.old }
    ensures { IfOk result (λ out. HasProgram kept.now.text (λ P. IsAccount P kept.now.sizes options.now kept.now.run out)) }
{
    let account = account_of_kept(alloc, options.by, kept, machine)?;
    print(alloc, options.form, kept, machine, &account)
}

/// The account of a trace's run.
pub(crate) fn account_document(
    alloc: Global,
    options: &AccountOptions,
    document: &[u8],
) -> Result<Output, Stop>
    ensures made { IfOk result (view_made (view.Account options.now) document.now) }
    ensures stop { IfErr result (IsStop (IsRefusedDocument document.now)) }
{
    let told = document_run(alloc, document)?;
    let DocumentRun { kept, mut machine } = told;
    let printed = account(alloc, options, &kept, &mut machine);
    // for the prover alone: two calls drop the run and its machine, in place of the drops of all their parts at each exit
    drop(machine);
    drop(kept);
    Ok(printed?)
}
