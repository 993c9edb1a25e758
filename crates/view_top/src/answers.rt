//! The mode answer: the answer of a trace's run for readers.
ghost use Rattle.std.specs.Prelude.{◌≡◌, Ok, IfOk, IfErr};
ghost use Rattle.rv_assembler.specs.Source.{source};
ghost use Rattle.text_places.specs.Places.{text_places};
ghost use Rattle.run_report.specs.Texts.{HasProgram, IsStop};
ghost use Rattle.checked_runs.specs.Documents.{IsRefusedDocument};
ghost use Rattle.view_top.specs.declared.options.View.TheVariants as view;
ghost use Rattle.view_top.specs.Answers as answers;
ghost use Rattle.view_top.specs.Answers.{view_made, IsForReaders};
ghost use Rattle.view_top.specs.Kept.{IsMachineOf};

use crate::AnswerOptions;
use crate::answering::{Output, done_with};
use crate::documents::{DocumentRun, KeptRun, document_run, located_on};
use dn_base::Memory;
use dn_machine::Machine;
use run_report::Stop;
use state_text::answer_for_readers;
use std::alloc::Global;
use text_places::Located;

/// A kept run's answer for readers, in the names of its text.
fn for_readers(
    alloc: Global,
    options: &AnswerOptions,
    kept: &KeptRun,
    located: &Located,
) -> Result<Output, Memory>
    requires program { source kept.now.text ≡ Ok located.now.program }
    requires places { located.now.places ≡ text_places kept.now.text }
    ensures { IfOk result (λ out. HasProgram kept.now.text (λ P. IsForReaders (answers.located P kept.now.text) kept.now.text options.now kept.now.run out)) }
{
    let text = answer_for_readers(
        alloc,
        options.base,
        kept.text.as_slice(),
        located,
        &kept.run.ending,
        kept.run.grants.as_slice(),
    )?;
    Ok(done_with(text))
}

/// A kept run's answer for readers, in the names that its machine's program has.
fn answer_on(
    alloc: Global,
    options: &AnswerOptions,
    kept: &KeptRun,
    machine: Machine,
) -> Result<Output, Memory>
    requires { IsMachineOf kept.now machine }
    ensures { IfOk result (λ out. HasProgram kept.now.text (λ P. IsForReaders (answers.located P kept.now.text) kept.now.text options.now kept.now.run out)) }
{
    let located = located_on(alloc, kept, machine)?;
    let written = for_readers(alloc, options, kept, &located);
    // for the prover alone: one call drops the names and the program, in place of the drops of all their parts at each exit
    drop(located);
    written
}

/// The answer for readers of a trace's run.
pub(crate) fn answer_document(
    alloc: Global,
    options: &AnswerOptions,
    document: &[u8],
) -> Result<Output, Stop>
    ensures made { IfOk result (view_made (view.Answer options.now) document.now) }
    ensures stop { IfErr result (IsStop (IsRefusedDocument document.now)) }
{
    let told = document_run(alloc, document)?;
    let DocumentRun { kept, machine } = told;
    let written = answer_on(alloc, options, &kept, machine);
    // for the prover alone: one call drops the run, in place of the drops of all its parts at each exit
    drop(kept);
    Ok(written?)
}
