ghost use Rattle.std.specs.Prelude.{◌≡◌, IfOk, IfErr};
ghost use Rattle.run_report.specs.Texts.{IsStop};
ghost use Rattle.run_replay.specs.Document.{IsTrace, document_of};
ghost use Rattle.checked_runs.specs.Documents.{IsNoRun, IsRefusedDocument};
ghost use Rattle.dn_top.specs.Answers.{IsReplayed};
ghost use Rattle.dn_top.specs.Documents.{IsReplayedRun, sizes_of, trace_of};
ghost use Rattle.dn_top.specs.Runs.{output_of_run};

use crate::options::Options;
use crate::output::Output;
use crate::runs::{handed_back, report_run};
use checked_runs::{run_told, trace_in};
use dn_base::Memory;
use dn_machine::RunRecord;
use effect_checker::Checked;
use run_replay::{Trace, TraceShape, trace_text};
use run_report::{Stop, checked_of};
use std::alloc::Global;

/// The machine's size and the fuel that the options ask for, as a trace tells them.
fn sizes_of(options: &Options) -> TraceShape
    ensures { result ≡ sizes_of options.now }
{
    TraceShape {
        banks: options.banks,
        sets: options.sets,
        ways: options.ways,
        fuel: options.fuel,
    }
}

/// Writes the trace of a text's program, and hands the run back.
///
/// # Errors
/// `Memory` where there is no room for the trace.
pub(crate) fn trace_run(
    alloc: Global,
    options: &Options,
    text: &[u8],
    run: RunRecord,
) -> Result<Output, Memory>
    requires { IsTrace (trace_of options.now text.now run) }
    ensures { IfOk result (λ out. out ≡ output_of_run (document_of (trace_of options.now text.now run)) run) }
{
    let document = trace_text(alloc, text, sizes_of(options), run.events.as_slice())?;
    Ok(handed_back(document, run))
}

/// Makes the events of a trace again, and reports the run.
fn run_again(alloc: Global, trace: Trace, checked: Checked) -> Result<Output, Stop>
    requires { IsTrace trace }
    ensures ok { IfOk result (IsReplayedRun checked trace) }
    ensures stop { IfErr result (IsStop (IsNoRun checked trace)) }
{
    let run = run_told(alloc, trace, checked)?;
    Ok(report_run(alloc, run)?)
}

/// Takes a trace, and makes its run again. The first fault refuses it: of the bytes, of the text that they tell, or of the
/// events.
pub(crate) fn replay_document(alloc: Global, document: &[u8]) -> Result<Output, Stop>
    ensures ok { IfOk result (IsReplayed document.now) }
    ensures stop { IfErr result (IsStop (IsRefusedDocument document.now)) }
{
    let trace = trace_in(alloc, document)?;
    let checked = checked_of(alloc, trace.text.as_slice())?;
    run_again(alloc, trace, checked)
}
