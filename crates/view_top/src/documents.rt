//! From a trace to its program and its run: what modes do first.
ghost use Rattle.std.specs.Prelude.{◌≡◌, IfOk, IfErr, OnOk, Ok};
ghost use Rattle.rv_assembler.specs.Source.{source};
ghost use Rattle.text_places.specs.Places.{text_places};
ghost use Rattle.run_replay.specs.Document.{IsTrace};
ghost use Rattle.machine_rules.specs.State.{initial_state};
ghost use Rattle.machine_rules.specs.Runs.{IsRun};
ghost use Rattle.run_report.specs.Texts.{IsStop};
ghost use Rattle.checked_runs.specs.Documents.{IsMachineTold, IsRefusedDocument, shape_told, IsNoRun};
ghost use Rattle.view_top.specs.Answers.{HasKeptRun};
ghost use Rattle.view_top.specs.Kept.{kept_run_of, IsKeptRun, IsMachineOf, IsViewable};

use checked_runs::{machine_told, run_told_on, shape_told, trace_in};
use dn_base::{Memory, Sequence, Shape};
use dn_machine::{Machine, MachineParts, RunRecord, a_machine_is_kept};
use effect_checker::Checked;
use run_replay::{Trace, TraceShape};
use run_report::{Stop, checked_of};
use std::alloc::Global;
use text_places::{Located, text_places};

/// The run of a trace, with the size of its machine and its text.
#[derive(Drop)]
pub(crate) struct KeptRun {
    pub(crate) sizes: TraceShape,
    pub(crate) text: Sequence<u8>,
    pub(crate) run: RunRecord,
}

/// The run of a trace, and the machine on which its events were made. The machine has the text's program, which is assembled once:
/// each step that makes the events again sets the machine back to its start.
#[derive(Drop)]
pub(crate) struct DocumentRun {
    pub(crate) kept: KeptRun,
    pub(crate) machine: Machine,
}

/// The machine of a checked program, in the size that a trace tells.
pub(crate) fn shape_of(sizes: TraceShape, checked: &Checked) -> Shape
    ensures { result ≡ shape_told checked.now sizes }
{
    shape_told(sizes, checked.program())
}

/// The same bytes once more.
fn copy_of(alloc: Global, bytes: &[u8]) -> Result<Sequence<u8>, Memory>
    ensures { IfOk result (λ copy. copy ≡ bytes.now) }
{
    let mut copy = Vec::new(alloc);
    copy.extend_from_slice(bytes)?;
    Ok(Sequence::from_vec(copy))
}

/// The run of what a trace tells, beside a copy of its text: the replay uses up what was read.
fn kept_trace(alloc: Global, trace: Trace, machine: &mut Machine) -> Result<KeptRun, Stop>
    requires trace { IsTrace trace }
    requires machine { IsMachineTold trace machine.old }
    ensures kept { IfOk result (IsKeptRun machine.old.state.setting.program trace) }
    ensures stop { IfErr result (IsStop (IsNoRun machine.old.state.setting.program trace)) }
    ensures setting { OnOk result (machine.new.state.setting ≡ machine.old.state.setting) }
{
    let text = copy_of(alloc, trace.text.as_slice())?;
    let sizes = trace.shape;
    let run = run_told_on(alloc, trace, machine)?;
    Ok(KeptRun { sizes, text, run })
}

/// The run of what a trace tells, on its machine at the start, beside that machine.
fn made_on(alloc: Global, trace: Trace, machine: Machine) -> Result<DocumentRun, Stop>
    requires trace { IsTrace trace }
    requires machine { IsMachineTold trace machine }
    ensures kept { IfOk result (λ told. IsKeptRun machine.state.setting.program trace told.kept) }
    ensures setting { IfOk result (λ told. told.machine.state.setting ≡ machine.state.setting) }
    ensures stop { IfErr result (IsStop (IsNoRun machine.state.setting.program trace)) }
{
    let mut machine = machine;
    match kept_trace(alloc, trace, &mut machine) {
        Ok(kept) => Ok(DocumentRun { kept, machine }),
        Err(stop) => {
            // for the prover alone: one call drops the machine, in place of the drops of all its parts
            drop(machine);
            Err(stop)
        }
    }
}

/// The run of a trace, and its machine.
///
/// # Errors
/// `Refused` with the line by which the mode replay of denovo refuses the trace, and `Memory` where there is no room.
pub(crate) fn document_run(alloc: Global, document: &[u8]) -> Result<DocumentRun, Stop>
    ensures kept { IfOk result (λ told. HasKeptRun document.now (λ _ trace run. told.kept ≡ kept_run_of trace run)) }
    ensures ready { IfOk result (λ told. IsViewable told.kept) }
    ensures machine { IfOk result (λ told. IsMachineOf told.kept told.machine) }
    ensures stop { IfErr result (IsStop (IsRefusedDocument document.now)) }
{
    let trace = trace_in(alloc, document)?;
    let checked = checked_of(alloc, trace.text.as_slice())?;
    let machine = machine_told(alloc, trace.shape, checked)?;
    // for the proof alone: the machine is sound, so that its plans are those of its program
    a_machine_is_kept(&machine);
    made_on(alloc, trace, machine)
}

/// Sets the machine of a kept run back to its start, so that the run's events can be made on it again.
///
/// # Errors
/// `Memory` where there is no room.
pub(crate) fn begin_again(
    alloc: Global,
    kept: &KeptRun,
    machine: &mut Machine,
) -> Result<(), Memory>
    requires kept { IsViewable kept.now }
    requires machine { IsMachineOf kept.now machine.old }
    ensures initial { OnOk result (machine.new.state ≡ initial_state machine.new.state.setting) }
    ensures made { OnOk result (machine.new.made ≡ 0) }
    ensures run { OnOk result (IsRun machine.new.state kept.now.run.events) }
    ensures machine { OnOk result (IsMachineOf kept.now machine.new) }
{
    machine.reset(alloc)
}

/// The program of a kept run's machine, with the lines of its parts. The run's text isn't assembled again.
///
/// # Errors
/// `Memory` where there is no room.
pub(crate) fn located_on(alloc: Global, kept: &KeptRun, machine: Machine) -> Result<Located, Memory>
    requires { IsMachineOf kept.now machine }
    ensures program { IfOk result (λ located. source kept.now.text ≡ Ok located.program) }
    ensures places { IfOk result (λ located. located.places ≡ text_places kept.now.text) }
{
    let MachineParts { checked, .. } = machine.split();
    let program = checked.into_program();
    let places = text_places(alloc, kept.text.as_slice(), &program)?;
    Ok(Located { program, places })
}
