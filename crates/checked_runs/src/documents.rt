//! From a trace to the run that it tells.
ghost use Rattle.std.specs.Prelude.{◌≡◌, ◌≢◌, IfOk, IfErr, OnOk};
ghost use Rattle.dn_machine.specs.Kept.{IsInitialMachine};
ghost use Rattle.run_report.specs.Texts.{IsStop};
ghost use Rattle.run_replay.specs.declared.trace.TraceFault.TheVariants.{Memory as NoMemory};
ghost use Rattle.run_replay.specs.declared.refusal.TraceRefusal.TheVariants.{Fault as OfFault};
ghost use Rattle.run_replay.specs.Document.{IsDocument, IsTrace, IsTraceShape};
ghost use Rattle.run_replay.specs.Refusal.{refusal_text};
ghost use Rattle.checked_runs.specs.Documents.{IsMachineTold, IsNoDocument, IsNoRun, IsReplayIn, IsRunTold, shape_told};
ghost use Rattle.checked_runs.specs.Runs.{IsPrintable};

use dn_base::{Memory, Sequence, Shape};
use dn_machine::{Machine, RunRecord, a_machine_is_kept};
use effect_checker::Checked;
use region_table::{Program, a_program_is_well_formed};
use run_replay::{
    Replayed, Trace, TraceFault, TraceRefusal, TraceShape, read_trace, replay_on, trace_line,
};
use run_report::Stop;
use std::alloc::Global;

/// The refusal of a trace for this reason, which isn't out of memory: `Refused` with its line, or `Memory` if there is no room
/// for that.
fn refused_trace(alloc: Global, why: &TraceRefusal) -> Stop
    requires { why.now ≢ OfFault NoMemory }
    ensures { IsStop (λ line. line ≡ refusal_text why.now) result }
{
    match trace_line(alloc, why) {
        Ok(line) => Stop::Refused(Sequence::from_vec(line)),
        Err(_) => Stop::Memory,
    }
}

/// What a trace tells: the machine's size and the fuel, the text, and the events.
///
/// # Errors
/// `Refused` with the line of the trace's first fault, and `Memory` where there is no room.
pub fn trace_in(alloc: Global, document: &[u8]) -> Result<Trace, Stop>
    ensures ok { IfOk result (IsDocument document.now) }
    ensures stop { IfErr result (IsStop (IsNoDocument document.now)) }
{
    match read_trace(alloc, document) {
        Ok(trace) => Ok(trace),
        Err(TraceFault::Memory) => Err(Stop::Memory),
        Err(fault) => Err(refused_trace(alloc, &TraceRefusal::Fault(fault))),
    }
}

/// The shape of a program's machine, in the size that a trace tells.
pub fn shape_told(sizes: TraceShape, program: &Program) -> Shape
    ensures { result ≡ shape_told program.now sizes }
{
    Shape {
        cores: program.cores(),
        banks: sizes.banks,
        sets: sizes.sets,
        ways: sizes.ways,
    }
}

/// The machine of a trace's checked program when its run begins, in the size that the trace tells.
///
/// # Errors
/// `Memory` if there is no room.
pub fn machine_told(alloc: Global, sizes: TraceShape, checked: Checked) -> Result<Machine, Memory>
    requires { IsTraceShape sizes }
    ensures { IfOk result (IsInitialMachine checked (shape_told checked sizes) sizes.fuel) }
{
    let shape = shape_told(sizes, checked.program());
    Machine::start(alloc, checked, shape, sizes.fuel)
}

/// The replay of a trace's events on the trace's machine at its start.
///
/// # Errors
/// `Memory` if there is no room.
fn replayed_on(alloc: Global, machine: &mut Machine, trace: &Trace) -> Result<Replayed, Memory>
    requires trace { IsTrace trace.now }
    requires machine { IsMachineTold trace.now machine.old }
    ensures replay { IfOk result (IsReplayIn machine.old.state.setting.program trace.now) }
    ensures setting { OnOk result (machine.new.state.setting ≡ machine.old.state.setting) }
{
    // for the proof alone: no event has come, so the machine is the opened one, sound and coherent
    a_machine_is_kept(machine);
    replay_on(alloc, machine, trace.events.as_slice())
}

/// The run of a trace on a machine that is lent, as `run_told` says, so that the machine's program, plans and decoded code can be
/// used again. It must be the machine of the trace's program and size when its run begins. Afterwards it is as the events leave
/// it; `Machine::reset` sets it back.
///
/// # Errors
/// `Refused` with the line that says why the events are no complete run, and `Memory` if there is no room.
pub fn run_told_on(alloc: Global, trace: Trace, machine: &mut Machine) -> Result<RunRecord, Stop>
    requires trace { IsTrace trace }
    requires machine { IsMachineTold trace machine.old }
    ensures told { IfOk result (IsRunTold machine.old.state.setting.program trace) }
    ensures printable { IfOk result IsPrintable }
    ensures stop { IfErr result (IsStop (IsNoRun machine.old.state.setting.program trace)) }
    ensures setting { OnOk result (machine.new.state.setting ≡ machine.old.state.setting) }
{
    // for the proof alone: a well-formed program has few words and tasks, so the record can be printed
    a_program_is_well_formed(machine.program());
    match replayed_on(alloc, machine, &trace)? {
        Replayed::Complete {
            ending,
            grants,
            counts,
        } => Ok(RunRecord {
            events: trace.events,
            grants,
            counts,
            ending,
        }),
        Replayed::NotEnabled { number } => {
            Err(refused_trace(alloc, &TraceRefusal::NotEnabled { number }))
        }
        Replayed::Incomplete => Err(refused_trace(alloc, &TraceRefusal::Incomplete)),
    }
}

/// The run of a trace: its events are made again on the machine of the trace's checked program.
///
/// The run has few enough words, tasks and events to be printed.
///
/// # Errors
/// `Refused` with the line that says why the events are no complete run, and `Memory` if there is no room.
pub fn run_told(alloc: Global, trace: Trace, checked: Checked) -> Result<RunRecord, Stop>
    requires { IsTrace trace }
    ensures told { IfOk result (IsRunTold checked trace) }
    ensures printable { IfOk result IsPrintable }
    ensures stop { IfErr result (IsStop (IsNoRun checked trace)) }
{
    let mut machine = machine_told(alloc, trace.shape, checked)?;
    let run = run_told_on(alloc, trace, &mut machine);
    // for the prover alone: one call drops the machine, in place of the drops of all its parts at each exit
    drop(machine);
    run
}
