ghost use Rattle.std.specs.Prelude.{◌≡◌, ◌≢◌, ◌≤◌, ◌++◌, true, false, length, IfOk, IfErr};
ghost use Rattle.region_table.specs.Program.{names_of};
ghost use Rattle.rv_assembler.specs.Names.{AreDeclaredNames};
ghost use Rattle.run_report.specs.Answer.{answer_of};
ghost use Rattle.run_report.specs.Grants.{grant_lines};
ghost use Rattle.run_report.specs.Summary.{checked_of as counts_of};
ghost use Rattle.dn_top.specs.Command.{OptionsInRange};
ghost use Rattle.checked_runs.specs.Runs.{reported, summed_up};
ghost use Rattle.dn_top.specs.Runs.{with_one_worker, IsPrintedRun};
ghost use Rattle.dn_top.specs.Answers.{IsAnswer, IsFlatRun, IsListing, IsOutputOf, IsProof, answered, done_in, refused_in};
ghost use Rattle.dn_top.specs.Documents.{IsTracedRun};
ghost use Rattle.run_report.specs.Texts.{HasChecked, HasProgram, IsNoProgram, IsStop, IsUnfit};

use crate::documents::{replay_document, trace_run};
use crate::options::{Mode, Options};
use crate::output::{Output, output_of};
use crate::runs::{report_run, run_alone, sum_up_run};
use crate::timings::{time_alone, time_by_workers};
use crate::workers::run_by_workers;
use dn_base::{Gate, MOST_WORDS, Memory, Outcome, Status};
use effect_checker::Checked;
use effect_prover::{prove, prove_text};
use flat_machine::{LeastRun, least_run};
use region_table::Program;
use run_report::{Stop, answer_text, checked_line, checked_of, grant_text, program_of};
use rv_listing::{listing, listing_with_addresses};
use std::alloc::Global;
use std::sync::Wait;
use std::thread::Threads;

/// The answer of a run on one flat memory, and then its grants.
fn flat_text(alloc: Global, run: &LeastRun) -> Result<Vec<u8>, Memory>
    requires words { length run.now.end.ending.memory ≤ MOST_WORDS }
    requires tasks { length run.now.end.ending.tasks ≤ 64 }
    ensures { IfOk result (λ text. text.items ≡ answer_of run.now.end.ending ++ grant_lines run.now.grants.items) }
{
    let mut text = answer_text(alloc, &run.end.ending)?;
    text.extend_from_slice(grant_text(alloc, run.grants.as_slice())?.as_slice())?;
    Ok(text)
}

/// Runs a program on one flat memory, and prints its answer and the grants.
#[tactic(auto, using(checked_runs::proofs::Causes::caused))]
fn run_flat(alloc: Global, fuel: u32, checked: &Checked) -> Result<Output, Memory>
    requires least { 1 ≤ fuel }
    requires most { fuel ≤ 32768 }
    ensures { IfOk result (IsFlatRun checked.now fuel) }
{
    let run = least_run(alloc, checked, fuel)?;
    let text = flat_text(alloc, &run)?;
    Ok(output_of(run.end.ending.outcome, text))
}

/// Counts what a program has.
fn count(alloc: Global, program: &Program) -> Result<Output, Memory>
    ensures { IfOk result (λ out. out ≡ answered Status.Done (counts_of program.now)) }
{
    Ok(output_of(Outcome::Done, checked_line(alloc, program)?))
}

/// Lists a program.
fn list_plain(alloc: Global, program: &Program) -> Result<Output, Memory>
    requires { AreDeclaredNames (names_of program.now) }
    ensures { IfOk result (IsListing program.now false) }
{
    Ok(output_of(Outcome::Done, listing(alloc, program)?))
}

/// Lists a program with the address of each code word.
fn list_with_addresses(alloc: Global, program: &Program) -> Result<Output, Memory>
    ensures { IfOk result (IsListing program.now true) }
{
    Ok(output_of(Outcome::Done, listing_with_addresses(alloc, program)?))
}

/// Lists a program, with addresses or without.
fn list(alloc: Global, program: &Program, addresses: bool) -> Result<Output, Memory>
    requires { AreDeclaredNames (names_of program.now) }
    ensures { IfOk result (IsListing program.now addresses) }
{
    if addresses {
        list_with_addresses(alloc, program)
    } else {
        list_plain(alloc, program)
    }
}

/// Says whether some run of the program may access a word outside its declared effects.
fn prove_effects(alloc: Global, checked: &Checked) -> Result<Output, Memory>
    ensures { IfOk result (IsProof checked.now) }
{
    let proved = prove(alloc, checked)?;
    Ok(output_of(Outcome::Done, prove_text(alloc, &proved)?))
}

/// Counts what the program of a text has.
fn count_text(alloc: Global, text: &[u8]) -> Result<Output, Stop>
    ensures done { IfOk result (λ out. HasChecked text.now (λ P. out ≡ answered Status.Done (counts_of P))) }
    ensures stop { IfErr result (IsStop (IsUnfit text.now)) }
{
    let checked = checked_of(alloc, text)?;
    let counted = count(alloc, checked.program());
    // for the prover alone: one call drops the program, in place of the drops of all its parts at each exit
    drop(checked);
    Ok(counted?)
}

/// Lists the program of a text.
fn list_text(alloc: Global, addresses: bool, text: &[u8]) -> Result<Output, Stop>
    ensures done { IfOk result (λ out. HasProgram text.now (λ P. IsListing P addresses out)) }
    ensures stop { IfErr result (IsStop (IsNoProgram text.now)) }
{
    let program = program_of(alloc, text)?;
    let listed = list(alloc, &program, addresses);
    // for the prover alone, as in `count_text`
    drop(program);
    Ok(listed?)
}

/// Runs the program of a text on one flat memory.
fn run_flat_text(alloc: Global, fuel: u32, text: &[u8]) -> Result<Output, Stop>
    requires least { 1 ≤ fuel }
    requires most { fuel ≤ 32768 }
    ensures done { IfOk result (λ out. HasChecked text.now (λ P. IsFlatRun P fuel out)) }
    ensures stop { IfErr result (IsStop (IsUnfit text.now)) }
{
    let checked = checked_of(alloc, text)?;
    let ran = run_flat(alloc, fuel, &checked);
    // for the prover alone, as in `count_text`
    drop(checked);
    Ok(ran?)
}

/// Says of the program of a text whether some run of it may access a word outside its declared effects.
fn prove_text_effects(alloc: Global, text: &[u8]) -> Result<Output, Stop>
    ensures done { IfOk result (λ out. HasChecked text.now (λ P. IsProof P out)) }
    ensures stop { IfErr result (IsStop (IsUnfit text.now)) }
{
    let checked = checked_of(alloc, text)?;
    let proved = prove_effects(alloc, &checked);
    // for the prover alone, as in `count_text`
    drop(checked);
    Ok(proved?)
}

/// Runs the program of a text on this thread alone, and reports the run.
fn report_alone(alloc: Global, options: &Options, text: &[u8]) -> Result<Output, Stop>
    requires { OptionsInRange options.now }
    ensures done { IfOk result (λ out. HasChecked text.now (λ P. IsPrintedRun P (with_one_worker options.now) reported out)) }
    ensures stop { IfErr result (IsStop (IsUnfit text.now)) }
{
    let run = run_alone(alloc, options, text)?;
    Ok(report_run(alloc, run)?)
}

/// Runs the program of a text on this thread alone, and sums the run up.
fn sum_up_alone(alloc: Global, options: &Options, text: &[u8]) -> Result<Output, Stop>
    requires { OptionsInRange options.now }
    ensures done { IfOk result (λ out. HasChecked text.now (λ P. IsPrintedRun P (with_one_worker options.now) summed_up out)) }
    ensures stop { IfErr result (IsStop (IsUnfit text.now)) }
{
    let run = run_alone(alloc, options, text)?;
    Ok(sum_up_run(alloc, run)?)
}

/// Runs the program of a text on this thread alone, and writes the trace.
fn trace_alone(alloc: Global, options: &Options, text: &[u8]) -> Result<Output, Stop>
    requires { OptionsInRange options.now }
    ensures done { IfOk result (λ out. HasChecked text.now (λ P. IsTracedRun P (with_one_worker options.now) text.now out)) }
    ensures stop { IfErr result (IsStop (IsUnfit text.now)) }
{
    let run = run_alone(alloc, options, text)?;
    Ok(trace_run(alloc, options, text, run)?)
}

/// What each mode does with a text, on this thread alone.
fn done_alone(alloc: Global, options: &Options, text: &[u8]) -> Result<Output, Stop>
    requires { OptionsInRange options.now }
    ensures done { IfOk result (done_in options.now.mode (with_one_worker options.now) text.now) }
    ensures stop { IfErr result (IsStop (refused_in options.now.mode text.now)) }
{
    match options.mode {
        Mode::Run => report_alone(alloc, options, text),
        Mode::Work => sum_up_alone(alloc, options, text),
        Mode::Check => count_text(alloc, text),
        Mode::List => list_text(alloc, options.addresses, text),
        Mode::Flat => run_flat_text(alloc, options.fuel, text),
        Mode::Trace => trace_alone(alloc, options, text),
        Mode::Replay => replay_document(alloc, text),
        Mode::Time => time_alone(alloc, options, text),
        Mode::Prove => prove_text_effects(alloc, text),
    }
}

/// Runs the program of a text by several workers, and reports the run.
fn report_by_workers<R: Threads + Wait + Sync, G: Gate + Sync>(
    rt: &R,
    alloc: Global,
    options: &Options,
    text: &[u8],
    gate: &G,
) -> Result<Output, Stop>
    requires limits { OptionsInRange options.now }
    requires several { options.now.workers ≢ 1 }
    ensures done { IfOk result (λ out. HasChecked text.now (λ P. IsPrintedRun P options.now reported out)) }
    ensures stop { IfErr result (IsStop (IsUnfit text.now)) }
{
    let run = run_by_workers(rt, alloc, options, text, gate)?;
    Ok(report_run(alloc, run)?)
}

/// Runs the program of a text by several workers, and sums the run up.
fn sum_up_by_workers<R: Threads + Wait + Sync, G: Gate + Sync>(
    rt: &R,
    alloc: Global,
    options: &Options,
    text: &[u8],
    gate: &G,
) -> Result<Output, Stop>
    requires limits { OptionsInRange options.now }
    requires several { options.now.workers ≢ 1 }
    ensures done { IfOk result (λ out. HasChecked text.now (λ P. IsPrintedRun P options.now summed_up out)) }
    ensures stop { IfErr result (IsStop (IsUnfit text.now)) }
{
    let run = run_by_workers(rt, alloc, options, text, gate)?;
    Ok(sum_up_run(alloc, run)?)
}

/// Runs the program of a text by several workers, and writes the trace.
fn trace_by_workers<R: Threads + Wait + Sync, G: Gate + Sync>(
    rt: &R,
    alloc: Global,
    options: &Options,
    text: &[u8],
    gate: &G,
) -> Result<Output, Stop>
    requires limits { OptionsInRange options.now }
    requires several { options.now.workers ≢ 1 }
    ensures done { IfOk result (λ out. HasChecked text.now (λ P. IsTracedRun P options.now text.now out)) }
    ensures stop { IfErr result (IsStop (IsUnfit text.now)) }
{
    let run = run_by_workers(rt, alloc, options, text, gate)?;
    Ok(trace_run(alloc, options, text, run)?)
}

/// What each mode does with a text if several workers are asked for: these make the run in the modes that pick events.
fn done_by_workers<R: Threads + Wait + Sync, G: Gate + Sync>(
    rt: &R,
    alloc: Global,
    options: &Options,
    text: &[u8],
    gate: &G,
) -> Result<Output, Stop>
    requires limits { OptionsInRange options.now }
    requires several { options.now.workers ≢ 1 }
    ensures done { IfOk result (done_in options.now.mode options.now text.now) }
    ensures stop { IfErr result (IsStop (refused_in options.now.mode text.now)) }
{
    match options.mode {
        Mode::Run => report_by_workers(rt, alloc, options, text, gate),
        Mode::Work => sum_up_by_workers(rt, alloc, options, text, gate),
        Mode::Trace => trace_by_workers(rt, alloc, options, text, gate),
        Mode::Time => time_by_workers(rt, alloc, options, text, gate),
        Mode::Check | Mode::List | Mode::Flat | Mode::Replay | Mode::Prove => {
            done_alone(alloc, options, text)
        }
    }
}

/// The output of a result.
///
/// # Errors
/// `Memory` if there was no room.
fn output_from(done: Result<Output, Stop>) -> Result<Output, Memory>
    ensures { IfOk result (IsOutputOf done) }
{
    match done {
        Ok(output) => Ok(output),
        Err(Stop::Refused(line)) => Ok(Output {
            status: Status::SourceRefused,
            bytes: line,
            run: None,
        }),
        Err(Stop::Memory) => Err(Memory),
    }
}

/// The answer to a text, made by this thread alone.
///
/// # Errors
/// `Memory` where there is no room for the program, its run or the answer.
pub(crate) fn output_alone(alloc: Global, options: &Options, text: &[u8]) -> Result<Output, Memory>
    requires { OptionsInRange options.now }
    ensures { IfOk result (IsAnswer (with_one_worker options.now) text.now) }
{
    output_from(done_alone(alloc, options, text))
}

/// The answer to a text, its run made by several workers.
///
/// # Errors
/// `Memory` where there is no room for the program, its run or the answer.
pub(crate) fn output_by_workers<R: Threads + Wait + Sync, G: Gate + Sync>(
    rt: &R,
    alloc: Global,
    options: &Options,
    text: &[u8],
    gate: &G,
) -> Result<Output, Memory>
    requires limits { OptionsInRange options.now }
    requires several { options.now.workers ≢ 1 }
    ensures { IfOk result (IsAnswer options.now text.now) }
{
    output_from(done_by_workers(rt, alloc, options, text, gate))
}
