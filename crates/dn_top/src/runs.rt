ghost use Rattle.std.specs.Prelude.{◌≡◌, ◌≤◌, ◌++◌, All, length, IfOk, IfErr, OnOk};
ghost use Rattle.dn_top.specs.Command.{OptionsInRange};
ghost use Rattle.machine_rules.specs.State.{initial_state};
ghost use Rattle.run_report.specs.Summary.{summary_of};
ghost use Rattle.run_replay.specs.Document.{FitsDocument, IsTrace};
ghost use Rattle.run_timing.specs.Network.{IsWithinLatency};
ghost use Rattle.run_timing.specs.Text.{timing_of};
ghost use Rattle.run_timing.specs.Ticks.{AreWithinLimits};
ghost use Rattle.dn_top.specs.declared.options.Order.TheVariants.{Time as TimeOrder};
ghost use Rattle.dn_top.specs.Answers.{IsRunOfText};
ghost use Rattle.run_report.specs.Texts.{IsStop, IsUnfit};
ghost use Rattle.dn_top.specs.Documents.{trace_of};
ghost use Rattle.checked_runs.specs.Runs.{IsPrintable, reported, summed_up};
ghost use Rattle.dn_top.specs.Runs.{IsPickedRun, IsRunFor, network_for, output_of_run, shape_for, ticks_for, with_one_worker};

use crate::options::{Options, Order};
use crate::output::Output;
use dn_base::{MOST_WORDS, Memory, Sequence, Shape, Status};
use dn_machine::{Machine, RunRecord, a_machine_is_kept};
use effect_checker::Checked;
use grant_log::Counts;
use region_table::Program;
use run_report::{Stop, checked_of, report, summary};
use run_timing::{Network, Ticks, Timing, push_timing};
use rv_core::Ending;
use std::alloc::Global;
use time_order::run_in_time_order;

/// The shape that the options ask for: as many cores as the program needs, and their banks, sets and ways.
pub(crate) fn shape_of(options: &Options, program: &Program) -> Shape
    ensures { result ≡ shape_for program.now options.now }
{
    Shape {
        cores: program.cores(),
        banks: options.banks,
        sets: options.sets,
        ways: options.ways,
    }
}

/// There is a count of each of the seventeen kinds.
pub(crate) fn has_each_kind(counts: &Counts)
    ensures { length counts.now.kinds ≡ 17 }
{
    // for the proof alone: a read of a field brings the invariant of the counts, which is the law
    let _kinds = &counts.kinds;
}

/// The network that the options give to messages.
fn network_of(options: &Options) -> Network
    requires { OptionsInRange options.now }
    ensures value { result ≡ network_for options.now }
    ensures latency { IsWithinLatency result }
{
    Network {
        net: options.net,
        latency: options.latency,
    }
}

/// Runs a machine on which no event has come, in time order, by the ticks and the network of the options.
pub(crate) fn run_in_order(
    alloc: Global,
    options: &Options,
    machine: &mut Machine,
) -> Result<RunRecord, Memory>
    requires limits { OptionsInRange options.now }
    requires order { options.now.order ≡ TimeOrder }
    requires initial { machine.old.state ≡ initial_state machine.old.state.setting }
    requires made { machine.old.made ≡ 0 }
    ensures run { IfOk result (IsPickedRun options.now machine.old.state) }
    ensures setting { OnOk result (machine.new.state.setting ≡ machine.old.state.setting) }
{
    // for the proof alone: the setting of the machine is ready
    a_machine_is_kept(machine);
    run_in_time_order(alloc, machine, &ticks_of(options), &network_of(options))
}

/// Runs a machine on which no event has come, with its events picked as the options ask.
fn run_picked(alloc: Global, options: &Options, machine: Machine) -> Result<RunRecord, Memory>
    requires limits { OptionsInRange options.now }
    requires initial { machine.state ≡ initial_state machine.state.setting }
    requires made { machine.made ≡ 0 }
    ensures { IfOk result (IsPickedRun options.now machine.state) }
{
    match options.order {
        Order::Seed => machine.run(alloc, options.seed),
        Order::Time => {
            let mut machine = machine;
            run_in_order(alloc, options, &mut machine)
        }
    }
}

/// Runs a checked program on the machine that the options ask for, as they ask, on this thread alone.
fn machine_run(alloc: Global, options: &Options, checked: Checked) -> Result<RunRecord, Memory>
    requires { OptionsInRange options.now }
    ensures run { IfOk result (IsRunFor checked (with_one_worker options.now)) }
    ensures told { IfOk result (λ run. All FitsDocument run.events) }
    ensures printable { IfOk result IsPrintable }
{
    let shape = shape_of(options, checked.program());
    let machine = Machine::start(alloc, checked, shape, options.fuel)?;
    // for the proof alone: the machine is the opened one, sound and coherent, so that its run has all that is promised of runs
    a_machine_is_kept(&machine);
    let run = run_picked(alloc, options, machine)?;
    // for the proof alone: the events are fewer than 2^64, and there is a count of each kind, so that the record can be printed
    let _events = run.events.len();
    has_each_kind(&run.counts);
    Ok(run)
}

/// The run of a text's program by one worker.
pub(crate) fn run_alone(alloc: Global, options: &Options, text: &[u8]) -> Result<RunRecord, Stop>
    requires { OptionsInRange options.now }
    ensures run { IfOk result (IsRunOfText (with_one_worker options.now) text.now) }
    ensures told { IfOk result (λ run. IsTrace (trace_of options.now text.now run)) }
    ensures printable { IfOk result IsPrintable }
    ensures stop { IfErr result (IsStop (IsUnfit text.now)) }
{
    Ok(machine_run(alloc, options, checked_of(alloc, text)?)?)
}

/// The output that hands a run back, with this text.
pub(crate) fn handed_back(text: Vec<u8>, run: RunRecord) -> Output
    ensures { result ≡ output_of_run text.items run }
{
    Output {
        status: Status::from(run.ending.outcome),
        bytes: Sequence::from_vec(text),
        run: Some(run),
    }
}

/// Prints a run's answer, its grants and its counts, and hands it back.
pub(crate) fn report_run(alloc: Global, run: RunRecord) -> Result<Output, Memory>
    requires { IsPrintable run }
    ensures { IfOk result (λ out. out ≡ output_of_run (reported run) run) }
{
    let text = report(alloc, &run.ending, run.grants.as_slice(), &run.counts)?;
    Ok(handed_back(text, run))
}

/// Sums up how a run ended, and hands it back.
pub(crate) fn sum_up_run(alloc: Global, run: RunRecord) -> Result<Output, Memory>
    requires { IsPrintable run }
    ensures { IfOk result (λ out. out ≡ output_of_run (summed_up run) run) }
{
    let text = summary(alloc, &run.ending)?;
    Ok(handed_back(text, run))
}

/// The ticks that the options give to each kind of event, and to messages.
pub(crate) fn ticks_of(options: &Options) -> Ticks
    requires { OptionsInRange options.now }
    ensures value { result ≡ ticks_for options.now }
    ensures limits { AreWithinLimits result }
{
    let events = Ticks::by_place(options.tick_core, options.tick_bank, options.tick_mail);
    events.with_network(network_of(options))
}

/// Sums up how a run ended, and then tells its timing.
pub(crate) fn timed_text(alloc: Global, ending: &Ending, timing: &Timing) -> Result<Vec<u8>, Memory>
    requires words { length ending.now.memory ≤ MOST_WORDS }
    requires tasks { length ending.now.tasks ≤ 64 }
    ensures { IfOk result (λ text. text.items ≡ summary_of ending.now ++ timing_of timing.now) }
{
    let mut text = summary(alloc, ending)?;
    push_timing(&mut text, timing)?;
    Ok(text)
}
