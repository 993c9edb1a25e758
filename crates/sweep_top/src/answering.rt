ghost use Rattle.std.specs.Prelude.{◌≡◌, IfOk, IfErr};
ghost use Rattle.dn_machine.specs.Kept.{IsInitialMachine};
ghost use Rattle.run_report.specs.Texts.{HasChecked, IsStop, IsUnfit};
ghost use Rattle.dn_top.specs.Runs.{shape_for};
ghost use Rattle.sweep_top.specs.declared.options.Form.TheVariants.{Summary, Answers, Csv};
ghost use Rattle.sweep_top.specs.Command.{IsSweepInRange};
ghost use Rattle.sweep_top.specs.Runs.{options_at};
ghost use Rattle.sweep_top.specs.Answers.{swept, IsSweepOf, IsSweepAnswer, IsTextOfRuns};

use crate::answers::answer_table;
use crate::options::{Form, SweepOptions};
use crate::running::shape_of;
use crate::status::SweepStatus;
use crate::summary::summary;
use crate::table::table;
use crate::tally::tally_of_seeds;
use dn_base::{Memory, Sequence};
use dn_machine::Machine;
use effect_checker::Checked;
use program_outside::Output;
use run_report::{Stop, checked_of};
use std::alloc::Global;

/// A status, and all bytes that are to be written.
pub type Reply = Output<SweepStatus>;

/// The answer with this text.
fn reply_with(text: Vec<u8>) -> Reply
    ensures { result ≡ swept text.items }
{
    Output {
        status: SweepStatus::Swept,
        bytes: Sequence::from_vec(text),
    }
}

/// Makes the runs of all seeds on a machine at its start, and sums them up.
fn summary_on(alloc: Global, options: &SweepOptions, machine: &Machine) -> Result<Vec<u8>, Memory>
    requires limits { IsSweepInRange options.now }
    requires machine { IsInitialMachine machine.now.state.setting.program (shape_for machine.now.state.setting.program (options_at options.now 0)) options.now.fuel machine.now }
    ensures { IfOk result (λ text. IsTextOfRuns machine.now.state.setting.program options.now Summary text.items) }
{
    summary(alloc, &tally_of_seeds(alloc, options, machine)?)
}

/// Makes the runs of all seeds on a machine at its start, and prints their answers.
fn answers_on(alloc: Global, options: &SweepOptions, machine: &Machine) -> Result<Vec<u8>, Memory>
    requires limits { IsSweepInRange options.now }
    requires machine { IsInitialMachine machine.now.state.setting.program (shape_for machine.now.state.setting.program (options_at options.now 0)) options.now.fuel machine.now }
    ensures { IfOk result (λ text. IsTextOfRuns machine.now.state.setting.program options.now Answers text.items) }
{
    answer_table(alloc, &tally_of_seeds(alloc, options, machine)?.answers)
}

/// Makes the runs of all seeds on a machine at its start, and prints each.
fn table_on(alloc: Global, options: &SweepOptions, machine: &Machine) -> Result<Vec<u8>, Memory>
    requires limits { IsSweepInRange options.now }
    requires machine { IsInitialMachine machine.now.state.setting.program (shape_for machine.now.state.setting.program (options_at options.now 0)) options.now.fuel machine.now }
    ensures { IfOk result (λ text. IsTextOfRuns machine.now.state.setting.program options.now Csv text.items) }
{
    table(alloc, options, machine)
}

/// Makes the runs of all seeds on a machine at its start, and prints them in the form that is asked for.
fn text_on(alloc: Global, options: &SweepOptions, machine: &Machine) -> Result<Vec<u8>, Memory>
    requires limits { IsSweepInRange options.now }
    requires machine { IsInitialMachine machine.now.state.setting.program (shape_for machine.now.state.setting.program (options_at options.now 0)) options.now.fuel machine.now }
    ensures { IfOk result (λ text. IsTextOfRuns machine.now.state.setting.program options.now options.now.form text.items) }
{
    match options.form {
        Form::Summary => summary_on(alloc, options, machine),
        Form::Answers => answers_on(alloc, options, machine),
        Form::Csv => table_on(alloc, options, machine),
    }
}

/// Makes the runs of all seeds on a machine at its start, and prints them.
fn sweep_on(alloc: Global, options: &SweepOptions, machine: &Machine) -> Result<Reply, Memory>
    requires limits { IsSweepInRange options.now }
    requires machine { IsInitialMachine machine.now.state.setting.program (shape_for machine.now.state.setting.program (options_at options.now 0)) options.now.fuel machine.now }
    ensures { IfOk result (IsSweepOf machine.now.state.setting.program options.now) }
{
    Ok(reply_with(text_on(alloc, options, machine)?))
}

/// Makes the runs of a checked program by all seeds, and prints them.
fn sweep_checked(alloc: Global, options: &SweepOptions, checked: Checked) -> Result<Reply, Memory>
    requires { IsSweepInRange options.now }
    ensures { IfOk result (IsSweepOf checked options.now) }
{
    let shape = shape_of(options, checked.program());
    let machine = Machine::start(alloc, checked, shape, options.fuel)?;
    let swept = sweep_on(alloc, options, &machine);
    // for the prover alone: one call drops the machine, in place of the drops of all its parts at each exit
    drop(machine);
    swept
}

/// Makes the runs of a text's program by all seeds, and prints them.
fn sweep_text(alloc: Global, options: &SweepOptions, text: &[u8]) -> Result<Reply, Stop>
    requires { IsSweepInRange options.now }
    ensures done { IfOk result (λ reply. HasChecked text.now (λ P. IsSweepOf P options.now reply)) }
    ensures stop { IfErr result (IsStop (IsUnfit text.now)) }
{
    Ok(sweep_checked(alloc, options, checked_of(alloc, text)?)?)
}

/// The answer to options and a text: the runs of its program by all seeds, printed in the form that is asked for. A text that has
/// no checked program is refused as denovo refuses it, with the same line.
///
/// The text is assembled, checked and decoded once. What a run takes besides its events doesn't depend on the number of seeds.
///
/// # Errors
/// `Memory` where there is no room for the program, a run or the answer.
pub fn answer(alloc: Global, options: &SweepOptions, text: &[u8]) -> Result<Reply, Memory>
    requires { IsSweepInRange options.now }
    ensures { IfOk result (IsSweepAnswer options.now text.now) }
{
    match sweep_text(alloc, options, text) {
        Ok(reply) => Ok(reply),
        Err(Stop::Refused(line)) => Ok(Output {
            status: SweepStatus::Refused,
            bytes: line,
        }),
        Err(Stop::Memory) => Err(Memory),
    }
}
