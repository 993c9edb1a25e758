ghost use Rattle.std.specs.Prelude.{◌≡◌, IfOk};
ghost use Rattle.clap.specs.Words.{app_of};
ghost use Rattle.sweep_top.specs.Command.{sweep_command};

use clap::Command;
use program_outside::{OptionValue, bare_command, with_options};
use std::alloc::{AllocError, Global};

/// The options of the command, with their defaults.
const OPTIONS: [(&str, OptionValue<'_>); 7] = [
    ("seeds", OptionValue::Text("1..1000")),
    ("form", OptionValue::Text("summary")),
    ("retired", OptionValue::Text("on")),
    ("banks", OptionValue::Number("4")),
    ("sets", OptionValue::Number("64")),
    ("ways", OptionValue::Number("4")),
    ("fuel", OptionValue::Number("32768")),
];

/// The command with its seven options.
#[tactic(auto, unfolding(crate::specs::Command::sweep_command))]
pub(crate) fn sweep_command<'a>(alloc: Global) -> Result<Command<'a>, AllocError>
    ensures { IfOk result (λ made. app_of made ≡ sweep_command) }
{
    with_options(alloc, bare_command(alloc, "sweep"), &OPTIONS)
}
