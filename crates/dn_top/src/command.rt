ghost use Rattle.std.specs.Prelude.{◌≡◌, IfOk};
ghost use Rattle.clap.specs.Words.{app_of};
ghost use Rattle.dn_top.specs.Command.{command};

use clap::Command;
use program_outside::{OptionValue, bare_command, with_options};
use std::alloc::{AllocError, Global};

/// The options of the command, with their defaults.
const OPTIONS: [(&str, OptionValue<'_>); 15] = [
    ("mode", OptionValue::Text("run")),
    ("addresses", OptionValue::Text("off")),
    ("seed", OptionValue::Number("1")),
    ("workers", OptionValue::Number("1")),
    ("banks", OptionValue::Number("4")),
    ("sets", OptionValue::Number("64")),
    ("ways", OptionValue::Number("4")),
    ("fuel", OptionValue::Number("32768")),
    ("size", OptionValue::Number("4")),
    ("tick-core", OptionValue::Number("1")),
    ("tick-bank", OptionValue::Number("10")),
    ("tick-mail", OptionValue::Number("5")),
    ("order", OptionValue::Text("seed")),
    ("latency", OptionValue::Number("0")),
    ("net", OptionValue::Text("uniform")),
];

/// The command with its fifteen options.
#[tactic(auto, unfolding(crate::specs::Command::command))]
pub(crate) fn denovo<'a>(alloc: Global) -> Result<Command<'a>, AllocError>
    ensures { IfOk result (λ made. app_of made ≡ command) }
{
    with_options(alloc, bare_command(alloc, "denovo"), &OPTIONS)
}
