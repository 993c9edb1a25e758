ghost use Rattle.std.specs.Prelude.{◌≡◌, IfOk};
ghost use Rattle.clap.specs.Words.{app_of};
ghost use Rattle.view_top.specs.Command.{view_command};

use clap::Command;
use program_outside::{OptionValue, bare_command, with_options};
use std::alloc::{AllocError, Global};

/// The options of the command, with their defaults. How many rows there are by default depends on the mode.
const OPTIONS: [(&str, OptionValue<'_>); 15] = [
    ("mode", OptionValue::Text("chart")),
    ("first", OptionValue::Number("0")),
    ("rows", OptionValue::OpenNumber),
    ("columns", OptionValue::Text("all")),
    ("plain", OptionValue::Text("on")),
    ("words", OptionValue::Text("")),
    ("actors", OptionValue::Text("")),
    ("fit", OptionValue::Text("rows")),
    ("tick-core", OptionValue::Number("1")),
    ("tick-bank", OptionValue::Number("10")),
    ("tick-mail", OptionValue::Number("5")),
    ("by", OptionValue::Text("run")),
    ("form", OptionValue::Text("text")),
    ("event", OptionValue::Number("0")),
    ("base", OptionValue::Text("10")),
];

/// The command with its fifteen options.
#[tactic(auto, unfolding(crate::specs::Command::view_command))]
pub(crate) fn view_command<'a>(alloc: Global) -> Result<Command<'a>, AllocError>
    ensures { IfOk result (λ made. app_of made ≡ view_command) }
{
    with_options(alloc, bare_command(alloc, "view"), &OPTIONS)
}
