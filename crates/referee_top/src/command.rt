ghost use Rattle.std.specs.Prelude.{◌≡◌, IfOk};
ghost use Rattle.clap.specs.Words.{app_of};
ghost use Rattle.referee_top.specs.Command.{referee_command};

use clap::Command;
use program_outside::{OptionValue, bare_command, with_options};
use std::alloc::{AllocError, Global};

/// The options of the command, with their defaults.
const OPTIONS: [(&str, OptionValue<'_>); 2] = [
    ("mode", OptionValue::Text("judge")),
    ("batch", OptionValue::Text("off")),
];

/// The command with its options.
#[tactic(auto, unfolding(crate::specs::Command::referee_command))]
pub(crate) fn referee<'a>(alloc: Global) -> Result<Command<'a>, AllocError>
    ensures { IfOk result (λ made. app_of made ≡ referee_command) }
{
    with_options(alloc, bare_command(alloc, "referee"), &OPTIONS)
}
