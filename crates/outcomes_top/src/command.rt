ghost use Rattle.std.specs.Prelude.{◌≡◌, IfOk};
ghost use Rattle.clap.specs.Words.{app_of};
ghost use Rattle.outcomes_top.specs.Command.{outcomes_command};

use clap::Command;
use program_outside::{OptionValue, bare_command, with_options};
use std::alloc::{AllocError, Global};

/// The option of the command, with its default.
const OPTIONS: [(&str, OptionValue<'_>); 1] = [("fuel", OptionValue::Number("32768"))];

/// The command with its one option.
#[tactic(auto, unfolding(crate::specs::Command::outcomes_command))]
pub(crate) fn outcomes_command<'a>(alloc: Global) -> Result<Command<'a>, AllocError>
    ensures { IfOk result (λ made. app_of made ≡ outcomes_command) }
{
    with_options(alloc, bare_command(alloc, "outcomes"), &OPTIONS)
}
