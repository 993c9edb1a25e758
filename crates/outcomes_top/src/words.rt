ghost use Rattle.std.specs.Prelude.{◌≡◌, IfOk, IfErr, map, string_bytes, Some, None};
ghost use Rattle.std.specs.Int.{IsInRange};
ghost use Rattle.program_outside.specs.declared.words.WordsFault.TheVariants.{Usage};
ghost use Rattle.outcomes_top.specs.Command.{outcomes_fuel_of};

use crate::command::outcomes_command;
use program_outside::{WordsFault, matches_by, number};
use std::alloc::Global;

/// The fuel that the arguments ask for, from 1 to 32,768. The program's own name isn't among them.
///
/// The command has the option `--fuel`, and takes no other words. The option may be given once at most, as `--fuel 7` or
/// `--fuel=7`. The default is 32768.
///
/// # Errors
/// `Usage` if the command doesn't take the words, `Memory` if there is no room to read them.
#[tactic(auto, unfolding(crate::specs::Command::outcomes_fuel_of), using(crate::proofs::Commands::is_free, program_outside::proofs::Commands::not_taken))]
pub fn read_words(alloc: Global, words: &[String]) -> Result<u32, WordsFault>
    ensures taken { IfOk result (λ fuel. outcomes_fuel_of (map string_bytes words.now) ≡ Some fuel) }
    ensures limits { IfOk result (IsInRange 1 32768) }
    ensures usage { IfErr result (λ fault. fault ≡ Usage → outcomes_fuel_of (map string_bytes words.now) ≡ None) }
{
    match number(
        &matches_by(outcomes_command(alloc)?, words)?,
        "fuel",
        1,
        32_768,
    ) {
        Some(fuel) => Ok(fuel),
        None => Err(WordsFault::Usage),
    }
}
