ghost use Rattle.std.specs.Prelude.{◌≡◌, IfOk, IfErr, map, option_map, string_bytes, Some, None};
ghost use Rattle.clap.specs.Words.{app_of, rows_of, found_of, first_of};
ghost use Rattle.program_outside.specs.declared.words.WordsFault.TheVariants.{Usage};
ghost use Rattle.explain_top.specs.Command.{explain_command, name_in};

use clap::{Arg, ArgAction, ArgMatches, Command};
use program_outside::{WordsFault, bare_command, matches_by, with_option};
use std::alloc::{AllocError, Global};

/// The command with its one word.
#[tactic(auto, unfolding(crate::specs::Command::explain_command))]
fn command<'a>(alloc: Global) -> Result<Command<'a>, AllocError>
    ensures { IfOk result (λ made. app_of made ≡ explain_command) }
{
    let name = Arg::new(alloc, "text")
        .action(ArgAction::Set)
        .required(true);
    with_option(bare_command(alloc, "explain"), name)
}

/// The text of an argument.
fn text_of<'a>(matches: &ArgMatches<'a>, id: &str) -> Option<&'a str>
    ensures { option_map (λ s. s.now) result ≡ first_of id.now (rows_of (found_of matches.now)) }
{
    matches.get_str(id)
}

/// The name of a text that the arguments give. The program's own name isn't among them.
///
/// The command has one word, the name, and no options. After a word `--` the name may begin with a dash.
///
/// # Errors
/// `Usage` if the command doesn't take the words, `Memory` if there is no room to read them.
#[tactic(auto, unfolding(crate::specs::Command::name_in), using(crate::proofs::Commands::is_free, program_outside::proofs::Commands::not_taken))]
pub fn text_name<'a>(alloc: Global, words: &'a [String]) -> Result<&'a str, WordsFault>
    ensures taken { IfOk result (λ name. name_in (map string_bytes words.entry.now) ≡ Some name.now) }
    ensures usage { IfErr result (λ fault. fault ≡ Usage → name_in (map string_bytes words.entry.now) ≡ None) }
{
    match text_of(&matches_by(command(alloc)?, words)?, "text") {
        Some(name) => Ok(name),
        None => Err(WordsFault::Usage),
    }
}
