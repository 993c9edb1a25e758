ghost use Rattle.std.specs.Prelude.{◌≡◌, IfOk, IfErr, map, string_bytes, Some, None};
ghost use Rattle.clap.specs.Words.{rows_of, found_of};
ghost use Rattle.program_outside.specs.declared.words.WordsFault.TheVariants.{Usage};
ghost use Rattle.referee_top.specs.Command.{batch_in, referee_options, referee_mode_in, referee_mode_named, referee_options_in, referee_options_of, takes_batch};

use crate::command::referee;
use crate::mode::{RefereeMode, RefereeOptions};
use clap::ArgMatches;
use program_outside::{WordsFault, matches_by, switch, text_of};
use std::alloc::Global;

/// The mode of this name.
fn mode_named(text: &str) -> Option<RefereeMode>
    ensures { result ≡ referee_mode_named text.now }
{
    match text {
        "judge" => Some(RefereeMode::Judge),
        "diagnose" => Some(RefereeMode::Diagnose),
        "settled" => Some(RefereeMode::Settled),
        "answer" => Some(RefereeMode::Answer),
        "least" => Some(RefereeMode::Least),
        _ => None,
    }
}

/// The mode that the words ask for.
fn mode(matches: &ArgMatches<'_>) -> Option<RefereeMode>
    ensures { result ≡ referee_mode_in (rows_of (found_of matches.now)) }
{
    match text_of(matches, "mode") {
        Some(text) => mode_named(text),
        None => None,
    }
}

/// Whether several claims may follow each other, by the words.
fn batch(matches: &ArgMatches<'_>) -> Option<bool>
    ensures { result ≡ batch_in (rows_of (found_of matches.now)) }
{
    switch(matches, "batch")
}

/// Whether a mode takes several claims.
fn takes_batch(mode: RefereeMode) -> bool
    ensures { result ≡ takes_batch mode }
{
    matches!(
        mode,
        RefereeMode::Judge | RefereeMode::Diagnose | RefereeMode::Settled
    )
}

/// A mode and whether several claims may follow each other, if they may in this mode.
fn referee_options(mode: RefereeMode, batch: bool) -> Option<RefereeOptions>
    ensures { result ≡ referee_options mode batch }
{
    if batch && !takes_batch(mode) {
        None
    } else {
        Some(RefereeOptions { mode, batch })
    }
}

/// What the words ask for.
fn options(matches: &ArgMatches<'_>) -> Option<RefereeOptions>
    ensures { result ≡ referee_options_in (rows_of (found_of matches.now)) }
{
    let mode = mode(matches)?;
    let batch = batch(matches)?;
    referee_options(mode, batch)
}

/// What the arguments ask for. The program's own name isn't among them.
///
/// The command has the option `--mode`, with the value judge, diagnose, settled, answer or least, and the option `--batch`, with the
/// value on or off, and takes no other words. Each option may be given once at most, as `--mode least` or `--mode=least`. The defaults are
/// judge and off. The modes answer and least don't take `--batch on`.
///
/// # Errors
/// `Usage` if the command doesn't take the words, `Memory` if there is no room to read them.
#[tactic(auto, unfolding(crate::specs::Command::referee_options_of), using(crate::proofs::Commands::is_free, program_outside::proofs::Commands::not_taken))]
pub fn read_words(alloc: Global, words: &[String]) -> Result<RefereeOptions, WordsFault>
    ensures taken { IfOk result (λ asked. referee_options_of (map string_bytes words.now) ≡ Some asked) }
    ensures usage { IfErr result (λ fault. fault ≡ Usage → referee_options_of (map string_bytes words.now) ≡ None) }
{
    match options(&matches_by(referee(alloc)?, words)?) {
        Some(asked) => Ok(asked),
        None => Err(WordsFault::Usage),
    }
}
