ghost use Rattle.std.specs.Prelude.{◌≡◌, IfOk, IfErr, map, string_bytes, Some, None, option_map};
ghost use Rattle.clap.specs.Words.{rows_of, found_of};
ghost use Rattle.program_outside.specs.Numbers.{number_in_text};
ghost use Rattle.program_outside.specs.declared.words.WordsFault.TheVariants.{Usage};
ghost use Rattle.sweep_top.specs.Command.{around_dot, sweep_form_in, sweep_form_named, seeds_behind, seeds_between, seeds_in, seeds_named, seeds_of, sweep_from, sweep_of, AreSeeds, IsSweepInRange};

use crate::command::sweep_command;
use crate::options::{Form, MOST_SEEDS, Seeds, SweepOptions};
use clap::ArgMatches;
use program_outside::{WordsFault, matches_by, number, switch, text_of};
use std::alloc::Global;

/// The number of 32 bits that a text writes in decimal digits.
fn number_in(text: &str) -> Option<u32>
    ensures { result ≡ number_in_text text.now }
{
    match text.parse::<u32>() {
        Ok(number) => Some(number),
        Err(_) => None,
    }
}

/// What stands before the first dot of a text, and what stands behind it.
fn around_dot(text: &str) -> Option<(&str, &str)>
    ensures { option_map (λ parts. (parts.0.now, parts.1.now)) result ≡ around_dot text.now }
{
    text.split_once('.')
}

/// The seeds from the first one to the last one.
fn seeds_between(first: u32, last: u32) -> Option<Seeds>
    ensures value { result ≡ seeds_between first last }
    ensures limits { (s : _) → result ≡ Some s → AreSeeds s }
{
    if first <= last && last - first < MOST_SEEDS {
        Some(Seeds { first, last })
    } else {
        None
    }
}

/// The seeds between two numbers that stand in texts.
fn seeds_of(first: &str, last: &str) -> Option<Seeds>
    ensures value { result ≡ seeds_of first.now last.now }
    ensures limits { (s : _) → result ≡ Some s → AreSeeds s }
{
    seeds_between(number_in(first)?, number_in(last)?)
}

/// The seeds that a text as `1..1000` names.
#[tactic(auto, unfolding(crate::specs::Command::seeds_named))]
fn seeds_named(text: &str) -> Option<Seeds>
    ensures value { result ≡ seeds_named text.now }
    ensures limits { (s : _) → result ≡ Some s → AreSeeds s }
{
    let (first, behind) = around_dot(text)?;
    let (between, last) = around_dot(behind)?;
    if between.len() == 0 {
        seeds_of(first, last)
    } else {
        None
    }
}

/// The form of this name.
fn form_named(text: &str) -> Option<Form>
    ensures { result ≡ sweep_form_named text.now }
{
    match text {
        "summary" => Some(Form::Summary),
        "answers" => Some(Form::Answers),
        "csv" => Some(Form::Csv),
        _ => None,
    }
}

/// The seeds that the words ask for.
fn seeds(matches: &ArgMatches<'_>) -> Option<Seeds>
    ensures value { result ≡ seeds_in (rows_of (found_of matches.now)) }
    ensures limits { (s : _) → result ≡ Some s → AreSeeds s }
{
    match text_of(matches, "seeds") {
        Some(text) => seeds_named(text),
        None => None,
    }
}

/// The form that the words ask for.
fn form(matches: &ArgMatches<'_>) -> Option<Form>
    ensures { result ≡ sweep_form_in (rows_of (found_of matches.now)) }
{
    match text_of(matches, "form") {
        Some(text) => form_named(text),
        None => None,
    }
}

/// What the values of the options ask for, where each is in its range.
#[tactic(auto, unfolding(crate::specs::Command::sweep_from))]
fn sweep(matches: &ArgMatches<'_>) -> Option<SweepOptions>
    ensures value { result ≡ sweep_from (rows_of (found_of matches.now)) }
    ensures limits { (o : _) → result ≡ Some o → IsSweepInRange o }
{
    Some(SweepOptions {
        seeds: seeds(matches)?,
        form: form(matches)?,
        retired: switch(matches, "retired")?,
        banks: number(matches, "banks", 1, 16)?,
        sets: number(matches, "sets", 1, 256)?,
        ways: number(matches, "ways", 1, 16)?,
        fuel: number(matches, "fuel", 1, 32_768)?,
    })
}

/// What the arguments ask for. The program's own name isn't among them.
///
/// The command has the options `--seeds`, `--form`, `--retired`, `--banks`, `--sets`, `--ways` and `--fuel`, each with one value, and
/// takes no other words. The seeds are written as `1..1000`: the first and the last one, at most 1,000,000. `SweepOptions` has the
/// ranges of the numbers. An option may be given once at most, as `--fuel 7` or `--fuel=7`. The defaults are 1..1000, summary, on, 4,
/// 64, 4 and 32768.
///
/// # Errors
/// `Usage` if the command doesn't take the words, `Memory` if there is no room to read them.
#[tactic(auto, unfolding(crate::specs::Command::sweep_of), using(crate::proofs::Commands::is_free, program_outside::proofs::Commands::not_taken))]
pub fn read_words(alloc: Global, words: &[String]) -> Result<SweepOptions, WordsFault>
    ensures taken { IfOk result (λ options. sweep_of (map string_bytes words.now) ≡ Some options) }
    ensures limits { IfOk result IsSweepInRange }
    ensures usage { IfErr result (λ fault. fault ≡ Usage → sweep_of (map string_bytes words.now) ≡ None) }
{
    match sweep(&matches_by(sweep_command(alloc)?, words)?) {
        Some(options) => Ok(options),
        None => Err(WordsFault::Usage),
    }
}
