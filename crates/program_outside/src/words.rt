ghost use Rattle.std.specs.Prelude.{◌≡◌, ◌≢◌, IfOk, IfErr, [], Some, None, true, false, map, string_bytes, option_and_then, option_map};
ghost use Rattle.std.specs.Int.{IsInRange};
ghost use Rattle.clap.specs.Words.{app_of, new_app, with_rule, rule_of, rows_of, found_of, first_of, one_of, is_simple_and_free};
ghost use Rattle.program_outside.specs.Numbers.{number_in_text};
ghost use Rattle.program_outside.specs.Words.{bare, text_rule, number_rule, open_number_rule, rule_with, with_rules, number_in, switch_in, switch_named, faults_in, values_in};
ghost use Rattle.program_outside.specs.declared.words.WordsFault.TheVariants.{Usage};

use clap::error::ErrorKind;
use clap::{Arg, ArgAction, ArgMatches, Command};
use std::alloc::{AllocError, Global};
use thiserror::Error;

/// Why arguments are refused.
#[derive(Clone, Copy, Debug, Error)]
pub enum WordsFault {
    /// The command doesn't take them.
    #[error("not words of the command")]
    Usage,
    /// There is no room to read them.
    #[error("out of memory")]
    Memory,
}

impl From<AllocError> for WordsFault {
    ghost use Rattle.program_outside.specs.declared.words.WordsFault.TheVariants.{Memory as WantsMemory};

    ghost from_gives = { λ _ fault. fault ≡ WantsMemory };

    fn from(_error: AllocError) -> WordsFault {
        WordsFault::Memory
    }
}

/// The option `--name` with one value, and its default.
pub fn text_option<'a>(alloc: Global, name: &'a str, default: &'a str) -> Arg<'a>
    ensures rule { rule_of result ≡ text_rule name.now default.now }
    ensures local { result.global ≡ false }
{
    Arg::new(alloc, name)
        .long(name)
        .action(ArgAction::Set)
        .default_value(default)
}

/// The option `--name` whose value is a number of 32 bits, and its default.
pub fn number_option<'a>(alloc: Global, name: &'a str, default: &'a str) -> Arg<'a>
    ensures rule { rule_of result ≡ number_rule name.now default.now }
    ensures local { result.global ≡ false }
{
    text_option(alloc, name, default).value_parser(clap::value_parser!(u32))
}

/// The command of this name without options. It has no flags for help and version, and its own name isn't among its words.
pub fn bare_command<'a>(alloc: Global, name: &'a str) -> Command<'a>
    ensures { app_of result ≡ bare (new_app name.now) }
{
    Command::new(alloc, name)
        .no_binary_name(true)
        .disable_help_flag(true)
        .disable_version_flag(true)
}

/// The option `--name` whose value is a number of 32 bits, without a default.
fn open_number_option<'a>(alloc: Global, name: &'a str) -> Arg<'a>
    ensures rule { rule_of result ≡ open_number_rule name.now }
    ensures local { result.global ≡ false }
{
    Arg::new(alloc, name)
        .long(name)
        .action(ArgAction::Set)
        .value_parser(clap::value_parser!(u32))
}

/// What the value of an option is, and its default.
#[derive(Clone, Copy)]
pub enum OptionValue<'a> {
    /// A text with this default.
    Text(&'a str),
    /// A number of 32 bits with this default.
    Number(&'a str),
    /// A number of 32 bits without a default.
    OpenNumber,
}

/// The option `--name` with one value of this kind.
fn option_of<'a>(alloc: Global, name: &'a str, value: OptionValue<'a>) -> Arg<'a>
    ensures rule { rule_of result ≡ rule_with value.entry name.now }
    ensures local { result.global ≡ false }
{
    match value {
        OptionValue::Text(default) => text_option(alloc, name, default),
        OptionValue::Number(default) => number_option(alloc, name, default),
        OptionValue::OpenNumber => open_number_option(alloc, name),
    }
}

/// The command with one more option.
///
/// # Errors
/// An `AllocError` if there is no room for the option.
pub fn with_option<'a>(command: Command<'a>, option: Arg<'a>) -> Result<Command<'a>, AllocError>
    requires { option.global ≡ false }
    ensures { IfOk result (λ made. app_of made ≡ with_rule (app_of command.entry) (rule_of option.entry)) }
{
    command.arg(option)
}

/// The command with these options too, in their order, each with its name.
///
/// # Errors
/// An `AllocError` if there is no room for an option.
pub fn with_options<'a>(
    alloc: Global,
    command: Command<'a>,
    options: &[(&'a str, OptionValue<'a>)],
) -> Result<Command<'a>, AllocError>
    ensures { IfOk result (λ made. app_of made ≡ with_rules (app_of command.entry) options.now) }
{
    let mut made = command;
    for option in options {
        made = with_option(made, option_of(alloc, option.0, option.1))?;
    }
    Ok(made)
}

/// The values that the words give to the command's options.
///
/// # Errors
/// `Usage` if the command doesn't take the words, `Memory` if there is no room to read them.
pub fn matches_by<'a>(
    command: Command<'a>,
    words: &'a [String],
) -> Result<ArgMatches<'a>, WordsFault>
    requires { is_simple_and_free (app_of command) ≡ true }
    ensures taken { IfOk result (λ _. faults_in (app_of command.entry) (map string_bytes words.entry.now) ≡ []) }
    ensures values { IfOk result (λ matches. rows_of (found_of matches) ≡ values_in (app_of command.entry) (map string_bytes words.entry.now)) }
    ensures usage { IfErr result (λ fault. fault ≡ Usage → faults_in (app_of command.entry) (map string_bytes words.entry.now) ≢ []) }
{
    match command.try_get_matches_from(words) {
        Ok(matches) => Ok(matches),
        Err(error) => match error.kind() {
            ErrorKind::OutOfMemory => Err(WordsFault::Memory),
            _ => Err(WordsFault::Usage),
        },
    }
}

/// The number that the value of an option writes.
fn number_of(matches: &ArgMatches<'_>, name: &str) -> Option<u32>
    ensures { result ≡ option_and_then number_in_text (one_of name.now (rows_of (found_of matches.now))) }
{
    matches.get_one::<u32>(name)
}

/// The number that is an option's value, if it is from `low` to `high`, both included.
pub fn number(matches: &ArgMatches<'_>, name: &str, low: u32, high: u32) -> Option<u32>
    ensures value { result ≡ number_in (rows_of (found_of matches.now)) name.now low high }
    ensures within { (n : _) → result ≡ Some n → IsInRange low high n }
{
    match number_of(matches, name) {
        Some(number) if low <= number && number <= high => Some(number),
        _ => None,
    }
}

/// The text that is the value of an option.
pub fn text_of<'a>(matches: &ArgMatches<'a>, name: &str) -> Option<&'a str>
    ensures { option_map (λ s. s.now) result ≡ first_of name.now (rows_of (found_of matches.now)) }
{
    matches.get_str(name)
}

/// Whether an option with this value is on; None if the value is neither `on` nor `off`.
fn switch_named(text: &str) -> Option<bool>
    ensures { result ≡ switch_named text.now }
{
    match text {
        "on" => Some(true),
        "off" => Some(false),
        _ => None,
    }
}

/// Whether an option is on, if its value is `on` or `off`.
pub fn switch(matches: &ArgMatches<'_>, name: &str) -> Option<bool>
    ensures { result ≡ switch_in (rows_of (found_of matches.now)) name.now }
{
    match text_of(matches, name) {
        Some(text) => switch_named(text),
        None => None,
    }
}
