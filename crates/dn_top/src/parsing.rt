ghost use Rattle.std.specs.Prelude.{◌≡◌, IfOk, IfErr, map, string_bytes, Some, None, option_map};
ghost use Rattle.clap.specs.Words.{rows_of, found_of, first_of};
ghost use Rattle.dn_top.specs.Command.{mode_named, mode_in, net_named, net_in, order_by, order_in, order_named, options_from, options_of, OptionsInRange};
ghost use Rattle.dn_top.specs.declared.options.Order.TheVariants.{Time as TimeOrder};
ghost use Rattle.program_outside.specs.declared.words.WordsFault.TheVariants.{Usage};

use crate::command::denovo;
use crate::options::{Mode, Options, Order};
use clap::ArgMatches;
use program_outside::{WordsFault, matches_by, number, switch, text_of};
use run_timing::Net;
use std::alloc::Global;

/// The mode with this name.
fn mode_named(text: &str) -> Option<Mode>
    ensures { result ≡ mode_named text.now }
{
    match text {
        "run" => Some(Mode::Run),
        "work" => Some(Mode::Work),
        "check" => Some(Mode::Check),
        "list" => Some(Mode::List),
        "flat" => Some(Mode::Flat),
        "trace" => Some(Mode::Trace),
        "replay" => Some(Mode::Replay),
        "time" => Some(Mode::Time),
        "prove" => Some(Mode::Prove),
        _ => None,
    }
}

/// The mode that the words ask for.
fn mode(matches: &ArgMatches<'_>) -> Option<Mode>
    ensures { result ≡ mode_in (rows_of (found_of matches.now)) }
{
    match text_of(matches, "mode") {
        Some(text) => mode_named(text),
        None => None,
    }
}

/// The order with this name.
fn order_named(text: &str) -> Option<Order>
    ensures { result ≡ order_named text.now }
{
    match text {
        "seed" => Some(Order::Seed),
        "time" => Some(Order::Time),
        _ => None,
    }
}

/// The same, if this many workers can make a run in it.
fn order_by(workers: u32, order: Order) -> Option<Order>
    ensures value { result ≡ order_by workers order }
    ensures alone { result ≡ Some TimeOrder → workers ≡ 1 }
{
    match order {
        Order::Seed => Some(Order::Seed),
        Order::Time if workers == 1 => Some(Order::Time),
        Order::Time => None,
    }
}

/// The order that the words ask for, for this many workers.
fn order(matches: &ArgMatches<'_>, workers: u32) -> Option<Order>
    ensures value { result ≡ order_in workers (rows_of (found_of matches.now)) }
    ensures alone { result ≡ Some TimeOrder → workers ≡ 1 }
{
    match text_of(matches, "order") {
        Some(text) => order_by(workers, order_named(text)?),
        None => None,
    }
}

/// The network with this name.
fn net_named(text: &str) -> Option<Net>
    ensures { result ≡ net_named text.now }
{
    match text {
        "uniform" => Some(Net::Uniform),
        "mesh" => Some(Net::Mesh),
        _ => None,
    }
}

/// The network that the words ask for.
fn net(matches: &ArgMatches<'_>) -> Option<Net>
    ensures { result ≡ net_in (rows_of (found_of matches.now)) }
{
    match text_of(matches, "net") {
        Some(text) => net_named(text),
        None => None,
    }
}

/// The options that the values give, if the mode is one of the nine, each number is in its range, a run in time order has one worker,
/// and the network is one of the two.
#[tactic(auto, unfolding(crate::specs::Command::options_from))]
fn options(matches: &ArgMatches<'_>) -> Option<Options>
    ensures value { result ≡ options_from (rows_of (found_of matches.now)) }
    ensures limits { (o : _) → result ≡ Some o → OptionsInRange o }
{
    let mode = mode(matches)?;
    let addresses = switch(matches, "addresses")?;
    let seed = number(matches, "seed", 0, 4_294_967_295)?;
    let workers = number(matches, "workers", 1, 16)?;
    Some(Options {
        mode,
        addresses,
        seed,
        workers,
        banks: number(matches, "banks", 1, 16)?,
        sets: number(matches, "sets", 1, 256)?,
        ways: number(matches, "ways", 1, 16)?,
        fuel: number(matches, "fuel", 1, 32_768)?,
        size: number(matches, "size", 1, 128)?,
        tick_core: number(matches, "tick-core", 1, 1_000_000)?,
        tick_bank: number(matches, "tick-bank", 1, 1_000_000)?,
        tick_mail: number(matches, "tick-mail", 1, 1_000_000)?,
        order: order(matches, workers)?,
        latency: number(matches, "latency", 0, 1_000_000)?,
        net: net(matches)?,
    })
}

/// What the arguments ask for. The program's own name isn't among them.
///
/// The options are `--mode`, `--addresses`, `--seed`, `--workers`, `--banks`, `--sets`, `--ways`, `--fuel`, `--size`, `--tick-core`,
/// `--tick-bank`, `--tick-mail`, `--order`, `--latency` and `--net`. Each has one value, whose range stands in `Options`, and may be
/// given once at most, as `--seed 7` or `--seed=7`. The defaults are run, off, 1, 1, 4, 64, 4, 32768, 4, 1, 10, 5, seed, 0 and uniform.
/// No other words are taken.
///
/// # Errors
/// `Usage` if the command doesn't take the words, `Memory` if there is no room to read them.
#[tactic(auto, unfolding(crate::specs::Command::options_of), using(crate::proofs::Commands::is_free, program_outside::proofs::Commands::not_taken))]
pub fn read_words(alloc: Global, words: &[String]) -> Result<Options, WordsFault>
    ensures taken { IfOk result (λ options. options_of (map string_bytes words.now) ≡ Some options) }
    ensures limits { IfOk result OptionsInRange }
    ensures usage { IfErr result (λ fault. fault ≡ Usage → options_of (map string_bytes words.now) ≡ None) }
{
    match options(&matches_by(denovo(alloc)?, words)?) {
        Some(options) => Ok(options),
        None => Err(WordsFault::Usage),
    }
}
