ghost use Rattle.std.specs.Prelude.{◌≡◌, ◌≤◌, IfOk, IfErr, map, string_bytes, Some, None, option_map};
ghost use Rattle.std.specs.Int.{IsInRange};
ghost use Rattle.clap.specs.Words.{rows_of, found_of, first_of};
ghost use Rattle.program_outside.specs.declared.words.WordsFault.TheVariants.{Usage};
ghost use Rattle.view_top.specs.Command.{account_options_from, answer_options_from, base_in, base_named, chart_options_from, columns_in, columns_named, fit_in, fit_named, form_in, form_named, grouping_in, grouping_named, data_options_from, events_asked, view_by_mode, list_in, page_options_from, picture_options_from, plain_in, plain_named, rows_in, state_options_from, view_from, view_named, view_of, view_of_rows, with_lists, with_names, AreEventsInRange, IsChartInRange, IsDataInRange, IsPageInRange, IsViewInRange};

use crate::command::view_command;
use crate::options::{
    AccountOptions, AnswerOptions, ChartOptions, PageOptions, PictureOptions, StateOptions, View,
};
use clap::ArgMatches;
use dn_base::Sequence;
use page_data::MOST_ROWS;
use program_outside::{WordsFault, matches_by, number};
use run_account::{Form, Grouping};
use run_chart::{Columns, Fit, PlainRows};
use state_text::Base;
use std::alloc::{AllocError, Global};

/// The text of an option.
fn text_of<'a>(matches: &ArgMatches<'a>, name: &str) -> Option<&'a str>
    ensures { option_map (λ s. s.now) result ≡ first_of name.now (rows_of (found_of matches.now)) }
{
    matches.get_str(name)
}

/// How many rows are asked for, from 1 to `most`; `otherwise` where no word says it.
fn rows(matches: &ArgMatches<'_>, otherwise: u32, most: u32) -> Option<u32>
    requires { IsInRange 1 most otherwise }
    ensures value { result ≡ rows_in (rows_of (found_of matches.now)) otherwise most }
    ensures within { (n : _) → result ≡ Some n → IsInRange 1 most n }
{
    match text_of(matches, "rows") {
        Some(_) => number(matches, "rows", 1, most),
        None => Some(otherwise),
    }
}

/// The columns of this name.
fn columns_named(text: &str) -> Option<Columns>
    ensures { result ≡ columns_named text.now }
{
    match text {
        "all" => Some(Columns::All),
        "used" => Some(Columns::Used),
        _ => None,
    }
}

/// The columns that the words ask for.
fn columns(matches: &ArgMatches<'_>) -> Option<Columns>
    ensures { result ≡ columns_in (rows_of (found_of matches.now)) }
{
    match text_of(matches, "columns") {
        Some(text) => columns_named(text),
        None => None,
    }
}

/// Which plain instructions have rows, by this name.
fn plain_named(text: &str) -> Option<PlainRows>
    ensures { result ≡ plain_named text.now }
{
    match text {
        "on" => Some(PlainRows::All),
        "lines" => Some(PlainRows::Lines),
        "off" => Some(PlainRows::Hidden),
        _ => None,
    }
}

/// Which plain instructions the words ask for.
fn plain(matches: &ArgMatches<'_>) -> Option<PlainRows>
    ensures { result ≡ plain_in (rows_of (found_of matches.now)) }
{
    match text_of(matches, "plain") {
        Some(text) => plain_named(text),
        None => None,
    }
}

/// The size of a picture, by this name.
fn fit_named(text: &str) -> Option<Fit>
    ensures { result ≡ fit_named text.now }
{
    match text {
        "rows" => Some(Fit::Rows),
        "slide" => Some(Fit::Slide),
        _ => None,
    }
}

/// The size of a picture that the words ask for.
fn fit(matches: &ArgMatches<'_>) -> Option<Fit>
    ensures { result ≡ fit_in (rows_of (found_of matches.now)) }
{
    match text_of(matches, "fit") {
        Some(text) => fit_named(text),
        None => None,
    }
}

/// How the words ask for a chart to be drawn.
#[tactic(auto, unfolding(crate::specs::Command::picture_options_from))]
fn picture_options(matches: &ArgMatches<'_>) -> Option<PictureOptions>
    ensures { result ≡ picture_options_from (rows_of (found_of matches.now)) }
{
    Some(PictureOptions {
        columns: columns(matches)?,
        plain: plain(matches)?,
        fit: fit(matches)?,
    })
}

/// What a chart that is drawn so is asked, where each number is in its range; the lists of names are left empty.
#[tactic(auto, unfolding(crate::specs::Command::chart_options_from))]
fn chart_options(
    alloc: Global,
    matches: &ArgMatches<'_>,
    picture: PictureOptions,
) -> Option<ChartOptions>
    ensures value { result ≡ chart_options_from (rows_of (found_of matches.now)) picture }
    ensures limits { (o : _) → result ≡ Some o → IsChartInRange o }
{
    Some(ChartOptions {
        first: number(matches, "first", 0, 4_294_967_295)?,
        rows: rows(matches, 1000, 4096)?,
        picture,
        words: Sequence::new(alloc),
        actors: Sequence::new(alloc),
        tick_core: number(matches, "tick-core", 1, 1_000_000)?,
        tick_bank: number(matches, "tick-bank", 1, 1_000_000)?,
        tick_mail: number(matches, "tick-mail", 1, 1_000_000)?,
    })
}

/// The groups of this name.
fn grouping_named(text: &str) -> Option<Grouping>
    ensures { result ≡ grouping_named text.now }
{
    match text {
        "run" => Some(Grouping::Run),
        "phase" => Some(Grouping::Phase),
        "core" => Some(Grouping::Core),
        "region" => Some(Grouping::Region),
        _ => None,
    }
}

/// The form of this name.
fn form_named(text: &str) -> Option<Form>
    ensures { result ≡ form_named text.now }
{
    match text {
        "text" => Some(Form::Text),
        "csv" => Some(Form::Csv),
        _ => None,
    }
}

/// The groups that the words ask for.
fn grouping(matches: &ArgMatches<'_>) -> Option<Grouping>
    ensures { result ≡ grouping_in (rows_of (found_of matches.now)) }
{
    match text_of(matches, "by") {
        Some(text) => grouping_named(text),
        None => None,
    }
}

/// The form that the words ask for.
fn form(matches: &ArgMatches<'_>) -> Option<Form>
    ensures { result ≡ form_in (rows_of (found_of matches.now)) }
{
    match text_of(matches, "form") {
        Some(text) => form_named(text),
        None => None,
    }
}

/// What an account is asked, a run beside lists, and its traffic.
#[tactic(auto, unfolding(crate::specs::Command::account_options_from))]
fn account_options(matches: &ArgMatches<'_>) -> Option<AccountOptions>
    ensures { result ≡ account_options_from (rows_of (found_of matches.now)) }
{
    Some(AccountOptions {
        by: grouping(matches)?,
        form: form(matches)?,
    })
}

/// What a state is asked.
#[tactic(auto, unfolding(crate::specs::Command::state_options_from))]
fn state_options(matches: &ArgMatches<'_>) -> Option<StateOptions>
    ensures { result ≡ state_options_from (rows_of (found_of matches.now)) }
{
    Some(StateOptions {
        event: number(matches, "event", 0, 4_294_967_295)?,
    })
}

/// The base of this name.
fn base_named(text: &str) -> Option<Base>
    ensures { result ≡ base_named text.now }
{
    match text {
        "10" => Some(Base::Decimal),
        "16" => Some(Base::Hexadecimal),
        _ => None,
    }
}

/// The base that the words ask for.
fn base(matches: &ArgMatches<'_>) -> Option<Base>
    ensures { result ≡ base_in (rows_of (found_of matches.now)) }
{
    match text_of(matches, "base") {
        Some(text) => base_named(text),
        None => None,
    }
}

/// What an answer for readers is asked.
#[tactic(auto, unfolding(crate::specs::Command::answer_options_from))]
fn answer_options(matches: &ArgMatches<'_>) -> Option<AnswerOptions>
    ensures { result ≡ answer_options_from (rows_of (found_of matches.now)) }
{
    Some(AnswerOptions {
        base: base(matches)?,
    })
}

/// What a page is asked that has at most `most` events, where each number is in its range; `otherwise` where no word says how many.
#[tactic(auto, unfolding(crate::specs::Command::events_asked))]
fn events_asked(matches: &ArgMatches<'_>, otherwise: u32, most: u32) -> Option<PageOptions>
    requires { IsInRange 1 most otherwise }
    ensures value { result ≡ events_asked (rows_of (found_of matches.now)) otherwise most }
    ensures limits { (o : _) → result ≡ Some o → AreEventsInRange most o }
{
    Some(PageOptions {
        first: number(matches, "first", 0, 4_294_967_295)?,
        rows: rows(matches, otherwise, most)?,
        tick_core: number(matches, "tick-core", 1, 1_000_000)?,
        tick_bank: number(matches, "tick-bank", 1, 1_000_000)?,
        tick_mail: number(matches, "tick-mail", 1, 1_000_000)?,
    })
}

/// What a page is asked.
fn page_options(matches: &ArgMatches<'_>) -> Option<PageOptions>
    ensures value { result ≡ page_options_from (rows_of (found_of matches.now)) }
    ensures limits { (o : _) → result ≡ Some o → IsPageInRange o }
{
    events_asked(matches, 4096, MOST_ROWS)
}

/// What the data of a run are asked: all events where no word says how many.
fn data_options(matches: &ArgMatches<'_>) -> Option<PageOptions>
    ensures value { result ≡ data_options_from (rows_of (found_of matches.now)) }
    ensures limits { (o : _) → result ≡ Some o → IsDataInRange o }
{
    events_asked(matches, 4_294_967_295, 4_294_967_295)
}

/// The mode of this name, with what its own options ask for; a chart's are None where one is out of its range.
fn view_named(
    text: &str,
    chart: Option<ChartOptions>,
    account: AccountOptions,
    state: StateOptions,
    answer: AnswerOptions,
    page: PageOptions,
) -> Option<View>
    requires chart { (o : _) → chart ≡ Some o → IsChartInRange o }
    requires page { IsPageInRange page }
    ensures value { result ≡ view_named chart account state answer page text.now }
    ensures limits { (v : _) → result ≡ Some v → IsViewInRange v }
{
    match text {
        "chart" => Some(View::Chart(chart?)),
        "account" => Some(View::Account(account)),
        "lists" => Some(View::Lists(account)),
        "traffic" => Some(View::Traffic(account)),
        "state" => Some(View::State(state)),
        "answer" => Some(View::Answer(answer)),
        "page" => Some(View::Page(page)),
        _ => None,
    }
}

/// The mode of this name, in which the rows are at most those of a page.
fn view_of_rows(
    alloc: Global,
    matches: &ArgMatches<'_>,
    picture: PictureOptions,
    account: AccountOptions,
    state: StateOptions,
    answer: AnswerOptions,
    text: &str,
) -> Option<View>
    ensures value { result ≡ view_of_rows (rows_of (found_of matches.now)) picture account state answer text.now }
    ensures limits { (v : _) → result ≡ Some v → IsViewInRange v }
{
    let page = page_options(matches)?;
    let chart = chart_options(alloc, matches, picture);
    view_named(text, chart, account, state, answer, page)
}

/// The mode of this name, with what the words ask of it.
fn view_by_mode(
    alloc: Global,
    matches: &ArgMatches<'_>,
    picture: PictureOptions,
    account: AccountOptions,
    state: StateOptions,
    answer: AnswerOptions,
    all: PageOptions,
    text: &str,
) -> Option<View>
    requires all { IsDataInRange all }
    ensures value { result ≡ view_by_mode (rows_of (found_of matches.now)) picture account state answer all text.now }
    ensures limits { (v : _) → result ≡ Some v → IsViewInRange v }
{
    match text {
        "data" => Some(View::Data(all)),
        _ => view_of_rows(alloc, matches, picture, account, state, answer, text),
    }
}

/// The mode that the words ask for, with what they ask of it. Each option is in its range, also one that the mode leaves unused.
#[tactic(auto, unfolding(crate::specs::Command::view_from))]
fn asked_view(alloc: Global, matches: &ArgMatches<'_>) -> Option<View>
    ensures value { result ≡ view_from (rows_of (found_of matches.now)) }
    ensures limits { (v : _) → result ≡ Some v → IsViewInRange v }
{
    let picture = picture_options(matches)?;
    let account = account_options(matches)?;
    let state = state_options(matches)?;
    let answer = answer_options(matches)?;
    let all = data_options(matches)?;
    let text = text_of(matches, "mode")?;
    view_by_mode(alloc, matches, picture, account, state, answer, all, text)
}

/// The text of an option; empty where it has none.
fn list(alloc: Global, matches: &ArgMatches<'_>, name: &str) -> Result<Sequence<u8>, AllocError>
    ensures { IfOk result (λ list. list ≡ list_in name.now (rows_of (found_of matches.now))) }
{
    match text_of(matches, name) {
        Some(text) => Ok(Sequence::from_vec(Vec::from_slice(alloc, text.as_bytes())?)),
        None => Ok(Sequence::new(alloc)),
    }
}

/// The options of a chart with the lists of names.
fn with_names(
    alloc: Global,
    matches: &ArgMatches<'_>,
    options: ChartOptions,
) -> Result<ChartOptions, AllocError>
    ensures { IfOk result (λ named. named ≡ with_names (rows_of (found_of matches.now)) options) }
{
    Ok(ChartOptions {
        first: options.first,
        rows: options.rows,
        picture: options.picture,
        words: list(alloc, matches, "words")?,
        actors: list(alloc, matches, "actors")?,
        tick_core: options.tick_core,
        tick_bank: options.tick_bank,
        tick_mail: options.tick_mail,
    })
}

/// A view with the lists of names, if it is a chart.
fn with_lists(alloc: Global, matches: &ArgMatches<'_>, view: View) -> Result<View, AllocError>
    requires { IsViewInRange view }
    ensures value { IfOk result (λ listed. listed ≡ with_lists (rows_of (found_of matches.now)) view) }
    ensures limits { IfOk result IsViewInRange }
{
    match view {
        View::Chart(options) => Ok(View::Chart(with_names(alloc, matches, options)?)),
        View::Account(options) => Ok(View::Account(options)),
        View::Lists(options) => Ok(View::Lists(options)),
        View::Traffic(options) => Ok(View::Traffic(options)),
        View::State(options) => Ok(View::State(options)),
        View::Answer(options) => Ok(View::Answer(options)),
        View::Page(options) => Ok(View::Page(options)),
        View::Data(options) => Ok(View::Data(options)),
    }
}

/// What the arguments ask for. The program's own name isn't among them.
///
/// The command has the options `--mode`, `--first`, `--rows`, `--columns`, `--plain`, `--words`, `--actors`, `--fit`, `--tick-core`,
/// `--tick-bank`, `--tick-mail`, `--by`, `--form`, `--event` and `--base`, each with one value, and no other words; `View` has the
/// ranges of the numbers. An option may be written as `--rows 7` or `--rows=7`, and stands once at most; what isn't given is chart,
/// 0, 1000 (in the mode page 4096, in the mode data all), all, on, no list of words, none of actors, rows, 1, 10, 5, run, text, 0
/// and 10. A mode leaves the options of other modes unused, but each has to be in its range; that of the rows is the chart's in the
/// mode chart, that of the data in the mode data, and else the page's.
///
/// # Errors
/// `Usage` if the command doesn't take the words, `Memory` if there is no room to read them.
#[tactic(auto, unfolding(crate::specs::Command::view_of), using(crate::proofs::Commands::is_free, program_outside::proofs::Commands::not_taken))]
pub fn read_words(alloc: Global, words: &[String]) -> Result<View, WordsFault>
    ensures taken { IfOk result (λ view. view_of (map string_bytes words.now) ≡ Some view) }
    ensures limits { IfOk result IsViewInRange }
    ensures usage { IfErr result (λ fault. fault ≡ Usage → view_of (map string_bytes words.now) ≡ None) }
{
    let matches = matches_by(view_command(alloc)?, words)?;
    match asked_view(alloc, &matches) {
        Some(view) => Ok(with_lists(alloc, &matches, view)?),
        None => Err(WordsFault::Usage),
    }
}
