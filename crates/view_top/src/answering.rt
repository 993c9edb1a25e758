ghost use Rattle.std.specs.Prelude.{◌≡◌, ◌≢◌, IfOk, IfErr};
ghost use Rattle.run_report.specs.Texts.{IsStop};
ghost use Rattle.view_top.specs.Answers.{made, usage, view_made, view_refused, IsAnswer};
ghost use Rattle.view_top.specs.Command.{IsViewInRange};

use crate::View;
use crate::accounts::account_document;
use crate::answers::answer_document;
use crate::charts::draw_document;
use crate::lists::{Numbers, lists_document};
use crate::pages::page_document;
use crate::run_data::data_document;
use crate::states::show_state;
use crate::status::ViewStatus;
use dn_base::{Memory, Sequence};
use run_report::{Refusal, Stop, refusal_line};
use std::alloc::Global;

/// A status, and all bytes that are to be written.
pub type Output = program_outside::Output<ViewStatus>;

/// The output of this status and these bytes.
pub(crate) fn output(status: ViewStatus, bytes: Sequence<u8>) -> Output
    ensures { result ≡ record { status = status; bytes = bytes } }
{
    program_outside::Output { status, bytes }
}

/// The output of what was made.
pub(crate) fn done_with(text: Vec<u8>) -> Output
    ensures { result ≡ made text.items }
{
    output(ViewStatus::Done, Sequence::from_vec(text))
}

/// The output that refuses the arguments.
///
/// # Errors
/// `Memory` where there is no room for its line.
#[tactic(auto, unfolding(run_report::specs::Refusal::refusal_of))]
pub(crate) fn refused_words(alloc: Global) -> Result<Output, Memory>
    ensures { IfOk result (λ output. output ≡ usage) }
{
    let line = refusal_line(alloc, &Refusal::Usage)?;
    Ok(output(ViewStatus::Usage, Sequence::from_vec(line)))
}

/// What each mode makes of a trace.
fn view_made(alloc: Global, view: &View, document: &[u8]) -> Result<Output, Stop>
    requires { IsViewInRange view.now }
    ensures made { IfOk result (view_made view.now document.now) }
    ensures stop { IfErr result (IsStop (view_refused view.now document.now)) }
{
    match view {
        View::Chart(options) => draw_document(alloc, options, document),
        View::Account(options) => account_document(alloc, options, document),
        View::Lists(options) => lists_document(alloc, Numbers::Lists, options, document),
        View::Traffic(options) => lists_document(alloc, Numbers::Traffic, options, document),
        View::State(options) => show_state(alloc, options, document),
        View::Answer(options) => answer_document(alloc, options, document),
        View::Page(options) => page_document(alloc, options, document),
        View::Data(options) => data_document(alloc, options, document),
    }
}

/// The answer to options and the trace.
///
/// A trace is refused exactly as the mode replay of denovo refuses it, with the same line. In the mode chart the answer is the
/// message chart of the run, as an SVG text. The options choose the events that have rows and the banks that have columns; the
/// events of the run's longest chain of dependent events, by the options' ticks, are marked. If the first row would be after the
/// run's last event, the words are refused. In the mode account the answer is the account of the run, in the groups and the form
/// of the options; as a text it follows the report of the run, which is what the mode run of denovo prints. In the mode lists it
/// is the run beside lists of sharers, in the same groups and forms, and in the mode traffic its messages by their kinds and their bytes.
///
/// In the mode state the answer is the state before the event that the options ask for, and which events are enabled there. This
/// mode also takes documents whose events are no complete run. If one of the events before the asked one is not enabled, the
/// state is the one before that event, with the status `Unreached`. If the trace has fewer events than the number that is asked
/// for, the words are refused.
///
/// In the mode answer it is the answer of the run for readers: tasks, regions and locks by their names, with numbers in the base that the
/// options ask for.
///
/// In the mode page it is the data of the page of the run, as one JSON text: without a title, with the events that the options ask for and
/// the run's longest chain by the options' ticks. Where the page's first event would be after the run's last one, the words are refused.
/// The HTML around the data is no part of the answer: the launcher of the program writes it, from `tools/page.html`.
///
/// In the mode data it is the data of the run for other programs, as one JSON text: those of a page, with the numbers and the lines of the
/// code words, what each task declares, and when each event finishes. Without a number of rows it has all events.
///
/// # Errors
/// `Memory` where there is no room for the run, for what is made of it or for the text.
pub fn answer(alloc: Global, view: &View, document: &[u8]) -> Result<Output, Memory>
    requires { IsViewInRange view.now }
    ensures { IfOk result (IsAnswer view.now document.now) }
{
    match view_made(alloc, view, document) {
        Ok(output) => Ok(output),
        Err(Stop::Refused(line)) => Ok(output(ViewStatus::Refused, line)),
        Err(Stop::Memory) => Err(Memory),
    }
}
