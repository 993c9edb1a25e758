//! The library for C, on one thread: six programs as functions, from arguments and what a program reads in memory to its answer and its
//! exit code; and a machine that the caller steps event by event. `include/denovo.h` and `include/denovo_step.h` say what a caller owes.
#![tactic(auto)]

ghost use Rattle.std.specs.Prelude.{◌≡◌, ◌≢◌, pos, None};
ghost use Rattle.std.specs.Option.{MatchOption, option_map};
ghost use Rattle.dn_base.specs.Status.{exit_code_of};
ghost use Rattle.dn_top.specs.Command.{options_of};
ghost use Rattle.program_outside.specs.Serving.{Serves};
ghost use Rattle.denovo_c.specs.Words.{block_words};
ghost use Rattle.denovo_c.specs.Calls.{IsHandedOut, before_call};
ghost use Rattle.dn_top.specs.Serving.{answer_code, Serves as ServesDenovo};
ghost use Rattle.dn_top.specs.Runs.{with_one_worker};
ghost use Rattle.view_top.specs.Answers.{IsAnswer as IsViewed};
ghost use Rattle.view_top.specs.Command.{view_of};
ghost use Rattle.view_top.specs.Status.{view_told, view_code};
ghost use Rattle.referee_top.specs.Batch.{IsAnswerTo as IsReferred};
ghost use Rattle.referee_top.specs.Command.{referee_options_of};
ghost use Rattle.referee_top.specs.Status.{referee_told, referee_code};
ghost use Rattle.explain_top.specs.Command.{name_in};
ghost use Rattle.outcomes_top.specs.Answers.{IsOutcomesAnswer};
ghost use Rattle.outcomes_top.specs.Command.{outcomes_fuel_of};
ghost use Rattle.outcomes_top.specs.Status.{outcomes_code, outcomes_told};
ghost use Rattle.denovo_c.specs.StepCalls.{IsListCall, IsOpenCall, IsStepCall};
ghost use Rattle.denovo_c.specs.Texts.{IsExplainServed};
ghost use Rattle.machine_rules.specs.Memory.{word_value};
ghost use Rattle.sweep_top.specs.Answers.{IsSweepAnswer};
ghost use Rattle.sweep_top.specs.Command.{sweep_of};
ghost use Rattle.sweep_top.specs.Status.{sweep_code, sweep_told};

mod answering;
mod buffer;
mod codes;
mod handle;
mod held_sink;
mod held_text;
mod laws;
mod loose;
mod served;
mod slice_source;
mod steps;
mod words;

pub use answering::answer_in_memory;
pub use buffer::show;
use codes::{EventCode, show_codes};
use dn_base::WordId;
use handle::Handle;
pub use held_sink::HeldSink;
pub use laws::{
    a_buffer_with_room_has_the_whole_answer, a_handle_has_a_run,
    a_smaller_buffer_has_the_first_bytes,
};
use outcomes_top::CommonOutcomes;
use referee_top::Referee;
use served::{answer_denovo, answer_explain};
pub use slice_source::SliceSource;
use std::alloc::Global;
use steps::{Sizes, enabled_codes, open_machine, step};
use sweep_top::Sweep;
use view_top::Viewer;
pub use words::words_in;

/// Answers arguments and a source, as the program `denovo` does with one worker.
///
/// `words` holds the arguments without the program's name, each ended by a zero byte. `source` is what the program reads. The
/// result is the program's exit code, from 0 to 8 and never 6. `written` becomes the length of the answer in bytes, and `out` its
/// first bytes, as many as fit. An `out` that is too small changes neither the result nor `written`.
#[unsafe(no_mangle)]
pub extern "C" fn denovo_answer(
    alloc: Global,
    words: &[u8],
    source: &[u8],
    out: &mut [u8],
    written: &mut usize,
) -> i32
    ensures answered { IsHandedOut answer_code (ServesDenovo (option_map with_one_worker (options_of (block_words words.now))) (before_call source.now))
        out.old out.new written.new result }
    ensures read { result ≢ pos 6 }
{
    let mut text = SliceSource::new(source);
    let mut sink = HeldSink::new(alloc);
    let answer = answer_denovo(alloc, words, &mut text, &mut sink);
    *written = show(sink.bytes(), out);
    i32::from(answer.status.code())
}

/// Answers arguments and the trace, as the program `view` does. The parameters are those of `denovo_answer`.
#[unsafe(no_mangle)]
pub extern "C" fn view_answer(
    alloc: Global,
    words: &[u8],
    source: &[u8],
    out: &mut [u8],
    written: &mut usize,
) -> i32
    ensures { IsHandedOut view_code (Serves view_told IsViewed (view_of (block_words words.now)) (before_call source.now)) out.old out.new written.new result }
{
    answer_in_memory::<Viewer>(alloc, words, source, out, written)
}

/// Answers arguments and a claim, as the program `referee` does. The parameters are those of `denovo_answer`.
#[unsafe(no_mangle)]
pub extern "C" fn referee_answer(
    alloc: Global,
    words: &[u8],
    source: &[u8],
    out: &mut [u8],
    written: &mut usize,
) -> i32
    ensures { IsHandedOut referee_code (Serves referee_told IsReferred (referee_options_of (block_words words.now)) (before_call source.now)) out.old out.new written.new result }
{
    answer_in_memory::<Referee>(alloc, words, source, out, written)
}

/// Answers arguments and a text, as the program `outcomes` does. The parameters are those of `denovo_answer`.
#[unsafe(no_mangle)]
pub extern "C" fn outcomes_answer(
    alloc: Global,
    words: &[u8],
    source: &[u8],
    out: &mut [u8],
    written: &mut usize,
) -> i32
    ensures { IsHandedOut outcomes_code (Serves outcomes_told IsOutcomesAnswer (outcomes_fuel_of (block_words words.now)) (before_call source.now)) out.old out.new written.new result }
{
    answer_in_memory::<CommonOutcomes>(alloc, words, source, out, written)
}

/// Answers arguments and a text, as the program `sweep` does. The parameters are those of `denovo_answer`.
#[unsafe(no_mangle)]
pub extern "C" fn sweep_answer(
    alloc: Global,
    words: &[u8],
    source: &[u8],
    out: &mut [u8],
    written: &mut usize,
) -> i32
    ensures { IsHandedOut sweep_code (Serves sweep_told IsSweepAnswer (sweep_of (block_words words.now)) (before_call source.now)) out.old out.new written.new result }
{
    answer_in_memory::<Sweep>(alloc, words, source, out, written)
}

/// Answers arguments, a text and the answer that was printed for it, as the program `explain` does where the words name this
/// text: any name stands for it. The other parameters are those of `denovo_answer`.
#[unsafe(no_mangle)]
pub extern "C" fn explain_answer(
    alloc: Global,
    words: &[u8],
    text: &[u8],
    source: &[u8],
    out: &mut [u8],
    written: &mut usize,
) -> i32
    ensures { IsHandedOut exit_code_of (IsExplainServed (name_in (block_words words.now)) text.now (before_call source.now))
        out.old out.new written.new result }
{
    let mut told = SliceSource::new(source);
    let mut sink = HeldSink::new(alloc);
    let status = answer_explain(alloc, words, text, &mut told, &mut sink);
    *written = show(sink.bytes(), out);
    i32::from(status.code())
}

/// Opens the machine of a text, as it is when a run begins, with these banks (1 to 16), sets (1 to 256), ways (1 to 16) and fuel (1 to
/// 32,768). A machine that the handle has is closed first. The result is 0, or 1 if a number is out of its range, 2 if the text is refused,
/// and 8 if there isn't enough memory, also where the text would be refused; then the handle has no machine.
#[unsafe(no_mangle)]
pub extern "C" fn denovo_open(
    alloc: Global,
    machine: &mut Handle,
    text: &[u8],
    banks: u32,
    sets: u32,
    ways: u32,
    fuel: u32,
) -> i32
    ensures { IsOpenCall text.now (record { banks = banks; sets = sets; ways = ways; fuel = fuel }) machine.new.machine result }
{
    let before = machine.take(alloc);
    drop(before);
    let sizes = Sizes {
        banks,
        sets,
        ways,
        fuel,
    };
    match open_machine(alloc, text, sizes) {
        Ok(held) => {
            machine.put(held);
            0
        }
        Err(why) => why.code(),
    }
}

/// Lists the enabled events: `written` becomes their number, and `out` shows the first of them, as many as fit. The result is 0, or 1 if
/// there is no machine, and 8 if an event is enabled and there isn't enough memory.
#[unsafe(no_mangle)]
pub extern "C" fn denovo_enabled(
    alloc: Global,
    machine: &mut Handle,
    out: &mut [EventCode],
    written: &mut usize,
) -> i32
    ensures stays { machine.new.machine ≡ machine.old.machine }
    ensures listed { IsListCall machine.old.machine out.old out.new written.new result }
{
    *written = 0;
    let Some(held) = machine.take(alloc) else {
        return 1;
    };
    let listed = enabled_codes(alloc, &held);
    machine.put(held);
    match listed {
        Ok(codes) => {
            *written = show_codes(codes.as_slice(), out);
            0
        }
        Err(_) => 8,
    }
}

/// Makes an event. The result is 0; or 1 if there is no machine or no such event, or it has made 4,000,000,000 events; 3 if the event isn't
/// enabled; and 8 if it is enabled and there isn't enough memory. Then the machine stays as it is.
#[unsafe(no_mangle)]
pub extern "C" fn denovo_step(alloc: Global, machine: &mut Handle, event: &EventCode) -> i32
    ensures { IsStepCall machine.old.machine machine.new.machine event.now result }
{
    let Some(mut held) = machine.take(alloc) else {
        return 1;
    };
    let result = step(&mut held, *event);
    machine.put(held);
    result.code()
}

/// The value of a data word; 0 for any other word, and if there is no machine.
#[unsafe(no_mangle)]
pub extern "C" fn denovo_word(alloc: Global, machine: &mut Handle, word: u32) -> u32
    ensures stays { machine.new.machine ≡ machine.old.machine }
    ensures word { MatchOption machine.old.machine (result ≡ 0) (λ m. result ≡ word_value m.state word) }
{
    let Some(held) = machine.take(alloc) else {
        return 0;
    };
    let value = held.word(WordId(word));
    machine.put(held);
    value
}

/// How many events the machine has made; 0 if there is no machine.
#[unsafe(no_mangle)]
pub extern "C" fn denovo_made(alloc: Global, machine: &mut Handle) -> u64
    ensures stays { machine.new.machine ≡ machine.old.machine }
    ensures made { MatchOption machine.old.machine (result ≡ 0) (λ m. result ≡ m.made) }
{
    let Some(held) = machine.take(alloc) else {
        return 0;
    };
    let made = held.made();
    machine.put(held);
    made
}

/// Closes the machine, if there is one. The handle has none then.
#[unsafe(no_mangle)]
pub extern "C" fn denovo_close(alloc: Global, machine: &mut Handle)
    ensures { machine.new.machine ≡ None }
{
    let held = machine.take(alloc);
    drop(held);
}
