ghost use Rattle.std.specs.Prelude.{◌≡◌, map, string_bytes};
ghost use Rattle.program_outside.specs.Outside.{devices_of, sink_of};
ghost use Rattle.program_outside.specs.Serving.{IsInputServed, IsMade, IsSourceServed, IsUnreadFor, IsWritten, Serves, ServesWithin, usage};

use crate::WordsFault;
use crate::ends::{EndStatus, Failure, Output};
use crate::programs::{Answers, Program};
use crate::reading::{ReadError, read_text};
use crate::writing::write_text;
use dn_base::{Memory, Sink, Source};
use std::alloc::Global;

/// Writes these bytes, and returns this status, or the one that tells `WriteFault` where the sink failed.
fn finish<E: EndStatus, K: Sink>(sink: &mut K, bytes: &[u8], status: E) -> E
    ensures { IsWritten E.told (record { status = status; bytes = bytes.now }) (sink_of K.Sink sink.old) (sink_of K.Sink sink.new) result }
{
    match write_text(sink, bytes) {
        Ok(()) => status,
        Err(_) => E::of(Failure::WriteFault),
    }
}

/// Refuses the arguments.
pub fn refuse_words<E: EndStatus, K: Sink>(sink: &mut K) -> E
    ensures { IsWritten E.told (usage E.told) (sink_of K.Sink sink.old) (sink_of K.Sink sink.new) result }
{
    finish(sink, b"refused usage\n", E::of(Failure::Usage))
}

/// Writes an answer, where there was memory for it.
pub fn reply<E: EndStatus, K: Sink>(sink: &mut K, made: Result<Output<E>, Memory>) -> E
    ensures { IsMade E.told made (sink_of K.Sink sink.old) (sink_of K.Sink sink.new) result }
{
    match made {
        Ok(Output { status, bytes }) => finish(sink, bytes.as_slice(), status),
        Err(_) => E::of(Failure::Memory),
    }
}

/// The end of a call that has no text.
pub fn end_without_text<E: EndStatus>(error: ReadError) -> E
    ensures { result ≡ E.told (IsUnreadFor error) }
{
    match error {
        ReadError::Failed => E::of(Failure::ReadFault),
        ReadError::NoMemory => E::of(Failure::Memory),
    }
}

/// Reads the source to its end, or as much of it as the program reads at most, and writes the answer to what it had.
///
/// The whole answer is made before anything is written. Then it is written and flushed.
pub fn serve<P: Answers, S: Source, K: Sink>(
    alloc: Global,
    asked: &P::Asked,
    source: &mut S,
    sink: &mut K,
) -> P::Status
    requires { P.can_answer asked.now }
    ensures within { IsSourceServed P.Status.told P.most_read (P.IsAnswer asked.now) (devices_of S.Source K.Sink source.old sink.old) (devices_of S.Source K.Sink source.new sink.new) result }
    ensures serves { IsInputServed P.Status.told (P.IsAnswer asked.now) (devices_of S.Source K.Sink source.old sink.old) (devices_of S.Source K.Sink source.new sink.new) result }
{
    match read_text(alloc, P::reads_at_most(), source) {
        Ok(text) => reply(sink, P::answer(alloc, asked, text.as_slice())),
        Err(error) => end_without_text(error),
    }
}

/// Does what arguments ask for with the text of the source.
///
/// If the command doesn't take the words, the source is left alone, and a line says so.
pub fn serve_words<P: Program, S: Source, K: Sink>(
    alloc: Global,
    words: &[String],
    source: &mut S,
    sink: &mut K,
) -> P::Status
    ensures within { ServesWithin P.Status.told P.most_read P.IsAnswer (P.asked_by (map string_bytes words.now)) (devices_of S.Source K.Sink source.old sink.old) (devices_of S.Source K.Sink source.new sink.new) result }
    ensures serves { Serves P.Status.told P.IsAnswer (P.asked_by (map string_bytes words.now)) (devices_of S.Source K.Sink source.old sink.old) (devices_of S.Source K.Sink source.new sink.new) result }
{
    match P::read_words(alloc, words) {
        Ok(asked) => serve::<P, S, K>(alloc, &asked, source, sink),
        Err(WordsFault::Usage) => refuse_words(sink),
        Err(WordsFault::Memory) => P::Status::of(Failure::Memory),
    }
}
