//! The words of a chart.
ghost use Rattle.std.specs.Prelude.{◌≡◌, ◌++◌, ◌-◌, codes, slice_get, option_copied, OnOk};
ghost use Rattle.std.specs.Fmt.{decimal};
ghost use Rattle.text_pieces.specs.Pieces.{space};
ghost use Rattle.run_report.specs.Run.{event_word};
ghost use Rattle.text_places.specs.Texts.{lock_text, word_text};
ghost use Rattle.run_chart.specs.Labels.{actor_name, actors_text, caches_text, change_text, code_label, events_text, instruction_text, label_text, machine_text, named, state_words, task_end_text, title_begin, title_text, valued, waiting_text};

use crate::parts::{About, Chart, ChartRow};
use crate::states::{WordChange, WordState};
use dn_base::{LockId, Memory, PhaseId, Shape, WordId};
use message_net::{Actor, EventKind};
use run_report::{event_name, push_end};
use rv_core::{End, EndShown};
use rv_listing::push_code_word;
use text_pieces::Piece::{Bytes, Number};
use text_pieces::{push, push_pieces, to_hexadecimal};
use text_places::{CodePlace, Located, push_code_place, push_lock, push_word};

/// Adds a name and a number.
#[tactic(auto, unfolding(crate::specs::Labels::named))]
pub(crate) fn push_named(out: &mut Vec<u8>, name: &[u8], number: u32) -> Result<(), Memory>
    ensures { OnOk result (out.new.items ≡ out.old.items ++ named name.now number) }
{
    push_pieces(out, &[Bytes(name), Bytes(b" "), Number(number)])
}

/// Adds an actor's name.
#[tactic(auto, unfolding(crate::specs::Labels::actor_name))]
pub(crate) fn push_actor(out: &mut Vec<u8>, actor: Actor) -> Result<(), Memory>
    ensures { OnOk result (out.new.items ≡ out.old.items ++ actor_name actor) }
{
    match actor {
        Actor::Core(core) => push_named(out, b"core", core.0),
        Actor::Bank(bank) => push_named(out, b"bank", bank.0),
        Actor::Keeper => push(out, b"keeper"),
    }
}

/// Adds a name and a value.
#[tactic(auto, unfolding(crate::specs::Labels::valued))]
fn push_valued(out: &mut Vec<u8>, name: &[u8], value: u32) -> Result<(), Memory>
    ensures { OnOk result (out.new.items ≡ out.old.items ++ valued name.now value) }
{
    push_pieces(
        out,
        &[Bytes(name), Bytes(b" "), Bytes(&to_hexadecimal(value))],
    )
}

/// Adds what an actor has for a word.
#[tactic(auto, unfolding(crate::specs::Labels::state_words))]
fn push_state(out: &mut Vec<u8>, state: WordState) -> Result<(), Memory>
    ensures { OnOk result (out.new.items ≡ out.old.items ++ state_words state) }
{
    match state {
        WordState::Absent => push(out, b"none"),
        WordState::Valid(value) => push_valued(out, b"valid", value),
        WordState::Touched(value) => push_valued(out, b"touched", value),
        WordState::Registered(value) => push_valued(out, b"registered", value),
        WordState::Pending(value) => push_valued(out, b"pending", value),
        WordState::Leaving(value) => push_valued(out, b"leaving", value),
        WordState::Home(value) => push_valued(out, b"home", value),
        WordState::At(core) => push_named(out, b"at core", core.0),
    }
}

/// Adds a word's name and its number.
fn push_word_begin(out: &mut Vec<u8>, text: &Located, word: WordId) -> Result<(), Memory>
    ensures { OnOk result (out.new.items ≡ out.old.items ++ (word_text text.now.program.regions word.0 ++ codes " (word " ++ decimal word.0 ++ codes "): ")) }
{
    push_word(out, &text.program, word.0)?;
    push_pieces(out, &[Bytes(b" (word "), Number(word.0), Bytes(b"): ")])
}

/// Adds what becomes of a word.
#[tactic(auto, unfolding(crate::specs::Labels::change_text))]
pub(crate) fn push_change_text(
    out: &mut Vec<u8>,
    text: &Located,
    change: WordChange,
) -> Result<(), Memory>
    ensures { OnOk result (out.new.items ≡ out.old.items ++ change_text text.now change) }
{
    push_word_begin(out, text, change.word)?;
    push_state(out, change.before)?;
    push(out, b" &#8594; ")?;
    push_state(out, change.after)
}

/// Adds an instruction after its line.
#[tactic(auto, unfolding(crate::specs::Labels::instruction_text))]
fn push_instruction(out: &mut Vec<u8>, place: CodePlace, word: u32) -> Result<(), Memory>
    ensures { OnOk result (out.new.items ≡ out.old.items ++ instruction_text place word) }
{
    push_code_place(out, place)?;
    push(out, b": ")?;
    push_code_word(out, word)
}

/// Adds a code word of the text, or the kind of the event where there is none.
fn push_code(
    out: &mut Vec<u8>,
    place: Option<CodePlace>,
    word: Option<&u32>,
    kind: EventKind,
) -> Result<(), Memory>
    ensures { OnOk result (out.new.items ≡ out.old.items ++ code_label place (option_copied word.entry) kind) }
{
    match (place, word) {
        (Some(place), Some(word)) => push_instruction(out, place, *word),
        _ => push(out, event_name(kind)),
    }
}

/// Adds what an event or a message about a word is.
fn push_word_label(
    out: &mut Vec<u8>,
    text: &Located,
    kind: EventKind,
    word: WordId,
) -> Result<(), Memory>
    ensures { OnOk result (out.new.items ≡ out.old.items ++ (event_word kind ++ space ++ word_text text.now.program.regions word.0)) }
{
    push_pieces(out, &[Bytes(event_name(kind)), Bytes(b" ")])?;
    push_word(out, &text.program, word.0)
}

/// The same of one about a lock.
fn push_lock_label(
    out: &mut Vec<u8>,
    text: &Located,
    kind: EventKind,
    lock: LockId,
) -> Result<(), Memory>
    ensures { OnOk result (out.new.items ≡ out.old.items ++ (event_word kind ++ space ++ lock_text text.now.program.locks lock.0)) }
{
    push_pieces(out, &[Bytes(event_name(kind)), Bytes(b" ")])?;
    push_lock(out, text.program.locks.as_slice(), lock.0 as usize)
}

/// The same of one about a phase.
#[tactic(auto, unfolding(crate::specs::Labels::named))]
fn push_phase_label(out: &mut Vec<u8>, kind: EventKind, phase: PhaseId) -> Result<(), Memory>
    ensures { OnOk result (out.new.items ≡ out.old.items ++ (event_word kind ++ named (codes " phase") phase.0)) }
{
    push_pieces(
        out,
        &[Bytes(event_name(kind)), Bytes(b" phase "), Number(phase.0)],
    )
}

/// Adds what an event or a message is, and what it is about.
#[tactic(auto, unfolding(crate::specs::Labels::label_text))]
pub(crate) fn push_label(
    out: &mut Vec<u8>,
    text: &Located,
    kind: EventKind,
    about: About,
) -> Result<(), Memory>
    ensures { OnOk result (out.new.items ≡ out.old.items ++ label_text text.now kind about) }
{
    match about {
        About::Nothing => push(out, event_name(kind)),
        About::Code(number) => push_code(
            out,
            text.places.code_word(number as usize),
            text.program.code.get(number as usize),
            kind,
        ),
        About::Word(word) => push_word_label(out, text, kind, word),
        About::Lock(lock) => push_lock_label(out, text, kind, lock),
        About::Phase(phase) => push_phase_label(out, kind, phase),
    }
}

/// Adds how a task ends.
#[tactic(auto, unfolding(crate::specs::Labels::task_end_text))]
pub(crate) fn push_ending(out: &mut Vec<u8>, end: End) -> Result<(), Memory>
    ensures { OnOk result (out.new.items ≡ out.old.items ++ task_end_text end) }
{
    push(out, b"ends: ")?;
    push_end(out, EndShown::from(end))
}

/// Adds that a task waits for a lock.
#[tactic(auto, unfolding(crate::specs::Labels::waiting_text))]
pub(crate) fn push_waiting(out: &mut Vec<u8>, text: &Located, lock: LockId) -> Result<(), Memory>
    ensures { OnOk result (out.new.items ≡ out.old.items ++ waiting_text text.now lock.0) }
{
    push(out, b"waits for ")?;
    push_lock(out, text.program.locks.as_slice(), lock.0 as usize)
}

/// Adds which events the range has, by the first and the last of them.
#[tactic(auto, unfolding(crate::specs::Labels::empty_text, crate::specs::Labels::no_event, crate::specs::Labels::numbers_text, crate::specs::Labels::title_begin))]
fn push_events(out: &mut Vec<u8>, first: u32, last: Option<u32>, events: u32) -> Result<(), Memory>
    ensures { OnOk result (out.new.items ≡ out.old.items ++ (title_begin ++ events_text first last events)) }
{
    let events = Number(events);
    match last {
        Some(last) => push_pieces(
            out,
            &[
                Bytes(b"Message chart: events "),
                Number(first),
                Bytes(b" to "),
                Number(last),
                Bytes(b" of "),
                events,
            ],
        ),
        None => push_pieces(out, &[Bytes(b"Message chart: no event of "), events]),
    }
}

/// Adds the title.
#[tactic(auto, unfolding(crate::specs::Labels::title_text))]
pub(crate) fn push_title(out: &mut Vec<u8>, chart: &Chart) -> Result<(), Memory>
    ensures { OnOk result (out.new.items ≡ out.old.items ++ title_text chart.now) }
{
    push_events(out, chart.first, chart.last, chart.events)?;
    push(out, chart.note.as_slice())
}

#[tactic(auto, unfolding(crate::specs::Labels::actors_text, crate::specs::Labels::machine_begin, crate::specs::Labels::named))]
fn push_actors(out: &mut Vec<u8>, shape: Shape) -> Result<(), Memory>
    ensures { OnOk result (out.new.items ≡ out.old.items ++ actors_text shape) }
{
    push_pieces(
        out,
        &[
            Bytes(b"Machine: cores "),
            Number(shape.cores),
            Bytes(b", banks "),
            Number(shape.banks),
        ],
    )
}

#[tactic(auto, unfolding(crate::specs::Labels::caches_text, crate::specs::Labels::named))]
fn push_caches(out: &mut Vec<u8>, shape: Shape, fuel: u32) -> Result<(), Memory>
    ensures { OnOk result (out.new.items ≡ out.old.items ++ caches_text shape fuel) }
{
    push_pieces(
        out,
        &[
            Bytes(b", sets "),
            Number(shape.sets),
            Bytes(b", ways "),
            Number(shape.ways),
            Bytes(b", fuel "),
            Number(fuel),
        ],
    )
}

/// Adds the size of the machine.
#[tactic(auto, unfolding(crate::specs::Labels::machine_text))]
pub(crate) fn push_machine(out: &mut Vec<u8>, shape: Shape, fuel: u32) -> Result<(), Memory>
    ensures { OnOk result (out.new.items ≡ out.old.items ++ machine_text shape fuel) }
{
    push_actors(out, shape)?;
    push_caches(out, shape, fuel)
}
