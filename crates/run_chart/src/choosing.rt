//! Which words and actors a list of names chooses, and what the title says of the events that are left out.
ghost use Rattle.std.specs.Prelude.{◌≡◌, ◌≤◌, ◌++◌, [], length, map, IfOk, OnOk};
ghost use Rattle.std.specs.List.{range_with_len};
ghost use Rattle.text_pieces.specs.Pieces.{hexadecimal, space};
ghost use Rattle.text_places.specs.Texts.{word_text};
ghost use Rattle.run_chart.specs.Choosing.{begins, between, chooses_actor, chooses_word, count_note, follows, has_no_window, is_later_word, is_listed, keeping_of, marked_actors, marked_words, names_from, names_nothing, note_for, part_by_actors, part_by_plain, part_by_window, part_by_words, plain_note, reasons, short_name, window_note};
ghost use Rattle.run_chart.specs.Labels.{actor_name};
ghost use Rattle.run_chart.specs.Places.{actor_with};

use crate::keeping::{Keeping, PlainRows, Window};
use crate::labels::push_actor;
use crate::places::actor_with;
use dn_base::{Memory, Sequence, Shape};
use message_net::Actor;
use region_table::Program;
use std::alloc::Global;
use text_pieces::Piece::{Bytes, Long, Number};
use text_pieces::{behind, push, push_hexadecimal, push_pieces};
use text_places::{CodePlace, Located, push_word};

/// What separates the names of a list.
const COMMA: u8 = b',';

/// The greatest number of a word that can be written.
const MOST_WORDS: usize = 4_294_967_295;

/// Whether a name ends here: a comma or nothing follows.
fn ends_name(rest: &[u8]) -> bool
    ensures { result ≡ begins [] rest.now }
{
    match rest.first() {
        Some(byte) => *byte == COMMA,
        None => true,
    }
}

/// Whether a list begins with a name, which a comma or the end follows.
fn begins(name: &[u8], list: &[u8]) -> bool
    ensures { result ≡ begins name.now list.now }
{
    match behind(list, name) {
        Some(rest) => ends_name(rest),
        None => false,
    }
}

/// Whether a name is one of a list.
fn is_listed(list: &[u8], name: &[u8]) -> bool
    ensures { result ≡ is_listed list.now name.now }
{
    if begins(name, list) {
        return true;
    }
    for place in 0..list.len() {
        if list[place] == COMMA && begins(name, &list[place + 1..]) {
            return true;
        }
    }
    false
}

/// Whether a list has the name of a data word or its address.
fn chooses_word(alloc: Global, list: &[u8], text: &Located, word: u32) -> Result<bool, Memory>
    requires { word ≤ 65535 }
    ensures { IfOk result (λ is. is ≡ chooses_word list.now text.now word) }
{
    let mut name = Vec::new(alloc);
    push_word(&mut name, &text.program, word)?;
    let mut address = Vec::new(alloc);
    push_hexadecimal(&mut address, 0x1000_0000 + 4 * word)?;
    Ok(is_listed(list, name.as_slice()) || is_listed(list, address.as_slice()))
}

/// Adds an actor's name without a space.
#[tactic(auto, unfolding(crate::specs::Choosing::numbered))]
fn push_short_name(out: &mut Vec<u8>, actor: Actor) -> Result<(), Memory>
    ensures { OnOk result (out.new.items ≡ out.old.items ++ short_name actor) }
{
    match actor {
        Actor::Core(core) => push_pieces(out, &[Bytes(b"core"), Number(core.0)]),
        Actor::Bank(bank) => push_pieces(out, &[Bytes(b"bank"), Number(bank.0)]),
        Actor::Keeper => push(out, b"keeper"),
    }
}

/// Whether a list has the name of the actor with an index.
fn chooses_actor(alloc: Global, list: &[u8], shape: Shape, index: u64) -> Result<bool, Memory>
    ensures { IfOk result (λ is. is ≡ chooses_actor list.now shape index) }
{
    let mut name = Vec::new(alloc);
    push_short_name(&mut name, actor_with(shape, index))?;
    Ok(is_listed(list, name.as_slice()))
}

/// How many data words a program has.
fn count_of_words(program: &Program) -> u32
    ensures value { result ≡ length program.now.memory }
    ensures most { result ≤ 65536 }
{
    program.memory.len() as u32
}

/// A mark for each of this many data words: whether a list names it.
fn marks_of_words(
    alloc: Global,
    list: &[u8],
    text: &Located,
    count: u32,
) -> Result<Sequence<bool>, Memory>
    requires { count ≤ 65536 }
    ensures { IfOk result (λ marks. marks ≡ map (chooses_word list.now text.now) (range_with_len 0 count)) }
{
    let mut marks = Sequence::new(alloc);
    for word in 0..count {
        marks.push(chooses_word(alloc, list, text, word)?)?;
    }
    Ok(marks)
}

/// A mark for each data word that a list names, and a last one, which is of no word; no marks where the list is empty.
fn marked_words(alloc: Global, list: &[u8], text: &Located) -> Result<Sequence<bool>, Memory>
    ensures { IfOk result (λ marks. marks ≡ marked_words list.now text.now) }
{
    if list.is_empty() {
        return Ok(Sequence::new(alloc));
    }
    let mut marks = marks_of_words(alloc, list, text, count_of_words(&text.program))?;
    marks.push(false)?;
    Ok(marks)
}

/// A mark for each actor that a list names; none where the list is empty.
fn marked_actors(alloc: Global, list: &[u8], shape: Shape) -> Result<Sequence<bool>, Memory>
    ensures { IfOk result (λ marks. marks ≡ marked_actors list.now shape) }
{
    let mut marks = Sequence::new(alloc);
    if list.is_empty() {
        return Ok(marks);
    }
    for index in 0..shape.cores as u64 + shape.banks as u64 + 1 {
        marks.push(chooses_actor(alloc, list, shape, index)?)?;
    }
    Ok(marks)
}

/// Whether a code word isn't the first one of its source line.
fn is_later_word(place: CodePlace) -> bool
    ensures { result ≡ is_later_word place }
{
    place.part != 0
}

/// A mark for each code word that isn't the first one of its source line.
fn later_words(alloc: Global, places: &[CodePlace]) -> Result<Sequence<bool>, Memory>
    ensures { IfOk result (λ marks. marks ≡ map is_later_word places.now) }
{
    let mut marks = Sequence::new(alloc);
    for place in places {
        marks.push(is_later_word(*place))?;
    }
    Ok(marks)
}

/// What a chart keeps where these words and actors are listed, with commas between their names; an empty list stands for all.
///
/// A word is named as in charts, `sum[0]`, or by its address, `0x10000004`; an actor is `core0`, `bank1` or `keeper`. A name that
/// none has chooses none.
///
/// # Errors
/// `Memory` where there is no room.
pub fn keeping_of(
    alloc: Global,
    plain: PlainRows,
    words: &[u8],
    actors: &[u8],
    text: &Located,
    shape: Shape,
) -> Result<Keeping, Memory>
    ensures { IfOk result (λ keeping. keeping ≡ keeping_of plain words.now actors.now text.now shape) }
{
    Ok(Keeping {
        plain,
        later_words: later_words(alloc, text.places.code.as_slice())?,
        words: marked_words(alloc, words, text)?,
        actors: marked_actors(alloc, actors, shape)?,
        window: None,
    })
}

/// Adds the name of a word.
fn push_word_of(out: &mut Vec<u8>, text: &Located, word: usize) -> Result<(), Memory>
    ensures { OnOk result (out.new.items ≡ out.old.items ++ word_text text.now.program.regions word) }
{
    if word <= MOST_WORDS {
        push_word(out, &text.program, word as u32)
    } else {
        Err(Memory)
    }
}

/// Adds the names of marked words.
fn push_words(out: &mut Vec<u8>, text: &Located, marks: &[bool]) -> Result<(), Memory>
    ensures { OnOk result (out.new.items ≡ out.old.items ++ names_from (λ i. word_text text.now.program.regions i) space 0 marks.now) }
{
    let mut before: &[u8] = b" ";
    for word in 0..marks.len() {
        if marks[word] {
            push(out, before)?;
            push_word_of(out, text, word)?;
            before = b", ";
        }
    }
    Ok(())
}

/// Adds the names of marked actors.
fn push_actors(out: &mut Vec<u8>, shape: Shape, marks: &[bool]) -> Result<(), Memory>
    ensures { OnOk result (out.new.items ≡ out.old.items ++ names_from (λ i. actor_name (actor_with shape i)) space 0 marks.now) }
{
    let mut before: &[u8] = b" ";
    for index in 0..marks.len() {
        if marks[index] {
            push(out, before)?;
            push_actor(out, actor_with(shape, index as u64))?;
            before = b", ";
        }
    }
    Ok(())
}

#[tactic(auto, unfolding(crate::specs::Choosing::lines_note, crate::specs::Choosing::plain_note))]
fn push_plain_part(out: &mut Vec<u8>, plain: PlainRows) -> Result<(), Memory>
    ensures { OnOk result (out.new.items ≡ out.old.items ++ part_by_plain plain) }
{
    match plain {
        PlainRows::All => Ok(()),
        PlainRows::Lines => push(out, b" with la and li as one row"),
        PlainRows::Hidden => push(out, b" without plain instructions"),
    }
}

fn push_between(out: &mut Vec<u8>, is_first: bool) -> Result<(), Memory>
    ensures { OnOk result (out.new.items ≡ out.old.items ++ between is_first) }
{
    if is_first { Ok(()) } else { push(out, b";") }
}

fn push_words_part(
    out: &mut Vec<u8>,
    is_first: bool,
    text: &Located,
    marks: &[bool],
) -> Result<(), Memory>
    ensures { OnOk result (out.new.items ≡ out.old.items ++ part_by_words is_first text.now marks.now) }
{
    if marks.is_empty() {
        return Ok(());
    }
    push_between(out, is_first)?;
    push(out, b" words")?;
    push_words(out, text, marks)
}

fn push_actors_part(
    out: &mut Vec<u8>,
    is_first: bool,
    shape: Shape,
    marks: &[bool],
) -> Result<(), Memory>
    ensures { OnOk result (out.new.items ≡ out.old.items ++ part_by_actors is_first shape marks.now) }
{
    if marks.is_empty() {
        return Ok(());
    }
    push_between(out, is_first)?;
    push(out, b" actors")?;
    push_actors(out, shape, marks)
}

/// Adds how many events are kept.
#[tactic(auto, unfolding(crate::specs::Choosing::count_note))]
fn push_count(out: &mut Vec<u8>, kept: u64, whole: u64) -> Result<(), Memory>
    ensures { OnOk result (out.new.items ≡ out.old.items ++ count_note kept whole) }
{
    push_pieces(
        out,
        &[
            Bytes(b"; kept "),
            Long(kept),
            Bytes(b" of "),
            Long(whole),
            Bytes(b" events:"),
        ],
    )
}

/// Adds the events of a slide, and how many of the range are left out.
#[tactic(auto, unfolding(crate::specs::Choosing::window_note))]
fn push_window(out: &mut Vec<u8>, window: Window, left: u64) -> Result<(), Memory>
    ensures { OnOk result (out.new.items ≡ out.old.items ++ window_note window left) }
{
    push_pieces(
        out,
        &[
            Bytes(b" events "),
            Number(window.first),
            Bytes(b" to "),
            Number(window.behind.saturating_sub(1)),
            Bytes(b", "),
            Long(left),
            Bytes(b" left out"),
        ],
    )
}

fn push_window_part(
    out: &mut Vec<u8>,
    is_first: bool,
    left: u64,
    window: Option<Window>,
) -> Result<(), Memory>
    ensures { OnOk result (out.new.items ≡ out.old.items ++ part_by_window is_first left window) }
{
    let Some(window) = window else {
        return Ok(());
    };
    push_between(out, is_first)?;
    push_window(out, window, left)
}

/// Whether nothing but a window leaves events out.
fn names_nothing(keeping: &Keeping) -> bool
    ensures { result ≡ names_nothing keeping.now }
{
    keeping.plain.is_all() && keeping.words.len() == 0 && keeping.actors.len() == 0
}

/// Adds why the others are left out, and how many they are.
#[tactic(auto, unfolding(crate::specs::Choosing::reasons))]
fn push_reasons(
    out: &mut Vec<u8>,
    keeping: &Keeping,
    text: &Located,
    shape: Shape,
    left: u64,
) -> Result<(), Memory>
    ensures { OnOk result (out.new.items ≡ out.old.items ++ reasons keeping.now text.now shape left) }
{
    let words = keeping.words.as_slice();
    let keeps_plain = keeping.plain.is_all();
    let is_first = keeps_plain && words.is_empty();
    push_plain_part(out, keeping.plain)?;
    push_words_part(out, keeps_plain, text, words)?;
    push_actors_part(out, is_first, shape, keeping.actors.as_slice())?;
    push_window_part(out, names_nothing(keeping), left, keeping.window)
}

fn has_no_window(window: Option<Window>) -> bool
    ensures { result ≡ has_no_window window }
{
    match window {
        Some(_) => false,
        None => true,
    }
}

/// What follows the title where so many of so many events are kept; nothing where nothing is asked to be left out.
///
/// # Errors
/// `Memory` where there is no room.
pub(crate) fn note(
    alloc: Global,
    keeping: &Keeping,
    text: &Located,
    shape: Shape,
    kept: u64,
    whole: u64,
) -> Result<Sequence<u8>, Memory>
    ensures { IfOk result (λ note. note ≡ note_for keeping.now text.now shape kept whole) }
{
    let mut out = Vec::new(alloc);
    if names_nothing(keeping) && has_no_window(keeping.window) {
        return Ok(Sequence::from_vec(out));
    }
    push_count(&mut out, kept, whole)?;
    push_reasons(&mut out, keeping, text, shape, whole.saturating_sub(kept))?;
    Ok(Sequence::from_vec(out))
}
